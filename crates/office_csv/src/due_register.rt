//! The register of what is due on a day.
ghost use Rattle.std.specs.Prelude.{◌≡◌, ◌∷◌, [], IfOk, OnErr, OnOk};
ghost use Rattle.std.specs.Fmt.{decimal};
ghost use Rattle.std.specs.Io.KnownBytes.{Appends};
ghost use Rattle.std.specs.Option.{option_copied, unwrap_or};
ghost use Rattle.std.specs.String.{string_bytes};
ghost use Rattle.office_base.specs.Output.{AppendsSome};
ghost use Rattle.office_records.specs.Words.{action_word};
ghost use Rattle.office_rules.specs.Registers.{due_reported};
ghost use Rattle.office_csv.specs.Registers.{day_field, due_columns, due_line, row_of, yes_or_no};

use crate::fields::{code_field, due_field, number_field, put_fields};
use office_base::{Memory, Stop};
use office_rules::DueRow;
use std::alloc::Global;
use std::io::Write;

/// Whether a confirmation of the record counts, in a word.
fn counts_word<'a>(reported: &'a DueRow<'a>) -> &'a str
    ensures { result.now ≡ yes_or_no reported.now.counts }
{
    if reported.counts { "yes" } else { "no" }
}

/// The word for the action.
pub(crate) fn action_of<'a>(reported: &'a DueRow<'a>) -> &'a str
    ensures { result.now ≡ action_word reported.now.action }
{
    reported.action.text()
}

/// Writes the header of the due register. `Memory` comes where memory was refused, and then nothing
/// was written; `Io` where the writer answered an error, and the first bytes of the header, or none,
/// went out.
pub fn write_due_header<W: Write>(alloc: Global, out: &mut W) -> Result<(), Stop>
    ensures ok { OnOk result
        (Appends (W.contents out.old) (W.contents out.new) (row_of due_columns)) }
    ensures err { OnErr result
        (AppendsSome (W.contents out.old) (W.contents out.new) (row_of due_columns)) }
{
    put_fields(
        alloc,
        &[
            b"record",
            b"ref",
            b"class",
            b"schedule",
            b"action",
            b"due",
            b"held",
            b"confirmed",
        ],
        out,
    )
}

/// The texts in the line of a row that are written of its number and its due day.
#[derive(Drop)]
pub(crate) struct DueTexts {
    pub(crate) number: String,
    pub(crate) due: Vec<u8>,
}

/// The texts of a row that are written of its number and its due day.
pub(crate) fn due_texts(alloc: Global, reported: &DueRow<'_>) -> Result<DueTexts, Memory>
    ensures number { IfOk result (λ it. string_bytes it.number ≡ decimal reported.now.number) }
    ensures due { IfOk result (λ it. it.due.items ≡ day_field reported.now.due) }
{
    Ok(DueTexts {
        number: number_field(alloc, reported.number)?,
        due: due_field(alloc, reported.due)?,
    })
}

/// Writes the line of a row, and of what is written of it.
fn put_line<'a, W: Write>(
    alloc: Global,
    reported: &'a DueRow<'a>,
    texts: &'a DueTexts,
    out: &mut W,
) -> Result<(), Stop>
    ensures ok { OnOk result
        (Appends (W.contents out.old) (W.contents out.new)
        (row_of (string_bytes texts.now.number ∷ reported.now.ref_text.now
        ∷ reported.now.class.now ∷ reported.now.schedule.now
        ∷ action_word reported.now.action ∷ texts.now.due.items
        ∷ unwrap_or (option_copied reported.now.held) [] ∷ yes_or_no reported.now.counts
        ∷ []))) }
    ensures err { OnErr result
        (AppendsSome (W.contents out.old) (W.contents out.new)
        (row_of (string_bytes texts.now.number ∷ reported.now.ref_text.now
        ∷ reported.now.class.now ∷ reported.now.schedule.now
        ∷ action_word reported.now.action ∷ texts.now.due.items
        ∷ unwrap_or (option_copied reported.now.held) [] ∷ yes_or_no reported.now.counts
        ∷ []))) }
{
    put_fields(
        alloc,
        &[
            texts.number.as_bytes(),
            reported.ref_text.text().as_bytes(),
            reported.class.text().as_bytes(),
            reported.schedule.text().as_bytes(),
            action_of(reported).as_bytes(),
            texts.due.as_slice(),
            code_field(reported.held).as_bytes(),
            counts_word(reported).as_bytes(),
        ],
        out,
    )
}

/// Writes the line of a record that is due. `Memory` and `Io` come as of the header.
#[tactic(auto, using(crate::proofs::Unwritten::none_some), unfolding(crate::specs::Registers::due_line))]
pub fn write_due_line<W: Write>(
    alloc: Global,
    reported: &DueRow<'_>,
    out: &mut W,
) -> Result<(), Stop>
    ensures ok { OnOk result
        (Appends (W.contents out.old) (W.contents out.new) (due_line (due_reported reported.now))) }
    ensures err { OnErr result (AppendsSome (W.contents out.old) (W.contents out.new)
        (due_line (due_reported reported.now))) }
{
    let texts = due_texts(alloc, reported)?;
    put_line(alloc, reported, &texts, out)
}
