//! The register of the entries of all runs.
ghost use Rattle.std.specs.Prelude.{◌≡◌, ◌∷◌, [], IfOk, OnErr, OnOk};
ghost use Rattle.std.specs.Fmt.{decimal};
ghost use Rattle.std.specs.Io.KnownBytes.{Appends};
ghost use Rattle.std.specs.Option.{unwrap_or};
ghost use Rattle.std.specs.String.{string_bytes};
ghost use Rattle.office_base.specs.Output.{AppendsSome};
ghost use Rattle.hex.specs.Hex.{encode_lower};
ghost use Rattle.office_rules.specs.Outcomes.{outcome_word};
ghost use Rattle.office_rules.specs.Registers.{entry_view};
ghost use Rattle.office_csv.specs.Registers.{day_field, entry_columns, entry_line, row_of};

use crate::fields::{code_field, due_field, number_field, put_fields};
use office_base::{Memory, Stop};
use office_rules::{Entry, EntryRow};
use std::alloc::Global;
use std::io::Write;

/// Writes the header of the register of entries. `Memory` comes where memory was refused, and then
/// nothing was written; `Io` where the writer answered an error, and the first bytes of the
/// header, or none, went out.
pub fn write_entry_header<W: Write>(alloc: Global, out: &mut W) -> Result<(), Stop>
    ensures ok { OnOk result
        (Appends (W.contents out.old) (W.contents out.new) (row_of entry_columns)) }
    ensures err { OnErr result
        (AppendsSome (W.contents out.old) (W.contents out.new) (row_of entry_columns)) }
{
    put_fields(
        alloc,
        &[
            b"run",
            b"record",
            b"ref",
            b"outcome",
            b"class",
            b"schedule",
            b"due",
            b"hold",
            b"confirmed_by",
            b"length",
            b"digest",
        ],
        out,
    )
}

/// The texts in the line of an entry that are written of numbers, days and digests.
#[derive(Drop)]
struct Written {
    run: String,
    number: String,
    due: Vec<u8>,
    length: String,
    digest: String,
}

/// The texts of a row that are written of its numbers, its day and its digest.
fn texts_of(alloc: Global, reported: &EntryRow<'_>) -> Result<Written, Memory>
    ensures numbers { IfOk result
        (λ it. (string_bytes it.run ≡ decimal reported.now.entry.now.run)
        × (string_bytes it.number ≡ decimal reported.now.entry.now.record_no)) }
    ensures due { IfOk result (λ it. it.due.items ≡ day_field reported.now.entry.now.due) }
    ensures content { IfOk result
        (λ it. (string_bytes it.length ≡ decimal reported.now.length)
        × (string_bytes it.digest ≡ encode_lower reported.now.digest.now)) }
{
    Ok(Written {
        run: number_field(alloc, reported.entry.run)?,
        number: number_field(alloc, reported.entry.record_no)?,
        due: due_field(alloc, reported.entry.due)?,
        length: number_field(alloc, reported.length)?,
        digest: hex::encode(alloc, reported.digest)?,
    })
}

/// The word for an entry's outcome.
fn outcome_of(entry: &Entry) -> &str
    ensures { result.now ≡ outcome_word entry.now.outcome }
{
    entry.outcome.text()
}

/// Writes the line of a row, and of what is written of it.
fn put_line<W: Write>(
    alloc: Global,
    reported: &EntryRow<'_>,
    texts: &Written,
    out: &mut W,
) -> Result<(), Stop>
    ensures ok { OnOk result
        (Appends (W.contents out.old) (W.contents out.new)
        (row_of (string_bytes texts.now.run ∷ string_bytes texts.now.number
        ∷ reported.now.ref_text.now ∷ outcome_word reported.now.entry.now.outcome
        ∷ reported.now.entry.now.class ∷ reported.now.entry.now.schedule
        ∷ texts.now.due.items ∷ unwrap_or reported.now.entry.now.hold []
        ∷ reported.now.entry.now.confirmed_by ∷ string_bytes texts.now.length
        ∷ string_bytes texts.now.digest ∷ []))) }
    ensures err { OnErr result
        (AppendsSome (W.contents out.old) (W.contents out.new)
        (row_of (string_bytes texts.now.run ∷ string_bytes texts.now.number
        ∷ reported.now.ref_text.now ∷ outcome_word reported.now.entry.now.outcome
        ∷ reported.now.entry.now.class ∷ reported.now.entry.now.schedule
        ∷ texts.now.due.items ∷ unwrap_or reported.now.entry.now.hold []
        ∷ reported.now.entry.now.confirmed_by ∷ string_bytes texts.now.length
        ∷ string_bytes texts.now.digest ∷ []))) }
{
    let entry = reported.entry;
    put_fields(
        alloc,
        &[
            texts.run.as_bytes(),
            texts.number.as_bytes(),
            reported.ref_text.text().as_bytes(),
            outcome_of(entry).as_bytes(),
            entry.class.text().as_bytes(),
            entry.schedule.text().as_bytes(),
            texts.due.as_slice(),
            code_field(entry.hold.as_ref()).as_bytes(),
            entry.confirmed_by.text().as_bytes(),
            texts.length.as_bytes(),
            texts.digest.as_bytes(),
        ],
        out,
    )
}

/// Writes the line of an entry. `Memory` and `Io` come as of the header.
#[tactic(auto, using(crate::proofs::Unwritten::none_some), unfolding(crate::specs::Registers::entry_line))]
pub fn write_entry_line<W: Write>(
    alloc: Global,
    reported: &EntryRow<'_>,
    out: &mut W,
) -> Result<(), Stop>
    ensures ok { OnOk result
        (Appends (W.contents out.old) (W.contents out.new) (entry_line (entry_view reported.now))) }
    ensures err { OnErr result (AppendsSome (W.contents out.old) (W.contents out.new)
        (entry_line (entry_view reported.now))) }
{
    let texts = texts_of(alloc, reported)?;
    put_line(alloc, reported, &texts, out)
}
