//! The register of what is overdue on a day.
ghost use Rattle.std.specs.Prelude.{◌≡◌, ◌∷◌, [], IfOk, OnErr, OnOk};
ghost use Rattle.std.specs.Io.KnownBytes.{Appends};
ghost use Rattle.std.specs.Option.{option_copied, unwrap_or};
ghost use Rattle.std.specs.String.{string_bytes};
ghost use Rattle.office_base.specs.Output.{AppendsSome};
ghost use Rattle.office_days.specs.Due.{deadline_from};
ghost use Rattle.office_records.specs.Words.{action_word};
ghost use Rattle.office_rules.specs.Registers.{due_reported};
ghost use Rattle.office_csv.specs.Registers.{day_field, overdue_columns, overdue_line, row_of};

use crate::due_register::{DueTexts, action_of, due_texts};
use crate::fields::{code_field, deadline_field, put_fields};
use office_base::{Memory, Stop};
use office_days::{ConfirmDays, deadline};
use office_rules::DueRow;
use std::alloc::Global;
use std::io::Write;

/// Writes the header of the overdue register. `Memory` comes where memory was refused, and then
/// nothing was written; `Io` where the writer answered an error, and the first bytes of the
/// header, or none, went out.
pub fn write_overdue_header<W: Write>(alloc: Global, out: &mut W) -> Result<(), Stop>
    ensures ok { OnOk result
        (Appends (W.contents out.old) (W.contents out.new) (row_of overdue_columns)) }
    ensures err { OnErr result
        (AppendsSome (W.contents out.old) (W.contents out.new) (row_of overdue_columns)) }
{
    put_fields(
        alloc,
        &[
            b"record",
            b"ref",
            b"class",
            b"schedule",
            b"action",
            b"due",
            b"deadline",
            b"held",
        ],
        out,
    )
}

/// The deadline of a row, as it is written.
fn deadline_text(alloc: Global, row: &DueRow<'_>, days: ConfirmDays) -> Result<Vec<u8>, Memory>
    ensures { IfOk result (λ text. text.items ≡ day_field (deadline_from row.now.due days)) }
{
    deadline_field(alloc, deadline(row.due, days))
}

/// Writes the line of a row, and of what is written of it.
fn put_line<'a, W: Write>(
    alloc: Global,
    row: &'a DueRow<'a>,
    texts: &'a DueTexts,
    deadline: &'a [u8],
    out: &mut W,
) -> Result<(), Stop>
    ensures ok { OnOk result
        (Appends (W.contents out.old) (W.contents out.new)
        (row_of (string_bytes texts.now.number ∷ row.now.ref_text.now ∷ row.now.class.now
        ∷ row.now.schedule.now ∷ action_word row.now.action ∷ texts.now.due.items
        ∷ deadline.now ∷ unwrap_or (option_copied row.now.held) [] ∷ []))) }
    ensures err { OnErr result
        (AppendsSome (W.contents out.old) (W.contents out.new)
        (row_of (string_bytes texts.now.number ∷ row.now.ref_text.now ∷ row.now.class.now
        ∷ row.now.schedule.now ∷ action_word row.now.action ∷ texts.now.due.items
        ∷ deadline.now ∷ unwrap_or (option_copied row.now.held) [] ∷ []))) }
{
    put_fields(
        alloc,
        &[
            texts.number.as_bytes(),
            row.ref_text.text().as_bytes(),
            row.class.text().as_bytes(),
            row.schedule.text().as_bytes(),
            action_of(row).as_bytes(),
            texts.due.as_slice(),
            deadline,
            code_field(row.held).as_bytes(),
        ],
        out,
    )
}

/// Writes the line of a record that is overdue, so many days after its due day. `Memory` and `Io`
/// come as of the header.
#[tactic(auto, using(crate::proofs::Unwritten::none_some), unfolding(crate::specs::Registers::overdue_line))]
pub fn write_overdue_line<W: Write>(
    alloc: Global,
    row: &DueRow<'_>,
    days: ConfirmDays,
    out: &mut W,
) -> Result<(), Stop>
    ensures ok { OnOk result
        (Appends (W.contents out.old) (W.contents out.new)
        (overdue_line days (due_reported row.now))) }
    ensures err { OnErr result
        (AppendsSome (W.contents out.old) (W.contents out.new)
        (overdue_line days (due_reported row.now))) }
{
    let texts = due_texts(alloc, row)?;
    let deadline = deadline_text(alloc, row, days)?;
    put_line(alloc, row, &texts, &deadline, out)
}
