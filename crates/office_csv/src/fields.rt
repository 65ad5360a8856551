//! The fields of a register's row as text, and the row of them.
ghost use Rattle.std.specs.Prelude.{◌≡◌, [], IfOk, OnErr, OnOk, map};
ghost use Rattle.std.specs.Fmt.{decimal};
ghost use Rattle.std.specs.Io.KnownBytes.{Appends};
ghost use Rattle.std.specs.Option.{option_copied, unwrap_or};
ghost use Rattle.std.specs.String.{string_bytes};
ghost use Rattle.office_base.specs.Output.{AppendsSome};
ghost use Rattle.office_csv.specs.Registers.{day_field, row_of};

use csv::WriterBuilder;
use office_base::{Memory, Stop, put_bytes};
use office_days::{Deadline, DueDay};
use office_records::Code;
use std::alloc::Global;
use std::io::Write;

/// A number in decimal digits.
pub(crate) fn number_field(alloc: Global, number: u32) -> Result<String, Memory>
    ensures { IfOk result (λ field. string_bytes field ≡ decimal number) }
{
    Ok(format!(in alloc; "{number}")?)
}

/// A due day as `2024-02-29`.
#[tactic(auto, using(office_rules::proofs::DateBytes::date_is_text))]
pub(crate) fn due_field(alloc: Global, due: DueDay) -> Result<Vec<u8>, Memory>
    ensures { IfOk result (λ field. field.items ≡ day_field due) }
{
    Ok(Vec::from_slice(alloc, &due.text())?)
}

/// A deadline as `2024-02-29`.
#[tactic(auto, using(office_rules::proofs::DateBytes::date_is_text))]
pub(crate) fn deadline_field(alloc: Global, deadline: Deadline) -> Result<Vec<u8>, Memory>
    ensures { IfOk result (λ field. field.items ≡ day_field deadline) }
{
    Ok(Vec::from_slice(alloc, &deadline.text())?)
}

/// A code, or nothing.
pub(crate) fn code_field<'a>(code: Option<&'a Code>) -> &'a str
    ensures { result.now ≡ unwrap_or (option_copied code.entry) [] }
{
    match code {
        Some(code) => code.text(),
        None => "",
    }
}

/// The row of these fields, with its line feed.
fn row_of(alloc: Global, fields: &[&[u8]]) -> Result<Vec<u8>, Memory>
    ensures { IfOk result (λ row. row.items ≡ row_of (map (λ field. field.now) fields.now)) }
{
    let mut writer = WriterBuilder::new().from_writer(Vec::new(alloc));
    match writer.write_fields(fields) {
        Ok(()) => match writer.into_inner() {
            Ok(row) => Ok(row),
            Err(_) => Err(Memory),
        },
        Err(_) => Err(Memory),
    }
}

/// Writes the row of these fields. At an error the first bytes of it, or none, went out.
#[tactic(auto, using(crate::proofs::Unwritten::none_some))]
pub(crate) fn put_fields<W: Write>(alloc: Global, fields: &[&[u8]], out: &mut W) -> Result<(), Stop>
    ensures ok { OnOk result
        (Appends (W.contents out.old) (W.contents out.new)
        (row_of (map (λ field. field.now) fields.now))) }
    ensures err { OnErr result
        (AppendsSome (W.contents out.old) (W.contents out.new)
        (row_of (map (λ field. field.now) fields.now))) }
{
    let row = row_of(alloc, fields)?;
    put_bytes(row.as_slice(), out).or(Err(Stop::Io))
}
