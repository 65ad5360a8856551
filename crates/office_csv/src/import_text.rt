//! The text of an import, row by row.
ghost use Rattle.std.specs.Prelude.{◌≡◌, ◌≢◌, IfOk, IfSome, IsNone, IsTrue, OnOk, Err, [], false, length, option_map, true};
ghost use Rattle.std.specs.Option.{unwrap_or};
ghost use Rattle.csv.specs.Reading.{default_config, reader_state, source_of, strip_bom, ReadsNext};
ghost use Rattle.csv.specs.declared.parser.State.TheVariants as st;
ghost use Rattle.csv.specs.Records.{AllText, field_at, fields_of};
ghost use Rattle.office_csv.specs.ImportRows.{fields_in, named};
ghost use Rattle.office_csv.specs.ImportText.{HeadsRow, HeadsText, IsPlain, LacksHeader, TakesNoText};

use crate::ImportRow;
use csv::{ErrorKind, Reader, ReaderBuilder, StringRecord};
use std::alloc::Global;
use std::io::Read;

/// Why no row was read.
#[derive(Clone, Copy, PartialEq, Eq, Debug)]
pub enum RowStop {
    /// The next row is not UTF-8.
    NotText,
    /// Memory for it was asked for and refused.
    Memory,
    /// The reader answered an error.
    Io,
}

/// A reader of the rows of a text of CSV, which may have any number of fields. A byte order mark at
/// its start is passed over.
pub fn import_reader<R: Read>(alloc: Global, reader: R) -> Reader<R>
    ensures plain { IsPlain result }
    ensures start { reader_state result ≡ st.StartRecord }
    ensures source { source_of R.remaining result ≡ option_map strip_bom (R.remaining reader) }
{
    ReaderBuilder::new()
        .has_headers(false)
        .flexible(true)
        .from_reader(alloc, reader)
}

/// Reads the next row. Whether there was one. `NotText` comes where it is not UTF-8, `Memory` where
/// memory for it was refused, `Io` where the reader answered an error.
pub fn next_row<R: Read>(rdr: &mut Reader<R>, row: &mut StringRecord) -> Result<bool, RowStop>
    requires { IsPlain rdr.old }
    ensures plain { IfOk result (λ found. found ≡ true → IsPlain rdr.new) }
    ensures reads { IfOk result
        (λ found. ReadsNext default_config (reader_state rdr.old) (source_of R.remaining rdr.old)
        (source_of R.remaining rdr.new) found (fields_of row.new) (reader_state rdr.new)) }
    ensures text { OnOk result (AllText (fields_of row.new)) }
    ensures bad { result ≡ Err RowStop.NotText
        → TakesNoText (reader_state rdr.old) (source_of R.remaining rdr.old) }
{
    match rdr.read_record(row) {
        Ok(found) => Ok(found),
        Err(error) => match error.kind() {
            ErrorKind::Utf8 { .. } => Err(RowStop::NotText),
            ErrorKind::OutOfMemory => Err(RowStop::Memory),
            _ => Err(RowStop::Io),
        },
    }
}

/// The field at that place, from 0; nothing where there is none.
fn field(row: &StringRecord, place: usize) -> &str
    ensures { result.now ≡ unwrap_or (field_at (fields_of row.now) place) [] }
{
    row.get(place).unwrap_or("")
}

/// The seven fields of a row; `None` where it has another number of them.
#[tactic(auto, using(crate::proofs::Seven::seven))]
pub fn row_in(row: &StringRecord) -> Option<ImportRow<'_>>
    ensures some { IfSome result (λ it. fields_of row.now ≡ fields_in (named it)) }
    ensures none { IsNone result → length (fields_of row.now) ≢ 7 }
{
    if row.len() != 7 {
        return None;
    }
    Some(ImportRow {
        ref_text: field(row, 0),
        title: field(row, 1),
        originated: field(row, 2),
        aggregation: field(row, 3),
        class: field(row, 4),
        schedule: field(row, 5),
        content: field(row, 6),
    })
}

/// Whether a row names the columns.
fn is_header(row: &StringRecord) -> bool
    ensures yes { IsTrue result → HeadsRow (fields_of row.now) }
    ensures no { result ≡ false → HeadsRow (fields_of row.now) → ⊥ }
{
    match row_in(row) {
        Some(it) => it.is_header(),
        None => false,
    }
}

/// Reads the first row. Whether there is one that names the columns. It stops as [`next_row`] does.
pub fn read_header<R: Read>(rdr: &mut Reader<R>, row: &mut StringRecord) -> Result<bool, RowStop>
    requires { IsPlain rdr.old }
    ensures plain { IfOk result (λ named. named ≡ true → IsPlain rdr.new) }
    ensures heads { IfOk result
        (λ named. IsTrue named
        → HeadsText (reader_state rdr.old) (source_of R.remaining rdr.old)
        (reader_state rdr.new) (source_of R.remaining rdr.new)) }
    ensures lacks { IfOk result
        (λ named. named ≡ false
        → LacksHeader (reader_state rdr.old) (source_of R.remaining rdr.old)) }
    ensures bad { result ≡ Err RowStop.NotText
        → LacksHeader (reader_state rdr.old) (source_of R.remaining rdr.old) }
{
    let found = next_row(rdr, row)?;
    Ok(found && is_header(row))
}
