//! Records that are added by the rows of a text of CSV.
ghost use Rattle.std.specs.Prelude.{◌≡◌, ◌+◌, ◌-◌, ◌^◌, ◌<◌, ℕ, List, Option};
ghost use Rattle.csv.specs.Reading.{reader_state, source_of};
ghost use Rattle.csv.specs.declared.parser.State.TheVariants.{StartRecord};
ghost use Rattle.csv.specs.Records.{fields_of};
ghost use Rattle.office_csv.specs.ImportRows.{named};
ghost use Rattle.office_csv.specs.ImportText.{HeadsText, IsPlain};
ghost use Rattle.office_wire.specs.Calling.{CalledAt};
ghost use Rattle.office_wire.specs.Importing.{EndsImport, EndsRow, EndsTaking, ImportsText, one_if, stop_at};

use crate::import_lines::write_line;
use csv::{Reader, StringRecord};
use office_base::Io;
use office_csv::{
    ImportRow, RowStop, import_reader, next_row, read_header, read_import_row, row_in,
};
use office_days::Day;
use office_desk::Desk;
use office_json::ReadFault;
use office_rules::Answer;
use office_store::Fault;
use sqlite::Alter;
use std::alloc::Global;
use std::io::{Read, Write};

/// Why an import stopped. What the rows before it asked for is done.
#[derive(Clone, Copy, PartialEq, Eq, Debug)]
pub enum ImportStop {
    /// The first row does not name the columns, or there is none.
    Header,
    /// The row of that number, from 1, has another number of fields, or is not UTF-8.
    Row(u64),
    /// The desk reported this fault, or lack of memory.
    Fault(Fault),
    /// The reader or the writer answered an error.
    Io,
}

/// Does what a row asks for, and gives the answer.
fn answer_row<S: Alter>(
    alloc: Global,
    desk: &mut Desk<S>,
    day: Day,
    row: &ImportRow<'_>,
) -> Result<Answer, Fault>
    ensures { CalledAt S.Store desk.old desk.new
        (λ s. EndsRow S.Store day s (named row.now) result desk.new) }
{
    match read_import_row(alloc, day, row) {
        Ok(act) => desk.perform(&act),
        Err(ReadFault::Refused(refusal)) => Ok(Answer::Refused(refusal)),
        Err(ReadFault::Memory) => Err(Fault::Memory),
    }
}

/// Does what a row asks for, and writes its line. Whether it was refused.
fn take_row<S: Alter, W: Write>(
    alloc: Global,
    desk: &mut Desk<S>,
    day: Day,
    number: u64,
    row: &StringRecord,
    out: &mut W,
) -> Result<bool, ImportStop>
    ensures { CalledAt S.Store desk.old desk.new
        (λ s. EndsTaking S.Store day s number (fields_of row.now) result desk.new
        (W.contents out.old) (W.contents out.new)) }
{
    let Some(it) = row_in(row) else {
        return Err(ImportStop::Row(number));
    };
    match answer_row(alloc, desk, day, &it) {
        Ok(answer) => match write_line(number, answer, out) {
            Ok(()) => Ok(answer.is_refusal()),
            Err(Io) => Err(ImportStop::Io),
        },
        Err(fault) => Err(ImportStop::Fault(fault)),
    }
}

/// Why an import stops where no row was read in that place.
fn stop_at(stop: RowStop, number: u64) -> ImportStop
    ensures { result ≡ stop_at stop number }
{
    match stop {
        RowStop::NotText => ImportStop::Row(number),
        RowStop::Memory => ImportStop::Fault(Fault::Memory),
        RowStop::Io => ImportStop::Io,
    }
}

/// So many refused rows, and one more where it was.
fn count_refused(refused: u64, is_refused: bool) -> u64
    requires { refused < 2 ^ 64 - 1 }
    ensures { result ≡ refused + one_if is_refused }
{
    if is_refused { refused + 1 } else { refused }
}

/// Does what all rows after the header of a text ask for, each before the next is read. How many
/// were refused.
fn import_rows<S: Alter, R: Read, W: Write>(
    alloc: Global,
    desk: &mut Desk<S>,
    day: Day,
    rdr: &mut Reader<R>,
    out: &mut W,
) -> Result<u64, ImportStop>
    requires { IsPlain rdr.old }
    ensures { (text : Option (List ℕ))
        → HeadsText StartRecord text (reader_state rdr.old) (source_of R.remaining rdr.old)
        → CalledAt S.Store desk.old desk.new
        (λ s. EndsImport S.Store day s text result desk.new (W.contents out.old)
        (W.contents out.new)) }
{
    let mut row = StringRecord::new(alloc);
    let mut refused = 0;
    for before in 0..u64::MAX {
        match next_row(rdr, &mut row) {
            Ok(true) => {}
            Ok(false) => return Ok(refused),
            Err(stop) => return Err(stop_at(stop, before + 1)),
        }
        match take_row(alloc, desk, day, before + 1, &row, out) {
            Ok(is_refused) => refused = count_refused(refused, is_refused),
            Err(stop) => return Err(stop),
        }
    }
    Err(ImportStop::Io)
}

/// Does what a text asks for: its header is read first, and then its rows. How many were refused.
fn import_text<S: Alter, R: Read, W: Write>(
    alloc: Global,
    desk: &mut Desk<S>,
    day: Day,
    rdr: &mut Reader<R>,
    out: &mut W,
) -> Result<u64, ImportStop>
    requires plain { IsPlain rdr.old }
    requires start { reader_state rdr.old ≡ StartRecord }
    ensures { CalledAt S.Store desk.old desk.new
        (λ s. EndsImport S.Store day s (source_of R.remaining rdr.old) result desk.new
        (W.contents out.old) (W.contents out.new)) }
{
    let mut row = StringRecord::new(alloc);
    match read_header(rdr, &mut row) {
        Ok(true) => import_rows(alloc, desk, day, rdr, out),
        Ok(false) => Err(ImportStop::Header),
        Err(RowStop::NotText) => Err(ImportStop::Header),
        Err(RowStop::Memory) => Err(ImportStop::Fault(Fault::Memory)),
        Err(RowStop::Io) => Err(ImportStop::Io),
    }
}

/// Adds, on that day, the records that the rows of a text of CSV ask for, one after another, each
/// before the next row is read, and writes a line for each: its number, from 1, and `number N`,
/// `same N` or `refused N`. Gives how many were refused. The first row names the columns
/// `ref,title,originated,aggregation,class,schedule,content`.
///
/// Where it stops, what the rows before asked for is done: at `Header` that is nothing; at `Row(N)`
/// the Nth row has another number of fields or is not UTF-8; at `Fault` the desk was stopped at the
/// next row, or memory was refused to read it; at `Io` the reader or the writer answered an error.
/// Each row that was done has its line then, but of the last one there may be only some of it, or
/// nothing. The same text may be given again: a record that is there is reported as the same.
pub fn import_records<S: Alter, R: Read, W: Write>(
    alloc: Global,
    desk: &mut Desk<S>,
    day: Day,
    reader: &mut R,
    out: &mut W,
) -> Result<u64, ImportStop>
    ensures { ImportsText S.Store day (R.remaining reader.old) W.contents out.old out.new result
        desk.old desk.new }
{
    if desk.is_poisoned() {
        return Err(ImportStop::Fault(Fault::Reopen));
    }
    let mut rdr = import_reader(alloc, reader);
    match import_text(alloc, desk, day, &mut rdr, out) {
        Ok(refused) => match out.flush() {
            Ok(()) => Ok(refused),
            Err(_) => Err(ImportStop::Io),
        },
        Err(stop) => Err(stop),
    }
}
