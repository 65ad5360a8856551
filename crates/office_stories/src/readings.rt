//! What is read at a desk, as text.
use crate::failures::{failure, must};
use crate::repeating::{number, unescaped};
use office_days::{ConfirmDays, Day, read_confirm_days};
use office_desk::Desk;
use office_json::{record_value, text_of};
use office_proof::Entry;
use office_rules::RecordView;
use office_store::Fault;
use sqlite::Alter;
use std::alloc::{AllocError, Global};
use std::fmt::Write;
use std::test::Fail;

/// What is reported of a record, with the entry that ended it.
fn view_text<S: Alter>(alloc: Global, desk: &Desk<S>, view: &RecordView) -> Result<String, Fault> {
    let ending = desk.entry_of(view.number)?;
    match record_value(alloc, view, ending.as_ref()) {
        Ok(value) => text_of(alloc, &value).or(Err(Fault::Memory)),
        Err(_) => Err(Fault::Memory),
    }
}

/// What is reported where there is nothing.
fn none(alloc: Global) -> Result<String, Fault> {
    String::from_str(alloc, "none").or(Err(Fault::Memory))
}

/// What is reported of the record.
fn record_text<S: Alter>(alloc: Global, desk: &Desk<S>, record_no: u32) -> Result<String, Fault> {
    match desk.record(record_no)? {
        Some(view) => view_text(alloc, desk, &view),
        None => none(alloc),
    }
}

/// A text in quotes.
fn quoted(alloc: Global, bytes: &[u8]) -> Result<String, Fault> {
    match str::from_utf8(bytes) {
        Ok(text) => format!(in alloc; "\"{text}\"").or(Err(Fault::Memory)),
        Err(_) => Err(Fault::Damaged),
    }
}

/// The content of the record.
fn content_text<S: Alter>(
    alloc: Global,
    desk: &mut Desk<S>,
    record_no: u32,
) -> Result<String, Fault> {
    match desk.content(record_no)? {
        Some(bytes) => quoted(alloc, bytes.as_slice()),
        None => none(alloc),
    }
}

/// The certificate of the run.
fn certificate_text<S: Alter>(alloc: Global, desk: &Desk<S>, run: u32) -> Result<String, Fault> {
    match desk.certificate(run)? {
        Some(text) => Ok(text),
        None => none(alloc),
    }
}

/// The records that are due on the day.
fn due_text<S: Alter>(alloc: Global, desk: &Desk<S>, day: Day) -> Result<String, Fault> {
    let list = desk.due_list(day)?;
    format!(in alloc; "{list:?}").or(Err(Fault::Memory))
}

/// The records that are overdue on a day, so many days after their due days.
fn overdue_text<S: Alter>(
    alloc: Global,
    desk: &Desk<S>,
    day: Day,
    days: ConfirmDays,
) -> Result<String, Fault> {
    let list = desk.overdue_list(day, days)?;
    format!(in alloc; "{list:?}").or(Err(Fault::Memory))
}

/// The day and the days to confirm that words report.
fn overdue_words(words: &str) -> Option<(Day, ConfirmDays)> {
    let (day, count) = words.split_once(' ')?;
    Some((Day::read(day)?, read_confirm_days(count).ok()?))
}

/// Reports the run, the record and the outcome of an entry.
fn push_entry(text: &mut String, entry: &Entry) -> Result<(), Fault> {
    let outcome = entry.outcome.text();
    write!(
        text,
        " run {} record {} {outcome};",
        entry.run, entry.record_no
    )
    .or(Err(Fault::Memory))
}

/// All entries.
fn entries_text<S: Alter>(alloc: Global, desk: &Desk<S>) -> Result<String, Fault> {
    let entries = desk.entries()?;
    let mut text = String::new(alloc);
    for entry in entries.iter() {
        push_entry(&mut text, entry)?;
    }
    Ok(text)
}

/// The entry that ended the record.
fn ending_text<S: Alter>(alloc: Global, desk: &Desk<S>, record_no: u32) -> Result<String, Fault> {
    let Some(entry) = desk.entry_of(record_no)? else {
        return none(alloc);
    };
    let mut text = String::new(alloc);
    push_entry(&mut text, &entry)?;
    Ok(text)
}

/// What is read at a desk.
#[derive(Clone, Copy)]
enum Reading {
    Record(u32),
    Ending(u32),
    Content(u32),
    Certificate(u32),
    Due(Day),
    Overdue(Day, ConfirmDays),
    Entries,
}

/// What words read.
fn reading_of(words: &str) -> Result<Reading, Fail> {
    match words.split_once(' ') {
        Some(("record", record_no)) => Ok(Reading::Record(number(record_no)?)),
        Some(("ended", record_no)) => Ok(Reading::Ending(number(record_no)?)),
        Some(("content", record_no)) => Ok(Reading::Content(number(record_no)?)),
        Some(("certificate", run)) => Ok(Reading::Certificate(number(run)?)),
        Some(("due-list", on)) => Ok(Reading::Due(Day::read(on).ok_or("no day")?)),
        Some(("overdue-list", words)) => {
            let (day, days) = overdue_words(words).ok_or("no day, or no count of days")?;
            Ok(Reading::Overdue(day, days))
        }
        _ if words == "entries" => Ok(Reading::Entries),
        _ => Err(failure("no such reading", words)),
    }
}

/// What is read at the desk.
fn read<S: Alter>(alloc: Global, desk: &mut Desk<S>, reading: Reading) -> Result<String, Fault> {
    match reading {
        Reading::Record(record_no) => record_text(alloc, desk, record_no),
        Reading::Ending(record_no) => ending_text(alloc, desk, record_no),
        Reading::Content(record_no) => content_text(alloc, desk, record_no),
        Reading::Certificate(run) => certificate_text(alloc, desk, run),
        Reading::Due(day) => due_text(alloc, desk, day),
        Reading::Overdue(day, days) => overdue_text(alloc, desk, day, days),
        Reading::Entries => entries_text(alloc, desk),
    }
}

/// A fault as text.
pub(crate) fn fault_text(alloc: Global, fault: Fault) -> Result<String, Fail> {
    Ok(format!(in alloc; "fault {}", fault.number())?)
}

/// What is read at the desk, or the fault.
pub(crate) fn reported<S: Alter>(
    alloc: Global,
    desk: &mut Desk<S>,
    words: &str,
) -> Result<String, Fail> {
    let reading = reading_of(words)?;
    match read(alloc, desk, reading) {
        Ok(text) => Ok(text),
        Err(fault) => fault_text(alloc, fault),
    }
}

/// How a reading is compared.
#[derive(Clone, Copy)]
enum Comparison {
    Is,
    Has,
    Bytes,
}

/// The parts of a row that reports what is read: the reading, how it is compared, and with what.
fn parts(row: &str) -> Option<(&str, Comparison, &str)> {
    if let Some((reading, part)) = row.split_once(" has ") {
        return Some((reading, Comparison::Has, part));
    }
    if let Some((reading, length)) = row.split_once(" bytes ") {
        return Some((reading, Comparison::Bytes, length));
    }
    match row.split_once(" is ") {
        Some((reading, text)) => Some((reading, Comparison::Is, text)),
        None => None,
    }
}

/// Whether what is reported is as a row says.
fn agrees(alloc: Global, reported: &str, how: Comparison, with: &str) -> Result<bool, AllocError> {
    let wanted = unescaped(alloc, with)?;
    match how {
        Comparison::Is => Ok(reported.trim() == wanted.as_str().trim()),
        Comparison::Has => Ok(reported.contains(wanted.as_str())),
        Comparison::Bytes => Ok(with.parse() == Ok(reported.len())),
    }
}

/// What is read at the desk must be as the row says.
pub(crate) fn report_reading<S: Alter>(
    alloc: Global,
    desk: &mut Desk<S>,
    row: &str,
) -> Result<(), Fail> {
    let Some((reading, how, with)) = parts(row) else {
        return Err(failure("no such row", row));
    };
    let reported = reported(alloc, desk, reading)?;
    must(
        agrees(alloc, reported.as_str(), how, with)?,
        row,
        reported.as_str(),
    )
}
