//! The tables of an office, as statements change them and as they are found.
use crate::disks::{Image, Stop};
use crate::errands::{Errand, do_all, done};
use crate::failures::{failure, must};
use crate::readings::fault_text;
use crate::selections::all_selected;
use office_desk::Desk;
use office_rules::Tables;
use office_store::Store;
use sqlite::{Alter, Connection};
use std::alloc::Global;
use std::test::Fail;

/// Changes the tables by statements; nothing is reported of it.
pub(crate) fn change<S: Alter>(
    alloc: Global,
    mut conn: Connection<S>,
    statements: &str,
) -> (Result<String, Fail>, Connection<S>) {
    match conn.execute_batch(statements) {
        Ok(()) => (Ok(String::new(alloc)), conn),
        Err(_) => (Err(failure("not done", statements)), conn),
    }
}

/// All rows of the tables, as they are read by statements once the office is opened, or the fault.
pub(crate) fn tables_text<S: Alter>(
    alloc: Global,
    conn: Connection<S>,
) -> (Result<String, Fail>, Connection<S>) {
    if !conn.is_autocommit() {
        return (Err(Fail::new("a transaction is under way")), conn);
    }
    match Desk::open(alloc, conn) {
        Ok(desk) => {
            let mut conn = desk.close();
            (all_selected(alloc, &mut conn), conn)
        }
        Err((fault, conn)) => (fault_text(alloc, fault), conn),
    }
}

/// How many rows the tables have.
fn counts(tables: &Tables) -> [usize; 11] {
    [
        tables.schedules.len(),
        tables.classes.len(),
        tables.aggregations.len(),
        tables.records.len(),
        tables.events.len(),
        tables.contents.len(),
        tables.holds.len(),
        tables.targets.len(),
        tables.runs.len(),
        tables.entries.len(),
        tables.certificates.len(),
    ]
}

/// The numbers as a list.
fn list(alloc: Global, counts: &[usize]) -> Result<String, Fail> {
    Ok(format!(in alloc; "{counts:?}")?)
}

/// How many rows the tables have that are adopted behind a connection, or the fault.
pub(crate) fn counts_text<S: Alter>(
    alloc: Global,
    conn: Connection<S>,
) -> (Result<String, Fail>, Connection<S>) {
    if !conn.is_autocommit() {
        return (Err(Fail::new("a transaction is under way")), conn);
    }
    match Store::adopt(alloc, conn) {
        Ok((store, tables)) => (list(alloc, &counts(&tables)), store.release()),
        Err((fault, conn)) => (fault_text(alloc, fault), conn),
    }
}

/// The tables must have as many rows as the row says.
pub(crate) fn report_counts(alloc: Global, image: &mut Image, row: &str) -> Result<(), Fail> {
    let reported = done(alloc, image, Stop::never(), Errand::Counts)?;
    must(reported.as_str() == row, row, reported.as_str())
}

/// What is in the tables, where no office is opened before.
pub(crate) fn rows_in(alloc: Global, image: &mut Image) -> Result<String, Fail> {
    done(alloc, image, Stop::never(), Errand::AllRows)
}

/// What a statement reads from the tables, where no office is opened before, must be as the row
/// says.
pub(crate) fn report_selection(alloc: Global, image: &mut Image, row: &str) -> Result<(), Fail> {
    let Some((select, wanted)) = row.split_once(" is ") else {
        return Err(failure("no such row", row));
    };
    let reported = done(alloc, image, Stop::never(), Errand::Selection(select))?;
    must(reported.as_str() == wanted, row, reported.as_str())
}

/// How an office is opened after statements on a copy of it: nothing, or the fault. One that is
/// refused keeps its rows.
fn opening_after(alloc: Global, image: &Image, statements: &str) -> Result<String, Fail> {
    let mut copy = image.copy(alloc)?;
    do_all(alloc, &mut copy, Errand::Statements(statements))?;
    let before = rows_in(alloc, &mut copy)?;
    let reported = done(alloc, &mut copy, Stop::never(), Errand::Asks(&[]))?;
    if !reported.is_empty() {
        let after = rows_in(alloc, &mut copy)?;
        must(
            after.as_str() == before.as_str(),
            statements,
            after.as_str(),
        )?;
    }
    Ok(reported)
}

/// An office must be opened after statements, or not, as the row says.
pub(crate) fn report_opening(alloc: Global, image: &Image, row: &str) -> Result<(), Fail> {
    let Some((wanted, statements)) = row.split_once(" after ") else {
        return Err(failure("no statements", row));
    };
    let reported = opening_after(alloc, image, statements)?;
    must(
        reported.as_str() == wanted || reported.is_empty() && wanted == "opened",
        row,
        reported.as_str(),
    )
}
