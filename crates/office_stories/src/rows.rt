//! Rows at an open desk.
use crate::acts::report_act;
use crate::clients::report_client;
use crate::readings::report_reading;
use crate::repeating::{FOR_EACH, copies};
use office_desk::Desk;
use sqlite::Alter;
use std::alloc::Global;
use std::test::Fail;

/// How rows are reported at an open desk.
#[derive(Clone, Copy)]
pub(crate) enum Way {
    /// As acts and readings.
    Rows,
    /// As clients whose bytes come in pieces of at most so many.
    Pieces(u32),
}

/// An act or a reading, at an open desk.
fn report_row<S: Alter>(alloc: Global, desk: &mut Desk<S>, row: &str) -> Result<(), Fail> {
    match row.split_once(" = ") {
        Some((words, answer)) => report_act(alloc, desk, words, answer),
        None => report_reading(alloc, desk, row),
    }
}

/// A row that is reported once, at an open desk.
fn report_once<S: Alter>(
    alloc: Global,
    desk: &mut Desk<S>,
    way: Way,
    row: &str,
) -> Result<(), Fail> {
    match way {
        Way::Rows => report_row(alloc, desk, row),
        Way::Pieces(most) => report_client(alloc, desk, row, most as usize),
    }
}

/// A row that may be reported for each of several numbers.
fn report_at<S: Alter>(alloc: Global, desk: &mut Desk<S>, way: Way, row: &str) -> Result<(), Fail> {
    let Some((row, list)) = row.split_once(FOR_EACH) else {
        return report_once(alloc, desk, way, row);
    };
    for copy in copies(alloc, row, list)? {
        report_once(alloc, desk, way, copy.as_str())?;
    }
    Ok(())
}

/// All rows at an open desk.
pub(crate) fn report_rows<S: Alter>(
    alloc: Global,
    desk: &mut Desk<S>,
    way: Way,
    rows: &str,
) -> Result<(), Fail> {
    for row in rows.lines() {
        if !row.is_empty() {
            report_at(alloc, desk, way, row)?;
        }
    }
    Ok(())
}
