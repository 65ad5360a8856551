//! An office is opened while memory is refused for one of its rows.
use crate::disks::{Image, Stop};
use crate::errands::{Errand, done};
use crate::failures::{failure, must};
use crate::readings::fault_text;
use crate::tables::rows_in;
use office_base::Rebuild;
use office_machine::{Builder, Intake, Row};
use office_store::Store;
use sqlite::{Alter, Connection};
use std::alloc::Global;
use std::test::Fail;

/// What takes so many rows in; there is no memory for the next.
#[derive(Drop)]
struct Refusing {
    builder: Builder,
    left: usize,
}

impl Intake for Refusing {
    ghost content = { λ it. it.builder };

    ghost examines = { Unit {0} };

    fn row(&mut self, row: Row) -> Result<(), Rebuild> {
        if self.left == 0 {
            return Err(Rebuild::Memory);
        }
        self.left -= 1;
        self.builder.row(row)
    }
}

/// The office behind a connection is taken over with memory for so many rows; the fault where they
/// do not do.
pub(crate) fn taken_over<S: Alter>(
    alloc: Global,
    conn: Connection<S>,
    rows: usize,
) -> (Result<String, Fail>, Connection<S>) {
    if !conn.is_autocommit() {
        return (Err(Fail::new("a transaction is under way")), conn);
    }
    let mut intake = Refusing {
        builder: Builder::new(alloc),
        left: rows,
    };
    match Store::adopt_into(alloc, conn, &mut intake) {
        Ok(store) => (Ok(String::new(alloc)), store.release()),
        Err((fault, conn)) => (fault_text(alloc, fault), conn),
    }
}

/// With memory for each number of rows below the one that is reported the office is not taken over
/// for want of memory, with memory for that one it is, and its tables stay as they are.
pub(crate) fn report_taken_over(alloc: Global, image: &mut Image, row: &str) -> Result<(), Fail> {
    let before = rows_in(alloc, image)?;
    for rows in 0..1_000usize {
        let reported = done(alloc, image, Stop::never(), Errand::TakenOver(rows))?;
        let after = rows_in(alloc, image)?;
        must(after.as_str() == before.as_str(), row, after.as_str())?;
        if reported.is_empty() {
            let count = format!(in alloc; "with {rows} rows")?;
            return must(row == count.as_str(), row, count.as_str());
        }
        must(reported.as_str() == "fault 30", row, reported.as_str())?;
    }
    Err(failure("never taken over", row))
}
