//! The rows of tables that are in memory, given one after another to what takes rows in.
ghost use Rattle.std.specs.Prelude.{◌≡◌, IfOk, OnOk, map};
ghost use Rattle.office_base.specs.Rows.{OnDamaged};
ghost use Rattle.office_rules.specs.Giving.{IsSameRow, RepresentNoneFrom, up_to_classes, up_to_contents, up_to_targets};
ghost use Rattle.office_rules.specs.Tables.{Begins, RepresentNone, TableLists, lists_of, no_rows, with_row, with_rows};
ghost use Rattle.office_rules.specs.declared.table_row.Row.TheVariants as of_table;

use crate::copies::copy_entry;
use crate::{Entry, Intake, RecordRow, Row, Run, RunNo, Tables};
use office_base::{Memory, Rebuild};
use office_records::{AggNo, Aggregation, Class, Code, Event, HoldRow, RecordNo, Schedule, Target};
use std::alloc::Global;

/// What is in a table that is in memory.
trait Kept: Sized {
    ghost use Rattle.office_rules.specs.declared.table_row.Row.{Row};

    /// It, as a row of its table.
    ghost row_of: { Self → Row };

    /// A second row that is the same.
    fn copied(&self, alloc: Global) -> Result<Row, Memory>
        ensures { IfOk result (λ it. IsSameRow it (row_of self.now)) };
}

impl Kept for (Code, Schedule) {
    ghost row_of = { λ e. of_table.Schedule e.0 e.1 };

    fn copied(&self, alloc: Global) -> Result<Row, Memory> {
        Ok(Row::Schedule {
            code: self.0.copy(alloc)?,
            schedule: self.1,
        })
    }
}

impl Kept for (Code, Class) {
    ghost row_of = { λ e. of_table.Class e.0 e.1 };

    fn copied(&self, alloc: Global) -> Result<Row, Memory> {
        Ok(Row::Class {
            code: self.0.copy(alloc)?,
            class: self.1.copy(alloc)?,
        })
    }
}

impl Kept for (AggNo, Aggregation) {
    ghost row_of = { λ e. of_table.Aggregation e.0 e.1 };

    fn copied(&self, alloc: Global) -> Result<Row, Memory> {
        Ok(Row::Aggregation {
            number: self.0,
            aggregation: self.1.copy(alloc)?,
        })
    }
}

impl Kept for (RecordNo, RecordRow) {
    ghost row_of = { λ e. of_table.Record e.0 e.1 };

    fn copied(&self, alloc: Global) -> Result<Row, Memory> {
        Ok(Row::Record {
            number: self.0,
            columns: self.1.copy(alloc)?,
        })
    }
}

impl Kept for (RecordNo, Event) {
    ghost row_of = { λ e. of_table.Event e.0 e.1 };

    fn copied(&self, alloc: Global) -> Result<Row, Memory> {
        Ok(Row::Event {
            number: self.0,
            event: self.1.copy(alloc)?,
        })
    }
}

impl Kept for RecordNo {
    ghost row_of = { of_table.Content };

    fn copied(&self, _: Global) -> Result<Row, Memory> {
        Ok(Row::Content { number: *self })
    }
}

impl Kept for (Code, HoldRow) {
    ghost row_of = { λ e. of_table.Hold e.0 e.1 };

    fn copied(&self, alloc: Global) -> Result<Row, Memory> {
        Ok(Row::Hold {
            code: self.0.copy(alloc)?,
            hold: self.1.copy(alloc)?,
        })
    }
}

impl Kept for (Code, Target) {
    ghost row_of = { λ e. of_table.Target e.0 e.1 };

    fn copied(&self, alloc: Global) -> Result<Row, Memory> {
        Ok(Row::Target {
            hold: self.0.copy(alloc)?,
            target: self.1.copy(alloc)?,
        })
    }
}

impl Kept for (RunNo, Run) {
    ghost row_of = { λ e. of_table.Run e.0 e.1 };

    fn copied(&self, alloc: Global) -> Result<Row, Memory> {
        Ok(Row::Run {
            number: self.0,
            run: self.1.copy(alloc)?,
        })
    }
}

impl Kept for Entry {
    ghost row_of = { of_table.Entry };

    fn copied(&self, alloc: Global) -> Result<Row, Memory> {
        Ok(Row::Entry {
            entry: copy_entry(alloc, self)?,
        })
    }
}

impl Kept for (RunNo, String) {
    ghost row_of = { λ e. of_table.Certificate e.0 e.1 };

    fn copied(&self, alloc: Global) -> Result<Row, Memory> {
        Ok(Row::Certificate {
            run: self.0,
            text: String::from_str(alloc, self.1.as_str())?,
        })
    }
}

/// Gives a copy of one row.
fn give<T: Kept, I: Intake>(alloc: Global, row: &T, intake: &mut I) -> Result<(), Rebuild>
    ensures ok { OnOk result
        (I.content intake.new ≡ with_row (I.content intake.old) (T.row_of row.now)) }
    ensures damaged { OnDamaged result
        ((t : TableLists) → Begins (with_row (I.content intake.old) (T.row_of row.now)) t
        → RepresentNone t) }
{
    match row.copied(alloc) {
        Ok(copy) => intake.row(copy),
        Err(_) => Err(Rebuild::Memory),
    }
}

/// Gives copies of all the rows of a table, in their order.
fn give_all<T: Kept, I: Intake>(alloc: Global, rows: &[T], intake: &mut I) -> Result<(), Rebuild>
    ensures ok { OnOk result
        (I.content intake.new ≡ with_rows (I.content intake.old) (map T.row_of rows.now)) }
    ensures damaged { OnDamaged result
        (RepresentNoneFrom (I.content intake.old) T.row_of rows.now) }
{
    for row in rows {
        give(alloc, row, intake)?;
    }
    Ok(())
}

impl Tables {
    /// Gives copies of the rows of office, schedules and classes.
    fn give_plan<I: Intake>(&self, alloc: Global, intake: &mut I) -> Result<(), Rebuild>
        requires { I.content intake.old ≡ no_rows }
        ensures ok { OnOk result (I.content intake.new ≡ up_to_classes (lists_of self.now)) }
        ensures damaged { OnDamaged result (RepresentNone (lists_of self.now)) }
    {
        intake.row(Row::Office { day: self.day })?;
        give_all(alloc, &self.schedules, intake)?;
        give_all(alloc, &self.classes, intake)
    }

    /// Then those of aggregations, records, events and contents.
    fn give_records<I: Intake>(&self, alloc: Global, intake: &mut I) -> Result<(), Rebuild>
        requires { I.content intake.old ≡ up_to_classes (lists_of self.now) }
        ensures ok { OnOk result (I.content intake.new ≡ up_to_contents (lists_of self.now)) }
        ensures damaged { OnDamaged result (RepresentNone (lists_of self.now)) }
    {
        give_all(alloc, &self.aggregations, intake)?;
        give_all(alloc, &self.records, intake)?;
        give_all(alloc, &self.events, intake)?;
        give_all(alloc, &self.contents, intake)
    }

    /// Then those of holds and targets.
    fn give_holds<I: Intake>(&self, alloc: Global, intake: &mut I) -> Result<(), Rebuild>
        requires { I.content intake.old ≡ up_to_contents (lists_of self.now) }
        ensures ok { OnOk result (I.content intake.new ≡ up_to_targets (lists_of self.now)) }
        ensures damaged { OnDamaged result (RepresentNone (lists_of self.now)) }
    {
        give_all(alloc, &self.holds, intake)?;
        give_all(alloc, &self.targets, intake)
    }

    /// Then those of runs, entries and certificates.
    fn give_runs<I: Intake>(&self, alloc: Global, intake: &mut I) -> Result<(), Rebuild>
        requires { I.content intake.old ≡ up_to_targets (lists_of self.now) }
        ensures ok { OnOk result (I.content intake.new ≡ lists_of self.now) }
        ensures damaged { OnDamaged result (RepresentNone (lists_of self.now)) }
    {
        give_all(alloc, &self.runs, intake)?;
        give_all(alloc, &self.entries, intake)?;
        give_all(alloc, &self.certificates, intake)
    }

    /// Gives copies of all the rows, in the order in which an intake takes them; damaged only where
    /// the tables represent no state.
    pub fn give<I: Intake>(&self, alloc: Global, intake: &mut I) -> Result<(), Rebuild>
        requires { I.content intake.old ≡ no_rows }
        ensures ok { OnOk result (I.content intake.new ≡ lists_of self.now) }
        ensures damaged { OnDamaged result (RepresentNone (lists_of self.now)) }
    {
        self.give_plan(alloc, intake)?;
        self.give_records(alloc, intake)?;
        self.give_holds(alloc, intake)?;
        self.give_runs(alloc, intake)
    }
}
