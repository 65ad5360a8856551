//! The rows of office, schedules, classes and aggregations taken in.
ghost use Rattle.std.specs.Prelude.{◌≡◌, OnOk};
ghost use Rattle.office_base.specs.Rows.{OnDamaged};
ghost use Rattle.office_rules.specs.Tables.{Begins, RepresentNone, TableLists, with_row};
ghost use Rattle.office_rules.specs.declared.table_row.Row.TheVariants as of_table;

use crate::loader::Loader;
use office_base::{Rebuild, push_keyed, push_numbered};
use office_days::Day;
use office_records::{AggNo, Aggregation, Class, Code, Schedule};

impl Loader {
    /// Takes the row of office in; damaged where one has come.
    pub(super) fn put_day(&mut self, day: Day) -> Result<(), Rebuild>
        ensures ok { OnOk result (self.new ≡ with_row self.old (of_table.Office day)) }
        ensures damaged { OnDamaged result
            ((t : TableLists) → Begins (with_row self.old (of_table.Office day)) t
            → RepresentNone t) }
    {
        if self.day.is_some() {
            return Err(Rebuild::Damaged);
        }
        self.day = Some(day);
        Ok(())
    }

    /// Takes a schedule in.
    pub(super) fn put_schedule(&mut self, code: Code, schedule: Schedule) -> Result<(), Rebuild>
        ensures ok { OnOk result (self.new ≡ with_row self.old (of_table.Schedule code schedule)) }
        ensures damaged { OnDamaged result
            ((t : TableLists) → Begins (with_row self.old (of_table.Schedule code schedule)) t
            → RepresentNone t) }
    {
        push_keyed(&mut self.schedules, code, schedule)
    }

    /// Takes a class in.
    pub(super) fn put_class(&mut self, code: Code, class: Class) -> Result<(), Rebuild>
        ensures ok { OnOk result (self.new ≡ with_row self.old (of_table.Class code class)) }
        ensures damaged { OnDamaged result
            ((t : TableLists) → Begins (with_row self.old (of_table.Class code class)) t
            → RepresentNone t) }
    {
        push_keyed(&mut self.classes, code, class)
    }

    /// Takes an aggregation in.
    pub(super) fn put_aggregation(
        &mut self,
        number: AggNo,
        aggregation: Aggregation,
    ) -> Result<(), Rebuild>
        ensures ok { OnOk result
            (self.new ≡ with_row self.old (of_table.Aggregation number aggregation)) }
        ensures damaged { OnDamaged result
            ((t : TableLists)
            → Begins (with_row self.old (of_table.Aggregation number aggregation)) t
            → RepresentNone t) }
    {
        push_numbered(&mut self.aggregations, number, aggregation)
    }
}
