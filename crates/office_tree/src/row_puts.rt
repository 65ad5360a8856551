//! Rows put in by their keys.
ghost use Rattle.std.specs.Prelude.{◌≡◌, ◌+◌, ◌<◌, ◌≤◌, OnOk, OnErr, IsOk, IsTrue, false, length, vec_len, vec_capacity};
ghost use Rattle.std.specs.FinMap.{contains_key};
ghost use Rattle.office_records.specs.Lasting.{KeepsAggregation, KeepsHead};
ghost use Rattle.office_records.specs.Lists.{put};
ghost use Rattle.office_records.specs.Rows.{put_aggregation, put_class, put_event, put_record, put_schedule};
ghost use Rattle.office_records.specs.Sound.{IsSound};
ghost use Rattle.office_records.specs.Tree.{has_record};

use crate::Tree;
use crate::rows::rows_of;
use office_base::Memory;
use office_records::{AggNo, Aggregation, Class, Code, Event, Record, RecordNo, Schedule, Status};

/// Puts a row in place of the one with that number, which needs no memory, or as the next. Rows are
/// numbered 1, 2, .. At `Memory` the rows are as they were.
pub fn put_row<T: Drop>(rows: &mut Vec<T>, number: u32, row: T) -> Result<(), Memory>
    requires { 0 < number }
    ensures ok { OnOk result (rows.new.items ≡ put rows.old.items number row) }
    ensures err { OnErr result (rows.new.items ≡ rows.old.items) }
    ensures in_place { number ≤ vec_len rows.old → IsOk result }
    ensures room { vec_len rows.old < vec_capacity rows.old → IsOk result }
{
    let at = number as usize - 1;
    if at < rows.len() {
        rows[at] = row;
    } else {
        rows.push(row)?;
    }
    Ok(())
}

/// Puts a thing in place of another.
fn replace<T: Drop>(here: &mut T, it: T)
    ensures { here.new ≡ it }
{
    *here = it;
}

impl Tree {
    /// Puts a new schedule in under its code. The tree must be sound with it: there are then no
    /// more than 1,000. At `Memory` the tree is as it was.
    pub fn put_schedule(&mut self, code: Code, schedule: Schedule) -> Result<(), Memory>
        requires sound { IsSound (put_schedule self.old code schedule) }
        requires fresh { contains_key self.old.schedules code ≡ false }
        ensures ok { OnOk result (self.new ≡ put_schedule self.old code schedule) }
        ensures err { OnErr result (self.new ≡ self.old) }
    {
        let alloc = *self.records.allocator();
        self.derived.directory.schedule_numbers.add(alloc, &code)?;
        self.schedules.insert(code, schedule)?;
        Ok(())
    }

    /// Puts the event of a record that is there, in place of an earlier one. At `Memory` the tree
    /// is as it was.
    pub fn put_event(&mut self, record_no: RecordNo, event: Event) -> Result<(), Memory>
        requires there { IsTrue (has_record self.old record_no) }
        ensures ok { OnOk result (self.new ≡ put_event self.old record_no event) }
        ensures err { OnErr result (self.new ≡ self.old) }
    {
        self.events.insert(record_no, event)?;
        let rows = rows_of!(self);
        self.derived
            .per_record
            .record_caches
            .refresh(&rows, &self.derived.directory, record_no);
        Ok(())
    }

    /// Puts a class under its code, in place of what was there, which needs no memory, or as a new
    /// one. The tree must be sound with it: its schedule is there, and there are then no more than
    /// 1,000 classes. At `Memory` the tree is as it was.
    pub fn put_class(&mut self, code: Code, class: Class) -> Result<(), Memory>
        requires { IsSound (put_class self.old code class) }
        ensures ok { OnOk result (self.new ≡ put_class self.old code class) }
        ensures err { OnErr result (self.new ≡ self.old) }
        ensures in_place { IsTrue (contains_key self.old.classes code) → IsOk result }
    {
        if self.classes.contains_key(&code) {
            self.edit_class(&code, |here| replace(here, class));
            return Ok(());
        }
        self.push_class(code, class)
    }

    /// Puts an aggregation in place of the one with that number, which has the same ref and the
    /// same parent and needs no memory, or as the next. The tree must be sound with it: what it
    /// names is there, it has a class if it has no parent, no open aggregation has a closed parent,
    /// its depth is at most eight, and there are then no more than 50,000. At `Memory` the tree is
    /// as it was.
    pub fn put_aggregation(&mut self, aggregation: AggNo, it: Aggregation) -> Result<(), Memory>
        requires sound { IsSound (put_aggregation self.old aggregation it) }
        requires number { (0 < aggregation) × (aggregation ≤ length self.old.aggregations + 1) }
        requires keeps { KeepsAggregation self.old.aggregations aggregation it }
        ensures ok { OnOk result (self.new ≡ put_aggregation self.old aggregation it) }
        ensures err { OnErr result (self.new ≡ self.old) }
        ensures in_place { aggregation ≤ length self.old.aggregations → IsOk result }
    {
        let at = aggregation as usize - 1;
        if at >= self.aggregations.len() {
            return self.push_aggregation(it);
        }
        let reclassifies = it.class != self.aggregations[at].class;
        self.edit_aggregation(aggregation, reclassifies, |here| replace(here, it));
        Ok(())
    }

    /// Puts a record's head with its status in place of the one with that number, which has the
    /// same ref, aggregation and added day and needs no memory, or as the next. The tree must be
    /// sound with it: what it names is there, and there are then no more than 200,000 records. At
    /// `Memory` the tree is as it was.
    pub fn put_record(
        &mut self,
        record_no: RecordNo,
        head: Record,
        status: Status,
    ) -> Result<(), Memory>
        requires sound { IsSound (put_record self.old record_no head status) }
        requires number { (0 < record_no) × (record_no ≤ length self.old.records + 1) }
        requires keeps { KeepsHead self.old.records record_no head }
        ensures ok { OnOk result (self.new ≡ put_record self.old record_no head status) }
        ensures err { OnErr result (self.new ≡ self.old) }
        ensures in_place { record_no ≤ length self.old.records → IsOk result }
    {
        if record_no as usize > self.records.len() {
            return self.push_record(head, status);
        }
        self.edit_record(record_no, status, |here| replace(here, head));
        Ok(())
    }
}
