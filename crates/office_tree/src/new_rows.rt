//! New classes, aggregations and records: rows added with all that is derived from them.
ghost use Rattle.std.specs.Prelude.{◌≡◌, ◌+◌, ◌<◌, ◌≤◌, ◌++◌, ◌∷◌, [], OnOk, OnErr, false, length, vec_len, vec_capacity};
ghost use Rattle.std.specs.FinMap.{contains_key, from_entries, insert};
ghost use Rattle.office_records.specs.Rows.{put_aggregation, put_class, put_record};
ghost use Rattle.office_records.specs.Sound.{IsSound};
ghost use Rattle.office_records.specs.Tree.{code_cmp};
ghost use Rattle.office_tree.specs.Derived.{HasRecordRoom, KeepsBesideRecordRefs};
ghost use Rattle.office_tree.specs.Rooms.{HasRoom};

use crate::Tree;
use crate::derived::Derived;
use crate::rows::rows_of;
use crate::summary::AggregationSummary;
use office_base::Memory;
use office_records::{AggNo, Aggregation, Class, Code, Record, RecordNo, Status, Text};
use std::alloc::Global;

/// Puts one more in, for which there is room.
pub(crate) fn push_row<T: Drop>(rows: &mut Vec<T>, row: T)
    requires { vec_len rows.old < vec_capacity rows.old }
    ensures { rows.new.items ≡ rows.old.items ++ row ∷ [] }
{
    if rows.push(row).is_err() {
        unreachable!();
    }
}

/// Makes room for one more record with what is derived of it, and puts its ref into the index.
fn make_record_room(
    alloc: Global,
    records: &mut Vec<Record>,
    statuses: &mut Vec<Status>,
    derived: &mut Derived,
    ref_text: &Text,
) -> Result<(), Memory>
    requires few { length records.old.items ≤ 200_000 }
    requires cached { length derived.old.per_record.record_caches.rows.items ≤ 200_000 }
    ensures records { records.new.items ≡ records.old.items }
    ensures statuses { statuses.new.items ≡ statuses.old.items }
    ensures keeps { KeepsBesideRecordRefs derived.old derived.new }
    ensures room { OnOk result
        (HasRoom records.new × HasRoom statuses.new × HasRecordRoom derived.new) }
    ensures indexed { OnOk result
        (from_entries {R = code_cmp} derived.new.directory.by_record_ref.entries
        ≡ insert (from_entries derived.old.directory.by_record_ref.entries) ref_text.now
        (length records.old.items + 1)) }
    ensures err { OnErr result
        (from_entries {R = code_cmp} derived.new.directory.by_record_ref.entries
        ≡ from_entries derived.old.directory.by_record_ref.entries) }
{
    records.try_reserve(1)?;
    statuses.try_reserve(1)?;
    derived.per_record.make_room()?;
    let number = records.len() as RecordNo + 1;
    derived.directory.make_record_room(alloc, ref_text, number)
}

impl Tree {
    /// Puts a new class in under its code.
    pub(crate) fn push_class(&mut self, code: Code, class: Class) -> Result<(), Memory>
        requires sound { IsSound (put_class self.old code class) }
        requires fresh { contains_key self.old.classes code ≡ false }
        ensures ok { OnOk result (self.new ≡ put_class self.old code class) }
        ensures err { OnErr result (self.new ≡ self.old) }
    {
        let alloc = *self.records.allocator();
        self.derived.per_record.class_index.add_class(alloc, &code)?;
        self.classes.insert(code, class)?;
        Ok(())
    }

    /// Puts a new aggregation in under the next number.
    pub(crate) fn push_aggregation(&mut self, it: Aggregation) -> Result<(), Memory>
        requires { IsSound (put_aggregation self.old (length self.old.aggregations + 1) it) }
        ensures ok { OnOk result
            (self.new ≡ put_aggregation self.old (length self.old.aggregations + 1) it) }
        ensures err { OnErr result (self.new ≡ self.old) }
    {
        self.aggregations.try_reserve(1)?;
        let number = self.aggregations.len() as AggNo + 1;
        let alloc = *self.aggregations.allocator();
        self.derived
            .directory
            .make_aggregation_room(alloc, &it.ref_text, number)?;
        let parent = it.parent;
        push_row(&mut self.aggregations, it);
        let summary = AggregationSummary {
            last_addition: None,
            records: 0,
            active: 0,
        };
        push_row(&mut self.derived.directory.summaries, summary);
        self.derived.directory.records_in.add_list();
        self.derived.directory.aggregations_in.add_list();
        self.derived.directory.aggregations_in.add_child(parent);
        Ok(())
    }

    /// Puts a new record in under the next number, with its status.
    pub(crate) fn push_record(&mut self, head: Record, status: Status) -> Result<(), Memory>
        requires { IsSound (put_record self.old (length self.old.records + 1) head status) }
        ensures ok { OnOk result
            (self.new ≡ put_record self.old (length self.old.records + 1) head status) }
        ensures err { OnErr result (self.new ≡ self.old) }
    {
        let alloc = *self.records.allocator();
        make_record_room(
            alloc,
            &mut self.records,
            &mut self.statuses,
            &mut self.derived,
            &head.ref_text,
        )?;
        let aggregation = head.aggregation;
        let day = head.added;
        let is_active = status.is_active();
        push_row(&mut self.records, head);
        push_row(&mut self.statuses, status);
        let is_later = self
            .derived
            .directory
            .add_record(&self.aggregations, aggregation, day, is_active);
        let rows = rows_of!(self);
        self.derived
            .per_record
            .record_caches
            .add_computed(&rows, &self.derived.directory, aggregation, is_later);
        self.derived.per_record.class_index.add_listed(&rows);
        Ok(())
    }
}
