//! What is derived of a record, or of some, computed anew from the rows after a change.
ghost use Rattle.std.specs.Prelude.{◌≡◌, ◌+◌, ◌<◌, ◌≤◌, ◌&&◌, IfOk, IsTrue, length, vec_len};
ghost use Rattle.office_tree.specs.Derived.{AreClassRight, AreExtended, AreRenewed, CanCache, CanRefresh, HasPlaces, IsPutRight, IsRenewed};
ghost use Rattle.office_tree.specs.Inheriting.{inherits_from, is_affected};
ghost use Rattle.office_tree.specs.RecordCaches.{AreRecordCaches, IsRecordCache};
ghost use Rattle.office_tree.specs.Rooms.{HasRoom};
ghost use Rattle.office_tree.specs.Stored.{is_in};
ghost use Rattle.office_records.specs.Tree.{has_aggregation, has_record};

use crate::class_lists::{ClassLists, ClassNo};
use crate::directory::Directory;
use crate::per_record::PerRecord;
use crate::record_caches::RecordCaches;
use crate::rows::Rows;
use office_base::Memory;
use office_records::{AggNo, RecordNo};
use std::alloc::Global;

impl RecordCaches {
    /// Computes anew what is cached of one record.
    pub(crate) fn refresh(&mut self, rows: &Rows<'_>, directory: &Directory, record_no: RecordNo)
        requires ready { CanCache rows.now directory.now }
        requires there { IsTrue (has_record rows.now record_no) }
        requires many { length self.old.rows.items ≡ length rows.now.records }
        ensures { IsPutRight (IsRecordCache directory.now.schedule_numbers rows.now record_no)
            record_no self.old.rows.items self.new.rows.items }
    {
        let record_cache = rows.record_cache(directory, record_no);
        self.put(record_no, record_cache);
    }

    /// Computes anew what is cached of the records of one class, and goes through these alone.
    pub(crate) fn refresh_class(
        &mut self,
        rows: &Rows<'_>,
        directory: &Directory,
        class_lists: &ClassLists,
        class: ClassNo,
    )
        requires ready { CanCache rows.now directory.now }
        requires many { length self.old.rows.items ≡ length rows.now.records }
        requires all { length class_lists.now.class.items ≡ length rows.now.records }
        requires there { (0 < class) × (class ≤ length class_lists.now.first.items) }
        ensures { AreClassRight (IsRecordCache directory.now.schedule_numbers rows.now)
            class_lists.now.class.items class self.old.rows.items self.new.rows.items }
    {
        let mut at = class_lists.first(class);
        while at != 0 {
            self.refresh(rows, directory, at);
            at = class_lists.next(at);
        }
    }

    /// Computes anew what is cached of the records of one aggregation, and goes through these
    /// alone.
    pub(crate) fn refresh_records_in(
        &mut self,
        rows: &Rows<'_>,
        directory: &Directory,
        aggregation: AggNo,
    )
        requires ready { CanRefresh rows.now directory.now }
        requires there { IsTrue (has_aggregation rows.now aggregation) }
        requires many { length self.old.rows.items ≡ length rows.now.records }
        ensures { AreRenewed (IsRecordCache directory.now.schedule_numbers rows.now)
            rows.now.records (is_in aggregation) self.old.rows.items self.new.rows.items }
    {
        let mut at = directory.records_in.last(aggregation);
        while at != 0 {
            self.refresh(rows, directory, at);
            at = directory.records_in.before(at);
        }
    }
}

impl RecordCaches {
    /// Adds what is cached of the next record, for which there is room, and computes anew what is
    /// cached of the others in its container, if it came later than these.
    pub(crate) fn add_computed(
        &mut self,
        rows: &Rows<'_>,
        directory: &Directory,
        aggregation: AggNo,
        is_later: bool,
    )
        requires ready { CanRefresh rows.now directory.now }
        requires there { IsTrue (has_aggregation rows.now aggregation) }
        requires row_room { HasRoom self.old.rows }
        requires mark_room { vec_len self.old.rows < length self.old.candidates }
        requires many { length self.old.rows.items + 1 ≡ length rows.now.records }
        ensures { AreExtended (IsRecordCache directory.now.schedule_numbers rows.now)
            rows.now.records (λ head. is_later && is_in aggregation head) self.old.rows.items
            self.new.rows.items }
    {
        self.push();
        self.refresh(rows, directory, rows.records.len() as RecordNo);
        if is_later {
            self.refresh_records_in(rows, directory, aggregation);
        }
    }
}

impl PerRecord {
    /// Computes anew what is cached of the records that are in the aggregation or inherit from it,
    /// puts them on the lists of their classes, and goes through these alone: what has a class of
    /// its own is passed with all below it.
    pub(crate) fn refresh_inheriting(&mut self, rows: &Rows<'_>, directory: &Directory, from: AggNo)
        requires ready { CanRefresh rows.now directory.now }
        requires there { IsTrue (has_aggregation rows.now from) }
        requires many { length self.old.record_caches.rows.items ≡ length rows.now.records }
        requires places { HasPlaces rows.now self.old.class_index }
        ensures { IsRenewed rows.now directory.now.schedule_numbers
            (inherits_from rows.now.aggregations from) (inherits_from rows.now.aggregations from)
            self.old self.new }
    {
        self.record_caches.refresh_records_in(rows, directory, from);
        self.class_index.reindex_records_in(rows, directory, from);
        let mut child = directory.aggregations_in.last(from);
        while child != 0 {
            if !rows.has_own_class(child) {
                self.refresh_inheriting(rows, directory, child);
            }
            child = directory.aggregations_in.before(child);
        }
    }

    /// Computes anew what is cached of the records that an edit of an aggregation affects: those in
    /// it, and, where its own class may be another, those that inherit from it.
    pub(crate) fn refresh_affected(
        &mut self,
        rows: &Rows<'_>,
        directory: &Directory,
        aggregation: AggNo,
        reclassifies: bool,
    )
        requires ready { CanRefresh rows.now directory.now }
        requires there { IsTrue (has_aggregation rows.now aggregation) }
        requires many { length self.old.record_caches.rows.items ≡ length rows.now.records }
        requires places { HasPlaces rows.now self.old.class_index }
        ensures { IsRenewed rows.now directory.now.schedule_numbers
            (is_affected rows.now.aggregations aggregation reclassifies)
            (λ head. reclassifies && inherits_from rows.now.aggregations aggregation head)
            self.old self.new }
    {
        if reclassifies {
            self.refresh_inheriting(rows, directory, aggregation);
        } else {
            self.record_caches
                .refresh_records_in(rows, directory, aggregation);
        }
    }
}

/// What is cached of all records.
pub(crate) fn record_caches_of(
    alloc: Global,
    rows: &Rows<'_>,
    directory: &Directory,
) -> Result<RecordCaches, Memory>
    requires { CanCache rows.now directory.now }
    ensures { IfOk result
        (λ it. AreRecordCaches directory.now.schedule_numbers rows.now it.rows.items) }
{
    let mut record_caches = RecordCaches::new(alloc);
    for i in 0..rows.records.len() {
        let record_cache = rows.record_cache(directory, i as RecordNo + 1);
        record_caches.add(record_cache)?;
    }
    Ok(record_caches)
}
