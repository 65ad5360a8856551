//! What is derived from the rows alone: the numbers under refs and codes, and of each aggregation a
//! summary and what is in it.
ghost use Rattle.std.specs.Prelude.{◌≡◌, ◌++◌, ◌∷◌, ◌<◌, ◌≤◌, ℕ, List, [], OnErr, OnOk, Some, false, length};
ghost use Rattle.std.specs.FinMap.{from_entries, insert};
ghost use Rattle.office_records.specs.Lists.{numbered};
ghost use Rattle.office_records.specs.Sound.{IsForest, RootsHaveClasses};
ghost use Rattle.office_records.specs.Tree.{code_cmp};
ghost use Rattle.office_tree.specs.ChildLists.{AreLinked};
ghost use Rattle.office_tree.specs.Derived.{HasAggregationRoom, KeepsBesideRecords, KeepsBesideRefs};
ghost use Rattle.office_tree.specs.Rooms.{HasRoom};
ghost use Rattle.office_tree.specs.Summaries.{AreAdded, IsQuiet};
ghost use Rattle.office_tree.specs.declared.summary.AggregationSummary.{AggregationSummary};

use crate::child_lists::ChildLists;
use crate::ref_index::put_ref;
use crate::schedule_numbers::ScheduleNumbers;
use crate::summary::{AggregationSummary, is_later, note_addition};
use office_base::Memory;
use office_days::Day;
use office_records::{AggNo, Aggregation, RecordNo, Text};
use std::alloc::Global;
use std::collections::BTreeMap;

/// What is derived from the rows alone. By it rows are found, and what is cached of records is
/// computed.
#[derive(Drop)]
pub(crate) struct Directory {
    /// Under the ref of each aggregation its number, and nothing else (`Indexes`).
    pub(crate) by_aggregation_ref: BTreeMap<Text, AggNo>,
    /// Under the ref of each record its number, and nothing else (`Indexes`).
    pub(crate) by_record_ref: BTreeMap<Text, RecordNo>,
    /// A number for the code of each schedule, by which record caches name it (`AreNumbered`).
    pub(crate) schedule_numbers: ScheduleNumbers,
    /// Each aggregation's last addition, and how many records are below it (`AreSummaries`).
    pub(crate) summaries: Vec<AggregationSummary>,
    /// The records of each aggregation, linked from the last to the first (`HasLinks`).
    pub(crate) records_in: ChildLists,
    /// The aggregations in each aggregation, linked likewise (`HasChildren`).
    pub(crate) aggregations_in: ChildLists,
}

impl Directory {
    /// Makes room for one more aggregation, and puts its ref into the index under this number.
    pub(crate) fn make_aggregation_room(
        &mut self,
        alloc: Global,
        ref_text: &Text,
        number: AggNo,
    ) -> Result<(), Memory>
        ensures keeps { KeepsBesideRefs self.old self.new }
        ensures room { OnOk result (HasAggregationRoom self.new) }
        ensures indexed { OnOk result
            (from_entries {R = code_cmp} self.new.by_aggregation_ref.entries
            ≡ insert (from_entries self.old.by_aggregation_ref.entries) ref_text.now number) }
        ensures err { OnErr result
            (from_entries {R = code_cmp} self.new.by_aggregation_ref.entries
            ≡ from_entries self.old.by_aggregation_ref.entries) }
    {
        self.summaries.try_reserve(1)?;
        self.records_in.make_list_room()?;
        self.aggregations_in.make_child_room()?;
        put_ref(&mut self.by_aggregation_ref, alloc, ref_text, number)
    }

    /// Makes room for one more record, and puts its ref into the index under this number.
    pub(crate) fn make_record_room(
        &mut self,
        alloc: Global,
        ref_text: &Text,
        number: RecordNo,
    ) -> Result<(), Memory>
        ensures keeps { KeepsBesideRecords self.old self.new }
        ensures summaries { self.new.summaries.items ≡ self.old.summaries.items }
        ensures last { self.new.records_in.last.items ≡ self.old.records_in.last.items }
        ensures before { self.new.records_in.before.items ≡ self.old.records_in.before.items }
        ensures room { OnOk result (HasRoom self.new.records_in.before) }
        ensures indexed { OnOk result
            (from_entries {R = code_cmp} self.new.by_record_ref.entries
            ≡ insert (from_entries self.old.by_record_ref.entries) ref_text.now number) }
        ensures err { OnErr result
            (from_entries {R = code_cmp} self.new.by_record_ref.entries
            ≡ from_entries self.old.by_record_ref.entries) }
    {
        self.records_in.make_entity_room()?;
        put_ref(&mut self.by_record_ref, alloc, ref_text, number)
    }

    /// Links the next record, for which there is room, and counts it; whether it came later to its
    /// container than the last one.
    pub(crate) fn add_record(
        &mut self,
        aggregations: &[Aggregation],
        aggregation: AggNo,
        day: Day,
        is_active: bool,
    ) -> bool
        requires forest { IsForest aggregations.now }
        requires roots { RootsHaveClasses aggregations.now }
        requires low { 0 < aggregation }
        requires high { aggregation ≤ length aggregations.now }
        requires room { HasRoom self.old.records_in.before }
        requires entities { length self.old.records_in.before.items ≤ 200_000 }
        requires containers { length self.old.records_in.last.items ≡ length aggregations.now }
        requires count { length self.old.summaries.items ≡ length aggregations.now }
        requires few { (a : ℕ) (it : AggregationSummary) → numbered self.old.summaries.items a
            ≡ Some it → (it.records ≤ 200_000) × (it.active ≤ 200_000) }
        ensures keeps { KeepsBesideRecords self.old self.new }
        ensures by_record_ref { self.new.by_record_ref ≡ self.old.by_record_ref }
        ensures linked { (containers : List ℕ) (count : ℕ)
            → AreLinked containers count self.old.records_in.last.items
            self.old.records_in.before.items
            → AreLinked (containers ++ aggregation ∷ []) count self.new.records_in.last.items
            self.new.records_in.before.items }
        ensures noted { AreAdded aggregations.now aggregation day is_active self.old.summaries.items
            self.new.summaries.items }
        ensures quiet { result ≡ false → IsQuiet self.old.summaries.items aggregation day }
    {
        self.records_in.add_entity(aggregation);
        let is_later = is_later(&self.summaries, aggregation, day);
        note_addition(
            &mut self.summaries,
            aggregations,
            aggregation,
            day,
            is_active,
        );
        is_later
    }
}
