//! What is counted beside the holds, so that they need not be gone over to see whether a record is
//! held.
ghost use Rattle.std.specs.Prelude.{◌≡◌, ◌+◌, ◌<◌, ◌^◌, ◌||◌, OnOk};
ghost use Rattle.std.specs.List.{list_any};
ghost use Rattle.office_rules.specs.HoldLoading.{same_target};
ghost use Rattle.office_holds.specs.HoldCounts.{CountsDown, CountsUp, HasRoom, is_bound, cached_count};
ghost use Rattle.office_records.specs.declared.target.Target.{Target};
ghost use Rattle.office_records.specs.declared.target.Target.TheVariants as target;

use crate::numbers::{count_down, count_up, make_room_for_code, make_room_for_number, number_of};
use office_base::Memory;
use office_records::{AggNo, Code, RecordNo, Target};
use std::alloc::Global;
use std::collections::BTreeMap;

/// How many holds in force have each class, aggregation and record as a target. What has no number
/// here is the target of none.
#[derive(Drop)]
pub(crate) struct HoldCounts {
    pub(crate) classes: BTreeMap<Code, u32>,
    pub(crate) aggregations: BTreeMap<AggNo, u32>,
    pub(crate) records: BTreeMap<RecordNo, u32>,
}

impl HoldCounts {
    /// Counts of which each is 0.
    pub(crate) fn new(alloc: Global) -> HoldCounts
        ensures { (it : Target) → cached_count result it ≡ 0 }
    {
        HoldCounts {
            classes: BTreeMap::new(alloc),
            aggregations: BTreeMap::new(alloc),
            records: BTreeMap::new(alloc),
        }
    }

    /// Keeps a count of the target, if only 0.
    pub(crate) fn make_room(&mut self, alloc: Global, target: &Target) -> Result<(), Memory>
        ensures room { OnOk result (HasRoom self.new target.now) }
        ensures same { (it : Target) → cached_count self.new it ≡ cached_count self.old it }
    {
        match target {
            Target::Class(code) => make_room_for_code(&mut self.classes, alloc, code),
            Target::Aggregation(number) => make_room_for_number(&mut self.aggregations, *number),
            Target::Record(number) => make_room_for_number(&mut self.records, *number),
        }
    }

    /// Counts the target up by one.
    pub(crate) fn count_up(&mut self, target: &Target)
        requires room { HasRoom self.old target.now }
        requires fits { cached_count self.old target.now + 1 < 2 ^ 32 }
        ensures { CountsUp self.old self.new (same_target target.now) }
    {
        match target {
            Target::Class(code) => count_up(&mut self.classes, code),
            Target::Aggregation(number) => count_up(&mut self.aggregations, number),
            Target::Record(number) => count_up(&mut self.records, number),
        }
    }

    /// Counts the target down by one, if its count is not 0.
    pub(crate) fn count_down(&mut self, target: &Target)
        ensures { CountsDown self.old self.new (same_target target.now) }
    {
        match target {
            Target::Class(code) => count_down(&mut self.classes, code),
            Target::Aggregation(number) => count_down(&mut self.aggregations, number),
            Target::Record(number) => count_down(&mut self.records, number),
        }
    }

    /// Whether a hold in force has the class as a target.
    pub(crate) fn is_class_bound(&self, class: &Code) -> bool
        ensures { result ≡ is_bound self.now (target.Class class.now) }
    {
        number_of(&self.classes, class) > 0
    }

    /// Whether a hold in force has one of the aggregations as a target.
    pub(crate) fn is_any_bound(&self, aggregations: &[AggNo]) -> bool
        ensures { result
            ≡ list_any (λ a. is_bound self.now (target.Aggregation a)) aggregations.now }
    {
        aggregations.iter().any(|aggregation| number_of(&self.aggregations, aggregation) > 0)
    }

    /// Whether a hold in force has as a target the record, one of the aggregations or the class.
    pub(crate) fn bind(&self, record_no: RecordNo, above: &[AggNo], class: &Code) -> bool
        ensures { result
            ≡ (is_bound self.now (target.Record record_no)
            || list_any (λ a. is_bound self.now (target.Aggregation a)) above.now
            || is_bound self.now (target.Class class.now)) }
    {
        if number_of(&self.records, &record_no) > 0 {
            return true;
        }
        if self.is_any_bound(above) {
            return true;
        }
        self.is_class_bound(class)
    }
}
