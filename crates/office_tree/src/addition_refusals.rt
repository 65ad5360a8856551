//! Why an act that adds something to the tree, or closes an aggregation, is refused.
ghost use Rattle.std.specs.Prelude.{◌≡◌, ◌&&◌, false, is_none, length, nat_le};
ghost use Rattle.std.specs.Option.{is_some, option_copied};
ghost use Rattle.std.specs.FinMap.{contains_key, len};
ghost use Rattle.std.specs.List.{list_any};
ghost use Rattle.std.specs.Str.{bytes_eq};
ghost use Rattle.office_records.specs.Conditions.{IsLeastOf, conditions_of_add_aggregation, conditions_of_add_class, conditions_of_add_record, conditions_of_add_schedule, conditions_of_close_aggregation, first_of, is_child_of, is_closed, lacks_class, lacks_parent, lacks_schedule};
ghost use Rattle.office_records.specs.Lists.{is_some_and};
ghost use Rattle.office_records.specs.Tree.{chain_of};

use crate::Tree;
use crate::classification::chain_of;
use crate::lookup::numbered;
use crate::ref_index::number_of;
use office_base::Refusal;
use office_records::{AggNo, Aggregation, Code, Text, first_of};

/// Whether an open aggregation has this parent.
fn has_open_child(aggregations: &[Aggregation], parent: AggNo) -> bool
    ensures { result
        ≡ list_any (λ it. is_child_of parent it && is_none it.closed) aggregations.now }
{
    aggregations
        .iter()
        .any(|it| it.parent == Some(parent) && it.closed.is_none())
}

impl Tree {
    /// Whether an aggregation has this ref.
    fn has_aggregation_ref(&self, ref_text: &Text) -> bool
        ensures { result
            ≡ list_any (λ it. bytes_eq it.ref_text ref_text.now) self.now.aggregations }
    {
        number_of(&self.derived.directory.by_aggregation_ref, ref_text).is_some()
    }

    /// Whether a record has this ref.
    fn has_record_ref(&self, ref_text: &Text) -> bool
        ensures { result ≡ list_any (λ head. bytes_eq head.ref_text ref_text.now) self.now.records }
    {
        number_of(&self.derived.directory.by_record_ref, ref_text).is_some()
    }

    /// Whether a schedule has this code.
    pub(crate) fn has_schedule(&self, code: &Code) -> bool
        ensures { result ≡ contains_key self.now.schedules code.now }
    {
        self.schedules.contains_key(code)
    }

    /// Whether a class has this code.
    pub(crate) fn has_class(&self, code: &Code) -> bool
        ensures { result ≡ contains_key self.now.classes code.now }
    {
        self.classes.contains_key(code)
    }

    /// Whether there are as many schedules as the office takes.
    fn is_full_of_schedules(&self) -> bool
        ensures { result ≡ nat_le 1_000 (len self.now.schedules) }
    {
        self.schedules.len() >= 1_000
    }

    /// Whether there are as many classes as the office takes.
    fn is_full_of_classes(&self) -> bool
        ensures { result ≡ nat_le 1_000 (len self.now.classes) }
    {
        self.classes.len() >= 1_000
    }

    /// Whether there are as many aggregations as the office takes.
    fn is_full_of_aggregations(&self) -> bool
        ensures { result ≡ nat_le 50_000 (length self.now.aggregations) }
    {
        self.aggregations.len() >= 50_000
    }

    /// Whether there are as many records as the office takes.
    fn is_full_of_records(&self) -> bool
        ensures { result ≡ nat_le 200_000 (length self.now.records) }
    {
        self.records.len() >= 200_000
    }

    /// Whether a code is given that names no class.
    pub(crate) fn lacks_class(&self, class: Option<&Code>) -> bool
        ensures { result ≡ lacks_class self.now (option_copied class.entry) }
    {
        match class {
            Some(code) => !self.has_class(code),
            None => false,
        }
    }

    /// Whether a code is given that names no schedule.
    pub(crate) fn lacks_schedule(&self, schedule: Option<&Code>) -> bool
        ensures { result ≡ lacks_schedule self.now (option_copied schedule.entry) }
    {
        match schedule {
            Some(code) => !self.has_schedule(code),
            None => false,
        }
    }

    /// Whether a number is given that names no aggregation.
    fn lacks_parent(&self, parent: Option<AggNo>) -> bool
        ensures { result ≡ lacks_parent self.now parent }
    {
        match parent {
            Some(aggregation) => !self.has_aggregation(aggregation),
            None => false,
        }
    }

    /// Whether the aggregation is there and closed.
    pub(crate) fn is_closed(&self, aggregation: AggNo) -> bool
        ensures { result ≡ is_closed self.now.aggregations aggregation }
    {
        match numbered(&self.aggregations, aggregation) {
            Some(here) => here.closed.is_some(),
            None => false,
        }
    }

    /// Whether a parent is given that is closed.
    fn has_closed_parent(&self, parent: Option<AggNo>) -> bool
        ensures { result ≡ is_some_and parent (is_closed self.now.aggregations) }
    {
        match parent {
            Some(aggregation) => self.is_closed(aggregation),
            None => false,
        }
    }

    /// Whether a parent is given that has depth 8, the greatest.
    fn has_deepest_parent(&self, parent: Option<AggNo>) -> bool
        requires { lacks_parent self.now parent ≡ false }
        ensures { result
            ≡ is_some_and parent (λ a. nat_le 8 (length (chain_of self.now.aggregations a))) }
    {
        match parent {
            Some(aggregation) => chain_of(&self.aggregations, aggregation).len() >= 8,
            None => false,
        }
    }

    /// Why a schedule of this code may not be added, if it may not: `Exists`, `Full`.
    pub fn check_add_schedule(&self, code: &Code) -> Option<Refusal>
        ensures first { result ≡ first_of (conditions_of_add_schedule self.now code.now) }
        ensures least { IsLeastOf (conditions_of_add_schedule self.now code.now) result }
    {
        first_of(&[
            (Refusal::Exists, self.has_schedule(code)),
            (Refusal::Full, self.is_full_of_schedules()),
        ])
    }

    /// Why a class of this code may not be added, if it may not: `Exists`, `NoSuch`, `Full`.
    pub fn check_add_class(&self, code: &Code, schedule: &Code) -> Option<Refusal>
        ensures first { result ≡ first_of (conditions_of_add_class self.now code.now schedule.now) }
        ensures least { IsLeastOf (conditions_of_add_class self.now code.now schedule.now) result }
    {
        first_of(&[
            (Refusal::Exists, self.has_class(code)),
            (Refusal::NoSuch, !self.has_schedule(schedule)),
            (Refusal::Full, self.is_full_of_classes()),
        ])
    }

    /// Why an aggregation of this ref may not be added there, if it may not: `Exists`, `NoSuch`,
    /// `Full`, `Closed`, `TooDeep`, `NeedsClass`.
    pub fn check_add_aggregation(
        &self,
        ref_text: &Text,
        parent: Option<AggNo>,
        class: Option<&Code>,
    ) -> Option<Refusal>
        ensures first { result
            ≡ first_of (conditions_of_add_aggregation self.now ref_text.now parent
            (option_copied class.entry)) }
        ensures least { IsLeastOf
            (conditions_of_add_aggregation self.now ref_text.now parent (option_copied class.entry))
            result }
    {
        let lacks_parent = self.lacks_parent(parent);
        let is_too_deep = !lacks_parent && self.has_deepest_parent(parent);
        first_of(&[
            (Refusal::Exists, self.has_aggregation_ref(ref_text)),
            (Refusal::NoSuch, lacks_parent || self.lacks_class(class)),
            (Refusal::Full, self.is_full_of_aggregations()),
            (Refusal::Closed, self.has_closed_parent(parent)),
            (Refusal::TooDeep, is_too_deep),
            (Refusal::NeedsClass, parent.is_none() && class.is_none()),
        ])
    }

    /// Why the aggregation may not be closed, if it may not: `NoSuch`, `Closed`, `ChildOpen`.
    pub fn check_close_aggregation(&self, aggregation: AggNo) -> Option<Refusal>
        ensures first { result ≡ first_of (conditions_of_close_aggregation self.now aggregation) }
        ensures least { IsLeastOf (conditions_of_close_aggregation self.now aggregation) result }
    {
        let has_open_child = has_open_child(&self.aggregations, aggregation);
        first_of(&[
            (Refusal::NoSuch, !self.has_aggregation(aggregation)),
            (Refusal::Closed, self.is_closed(aggregation)),
            (Refusal::ChildOpen, has_open_child),
        ])
    }

    /// Why a record of this ref may not be added there, if it may not: `Exists`, `NoSuch`, `Full`,
    /// `Closed`.
    pub fn check_add_record(
        &self,
        ref_text: &Text,
        aggregation: AggNo,
        class: Option<&Code>,
        schedule: Option<&Code>,
    ) -> Option<Refusal>
        ensures first { result
            ≡ first_of (conditions_of_add_record self.now ref_text.now aggregation
            (option_copied class.entry) (option_copied schedule.entry)) }
        ensures least { IsLeastOf
            (conditions_of_add_record self.now ref_text.now aggregation (option_copied class.entry)
            (option_copied schedule.entry)) result }
    {
        let lacks_code = self.lacks_class(class) || self.lacks_schedule(schedule);
        first_of(&[
            (Refusal::Exists, self.has_record_ref(ref_text)),
            (
                Refusal::NoSuch,
                !self.has_aggregation(aggregation) || lacks_code,
            ),
            (Refusal::Full, self.is_full_of_records()),
            (Refusal::Closed, self.is_closed(aggregation)),
        ])
    }
}
