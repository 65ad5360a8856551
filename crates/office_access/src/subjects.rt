//! The classes that an act is about, as the tree is.
ghost use Rattle.std.specs.Prelude.{◌≡◌, ◌∷◌, []};
ghost use Rattle.std.specs.List.{list_all};
ghost use Rattle.std.specs.Option.{option_copied};
ghost use Rattle.office_records.specs.Lists.{or_else};
ghost use Rattle.office_records.specs.Tree.{aggregation_class_of, class_of};
ghost use Rattle.office_access.specs.Rights.{may_in};
ghost use Rattle.office_access.specs.Subjects.{and_own, class_above, class_now, classes_of, put_into, target_class};

use crate::{Grants, Power};
use office_records::{AggNo, Classified, Code, RecordNo, Target};
use office_rules::Act;
use office_tree::Tree;

/// The class of an aggregation; `None` if the aggregation is not there.
fn aggregation_class(tree: &Tree, aggregation: AggNo) -> Option<&Code>
    ensures { option_copied result ≡ aggregation_class_of tree.now aggregation }
{
    if tree.has_aggregation(aggregation) {
        Some(tree.aggregation_class_of(aggregation))
    } else {
        None
    }
}

/// The class of a record; `None` if the record is not there.
fn record_class(tree: &Tree, record_no: RecordNo) -> Option<&Code>
    ensures { option_copied result ≡ class_of tree.now record_no }
{
    if tree.has_record(record_no) {
        Some(tree.class_of(record_no))
    } else {
        None
    }
}

/// The class of what a hold is put on.
fn target_class<'a>(tree: &'a Tree, target: &'a Target) -> Option<&'a Code>
    ensures { option_copied result ≡ target_class tree.now target.now }
{
    match target {
        Target::Class(code) => Some(code),
        Target::Aggregation(aggregation) => aggregation_class(tree, *aggregation),
        Target::Record(record_no) => record_class(tree, *record_no),
    }
}

/// The class that an aggregation or a record has.
fn class_now(tree: &Tree, what: Classified) -> Option<&Code>
    ensures { option_copied result ≡ class_now tree.now what }
{
    match what {
        Classified::Aggregation(aggregation) => aggregation_class(tree, aggregation),
        Classified::Record(record_no) => record_class(tree, record_no),
    }
}

/// The class that it would have without one of its own.
fn class_above(tree: &Tree, what: Classified) -> Option<&Code>
    ensures { option_copied result ≡ class_above tree.now what }
{
    match what {
        Classified::Aggregation(aggregation) => {
            if !tree.has_aggregation(aggregation) {
                return None;
            }
            match tree.aggregation(aggregation).parent {
                Some(parent) => aggregation_class(tree, parent),
                None => None,
            }
        }
        Classified::Record(record_no) => {
            if !tree.has_record(record_no) {
                return None;
            }
            aggregation_class(tree, tree.record(record_no).aggregation)
        }
    }
}

impl Grants {
    /// Whether it may do acts of that kind in the own class, if one is named.
    fn may_in_own(&self, power: Power, own: &Option<Code>) -> bool
        ensures { result ≡ list_all (may_in self.now power) (and_own own.now) }
    {
        match own {
            Some(class) => self.may_in(power, Some(class)),
            None => true,
        }
    }

    /// Whether it may put something into that aggregation, with that class of its own.
    fn may_put(
        &self,
        tree: &Tree,
        power: Power,
        container: Option<AggNo>,
        own: &Option<Code>,
    ) -> bool
        ensures { result
            ≡ list_all (may_in self.now power) (put_into tree.now container own.now) }
    {
        match container {
            Some(aggregation) => {
                self.may_in(power, aggregation_class(tree, aggregation))
                    && self.may_in_own(power, own)
            }
            None => self.may_in(power, own.as_ref()),
        }
    }

    /// Whether it may give that class to what has the one that it has.
    fn may_reclassify(
        &self,
        tree: &Tree,
        power: Power,
        what: Classified,
        own: &Option<Code>,
    ) -> bool
        ensures { result
            ≡ list_all (may_in self.now power)
            (class_now tree.now what ∷ or_else own.now (class_above tree.now what) ∷ []) }
    {
        let given = match own {
            Some(class) => Some(class),
            None => class_above(tree, what),
        };
        self.may_in(power, class_now(tree, what)) && self.may_in(power, given)
    }

    /// Reports whether a right allows that in each class that the act is about.
    pub(crate) fn may_in_all(&self, tree: &Tree, power: Power, act: &Act) -> bool
        ensures { result ≡ list_all (may_in self.now power) (classes_of tree.now act.now) }
    {
        match act {
            Act::AddClass { code: class, .. } | Act::SetClassSchedule { class, .. } => {
                self.may_in(power, Some(class))
            }
            Act::AddAggregation { parent, class, .. } => {
                self.may_put(tree, power, *parent, class)
            }
            Act::AddRecord {
                aggregation,
                class,
                ..
            } => self.may_put(tree, power, Some(*aggregation), class),
            Act::CloseAggregation { aggregation, .. } => {
                self.may_in(power, aggregation_class(tree, *aggregation))
            }
            Act::Reclassify { target, class, .. } => {
                self.may_reclassify(tree, power, *target, class)
            }
            Act::SetRecordSchedule { record_no, .. }
            | Act::Confirm { record_no, .. }
            | Act::Review { record_no, .. }
            | Act::Receipt { record_no, .. }
            | Act::Event { record_no, .. } => self.may_in(power, record_class(tree, *record_no)),
            Act::HoldOn { target, .. } | Act::HoldOff { target, .. } => {
                self.may_in(power, target_class(tree, target))
            }
            Act::AddSchedule { .. }
            | Act::PlaceHold { .. }
            | Act::LiftHold { .. }
            | Act::OpenRun { .. }
            | Act::RunStep => self.may_in(power, None),
        }
    }
}
