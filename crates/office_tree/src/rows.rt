//! The rows of a tree, borrowed while what is derived from them is computed anew.
ghost use Rattle.std.specs.Prelude.{◌≡◌, ◌&&◌, IsTrue, Some};
ghost use Rattle.std.specs.FinMap.{get};
ghost use Rattle.std.specs.Ordering.{int_eq};
ghost use Rattle.office_records.specs.Disposal.{is_disposal, same_action};
ghost use Rattle.office_tree.specs.Inheriting.{has_own_class};
ghost use Rattle.office_records.specs.Lists.{is_some_and};
ghost use Rattle.office_records.specs.Candidates.{candidate_by};
ghost use Rattle.office_tree.specs.RecordCaches.{IsRecordCache};
ghost use Rattle.office_tree.specs.Derived.{CanCache};
ghost use Rattle.office_records.specs.Sound.{IsSound};
ghost use Rattle.office_records.specs.Tree.{has_aggregation, has_record, plan_of, schedule_of};

use crate::classification::class_in;
use crate::directory::Directory;
use crate::due_days::{due_by, start_in};
use crate::record_cache::RecordCache;
use office_days::DueDay;
use office_records::{
    Action, AggNo, Aggregation, Class, Code, Confirmation, Event, Record, RecordNo, Schedule,
    Status,
};
use std::collections::BTreeMap;
use std::marker::Model;

/// The rows of a tree. Contracts see a `TreeState`.
#[derive(Drop)]
pub(crate) struct Rows<'a> {
    pub(crate) schedules: &'a BTreeMap<Code, Schedule>,
    pub(crate) classes: &'a BTreeMap<Code, Class>,
    pub(crate) aggregations: &'a [Aggregation],
    pub(crate) records: &'a [Record],
    pub(crate) statuses: &'a [Status],
    pub(crate) events: &'a BTreeMap<RecordNo, Event>,
}

impl<'a> Model for Rows<'a> {
    ghost use Rattle.std.specs.FinMap.{from_entries};
    ghost use Rattle.office_records.specs.Tree.{TreeState};
    ghost use Rattle.std.specs.Coded.{codes};
    ghost use Rattle.std.specs.FinMap as map;

    ghost Value = { TreeState };

    ghost coded = { Prim.hlevel (codes, map.code) };

    ghost view = { λ t. record {
      schedules = from_entries t.schedules.now.entries;
      classes = from_entries t.classes.now.entries;
      aggregations = t.aggregations.now;
      records = t.records.now;
      statuses = t.statuses.now;
      events = from_entries t.events.now.entries;
    } };
}

/// The rows of a tree, each borrowed by itself, so that what is derived from them can be written
/// meanwhile.
macro_rules! rows_of {
    ($tree:expr) => {
        $crate::rows::Rows {
            schedules: &$tree.schedules,
            classes: &$tree.classes,
            aggregations: &$tree.aggregations,
            records: &$tree.records,
            statuses: &$tree.statuses,
            events: &$tree.events,
        }
    };
}

pub(crate) use rows_of;

/// Whether a run does that action.
fn is_disposal(action: Action) -> bool
    ensures { result ≡ is_disposal action }
{
    matches!(action, Action::Transfer | Action::Destroy)
}

/// Whether the confirmation, if there is one, is of that action and that due day.
fn is_confirmed(confirmation: &Option<Confirmation>, action: Action, due: Option<DueDay>) -> bool
    ensures { result
        ≡ is_some_and confirmation.now
        (λ it. same_action it.action action && is_some_and due (int_eq it.due)) }
{
    match confirmation {
        Some(confirmation) => confirmation.is_of(action, due),
        None => false,
    }
}

/// Whether a run takes a record of that status once it is due.
fn is_candidate(head: &Record, status: Status, action: Action, due: Option<DueDay>) -> bool
    ensures { result
        ≡ candidate_by (Some status)
        (is_disposal action
        && is_some_and head.now.confirmation
        (λ it. same_action it.action action && is_some_and due (int_eq it.due))) }
{
    match status {
        Status::Here => is_disposal(action) && is_confirmed(&head.confirmation, action, due),
        Status::Received => true,
        Status::Sent | Status::Ended => false,
    }
}

impl<'a> Rows<'a> {
    /// Whether the aggregation has a class of its own.
    pub(crate) fn has_own_class(&self, aggregation: AggNo) -> bool
        requires { IsTrue (has_aggregation self.now aggregation) }
        ensures { result ≡ has_own_class self.now.aggregations aggregation }
    {
        self.aggregations[aggregation as usize - 1].class.is_some()
    }

    /// The code of the record's plan: its own schedule, else the schedule of its class.
    pub(crate) fn plan_of(&self, record_no: RecordNo) -> &'a Code
        requires sound { IsSound self.now }
        requires there { IsTrue (has_record self.now record_no) }
        ensures { plan_of self.now record_no ≡ Some result.now }
    {
        let head = &self.records[record_no as usize - 1];
        if let Some(schedule) = &head.schedule {
            return schedule;
        }
        let class = class_in(self.aggregations, self.records, record_no);
        match self.classes.get(class) {
            Some(class) => &class.schedule,
            None => unreachable!(),
        }
    }

    /// The schedule of that code, which is the plan of a record.
    fn schedule(&self, record_no: RecordNo, plan: &Code) -> &'a Schedule
        requires sound { IsSound self.now }
        requires plan { plan_of self.now record_no ≡ Some plan.now }
        ensures { schedule_of self.now record_no ≡ Some result.now }
    {
        match self.schedules.get(plan) {
            Some(schedule) => schedule,
            None => unreachable!(),
        }
    }

    /// What is to be cached of the record.
    pub(crate) fn record_cache(&self, directory: &Directory, record_no: RecordNo) -> RecordCache
        requires ready { CanCache self.now directory.now }
        requires there { IsTrue (has_record self.now record_no) }
        ensures { IsRecordCache directory.now.schedule_numbers self.now record_no result }
    {
        let at = record_no as usize - 1;
        let plan = self.plan_of(record_no);
        let schedule = self.schedule(record_no, plan);
        let start = start_in(
            self.aggregations,
            &directory.summaries,
            self.records,
            self.events,
            *schedule,
            record_no,
        );
        let mut record_cache = RecordCache {
            plan: directory.schedule_numbers.number_of(plan),
            due: due_by(*schedule, start),
            is_candidate: false,
        };
        let head = &self.records[at];
        let status = &self.statuses[at];
        record_cache.is_candidate = is_candidate(head, *status, schedule.action, record_cache.due);
        record_cache
    }
}
