//! The plan, the start day and the due day of a record.
ghost use Rattle.std.specs.Prelude.{◌≡◌, ◌<◌, ◌≤◌, IfNone, IfSome, IsTrue, Some, length};
ghost use Rattle.std.specs.FinMap.{from_entries};
ghost use Rattle.std.specs.Option.{option_and_then, option_map};
ghost use Rattle.office_records.specs.Lists.{later, numbered};
ghost use Rattle.office_records.specs.Candidates.{HasNoCandidateAbove, IsNextCandidate, is_candidate};
ghost use Rattle.office_tree.specs.Summaries.{AreLastAdditions};
ghost use Rattle.office_records.specs.Tree.{due_by, due_of, has_record, plan_of, schedule_of, start_in, start_of};

use crate::Tree;
use crate::record_cache::RecordCache;
use crate::summary::AggregationSummary;
use office_days::{Day, DueDay, due_day};
use office_records::{
    Action, AggNo, Aggregation, Code, Event, Record, RecordNo, Schedule, Trigger,
};
use std::collections::BTreeMap;

/// The later of two days, where there may be no first.
pub(crate) fn later(best: Option<Day>, day: Day) -> Day
    ensures { Some result ≡ later best day }
{
    match best {
        Some(best) => best.max(day),
        None => day,
    }
}

/// The last addition to the aggregation, as it is cached.
fn last_addition_of(summaries: &[AggregationSummary], aggregation: AggNo) -> Option<Day>
    requires low { 0 < aggregation }
    requires high { aggregation ≤ length summaries.now }
    ensures { option_map (λ it. it.last_addition) (numbered summaries.now aggregation)
        ≡ Some result }
{
    let summary = summaries[aggregation as usize - 1];
    summary.last_addition
}

/// The day on which the aggregation was closed.
fn closed_day(aggregations: &[Aggregation], aggregation: AggNo) -> Option<Day>
    requires low { 0 < aggregation }
    requires high { aggregation ≤ length aggregations.now }
    ensures { result ≡ option_and_then (λ it. it.closed) (numbered aggregations.now aggregation) }
{
    let here = &aggregations[aggregation as usize - 1];
    here.closed
}

/// The start day of a record by a schedule's trigger.
pub(crate) fn start_in(
    aggregations: &[Aggregation],
    summaries: &[AggregationSummary],
    records: &[Record],
    events: &BTreeMap<RecordNo, Event>,
    schedule: Schedule,
    record_no: RecordNo,
) -> Option<Day>
    requires aggregation { (head : Record) → numbered records.now record_no ≡ Some head
        → (0 < head.aggregation) × (head.aggregation ≤ length aggregations.now) }
    requires low { 0 < record_no }
    requires high { record_no ≤ length records.now }
    requires last { AreLastAdditions summaries.now aggregations.now records.now }
    ensures { result
        ≡ start_in aggregations.now records.now (from_entries events.now.entries) schedule
        record_no }
{
    let head = &records[record_no as usize - 1];
    match schedule.trigger {
        Trigger::Origin => Some(head.originated),
        Trigger::Added => Some(head.added),
        Trigger::Closed => closed_day(aggregations, head.aggregation),
        Trigger::LastAddition => last_addition_of(summaries, head.aggregation),
        Trigger::Review => match &head.review {
            Some(review) => Some(review.day),
            None => Some(head.added),
        },
        Trigger::Event => match events.get(&record_no) {
            Some(event) => Some(event.occurred),
            None => None,
        },
    }
}

/// The due day by a schedule from a start day: none where there is no start, or where the action
/// is to keep.
pub(crate) fn due_by(schedule: Schedule, start: Option<Day>) -> Option<DueDay>
    ensures { result ≡ due_by schedule start }
{
    if let Action::Keep = schedule.action {
        return None;
    }
    match start {
        Some(day) => Some(due_day(day, schedule.period, schedule.offset)),
        None => None,
    }
}

impl Tree {
    /// What is cached of the record.
    fn record_cache(&self, record_no: RecordNo) -> RecordCache
        requires { IsTrue (has_record self.now record_no) }
        ensures due { result.due ≡ due_of self.now record_no }
        ensures candidate { result.is_candidate ≡ is_candidate self.now record_no }
    {
        self.derived.per_record.record_caches.rows[record_no as usize - 1]
    }

    /// The code of the record's plan: its own schedule, else the schedule of its class (MoReq2010,
    /// disposal scheduling service). The record must be there.
    pub fn plan_of(&self, record_no: RecordNo) -> &Code
        requires { IsTrue (has_record self.now record_no) }
        ensures { plan_of self.now record_no ≡ Some result.now }
    {
        self.derived.directory.schedule_numbers.code(
            self.derived.per_record.record_caches.rows[record_no as usize - 1].plan,
        )
    }

    /// The schedule of the record's plan. The record must be there.
    pub fn schedule_of(&self, record_no: RecordNo) -> Schedule
        requires { IsTrue (has_record self.now record_no) }
        ensures { schedule_of self.now record_no ≡ Some result }
    {
        match self.schedules.get(self.plan_of(record_no)) {
            Some(schedule) => *schedule,
            None => unreachable!(),
        }
    }

    /// The start day of the record by its plan's trigger; none where its aggregation is to be
    /// closed first, or no event of it is recorded. The record must be there.
    pub fn start_of(&self, record_no: RecordNo) -> Option<Day>
        requires { IsTrue (has_record self.now record_no) }
        ensures { result ≡ start_of self.now record_no }
    {
        let schedule = self.schedule_of(record_no);
        start_in(
            &self.aggregations,
            &self.derived.directory.summaries,
            &self.records,
            &self.events,
            schedule,
            record_no,
        )
    }

    /// The due day of the record: the start plus the period, then the offset; none where there is
    /// no start or the plan is to keep. The record must be there.
    pub fn due_of(&self, record_no: RecordNo) -> Option<DueDay>
        requires { IsTrue (has_record self.now record_no) }
        ensures { result ≡ due_of self.now record_no }
    {
        self.record_cache(record_no).due
    }

    /// Whether a disposal run takes the record once it is due: it is here, its action is to
    /// transfer or to destroy and its confirmation counts; or it is received. The record must be
    /// there.
    pub fn is_candidate(&self, record_no: RecordNo) -> bool
        requires { IsTrue (has_record self.now record_no) }
        ensures { result ≡ is_candidate self.now record_no }
    {
        self.record_cache(record_no).is_candidate
    }

    /// The least record above the number of which [`Tree::is_candidate`] is true. The others are
    /// not looked at, which no clause counts.
    pub fn next_candidate(&self, above: RecordNo) -> Option<RecordNo>
        ensures there { IfSome result (λ r. IsTrue (has_record self.now r)) }
        ensures found { IfSome result (IsNextCandidate self.now above) }
        ensures none { IfNone result (HasNoCandidateAbove self.now above) }
    {
        self.derived.per_record.record_caches.next_candidate(above)
    }
}
