//! What is examined of a tree before it is taken over with the rest of an office.
ghost use Rattle.std.specs.Prelude.{◌≡◌, ◌↔◌, IsTrue, false, length, true};
ghost use Rattle.std.specs.BTreeMap as map;
ghost use Rattle.std.specs.FinMap.{from_entries};
ghost use Rattle.std.specs.List.{All};
ghost use Rattle.std.specs.Ordering.{nat_cmp};
ghost use Rattle.office_records.specs.Disposal.{is_disposal};
ghost use Rattle.office_records.specs.Examined.{AllHaveDocuments, AreContentsShort, IsTreeBy, has_documents, is_by, is_confirmed_by, is_disposal_confirmed, is_receipted_by, is_record_by, is_reviewed_by, is_sound_event};
ghost use Rattle.office_records.specs.Forms.{IsWellFormedTree};
ghost use Rattle.office_tree.specs.Indexes.{Indexes, aggregation_refs, record_refs};
ghost use Rattle.office_records.specs.Lists.{Differ};
ghost use Rattle.office_records.specs.Sound.{AreEventsSound, RefsDiffer};
ghost use Rattle.office_records.specs.Tree.{code_cmp};

use crate::Tree;
use office_days::Day;
use office_records::{
    Action, AggNo, Aggregation, Confirmation, Event, Receipt, Record, RecordNo, Review, Status,
    Text, well_formed_aggregations, well_formed_classes, well_formed_events, well_formed_records,
    well_formed_schedules,
};
use std::collections::BTreeMap;

/// Whether the action is one that a disposal run does.
fn is_disposal(action: Action) -> bool
    ensures { result ≡ is_disposal action }
{
    match action {
        Action::Transfer | Action::Destroy => true,
        Action::Keep | Action::Review => false,
    }
}

/// Whether the action that is confirmed, if one is, is one that a disposal run does.
fn is_disposal_confirmed(confirmation: &Option<Confirmation>) -> bool
    ensures { result ≡ is_disposal_confirmed confirmation.now }
{
    match confirmation {
        Some(confirmation) => is_disposal(confirmation.action),
        None => true,
    }
}

/// Whether the record has what its status asks for.
fn has_documents(head: &Record, status: Status) -> bool
    ensures { result ≡ has_documents head.now status }
{
    if status != Status::Here && head.confirmation.is_none() {
        return false;
    }
    if !is_disposal_confirmed(&head.confirmation) {
        return false;
    }
    status != Status::Received || head.receipt.is_some()
}

/// Whether the day, if there is one, is not after the other.
fn is_by(last: Day, day: Option<Day>) -> bool
    ensures { result ≡ is_by last day }
{
    match day {
        Some(day) => day <= last,
        None => true,
    }
}

/// Whether the review, if there is one, is of that day or before it.
fn is_reviewed_by(last: Day, review: &Option<Review>) -> bool
    ensures { result ≡ is_reviewed_by last review.now }
{
    match review {
        Some(review) => review.day <= last,
        None => true,
    }
}

/// Whether the confirmation, if there is one, is of that day or before it.
fn is_confirmed_by(last: Day, confirmation: &Option<Confirmation>) -> bool
    ensures { result ≡ is_confirmed_by last confirmation.now }
{
    match confirmation {
        Some(confirmation) => confirmation.day <= last,
        None => true,
    }
}

/// Whether the receipt, if there is one, is of that day or before it.
fn is_receipted_by(last: Day, receipt: &Option<Receipt>) -> bool
    ensures { result ≡ is_receipted_by last receipt.now }
{
    match receipt {
        Some(receipt) => receipt.day <= last,
        None => true,
    }
}

/// Whether no day of an act on the record is after that day.
fn is_record_by(last: Day, head: &Record) -> bool
    ensures { result ≡ is_record_by last head.now }
{
    head.added <= last
        && is_reviewed_by(last, &head.review)
        && is_confirmed_by(last, &head.confirmation)
        && is_receipted_by(last, &head.receipt)
}

/// Whether the event is of one of so many records, did not occur after the day of its act, and that
/// day is not after the last.
fn is_sound_event(count: RecordNo, last: Day, record_no: RecordNo, event: &Event) -> bool
    ensures { result ≡ is_sound_event count last record_no event.now }
{
    1 <= record_no && record_no <= count && event.occurred <= event.day && event.day <= last
}

/// Whether that is so of each event.
fn are_sound_events(count: RecordNo, last: Day, events: &BTreeMap<RecordNo, Event>) -> bool
    ensures { IsTrue result
        ↔ All (λ e. is_sound_event count last e.0 e.1 ≡ true) events.now.entries }
{
    for (record_no, event) in events {
        if !is_sound_event(count, last, *record_no, event) {
            return false;
        }
    }
    true
}

/// Makes known to proofs that the numbers of the events' records ascend: a call does nothing.
fn ascending(events: &BTreeMap<RecordNo, Event>)
    ensures { map.IsOrdered nat_cmp events.now }
{
    let _ = events.len();
}

/// Whether no two aggregations have one ref: the index has as many refs as there are aggregations.
fn do_aggregation_refs_differ(index: &BTreeMap<Text, AggNo>, aggregations: &[Aggregation]) -> bool
    requires { Indexes (from_entries {R = code_cmp} index.now.entries)
        (aggregation_refs aggregations.now) }
    ensures yes { IsTrue result → Differ (λ it. it.ref_text) aggregations.now }
    ensures no { result ≡ false → Differ (λ it. it.ref_text) aggregations.now → ⊥ }
{
    index.len() == aggregations.len()
}

/// Whether no two records have one ref: the index has as many refs as there are records.
fn do_record_refs_differ(index: &BTreeMap<Text, RecordNo>, records: &[Record]) -> bool
    requires { Indexes (from_entries {R = code_cmp} index.now.entries) (record_refs records.now) }
    ensures yes { IsTrue result → Differ (λ head. head.ref_text) records.now }
    ensures no { result ≡ false → Differ (λ head. head.ref_text) records.now → ⊥ }
{
    index.len() == records.len()
}

impl Tree {
    /// Whether each record has the confirmation and the receipt that its status asks for, and each
    /// confirmation names transfer or destruction.
    pub fn have_all_documents(&self) -> bool
        ensures yes { IsTrue result → AllHaveDocuments self.now.records self.now.statuses }
        ensures no { result ≡ false → AllHaveDocuments self.now.records self.now.statuses → ⊥ }
    {
        for (head, status) in self.records.iter().zip(self.statuses.iter()) {
            if !has_documents(head, *status) {
                return false;
            }
        }
        true
    }

    /// Whether no day of an act on the tree is after that day.
    pub fn is_by(&self, last: Day) -> bool
        ensures yes { IsTrue result → IsTreeBy self.now.aggregations self.now.records last }
        ensures no { result ≡ false → IsTreeBy self.now.aggregations self.now.records last → ⊥ }
    {
        if !self.aggregations.iter().all(|it| is_by(last, it.closed)) {
            return false;
        }
        self.records.iter().all(|head| is_record_by(last, head))
    }

    /// Whether each event is of a record that is there and did not occur after the day of its act,
    /// and no such day is after that day.
    pub fn are_events_sound(&self, last: Day) -> bool
        ensures yes { IsTrue result
            → AreEventsSound self.now.events (length self.now.records) last }
        ensures no { result ≡ false → AreEventsSound self.now.events (length self.now.records) last
            → ⊥ }
    {
        ascending(&self.events);
        are_sound_events(self.record_count(), last, &self.events)
    }

    /// Whether no content is longer than one may be.
    pub fn are_contents_short(&self) -> bool
        ensures { IsTrue result ↔ AreContentsShort self.now.records }
    {
        self.records.iter().all(|head| head.length <= 262_144)
    }

    /// Whether no two aggregations and no two records have one ref.
    pub fn do_refs_differ(&self) -> bool
        ensures yes { IsTrue result → RefsDiffer self.now.aggregations self.now.records }
        ensures no { result ≡ false → RefsDiffer self.now.aggregations self.now.records → ⊥ }
    {
        if !do_aggregation_refs_differ(
            &self.derived.directory.by_aggregation_ref,
            &self.aggregations,
        ) {
            return false;
        }
        do_record_refs_differ(&self.derived.directory.by_record_ref, &self.records)
    }

    /// Makes known to proofs that all that is in the tree is of its form: a call changes nothing.
    pub fn formed(&self)
        requires { AreContentsShort self.now.records }
        ensures { IsWellFormedTree self.now }
    {
        well_formed_schedules(&self.schedules);
        well_formed_classes(&self.classes);
        well_formed_aggregations(&self.aggregations);
        well_formed_records(&self.records);
        well_formed_events(&self.events);
    }
}
