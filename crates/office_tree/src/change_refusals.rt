//! Why an act that changes a class, an aggregation or a record that is there is refused.
ghost use Rattle.std.specs.Prelude.{◌≡◌, ◌&&◌, is_none, not};
ghost use Rattle.std.specs.Option.{option_copied};
ghost use Rattle.std.specs.Str.{bytes_eq};
ghost use Rattle.office_records.specs.Conditions.{IsLeastOf, classified_status, conditions_of_confirm, conditions_of_event, conditions_of_receipt, conditions_of_reclassify, conditions_of_review, conditions_of_set_class_schedule, conditions_of_set_record_schedule, first_of, has_other_action, is_not_due, is_root, lacks_classified};
ghost use Rattle.office_records.specs.Disposal.{is_ended, is_in_transfer, is_sent};
ghost use Rattle.office_records.specs.Lists.{is_some_and, numbered};
ghost use Rattle.office_records.specs.Tree.{status_of};

use crate::Tree;
use crate::lookup::numbered;
use office_base::Refusal;
use office_days::Day;
use office_records::{Action, Classified, Code, RecordNo, Status, first_of, same_action};

/// Whether a status is given that is ended.
pub(crate) fn is_ended(status: Option<Status>) -> bool
    ensures { result ≡ is_some_and status is_ended }
{
    matches!(status, Some(Status::Ended))
}

/// Whether a status is given that is sent or received.
fn is_in_transfer(status: Option<Status>) -> bool
    ensures { result ≡ is_some_and status is_in_transfer }
{
    matches!(status, Some(Status::Sent | Status::Received))
}

/// Whether a status is given that is not sent.
fn is_not_sent(status: Option<Status>) -> bool
    ensures { result ≡ is_some_and status (λ it. not (is_sent it)) }
{
    matches!(
        status,
        Some(Status::Here | Status::Received | Status::Ended)
    )
}

impl Tree {
    /// How far the record's disposal has come, if the record is there.
    pub(crate) fn status_of(&self, record_no: RecordNo) -> Option<Status>
        ensures { result ≡ status_of self.now record_no }
    {
        numbered(&self.statuses, record_no).copied()
    }

    /// Whether the record is there and has no due day, or one after the day.
    fn is_not_due(&self, record_no: RecordNo, day: Day) -> bool
        ensures { result ≡ is_not_due self.now record_no day }
    {
        if !self.has_record(record_no) {
            return false;
        }
        match self.due_of(record_no) {
            Some(due) => !due.reached(day),
            None => true,
        }
    }

    /// Whether the record is there and its plan has another action.
    fn has_other_action(&self, record_no: RecordNo, action: Action) -> bool
        ensures { result ≡ has_other_action self.now record_no action }
    {
        if !self.has_record(record_no) {
            return false;
        }
        !same_action(action, self.schedule_of(record_no).action)
    }

    /// Whether the record is there and its content has another digest.
    fn has_other_digest(&self, record_no: RecordNo, digest: [u8; 32]) -> bool
        ensures { result
            ≡ is_some_and (numbered self.now.records record_no)
            (λ head. not (bytes_eq head.digest digest)) }
    {
        if !self.has_record(record_no) {
            return false;
        }
        self.record(record_no).digest != digest
    }

    /// Whether there is no such aggregation, or no such record.
    fn lacks_classified(&self, what: Classified) -> bool
        ensures { result ≡ lacks_classified self.now what }
    {
        match what {
            Classified::Aggregation(aggregation) => !self.has_aggregation(aggregation),
            Classified::Record(record_no) => !self.has_record(record_no),
        }
    }

    /// Whether it is an aggregation that is there and has no parent.
    fn is_root(&self, what: Classified) -> bool
        ensures { result ≡ is_root self.now what }
    {
        let Classified::Aggregation(aggregation) = what else {
            return false;
        };
        match numbered(&self.aggregations, aggregation) {
            Some(here) => here.parent.is_none(),
            None => false,
        }
    }

    /// Whether it is a root, and no class is given.
    fn is_root_without(&self, what: Classified, class: Option<&Code>) -> bool
        ensures { result ≡ (is_root self.now what && is_none (option_copied class.entry)) }
    {
        self.is_root(what) && class.is_none()
    }

    /// The status of a record that is there; an aggregation has none.
    fn classified_status(&self, what: Classified) -> Option<Status>
        ensures { result ≡ classified_status self.now what }
    {
        match what {
            Classified::Aggregation(_) => None,
            Classified::Record(record_no) => self.status_of(record_no),
        }
    }

    /// Why the class may not get this schedule, if it may not: `NoSuch`.
    pub fn check_set_class_schedule(&self, class: &Code, schedule: &Code) -> Option<Refusal>
        ensures first { result
            ≡ first_of (conditions_of_set_class_schedule self.now class.now schedule.now) }
        ensures least { IsLeastOf (conditions_of_set_class_schedule self.now class.now schedule.now)
            result }
    {
        let is_missing = !self.has_class(class) || !self.has_schedule(schedule);
        first_of(&[(Refusal::NoSuch, is_missing)])
    }

    /// Why the record may not get this schedule as its own, or lose its own where none is given,
    /// if it may not: `NoSuch`, `Ended`, `InTransfer`.
    pub fn check_set_record_schedule(
        &self,
        record_no: RecordNo,
        schedule: Option<&Code>,
    ) -> Option<Refusal>
        ensures first { result
            ≡ first_of (conditions_of_set_record_schedule self.now record_no
            (option_copied schedule.entry)) }
        ensures least { IsLeastOf
            (conditions_of_set_record_schedule self.now record_no (option_copied schedule.entry))
            result }
    {
        let is_missing = !self.has_record(record_no) || self.lacks_schedule(schedule);
        let status = self.status_of(record_no);
        first_of(&[
            (Refusal::NoSuch, is_missing),
            (Refusal::Ended, is_ended(status)),
            (Refusal::InTransfer, is_in_transfer(status)),
        ])
    }

    /// Why it may not get this class as its own, or lose its own where none is given, if it may
    /// not: `NoSuch`, `NeedsClass`, `Ended`, `InTransfer`.
    pub fn check_reclassify(&self, what: Classified, class: Option<&Code>) -> Option<Refusal>
        ensures first { result
            ≡ first_of (conditions_of_reclassify self.now what (option_copied class.entry)) }
        ensures least { IsLeastOf
            (conditions_of_reclassify self.now what (option_copied class.entry)) result }
    {
        let is_missing = self.lacks_classified(what) || self.lacks_class(class);
        let status = self.classified_status(what);
        first_of(&[
            (Refusal::NoSuch, is_missing),
            (Refusal::NeedsClass, self.is_root_without(what, class)),
            (Refusal::Ended, is_ended(status)),
            (Refusal::InTransfer, is_in_transfer(status)),
        ])
    }

    /// Why the record's disposal by this action may not be confirmed on that day, if it may not:
    /// `NoSuch`, `Ended`, `InTransfer`, `NotDue`, `WrongAction`.
    pub fn check_confirm(&self, day: Day, record_no: RecordNo, action: Action) -> Option<Refusal>
        ensures first { result ≡ first_of (conditions_of_confirm self.now day record_no action) }
        ensures least { IsLeastOf (conditions_of_confirm self.now day record_no action) result }
    {
        let is_other = self.has_other_action(record_no, action);
        let to_review = same_action(action, Action::Review);
        let status = self.status_of(record_no);
        first_of(&[
            (Refusal::NoSuch, !self.has_record(record_no)),
            (Refusal::Ended, is_ended(status)),
            (Refusal::InTransfer, is_in_transfer(status)),
            (Refusal::NotDue, self.is_not_due(record_no, day)),
            (Refusal::WrongAction, is_other || to_review),
        ])
    }

    /// Why a review of the record on that day, by which it may get a schedule of its own, may not
    /// be reported, if it may not: `NoSuch`, `Ended`, `InTransfer`, `NotDue`, `WrongAction`.
    pub fn check_review(
        &self,
        day: Day,
        record_no: RecordNo,
        schedule: Option<&Code>,
    ) -> Option<Refusal>
        ensures first { result
            ≡ first_of
            (conditions_of_review self.now day record_no (option_copied schedule.entry)) }
        ensures least { IsLeastOf
            (conditions_of_review self.now day record_no (option_copied schedule.entry)) result }
    {
        let is_missing = !self.has_record(record_no) || self.lacks_schedule(schedule);
        let is_other = self.has_other_action(record_no, Action::Review);
        let status = self.status_of(record_no);
        first_of(&[
            (Refusal::NoSuch, is_missing),
            (Refusal::Ended, is_ended(status)),
            (Refusal::InTransfer, is_in_transfer(status)),
            (Refusal::NotDue, self.is_not_due(record_no, day)),
            (Refusal::WrongAction, is_other),
        ])
    }

    /// Why a receiver's receipt, which names the digest of what was received, may not be reported
    /// of the record, if it may not: `NoSuch`, `Ended`, `NotSent`, `WrongDigest`.
    pub fn check_receipt(&self, record_no: RecordNo, digest: [u8; 32]) -> Option<Refusal>
        ensures first { result ≡ first_of (conditions_of_receipt self.now record_no digest) }
        ensures least { IsLeastOf (conditions_of_receipt self.now record_no digest) result }
    {
        let is_other = self.has_other_digest(record_no, digest);
        let status = self.status_of(record_no);
        first_of(&[
            (Refusal::NoSuch, !self.has_record(record_no)),
            (Refusal::Ended, is_ended(status)),
            (Refusal::NotSent, is_not_sent(status)),
            (Refusal::WrongDigest, is_other),
        ])
    }

    /// Why an event of the record that occurred on the day `occurred` may not be recorded on that
    /// day, if it may not: `NoSuch`, `Ended`, `InTransfer`, `NotYet`. The plan's trigger is not
    /// asked for.
    pub fn check_event(&self, day: Day, record_no: RecordNo, occurred: Day) -> Option<Refusal>
        ensures first { result ≡ first_of (conditions_of_event self.now day record_no occurred) }
        ensures least { IsLeastOf (conditions_of_event self.now day record_no occurred) result }
    {
        let current = self.status_of(record_no);
        first_of(&[
            (Refusal::NoSuch, !self.has_record(record_no)),
            (Refusal::Ended, is_ended(current)),
            (Refusal::InTransfer, is_in_transfer(current)),
            (Refusal::NotYet, day < occurred),
        ])
    }
}
