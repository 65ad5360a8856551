//! What is in a tree is well-formed, stated as functions for proofs. A call changes nothing: the
//! types see to it.
ghost use Rattle.std.specs.Prelude.{◌≤◌, ◌<◌, IfSome};
ghost use Rattle.std.specs.List.{All};
ghost use Rattle.office_days.specs.Limits.{IsDayNumber};
ghost use Rattle.office_records.specs.Examined.{AreContentsShort};
ghost use Rattle.office_records.specs.Forms.{IsCode, IsDigest, IsWellFormedAggregation, IsWellFormedClass, IsWellFormedConfirmation, IsWellFormedEvent, IsWellFormedReceipt, IsWellFormedRecord, IsWellFormedReview, IsWellFormedSchedule};

use crate::{
    Aggregation, Class, Code, Confirmation, Event, Receipt, Record, RecordNo, Review, Schedule,
};
use office_days::Day;
use std::collections::BTreeMap;

/// A code, if there is one, is of its form.
fn well_formed_code_or_none(code: &Option<Code>)
    ensures { IfSome code.now IsCode }
{
    if let Some(code) = code {
        let _ = code.text();
    }
}

/// A day, if there is one, is one that may be handed in.
fn well_formed_day_or_none(day: Option<Day>)
    ensures { IfSome day IsDayNumber }
{
    if let Some(day) = day {
        let _ = day.number();
    }
}

/// Each byte is below 256.
fn well_formed_bytes(bytes: &[u8])
    ensures { All (λ b. b < 256) bytes.now }
{
    let _ = bytes.len();
}

/// A digest has 32 bytes.
fn well_formed_digest(digest: &[u8; 32])
    ensures { IsDigest digest.now }
{
    well_formed_bytes(digest);
}

/// The period of a schedule is within the limit of its unit.
fn well_formed_schedule(it: &Schedule)
    ensures { IsWellFormedSchedule it.now }
{
    let _ = it.period.count();
}

/// A class is of its form.
fn well_formed_class(it: &Class)
    ensures { IsWellFormedClass it.now }
{
    let _ = it.title.text();
    let _ = it.schedule.text();
}

/// An aggregation is of its form.
fn well_formed_aggregation(it: &Aggregation)
    ensures { IsWellFormedAggregation it.now }
{
    let _ = it.ref_text.text();
    let _ = it.title.text();
    well_formed_code_or_none(&it.class);
    well_formed_day_or_none(it.closed);
}

/// A review, if there is one, is of its form.
fn well_formed_review(review: &Option<Review>)
    ensures { IfSome review.now IsWellFormedReview }
{
    if let Some(review) = review {
        let _ = review.day.number();
        let _ = review.by.text();
    }
}

/// A confirmation, if there is one, is of its form.
fn well_formed_confirmation(confirmation: &Option<Confirmation>)
    ensures { IfSome confirmation.now IsWellFormedConfirmation }
{
    if let Some(confirmation) = confirmation {
        let _ = confirmation.due.number();
        let _ = confirmation.day.number();
        let _ = confirmation.by.text();
    }
}

/// A receipt, if there is one, is of its form.
fn well_formed_receipt(receipt: &Option<Receipt>)
    ensures { IfSome receipt.now IsWellFormedReceipt }
{
    if let Some(receipt) = receipt {
        let _ = receipt.day.number();
        let _ = receipt.by.text();
    }
}

/// A record is of its form, where its content is not too long.
fn well_formed_record(head: &Record)
    requires { head.now.length ≤ 262_144 }
    ensures { IsWellFormedRecord head.now }
{
    let _ = head.ref_text.text();
    let _ = head.title.text();
    let _ = head.originated.number();
    let _ = head.added.number();
    well_formed_code_or_none(&head.class);
    well_formed_code_or_none(&head.schedule);
    well_formed_digest(&head.digest);
    well_formed_review(&head.review);
    well_formed_confirmation(&head.confirmation);
    well_formed_receipt(&head.receipt);
}

/// The schedules and their codes are of their forms.
pub fn well_formed_schedules(schedules: &BTreeMap<Code, Schedule>)
    ensures { All (λ e. IsCode e.0 × IsWellFormedSchedule e.1) schedules.now.entries }
{
    for (code, it) in schedules {
        let _ = code.text();
        well_formed_schedule(it);
    }
}

/// The classes and their codes are of their forms.
pub fn well_formed_classes(classes: &BTreeMap<Code, Class>)
    ensures { All (λ e. IsCode e.0 × IsWellFormedClass e.1) classes.now.entries }
{
    for (code, it) in classes {
        let _ = code.text();
        well_formed_class(it);
    }
}

/// The aggregations are of their forms.
pub fn well_formed_aggregations(aggregations: &[Aggregation])
    ensures { All IsWellFormedAggregation aggregations.now }
{
    for it in aggregations {
        well_formed_aggregation(it);
    }
}

/// The records are of their forms, where no content is too long.
pub fn well_formed_records(records: &[Record])
    requires { AreContentsShort records.now }
    ensures { All IsWellFormedRecord records.now }
{
    for head in records {
        well_formed_record(head);
    }
}

/// An event is of its form.
fn well_formed_event(it: &Event)
    ensures { IsWellFormedEvent it.now }
{
    let _ = it.occurred.number();
    let _ = it.day.number();
    let _ = it.by.text();
}

/// The events are of their forms.
pub fn well_formed_events(events: &BTreeMap<RecordNo, Event>)
    ensures { All (λ e. IsWellFormedEvent e.1) events.now.entries }
{
    for (number, it) in events {
        let _ = number;
        well_formed_event(it);
    }
}
