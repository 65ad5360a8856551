//! The acts on records that are there.
ghost use Rattle.std.specs.Prelude.{◌≡◌};
ghost use Rattle.serde_json.specs.View.{view};
ghost use Rattle.office_json.specs.Acts.{IsActRead, confirm_parsed, event_parsed, receipt_parsed, review_parsed, set_record_schedule_parsed};

use crate::ReadFault;
use crate::members::has_only;
use crate::parts::{action_at, day_at, digest_at, number_at, optional_code_at, words_at};
use office_base::Refusal;
use office_days::Day;
use office_records::{RecordNo, Text};
use office_rules::{Act, both};
use serde_json::Value;
use std::alloc::Global;

/// `set-record-schedule`: a record gets an own schedule, or loses it.
#[tactic(auto, unfolding(crate::specs::Acts::set_record_schedule_parsed))]
pub(crate) fn set_record_schedule(alloc: Global, value: &Value) -> Result<Act, ReadFault>
    ensures { IsActRead (set_record_schedule_parsed (view value.now)) result }
{
    if !has_only(value, &["act", "day", "record", "schedule"]) {
        return Err(ReadFault::Refused(Refusal::BadText));
    }
    let what = both(
        number_at(value, "record"),
        optional_code_at(alloc, value, "schedule"),
    );
    match both(day_at(value, "day"), what) {
        Ok((day, (record_no, schedule))) => Ok(Act::SetRecordSchedule {
            day,
            record_no,
            schedule,
        }),
        Err(fault) => Err(fault),
    }
}

/// `confirm`: a due record may be disposed of as its plan says.
#[tactic(auto, unfolding(crate::specs::Acts::confirm_parsed))]
pub(crate) fn confirm(alloc: Global, value: &Value) -> Result<Act, ReadFault>
    ensures { IsActRead (confirm_parsed (view value.now)) result }
{
    if !has_only(value, &["act", "day", "record", "action", "by"]) {
        return Err(ReadFault::Refused(Refusal::BadText));
    }
    let which = both(day_at(value, "day"), number_at(value, "record"));
    let how = both(action_at(value, "action"), words_at(alloc, value, "by"));
    match both(which, how) {
        Ok(((day, record_no), (action, by))) => Ok(Act::Confirm {
            day,
            record_no,
            action,
            by,
        }),
        Err(fault) => Err(fault),
    }
}

/// `review`: a due record was reviewed, and gets an own schedule where one is named.
#[tactic(auto, unfolding(crate::specs::Acts::review_parsed))]
pub(crate) fn review(alloc: Global, value: &Value) -> Result<Act, ReadFault>
    ensures { IsActRead (review_parsed (view value.now)) result }
{
    if !has_only(value, &["act", "day", "record", "schedule", "by"]) {
        return Err(ReadFault::Refused(Refusal::BadText));
    }
    let which = both(day_at(value, "day"), number_at(value, "record"));
    let how = both(
        optional_code_at(alloc, value, "schedule"),
        words_at(alloc, value, "by"),
    );
    match both(which, how) {
        Ok(((day, record_no), (schedule, by))) => Ok(Act::Review {
            day,
            record_no,
            schedule,
            by,
        }),
        Err(fault) => Err(fault),
    }
}

/// The receipt of these.
fn receipt_of(which: (Day, RecordNo), how: ([u8; 32], Text)) -> Act
    ensures { result ≡ Act.Receipt which.0 which.1 how.0 how.1 }
{
    let (day, record_no) = which;
    let (digest, by) = how;
    Act::Receipt {
        day,
        record_no,
        digest,
        by,
    }
}

/// `receipt`: the receiver of a record that was sent has it, with the digest that it names.
#[tactic(auto, unfolding(crate::specs::Acts::receipt_parsed))]
pub(crate) fn receipt(alloc: Global, value: &Value) -> Result<Act, ReadFault>
    ensures { IsActRead (receipt_parsed (view value.now)) result }
{
    if !has_only(value, &["act", "day", "record", "digest", "by"]) {
        return Err(ReadFault::Refused(Refusal::BadText));
    }
    let which = both(day_at(value, "day"), number_at(value, "record"));
    let how = both(digest_at(value, "digest"), words_at(alloc, value, "by"));
    match both(which, how) {
        Ok((which, how)) => Ok(receipt_of(which, how)),
        Err(fault) => Err(fault),
    }
}

/// The event of these.
fn event_of(which: (Day, RecordNo), how: (Day, Text)) -> Act
    ensures { result ≡ Act.Event which.0 which.1 how.0 how.1 }
{
    let (day, record_no) = which;
    let (occurred, by) = how;
    Act::Event {
        day,
        record_no,
        occurred,
        by,
    }
}

/// `event`: an event of a record is recorded, with the day on which it occurred.
#[tactic(auto, unfolding(crate::specs::Acts::event_parsed))]
pub(crate) fn event(alloc: Global, value: &Value) -> Result<Act, ReadFault>
    ensures { IsActRead (event_parsed (view value.now)) result }
{
    if !has_only(value, &["act", "day", "record", "occurred", "by"]) {
        return Err(ReadFault::Refused(Refusal::BadText));
    }
    let which = both(day_at(value, "day"), number_at(value, "record"));
    let how = both(day_at(value, "occurred"), words_at(alloc, value, "by"));
    match both(which, how) {
        Ok((which, how)) => Ok(event_of(which, how)),
        Err(fault) => Err(fault),
    }
}
