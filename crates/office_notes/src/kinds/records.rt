//! The acts on records that are there.
ghost use Rattle.std.specs.Prelude.{◌≡◌, IfOk};
ghost use Rattle.serde_json.specs.View.{view};
ghost use Rattle.office_notes.specs.Acts.{noted};
ghost use Rattle.office_notes.specs.Objects.{IsFlat};
ghost use Rattle.office_rules.specs.Acts.{IsOnRecords};

use crate::object::object_of;
use crate::part::Part;
use office_days::Day;
use office_records::{Action, Code, RecordNo, Text};
use office_rules::Act;
use serde_json::Value;
use std::alloc::{AllocError, Global};

/// `set-record-schedule`: a record gets an own schedule, or loses it.
fn set_record_schedule(
    alloc: Global,
    day: Day,
    record_no: RecordNo,
    schedule: &Option<Code>,
) -> Result<Value, AllocError>
    ensures value { IfOk result
        (λ value. view value ≡ noted (Act.SetRecordSchedule day record_no schedule.now)) }
    ensures flat { IfOk result (λ value. IsFlat (view value)) }
{
    object_of(
        alloc,
        &[
            ("act", Part::Word("set-record-schedule")),
            ("day", Part::Day(day)),
            ("record", Part::Number(record_no)),
            ("schedule", Part::CodeOrNull(schedule)),
        ],
    )
}

/// `confirm`: a due record may be disposed of as its plan says.
fn confirm(
    alloc: Global,
    day: Day,
    record_no: RecordNo,
    action: Action,
    by: &Text,
) -> Result<Value, AllocError>
    ensures value { IfOk result
        (λ value. view value ≡ noted (Act.Confirm day record_no action by.now)) }
    ensures flat { IfOk result (λ value. IsFlat (view value)) }
{
    object_of(
        alloc,
        &[
            ("act", Part::Word("confirm")),
            ("day", Part::Day(day)),
            ("record", Part::Number(record_no)),
            ("action", Part::Word(action.text())),
            ("by", Part::Text(by)),
        ],
    )
}

/// `review`: a due record was reviewed, and gets an own schedule if one is named.
fn review<'a>(
    alloc: Global,
    day: Day,
    record_no: RecordNo,
    schedule: &'a Option<Code>,
    by: &'a Text,
) -> Result<Value, AllocError>
    ensures value { IfOk result
        (λ value. view value ≡ noted (Act.Review day record_no schedule.now by.now)) }
    ensures flat { IfOk result (λ value. IsFlat (view value)) }
{
    object_of(
        alloc,
        &[
            ("act", Part::Word("review")),
            ("day", Part::Day(day)),
            ("record", Part::Number(record_no)),
            ("schedule", Part::CodeOrNull(schedule)),
            ("by", Part::Text(by)),
        ],
    )
}

/// `receipt`: the receiver of a record that was sent has it, with the digest that it names.
fn receipt<'a>(
    alloc: Global,
    day: Day,
    record_no: RecordNo,
    digest: &'a [u8; 32],
    by: &'a Text,
) -> Result<Value, AllocError>
    ensures value { IfOk result
        (λ value. view value ≡ noted (Act.Receipt day record_no digest.now by.now)) }
    ensures flat { IfOk result (λ value. IsFlat (view value)) }
{
    object_of(
        alloc,
        &[
            ("act", Part::Word("receipt")),
            ("day", Part::Day(day)),
            ("record", Part::Number(record_no)),
            ("digest", Part::Digest(digest)),
            ("by", Part::Text(by)),
        ],
    )
}

/// `event`: an event of a record is recorded, with the day on which it occurred.
fn event(
    alloc: Global,
    day: Day,
    record_no: RecordNo,
    occurred: Day,
    by: &Text,
) -> Result<Value, AllocError>
    ensures value { IfOk result
        (λ value. view value ≡ noted (Act.Event day record_no occurred by.now)) }
    ensures flat { IfOk result (λ value. IsFlat (view value)) }
{
    object_of(
        alloc,
        &[
            ("act", Part::Word("event")),
            ("day", Part::Day(day)),
            ("record", Part::Number(record_no)),
            ("occurred", Part::Day(occurred)),
            ("by", Part::Text(by)),
        ],
    )
}

/// Makes the object of an act on a record.
pub(super) fn value_of(alloc: Global, act: &Act) -> Result<Value, AllocError>
    requires { IsOnRecords act.now }
    ensures value { IfOk result (λ value. view value ≡ noted act.now) }
    ensures flat { IfOk result (λ value. IsFlat (view value)) }
{
    match act {
        Act::SetRecordSchedule {
            day,
            record_no,
            schedule,
        } => set_record_schedule(alloc, *day, *record_no, schedule),
        Act::Confirm {
            day,
            record_no,
            action,
            by,
        } => confirm(alloc, *day, *record_no, *action, by),
        Act::Review {
            day,
            record_no,
            schedule,
            by,
        } => review(alloc, *day, *record_no, schedule, by),
        Act::Receipt {
            day,
            record_no,
            digest,
            by,
        } => receipt(alloc, *day, *record_no, digest, by),
        Act::Event {
            day,
            record_no,
            occurred,
            by,
        } => event(alloc, *day, *record_no, *occurred, by),
        _ => unreachable!(),
    }
}
