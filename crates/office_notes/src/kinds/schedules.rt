//! The acts on disposal schedules and classes.
ghost use Rattle.std.specs.Prelude.{◌≡◌, IfOk};
ghost use Rattle.serde_json.specs.View.{view};
ghost use Rattle.office_notes.specs.Acts.{noted};
ghost use Rattle.office_notes.specs.Objects.{IsFlat};
ghost use Rattle.office_rules.specs.Acts.{IsOnSchedules};

use crate::object::object_of;
use crate::part::Part;
use office_days::{Day, Offset, Period};
use office_records::{Action, Code, Text, Trigger};
use office_rules::Act;
use serde_json::Value;
use std::alloc::{AllocError, Global};

/// `add-schedule`: a disposal schedule is added under a new code.
fn add_schedule(
    alloc: Global,
    day: Day,
    code: &Code,
    trigger: Trigger,
    period: Period,
    offset: Offset,
    action: Action,
) -> Result<Value, AllocError>
    ensures value { IfOk result
        (λ value. view value ≡ noted (Act.AddSchedule day code.now trigger period offset action)) }
    ensures flat { IfOk result (λ value. IsFlat (view value)) }
{
    object_of(
        alloc,
        &[
            ("act", Part::Word("add-schedule")),
            ("day", Part::Day(day)),
            ("code", Part::Code(code)),
            ("trigger", Part::Word(trigger.text())),
            ("unit", Part::Word(period.unit().text())),
            ("count", Part::Number(period.count())),
            ("offset", Part::Word(offset.text())),
            ("action", Part::Word(action.text())),
        ],
    )
}

/// `add-class`: a class is added under a new code.
fn add_class<'a>(
    alloc: Global,
    day: Day,
    code: &'a Code,
    title: &'a Text,
    schedule: &'a Code,
) -> Result<Value, AllocError>
    ensures value { IfOk result
        (λ value. view value ≡ noted (Act.AddClass day code.now title.now schedule.now)) }
    ensures flat { IfOk result (λ value. IsFlat (view value)) }
{
    object_of(
        alloc,
        &[
            ("act", Part::Word("add-class")),
            ("day", Part::Day(day)),
            ("code", Part::Code(code)),
            ("title", Part::Text(title)),
            ("schedule", Part::Code(schedule)),
        ],
    )
}

/// `set-class-schedule`: a class gets another schedule.
fn set_class_schedule<'a>(
    alloc: Global,
    day: Day,
    class: &'a Code,
    schedule: &'a Code,
) -> Result<Value, AllocError>
    ensures value { IfOk result
        (λ value. view value ≡ noted (Act.SetClassSchedule day class.now schedule.now)) }
    ensures flat { IfOk result (λ value. IsFlat (view value)) }
{
    object_of(
        alloc,
        &[
            ("act", Part::Word("set-class-schedule")),
            ("day", Part::Day(day)),
            ("class", Part::Code(class)),
            ("schedule", Part::Code(schedule)),
        ],
    )
}

/// Makes the object of an act on schedules and classes.
pub(super) fn value_of(alloc: Global, act: &Act) -> Result<Value, AllocError>
    requires { IsOnSchedules act.now }
    ensures value { IfOk result (λ value. view value ≡ noted act.now) }
    ensures flat { IfOk result (λ value. IsFlat (view value)) }
{
    match act {
        Act::AddSchedule {
            day,
            code,
            trigger,
            period,
            offset,
            action,
        } => add_schedule(alloc, *day, code, *trigger, *period, *offset, *action),
        Act::AddClass {
            day,
            code,
            title,
            schedule,
        } => add_class(alloc, *day, code, title, schedule),
        Act::SetClassSchedule {
            day,
            class,
            schedule,
        } => set_class_schedule(alloc, *day, class, schedule),
        _ => unreachable!(),
    }
}
