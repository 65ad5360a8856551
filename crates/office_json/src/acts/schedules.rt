//! The acts on disposal schedules and classes.
ghost use Rattle.serde_json.specs.View.{view};
ghost use Rattle.office_json.specs.Acts.{IsActRead, add_class_parsed, add_schedule_parsed, set_class_schedule_parsed};

use crate::ReadFault;
use crate::members::has_only;
use crate::parts::{action_at, code_at, day_at, offset_at, period_at, trigger_at, words_at};
use office_base::Refusal;
use office_rules::{Act, both};
use serde_json::Value;
use std::alloc::Global;

/// `add-schedule`: a disposal schedule is added under a new code.
#[tactic(auto, unfolding(crate::specs::Acts::add_schedule_parsed))]
pub(crate) fn add_schedule(alloc: Global, value: &Value) -> Result<Act, ReadFault>
    ensures { IsActRead (add_schedule_parsed (view value.now)) result }
{
    if !has_only(
        value,
        &[
            "act", "day", "code", "trigger", "unit", "count", "offset", "action",
        ],
    ) {
        return Err(ReadFault::Refused(Refusal::BadText));
    }
    let named = both(day_at(value, "day"), code_at(alloc, value, "code"));
    let kept = both(trigger_at(value, "trigger"), period_at(value));
    let disposed = both(offset_at(value, "offset"), action_at(value, "action"));
    match both(named, both(kept, disposed)) {
        Ok(((day, code), ((trigger, period), (offset, action)))) => Ok(Act::AddSchedule {
            day,
            code,
            trigger,
            period,
            offset,
            action,
        }),
        Err(fault) => Err(fault),
    }
}

/// `add-class`: a class is added under a new code.
#[tactic(auto, unfolding(crate::specs::Acts::add_class_parsed))]
pub(crate) fn add_class(alloc: Global, value: &Value) -> Result<Act, ReadFault>
    ensures { IsActRead (add_class_parsed (view value.now)) result }
{
    if !has_only(value, &["act", "day", "code", "title", "schedule"]) {
        return Err(ReadFault::Refused(Refusal::BadText));
    }
    let named = both(day_at(value, "day"), code_at(alloc, value, "code"));
    let reported = both(
        words_at(alloc, value, "title"),
        code_at(alloc, value, "schedule"),
    );
    match both(named, reported) {
        Ok(((day, code), (title, schedule))) => Ok(Act::AddClass {
            day,
            code,
            title,
            schedule,
        }),
        Err(fault) => Err(fault),
    }
}

/// `set-class-schedule`: a class gets another schedule.
#[tactic(auto, unfolding(crate::specs::Acts::set_class_schedule_parsed))]
pub(crate) fn set_class_schedule(alloc: Global, value: &Value) -> Result<Act, ReadFault>
    ensures { IsActRead (set_class_schedule_parsed (view value.now)) result }
{
    if !has_only(value, &["act", "day", "class", "schedule"]) {
        return Err(ReadFault::Refused(Refusal::BadText));
    }
    let codes = both(
        code_at(alloc, value, "class"),
        code_at(alloc, value, "schedule"),
    );
    match both(day_at(value, "day"), codes) {
        Ok((day, (class, schedule))) => Ok(Act::SetClassSchedule {
            day,
            class,
            schedule,
        }),
        Err(fault) => Err(fault),
    }
}
