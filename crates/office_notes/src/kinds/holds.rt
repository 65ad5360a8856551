//! The acts on holds.
ghost use Rattle.std.specs.Prelude.{◌≡◌, IfOk};
ghost use Rattle.serde_json.specs.View.{view};
ghost use Rattle.office_notes.specs.Acts.{noted};
ghost use Rattle.office_notes.specs.Objects.{IsFlat};
ghost use Rattle.office_rules.specs.Acts.{IsOnHolds};

use crate::object::object_of;
use crate::part::Part;
use office_days::Day;
use office_records::{Code, Target, Text};
use office_rules::Act;
use serde_json::Value;
use std::alloc::{AllocError, Global};

/// `place-hold`: a hold is placed under a new code.
fn place_hold<'a>(
    alloc: Global,
    day: Day,
    code: &'a Code,
    reason: &'a Text,
    by: &'a Text,
) -> Result<Value, AllocError>
    ensures value { IfOk result
        (λ value. view value ≡ noted (Act.PlaceHold day code.now reason.now by.now)) }
    ensures flat { IfOk result (λ value. IsFlat (view value)) }
{
    object_of(
        alloc,
        &[
            ("act", Part::Word("place-hold")),
            ("day", Part::Day(day)),
            ("code", Part::Code(code)),
            ("reason", Part::Text(reason)),
            ("by", Part::Text(by)),
        ],
    )
}

/// `hold-on`: a target is put on a hold.
fn hold_on<'a>(
    alloc: Global,
    day: Day,
    hold: &'a Code,
    target: &'a Target,
) -> Result<Value, AllocError>
    ensures value { IfOk result (λ value. view value ≡ noted (Act.HoldOn day hold.now target.now)) }
    ensures flat { IfOk result (λ value. IsFlat (view value)) }
{
    object_of(
        alloc,
        &[
            ("act", Part::Word("hold-on")),
            ("day", Part::Day(day)),
            ("hold", Part::Code(hold)),
            ("target", Part::Target(target)),
        ],
    )
}

/// `hold-off`: a target is taken off a hold.
fn hold_off<'a>(
    alloc: Global,
    day: Day,
    hold: &'a Code,
    target: &'a Target,
) -> Result<Value, AllocError>
    ensures value { IfOk result
        (λ value. view value ≡ noted (Act.HoldOff day hold.now target.now)) }
    ensures flat { IfOk result (λ value. IsFlat (view value)) }
{
    object_of(
        alloc,
        &[
            ("act", Part::Word("hold-off")),
            ("day", Part::Day(day)),
            ("hold", Part::Code(hold)),
            ("target", Part::Target(target)),
        ],
    )
}

/// `lift-hold`: a hold is lifted for good.
fn lift_hold(alloc: Global, day: Day, hold: &Code) -> Result<Value, AllocError>
    ensures value { IfOk result (λ value. view value ≡ noted (Act.LiftHold day hold.now)) }
    ensures flat { IfOk result (λ value. IsFlat (view value)) }
{
    object_of(
        alloc,
        &[
            ("act", Part::Word("lift-hold")),
            ("day", Part::Day(day)),
            ("hold", Part::Code(hold)),
        ],
    )
}

/// Makes the object of an act on holds.
pub(super) fn value_of(alloc: Global, act: &Act) -> Result<Value, AllocError>
    requires { IsOnHolds act.now }
    ensures value { IfOk result (λ value. view value ≡ noted act.now) }
    ensures flat { IfOk result (λ value. IsFlat (view value)) }
{
    match act {
        Act::PlaceHold {
            day,
            code,
            reason,
            by,
        } => place_hold(alloc, *day, code, reason, by),
        Act::HoldOn { day, hold, target } => hold_on(alloc, *day, hold, target),
        Act::HoldOff { day, hold, target } => hold_off(alloc, *day, hold, target),
        Act::LiftHold { day, hold } => lift_hold(alloc, *day, hold),
        _ => unreachable!(),
    }
}
