//! The acts on holds.
ghost use Rattle.serde_json.specs.View.{view};
ghost use Rattle.office_json.specs.Acts.{IsActRead, hold_off_parsed, hold_on_parsed, hold_target_part, lift_hold_parsed, place_hold_parsed};
ghost use Rattle.office_rules.specs.Parts.{IsReadAs};

use crate::ReadFault;
use crate::members::has_only;
use crate::parts::{code_at, day_at, words_at};
use crate::targets::target_at;
use office_base::Refusal;
use office_days::Day;
use office_records::{Code, Target};
use office_rules::{Act, both};
use serde_json::Value;
use std::alloc::Global;

/// `place-hold`: a hold is placed under a new code.
#[tactic(auto, unfolding(crate::specs::Acts::place_hold_parsed))]
pub(crate) fn place_hold(alloc: Global, value: &Value) -> Result<Act, ReadFault>
    ensures { IsActRead (place_hold_parsed (view value.now)) result }
{
    if !has_only(value, &["act", "day", "code", "reason", "by"]) {
        return Err(ReadFault::Refused(Refusal::BadText));
    }
    let named = both(day_at(value, "day"), code_at(alloc, value, "code"));
    let reported = both(
        words_at(alloc, value, "reason"),
        words_at(alloc, value, "by"),
    );
    match both(named, reported) {
        Ok(((day, code), (reason, by))) => Ok(Act::PlaceHold {
            day,
            code,
            reason,
            by,
        }),
        Err(fault) => Err(fault),
    }
}

/// What puts a target on a hold, or takes it off.
#[tactic(auto, unfolding(crate::specs::Acts::hold_target_part))]
fn hold_target(alloc: Global, value: &Value) -> Result<(Day, (Code, Target)), ReadFault>
    ensures { IsReadAs (hold_target_part (view value.now)) result }
{
    if !has_only(value, &["act", "day", "hold", "target"]) {
        return Err(ReadFault::Refused(Refusal::BadText));
    }
    let what = both(
        code_at(alloc, value, "hold"),
        target_at(alloc, value, "target"),
    );
    both(day_at(value, "day"), what)
}

/// `hold-on`: a target is put on a hold.
#[tactic(auto, using(office_rules::proofs::Made::fault_made), unfolding(crate::specs::Acts::hold_on_parsed))]
pub(crate) fn hold_on(alloc: Global, value: &Value) -> Result<Act, ReadFault>
    ensures { IsActRead (hold_on_parsed (view value.now)) result }
{
    match hold_target(alloc, value) {
        Ok((day, (hold, target))) => Ok(Act::HoldOn { day, hold, target }),
        Err(fault) => Err(fault),
    }
}

/// `hold-off`: a target is taken off a hold.
#[tactic(auto, using(office_rules::proofs::Made::fault_made), unfolding(crate::specs::Acts::hold_off_parsed))]
pub(crate) fn hold_off(alloc: Global, value: &Value) -> Result<Act, ReadFault>
    ensures { IsActRead (hold_off_parsed (view value.now)) result }
{
    match hold_target(alloc, value) {
        Ok((day, (hold, target))) => Ok(Act::HoldOff { day, hold, target }),
        Err(fault) => Err(fault),
    }
}

/// `lift-hold`: a hold is lifted for good.
#[tactic(auto, unfolding(crate::specs::Acts::lift_hold_parsed))]
pub(crate) fn lift_hold(alloc: Global, value: &Value) -> Result<Act, ReadFault>
    ensures { IsActRead (lift_hold_parsed (view value.now)) result }
{
    if !has_only(value, &["act", "day", "hold"]) {
        return Err(ReadFault::Refused(Refusal::BadText));
    }
    match both(day_at(value, "day"), code_at(alloc, value, "hold")) {
        Ok((day, code)) => Ok(Act::LiftHold { day, hold: code }),
        Err(fault) => Err(fault),
    }
}
