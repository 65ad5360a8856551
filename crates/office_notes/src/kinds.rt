//! An act as a value of JSON.
ghost use Rattle.std.specs.Prelude.{◌≡◌, IfOk};
ghost use Rattle.serde_json.specs.View.{view};
ghost use Rattle.office_notes.specs.Acts.{noted};
ghost use Rattle.office_notes.specs.Objects.{IsFlat};

mod aggregations;
mod holds;
mod new_record;
mod records;
mod runs;
mod schedules;

use office_rules::Act;
use serde_json::Value;
use std::alloc::{AllocError, Global};

/// Makes the object of an act, with the length and the SHA-256 of its content, if it has one.
pub(crate) fn act_value(alloc: Global, act: &Act) -> Result<Value, AllocError>
    ensures value { IfOk result (λ value. view value ≡ noted act.now) }
    ensures flat { IfOk result (λ value. IsFlat (view value)) }
{
    match act {
        Act::AddSchedule { .. } | Act::AddClass { .. } | Act::SetClassSchedule { .. } => {
            schedules::value_of(alloc, act)
        }
        Act::AddAggregation { .. } | Act::CloseAggregation { .. } | Act::Reclassify { .. } => {
            aggregations::value_of(alloc, act)
        }
        Act::AddRecord { .. } => new_record::value_of(alloc, act),
        Act::SetRecordSchedule { .. }
        | Act::Confirm { .. }
        | Act::Review { .. }
        | Act::Receipt { .. }
        | Act::Event { .. } => records::value_of(alloc, act),
        Act::PlaceHold { .. } | Act::HoldOn { .. } | Act::HoldOff { .. } | Act::LiftHold { .. } =>
            holds::value_of(alloc, act),
        Act::OpenRun { .. } | Act::RunStep => runs::value_of(alloc, act),
    }
}
