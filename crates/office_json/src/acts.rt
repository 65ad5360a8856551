//! Which act a value of JSON asks for.
ghost use Rattle.std.specs.Prelude.{◌≡◌, IfErr, IfOk, Ok};
ghost use Rattle.serde_json.specs.View.{view};
ghost use Rattle.office_json.specs.Acts.{IsActRead, IsReadFault, parsed_act, plain_parsed};

mod aggregations;
mod holds;
mod new_record;
mod records;
mod runs;
mod schedules;

use crate::ReadFault;
use crate::members::text_at;
use aggregations::{add_aggregation, close_aggregation, reclassify};
use holds::{hold_off, hold_on, lift_hold, place_hold};
use new_record::add_record;
use office_base::Refusal;
use office_rules::Act;
use records::{confirm, event, receipt, review, set_record_schedule};
use runs::{open_run, run_step};
use schedules::{add_class, add_schedule, set_class_schedule};
use serde_json::Value;
use std::alloc::Global;

/// The act that a value asks for: an object with the member `act`, which is the word for one of the
/// eighteen kinds, and exactly the members of that kind, of which those that may be null may be
/// missing.
///
/// It is refused as `BadText` where it is anything else or a text is not of its form, else as
/// `BadNumber` where a number is negative, no whole one or out of its range, or a content has more
/// than 262,144 bytes. Lack of memory is reported only of an act that is not refused, or where a
/// content could not be looked at.
#[tactic(auto, unfolding(crate::specs::Acts::parsed_act))]
pub fn read_act(alloc: Global, value: &Value) -> Result<Act, ReadFault>
    ensures ok { IfOk result (λ act. parsed_act (view value.now) ≡ Ok act) }
    ensures err { IfErr result
        (λ fault. IsReadFault (view value.now) (parsed_act (view value.now)) fault) }
{
    match text_at(value, "act") {
        Some("add-record") => add_record(alloc, value),
        Some(word) => plain_act(alloc, word, value),
        None => Err(ReadFault::Refused(Refusal::BadText)),
    }
}

/// The act of that word, but for a new record.
#[tactic(auto, unfolding(crate::specs::Acts::plain_parsed))]
fn plain_act(alloc: Global, word: &str, value: &Value) -> Result<Act, ReadFault>
    ensures { IsActRead (plain_parsed word.now (view value.now)) result }
{
    match word {
        "add-schedule" => add_schedule(alloc, value),
        "add-class" => add_class(alloc, value),
        "set-class-schedule" => set_class_schedule(alloc, value),
        "add-aggregation" => add_aggregation(alloc, value),
        "close-aggregation" => close_aggregation(value),
        "set-record-schedule" => set_record_schedule(alloc, value),
        "reclassify" => reclassify(alloc, value),
        "place-hold" => place_hold(alloc, value),
        "hold-on" => hold_on(alloc, value),
        "hold-off" => hold_off(alloc, value),
        "lift-hold" => lift_hold(alloc, value),
        "confirm" => confirm(alloc, value),
        "review" => review(alloc, value),
        "receipt" => receipt(alloc, value),
        "event" => event(alloc, value),
        "open-run" => open_run(alloc, value),
        "run-step" => run_step(value),
        _ => Err(ReadFault::Refused(Refusal::BadText)),
    }
}
