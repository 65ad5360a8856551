//! The acts on disposal runs.
ghost use Rattle.serde_json.specs.View.{view};
ghost use Rattle.office_json.specs.Acts.{IsActRead, open_run_parsed, run_step_parsed};

use crate::ReadFault;
use crate::members::has_only;
use crate::parts::{day_at, words_at};
use office_base::Refusal;
use office_rules::{Act, both};
use serde_json::Value;
use std::alloc::Global;

/// `open-run`: a disposal run is opened.
#[tactic(auto, unfolding(crate::specs::Acts::open_run_parsed))]
pub(crate) fn open_run(alloc: Global, value: &Value) -> Result<Act, ReadFault>
    ensures { IsActRead (open_run_parsed (view value.now)) result }
{
    if !has_only(value, &["act", "day", "by"]) {
        return Err(ReadFault::Refused(Refusal::BadText));
    }
    match both(day_at(value, "day"), words_at(alloc, value, "by")) {
        Ok((day, by)) => Ok(Act::OpenRun { day, by }),
        Err(fault) => Err(fault),
    }
}

/// `run-step`: the open run takes its next record, or closes. It has no day.
#[tactic(auto, unfolding(crate::specs::Acts::run_step_parsed))]
pub(crate) fn run_step(value: &Value) -> Result<Act, ReadFault>
    ensures { IsActRead (run_step_parsed (view value.now)) result }
{
    if has_only(value, &["act"]) {
        Ok(Act::RunStep)
    } else {
        Err(ReadFault::Refused(Refusal::BadText))
    }
}
