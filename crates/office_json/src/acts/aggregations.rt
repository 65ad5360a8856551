//! The acts on aggregations, and those that give an own class.
ghost use Rattle.serde_json.specs.View.{view};
ghost use Rattle.office_json.specs.Acts.{IsActRead, add_aggregation_parsed, close_aggregation_parsed, reclassify_parsed};

use crate::ReadFault;
use crate::members::has_only;
use crate::parts::{code_at, day_at, number_at, optional_code_at, optional_number_at, words_at};
use crate::targets::classified_at;
use office_base::Refusal;
use office_rules::{Act, both};
use serde_json::Value;
use std::alloc::Global;

/// `add-aggregation`: an aggregation is added.
#[tactic(auto, unfolding(crate::specs::Acts::add_aggregation_parsed))]
pub(crate) fn add_aggregation(alloc: Global, value: &Value) -> Result<Act, ReadFault>
    ensures { IsActRead (add_aggregation_parsed (view value.now)) result }
{
    if !has_only(value, &["act", "day", "ref", "title", "parent", "class"]) {
        return Err(ReadFault::Refused(Refusal::BadText));
    }
    let named = both(
        words_at(alloc, value, "ref"),
        words_at(alloc, value, "title"),
    );
    let placed = both(
        optional_number_at(value, "parent"),
        optional_code_at(alloc, value, "class"),
    );
    match both(day_at(value, "day"), both(named, placed)) {
        Ok((day, ((ref_text, title), (parent, class)))) => Ok(Act::AddAggregation {
            day,
            ref_text,
            title,
            parent,
            class,
        }),
        Err(fault) => Err(fault),
    }
}

/// `close-aggregation`: an aggregation is closed for good.
#[tactic(auto, unfolding(crate::specs::Acts::close_aggregation_parsed))]
pub(crate) fn close_aggregation(value: &Value) -> Result<Act, ReadFault>
    ensures { IsActRead (close_aggregation_parsed (view value.now)) result }
{
    if !has_only(value, &["act", "day", "aggregation"]) {
        return Err(ReadFault::Refused(Refusal::BadText));
    }
    match both(day_at(value, "day"), number_at(value, "aggregation")) {
        Ok((day, aggregation)) => Ok(Act::CloseAggregation { day, aggregation }),
        Err(fault) => Err(fault),
    }
}

/// `reclassify`: an aggregation or a record gets an own class, or loses it.
#[tactic(auto, unfolding(crate::specs::Acts::reclassify_parsed))]
pub(crate) fn reclassify(alloc: Global, value: &Value) -> Result<Act, ReadFault>
    ensures { IsActRead (reclassify_parsed (view value.now)) result }
{
    if !has_only(value, &["act", "day", "target", "class"]) {
        return Err(ReadFault::Refused(Refusal::BadText));
    }
    let what = both(
        classified_at(value, "target"),
        optional_code_at(alloc, value, "class"),
    );
    match both(day_at(value, "day"), what) {
        Ok((day, (target, class))) => Ok(Act::Reclassify { day, target, class }),
        Err(fault) => Err(fault),
    }
}
