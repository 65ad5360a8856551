//! The acts on aggregations, and those that give an own class.
ghost use Rattle.std.specs.Prelude.{◌≡◌, IfOk};
ghost use Rattle.serde_json.specs.View.{view};
ghost use Rattle.office_notes.specs.Acts.{noted};
ghost use Rattle.office_notes.specs.Objects.{IsFlat};
ghost use Rattle.office_rules.specs.Acts.{IsOnAggregations};

use crate::object::object_of;
use crate::part::Part;
use office_days::Day;
use office_records::{AggNo, Classified, Code, Text};
use office_rules::Act;
use serde_json::Value;
use std::alloc::{AllocError, Global};

/// `add-aggregation`: an aggregation is added.
fn add_aggregation<'a>(
    alloc: Global,
    day: Day,
    ref_text: &'a Text,
    title: &'a Text,
    parent: Option<AggNo>,
    class: &'a Option<Code>,
) -> Result<Value, AllocError>
    ensures value { IfOk result
        (λ value. view value
        ≡ noted (Act.AddAggregation day ref_text.now title.now parent class.now)) }
    ensures flat { IfOk result (λ value. IsFlat (view value)) }
{
    object_of(
        alloc,
        &[
            ("act", Part::Word("add-aggregation")),
            ("day", Part::Day(day)),
            ("ref", Part::Text(ref_text)),
            ("title", Part::Text(title)),
            ("parent", Part::NumberOrNull(parent)),
            ("class", Part::CodeOrNull(class)),
        ],
    )
}

/// `close-aggregation`: an aggregation is closed for good.
fn close_aggregation(alloc: Global, day: Day, aggregation: AggNo) -> Result<Value, AllocError>
    ensures value { IfOk result
        (λ value. view value ≡ noted (Act.CloseAggregation day aggregation)) }
    ensures flat { IfOk result (λ value. IsFlat (view value)) }
{
    object_of(
        alloc,
        &[
            ("act", Part::Word("close-aggregation")),
            ("day", Part::Day(day)),
            ("aggregation", Part::Number(aggregation)),
        ],
    )
}

/// `reclassify`: an aggregation or a record gets an own class, or loses it.
fn reclassify(
    alloc: Global,
    day: Day,
    target: Classified,
    class: &Option<Code>,
) -> Result<Value, AllocError>
    ensures value { IfOk result
        (λ value. view value ≡ noted (Act.Reclassify day target class.now)) }
    ensures flat { IfOk result (λ value. IsFlat (view value)) }
{
    object_of(
        alloc,
        &[
            ("act", Part::Word("reclassify")),
            ("day", Part::Day(day)),
            ("target", Part::Classified(target)),
            ("class", Part::CodeOrNull(class)),
        ],
    )
}

/// Makes the object of an act on aggregations, or on an own class.
pub(super) fn value_of(alloc: Global, act: &Act) -> Result<Value, AllocError>
    requires { IsOnAggregations act.now }
    ensures value { IfOk result (λ value. view value ≡ noted act.now) }
    ensures flat { IfOk result (λ value. IsFlat (view value)) }
{
    match act {
        Act::AddAggregation {
            day,
            ref_text,
            title,
            parent,
            class,
        } => add_aggregation(alloc, *day, ref_text, title, *parent, class),
        Act::CloseAggregation { day, aggregation } => close_aggregation(alloc, *day, *aggregation),
        Act::Reclassify { day, target, class } => reclassify(alloc, *day, *target, class),
        _ => unreachable!(),
    }
}
