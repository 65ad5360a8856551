//! The act that adds a record with its content.
ghost use Rattle.std.specs.Prelude.{◌≡◌, IfOk};
ghost use Rattle.serde_json.specs.View.{view};
ghost use Rattle.office_notes.specs.Acts.{noted};
ghost use Rattle.office_notes.specs.Objects.{IsFlat};
ghost use Rattle.office_rules.specs.Acts.{IsOnNewRecord};

use crate::object::object_of;
use crate::part::Part;
use office_rules::Act;
use serde_json::Value;
use std::alloc::{AllocError, Global};

/// Makes the object of an act that adds a record.
pub(super) fn value_of(alloc: Global, act: &Act) -> Result<Value, AllocError>
    requires { IsOnNewRecord act.now }
    ensures value { IfOk result (λ value. view value ≡ noted act.now) }
    ensures flat { IfOk result (λ value. IsFlat (view value)) }
{
    match act {
        Act::AddRecord {
            day,
            ref_text,
            title,
            originated,
            aggregation,
            class,
            schedule,
            content,
        } => object_of(
            alloc,
            &[
                ("act", Part::Word("add-record")),
                ("day", Part::Day(*day)),
                ("ref", Part::Text(ref_text)),
                ("title", Part::Text(title)),
                ("originated", Part::Day(*originated)),
                ("aggregation", Part::Number(*aggregation)),
                ("class", Part::CodeOrNull(class)),
                ("schedule", Part::CodeOrNull(schedule)),
                ("content", Part::Content(content)),
            ],
        ),
        _ => unreachable!(),
    }
}
