//! The acts on disposal runs.
ghost use Rattle.std.specs.Prelude.{◌≡◌, IfOk};
ghost use Rattle.serde_json.specs.View.{view};
ghost use Rattle.office_notes.specs.Acts.{noted};
ghost use Rattle.office_notes.specs.Objects.{IsFlat};
ghost use Rattle.office_rules.specs.Acts.{IsOnRuns};

use crate::object::object_of;
use crate::part::Part;
use office_rules::Act;
use serde_json::Value;
use std::alloc::{AllocError, Global};

/// Makes the object of an act on runs.
pub(super) fn value_of(alloc: Global, act: &Act) -> Result<Value, AllocError>
    requires { IsOnRuns act.now }
    ensures value { IfOk result (λ value. view value ≡ noted act.now) }
    ensures flat { IfOk result (λ value. IsFlat (view value)) }
{
    match act {
        Act::OpenRun { day, by } => object_of(
            alloc,
            &[
                ("act", Part::Word("open-run")),
                ("day", Part::Day(*day)),
                ("by", Part::Text(by)),
            ],
        ),
        Act::RunStep => object_of(alloc, &[("act", Part::Word("run-step"))]),
        _ => unreachable!(),
    }
}
