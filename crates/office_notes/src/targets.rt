//! Targets as texts: `class:CODE`, `aggregation:N` and `record:N`.
ghost use Rattle.std.specs.Prelude.{◌≡◌, IfOk};
ghost use Rattle.serde_json.specs.Data.{string};
ghost use Rattle.serde_json.specs.View.{view};
ghost use Rattle.office_notes.specs.Acts.{classified_text, target_text};

use office_records::{Classified, Target};
use serde_json::Value;
use std::alloc::{AllocError, Global};

/// Writes what has a class.
pub(crate) fn classified_value(alloc: Global, what: Classified) -> Result<Value, AllocError>
    ensures { IfOk result (λ value. view value ≡ string (classified_text what)) }
{
    let text = match what {
        Classified::Aggregation(number) => format!(in alloc; "aggregation:{number}"),
        Classified::Record(number) => format!(in alloc; "record:{number}"),
    }?;
    Ok(Value::String(text))
}

/// Writes a target.
pub(crate) fn target_value(alloc: Global, what: &Target) -> Result<Value, AllocError>
    ensures { IfOk result (λ value. view value ≡ string (target_text what.now)) }
{
    let text = match what {
        Target::Class(code) => format!(in alloc; "class:{}", code.text()),
        Target::Aggregation(number) => format!(in alloc; "aggregation:{number}"),
        Target::Record(number) => format!(in alloc; "record:{number}"),
    }?;
    Ok(Value::String(text))
}
