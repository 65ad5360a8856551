//! Texts and days as values of JSON.
ghost use Rattle.std.specs.Prelude.{◌≡◌, IfOk};
ghost use Rattle.std.specs.Str.{IsUtf8};
ghost use Rattle.serde_json.specs.Data.{string};
ghost use Rattle.serde_json.specs.View.{view};
ghost use Rattle.office_json.specs.RecordJson.{day_data};

use office_days::{Day, Deadline, DueDay};
use serde_json::Value;
use std::alloc::{AllocError, Global};

/// The text of these bytes.
pub(crate) fn text_value(alloc: Global, bytes: &[u8]) -> Result<Value, AllocError>
    requires { IsUtf8 bytes.now }
    ensures { IfOk result (λ value. view value ≡ string bytes.now) }
{
    match std::str::from_utf8(bytes) {
        Ok(text) => Value::try_from_str(alloc, text),
        Err(_) => unreachable!(),
    }
}

/// A day, as `2024-02-29`.
#[tactic(auto, using(office_rules::proofs::DateBytes::date_is_text))]
pub(crate) fn day_value(alloc: Global, day: Day) -> Result<Value, AllocError>
    ensures { IfOk result (λ value. view value ≡ day_data day) }
{
    text_value(alloc, &day.text())
}

/// A due day, as `2024-02-29`.
#[tactic(auto, using(office_rules::proofs::DateBytes::date_is_text))]
pub(crate) fn due_day_value(alloc: Global, due: DueDay) -> Result<Value, AllocError>
    ensures { IfOk result (λ value. view value ≡ day_data due) }
{
    text_value(alloc, &due.text())
}

/// A deadline, as `2024-02-29`.
#[tactic(auto, using(office_rules::proofs::DateBytes::date_is_text))]
pub(crate) fn deadline_value(alloc: Global, deadline: Deadline) -> Result<Value, AllocError>
    ensures { IfOk result (λ value. view value ≡ day_data deadline) }
{
    text_value(alloc, &deadline.text())
}
