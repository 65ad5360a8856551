//! The text of acts.
ghost use Rattle.std.specs.Prelude.{◌≡◌, ◌≤◌, false, IfOk, Some, string_bytes};
ghost use Rattle.serde_json.specs.Data.{depth};
ghost use Rattle.serde_json.specs.Read.{read};
ghost use Rattle.serde_json.specs.View.{view};
ghost use Rattle.serde_json.specs.Written.{compact_text, has_float};
ghost use Rattle.office_notes.specs.Acts.{notes};

use crate::kinds::act_value;
use office_base::Memory;
use office_rules::Act;
use serde_json::Value;
use std::alloc::Global;

/// Makes the array of acts, in their order.
fn acts_value(alloc: Global, acts: &[Act]) -> Result<Value, Memory>
    ensures value { IfOk result (λ value. view value ≡ notes acts.now) }
    ensures no_float { IfOk result (λ value. has_float (view value) ≡ false) }
    ensures shallow { IfOk result (λ value. depth (view value) ≤ 3) }
{
    let mut values = Vec::new(alloc);
    for act in acts {
        values.push(act_value(alloc, act)?)?;
    }
    Ok(Value::Array(values))
}

/// Writes acts as a line of the journal has them: an array without white space, and the members of
/// each act in the order of their names. `Memory` comes if an allocation was refused.
pub fn acts_text(alloc: Global, acts: &[Act]) -> Result<String, Memory>
    ensures text { IfOk result (λ text. string_bytes text ≡ compact_text (notes acts.now)) }
    ensures read { IfOk result (λ text. read (string_bytes text) ≡ Some (notes acts.now)) }
{
    let value = acts_value(alloc, acts)?;
    let text = value.to_string(alloc)?;
    Ok(text)
}
