//! The list of what is due on a day.
ghost use Rattle.std.specs.Prelude.{◌≡◌, false, IfOk, List, OnOk, map};
ghost use Rattle.serde_json.specs.View.{members_view, view};
ghost use Rattle.serde_json.specs.Written.{has_float};
ghost use Rattle.office_rules.specs.Registers.{DueRowView, due_reported};
ghost use Rattle.office_json.specs.DueJson.{due_data, due_row_data, put_plan, put_rest};

use crate::member_value::{MemberValue, put_all, reported_code};
use office_base::Memory;
use office_rules::DueRow;
use serde_json::{Map, Value};
use std::alloc::{AllocError, Global};

/// Puts the members from `action` to `due`.
#[tactic(auto, unfolding(crate::specs::DueJson::put_plan))]
fn put_plan(
    map: &mut Map<String, Value>,
    alloc: Global,
    reported: &DueRow<'_>,
) -> Result<(), AllocError>
    ensures { OnOk result
        (members_view map.new.entries
        ≡ put_plan (due_reported reported.now) (members_view map.old.entries)) }
{
    put_all(
        map,
        alloc,
        &[
            ("action", MemberValue::Text(reported.action.text())),
            ("class", MemberValue::Text(reported.class.text())),
            ("confirmed", MemberValue::Flag(reported.counts)),
            ("due", MemberValue::Due(reported.due)),
        ],
    )
}

/// Puts the members from `held` on.
#[tactic(auto, unfolding(crate::specs::DueJson::put_rest))]
pub(crate) fn put_rest(
    map: &mut Map<String, Value>,
    alloc: Global,
    reported: &DueRow<'_>,
) -> Result<(), AllocError>
    ensures { OnOk result
        (members_view map.new.entries
        ≡ put_rest (due_reported reported.now) (members_view map.old.entries)) }
{
    put_all(
        map,
        alloc,
        &[
            ("held", reported_code(reported.held)),
            ("record", MemberValue::Number(u64::from(reported.number))),
            ("ref", MemberValue::Text(reported.ref_text.text())),
            ("schedule", MemberValue::Text(reported.schedule.text())),
        ],
    )
}

/// A record that is due, in JSON. `Memory` comes where an allocation was refused.
pub fn due_row_value(alloc: Global, reported: &DueRow<'_>) -> Result<Value, Memory>
    ensures value { IfOk result (λ value. view value ≡ due_row_data (due_reported reported.now)) }
    ensures no_float { IfOk result (λ value. has_float (view value) ≡ false) }
{
    let mut map = Map::new(alloc);
    put_plan(&mut map, alloc, reported)?;
    put_rest(&mut map, alloc, reported)?;
    Ok(Value::Object(map))
}

/// The array of rows that were reported in JSON.
#[tactic(auto, using(crate::proofs::Floatless::due_has_none))]
pub fn due_value(rows: Vec<Value>) -> Value
    ensures value { (reported : List DueRowView) → map view rows.items ≡ map due_row_data reported
        → view result ≡ due_data reported }
    ensures no_float { (reported : List DueRowView)
        → map view rows.items ≡ map due_row_data reported → has_float (view result) ≡ false }
{
    Value::Array(rows)
}
