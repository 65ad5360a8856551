//! The list of what is overdue on a day.
ghost use Rattle.std.specs.Prelude.{◌≡◌, ℕ, false, IfOk, List, OnOk, map};
ghost use Rattle.serde_json.specs.View.{members_view, view};
ghost use Rattle.serde_json.specs.Written.{has_float};
ghost use Rattle.office_rules.specs.Registers.{DueRowView, due_reported};
ghost use Rattle.office_json.specs.OverdueJson.{overdue_data, overdue_row_data, put_overdue};

use crate::due_json::put_rest;
use crate::member_value::{MemberValue, put_all};
use office_base::Memory;
use office_days::{ConfirmDays, deadline};
use office_rules::DueRow;
use serde_json::{Map, Value};
use std::alloc::{AllocError, Global};

/// Puts the members from `action` to `due`.
#[tactic(auto, unfolding(crate::specs::OverdueJson::put_overdue))]
fn put_overdue(
    map: &mut Map<String, Value>,
    alloc: Global,
    row: &DueRow<'_>,
    days: ConfirmDays,
) -> Result<(), AllocError>
    ensures { OnOk result
        (members_view map.new.entries
        ≡ put_overdue days (due_reported row.now) (members_view map.old.entries)) }
{
    put_all(
        map,
        alloc,
        &[
            ("action", MemberValue::Text(row.action.text())),
            ("class", MemberValue::Text(row.class.text())),
            ("deadline", MemberValue::Deadline(deadline(row.due, days))),
            ("due", MemberValue::Due(row.due)),
        ],
    )
}

/// A record that is overdue, so many days after its due day, in JSON. `Memory` comes where an
/// allocation was refused.
pub fn overdue_row_value(
    alloc: Global,
    row: &DueRow<'_>,
    days: ConfirmDays,
) -> Result<Value, Memory>
    ensures value { IfOk result
        (λ value. view value ≡ overdue_row_data days (due_reported row.now)) }
    ensures no_float { IfOk result (λ value. has_float (view value) ≡ false) }
{
    let mut map = Map::new(alloc);
    put_overdue(&mut map, alloc, row, days)?;
    put_rest(&mut map, alloc, row)?;
    Ok(Value::Object(map))
}

/// The array of rows in JSON, all for as many days.
#[tactic(auto, using(crate::proofs::Floatless::overdue_has_none))]
pub fn overdue_value(rows: Vec<Value>) -> Value
    ensures value { (n : ℕ) (given : List DueRowView)
        → map view rows.items ≡ map (overdue_row_data n) given
        → view result ≡ overdue_data n given }
    ensures no_float { (n : ℕ) (given : List DueRowView)
        → map view rows.items ≡ map (overdue_row_data n) given → has_float (view result) ≡ false }
{
    Value::Array(rows)
}
