//! Objects whose members are parts of an act.
ghost use Rattle.std.specs.Prelude.{◌≡◌, IfOk, OnOk};
ghost use Rattle.serde_json.specs.Data.{put as with_member};
ghost use Rattle.serde_json.specs.View.{members_view, view};
ghost use Rattle.office_notes.specs.Objects.{IsFlat, object_with, with_members};
ghost use Rattle.office_notes.specs.Parts.{members_data, part_data};

use crate::part::{Part, part_value};
use serde_json::{Map, Value};
use std::alloc::{AllocError, Global};

/// Puts a member with its name.
fn put_member(
    map: &mut Map<String, Value>,
    alloc: Global,
    member: &(&str, Part<'_>),
) -> Result<(), AllocError>
    ensures { OnOk result
        (members_view map.new.entries
        ≡ with_member member.now.0.now (part_data member.now.1)
        (members_view map.old.entries)) }
{
    let (name, part) = member;
    let value = part_value(alloc, part)?;
    serde_json::put(map, alloc, name, value)
}

/// Puts members, each with its name, one after another.
fn put_all(
    map: &mut Map<String, Value>,
    alloc: Global,
    members: &[(&str, Part<'_>)],
) -> Result<(), AllocError>
    ensures { OnOk result
        (members_view map.new.entries
        ≡ with_members (members_data members.now) (members_view map.old.entries)) }
{
    for member in members {
        put_member(map, alloc, member)?;
    }
    Ok(())
}

/// Makes the object of these members.
pub(crate) fn object_of(alloc: Global, members: &[(&str, Part<'_>)]) -> Result<Value, AllocError>
    ensures value { IfOk result (λ value. view value ≡ object_with (members_data members.now)) }
    ensures flat { IfOk result (λ value. IsFlat (view value)) }
{
    let mut map = Map::new(alloc);
    put_all(&mut map, alloc, members)?;
    Ok(Value::Object(map))
}
