//! The members of an object of JSON: found by name, and whether there are others.
ghost use Rattle.std.specs.Prelude.{◌≡◌, option_and_then, option_map};
ghost use Rattle.std.specs.List.{list_any};
ghost use Rattle.std.specs.Str.{bytes_eq};
ghost use Rattle.serde_json.specs.Find.{as_str, get};
ghost use Rattle.serde_json.specs.View.{members_view, view};
ghost use Rattle.office_json.specs.Members.{are_named, has_only, is_given};

use serde_json::{Map, Value};

/// The member of that name, where it is a text.
pub(crate) fn text_at<'a>(value: &'a Value, name: &str) -> Option<&'a str>
    ensures { option_map (λ text. text.now) result
        ≡ option_and_then as_str (get name.now (view value.now)) }
{
    value.get(name).and_then(Value::as_str)
}

/// Whether a member that may be null is there.
pub(crate) fn is_given(value: &Value, name: &str) -> bool
    ensures { result ≡ is_given (get name.now (view value.now)) }
{
    match value.get(name) {
        None | Some(Value::Null) => false,
        Some(_) => true,
    }
}

/// Whether a name is one of these.
fn is_among(name: &str, names: &[&str]) -> bool
    ensures { result ≡ list_any (λ other. bytes_eq name.now other.now) names.now }
{
    names.iter().any(|other| name == *other)
}

/// Whether each member has one of these names.
fn are_named(members: &Map<String, Value>, names: &[&str]) -> bool
    ensures { result
        ≡ are_named (λ name. list_any (λ other. bytes_eq name other.now) names.now)
        (members_view members.now.entries) }
{
    for (name, _) in members {
        if !is_among(name.as_str(), names) {
            return false;
        }
    }
    true
}

/// Whether a value is an object without a member of another name than these.
#[tactic(auto, unfolding(crate::specs::Members::has_only))]
pub(crate) fn has_only(value: &Value, names: &[&str]) -> bool
    ensures { result
        ≡ has_only (λ name. list_any (λ other. bytes_eq name other.now) names.now)
        (view value.now) }
{
    match value {
        Value::Object(members) => are_named(members, names),
        _ => false,
    }
}
