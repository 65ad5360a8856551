//! Objects whose members are texts, numbers, days and the like.
ghost use Rattle.std.specs.Prelude.{◌≡◌, IfOk, OnOk, option_copied};
ghost use Rattle.serde_json.specs.Data.{no_members, object, string, put as with_member};
ghost use Rattle.serde_json.specs.View.{members_view, view};
ghost use Rattle.office_json.specs.RecordJson.{day_data, or_null};
ghost use Rattle.office_json.specs.MemberValues.{member_data, with_members};

use crate::digits::digest_value;
use crate::member_parts::{day_value, deadline_value, due_day_value};
use office_days::{Day, Deadline, DueDay};
use office_records::Code;
use serde_json::{Map, Value};
use std::alloc::{AllocError, Global};

/// What a member of an object reports.
#[derive(Clone, Copy)]
pub(crate) enum MemberValue<'a> {
    Nothing,
    Flag(bool),
    Number(u64),
    Text(&'a str),
    Day(Day),
    Due(DueDay),
    Deadline(Deadline),
    Digest(&'a [u8; 32]),
}

/// A day that may be missing.
pub(crate) fn reported_day(day: Option<Day>) -> MemberValue<'static>
    ensures { member_data result ≡ or_null day_data day }
{
    match day {
        Some(day) => MemberValue::Day(day),
        None => MemberValue::Nothing,
    }
}

/// A due day that may be missing.
pub(crate) fn reported_due(due: Option<DueDay>) -> MemberValue<'static>
    ensures { member_data result ≡ or_null day_data due }
{
    match due {
        Some(day) => MemberValue::Due(day),
        None => MemberValue::Nothing,
    }
}

/// A code that may be missing.
pub(crate) fn reported_code<'a>(code: Option<&'a Code>) -> MemberValue<'a>
    ensures { member_data result ≡ or_null string (option_copied code.entry) }
{
    match code {
        Some(code) => MemberValue::Text(code.text()),
        None => MemberValue::Nothing,
    }
}

/// A text that may be missing.
pub(crate) fn reported_text<'a>(text: Option<&'a str>) -> MemberValue<'a>
    ensures { member_data result ≡ or_null string (option_copied text.entry) }
{
    match text {
        Some(text) => MemberValue::Text(text),
        None => MemberValue::Nothing,
    }
}

/// What is reported, in JSON.
fn value_of(alloc: Global, reported: &MemberValue<'_>) -> Result<Value, AllocError>
    ensures { IfOk result (λ value. view value ≡ member_data reported.now) }
{
    match reported {
        MemberValue::Nothing => Ok(Value::Null),
        MemberValue::Flag(flag) => Ok(Value::Bool(*flag)),
        MemberValue::Number(number) => Ok(Value::from(*number)),
        MemberValue::Text(text) => Value::try_from_str(alloc, text),
        MemberValue::Day(day) => day_value(alloc, *day),
        MemberValue::Due(day) => due_day_value(alloc, *day),
        MemberValue::Deadline(day) => deadline_value(alloc, *day),
        MemberValue::Digest(digest) => digest_value(alloc, digest),
    }
}

/// Puts a member with its name.
fn put_member(
    map: &mut Map<String, Value>,
    alloc: Global,
    member: &(&str, MemberValue<'_>),
) -> Result<(), AllocError>
    ensures { OnOk result
        (members_view map.new.entries
        ≡ with_member member.now.0.now (member_data member.now.1)
        (members_view map.old.entries)) }
{
    let (name, reported) = member;
    let value = value_of(alloc, reported)?;
    serde_json::put(map, alloc, name, value)
}

/// Puts members, each with its name, one after another.
pub(crate) fn put_all(
    map: &mut Map<String, Value>,
    alloc: Global,
    members: &[(&str, MemberValue<'_>)],
) -> Result<(), AllocError>
    ensures { OnOk result
        (members_view map.new.entries ≡ with_members members.now (members_view map.old.entries)) }
{
    for member in members {
        put_member(map, alloc, member)?;
    }
    Ok(())
}

/// The object of these members.
pub(crate) fn object_of(
    alloc: Global,
    members: &[(&str, MemberValue<'_>)],
) -> Result<Value, AllocError>
    ensures { IfOk result (λ value. view value ≡ object (with_members members.now no_members)) }
{
    let mut map = Map::new(alloc);
    put_all(&mut map, alloc, members)?;
    Ok(Value::Object(map))
}
