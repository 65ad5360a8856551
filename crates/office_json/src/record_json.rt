//! What is reported of a record.
ghost use Rattle.std.specs.Prelude.{◌≡◌, false, IfOk, OnOk, option_copied};
ghost use Rattle.serde_json.specs.View.{members_view, view};
ghost use Rattle.serde_json.specs.Written.{has_float};
ghost use Rattle.office_json.specs.RecordJson.{confirmed_data, ended_data, or_null, put_first, put_last, put_second, put_third, record_data};

use crate::member_value::{
    MemberValue, object_of, put_all, reported_code, reported_day, reported_due,
};
use office_base::Memory;
use office_records::Confirmation;
use office_rules::{Entry, RecordView};
use serde_json::{Map, Value};
use std::alloc::{AllocError, Global};

/// A confirmation.
#[tactic(auto, unfolding(crate::specs::RecordJson::confirmed_data))]
fn confirmation_value(alloc: Global, it: &Confirmation) -> Result<Value, AllocError>
    ensures { IfOk result (λ value. view value ≡ confirmed_data it.now) }
{
    object_of(
        alloc,
        &[
            ("action", MemberValue::Text(it.action.text())),
            ("by", MemberValue::Text(it.by.text())),
            ("day", MemberValue::Day(it.day)),
            ("due", MemberValue::Due(it.due)),
        ],
    )
}

/// A confirmation, or null.
fn confirmed_value(alloc: Global, it: Option<&Confirmation>) -> Result<Value, AllocError>
    ensures { IfOk result (λ value. view value ≡ or_null confirmed_data (option_copied it.entry)) }
{
    match it {
        Some(it) => confirmation_value(alloc, it),
        None => Ok(Value::Null),
    }
}

/// The outcome and the run of an entry.
#[tactic(auto, unfolding(crate::specs::RecordJson::ended_data))]
fn entry_value(alloc: Global, entry: &Entry) -> Result<Value, AllocError>
    ensures { IfOk result (λ value. view value ≡ ended_data entry.now) }
{
    let run = MemberValue::Number(u64::from(entry.run));
    object_of(
        alloc,
        &[
            ("outcome", MemberValue::Text(entry.outcome.text())),
            ("run", run),
        ],
    )
}

/// The outcome and the run of an entry, or null.
fn ended_value(alloc: Global, entry: Option<&Entry>) -> Result<Value, AllocError>
    ensures { IfOk result (λ value. view value ≡ or_null ended_data (option_copied entry.entry)) }
{
    match entry {
        Some(entry) => entry_value(alloc, entry),
        None => Ok(Value::Null),
    }
}

/// Puts the members from `added` to `confirmed`.
#[tactic(auto, unfolding(crate::specs::RecordJson::put_first))]
fn put_first(
    map: &mut Map<String, Value>,
    alloc: Global,
    reported: &RecordView,
) -> Result<(), AllocError>
    ensures { OnOk result
        (members_view map.new.entries ≡ put_first reported.now (members_view map.old.entries)) }
{
    put_all(
        map,
        alloc,
        &[
            ("added", MemberValue::Day(reported.added)),
            (
                "aggregation",
                MemberValue::Number(u64::from(reported.aggregation)),
            ),
            ("class", MemberValue::Text(reported.class.text())),
        ],
    )?;
    let confirmed = confirmed_value(alloc, reported.confirmed.as_ref())?;
    serde_json::put(map, alloc, "confirmed", confirmed)
}

/// Puts the members from `digest` to `held`.
#[tactic(auto, unfolding(crate::specs::RecordJson::put_second))]
fn put_second(
    map: &mut Map<String, Value>,
    alloc: Global,
    reported: &RecordView,
    ending: Option<&Entry>,
) -> Result<(), AllocError>
    ensures { OnOk result
        (members_view map.new.entries
        ≡ put_second reported.now (option_copied ending.entry) (members_view map.old.entries)) }
{
    let due = reported_due(reported.due);
    put_all(
        map,
        alloc,
        &[
            ("digest", MemberValue::Digest(&reported.digest)),
            ("due", due),
        ],
    )?;
    let ended = ended_value(alloc, ending)?;
    serde_json::put(map, alloc, "ended", ended)?;
    put_all(
        map,
        alloc,
        &[
            ("event", reported_day(reported.event)),
            ("held", reported_code(reported.held.as_ref())),
        ],
    )
}

/// Puts the members from `length` to `ref`.
#[tactic(auto, unfolding(crate::specs::RecordJson::put_third))]
fn put_third(
    map: &mut Map<String, Value>,
    alloc: Global,
    reported: &RecordView,
) -> Result<(), AllocError>
    ensures { OnOk result
        (members_view map.new.entries ≡ put_third reported.now (members_view map.old.entries)) }
{
    put_all(
        map,
        alloc,
        &[
            ("length", MemberValue::Number(u64::from(reported.length))),
            ("number", MemberValue::Number(u64::from(reported.number))),
            ("originated", MemberValue::Day(reported.originated)),
            ("ref", MemberValue::Text(reported.ref_text.text())),
        ],
    )
}

/// Puts the members from `schedule` on.
#[tactic(auto, unfolding(crate::specs::RecordJson::put_last))]
fn put_last(
    map: &mut Map<String, Value>,
    alloc: Global,
    reported: &RecordView,
) -> Result<(), AllocError>
    ensures { OnOk result
        (members_view map.new.entries ≡ put_last reported.now (members_view map.old.entries)) }
{
    put_all(
        map,
        alloc,
        &[
            ("schedule", MemberValue::Text(reported.schedule.text())),
            ("status", MemberValue::Text(reported.status.text())),
            ("title", MemberValue::Text(reported.title.text())),
        ],
    )
}

/// What is reported of a record in JSON, with the entry that ended it, if one did. `Memory` comes
/// where an allocation was refused.
pub fn record_value(
    alloc: Global,
    reported: &RecordView,
    ending: Option<&Entry>,
) -> Result<Value, Memory>
    ensures value { IfOk result
        (λ value. view value ≡ record_data reported.now (option_copied ending.entry)) }
    ensures no_float { IfOk result (λ value. has_float (view value) ≡ false) }
{
    let mut map = Map::new(alloc);
    put_first(&mut map, alloc, reported)?;
    put_second(&mut map, alloc, reported, ending)?;
    put_third(&mut map, alloc, reported)?;
    put_last(&mut map, alloc, reported)?;
    Ok(Value::Object(map))
}
