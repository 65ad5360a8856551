//! The parts of an act: days, codes, texts, words, digests and numbers, each a member of its name.
ghost use Rattle.std.specs.Prelude.{◌≡◌, codes};
ghost use Rattle.serde_json.specs.Find.{get};
ghost use Rattle.serde_json.specs.View.{view};
ghost use Rattle.office_rules.specs.Parts.{IsReadAs};
ghost use Rattle.office_json.specs.Parts.{action_part, code_part, count_part, day_part, digest_part, number_part, offset_part, optional, period_part, text_part, trigger_part};

use crate::members::{is_given, text_at};
use office_base::Refusal;
use office_days::{Day, Offset, Period, Unit};
use office_records::{Action, AggNo, Code, Text, Trigger};
use office_rules::{ReadFault, read_code, read_digest, read_words};
use serde_json::Value;
use std::alloc::Global;

/// A day.
#[tactic(auto, unfolding(crate::specs::Parts::day_part))]
pub(crate) fn day_at(value: &Value, name: &str) -> Result<Day, ReadFault>
    ensures { IsReadAs (day_part (get name.now (view value.now))) result }
{
    text_at(value, name)
        .and_then(Day::read)
        .ok_or(ReadFault::Refused(Refusal::BadText))
}

/// A code.
#[tactic(auto, unfolding(crate::specs::Parts::code_part))]
pub(crate) fn code_at(alloc: Global, value: &Value, name: &str) -> Result<Code, ReadFault>
    ensures { IsReadAs (code_part (get name.now (view value.now))) result }
{
    match text_at(value, name) {
        Some(text) => read_code(alloc, text),
        None => Err(ReadFault::Refused(Refusal::BadText)),
    }
}

/// A text in words, as a title.
#[tactic(auto, unfolding(crate::specs::Parts::text_part))]
pub(crate) fn words_at(alloc: Global, value: &Value, name: &str) -> Result<Text, ReadFault>
    ensures { IsReadAs (text_part (get name.now (view value.now))) result }
{
    match text_at(value, name) {
        Some(text) => read_words(alloc, text),
        None => Err(ReadFault::Refused(Refusal::BadText)),
    }
}

/// A trigger.
#[tactic(auto, unfolding(crate::specs::Parts::trigger_part))]
pub(crate) fn trigger_at(value: &Value, name: &str) -> Result<Trigger, ReadFault>
    ensures { IsReadAs (trigger_part (get name.now (view value.now))) result }
{
    text_at(value, name)
        .and_then(Trigger::read)
        .ok_or(ReadFault::Refused(Refusal::BadText))
}

/// An offset.
#[tactic(auto, unfolding(crate::specs::Parts::offset_part))]
pub(crate) fn offset_at(value: &Value, name: &str) -> Result<Offset, ReadFault>
    ensures { IsReadAs (offset_part (get name.now (view value.now))) result }
{
    text_at(value, name)
        .and_then(Offset::read)
        .ok_or(ReadFault::Refused(Refusal::BadText))
}

/// An action.
#[tactic(auto, unfolding(crate::specs::Parts::action_part))]
pub(crate) fn action_at(value: &Value, name: &str) -> Result<Action, ReadFault>
    ensures { IsReadAs (action_part (get name.now (view value.now))) result }
{
    text_at(value, name)
        .and_then(Action::read)
        .ok_or(ReadFault::Refused(Refusal::BadText))
}

/// A digest, in 64 lower-case hexadecimal digits.
#[tactic(auto, unfolding(crate::specs::Parts::digest_part))]
pub(crate) fn digest_at(value: &Value, name: &str) -> Result<[u8; 32], ReadFault>
    ensures { IsReadAs (digest_part (get name.now (view value.now))) result }
{
    let text = text_at(value, name).ok_or(Refusal::BadText)?;
    read_digest(text).ok_or(ReadFault::Refused(Refusal::BadText))
}

/// The number of a thing.
#[tactic(auto, unfolding(crate::specs::Parts::number_part))]
pub(crate) fn number_at(value: &Value, name: &str) -> Result<u32, ReadFault>
    ensures { IsReadAs (number_part (get name.now (view value.now))) result }
{
    match value.get(name) {
        Some(Value::Number(number)) => match number.as_u64() {
            Some(n) if n > 0 && n <= 4_294_967_295 => Ok(n as u32),
            _ => Err(ReadFault::Refused(Refusal::BadNumber)),
        },
        _ => Err(ReadFault::Refused(Refusal::BadText)),
    }
}

/// A count.
#[tactic(auto, unfolding(crate::specs::Parts::count_part))]
fn count_at(value: &Value, name: &str) -> Result<u64, Refusal>
    ensures { result ≡ count_part (get name.now (view value.now)) }
{
    match value.get(name) {
        Some(Value::Number(number)) => number.as_u64().ok_or(Refusal::BadNumber),
        _ => Err(Refusal::BadText),
    }
}

/// The period of the members `unit` and `count`.
#[tactic(auto, unfolding(crate::specs::Parts::period_part))]
pub(crate) fn period_at(value: &Value) -> Result<Period, ReadFault>
    ensures { IsReadAs
        (period_part (get (codes "unit") (view value.now)) (get (codes "count") (view value.now)))
        result }
{
    let unit = text_at(value, "unit")
        .and_then(Unit::read)
        .ok_or(Refusal::BadText)?;
    let count = count_at(value, "count")?;
    Period::of_count(unit, count).ok_or(ReadFault::Refused(Refusal::BadNumber))
}

/// A code that may be null or missing.
#[tactic(auto, using(office_rules::proofs::Made::fault_made))]
pub(crate) fn optional_code_at(
    alloc: Global,
    value: &Value,
    name: &str,
) -> Result<Option<Code>, ReadFault>
    ensures { IsReadAs (optional code_part (get name.now (view value.now))) result }
{
    if !is_given(value, name) {
        return Ok(None);
    }
    match code_at(alloc, value, name) {
        Ok(code) => Ok(Some(code)),
        Err(fault) => Err(fault),
    }
}

/// The number of an aggregation that may be null or missing.
#[tactic(auto, using(office_rules::proofs::Made::fault_made))]
pub(crate) fn optional_number_at(value: &Value, name: &str) -> Result<Option<AggNo>, ReadFault>
    ensures { IsReadAs (optional number_part (get name.now (view value.now))) result }
{
    if !is_given(value, name) {
        return Ok(None);
    }
    match number_at(value, name) {
        Ok(number) => Ok(Some(number)),
        Err(fault) => Err(fault),
    }
}
