//! The values of the members of an act.
ghost use Rattle.std.specs.Prelude.{◌≡◌, IfOk};
ghost use Rattle.serde_json.specs.Data.{string};
ghost use Rattle.serde_json.specs.View.{view};
ghost use Rattle.office_json.specs.RecordJson.{day_data, or_null};
ghost use Rattle.office_notes.specs.Acts.{count_data};
ghost use Rattle.office_notes.specs.Parts.{part_data};
ghost use Rattle.hex.specs.Hex.{encode_lower};

use crate::content::content_value;
use crate::targets::{classified_value, target_value};
use office_days::Day;
use office_records::{Classified, Code, Target, Text};
use office_rules::Content;
use serde_json::Value;
use std::alloc::{AllocError, Global};

/// What a member of an act is.
#[derive(Clone, Copy)]
pub(crate) enum Part<'a> {
    /// A word of the office, as that for the kind of the act.
    Word(&'static str),
    Day(Day),
    Code(&'a Code),
    CodeOrNull(&'a Option<Code>),
    Text(&'a Text),
    Number(u32),
    NumberOrNull(Option<u32>),
    Digest(&'a [u8; 32]),
    Classified(Classified),
    Target(&'a Target),
    Content(&'a Content),
}

/// Writes a day, as `2024-02-29`.
#[tactic(auto, using(office_rules::proofs::DateBytes::date_is_text))]
fn day_value(alloc: Global, day: Day) -> Result<Value, AllocError>
    ensures { IfOk result (λ value. view value ≡ day_data day) }
{
    match std::str::from_utf8(&day.text()) {
        Ok(text) => Value::try_from_str(alloc, text),
        Err(_) => unreachable!(),
    }
}

/// Writes a code, or null.
fn code_or_null(alloc: Global, code: &Option<Code>) -> Result<Value, AllocError>
    ensures { IfOk result (λ value. view value ≡ or_null string code.now) }
{
    match code {
        Some(code) => Value::try_from_str(alloc, code.text()),
        None => Ok(Value::Null),
    }
}

/// Writes a number, or null.
fn number_or_null(number: Option<u32>) -> Value
    ensures { view result ≡ or_null count_data number }
{
    match number {
        Some(number) => Value::from(u64::from(number)),
        None => Value::Null,
    }
}

/// Writes a digest, in 64 digits.
fn digest_value(alloc: Global, digest: &[u8; 32]) -> Result<Value, AllocError>
    ensures { IfOk result (λ value. view value ≡ string (encode_lower digest.now)) }
{
    let digits = hex::encode(alloc, digest)?;
    Value::try_from_str(alloc, digits.as_str())
}

/// Writes the value of a member.
pub(crate) fn part_value(alloc: Global, part: &Part<'_>) -> Result<Value, AllocError>
    ensures { IfOk result (λ value. view value ≡ part_data part.now) }
{
    match part {
        Part::Word(word) => Value::try_from_str(alloc, word),
        Part::Day(day) => day_value(alloc, *day),
        Part::Code(code) => Value::try_from_str(alloc, code.text()),
        Part::CodeOrNull(code) => code_or_null(alloc, code),
        Part::Text(text) => Value::try_from_str(alloc, text.text()),
        Part::Number(number) => Ok(Value::from(u64::from(*number))),
        Part::NumberOrNull(number) => Ok(number_or_null(*number)),
        Part::Digest(digest) => digest_value(alloc, digest),
        Part::Classified(what) => classified_value(alloc, *what),
        Part::Target(what) => target_value(alloc, what),
        Part::Content(content) => content_value(alloc, content),
    }
}
