//! Periods, days, codes and numbers as the words of a plan file write them.
ghost use Rattle.std.specs.Prelude.{◌≡◌, IfOk};
ghost use Rattle.office_days.specs.Texts.{day_named};
ghost use Rattle.office_base.specs.EntityNumbers.{entity_number};
ghost use Rattle.office_plan.specs.Parts.{both, code_part, named_part, optional_part, period_part};

use office_base::{Memory, Refusal, read_entity_number, read_numeral};
use office_days::{Day, Period, Unit};
use office_records::{AggNo, Code};
use std::alloc::Global;

/// Both parts, or the refusal with the least number.
pub fn both<A: Drop, B: Drop>(
    first: Result<A, Refusal>,
    second: Result<B, Refusal>,
) -> Result<(A, B), Refusal>
    ensures { result ≡ both first second }
{
    match first {
        Ok(a) => match second {
            Ok(b) => Ok((a, b)),
            Err(refusal) => Err(refusal),
        },
        Err(a) => match second {
            Ok(_) => Err(a),
            Err(b) => Err(if a.number() <= b.number() { a } else { b }),
        },
    }
}

/// A period by the words for its unit and its count.
#[tactic(auto, unfolding(crate::specs::Parts::period_part))]
pub fn read_period(unit: &str, count: &str) -> Result<Period, Refusal>
    ensures { result ≡ period_part unit.now count.now }
{
    let unit = Unit::read(unit).ok_or(Refusal::BadText)?;
    let count = read_numeral(count).ok_or(Refusal::BadText)?;
    Period::of_count(unit, count).ok_or(Refusal::BadNumber)
}

/// A day by its text.
pub fn read_day(word: &str) -> Result<Day, Refusal>
    ensures { result ≡ named_part (day_named word.now) }
{
    Day::read(word).ok_or(Refusal::BadText)
}

/// A code; the word `-` is none here.
pub fn read_code(alloc: Global, word: &str) -> Result<Result<Code, Refusal>, Memory>
    ensures { IfOk result (λ code. code ≡ code_part word.now) }
{
    if word == "-" {
        return Ok(Err(Refusal::BadText));
    }
    match Code::read(alloc, word)? {
        Some(code) => Ok(Ok(code)),
        None => Ok(Err(Refusal::BadText)),
    }
}

/// A code that may be left out, as `-`.
pub fn read_optional_code(
    alloc: Global,
    word: &str,
) -> Result<Result<Option<Code>, Refusal>, Memory>
    ensures { IfOk result (λ code. code ≡ optional_part code_part word.now) }
{
    if word == "-" {
        return Ok(Ok(None));
    }
    match read_code(alloc, word)? {
        Ok(code) => Ok(Ok(Some(code))),
        Err(refusal) => Ok(Err(refusal)),
    }
}

/// The number of an aggregation that may be left out, as `-`.
pub fn read_optional_number(word: &str) -> Result<Option<AggNo>, Refusal>
    ensures { result ≡ optional_part entity_number word.now }
{
    if word == "-" {
        return Ok(None);
    }
    match read_entity_number(word) {
        Ok(number) => Ok(Some(number)),
        Err(refusal) => Err(refusal),
    }
}
