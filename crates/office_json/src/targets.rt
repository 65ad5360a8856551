//! Targets as texts: `class:CODE`, `aggregation:N` and `record:N`.
ghost use Rattle.std.specs.Prelude.{◌≡◌, option_map};
ghost use Rattle.serde_json.specs.Find.{get};
ghost use Rattle.serde_json.specs.View.{view};
ghost use Rattle.office_records.specs.declared.classified.Classified.TheVariants as classified;
ghost use Rattle.office_rules.specs.Parts.{IsReadAs, made};
ghost use Rattle.office_json.specs.Targets.{after, classified_named, classified_part, is_plain, target_named, target_part, targeted, thing_named};

use crate::ReadFault;
use crate::members::text_at;
use office_base::{Refusal, read_numeral};
use office_records::{Classified, Target};
use office_rules::read_code;
use serde_json::Value;
use std::alloc::Global;

/// What is after these bytes, in a text that begins with them.
fn after<'a>(text: &'a str, prefix: &str) -> Option<&'a str>
    ensures { option_map (λ rest. rest.now) result ≡ after prefix.now text.now }
{
    text.strip_prefix(prefix)
}

/// Whether no zero is before another digit.
fn is_plain(digits: &str) -> bool
    ensures { result ≡ is_plain digits.now }
{
    digits.len() == 1 || after(digits, "0").is_none()
}

/// The number of a thing in ASCII digits without leading zeros. `0` and what is above 4,294,967,295
/// is `BadNumber`, what is no such number `BadText`.
#[tactic(auto, unfolding(crate::specs::Targets::thing_named))]
fn read_thing(digits: &str) -> Result<u32, Refusal>
    ensures { result ≡ thing_named digits.now }
{
    if !is_plain(digits) {
        return Err(Refusal::BadText);
    }
    let number = read_numeral(digits).ok_or(Refusal::BadText)?;
    match u32::try_from(number) {
        Ok(number) if number > 0 => Ok(number),
        _ => Err(Refusal::BadNumber),
    }
}

/// The aggregation that digits name.
fn read_aggregation(digits: &str) -> Result<Classified, Refusal>
    ensures { result ≡ made (λ n. classified.Aggregation n) (thing_named digits.now) }
{
    match read_thing(digits) {
        Ok(number) => Ok(Classified::Aggregation(number)),
        Err(refusal) => Err(refusal),
    }
}

/// The record that digits name.
fn read_record(digits: &str) -> Result<Classified, Refusal>
    ensures { result ≡ made (λ n. classified.Record n) (thing_named digits.now) }
{
    match read_thing(digits) {
        Ok(number) => Ok(Classified::Record(number)),
        Err(refusal) => Err(refusal),
    }
}

/// The aggregation or the record that a text names.
#[tactic(auto, unfolding(crate::specs::Targets::classified_named))]
fn read_classified(text: &str) -> Result<Classified, Refusal>
    ensures { result ≡ classified_named text.now }
{
    match (after(text, "aggregation:"), after(text, "record:")) {
        (Some(digits), _) => read_aggregation(digits),
        (None, Some(digits)) => read_record(digits),
        (None, None) => Err(Refusal::BadText),
    }
}

/// What has a class, as a target.
fn targeted(classified: Classified) -> Target
    ensures { result ≡ targeted classified }
{
    match classified {
        Classified::Aggregation(number) => Target::Aggregation(number),
        Classified::Record(number) => Target::Record(number),
    }
}

/// The target that a text names.
#[tactic(auto, using(office_rules::proofs::Made::fault_made), unfolding(crate::specs::Targets::target_named))]
fn read_target(alloc: Global, text: &str) -> Result<Target, ReadFault>
    ensures { IsReadAs (target_named text.now) result }
{
    if let Some(code) = after(text, "class:") {
        return match read_code(alloc, code) {
            Ok(code) => Ok(Target::Class(code)),
            Err(fault) => Err(fault),
        };
    }
    let classified = read_classified(text)?;
    Ok(targeted(classified))
}

/// What has a class: an aggregation or a record.
#[tactic(auto, unfolding(crate::specs::Targets::classified_part))]
pub(crate) fn classified_at(value: &Value, name: &str) -> Result<Classified, ReadFault>
    ensures { IsReadAs (classified_part (get name.now (view value.now))) result }
{
    let text = text_at(value, name).ok_or(Refusal::BadText)?;
    let classified = read_classified(text)?;
    Ok(classified)
}

/// A target: a class, an aggregation or a record.
#[tactic(auto, unfolding(crate::specs::Targets::target_part))]
pub(crate) fn target_at(alloc: Global, value: &Value, name: &str) -> Result<Target, ReadFault>
    ensures { IsReadAs (target_part (get name.now (view value.now))) result }
{
    match text_at(value, name) {
        Some(text) => read_target(alloc, text),
        None => Err(ReadFault::Refused(Refusal::BadText)),
    }
}
