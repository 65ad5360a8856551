//! The words in the lines of a certificate, and how a line is made of them.
ghost use Rattle.std.specs.Prelude.{◌≡◌, ◌∷◌, ◌++◌, [], IfOk, codes, map};
ghost use Rattle.std.specs.Fmt.{decimal};
ghost use Rattle.std.specs.Option.{unwrap_or};
ghost use Rattle.std.specs.Str.{IsUtf8};
ghost use Rattle.std.specs.String.{string_bytes};
ghost use Rattle.office_rules.specs.Certificates.{date_text, tabbed};
ghost use Rattle.office_rules.specs.Outcomes.{outcome_word};

use crate::Entry;
use office_base::Memory;
use office_days::{Day, DueDay};
use std::alloc::Global;

/// A number in decimal digits.
pub fn number_word(alloc: Global, number: u64) -> Result<String, Memory>
    ensures { IfOk result (λ word. string_bytes word ≡ decimal number) }
{
    Ok(format!(in alloc; "{number}")?)
}

/// The text of these bytes.
fn text_of(alloc: Global, bytes: &[u8]) -> Result<String, Memory>
    requires { IsUtf8 bytes.now }
    ensures { IfOk result (λ text. string_bytes text ≡ bytes.now) }
{
    match std::str::from_utf8(bytes) {
        Ok(text) => Ok(String::from_str(alloc, text)?),
        Err(_) => unreachable!(),
    }
}

/// A day as `2024-02-29`.
#[tactic(auto, using(office_rules::proofs::DateBytes::date_is_text))]
pub(crate) fn day_word(alloc: Global, day: Day) -> Result<String, Memory>
    ensures { IfOk result (λ word. string_bytes word ≡ date_text day) }
{
    text_of(alloc, &day.text())
}

/// A due day as `2024-02-29`.
#[tactic(auto, using(office_rules::proofs::DateBytes::date_is_text))]
pub fn due_word(alloc: Global, due: DueDay) -> Result<String, Memory>
    ensures { IfOk result (λ word. string_bytes word ≡ date_text due) }
{
    text_of(alloc, &due.text())
}

/// The word for an entry's outcome.
pub(crate) fn outcome_of(entry: &Entry) -> &str
    ensures { result.now ≡ outcome_word entry.now.outcome }
{
    entry.outcome.text()
}

/// The hold that kept the record, or a hyphen.
pub(crate) fn hold_word(entry: &Entry) -> &str
    ensures { result.now ≡ unwrap_or entry.now.hold (codes "-") }
{
    match &entry.hold {
        Some(hold) => hold.text(),
        None => "-",
    }
}

/// The line of these words, with a tab between each two.
#[tactic(auto, using(crate::proofs::Texts::joined_is))]
pub(crate) fn line_of(alloc: Global, words: &[&str]) -> Result<String, Memory>
    ensures { IfOk result
        (λ line. string_bytes line ≡ tabbed (map (λ word. word.now) words.now) ++ 10 ∷ []) }
{
    let mut line = words.join(alloc, "\t")?;
    line.push_str("\n")?;
    Ok(line)
}
