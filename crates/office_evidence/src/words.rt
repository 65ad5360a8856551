//! The words in the lines of a certificate, read again. A reader here takes each word that the
//! office writes back to what it was written of; what else it lets in shows when the text is
//! compared.
ghost use Rattle.std.specs.Prelude.{◌≡◌, ◌≢◌, ◌==◌, ◌<◌, ◌^◌, ◌∷◌, ◌++◌, ℕ, ℤ, List, Option, Some, IfOk, codes, length, map, slice_index};
ghost use Rattle.std.specs.Fmt.{decimal};
ghost use Rattle.std.specs.List.{slice_split};
ghost use Rattle.std.specs.Option.{option_copied, unwrap_or};
ghost use Rattle.office_days.specs.Limits.{IsDayNumber, IsDueNumber};
ghost use Rattle.office_records.specs.Forms.{IsCode, IsText};
ghost use Rattle.office_rules.specs.Certificates.{date_text};
ghost use Rattle.office_rules.specs.Outcomes.{outcome_word};
ghost use Rattle.office_rules.specs.declared.outcome.Outcome.{Outcome};
ghost use Rattle.office_evidence.specs.Parsed.{IsHoldOf};
ghost use Rattle.office_evidence.specs.Reading.{Gives};

use crate::forms::well_formed_code;
use jiff::civil::Date;
use office_base::Memory;
use office_days::{Day, DueDay};
use office_records::{Code, Text};
use office_rules::Outcome;
use std::alloc::{AllocError, AllocFailed, Global};

/// Why something was not read.
#[derive(Clone, Copy, PartialEq, Eq, Debug)]
pub(crate) enum Unread {
    /// An allocation was refused.
    Memory,
    /// It is not written there.
    NotThere,
}

impl From<Memory> for Unread {
    ghost use Rattle.std.specs.Prelude.{◌≡◌};
    ghost use Rattle.office_evidence.specs.declared.words.Unread.TheVariants.{Memory};

    ghost from_gives = { λ _ unread. unread ≡ Memory };

    fn from(_memory: Memory) -> Unread {
        Unread::Memory
    }
}

impl From<AllocError> for Unread {
    ghost use Rattle.std.specs.Prelude.{◌≡◌};
    ghost use Rattle.office_evidence.specs.declared.words.Unread.TheVariants.{Memory};

    ghost from_gives = { λ _ unread. unread ≡ Memory };

    fn from(_refused: AllocError) -> Unread {
        Unread::Memory
    }
}

impl<T: Drop> From<AllocFailed<T>> for Unread {
    ghost use Rattle.std.specs.Prelude.{◌≡◌};
    ghost use Rattle.office_evidence.specs.declared.words.Unread.TheVariants.{Memory};

    ghost from_gives = { λ _ unread. unread ≡ Memory };

    fn from(_refused: AllocFailed<T>) -> Unread {
        Unread::Memory
    }
}

/// The parts of a text between its separators.
pub(crate) fn parts<'a>(
    alloc: Global,
    text: &'a str,
    separator: char,
) -> Result<Vec<&'a str>, AllocError>
    requires { separator < 128 }
    ensures { IfOk result
        (λ parts. map (λ part. part.now) parts.items
        ≡ slice_split (λ b. b == separator) text.now) }
{
    text.split(separator).collect(alloc)
}

/// What a line reports behind its kind, which ends with the first space.
pub(crate) fn reported(line: &str) -> Option<&str>
    ensures { (kind rest : List ℕ) → ((i : ℕ) → i < length kind → slice_index kind i ≢ 32)
        → line.now ≡ kind ++ 32 ∷ rest → option_copied result ≡ Some rest }
{
    let (_, rest) = line.split_once(' ')?;
    Some(rest)
}

/// The number that a word writes.
pub(crate) fn number_in(word: &str) -> Option<u32>
    ensures { (n : ℕ) → n < 2 ^ 32 → word.now ≡ decimal n → result ≡ Some n }
{
    word.parse::<u32>().ok()
}

/// The day that a word writes.
pub(crate) fn day_in(word: &str) -> Option<Day>
    ensures { (d : ℤ) → IsDayNumber d → word.now ≡ date_text d → result ≡ Some d }
{
    Day::read(word)
}

/// The due day that a word writes.
pub(crate) fn due_in(word: &str) -> Option<DueDay>
    ensures { (d : ℤ) → IsDueNumber d → word.now ≡ date_text d → result ≡ Some d }
{
    let date = word.parse::<Date>().ok()?;
    DueDay::of_number(date.to_plain().to_unix_epoch_day() as i64)
}

/// The outcome that a word names.
pub(crate) fn outcome_in(word: &str) -> Option<Outcome>
    ensures { (o : Outcome) → word.now ≡ outcome_word o → result ≡ Some o }
{
    Outcome::read(word)
}

/// The text that a word is.
pub(crate) fn text_in(alloc: Global, word: &str) -> Result<Text, Unread>
    ensures { (t : List ℕ) → IsText t → word.now ≡ t → Gives result t }
{
    Text::read(alloc, word)?.ok_or(Unread::NotThere)
}

/// The code that a word is.
pub(crate) fn code_in(alloc: Global, word: &str) -> Result<Code, Unread>
    ensures { (t : List ℕ) → IsCode t → word.now ≡ t → Gives result t }
{
    Code::read(alloc, word)?.ok_or(Unread::NotThere)
}

/// The hold that a word names: of a skipped record alone.
pub(crate) fn hold_in(alloc: Global, outcome: Outcome, word: &str) -> Result<Option<Code>, Unread>
    ensures every { (hold : Option (List ℕ)) → IsHoldOf outcome hold
        → word.now ≡ unwrap_or hold (codes "-") → Gives result hold }
    ensures formed { IfOk result (λ hold. IsHoldOf outcome hold) }
{
    if !outcome.is_skipping() {
        return Ok(None);
    }
    let hold = code_in(alloc, word)?;
    well_formed_code(&hold);
    Ok(Some(hold))
}
