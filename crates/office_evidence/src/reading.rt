//! A certificate read from its text.
ghost use Rattle.std.specs.Prelude.{◌≡◌, ◌<◌, ◌≤◌, ◌^◌, ◌∷◌, ◌++◌, [], ℕ, ℤ, List, IfOk, IfSome, MatchResult, Some, codes, length, map};
ghost use Rattle.std.specs.Fmt.{decimal};
ghost use Rattle.std.specs.Option.{option_map};
ghost use Rattle.office_days.specs.Limits.{IsDayNumber};
ghost use Rattle.office_records.specs.Forms.{IsText};
ghost use Rattle.office_rules.specs.Certificates.{date_text};
ghost use Rattle.office_evidence.specs.Reading.{Gives};
ghost use Rattle.office_evidence.specs.Parsed.{Certificate, IsTextOf, IsWellFormedCertificate, lines_of, parsed, seal_of, text_of};

use crate::ParsedCertificate;
use crate::forms::{well_formed_day, well_formed_number, well_formed_text};
use crate::lines::{entries_in, spent_in};
use crate::words::{Unread, day_in, number_in, parts, reported, text_in};
use office_base::Memory;
use office_days::Day;
use office_records::Text;
use std::alloc::Global;

/// The number of the run that the first line reports.
fn run_in(line: &str) -> Result<u32, Unread>
    ensures { (n : ℕ) → n < 2 ^ 32 → line.now ≡ codes "CERTIFICATE" ++ 32 ∷ decimal n
        → Gives result n }
{
    let word = reported(line).ok_or(Unread::NotThere)?;
    number_in(word).ok_or(Unread::NotThere)
}

/// The day that the second line reports.
fn day_of(line: &str) -> Result<Day, Unread>
    ensures { (d : ℤ) → IsDayNumber d → line.now ≡ codes "DAY" ++ 32 ∷ date_text d
        → Gives result d }
{
    let word = reported(line).ok_or(Unread::NotThere)?;
    day_in(word).ok_or(Unread::NotThere)
}

/// Who opened the run, as the third line reports.
fn opener_in(alloc: Global, line: &str) -> Result<Text, Unread>
    ensures { (by : List ℕ) → IsText by → line.now ≡ codes "BY" ++ 32 ∷ by → Gives result by }
{
    let word = reported(line).ok_or(Unread::NotThere)?;
    text_in(alloc, word)
}

/// The certificate of these lines.
fn certificate_of(alloc: Global, lines: &[&str]) -> Result<ParsedCertificate, Unread>
    requires { 3 ≤ length lines.now }
    ensures every { (c : Certificate) → IsWellFormedCertificate c
        → map (λ line. line.now) lines.now ≡ (lines_of c ++ seal_of c ∷ []) ++ [] ∷ []
        → MatchResult result (λ it. parsed it ≡ c) (λ e. e ≡ Unread.Memory) }
    ensures formed { IfOk result (λ it. IsWellFormedCertificate (parsed it)) }
{
    let run = run_in(lines[0])?;
    let day = day_of(lines[1])?;
    let by = opener_in(alloc, lines[2])?;
    let entries = entries_in(alloc, lines)?;
    let spent = spent_in(alloc, lines)?;
    well_formed_number(run);
    well_formed_day(day);
    well_formed_text(&by);
    Ok(ParsedCertificate {
        run,
        day,
        by,
        entries,
        spent,
    })
}

/// What the text would be the certificate of, if it is one.
fn parse(alloc: Global, text: &str) -> Result<ParsedCertificate, Unread>
    ensures every { (c : Certificate) → IsTextOf c text.now
        → MatchResult result (λ it. parsed it ≡ c) (λ e. e ≡ Unread.Memory) }
    ensures formed { IfOk result (λ it. IsWellFormedCertificate (parsed it)) }
{
    let lines = parts(alloc, text, '\n')?;
    if lines.len() < 3 {
        return Err(Unread::NotThere);
    }
    certificate_of(alloc, &lines)
}

/// The certificate, if the text is the one that it has.
fn compared(
    alloc: Global,
    it: ParsedCertificate,
    text: &str,
) -> Result<Option<ParsedCertificate>, Memory>
    requires { IsWellFormedCertificate (parsed it) }
    ensures exact { IfOk result
        (λ read. IfSome read (λ same. IsTextOf (parsed same) text.now)) }
    ensures every { text.now ≡ text_of (parsed it) → IfOk result (λ read. read ≡ Some it) }
{
    let written = it.text(alloc)?;
    if written.as_str() == text {
        return Ok(Some(it));
    }
    Ok(None)
}

/// The certificate whose text this is, exactly as an office writes it, to the last byte and with
/// the digest of all bytes above it; `None` if the text is that of no certificate. What is read is
/// well-formed. `Memory` if there is none for it.
pub fn read_certificate(alloc: Global, text: &str) -> Result<Option<ParsedCertificate>, Memory>
    ensures exact { IfOk result
        (λ read. IfSome read (λ it. IsTextOf (parsed it) text.now)) }
    ensures every { (c : Certificate) → IsTextOf c text.now
        → IfOk result (λ read. option_map parsed read ≡ Some c) }
{
    match parse(alloc, text) {
        Ok(it) => compared(alloc, it, text),
        Err(Unread::NotThere) => Ok(None),
        Err(Unread::Memory) => Err(Memory),
    }
}
