//! The text of a certificate that was read: what `read_certificate` compares with, byte for byte.
ghost use Rattle.std.specs.Prelude.{◌≡◌, ◌∷◌, ◌++◌, [], codes, count_by, length, map, IfOk, OnOk};
ghost use Rattle.std.specs.Option.{unwrap_or};
ghost use Rattle.std.specs.String.{string_bytes};
ghost use Rattle.office_rules.specs.Certificates.{lines_text, tabbed};
ghost use Rattle.office_rules.specs.Outcomes.{is_ending, is_sending, is_skipping, outcome_word};
ghost use Rattle.office_evidence.specs.Parsed.{columns_of, count_in, parsed, spent_columns, text_of};

use crate::{EntryLine, ParsedCertificate, SpentLine};
use office_base::Memory;
use office_proof::lines::{push_line, push_number, push_run};
use office_proof::seal;
use office_proof::words::{due_word, number_word};
use std::alloc::Global;

/// Appends a line of these words, with a tab between each two.
#[tactic(auto, using(office_proof::proofs::Texts::joined_is))]
fn push_words(alloc: Global, text: &mut String, words: &[&str]) -> Result<(), Memory>
    ensures { OnOk result
        (string_bytes text.new
        ≡ string_bytes text.old
        ++ lines_text (tabbed (map (λ word. word.now) words.now) ∷ [])) }
{
    let line = words.join(alloc, "\t")?;
    push_line(text, "", line.as_str())
}

/// How many of the lines end their record.
fn ended(entries: &[EntryLine]) -> usize
    ensures { result ≡ count_by (λ line. is_ending line.outcome) entries.now }
{
    entries
        .iter()
        .filter(|line| line.outcome.is_ending())
        .count()
}

/// How many of the lines send a copy of their record.
fn sent(entries: &[EntryLine]) -> usize
    ensures { result ≡ count_by (λ line. is_sending line.outcome) entries.now }
{
    entries
        .iter()
        .filter(|line| line.outcome.is_sending())
        .count()
}

/// How many of the lines skip their record.
fn skipped(entries: &[EntryLine]) -> usize
    ensures { result ≡ count_by (λ line. is_skipping line.outcome) entries.now }
{
    entries
        .iter()
        .filter(|line| line.outcome.is_skipping())
        .count()
}

/// Appends how many entries have each kind of outcome.
fn push_counts(alloc: Global, text: &mut String, entries: &[EntryLine]) -> Result<(), Memory>
    ensures { OnOk result
        (string_bytes text.new
        ≡ string_bytes text.old
        ++ lines_text ((codes "ENDED " ++ count_in is_ending entries.now)
        ∷ (codes "SENT " ++ count_in is_sending entries.now)
        ∷ (codes "SKIPPED " ++ count_in is_skipping entries.now) ∷ [])) }
{
    push_number(alloc, text, "ENDED ", ended(entries) as u64)?;
    push_number(alloc, text, "SENT ", sent(entries) as u64)?;
    push_number(alloc, text, "SKIPPED ", skipped(entries) as u64)?;
    Ok(())
}

/// The hold of a line, or a hyphen.
fn hold_word(line: &EntryLine) -> &str
    ensures { result.now ≡ unwrap_or line.now.hold (codes "-") }
{
    match &line.hold {
        Some(hold) => hold.text(),
        None => "-",
    }
}

/// The word for the outcome of a line.
fn outcome_of(line: &EntryLine) -> &str
    ensures { result.now ≡ outcome_word line.now.outcome }
{
    line.outcome.text()
}

/// What is no text in the line of an entry, as words.
#[derive(Drop)]
struct LineWords {
    number: String,
    due: String,
    length: String,
    digest: String,
}

/// Appends the line of an entry, of which these are the words that are no texts.
fn push_reported<'a>(
    alloc: Global,
    text: &mut String,
    line: &'a EntryLine,
    words: &'a LineWords,
) -> Result<(), Memory>
    ensures { OnOk result
        (string_bytes text.new
        ≡ string_bytes text.old
        ++ lines_text (tabbed (codes "ENTRY" ∷ string_bytes words.now.number
        ∷ outcome_word line.now.outcome
        ∷ line.now.ref_text ∷ line.now.class ∷ line.now.schedule ∷ string_bytes words.now.due
        ∷ unwrap_or line.now.hold (codes "-") ∷ line.now.confirmed_by
        ∷ string_bytes words.now.length ∷ string_bytes words.now.digest ∷ []) ∷ [])) }
{
    push_words(
        alloc,
        text,
        &[
            "ENTRY",
            words.number.as_str(),
            outcome_of(line),
            line.ref_text.text(),
            line.class.text(),
            line.schedule.text(),
            words.due.as_str(),
            hold_word(line),
            line.confirmed_by.text(),
            words.length.as_str(),
            words.digest.as_str(),
        ],
    )
}

/// Appends the line of an entry.
fn push_entry(alloc: Global, text: &mut String, line: &EntryLine) -> Result<(), Memory>
    ensures { OnOk result
        (string_bytes text.new
        ≡ string_bytes text.old ++ lines_text (tabbed (columns_of line.now) ∷ [])) }
{
    let words = LineWords {
        number: number_word(alloc, line.record_no as u64)?,
        due: due_word(alloc, line.due)?,
        length: number_word(alloc, line.length as u64)?,
        digest: hex::encode(alloc, &line.digest)?,
    };
    push_reported(alloc, text, line, &words)
}

/// Appends the line of each entry.
fn push_entries(alloc: Global, text: &mut String, entries: &[EntryLine]) -> Result<(), Memory>
    ensures { OnOk result
        (string_bytes text.new
        ≡ string_bytes text.old
        ++ lines_text (map (λ line. tabbed (columns_of line)) entries.now)) }
{
    for line in entries {
        push_entry(alloc, text, line)?;
    }
    Ok(())
}

/// Appends the line of a spent aggregation.
fn push_aggregation(alloc: Global, text: &mut String, it: &SpentLine) -> Result<(), Memory>
    ensures { OnOk result
        (string_bytes text.new
        ≡ string_bytes text.old ++ lines_text (tabbed (spent_columns it.now) ∷ [])) }
{
    let number = number_word(alloc, it.number as u64)?;
    push_words(
        alloc,
        text,
        &["AGGREGATION", number.as_str(), it.ref_text.text()],
    )
}

/// Appends the line of each spent aggregation.
fn push_aggregations(alloc: Global, text: &mut String, spent: &[SpentLine]) -> Result<(), Memory>
    ensures { OnOk result
        (string_bytes text.new
        ≡ string_bytes text.old ++ lines_text (map (λ it. tabbed (spent_columns it)) spent.now)) }
{
    for it in spent {
        push_aggregation(alloc, text, it)?;
    }
    Ok(())
}

impl ParsedCertificate {
    /// The text of the certificate, which `read_certificate` takes back.
    pub fn text(&self, alloc: Global) -> Result<String, Memory>
        ensures { IfOk result (λ text. string_bytes text ≡ text_of (parsed self.now)) }
    {
        let mut text = String::new(alloc);
        push_run(alloc, &mut text, self.run, self.day, &self.by)?;
        push_counts(alloc, &mut text, &self.entries)?;
        push_entries(alloc, &mut text, &self.entries)?;
        push_number(alloc, &mut text, "SPENT ", self.spent.len() as u64)?;
        push_aggregations(alloc, &mut text, &self.spent)?;
        seal(alloc, &mut text)?;
        Ok(text)
    }
}
