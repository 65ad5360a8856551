//! The parts of a certificate, each appended to the text so far.
ghost use Rattle.std.specs.Prelude.{◌≡◌, ℕ, ◌∷◌, ◌++◌, [], codes, count_by, length, map, IfOk, OnOk};
ghost use Rattle.std.specs.Fmt.{decimal};
ghost use Rattle.std.specs.List.{flat_map};
ghost use Rattle.std.specs.String.{string_bytes};
ghost use Rattle.office_records.specs.Lists.{numbered};
ghost use Rattle.office_rules.specs.Certificates.{aggregation_words, counted, date_text, entry_words, lines_text, made_of};
ghost use Rattle.office_rules.specs.Outcomes.{is_ending, is_sending, is_skipping};

use crate::certificate::entry_line;
use crate::words::{day_word, line_of, number_word};
use crate::{Entry, RunNo};
use office_base::Memory;
use office_days::Day;
use office_records::{AggNo, Aggregation, Text};
use office_tree::Tree;
use std::alloc::Global;

/// Appends a line of its kind and what it reports.
pub fn push_line(text: &mut String, kind: &str, reported: &str) -> Result<(), Memory>
    ensures { OnOk result
        (string_bytes text.new
        ≡ string_bytes text.old ++ lines_text ((kind.now ++ reported.now) ∷ [])) }
{
    text.push_str(kind)?;
    text.push_str(reported)?;
    text.push_str("\n")?;
    Ok(())
}

/// Appends a line of its kind and a number.
pub fn push_number(alloc: Global, text: &mut String, kind: &str, number: u64) -> Result<(), Memory>
    ensures { OnOk result
        (string_bytes text.new
        ≡ string_bytes text.old ++ lines_text ((kind.now ++ decimal number) ∷ [])) }
{
    let word = number_word(alloc, number)?;
    push_line(text, kind, word.as_str())
}

/// Appends the line of a day.
fn push_day(alloc: Global, text: &mut String, day: Day) -> Result<(), Memory>
    ensures { OnOk result
        (string_bytes text.new
        ≡ string_bytes text.old ++ lines_text ((codes "DAY " ++ date_text day) ∷ [])) }
{
    let word = day_word(alloc, day)?;
    push_line(text, "DAY ", word.as_str())
}

/// Appends the lines of the run itself.
pub fn push_run(
    alloc: Global,
    text: &mut String,
    run: RunNo,
    day: Day,
    by: &Text,
) -> Result<(), Memory>
    ensures { OnOk result
        (string_bytes text.new
        ≡ string_bytes text.old
        ++ lines_text ((codes "CERTIFICATE " ++ decimal run)
        ∷ (codes "DAY " ++ date_text day) ∷ (codes "BY " ++ by.now) ∷ [])) }
{
    push_number(alloc, text, "CERTIFICATE ", run as u64)?;
    push_day(alloc, text, day)?;
    push_line(text, "BY ", by.text())?;
    Ok(())
}

/// How many entries ended their record.
fn ended(entries: &[&Entry]) -> usize
    ensures { result ≡ count_by (λ entry. is_ending entry.now.outcome) entries.now }
{
    entries
        .iter()
        .filter(|entry| entry.outcome.is_ending())
        .count()
}

/// How many entries sent a copy of their record.
fn sent(entries: &[&Entry]) -> usize
    ensures { result ≡ count_by (λ entry. is_sending entry.now.outcome) entries.now }
{
    entries
        .iter()
        .filter(|entry| entry.outcome.is_sending())
        .count()
}

/// How many entries skipped their record.
fn skipped(entries: &[&Entry]) -> usize
    ensures { result ≡ count_by (λ entry. is_skipping entry.now.outcome) entries.now }
{
    entries
        .iter()
        .filter(|entry| entry.outcome.is_skipping())
        .count()
}

/// Appends how many entries have each kind of outcome.
pub(crate) fn push_counts(
    alloc: Global,
    text: &mut String,
    entries: &[&Entry],
) -> Result<(), Memory>
    ensures { OnOk result
        (let each = map (λ entry. entry.now) entries.now in string_bytes text.new
        ≡ string_bytes text.old
        ++ lines_text ((codes "ENDED " ++ counted is_ending each)
        ∷ (codes "SENT " ++ counted is_sending each)
        ∷ (codes "SKIPPED " ++ counted is_skipping each) ∷ [])) }
{
    push_number(alloc, text, "ENDED ", ended(entries) as u64)?;
    push_number(alloc, text, "SENT ", sent(entries) as u64)?;
    push_number(alloc, text, "SKIPPED ", skipped(entries) as u64)?;
    Ok(())
}

/// Appends the line of an entry, if its record is there.
fn push_entry(alloc: Global, text: &mut String, tree: &Tree, entry: &Entry) -> Result<(), Memory>
    ensures { OnOk result
        (string_bytes text.new
        ≡ string_bytes text.old
        ++ lines_text (made_of (entry_words entry.now)
        (numbered tree.now.records entry.now.record_no))) }
{
    if !tree.has_record(entry.record_no) {
        return Ok(());
    }
    let line = entry_line(alloc, entry, tree.record(entry.record_no))?;
    text.push_str(line.as_str())?;
    Ok(())
}

/// Appends the line of each entry whose record is there.
pub(crate) fn push_entries(
    alloc: Global,
    text: &mut String,
    tree: &Tree,
    entries: &[&Entry],
) -> Result<(), Memory>
    ensures { OnOk result
        (string_bytes text.new
        ≡ string_bytes text.old
        ++ lines_text (flat_map
        (λ e. made_of (entry_words e) (numbered tree.now.records e.record_no))
        (map (λ entry. entry.now) entries.now))) }
{
    for entry in entries {
        push_entry(alloc, text, tree, entry)?;
    }
    Ok(())
}

/// The line of an aggregation.
fn aggregation_line(alloc: Global, number: AggNo, it: &Aggregation) -> Result<String, Memory>
    ensures { IfOk result (λ line. string_bytes line ≡ aggregation_words number it.now ++ 10 ∷ []) }
{
    let digits = number_word(alloc, number as u64)?;
    line_of(alloc, &["AGGREGATION", digits.as_str(), it.ref_text.text()])
}

/// Appends the line of a spent aggregation, if it is there.
fn push_aggregation(
    alloc: Global,
    text: &mut String,
    tree: &Tree,
    number: AggNo,
) -> Result<(), Memory>
    ensures { OnOk result
        (string_bytes text.new
        ≡ string_bytes text.old
        ++ lines_text
        (made_of (aggregation_words number) (numbered tree.now.aggregations number))) }
{
    if !tree.has_aggregation(number) {
        return Ok(());
    }
    let line = aggregation_line(alloc, number, tree.aggregation(number))?;
    text.push_str(line.as_str())?;
    Ok(())
}

/// Appends the line of each aggregation that is there.
fn push_aggregations(
    alloc: Global,
    text: &mut String,
    tree: &Tree,
    spent: &[AggNo],
) -> Result<(), Memory>
    ensures { OnOk result
        (string_bytes text.new
        ≡ string_bytes text.old
        ++ lines_text (flat_map
        (λ (a : ℕ). made_of (aggregation_words a)
        (numbered tree.now.aggregations a)) spent.now)) }
{
    for number in spent {
        push_aggregation(alloc, text, tree, *number)?;
    }
    Ok(())
}

/// Appends how many aggregations are spent, and their lines.
pub(crate) fn push_spent(
    alloc: Global,
    text: &mut String,
    tree: &Tree,
    spent: &[AggNo],
) -> Result<(), Memory>
    ensures { OnOk result
        (string_bytes text.new
        ≡ string_bytes text.old
        ++ lines_text ((codes "SPENT " ++ decimal (length spent.now))
        ∷ flat_map
        (λ (a : ℕ). made_of (aggregation_words a)
        (numbered tree.now.aggregations a)) spent.now)) }
{
    push_number(alloc, text, "SPENT ", spent.len() as u64)?;
    push_aggregations(alloc, text, tree, spent)?;
    Ok(())
}
