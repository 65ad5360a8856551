//! The text of a run's certificate, and the line of an entry in it.
ghost use Rattle.std.specs.Prelude.{◌≡◌, ◌∷◌, ◌++◌, [], codes, IfOk, OnOk, map};
ghost use Rattle.std.specs.Option.{unwrap_or};
ghost use Rattle.std.specs.String.{string_bytes};
ghost use Rattle.office_rules.specs.Certificates.{certificate_text, entry_line, sealed, tabbed};
ghost use Rattle.office_rules.specs.Outcomes.{outcome_word};

use crate::lines::{push_counts, push_entries, push_line, push_run, push_spent};
use crate::words::{due_word, hold_word, line_of, number_word, outcome_of};
use crate::{Entry, RunNo, digest_of};
use office_base::Memory;
use office_days::Day;
use office_records::{AggNo, Record, Text};
use office_tree::Tree;
use std::alloc::Global;

/// The line of an entry and its record, where what is no text in them is written as one.
fn line_reported<'a>(
    alloc: Global,
    entry: &'a Entry,
    head: &'a Record,
    number: &'a str,
    due: &'a str,
    length: &'a str,
    digest: &'a str,
) -> Result<String, Memory>
    ensures { IfOk result
        (λ line. string_bytes line
        ≡ tabbed (codes "ENTRY" ∷ number.now ∷ outcome_word entry.now.outcome
        ∷ head.now.ref_text ∷ entry.now.class ∷ entry.now.schedule ∷ due.now
        ∷ unwrap_or entry.now.hold (codes "-") ∷ entry.now.confirmed_by ∷ length.now
        ∷ digest.now ∷ []) ++ 10 ∷ []) }
{
    line_of(
        alloc,
        &[
            "ENTRY",
            number,
            outcome_of(entry),
            head.ref_text.text(),
            entry.class.text(),
            entry.schedule.text(),
            due,
            hold_word(entry),
            entry.confirmed_by.text(),
            length,
            digest,
        ],
    )
}

/// The line of an entry in a certificate, ended by a line feed: the word ENTRY and ten columns,
/// parted by tabs, of which ref, length and digest are those of its record's head.
pub fn entry_line(alloc: Global, entry: &Entry, head: &Record) -> Result<String, Memory>
    ensures { IfOk result (λ line. string_bytes line ≡ entry_line entry.now head.now) }
{
    let number = number_word(alloc, entry.record_no as u64)?;
    let due = due_word(alloc, entry.due)?;
    let length = number_word(alloc, head.length as u64)?;
    let digest = hex::encode(alloc, &head.digest)?;
    line_reported(
        alloc,
        entry,
        head,
        number.as_str(),
        due.as_str(),
        length.as_str(),
        digest.as_str(),
    )
}

/// Appends the last line: the digest of the text so far.
pub fn seal(alloc: Global, text: &mut String) -> Result<(), Memory>
    ensures { OnOk result (string_bytes text.new ≡ sealed (string_bytes text.old)) }
{
    let digest = digest_of(text.as_bytes());
    let digits = hex::encode(alloc, &digest)?;
    push_line(text, "SHA256 ", digits.as_str())
}

/// The text of a run's certificate: its number, day and opener, how many entries have each kind of
/// outcome, the line of each entry in the order given, the lines of the spent aggregations, and
/// last the SHA-256 digest of all bytes before that line. An entry or a number of which the tree
/// has no record or aggregation gets no line.
pub fn certificate_text(
    alloc: Global,
    tree: &Tree,
    run: RunNo,
    day: Day,
    by: &Text,
    entries: &[&Entry],
    spent: &[AggNo],
) -> Result<String, Memory>
    ensures { IfOk result
        (λ text. string_bytes text
        ≡ certificate_text tree.now run day by.now (map (λ entry. entry.now) entries.now)
        spent.now) }
{
    let mut text = String::new(alloc);
    push_run(alloc, &mut text, run, day, by)?;
    push_counts(alloc, &mut text, entries)?;
    push_entries(alloc, &mut text, tree, entries)?;
    push_spent(alloc, &mut text, tree, spent)?;
    seal(alloc, &mut text)?;
    Ok(text)
}
