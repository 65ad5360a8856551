//! The lines of a certificate, read again.
ghost use Rattle.std.specs.Prelude.{◌≡◌, List, codes, filter, length, map, nat_eq, IfOk, MatchResult};
ghost use Rattle.std.specs.List.{All, starts_with};
ghost use Rattle.office_rules.specs.Certificates.{tabbed};
ghost use Rattle.office_evidence.specs.Parsed.{IsWellFormedLine, IsWellFormedSpent, columns_of, spent_columns};
ghost use Rattle.office_evidence.specs.Reading.{Gives};
ghost use Rattle.office_evidence.specs.declared.parsed.EntryLine.{EntryLine};
ghost use Rattle.office_evidence.specs.declared.parsed.SpentLine.{SpentLine};

use crate::words::{Unread, code_in, due_in, hold_in, number_in, outcome_in, parts, text_in};
use crate::{EntryLine, SpentLine};
use office_rules::read_digest;
use std::alloc::Global;

/// The line of an entry with these words.
fn entry_of(alloc: Global, words: &[&str]) -> Result<EntryLine, Unread>
    requires { length words.now ≡ 11 }
    ensures every { (it : EntryLine) → IsWellFormedLine it
        → map (λ word. word.now) words.now ≡ columns_of it → Gives result it }
    ensures formed { IfOk result IsWellFormedLine }
{
    let record_no = number_in(words[1]).ok_or(Unread::NotThere)?;
    let outcome = outcome_in(words[2]).ok_or(Unread::NotThere)?;
    let ref_text = text_in(alloc, words[3])?;
    let class = code_in(alloc, words[4])?;
    let schedule = code_in(alloc, words[5])?;
    let due = due_in(words[6]).ok_or(Unread::NotThere)?;
    let hold = hold_in(alloc, outcome, words[7])?;
    let confirmed_by = text_in(alloc, words[8])?;
    let length = number_in(words[9]).ok_or(Unread::NotThere)?;
    let digest = read_digest(words[10]).ok_or(Unread::NotThere)?;
    let line = EntryLine {
        record_no,
        outcome,
        ref_text,
        class,
        schedule,
        due,
        hold,
        confirmed_by,
        length,
        digest,
    };
    line.formed();
    Ok(line)
}

/// The line of an entry.
fn read_entry(alloc: Global, line: &str) -> Result<EntryLine, Unread>
    ensures every { (it : EntryLine) → IsWellFormedLine it → line.now ≡ tabbed (columns_of it)
        → Gives result it }
    ensures formed { IfOk result IsWellFormedLine }
{
    let words = parts(alloc, line, '\t')?;
    if words.len() != 11 {
        return Err(Unread::NotThere);
    }
    entry_of(alloc, &words)
}

/// The line of a spent aggregation with these words.
fn spent_of(alloc: Global, words: &[&str]) -> Result<SpentLine, Unread>
    requires { length words.now ≡ 3 }
    ensures every { (it : SpentLine) → IsWellFormedSpent it
        → map (λ word. word.now) words.now ≡ spent_columns it → Gives result it }
    ensures formed { IfOk result IsWellFormedSpent }
{
    let number = number_in(words[1]).ok_or(Unread::NotThere)?;
    let ref_text = text_in(alloc, words[2])?;
    let spent = SpentLine { number, ref_text };
    spent.formed();
    Ok(spent)
}

/// The line of a spent aggregation.
fn read_spent(alloc: Global, line: &str) -> Result<SpentLine, Unread>
    ensures every { (it : SpentLine) → IsWellFormedSpent it → line.now ≡ tabbed (spent_columns it)
        → Gives result it }
    ensures formed { IfOk result IsWellFormedSpent }
{
    let words = parts(alloc, line, '\t')?;
    if words.len() != 3 {
        return Err(Unread::NotThere);
    }
    spent_of(alloc, &words)
}

/// Whether the line is that of an entry.
fn is_entry(line: &str) -> bool
    ensures { result ≡ starts_with nat_eq line.now (codes "ENTRY") }
{
    line.starts_with("ENTRY")
}

/// Whether the line is that of a spent aggregation.
fn is_spent(line: &str) -> bool
    ensures { result ≡ starts_with nat_eq line.now (codes "AGGREGATION") }
{
    line.starts_with("AGGREGATION")
}

/// The lines of entries among these.
pub(crate) fn entries_in(alloc: Global, lines: &[&str]) -> Result<Vec<EntryLine>, Unread>
    ensures every { (them : List EntryLine) → All IsWellFormedLine them
        → filter (λ line. starts_with nat_eq line (codes "ENTRY")) (map (λ line. line.now) lines.now)
        ≡ map (λ it. tabbed (columns_of it)) them
        → MatchResult result (λ read. read.items ≡ them) (λ e. e ≡ Unread.Memory) }
    ensures formed { IfOk result (λ read. All IsWellFormedLine read.items) }
{
    let mut entries = Vec::new(alloc);
    for line in lines {
        if is_entry(line) {
            entries.push(read_entry(alloc, line)?)?;
        }
    }
    Ok(entries)
}

/// The lines of spent aggregations among these.
pub(crate) fn spent_in(alloc: Global, lines: &[&str]) -> Result<Vec<SpentLine>, Unread>
    ensures every { (them : List SpentLine) → All IsWellFormedSpent them
        → filter (λ line. starts_with nat_eq line (codes "AGGREGATION"))
        (map (λ line. line.now) lines.now)
        ≡ map (λ it. tabbed (spent_columns it)) them
        → MatchResult result (λ read. read.items ≡ them) (λ e. e ≡ Unread.Memory) }
    ensures formed { IfOk result (λ read. All IsWellFormedSpent read.items) }
{
    let mut spent = Vec::new(alloc);
    for line in lines {
        if is_spent(line) {
            spent.push(read_spent(alloc, line)?)?;
        }
    }
    Ok(spent)
}
