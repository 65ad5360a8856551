//! What goes through the rows of a text.
use crate::written::push_bytes;
use crate::{
    act_tests, answer_tests, due_tests, hold_tests, office_tests, plan_tests, proof_tests,
    reply_tests, request_tests, word_tests,
};
use office_holds::Holds;
use office_machine::Machine;
use std::alloc::Global;
use std::test::Fail;

/// The word of a text at that place from 0, or an empty one where there are fewer: words are
/// between spaces, or between bars where there are any.
pub(crate) fn word(text: &str, at: usize) -> &str {
    let between = if text.contains("|") { "|" } else { " " };
    text.split(between).nth(at).unwrap_or("")
}

/// The words of a text.
pub(crate) fn words_of<'a>(alloc: Global, text: &'a str) -> Option<Vec<&'a str>> {
    let between = if text.contains("|") { "|" } else { " " };
    text.split(between).collect(alloc).ok()
}

/// Of what rows are.
#[derive(Clone, Copy)]
pub(crate) enum Subject {
    Acts,
    Answers,
    Days,
    Holds,
    Offices,
    Plans,
    Digests,
    Words,
    /// Bytes come in pieces of at most so many.
    Requests(usize),
    /// The same, for what is answered.
    Replies(usize),
}

/// What is reported of a row by its first word and the bytes that it asks about.
fn report(
    subject: Subject,
    office: &mut Machine,
    holds: &mut Holds,
    word: &str,
    asked: &[u8],
    out: &mut Vec<u8>,
) -> Option<()> {
    match subject {
        Subject::Acts => act_tests::report(word, asked, out),
        Subject::Answers => answer_tests::report(word, asked, out),
        Subject::Days => due_tests::report(word, asked, out),
        Subject::Holds => hold_tests::report(office, holds, word, asked, out),
        Subject::Offices => office_tests::report(office, word, asked, out),
        Subject::Plans => plan_tests::report(word, asked, out),
        Subject::Digests => proof_tests::report(word, asked, out),
        Subject::Words => word_tests::report(word, asked, out),
        Subject::Requests(most) => request_tests::report(most, word, asked, out),
        Subject::Replies(most) => reply_tests::report(most, word, asked, out),
    }
}

/// Whether a line is a row: not empty and no remark.
fn is_row(line: &str) -> bool {
    !line.is_empty() && !line.starts_with("#")
}

/// A row: its first word, the bytes that it asks about, and those that must come of it.
fn row_of(alloc: Global, line: &str) -> Option<(&str, Vec<u8>, Vec<u8>)> {
    let (ask, answer) = line.split_once(" = ")?;
    let (word, what) = ask.split_once(" ").unwrap_or((ask, "nothing"));
    let mut asked = Vec::new(alloc);
    let mut wanted = Vec::new(alloc);
    match push_bytes(&mut asked, what).and(push_bytes(&mut wanted, answer)) {
        Some(()) => Some((word, asked, wanted)),
        None => None,
    }
}

/// Whether what is reported of a row is its answer.
fn is_met(
    alloc: Global,
    subject: Subject,
    office: &mut Machine,
    holds: &mut Holds,
    row: &str,
    reported: &mut Vec<u8>,
) -> bool {
    match row_of(alloc, row) {
        Some((word, asked, wanted)) => {
            report(subject, office, holds, word, &asked, reported).is_some() && *reported == wanted
        }
        None => false,
    }
}

/// Reports the rows of a subject, each of which must have its answer.
fn must_go(
    alloc: Global,
    subject: Subject,
    office: &mut Machine,
    holds: &mut Holds,
    rows: &str,
) -> Result<(), Fail> {
    let mut reported = Vec::new(alloc);
    for (before, line) in rows.lines().enumerate() {
        let row = line.trim();
        reported.clear();
        if is_row(row) && !is_met(alloc, subject, office, holds, row, &mut reported) {
            return Err(Fail::new(format_args!("line {before}: {row}")));
        }
    }
    Ok(())
}

/// The rows of a subject must hold, reported to a new office after those of a start.
pub(crate) fn must_hold(
    alloc: Global,
    subject: Subject,
    start: &str,
    rows: &str,
) -> Result<(), Fail> {
    let mut office = Machine::new(alloc);
    let mut holds = Holds::new(alloc);
    must_go(alloc, subject, &mut office, &mut holds, start)?;
    must_go(alloc, subject, &mut office, &mut holds, rows)
}
