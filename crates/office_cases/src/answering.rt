//! Answers of the office as rows write them.
use office_base::Refusal;
use office_rules::Answer;
use std::io::Write;

/// A refusal, by its number.
pub(crate) fn push_refused(out: &mut Vec<u8>, refusal: Refusal) -> Option<()> {
    write!(out, "refused {}", refusal.number()).ok()
}

/// What rows write for an answer: `Done`, `Number(1)`, `Same(1)`, `Step(1, Destroyed)`,
/// `RunClosed(1)`, and `refused 5`.
pub(crate) fn push_answer(out: &mut Vec<u8>, answer: Answer) -> Option<()> {
    match answer {
        Answer::Refused(refusal) => push_refused(out, refusal),
        _ => write!(out, "{answer:?}").ok(),
    }
}
