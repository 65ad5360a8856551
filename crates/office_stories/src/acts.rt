//! Acts at a desk, and their answers in JSON.
use crate::failures::{failure, must};
use crate::phrases::json_of;
use office_desk::Desk;
use office_json::{answer_value, read_acts, text_of};
use office_rules::{Act, Answer};
use office_store::Fault;
use sqlite::Alter;
use std::alloc::{AllocError, Global};
use std::test::Fail;

/// Whether words ask for an act, or that the open run is resumed.
pub(crate) fn is_act(words: &str) -> bool {
    words == "resume" || words.starts_with('{') || words.starts_with('2')
}

/// The acts that words ask for, which are between ` & `.
pub(crate) fn acts_of(alloc: Global, words: &str) -> Result<Vec<Act>, Fail> {
    let values = joined(alloc, words, ",")?;
    let list = format!(in alloc; "[{values}]")?;
    match read_acts(alloc, list.as_bytes()) {
        Ok(acts) => Ok(acts),
        Err(_) => Err(failure("no act", words)),
    }
}

/// The JSON of words that are between ` & `, with that between them.
fn joined(alloc: Global, words: &str, between: &str) -> Result<String, Fail> {
    let mut text = String::new(alloc);
    for part in words.split(" & ") {
        if !text.is_empty() {
            text.push_str(between)?;
        }
        text.push_str(json_of(alloc, part)?.as_str())?;
    }
    Ok(text)
}

/// The JSON of answers that are between ` & `, a line for each.
pub(crate) fn lines_of(alloc: Global, answers: &str) -> Result<String, Fail> {
    joined(alloc, answers, "\n")
}

/// Resumes the open run.
fn resume<S: Alter>(desk: &mut Desk<S>, answers: &mut Vec<Answer>) -> Result<(), Fault> {
    let answer = desk.resume()?;
    answers.push(answer).or(Err(Fault::Memory))
}

/// What the words ask for is done, acts or that the open run is resumed.
fn done<S: Alter>(
    alloc: Global,
    desk: &mut Desk<S>,
    words: &str,
    answers: &mut Vec<Answer>,
) -> Result<Result<(), Fault>, Fail> {
    if words == "resume" {
        return Ok(resume(desk, answers));
    }
    let acts = acts_of(alloc, words)?;
    Ok(desk.perform_all(acts.as_slice(), answers))
}

/// An answer in JSON.
pub(crate) fn answer_text(alloc: Global, answer: &Answer) -> Result<String, Fail> {
    let value = answer_value(alloc, answer)?;
    Ok(text_of(alloc, &value)?)
}

/// A fault in JSON.
fn fault_text(alloc: Global, fault: Fault) -> Result<String, Fail> {
    Ok(format!(in alloc; "{{\"fault\":{}}}", fault.number())?)
}

/// One line more.
fn push_line(text: &mut String, line: &str) -> Result<(), AllocError> {
    if !text.is_empty() {
        text.push('\n')?;
    }
    text.push_str(line)
}

/// The answers to what the words ask for, in JSON, a line for each, and then the fault.
pub(crate) fn answered<S: Alter>(
    alloc: Global,
    desk: &mut Desk<S>,
    words: &str,
) -> Result<String, Fail> {
    let mut answers = Vec::new(alloc);
    let ended = done(alloc, desk, words, &mut answers)?;
    let mut text = String::new(alloc);
    for answer in answers.iter() {
        push_line(&mut text, answer_text(alloc, answer)?.as_str())?;
    }
    if let Err(fault) = ended {
        push_line(&mut text, fault_text(alloc, fault)?.as_str())?;
    }
    Ok(text)
}

/// What the words ask for is done at a desk, and must be answered so.
pub(crate) fn report_act<S: Alter>(
    alloc: Global,
    desk: &mut Desk<S>,
    words: &str,
    answer: &str,
) -> Result<(), Fail> {
    let reported = answered(alloc, desk, words)?;
    let wanted = lines_of(alloc, answer)?;
    must(
        reported.as_str() == wanted.as_str(),
        words,
        reported.as_str(),
    )
}
