//! Answers, faults and what a failing writer leaves of them, as JSON.
ghost use Rattle.std.specs.Prelude.{◌≡◌, IfOk, false};
ghost use Rattle.serde_json.specs.View.{view};
ghost use Rattle.serde_json.specs.Written.{has_float};

use crate::streams::Narrow;
use crate::written::push;
use office_base::{Io, Memory, Refusal};
use office_json::{
    answer_value, answers_value, bad_act_value, fault_value, stopped_value, text_of, write_answers,
};
use office_proof::Outcome;
use office_rules::Answer;
use serde_json::Value;
use std::alloc::Global;

pub(crate) const ROWS: &str = r#"
    # one answer alone, and as a line
    value Done = {"done":true}
    value Number(1) = {"number":1}
    value Same(4294967295) = {"number":4294967295,"same":true}
    value Step(1, Destroyed) = {"outcome":"destroyed","record":1}
    value Step(20, Skipped) = {"outcome":"skipped","record":20}
    value RunClosed(1) = {"certificate":1}
    value Refused(NoSuch) = {"refused":5}
    lines Done = {"done":true}\n
    lines Number(1) = {"number":1}\n
    lines Same(4294967295) = {"number":4294967295,"same":true}\n
    lines Step(1, Destroyed) = {"outcome":"destroyed","record":1}\n
    lines Step(20, Skipped) = {"outcome":"skipped","record":20}\n
    lines RunClosed(1) = {"certificate":1}\n
    lines Refused(NoSuch) = {"refused":5}\n

    # the lines stand in the order of the answers; each row is also written with too little room
    lines Number(7); Refused(WrongDigest); Done = {"number":7}\n{"refused":20}\n{"done":true}\n
    lines nothing = nothing
    lines Same(7); Step(2, Sent) = {"number":7,"same":true}\n{"outcome":"sent","record":2}\n

    # answers to a list of acts
    answers Number(1); Refused(NoSuch) = [{"number":1},{"refused":5}]
    answers nothing = []
    stopped-by-31 Number(1); Refused(NoSuch) = {"answers":[{"number":1},{"refused":5}],"fault":31}

    # a fault alone, and an act that does not read
    fault-30 = {"fault":30}
    bad-act-18446744073709551615-3 = {"error":"act","place":18446744073709551615,"refused":3}
"#;

/// The answer that is written so.
fn answer_of(written: &str) -> Option<Answer> {
    match written {
        "Done" => Some(Answer::Done),
        "Number(1)" => Some(Answer::Number(1)),
        "Number(7)" => Some(Answer::Number(7)),
        "Same(7)" => Some(Answer::Same(7)),
        "Same(4294967295)" => Some(Answer::Same(4_294_967_295)),
        "Step(1, Destroyed)" => Some(Answer::Step(1, Outcome::Destroyed)),
        "Step(2, Sent)" => Some(Answer::Step(2, Outcome::Sent)),
        "Step(20, Skipped)" => Some(Answer::Step(20, Outcome::Skipped)),
        "RunClosed(1)" => Some(Answer::RunClosed(1)),
        "Refused(NoSuch)" => Some(Answer::Refused(Refusal::NoSuch)),
        "Refused(WrongDigest)" => Some(Answer::Refused(Refusal::WrongDigest)),
        _ => None,
    }
}

/// Appends the answers that are written so, with `; ` between them.
fn push_answers(answers: &mut Vec<Answer>, written: &str) -> Option<()> {
    for answer in written.split("; ") {
        if !answer.is_empty() {
            answers.push(answer_of(answer)?).ok()?;
        }
    }
    Some(())
}

/// Appends the lines of answers, where a writer fails that has room for fewer bytes.
fn push_lines(answers: &[Answer], out: &mut Vec<u8>) -> Option<()> {
    write_answers(answers, out).ok()?;
    for room in 0..out.len() {
        if write_answers(answers, &mut Narrow { room }) != Err(Io) {
            return None;
        }
    }
    let room = out.len();
    write_answers(answers, &mut Narrow { room }).ok()
}

/// The value of answers, of the fault 30, or of an act that does not read.
fn value_of(alloc: Global, word: &str, answers: &[Answer]) -> Result<Value, Memory>
    ensures { IfOk result (λ value. has_float (view value) ≡ false) }
{
    match word {
        "value" => answer_value(alloc, answers.first().unwrap_or(&Answer::Done)),
        "answers" => answers_value(alloc, answers),
        "stopped-by-31" => stopped_value(alloc, answers, 31),
        "fault-30" => fault_value(alloc, 30),
        "bad-act-18446744073709551615-3" => bad_act_value(alloc, u64::MAX, Refusal::BadNumber),
        _ => Err(Memory),
    }
}

/// The text of such a value.
fn text_reported(alloc: Global, word: &str, answers: &[Answer]) -> Result<String, Memory> {
    let value = value_of(alloc, word, answers)?;
    text_of(alloc, &value)
}

/// Reports answers by a word.
fn report_answers(word: &str, answers: &[Answer], out: &mut Vec<u8>) -> Option<()> {
    if word == "lines" {
        return push_lines(answers, out);
    }
    let text = text_reported(*out.allocator(), word, answers).ok()?;
    push(out, text.as_str())
}

pub(crate) fn report(word: &str, asked: &[u8], out: &mut Vec<u8>) -> Option<()> {
    let text = str::from_utf8(asked).ok()?;
    let mut answers = Vec::new(*out.allocator());
    push_answers(&mut answers, text)?;
    report_answers(word, &answers, out)
}
