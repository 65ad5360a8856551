//! The answer to one act as a value of JSON.
ghost use Rattle.std.specs.Prelude.{◌≡◌, false, IfOk};
ghost use Rattle.serde_json.specs.View.{view};
ghost use Rattle.serde_json.specs.Written.{has_float};
ghost use Rattle.office_json.specs.Answers.{answer_data, numbered_data, same_data, step_data};

use crate::member_value::{MemberValue, object_of};
use office_base::Memory;
use office_rules::Answer;
use serde_json::Value;
use std::alloc::{AllocError, Global};

/// `{"done":true}`
fn done_value(alloc: Global) -> Result<Value, AllocError>
    ensures { IfOk result (λ value. view value ≡ answer_data Answer.Done) }
{
    object_of(alloc, &[("done", MemberValue::Flag(true))])
}

/// `{NAME:N}`
pub(crate) fn numbered_value(alloc: Global, name: &str, number: u32) -> Result<Value, AllocError>
    ensures { IfOk result (λ value. view value ≡ numbered_data name.now number) }
{
    object_of(alloc, &[(name, MemberValue::Number(u64::from(number)))])
}

/// `{"number":N,"same":true}`
fn same_value(alloc: Global, number: u32) -> Result<Value, AllocError>
    ensures { IfOk result (λ value. view value ≡ same_data number) }
{
    let number = MemberValue::Number(u64::from(number));
    object_of(
        alloc,
        &[("number", number), ("same", MemberValue::Flag(true))],
    )
}

/// `{"outcome":WORD,"record":N}`
fn step_value(alloc: Global, record_no: u32, word: &str) -> Result<Value, AllocError>
    ensures { IfOk result (λ value. view value ≡ step_data record_no word.now) }
{
    let record = MemberValue::Number(u64::from(record_no));
    object_of(
        alloc,
        &[("outcome", MemberValue::Text(word)), ("record", record)],
    )
}

/// An answer in JSON. `Memory` comes where an allocation was refused.
#[tactic(auto, using(crate::proofs::Floatless::answer_has_none))]
pub fn answer_value(alloc: Global, answer: &Answer) -> Result<Value, Memory>
    ensures value { IfOk result (λ value. view value ≡ answer_data answer.now) }
    ensures no_float { IfOk result (λ value. has_float (view value) ≡ false) }
{
    let value = match *answer {
        Answer::Done => done_value(alloc),
        Answer::Number(number) => numbered_value(alloc, "number", number),
        Answer::Same(record_no) => same_value(alloc, record_no),
        Answer::Step(record_no, outcome) => step_value(alloc, record_no, outcome.text()),
        Answer::RunClosed(run) => numbered_value(alloc, "certificate", run),
        Answer::Refused(refusal) => {
            numbered_value(alloc, "refused", u32::from(refusal.number()))
        }
    }?;
    Ok(value)
}
