//! Replies to lists of acts, and the text of any reply.
ghost use Rattle.std.specs.Prelude.{◌≡◌, codes, false, IfOk, OnOk, string_bytes};
ghost use Rattle.std.specs.Option.{option_copied};
ghost use Rattle.serde_json.specs.Data.{unsigned, number as number_data, put as with_member};
ghost use Rattle.serde_json.specs.View.{members_view, view};
ghost use Rattle.serde_json.specs.Written.{compact_text, has_float};
ghost use Rattle.office_json.specs.Replies.{answers_data, bad_act_data, denial_data, denied_data, fault_data, stopped_data, with_denial};

use crate::answers::{answer_value, numbered_value};
use crate::member_value::{MemberValue, object_of, put_all, reported_text};
use office_base::{Memory, Refusal};
use office_rules::Answer;
use serde_json::{Map, Value};
use std::alloc::{AllocError, Global};

/// Answers in JSON, an array of them in their order. `Memory` comes where an allocation was
/// refused.
pub fn answers_value(alloc: Global, answers: &[Answer]) -> Result<Value, Memory>
    ensures value { IfOk result (λ value. view value ≡ answers_data answers.now) }
    ensures no_float { IfOk result (λ value. has_float (view value) ≡ false) }
{
    let mut values = Vec::new(alloc);
    for answer in answers {
        values.push(answer_value(alloc, answer)?)?;
    }
    Ok(Value::Array(values))
}

/// `{"fault":N}`
pub fn fault_value(alloc: Global, number: u32) -> Result<Value, Memory>
    ensures value { IfOk result (λ value. view value ≡ fault_data number) }
    ensures no_float { IfOk result (λ value. has_float (view value) ≡ false) }
{
    let value = numbered_value(alloc, "fault", number)?;
    Ok(value)
}

/// Puts the answers before a fault, and the number of the fault.
fn put_stopped(
    map: &mut Map<String, Value>,
    alloc: Global,
    answers: Value,
    number: u32,
) -> Result<(), AllocError>
    ensures { OnOk result
        (members_view map.new.entries
        ≡ with_member (codes "fault") (number_data (unsigned number))
        (with_member (codes "answers") (view answers) (members_view map.old.entries))) }
{
    serde_json::put(map, alloc, "answers", answers)?;
    put_all(
        map,
        alloc,
        &[("fault", MemberValue::Number(u64::from(number)))],
    )
}

/// `{"answers":[..],"fault":N}`: the answers to the acts before a fault, and the number of the
/// fault.
#[tactic(auto, using(crate::proofs::Floatless::stopped_has_none))]
pub fn stopped_value(alloc: Global, answers: &[Answer], number: u32) -> Result<Value, Memory>
    ensures value { IfOk result (λ value. view value ≡ stopped_data answers.now number) }
    ensures no_float { IfOk result (λ value. has_float (view value) ≡ false) }
{
    let values = answers_value(alloc, answers)?;
    let mut map = Map::new(alloc);
    put_stopped(&mut map, alloc, values, number)?;
    Ok(Value::Object(map))
}

/// `{"error":"act","place":P,"refused":N}`: the place, from 0, of a value that asks for no act, and
/// the number of its refusal.
pub fn bad_act_value(alloc: Global, place: u64, refusal: Refusal) -> Result<Value, Memory>
    ensures value { IfOk result (λ value. view value ≡ bad_act_data place refusal) }
    ensures no_float { IfOk result (λ value. has_float (view value) ≡ false) }
{
    let number = u64::from(refusal.number());
    let value = object_of(
        alloc,
        &[
            ("error", MemberValue::Text("act")),
            ("place", MemberValue::Number(place)),
            ("refused", MemberValue::Number(number)),
        ],
    )?;
    Ok(value)
}

/// The reason for a denial, by its words.
#[derive(Clone, Copy)]
pub struct DenialText<'a> {
    /// The kind of reason, as `class`.
    pub reason: &'a str,
    /// The rule that forbids it, if it is a rule that does.
    pub rule: Option<&'a str>,
}

/// `{"error":REASON,"rule":RULE}`: a denial; `null` stands for no rule. `Memory` comes if an
/// allocation was refused.
#[tactic(auto, using(crate::proofs::Floatless::denial_has_none), unfolding(crate::specs::Replies::denial_data))]
pub fn denial_value(alloc: Global, denial: &DenialText<'_>) -> Result<Value, Memory>
    ensures value { IfOk result (λ value. view value
        ≡ denial_data denial.now.reason.now (option_copied denial.now.rule)) }
    ensures no_float { IfOk result (λ value. has_float (view value) ≡ false) }
{
    let value = object_of(
        alloc,
        &[
            ("error", MemberValue::Text(denial.reason)),
            ("rule", reported_text(denial.rule)),
        ],
    )?;
    Ok(value)
}

/// Puts the answers before a denied act, the denial, and the place of the act.
#[tactic(auto, unfolding(crate::specs::Replies::with_denial))]
fn put_denied(
    map: &mut Map<String, Value>,
    alloc: Global,
    answers: Value,
    position: u64,
    denial: &DenialText<'_>,
) -> Result<(), AllocError>
    ensures { OnOk result
        (members_view map.new.entries
        ≡ with_denial denial.now.reason.now (option_copied denial.now.rule) position
        (with_member (codes "answers") (view answers) (members_view map.old.entries))) }
{
    serde_json::put(map, alloc, "answers", answers)?;
    put_all(
        map,
        alloc,
        &[
            ("error", MemberValue::Text(denial.reason)),
            ("place", MemberValue::Number(position)),
            ("rule", reported_text(denial.rule)),
        ],
    )
}

/// `{"answers":[..],"error":REASON,"place":P,"rule":RULE}`: the answers to the acts before one that
/// is denied, the denial, and the place of that act, from 0; `null` stands for no rule. `Memory`
/// comes if an allocation was refused.
#[tactic(auto, using(crate::proofs::Floatless::denied_has_none), unfolding(crate::specs::Replies::denied_data, crate::specs::Replies::with_denial))]
pub fn denied_value(
    alloc: Global,
    earlier: &[Answer],
    place: u64,
    denial: &DenialText<'_>,
) -> Result<Value, Memory>
    ensures value { IfOk result (λ value. view value
        ≡ denied_data earlier.now place denial.now.reason.now (option_copied denial.now.rule)) }
    ensures no_float { IfOk result (λ value. has_float (view value) ≡ false) }
{
    let values = answers_value(alloc, earlier)?;
    let mut map = Map::new(alloc);
    put_denied(&mut map, alloc, values, place, denial)?;
    Ok(Value::Object(map))
}

/// The text of a value that has no float, with no space in it. `Memory` comes where an allocation
/// was refused.
pub fn text_of(alloc: Global, value: &Value) -> Result<String, Memory>
    requires { has_float (view value.now) ≡ false }
    ensures { IfOk result (λ text. string_bytes text ≡ compact_text (view value.now)) }
{
    let text = value.to_string(alloc)?;
    Ok(text)
}
