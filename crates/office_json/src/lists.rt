//! The acts that a JSON array asks for.
ghost use Rattle.std.specs.Prelude.{◌≡◌, IfErr, IfOk, MatchResult, Ok, option_map};
ghost use Rattle.serde_json.specs.View.{items_view, view};
ghost use Rattle.office_json.specs.Lists.{IsListFault, acts_from, acts_in, json_of};

use crate::ReadFault;
use crate::acts::read_act;
use office_base::{Memory, Refusal};
use office_rules::Act;
use serde_json::Value;
use std::alloc::Global;

/// Why no acts were read.
#[derive(Clone, Copy, PartialEq, Eq, Debug)]
pub enum ListFault {
    /// The bytes are no JSON, or no array.
    NotJson,
    /// The first value that asks for no act, by its place from 0, and why.
    BadAct(u64, Refusal),
    /// Memory was asked for and refused.
    Memory,
}

/// The value that bytes are; `None` where they are no JSON.
fn json_in(alloc: Global, bytes: &[u8]) -> Result<Option<Value>, Memory>
    ensures { IfOk result (λ o. option_map view o ≡ json_of bytes.now) }
{
    match Value::from_slice(alloc, bytes) {
        Ok(value) => Ok(Some(value)),
        Err(error) if error.is_memory() => Err(Memory),
        Err(_) => Ok(None),
    }
}

/// The acts of values, or the first value that asks for none.
#[tactic(auto, using(crate::proofs::ListSteps::one_more))]
fn read_all(alloc: Global, values: &[Value]) -> Result<Vec<Act>, ListFault>
    ensures { MatchResult result
        (λ acts. acts_from 0 (items_view values.now) ≡ Ok acts.items)
        (λ fault. IsListFault (acts_from 0 (items_view values.now)) fault) }
{
    let mut acts = Vec::new(alloc);
    let mut place = 0;
    for value in values {
        match read_act(alloc, value) {
            Ok(act) => acts.push(act).or(Err(ListFault::Memory))?,
            Err(ReadFault::Refused(refusal)) => return Err(ListFault::BadAct(place, refusal)),
            Err(ReadFault::Memory) => return Err(ListFault::Memory),
        }
        place += 1;
    }
    Ok(acts)
}

/// The acts that the bytes of a JSON array ask for, in their order. `NotJson` comes where the bytes
/// are no JSON or no array, else `BadAct` for the first value that asks for no act, with its
/// refusal as [`read_act`] reports it. Lack of memory may be reported of any bytes.
#[tactic(auto, unfolding(crate::specs::Lists::acts_in))]
pub fn read_acts(alloc: Global, bytes: &[u8]) -> Result<Vec<Act>, ListFault>
    ensures ok { IfOk result (λ acts. acts_in bytes.now ≡ Ok acts.items) }
    ensures err { IfErr result (λ fault. IsListFault (acts_in bytes.now) fault) }
{
    match json_in(alloc, bytes) {
        Ok(Some(Value::Array(values))) => read_all(alloc, &values),
        Ok(_) => Err(ListFault::NotJson),
        Err(Memory) => Err(ListFault::Memory),
    }
}
