//! Acts that a visitor asks for, as far as each is permitted.
ghost use Rattle.std.specs.Prelude.{◌≡◌, IfOk, slice_get};
ghost use Rattle.std.specs.Option.{option_copied};
ghost use Rattle.office_gate.specs.Answering.{IsAnsweredPermitted, PerformsUnlessDenied};
ghost use Rattle.office_gate.specs.Performing.{ArePerformedFor, lasting_denial_from, next_denial, permitted_reply};
ghost use Rattle.office_gate.specs.Visitors.{visitor_of};
ghost use Rattle.office_http.specs.Receiving.{acts};
ghost use Rattle.office_http.specs.Replies.{response};
ghost use Rattle.office_wire.specs.Answering.{IsGiven, IsGivenUnavailable};
ghost use Rattle.office_wire.specs.Calling.{AnsweredAt};

use crate::denials::denied_reply;
use office_access::Denial;
use office_base::Memory;
use office_desk::Desk;
use office_guard::{Keeper, Snapshot};
use office_http::{Reply, RequestError, error_reply};
use office_json::{ListFault, read_acts};
use office_machine::Machine;
use office_rules::{Act, Answer};
use office_wire::{acts_reply, bad_act_reply, stopped_reply};
use sqlite::Alter;
use std::alloc::Global;

/// Finds the first act that is denied to the visitor in whatever office, and its place.
fn deny_anywhere(keeper: &Keeper<'_>, acts: &[Act]) -> Option<(usize, Denial)>
    ensures { result ≡ lasting_denial_from (visitor_of keeper.now) 0 acts.now }
{
    for (place, act) in acts.iter().enumerate() {
        if let Some(denial) = keeper
            .policy
            .permit_anywhere(keeper.today, &keeper.name, act)
        {
            return Some((place, denial));
        }
    }
    None
}

/// The act at a place, from 0; `None` past the last one.
fn act_at(acts: &[Act], place: usize) -> Option<&Act>
    ensures { option_copied result ≡ slice_get acts.now place }
{
    if place < acts.len() {
        Some(&acts[place])
    } else {
        None
    }
}

/// Finds why the act that comes next is denied to the visitor, if there is one.
fn deny_next(keeper: &Keeper<'_>, machine: &Machine, next: Option<&Act>) -> Option<Denial>
    ensures { result ≡ next_denial (visitor_of keeper.now) machine.now (option_copied next.entry) }
{
    match next {
        Some(act) => keeper
            .policy
            .permit(&Snapshot { machine }, keeper.today, &keeper.name, act),
        None => None,
    }
}

/// Answers acts that were performed up to one that is denied, or all.
fn permitted_reply(
    alloc: Global,
    denial: Option<Denial>,
    answers: &[Answer],
) -> Result<Reply, Memory>
    ensures { IfOk result (λ reply. response reply ≡ permitted_reply denial answers.now) }
{
    match denial {
        Some(denial) => denied_reply(alloc, denial, answers.len(), answers),
        None => acts_reply(alloc, answers),
    }
}

/// Performs the acts before the first that is not permitted to the visitor, and answers them.
fn perform_permitted<S: Alter>(
    alloc: Global,
    keeper: &Keeper<'_>,
    desk: &mut Desk<S>,
    acts: &[Act],
) -> Result<Reply, Memory>
    ensures { AnsweredAt S.Store desk.old desk.new (λ t. ArePerformedFor (IsGiven result) S.Store
        (visitor_of keeper.now) t acts.now desk.new) (Unit {0}) (IsGivenUnavailable result) }
{
    let mut answers = Vec::new(alloc);
    match desk.perform_guarded(keeper, acts, &mut answers) {
        Ok(_) => {
            let answers = answers.as_slice();
            let denial = deny_next(keeper, desk.machine(), act_at(acts, answers.len()));
            permitted_reply(alloc, denial, answers)
        }
        Err(fault) => stopped_reply(alloc, answers.as_slice(), fault),
    }
}

/// Performs acts for a visitor, as far as each is permitted in the office after those before it, and
/// answers them. None is performed if one of them is denied in whatever office. `Memory` comes if
/// memory was refused for the answer, and what was done is kept then.
pub fn perform_for<S: Alter>(
    alloc: Global,
    keeper: &Keeper<'_>,
    desk: &mut Desk<S>,
    acts: &[Act],
) -> Result<Reply, Memory>
    ensures { AnsweredAt S.Store desk.old desk.new (λ t. PerformsUnlessDenied (IsGiven result)
        S.Store (visitor_of keeper.now) t acts.now
        (lasting_denial_from (visitor_of keeper.now) 0 acts.now) desk.new) (Unit {0})
        (IsGivenUnavailable result) }
{
    match deny_anywhere(keeper, acts) {
        Some((place, denial)) => denied_reply(alloc, denial, place, &[]),
        None => perform_permitted(alloc, keeper, desk, acts),
    }
}

/// Performs the acts of a body as far as each is permitted to the visitor, and answers them.
pub(crate) fn perform_body_for<S: Alter>(
    alloc: Global,
    keeper: &Keeper<'_>,
    desk: &mut Desk<S>,
    body: &[u8],
) -> Result<Reply, Memory>
    ensures { IsAnsweredPermitted S.Store (visitor_of keeper.now) (acts body.now) result desk.old
        desk.new }
{
    match read_acts(alloc, body) {
        Ok(acts) => perform_for(alloc, keeper, desk, acts.as_slice()),
        Err(ListFault::NotJson) => Ok(error_reply(RequestError::Json)),
        Err(ListFault::BadAct(place, refusal)) => bad_act_reply(alloc, place, refusal),
        Err(ListFault::Memory) => Err(Memory),
    }
}
