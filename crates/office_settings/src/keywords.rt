//! The keywords of the settings.
ghost use Rattle.std.specs.Prelude.{◌≡◌, map};
ghost use Rattle.std.specs.List.{list_all};
ghost use Rattle.office_settings.specs.Keywords.{is_act, is_hold_act, is_on_or_off, is_plan_act, is_run_act, is_thing};

use crate::tokens::is;

/// Reports whether a word is an act on the plan, the classes or the files.
#[tactic(auto, unfolding(crate::specs::Keywords::is_plan_act))]
fn is_plan_act(token: &[u8]) -> bool
    ensures { result ≡ is_plan_act token.now }
{
    is(token, "add-schedule")
        || is(token, "add-class")
        || is(token, "set-class-schedule")
        || is(token, "add-aggregation")
        || is(token, "close-aggregation")
        || is(token, "add-record")
        || is(token, "set-record-schedule")
        || is(token, "reclassify")
}

/// Reports whether a word is an act on a hold, or a decision about a record.
#[tactic(auto, unfolding(crate::specs::Keywords::is_hold_act))]
fn is_hold_act(token: &[u8]) -> bool
    ensures { result ≡ is_hold_act token.now }
{
    is(token, "place-hold")
        || is(token, "hold-on")
        || is(token, "hold-off")
        || is(token, "lift-hold")
        || is(token, "confirm")
        || is(token, "review")
}

/// Reports whether a word is an act of a run, or one beside the acts of a list.
#[tactic(auto, unfolding(crate::specs::Keywords::is_run_act))]
fn is_run_act(token: &[u8]) -> bool
    ensures { result ≡ is_run_act token.now }
{
    is(token, "open-run")
        || is(token, "run-step")
        || is(token, "receipt")
        || is(token, "event")
        || is(token, "resume")
        || is(token, "vault")
        || is(token, "later-day")
}

/// Reports whether a word is a kind of act, or `resume`, `vault` or `later-day`.
#[tactic(auto, unfolding(crate::specs::Keywords::is_act))]
fn is_act(token: &[u8]) -> bool
    ensures { result ≡ is_act token.now }
{
    is_plan_act(token) || is_hold_act(token) || is_run_act(token)
}

/// Reports whether a word is a thing to read.
#[tactic(auto, unfolding(crate::specs::Keywords::is_thing))]
fn is_thing(token: &[u8]) -> bool
    ensures { result ≡ is_thing token.now }
{
    is(token, "records")
        || is(token, "contents")
        || is(token, "lists")
        || is(token, "certificates")
        || is(token, "catalogue")
        || is(token, "history")
        || is(token, "health")
}

/// Reports whether a word is a rule that is on or off.
#[tactic(auto, unfolding(crate::specs::Keywords::is_on_or_off))]
pub(crate) fn is_on_or_off(token: &[u8]) -> bool
    ensures { result ≡ is_on_or_off token.now }
{
    is(token, "opener-does-not-carry-out")
        || is(token, "confirmer-does-not-open")
        || is(token, "sender-does-not-receive")
        || is(token, "receiver-does-not-open")
}

/// Reports whether each word is a kind of act, or `resume`, `vault` or `later-day`.
pub(crate) fn are_acts(tokens: &[&[u8]]) -> bool
    ensures { result ≡ list_all is_act (map (λ w. w.now) tokens.now) }
{
    each_is_act(tokens)
}

fn each_is_act(tokens: &[&[u8]]) -> bool
    ensures { result ≡ list_all (λ w. is_act w.now) tokens.now }
{
    tokens.iter().all(|token| is_act(token))
}

/// Reports whether each word is a thing to read.
pub(crate) fn are_things(tokens: &[&[u8]]) -> bool
    ensures { result ≡ list_all is_thing (map (λ w. w.now) tokens.now) }
{
    each_is_thing(tokens)
}

fn each_is_thing(tokens: &[&[u8]]) -> bool
    ensures { result ≡ list_all (λ w. is_thing w.now) tokens.now }
{
    tokens.iter().all(|token| is_thing(token))
}
