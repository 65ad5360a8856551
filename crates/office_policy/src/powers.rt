//! What a word of the settings allows.
ghost use Rattle.std.specs.Prelude.{◌≡◌};
ghost use Rattle.std.specs.Str.{bytes_eq};
ghost use Rattle.office_policy.specs.Powers.{act_power, hold_kind, plan_kind, power_beside, run_kind, thing_power};

use office_access::{Kind, Power, Reading};

/// Reports whether a word is a keyword.
pub(crate) fn is(token: &[u8], keyword: &str) -> bool
    ensures { result ≡ bytes_eq token.now keyword.now }
{
    token == keyword.as_bytes()
}

/// Reads an act on the plan, the classes or the files.
#[tactic(auto, unfolding(crate::specs::Powers::plan_kind))]
fn plan_kind(token: &[u8]) -> Option<Kind>
    ensures { result ≡ plan_kind token.now }
{
    if is(token, "add-schedule") {
        Some(Kind::AddSchedule)
    } else if is(token, "add-class") {
        Some(Kind::AddClass)
    } else if is(token, "set-class-schedule") {
        Some(Kind::SetClassSchedule)
    } else if is(token, "add-aggregation") {
        Some(Kind::AddAggregation)
    } else if is(token, "close-aggregation") {
        Some(Kind::CloseAggregation)
    } else if is(token, "add-record") {
        Some(Kind::AddRecord)
    } else if is(token, "set-record-schedule") {
        Some(Kind::SetRecordSchedule)
    } else if is(token, "reclassify") {
        Some(Kind::Reclassify)
    } else {
        None
    }
}

/// Reads an act on a hold, or a decision about a record.
#[tactic(auto, unfolding(crate::specs::Powers::hold_kind))]
fn hold_kind(token: &[u8]) -> Option<Kind>
    ensures { result ≡ hold_kind token.now }
{
    if is(token, "place-hold") {
        Some(Kind::PlaceHold)
    } else if is(token, "hold-on") {
        Some(Kind::HoldOn)
    } else if is(token, "hold-off") {
        Some(Kind::HoldOff)
    } else if is(token, "lift-hold") {
        Some(Kind::LiftHold)
    } else if is(token, "confirm") {
        Some(Kind::Confirm)
    } else if is(token, "review") {
        Some(Kind::Review)
    } else {
        None
    }
}

/// Reads an act of a run, or of what follows a run.
#[tactic(auto, unfolding(crate::specs::Powers::run_kind))]
fn run_kind(token: &[u8]) -> Option<Kind>
    ensures { result ≡ run_kind token.now }
{
    if is(token, "open-run") {
        Some(Kind::OpenRun)
    } else if is(token, "run-step") {
        Some(Kind::RunStep)
    } else if is(token, "receipt") {
        Some(Kind::Receipt)
    } else if is(token, "event") {
        Some(Kind::Event)
    } else {
        None
    }
}

/// Reads something beside the acts of a list.
#[tactic(auto, unfolding(crate::specs::Powers::power_beside))]
fn power_beside(token: &[u8]) -> Option<Power>
    ensures { result ≡ power_beside token.now }
{
    if is(token, "resume") {
        Some(Power::Resume)
    } else if is(token, "vault") {
        Some(Power::Vault)
    } else if is(token, "later-day") {
        Some(Power::LaterDay)
    } else {
        None
    }
}

/// Reads what a word behind `may` allows.
#[tactic(auto, unfolding(crate::specs::Powers::act_power))]
pub(crate) fn act_power(token: &[u8]) -> Option<Power>
    ensures { result ≡ act_power token.now }
{
    if let Some(kind) = plan_kind(token) {
        return Some(Power::Act(kind));
    }
    if let Some(kind) = hold_kind(token) {
        return Some(Power::Act(kind));
    }
    if let Some(kind) = run_kind(token) {
        return Some(Power::Act(kind));
    }
    power_beside(token)
}

/// Reads what a word behind `reads` allows.
#[tactic(auto, unfolding(crate::specs::Powers::thing_power))]
pub(crate) fn thing_power(token: &[u8]) -> Option<Power>
    ensures { result ≡ thing_power token.now }
{
    if is(token, "records") {
        Some(Power::Read(Reading::Records))
    } else if is(token, "contents") {
        Some(Power::Read(Reading::Contents))
    } else if is(token, "lists") {
        Some(Power::Read(Reading::Lists))
    } else if is(token, "certificates") {
        Some(Power::Read(Reading::Certificates))
    } else if is(token, "catalogue") {
        Some(Power::Read(Reading::Catalogue))
    } else if is(token, "history") {
        Some(Power::Read(Reading::History))
    } else if is(token, "health") {
        Some(Power::Read(Reading::Health))
    } else {
        None
    }
}
