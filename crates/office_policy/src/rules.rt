//! The rules of four eyes.
ghost use Rattle.std.specs.Prelude.{◌≡◌, min};
ghost use Rattle.std.specs.List.{fold, list_any};
ghost use Rattle.office_policy.specs.Rules.{changer_days, is_on, is_rule, rules_of};
ghost use Rattle.office_settings.specs.Views.{line_of};

use crate::powers::is;
use office_access::Rules;
use office_settings::{Entry, Statement};

/// Reports whether a line switches the rule on.
fn is_rule(keyword: &str, statement: &Statement) -> bool
    ensures { result ≡ is_rule keyword.now (line_of statement.now) }
{
    match statement {
        Statement::Rule(token) => is(token, keyword),
        _ => false,
    }
}

/// Reports whether one of the lines switches the rule on.
fn is_on(keyword: &str, entries: &[Entry]) -> bool
    ensures { result ≡ is_on keyword.now entries.now }
{
    entries
        .iter()
        .any(|entry| is_rule(keyword, entry.statement()))
}

/// Returns the days of a line that has them, or those of the lines above.
fn changer_days(above: Option<u16>, statement: &Statement) -> Option<u16>
    ensures { result ≡ changer_days above (line_of statement.now) }
{
    match statement {
        Statement::Changer(days) => Some((*days).min(65_535) as u16),
        _ => above,
    }
}

/// Returns the days of the last line that has them.
fn last_days(entries: &[Entry]) -> Option<u16>
    ensures { result ≡ fold (λ days entry. changer_days days entry.line) None entries.now }
{
    let mut days = None;
    for entry in entries {
        days = changer_days(days, entry.statement());
    }
    days
}

/// Returns the rules that are on.
#[tactic(auto, unfolding(crate::specs::Rules::rules_of))]
pub(crate) fn rules_of(entries: &[Entry]) -> Rules
    ensures { result ≡ rules_of entries.now }
{
    Rules {
        opener_does_not_carry_out: is_on("opener-does-not-carry-out", entries),
        confirmer_does_not_open: is_on("confirmer-does-not-open", entries),
        changer_does_not_open: last_days(entries),
        sender_does_not_receive: is_on("sender-does-not-receive", entries),
        receiver_does_not_open: is_on("receiver-does-not-open", entries),
    }
}
