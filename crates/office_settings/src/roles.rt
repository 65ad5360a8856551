//! Lines about roles and names.
ghost use Rattle.std.specs.Prelude.{◌≡◌, ◌∷◌, codes, map};
ghost use Rattle.office_settings.specs.Statements.{is_line, may_line, name_line, parted, reads_line, role_line, then_line};
ghost use Rattle.office_settings.specs.Views.{read};

use crate::forms::{are_classes, is_name, is_role};
use crate::keywords::{are_acts, are_things};
use crate::parts::{Parts, is_condition, parted};
use crate::tokens::is;
use crate::{IsLine, RoleLine, SignsLine, Statement, Wrong};

/// Reads what a role may do, for which classes.
#[tactic(auto, unfolding(crate::specs::Statements::may_line))]
fn may_line<'a>(role: &'a [u8], tokens: &'a [&'a [u8]]) -> Result<Statement<'a>, Wrong>
    ensures { read result ≡ may_line role.now (map (λ w. w.now) tokens.now) }
{
    let condition = parted("if", tokens)?;
    if !is_condition(condition.after) {
        return Err(Wrong::Condition);
    }
    let parts = parted("in", condition.before)?;
    if !condition.after.is_empty() {
        return Err(Wrong::SentActs);
    }
    if parts.before.is_empty() || !are_acts(parts.before) {
        return Err(Wrong::Act);
    }
    if !are_classes(parts.after) {
        return Err(Wrong::Class);
    }
    Ok(Statement::May(RoleLine {
        role,
        things: parts.before,
        classes: parts.after,
    }))
}

/// Reads what a role reads, for which classes, and whether only what was sent.
#[tactic(auto, unfolding(crate::specs::Statements::reads_line))]
fn reads_line<'a>(role: &'a [u8], tokens: &'a [&'a [u8]]) -> Result<Statement<'a>, Wrong>
    ensures { read result ≡ reads_line role.now (map (λ w. w.now) tokens.now) }
{
    let condition = parted("if", tokens)?;
    if !is_condition(condition.after) {
        return Err(Wrong::Condition);
    }
    let parts = parted("in", condition.before)?;
    if parts.before.is_empty() || !are_things(parts.before) {
        return Err(Wrong::Thing);
    }
    if !are_classes(parts.after) {
        return Err(Wrong::Class);
    }
    let line = RoleLine {
        role,
        things: parts.before,
        classes: parts.after,
    };
    Ok(Statement::Reads(line, !condition.after.is_empty()))
}

/// Reads what follows the word `role`: a role, a verb, and the rest.
#[tactic(auto, unfolding(crate::specs::Statements::role_line))]
fn verb_line<'a>(role: &'a [u8], verb: &[u8], rest: &'a [&'a [u8]]) -> Result<Statement<'a>, Wrong>
    ensures { read result ≡ role_line (role.now ∷ verb.now ∷ map (λ w. w.now) rest.now) }
{
    if rest.is_empty() || !(is(verb, "may") || is(verb, "reads")) {
        return Err(Wrong::RoleLine);
    }
    if !is_role(role) {
        return Err(Wrong::Role);
    }
    if is(verb, "may") {
        may_line(role, rest)
    } else {
        reads_line(role, rest)
    }
}

/// Reads a line about a role.
#[tactic(auto, unfolding(crate::specs::Statements::role_line))]
pub(crate) fn role_line<'a>(tokens: &'a [&'a [u8]]) -> Result<Statement<'a>, Wrong>
    ensures { read result ≡ role_line (map (λ w. w.now) tokens.now) }
{
    match tokens {
        [] => Err(Wrong::RoleLine),
        [_] => Err(Wrong::RoleLine),
        [role, verb, rest @ ..] => verb_line(role, verb, rest),
    }
}

/// Reads which roles a name has, for which classes.
#[tactic(auto, unfolding(crate::specs::Statements::is_line))]
fn is_line<'a>(name: &'a [u8], tokens: &'a [&'a [u8]]) -> Result<Statement<'a>, Wrong>
    ensures { read result ≡ then_line (parted (codes "in") (map (λ w. w.now) tokens.now)) (is_line name.now) }
{
    let parts = parted("in", tokens)?;
    if !are_classes(parts.after) {
        return Err(Wrong::Class);
    }
    let line = IsLine {
        name,
        roles: parts.before,
        classes: parts.after,
    };
    if is(name, "*") {
        return Ok(Statement::Others(line));
    }
    Ok(Statement::Is(line))
}

/// Reads what follows the word `name`: a name, a verb, and the rest.
#[tactic(auto, unfolding(crate::specs::Statements::name_line))]
fn name_verb_line<'a>(
    name: &'a [u8],
    verb: &[u8],
    rest: &'a [&'a [u8]],
) -> Result<Statement<'a>, Wrong>
    ensures { read result ≡ name_line (name.now ∷ verb.now ∷ map (λ w. w.now) rest.now) }
{
    if rest.is_empty() {
        return Err(Wrong::NameLine);
    }
    if is(verb, "is") {
        if !is_name(name) && !is(name, "*") {
            return Err(Wrong::Name);
        }
        return is_line(name, rest);
    }
    if !is(verb, "signs") {
        return Err(Wrong::NameLine);
    }
    if !is_name(name) {
        return Err(Wrong::Name);
    }
    Ok(Statement::Signs(SignsLine { name, text: rest }))
}

/// Reads a line about a name.
#[tactic(auto, unfolding(crate::specs::Statements::name_line))]
pub(crate) fn name_line<'a>(tokens: &'a [&'a [u8]]) -> Result<Statement<'a>, Wrong>
    ensures { read result ≡ name_line (map (λ w. w.now) tokens.now) }
{
    match tokens {
        [] => Err(Wrong::NameLine),
        [_] => Err(Wrong::NameLine),
        [name, verb, rest @ ..] => name_verb_line(name, verb, rest),
    }
}
