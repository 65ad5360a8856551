//! The rights that lines give to a role.
ghost use Rattle.std.specs.Prelude.{◌≡◌, ◌++◌, IfOk, OnOk, map};
ghost use Rattle.std.specs.List.{flat_map};
ghost use Rattle.office_policy.specs.Granted.{granted, granted_by, rights_by_line, rights_by_role};
ghost use Rattle.office_policy.specs.Powers.{act_power, thing_power};
ghost use Rattle.office_policy.specs.Scopes.{limits_in};
ghost use Rattle.office_settings.specs.Views.{line_of};

use crate::classes::push_limit;
use crate::powers::{act_power, thing_power};
use office_access::{Power, Right};
use office_base::Memory;
use office_settings::{Entry, RoleLine, Statement};
use std::alloc::Global;

/// The classes to which a role and a name are limited, and whether a right covers only what was
/// sent.
#[derive(Clone, Copy)]
pub(crate) struct Scope<'a> {
    pub(crate) of_role: &'a [&'a [u8]],
    pub(crate) of_name: &'a [&'a [u8]],
    pub(crate) is_for_sent: bool,
}

/// Makes the right to a power within a scope.
fn right_within(alloc: Global, power: Power, scope: &Scope) -> Result<Right, Memory>
    ensures { IfOk result (λ right. granted_by right
        ≡ record { power = power; limits = limits_in scope.now; is_for_sent = scope.now.is_for_sent }) }
{
    let mut limits = Vec::new(alloc);
    push_limit(alloc, &mut limits, scope.of_role)?;
    push_limit(alloc, &mut limits, scope.of_name)?;
    Ok(Right {
        power,
        limits,
        is_for_sent: scope.is_for_sent,
    })
}

/// Appends the right to a power within a scope, if there is a power.
fn push_right(
    alloc: Global,
    rights: &mut Vec<Right>,
    power: Option<Power>,
    scope: &Scope,
) -> Result<(), Memory>
    ensures { OnOk result (map granted_by rights.new.items
        ≡ map granted_by rights.old.items ++ granted (limits_in scope.now) scope.now.is_for_sent power) }
{
    if let Some(power) = power {
        let right = right_within(alloc, power, scope)?;
        rights.push(right)?;
    }
    Ok(())
}

/// Appends the rights to acts within a scope.
fn push_acts(
    alloc: Global,
    rights: &mut Vec<Right>,
    acts: &[&[u8]],
    scope: &Scope,
) -> Result<(), Memory>
    ensures { OnOk result (map granted_by rights.new.items
        ≡ map granted_by rights.old.items
        ++ flat_map (λ act. granted (limits_in scope.now) scope.now.is_for_sent (act_power act.now))
        acts.now) }
{
    for act in acts {
        push_right(alloc, rights, act_power(act), scope)?;
    }
    Ok(())
}

/// Appends the rights to read things within a scope.
fn push_things(
    alloc: Global,
    rights: &mut Vec<Right>,
    things: &[&[u8]],
    scope: &Scope,
) -> Result<(), Memory>
    ensures { OnOk result (map granted_by rights.new.items
        ≡ map granted_by rights.old.items
        ++ flat_map
        (λ thing. granted (limits_in scope.now) scope.now.is_for_sent (thing_power thing.now))
        things.now) }
{
    for thing in things {
        push_right(alloc, rights, thing_power(thing), scope)?;
    }
    Ok(())
}

/// A role of a name, and the classes to which the name is limited.
#[derive(Clone, Copy)]
pub(crate) struct RoleOf<'a> {
    pub(crate) role: &'a [u8],
    pub(crate) of_name: &'a [&'a [u8]],
}

/// Appends the rights that a line gives to a role.
#[tactic(auto, using(crate::proofs::Lists::flat_map_map))]
fn push_line(
    alloc: Global,
    rights: &mut Vec<Right>,
    given: &RoleOf,
    statement: &Statement,
) -> Result<(), Memory>
    ensures { OnOk result (map granted_by rights.new.items
        ≡ map granted_by rights.old.items
        ++ rights_by_line (map (λ w. w.now) given.now.of_name.now) given.now.role.now
        (line_of statement.now)) }
{
    match statement {
        Statement::May(line) => {
            if line.role != given.role {
                return Ok(());
            }
            let scope = Scope {
                of_role: line.classes,
                of_name: given.of_name,
                is_for_sent: false,
            };
            push_acts(alloc, rights, line.things, &scope)
        }
        Statement::Reads(line, is_for_sent) => {
            if line.role != given.role {
                return Ok(());
            }
            let scope = Scope {
                of_role: line.classes,
                of_name: given.of_name,
                is_for_sent: *is_for_sent,
            };
            push_things(alloc, rights, line.things, &scope)
        }
        _ => Ok(()),
    }
}

/// Appends the rights that all lines give to a role.
pub(crate) fn push_role(
    alloc: Global,
    rights: &mut Vec<Right>,
    given: &RoleOf,
    entries: &[Entry],
) -> Result<(), Memory>
    ensures { OnOk result (map granted_by rights.new.items
        ≡ map granted_by rights.old.items
        ++ rights_by_role entries.now (map (λ w. w.now) given.now.of_name.now) given.now.role.now) }
{
    for entry in entries {
        push_line(alloc, rights, given, entry.statement())?;
    }
    Ok(())
}
