//! What a name has: its roles, and their rights.
ghost use Rattle.std.specs.Prelude.{◌≡◌, ◌++◌, IfOk, OnOk, map};
ghost use Rattle.std.specs.List.{flat_map, fold, list_any};
ghost use Rattle.std.specs.Option.{option_copied};
ghost use Rattle.std.specs.Str.{bytes_eq};
ghost use Rattle.office_policy.specs.Granted.{classes_for, granted_by, held, held_by, rights_by_role, rights_from, rights_of, roles_for, roles_held, text_of, with_new, with_role};
ghost use Rattle.office_settings.specs.Views.{line_of};

use crate::rights::{RoleOf, push_role};
use office_access::{Grants, Right};
use office_base::Memory;
use office_records::Text;
use office_settings::{Entry, Statement, text_in};
use std::alloc::Global;

/// Roles of a name, and the classes to which the name is limited.
#[derive(Clone, Copy)]
struct RolesOf<'a> {
    roles: &'a [&'a [u8]],
    of_name: &'a [&'a [u8]],
}

/// Reads bytes as a text of the office.
#[tactic(auto, unfolding(crate::specs::Granted::text_of))]
pub(crate) fn text_of(alloc: Global, bytes: &[u8]) -> Result<Option<Text>, Memory>
    ensures { IfOk result (λ text. text ≡ text_of bytes.now) }
{
    match text_in(bytes) {
        Some(text) => Text::read(alloc, text),
        None => Ok(None),
    }
}

/// Returns the roles that a line gives to a name; or, without a name, to every other name.
fn roles_for<'a>(name: Option<&[u8]>, statement: &Statement<'a>) -> &'a [&'a [u8]]
    ensures { map (λ w. w.now) result.now
        ≡ roles_for (option_copied name.entry) (line_of statement.now) }
{
    match name {
        Some(name) => match statement {
            Statement::Is(line) => { if line.name == name { line.roles } else { &[] } }
            _ => &[],
        },
        None => match statement {
            Statement::Others(line) => line.roles,
            _ => &[],
        },
    }
}

/// Returns the classes to which a line limits roles.
fn classes_for<'a>(statement: &Statement<'a>) -> &'a [&'a [u8]]
    ensures { map (λ w. w.now) result.now ≡ classes_for (line_of statement.now) }
{
    match statement {
        Statement::Is(line) => line.classes,
        Statement::Others(line) => line.classes,
        _ => &[],
    }
}

/// Returns the roles that a line gives to a name, with the classes of the line.
fn given_by<'a>(name: Option<&[u8]>, statement: &Statement<'a>) -> RolesOf<'a>
    ensures roles { map (λ w. w.now) result.roles.now
        ≡ roles_for (option_copied name.entry) (line_of statement.now) }
    ensures classes { map (λ w. w.now) result.of_name.now ≡ classes_for (line_of statement.now) }
{
    RolesOf {
        roles: roles_for(name, statement),
        of_name: classes_for(statement),
    }
}

/// Appends the rights of each role, within the classes of a name.
fn push_each(
    alloc: Global,
    rights: &mut Vec<Right>,
    entries: &[Entry],
    given: &RolesOf,
) -> Result<(), Memory>
    ensures { OnOk result (map granted_by rights.new.items
        ≡ map granted_by rights.old.items
        ++ flat_map (λ role. rights_by_role entries.now (map (λ w. w.now) given.now.of_name.now)
        role.now) given.now.roles.now) }
{
    for role in given.roles {
        let given = RoleOf {
            role,
            of_name: given.of_name,
        };
        push_role(alloc, rights, &given, entries)?;
    }
    Ok(())
}

/// Appends the rights of roles, within the classes of a name.
fn push_roles(
    alloc: Global,
    rights: &mut Vec<Right>,
    entries: &[Entry],
    given: &RolesOf,
) -> Result<(), Memory>
    ensures { OnOk result (map granted_by rights.new.items
        ≡ map granted_by rights.old.items
        ++ flat_map (rights_by_role entries.now (map (λ w. w.now) given.now.of_name.now))
        (map (λ w. w.now) given.now.roles.now)) }
{
    push_each(alloc, rights, entries, given)
}

/// Collects the rights that all lines give to a name.
fn rights_of(alloc: Global, entries: &[Entry], name: Option<&[u8]>) -> Result<Vec<Right>, Memory>
    ensures { IfOk result
        (λ rights. map granted_by rights.items ≡ rights_of entries.now (option_copied name.entry)) }
{
    let mut rights = Vec::new(alloc);
    for entry in entries {
        let given = given_by(name, entry.statement());
        push_roles(alloc, &mut rights, entries, &given)?;
    }
    Ok(rights)
}

/// Reports whether the text is among others.
fn is_among(texts: &[Text], text: &Text) -> bool
    ensures { result ≡ list_any (bytes_eq text.now) texts.now }
{
    texts.iter().any(|other| *text == *other)
}

/// Appends a text, unless it is there.
fn push_new(texts: &mut Vec<Text>, text: Option<Text>) -> Result<(), Memory>
    ensures { OnOk result (texts.new.items ≡ with_new texts.old.items text) }
{
    match text {
        Some(text) => {
            if is_among(texts, &text) {
                return Ok(());
            }
            texts.push(text)?;
            Ok(())
        }
        None => Ok(()),
    }
}

/// Appends roles, each unless it is there.
fn push_role_names(alloc: Global, texts: &mut Vec<Text>, roles: &[&[u8]]) -> Result<(), Memory>
    ensures { OnOk result (texts.new.items
        ≡ fold (λ texts role. with_role texts role.now) texts.old.items roles.now) }
{
    for role in roles {
        let text = text_of(alloc, role)?;
        push_new(texts, text)?;
    }
    Ok(())
}

/// Appends the roles that a line gives to a name, each unless it is there.
fn push_roles_for(
    alloc: Global,
    texts: &mut Vec<Text>,
    name: Option<&[u8]>,
    statement: &Statement,
) -> Result<(), Memory>
    ensures { OnOk result (texts.new.items
        ≡ fold with_role texts.old.items
        (roles_for (option_copied name.entry) (line_of statement.now))) }
{
    push_role_names(alloc, texts, roles_for(name, statement))
}

/// Collects the roles of a name, each once.
fn roles_held(alloc: Global, entries: &[Entry], name: Option<&[u8]>) -> Result<Vec<Text>, Memory>
    ensures { IfOk result
        (λ roles. roles.items ≡ roles_held entries.now (option_copied name.entry)) }
{
    let mut roles = Vec::new(alloc);
    for entry in entries {
        push_roles_for(alloc, &mut roles, name, entry.statement())?;
    }
    Ok(roles)
}

/// Returns what a name has; or, without a name, what every other name has.
pub(crate) fn held(alloc: Global, entries: &[Entry], name: Option<&[u8]>) -> Result<Grants, Memory>
    ensures { IfOk result (λ grants. held_by grants ≡ held entries.now (option_copied name.entry)) }
{
    let roles = roles_held(alloc, entries, name)?;
    let rights = rights_of(alloc, entries, name)?;
    Ok(Grants { roles, rights })
}
