//! What a statement is about.
ghost use Rattle.std.specs.Prelude.{◌≡◌, ◌∷◌, ◌++◌, IfOk, OnOk, map};
ghost use Rattle.std.specs.List.{flat_map, join_with_byte};
ghost use Rattle.std.specs.Option.{option_copied};
ghost use Rattle.office_settings.specs.Files.{holder_of, is_begin, is_end, owner_of, role_of, roles_of, setting_of, shown_by, signer_of};
ghost use Rattle.office_settings.specs.Views.{line_of};

use crate::Statement;
use std::alloc::{AllocError, Global};

/// Appends a word and the space before it.
fn push_spaced(text: &mut Vec<u8>, token: &[u8]) -> Result<(), AllocError>
    ensures { OnOk result (text.new.items ≡ text.old.items ++ 32 ∷ token.now) }
{
    text.push(b' ')?;
    text.extend_from_slice(token)?;
    Ok(())
}

/// Appends words to a first one, each behind a space.
fn joined_from(alloc: Global, first: &[u8], rest: &[&[u8]]) -> Result<Vec<u8>, AllocError>
    ensures { IfOk result
        (λ text. text.items ≡ first.now ++ flat_map (λ w. 32 ∷ w.now) rest.now) }
{
    let mut text = Vec::from_slice(alloc, first)?;
    for token in rest {
        push_spaced(&mut text, token)?;
    }
    Ok(text)
}

/// Joins a first word and others by spaces.
fn joined_parts(alloc: Global, first: &[u8], rest: &[&[u8]]) -> Result<Vec<u8>, AllocError>
    ensures { IfOk result
        (λ text. text.items ≡ join_with_byte 32 (first.now ∷ map (λ w. w.now) rest.now)) }
{
    joined_from(alloc, first, rest)
}

/// Joins words by spaces.
fn joined(alloc: Global, tokens: &[&[u8]]) -> Result<Vec<u8>, AllocError>
    ensures { IfOk result (λ text. text.items ≡ join_with_byte 32 (map (λ w. w.now) tokens.now)) }
{
    match tokens {
        [] => Ok(Vec::new(alloc)),
        [first, rest @ ..] => joined_parts(alloc, first, rest),
    }
}

impl<'a> Statement<'a> {
    /// Reports whether this is the mark above all other statements.
    pub(crate) fn is_begin(&self) -> bool
        ensures { result ≡ is_begin (line_of self.now) }
    {
        matches!(self, Statement::Begin)
    }

    /// Reports whether this is the mark below all other statements.
    pub(crate) fn is_end(&self) -> bool
        ensures { result ≡ is_end (line_of self.now) }
    {
        matches!(self, Statement::End)
    }

    /// Returns the number of the setting, if a file makes that setting once.
    pub(crate) fn setting(&self) -> Option<u8>
        ensures { result ≡ setting_of (line_of self.now) }
    {
        match self {
            Statement::Site(_) => Some(0),
            Statement::Zone(_) => Some(1),
            Statement::Requests(_) => Some(2),
            Statement::Lists(_) => Some(3),
            Statement::JournalBytes(_) => Some(4),
            Statement::ContentDays(_) => Some(5),
            Statement::FreeMegabytes(_) => Some(6),
            Statement::JournalsReadings(_) => Some(7),
            _ => None,
        }
    }

    /// Returns the name that signs.
    pub(crate) fn signer(&self) -> Option<&'a [u8]>
        ensures { option_copied result ≡ signer_of (line_of self.now) }
    {
        match self {
            Statement::Signs(line) => Some(line.name),
            _ => None,
        }
    }

    /// Returns the name that has roles.
    pub fn holder(&self) -> Option<&'a [u8]>
        ensures { option_copied result ≡ holder_of (line_of self.now) }
    {
        match self {
            Statement::Is(line) => Some(line.name),
            _ => None,
        }
    }

    /// Returns the role that may do or read something.
    pub(crate) fn role(&self) -> Option<&'a [u8]>
        ensures { option_copied result ≡ role_of (line_of self.now) }
    {
        match self {
            Statement::May(line) => Some(line.role),
            Statement::Reads(line, _) => Some(line.role),
            _ => None,
        }
    }

    /// Returns the roles that a name has.
    pub(crate) fn roles(&self) -> &'a [&'a [u8]]
        ensures { map (λ w. w.now) result.now ≡ roles_of (line_of self.now) }
    {
        match self {
            Statement::Is(line) => line.roles,
            Statement::Others(line) => line.roles,
            _ => &[],
        }
    }

    /// Returns the name whose acts are known by the name or by a text.
    pub fn owner(&self) -> Option<&'a [u8]>
        ensures { option_copied result ≡ owner_of (line_of self.now) }
    {
        match self {
            Statement::Is(line) => Some(line.name),
            Statement::Signs(line) => Some(line.name),
            _ => None,
        }
    }

    /// Returns that name, or that text.
    pub fn shown(&self, alloc: Global) -> Result<Vec<u8>, AllocError>
        ensures { IfOk result (λ text. text.items ≡ shown_by (line_of self.now)) }
    {
        match self {
            Statement::Is(line) => Vec::from_slice(alloc, line.name),
            Statement::Signs(line) => joined(alloc, line.text),
            _ => Ok(Vec::new(alloc)),
        }
    }
}
