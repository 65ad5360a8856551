//! The statements of a file, one below the other.
ghost use Rattle.std.specs.Prelude.{◌≡◌, ◌&&◌, ◌||◌};
ghost use Rattle.std.specs.List.{list_any};
ghost use Rattle.std.specs.Option.{option_copied};
ghost use Rattle.std.specs.Str.{bytes_eq};
ghost use Rattle.office_settings.specs.Files.{differ, has_begin, has_end, holder_of, misplaced, owner_of, role_of, same_setting, same_text, setting_of, sets_again, shown_by, signer_of, with_placed, with_statement};
ghost use Rattle.office_settings.specs.Looks.{look_in};
ghost use Rattle.office_settings.specs.Readings.{IsAppended};
ghost use Rattle.office_settings.specs.Views.{line_of};

use crate::looks::{is_signable, look_in};
use crate::{SettingsError, Statement, Wrong};
use std::alloc::Global;
use std::marker::Model;

/// A statement of a file, with the number of its line. Contracts see the two.
#[derive(Drop)]
pub struct Entry<'a> {
    number: usize,
    statement: Statement<'a>,
    look: String,
}

impl<'a> Model for Entry<'a> {
    ghost use Rattle.std.specs.Prelude.{◌≡◌};
    ghost use Rattle.std.specs.String.{string_bytes};
    ghost use Rattle.office_settings.specs.Files as file;
    ghost use Rattle.office_settings.specs.Looks.{look_in};
    ghost use Rattle.office_settings.specs.Views.{line_of};

    ghost Value = { file.Entry };

    ghost view = { λ entry. record { number = entry.number; line = line_of entry.statement } };

    ghost invariant = { λ entry. string_bytes entry.look ≡ look_in (file.shown_by (line_of entry.statement)) };
}

/// Reports whether the two are one setting.
fn same_setting(one: Option<u8>, other: Option<u8>) -> bool
    ensures { result ≡ same_setting one other }
{
    match one {
        Some(one) => match other {
            Some(other) => one == other,
            None => false,
        },
        None => false,
    }
}

/// Reports whether the two are one text.
fn same_text(one: Option<&[u8]>, other: Option<&[u8]>) -> bool
    ensures { result ≡ same_text (option_copied one.entry) (option_copied other.entry) }
{
    match one {
        Some(one) => match other {
            Some(other) => one == other,
            None => false,
        },
        None => false,
    }
}

/// Reports whether the two are texts that differ.
fn differ(one: Option<&[u8]>, other: Option<&[u8]>) -> bool
    ensures { result ≡ differ (option_copied one.entry) (option_copied other.entry) }
{
    match one {
        Some(one) => match other {
            Some(other) => one != other,
            None => false,
        },
        None => false,
    }
}

impl<'a> Entry<'a> {
    /// Returns the number of the line; the first line of a file is 1.
    pub fn number(&self) -> usize
        ensures { result ≡ self.now.number }
    {
        self.number
    }

    /// Returns the statement.
    pub fn statement(&self) -> &Statement<'a>
        ensures { line_of result.now ≡ self.now.line }
    {
        &self.statement
    }

    /// Reports whether both make one setting, or say what one name signs.
    fn is_set_again_by(&self, statement: &Statement<'a>) -> bool
        ensures { result ≡ sets_again (line_of statement.now) self.now }
    {
        same_setting(statement.setting(), self.statement.setting())
            || same_text(statement.signer(), self.statement.signer())
    }

    /// Reports whether the statement makes the setting of that number: 0 is the site, 1 the time
    /// zone, and 2 to 7 are the limits in the order of `docs/ACCESS.md`.
    pub fn makes_setting(&self, number: u8) -> bool
        ensures { result ≡ same_setting (setting_of self.now.line) (Some number) }
    {
        same_setting(self.statement.setting(), Some(number))
    }

    /// Reports whether the statement says what the role may do or read.
    pub(crate) fn describes(&self, role: &[u8]) -> bool
        ensures { result ≡ same_text (role_of self.now.line) (Some role.now) }
    {
        same_text(self.statement.role(), Some(role))
    }

    /// Reports whether the statement says which roles the name has.
    pub(crate) fn is_of_holder(&self, name: &[u8]) -> bool
        ensures { result ≡ same_text (holder_of self.now.line) (Some name.now) }
    {
        same_text(self.statement.holder(), Some(name))
    }

    /// Reports whether the statement says what the name signs.
    pub fn is_of_signer(&self, name: &[u8]) -> bool
        ensures { result ≡ same_text (signer_of self.now.line) (Some name.now) }
    {
        same_text(self.statement.signer(), Some(name))
    }

    /// Returns how the name of the statement, or the text that the name signs, looks.
    pub fn look(&self) -> &str
        ensures { result.now ≡ look_in (shown_by self.now.line) }
    {
        self.look.as_str()
    }

    /// Reports whether the entry is about another name, and looks so.
    fn has_look_of_another(&self, owner: Option<&[u8]>, look: &str) -> bool
        ensures { result
            ≡ (differ (option_copied owner.entry) (owner_of self.now.line)
            && bytes_eq look.now (look_in (shown_by self.now.line))) }
    {
        differ(owner, self.statement.owner()) && *look == *self.look.as_str()
    }
}

/// Reports whether one of the entries makes the same setting, or says what the same name signs.
fn is_set_above(above: &[Entry], statement: &Statement) -> bool
    ensures { result ≡ list_any (sets_again (line_of statement.now)) above.now }
{
    above.iter().any(|entry| entry.is_set_again_by(statement))
}

/// Reports whether one of the entries is about another name, and looks so.
fn is_look_above(above: &[Entry], owner: Option<&[u8]>, look: &str) -> bool
    ensures { result
        ≡ list_any (λ entry. differ (option_copied owner.entry) (owner_of entry.line)
        && bytes_eq look.now (look_in (shown_by entry.line))) above.now }
{
    above
        .iter()
        .any(|entry| entry.has_look_of_another(owner, look))
}

/// Reports whether one of the entries is the mark above all other statements.
pub(crate) fn has_begin(entries: &[Entry]) -> bool
    ensures { result ≡ has_begin entries.now }
{
    entries.iter().any(|entry| entry.statement.is_begin())
}

/// Reports whether one of the entries is the mark below all other statements.
pub(crate) fn has_end(entries: &[Entry]) -> bool
    ensures { result ≡ has_end entries.now }
{
    entries.iter().any(|entry| entry.statement.is_end())
}

/// Finds why a mark below these entries is in a wrong place.
fn misplaced(above: &[Entry], statement: &Statement) -> Option<Wrong>
    ensures { result ≡ misplaced above.now (line_of statement.now) }
{
    if statement.is_begin() && !above.is_empty() {
        return Some(Wrong::BeginBelow);
    }
    if statement.is_end() && !has_begin(above) {
        return Some(Wrong::EndAlone);
    }
    None
}

/// Appends the statement of a line, which sets nothing again, and is about no name that looks like
/// another. After an error the entries are of no use.
fn push_placed<'a>(
    alloc: Global,
    entries: &mut Vec<Entry<'a>>,
    number: usize,
    statement: Statement<'a>,
) -> Result<(), SettingsError>
    ensures { IsAppended result entries.new.items (with_placed entries.old.items number (line_of statement.entry)) }
{
    if is_set_above(entries, &statement) {
        return Err(SettingsError::at(number, Wrong::SetTwice));
    }
    let shown = statement.shown(alloc)?;
    if !is_signable(&shown) {
        return Err(SettingsError::at(number, Wrong::SignedText));
    }
    let look = look_in(alloc, &shown)?;
    if is_look_above(entries, statement.owner(), look.as_str()) {
        return Err(SettingsError::at(number, Wrong::Alike));
    }
    entries.push(Entry {
        number,
        statement,
        look,
    })?;
    Ok(())
}

/// Appends the statement of a line, which is no mark in a wrong place either. After an error the
/// entries are of no use.
pub(crate) fn push_statement<'a>(
    alloc: Global,
    entries: &mut Vec<Entry<'a>>,
    number: usize,
    statement: Statement<'a>,
) -> Result<(), SettingsError>
    ensures { IsAppended result entries.new.items (with_statement entries.old.items number (line_of statement.entry)) }
{
    match misplaced(entries, &statement) {
        Some(wrong) => Err(SettingsError::at(number, wrong)),
        None => push_placed(alloc, entries, number, statement),
    }
}
