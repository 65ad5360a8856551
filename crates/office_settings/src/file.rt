//! A whole file.
ghost use Rattle.std.specs.Prelude.{◌≡◌};
ghost use Rattle.std.specs.List.{find, list_all, list_any};
ghost use Rattle.std.specs.Option.{option_copied};
ghost use Rattle.office_settings.specs.Files.{entries_from, entries_of, has_setting, has_unknown_role, is_described, is_holder, signs_without_role, whole, with_line};
ghost use Rattle.office_settings.specs.Readings.{IsAppended, IsRead};

use crate::entry::{has_begin, has_end, push_statement};
use crate::{Entry, SettingsError, SourceLine, Statement, Wrong};
use std::alloc::Global;

/// Appends the statement of a line, if it has one. After an error the entries are of no use.
fn push_line<'b, 'a>(
    alloc: Global,
    entries: &mut Vec<Entry<'b>>,
    number: usize,
    line: &'b SourceLine<'a>,
) -> Result<(), SettingsError>
    ensures { IsAppended result entries.new.items (with_line entries.old.items number line.now) }
{
    if !line.is_text() {
        return Err(SettingsError::at(number, Wrong::NotUtf8));
    }
    let tokens = line.tokens();
    if tokens.is_empty() {
        return Ok(());
    }
    if has_end(entries) {
        return Err(SettingsError::at(number, Wrong::AfterEnd));
    }
    match Statement::read(tokens) {
        Ok(statement) => push_statement(alloc, entries, number, statement),
        Err(wrong) => Err(SettingsError::at(number, wrong)),
    }
}

/// Reads lines one after the other, up to the first that is wrong.
fn read_lines<'b, 'a>(
    alloc: Global,
    lines: &'b [SourceLine<'a>],
    entries: &mut Vec<Entry<'b>>,
) -> Result<(), SettingsError>
    ensures { IsAppended result entries.new.items (entries_from entries.old.items 1 lines.now) }
{
    for (before, line) in lines.iter().enumerate() {
        push_line(alloc, entries, before + 1, line)?;
    }
    Ok(())
}

/// Reports whether a statement makes the setting of that number.
fn has_setting(entries: &[Entry], number: u8) -> bool
    ensures { result ≡ has_setting entries.now number }
{
    entries.iter().any(|entry| entry.makes_setting(number))
}

/// Reports whether a statement says what the role may do or read.
fn is_described(entries: &[Entry], role: &[u8]) -> bool
    ensures { result ≡ is_described entries.now role.now }
{
    entries.iter().any(|entry| entry.describes(role))
}

/// Reports whether a statement says which roles the name has.
fn is_holder(entries: &[Entry], name: &[u8]) -> bool
    ensures { result ≡ is_holder entries.now name.now }
{
    entries.iter().any(|entry| entry.is_of_holder(name))
}

/// Reports whether each role is described.
fn are_described(entries: &[Entry], roles: &[&[u8]]) -> bool
    ensures { result ≡ list_all (λ role. is_described entries.now role.now) roles.now }
{
    roles.iter().all(|role| is_described(entries, role))
}

/// Reports whether the entry names a role that no statement describes.
fn has_unknown_role(entries: &[Entry], entry: &Entry) -> bool
    ensures { result ≡ has_unknown_role entries.now entry.now }
{
    !are_described(entries, entry.statement().roles())
}

/// Reports whether a name signs by the entry that has no role.
fn signs_without_role(entries: &[Entry], entry: &Entry) -> bool
    ensures { result ≡ signs_without_role entries.now entry.now }
{
    match entry.statement().signer() {
        Some(name) => !is_holder(entries, name),
        None => false,
    }
}

/// Finds the first entry with a role that no statement describes.
fn unknown_role<'b, 'a>(entries: &'b [Entry<'a>]) -> Option<&'b Entry<'a>>
    ensures { option_copied result ≡ find (has_unknown_role entries.now) entries.now }
{
    entries
        .iter()
        .find(|entry| has_unknown_role(entries, entry))
}

/// Finds the first entry by which a name signs that has no role.
fn signer_without_role<'b, 'a>(entries: &'b [Entry<'a>]) -> Option<&'b Entry<'a>>
    ensures { option_copied result ≡ find (signs_without_role entries.now) entries.now }
{
    entries
        .iter()
        .find(|entry| signs_without_role(entries, entry))
}

/// Checks what only all statements together show.
#[tactic(auto, unfolding(crate::specs::Files::whole))]
fn check_whole(entries: &[Entry]) -> Result<(), SettingsError>
    ensures { IsAppended result entries.now (whole entries.now) }
{
    if has_begin(entries) && !has_end(entries) {
        return Err(SettingsError::of_file(Wrong::CutOff));
    }
    if !has_setting(entries, 0) {
        return Err(SettingsError::of_file(Wrong::NoSite));
    }
    if !has_setting(entries, 1) {
        return Err(SettingsError::of_file(Wrong::NoZone));
    }
    if let Some(entry) = unknown_role(entries) {
        return Err(SettingsError::at(entry.number(), Wrong::UnknownRole));
    }
    if let Some(entry) = signer_without_role(entries) {
        return Err(SettingsError::at(entry.number(), Wrong::NoRole));
    }
    Ok(())
}

/// Reads the lines of a file as settings. The error is the first line that is wrong, or else what
/// the whole lacks: the `end` of what has a `begin`, the site, the time zone, a role that a name
/// has, or the roles of a name that signs.
#[tactic(auto, unfolding(crate::specs::Files::entries_of))]
pub fn read_entries<'b, 'a>(
    alloc: Global,
    lines: &'b [SourceLine<'a>],
) -> Result<Vec<Entry<'b>>, SettingsError>
    ensures { IsRead result (λ entries. entries.items) (entries_of lines.now) }
{
    let mut entries = Vec::new(alloc);
    read_lines(alloc, lines, &mut entries)?;
    check_whole(&entries)?;
    Ok(entries)
}
