//! What the settings say beside the rights.
ghost use Rattle.std.specs.Prelude.{◌≡◌, ◌++◌, IfOk, OnOk};
ghost use Rattle.std.specs.List.{flat_map};
ghost use Rattle.std.specs.Option.{option_copied, option_to_list};
ghost use Rattle.office_policy.specs.Limits.{address_by, address_of, is_reading, is_reading_by, limits_of, number_by, number_or, reasons_by, reasons_of, setting_line, site_of, zone_of};
ghost use Rattle.office_policy.specs.Powers.{act_power};
ghost use Rattle.office_settings.specs.Views.{line_of};

use crate::powers::act_power;
use office_access::Power;
use office_base::Memory;
use office_settings::{Entry, Statement};
use std::alloc::Global;

/// What a name may have at once, how much stays where, and what the journal has.
#[derive(Clone, Copy)]
pub struct Limits {
    /// How many requests a name may have at once.
    pub requests: u64,
    /// How many long lists a name may have at once.
    pub lists: u64,
    /// How many bytes of the journal the refused requests of a name may take on a day.
    pub journal_bytes: u64,
    /// How many days the contents of filed records stay beside the journal.
    pub content_days: u64,
    /// How many megabytes of the disk filings leave free.
    pub free_megabytes: u64,
    /// Whether the journal has a line for each reading that was answered.
    pub journals_readings: bool,
}

/// Finds the line that makes a setting, by the number of the setting.
fn setting_line<'b, 'a>(number: u8, entries: &'b [Entry<'a>]) -> Option<&'b Entry<'a>>
    ensures { option_copied result ≡ setting_line number entries.now }
{
    entries.iter().find(|entry| entry.makes_setting(number))
}

/// Returns the number of a line, or another.
fn number_or(other: u64, statement: &Statement) -> u64
    ensures { result ≡ number_or other (line_of statement.now) }
{
    match statement {
        Statement::Requests(count) => *count,
        Statement::Lists(count) => *count,
        Statement::JournalBytes(count) => *count,
        Statement::ContentDays(days) => *days,
        Statement::FreeMegabytes(count) => *count,
        _ => other,
    }
}

/// Returns the number of the line that makes a setting, or without one another.
fn number_by(other: u64, number: u8, entries: &[Entry]) -> u64
    ensures { result ≡ number_by other (setting_line number entries.now) }
{
    match setting_line(number, entries) {
        Some(entry) => number_or(other, entry.statement()),
        None => other,
    }
}

/// Reports whether a line has each reading in the journal.
fn is_reading(statement: &Statement) -> bool
    ensures { result ≡ is_reading (line_of statement.now) }
{
    match statement {
        Statement::JournalsReadings(is) => *is,
        _ => true,
    }
}

/// Reports whether the journal has each reading.
fn journals_readings(entries: &[Entry]) -> bool
    ensures { result ≡ is_reading_by (setting_line 7 entries.now) }
{
    match setting_line(7, entries) {
        Some(entry) => is_reading(entry.statement()),
        None => true,
    }
}

/// Returns the limits of the lines, or without a line those of `docs/ACCESS.md`.
#[tactic(auto, unfolding(crate::specs::Limits::limits_of))]
pub(crate) fn limits_of(entries: &[Entry]) -> Limits
    ensures { result ≡ limits_of entries.now }
{
    Limits {
        requests: number_by(8, 2, entries),
        lists: number_by(2, 3, entries),
        journal_bytes: number_by(10_000_000, 4, entries),
        content_days: number_by(3, 5, entries),
        free_megabytes: number_by(256, 6, entries),
        journals_readings: journals_readings(entries),
    }
}

/// Returns the address of a site, or the name of a time zone.
fn address_of<'a>(statement: &Statement<'a>) -> &'a [u8]
    ensures { result.now ≡ address_of (line_of statement.now) }
{
    match statement {
        Statement::Site(address) => address,
        Statement::Zone(name) => name,
        _ => &[],
    }
}

/// Copies the address of the line that makes a setting.
fn address_by(alloc: Global, number: u8, entries: &[Entry]) -> Result<Vec<u8>, Memory>
    ensures { IfOk result (λ text. text.items ≡ address_by (setting_line number entries.now)) }
{
    match setting_line(number, entries) {
        Some(entry) => Ok(Vec::from_slice(alloc, address_of(entry.statement()))?),
        None => Ok(Vec::new(alloc)),
    }
}

/// Copies the address of the site.
pub(crate) fn site_of(alloc: Global, entries: &[Entry]) -> Result<Vec<u8>, Memory>
    ensures { IfOk result (λ text. text.items ≡ site_of entries.now) }
{
    address_by(alloc, 0, entries)
}

/// Copies the name of the time zone.
pub(crate) fn zone_of(alloc: Global, entries: &[Entry]) -> Result<Vec<u8>, Memory>
    ensures { IfOk result (λ text. text.items ≡ zone_of entries.now) }
{
    address_by(alloc, 1, entries)
}

/// Appends a power, if there is one.
fn push_power(powers: &mut Vec<Power>, power: Option<Power>) -> Result<(), Memory>
    ensures { OnOk result (powers.new.items ≡ powers.old.items ++ option_to_list power) }
{
    if let Some(power) = power {
        powers.push(power)?;
    }
    Ok(())
}

/// Appends what words behind `reason-for` allow.
fn push_acts(powers: &mut Vec<Power>, acts: &[&[u8]]) -> Result<(), Memory>
    ensures { OnOk result (powers.new.items
        ≡ powers.old.items ++ flat_map (λ act. option_to_list (act_power act.now)) acts.now) }
{
    for act in acts {
        push_power(powers, act_power(act))?;
    }
    Ok(())
}

/// Appends the acts that need a reason by a line.
#[tactic(auto, using(crate::proofs::Lists::flat_map_map))]
fn push_reasons(powers: &mut Vec<Power>, statement: &Statement) -> Result<(), Memory>
    ensures { OnOk result (powers.new.items ≡ powers.old.items ++ reasons_by (line_of statement.now)) }
{
    match statement {
        Statement::ReasonFor(acts) => push_acts(powers, acts),
        _ => Ok(()),
    }
}

/// Collects the acts that need a reason.
pub(crate) fn reasons_of(alloc: Global, entries: &[Entry]) -> Result<Vec<Power>, Memory>
    ensures { IfOk result (λ powers. powers.items ≡ reasons_of entries.now) }
{
    let mut powers = Vec::new(alloc);
    for entry in entries {
        push_reasons(&mut powers, entry.statement())?;
    }
    Ok(powers)
}
