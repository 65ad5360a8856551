//! A file of settings.
ghost use Rattle.std.specs.Prelude.{◌≡◌, IfOk};
ghost use Rattle.office_policy.specs.Readings.{HasSettings, IsReading};
ghost use Rattle.office_settings.specs.Files.{entries_of, lines_in};

use crate::limits::{limits_of, reasons_of, site_of, zone_of};
use crate::{Limits, policy_of};
use office_access::{Policy, Power};
use office_base::Memory;
use office_settings::{Entry, Fault, SettingsError, Wrong, lines_of, read_entries};
use std::alloc::Global;

/// The settings of an office.
#[derive(Drop)]
pub struct Settings {
    pub policy: Policy,
    /// The address of the site, as a browser shows it.
    pub site: Vec<u8>,
    /// The name of the time zone of the office.
    pub zone: Vec<u8>,
    pub limits: Limits,
    /// The acts that need a reason.
    pub reasons: Vec<Power>,
}

/// Makes the settings of statements. Returns `None` if a name or a text is that of another name.
fn settings_of(alloc: Global, entries: &[Entry]) -> Result<Option<Settings>, Memory>
    ensures { IfOk result (λ settings. HasSettings entries.now settings) }
{
    let site = site_of(alloc, entries)?;
    let zone = zone_of(alloc, entries)?;
    let reasons = reasons_of(alloc, entries)?;
    match policy_of(alloc, entries)? {
        Some(policy) => Ok(Some(Settings {
            policy,
            site,
            zone,
            limits: limits_of(entries),
            reasons,
        })),
        None => Ok(None),
    }
}

/// Reads a file of settings, or finds why it is refused: the first line that is wrong, or what the
/// whole lacks.
pub fn read_settings(alloc: Global, text: &[u8]) -> Result<Result<Settings, Fault>, Memory>
    ensures { IfOk result (λ read. IsReading read (entries_of (lines_in text.now))) }
{
    let lines = lines_of(alloc, text)?;
    match read_entries(alloc, &lines) {
        Ok(entries) => match settings_of(alloc, &entries)? {
            Some(settings) => Ok(Ok(settings)),
            None => Ok(Err(Fault {
                line: None,
                wrong: Wrong::Alike,
            })),
        },
        Err(SettingsError::OutOfMemory) => Err(Memory),
        Err(SettingsError::Refused(fault)) => Ok(Err(fault)),
    }
}
