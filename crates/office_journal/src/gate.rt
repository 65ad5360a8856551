//! The lines of a gate itself: its begin, its end, its settings and its clock.
ghost use Rattle.std.specs.Prelude.{◌≡◌, OnOk};
ghost use Rattle.office_journal.specs.Kinds.{begun_fields, clock_fields, ended_fields, settings_fields};
ghost use Rattle.office_journal.specs.Members.{Puts};

use crate::Preceding;
use crate::members::{put_digest, put_flag, put_text};
use json::Writer;
use std::alloc::{AllocError, Global};

/// The begin of a gate, as the line `opened` names it.
#[derive(Clone, Copy)]
pub struct Begun<'a> {
    /// When the line is written, as [`crate::Asked`] has it.
    pub at: &'a str,
    /// The SHA-256 of the settings that count from here on.
    pub settings: [u8; 32],
    pub preceding: Preceding<'a>,
}

/// The end of a gate, as the line `closed` names it.
#[derive(Clone, Copy)]
pub struct Ended<'a> {
    /// When the line is written, as [`crate::Asked`] has it.
    pub at: &'a str,
    pub preceding: Preceding<'a>,
}

/// Other settings, as the line `settings` names them. It stands before each line of what they
/// decide.
#[derive(Clone, Copy)]
pub struct Settings<'a> {
    /// When the line is written, as [`crate::Asked`] has it.
    pub at: &'a str,
    /// The SHA-256 of the file.
    pub sha256: [u8; 32],
    pub preceding: Preceding<'a>,
}

/// A clock that is believed no more, or again, as the line `clock` names it.
#[derive(Clone, Copy)]
pub struct Clock<'a> {
    /// When the line is written, as [`crate::Asked`] has it.
    pub at: &'a str,
    pub is_believed: bool,
    /// Why it is believed or not, in words.
    pub why: &'a str,
    pub preceding: Preceding<'a>,
}

impl Begun<'_> {
    /// Writes the members of the line.
    pub(crate) fn put(&self, alloc: Global, members: &mut Writer) -> Result<(), AllocError>
        ensures { OnOk result (Puts members.old members.new (begun_fields self.now)) }
    {
        put_text(members, "at", self.at)?;
        put_text(members, "what", "opened")?;
        put_digest(alloc, members, "settings", self.settings)?;
        self.preceding.put(alloc, members)
    }
}

impl Ended<'_> {
    /// Writes the members of the line.
    pub(crate) fn put(&self, alloc: Global, members: &mut Writer) -> Result<(), AllocError>
        ensures { OnOk result (Puts members.old members.new (ended_fields self.now)) }
    {
        put_text(members, "at", self.at)?;
        put_text(members, "what", "closed")?;
        self.preceding.put(alloc, members)
    }
}

impl Settings<'_> {
    /// Writes the members of the line.
    pub(crate) fn put(&self, alloc: Global, members: &mut Writer) -> Result<(), AllocError>
        ensures { OnOk result (Puts members.old members.new (settings_fields self.now)) }
    {
        put_text(members, "at", self.at)?;
        put_text(members, "what", "settings")?;
        put_digest(alloc, members, "sha256", self.sha256)?;
        self.preceding.put(alloc, members)
    }
}

impl Clock<'_> {
    /// Writes the members of the line.
    pub(crate) fn put(&self, alloc: Global, members: &mut Writer) -> Result<(), AllocError>
        ensures { OnOk result (Puts members.old members.new (clock_fields self.now)) }
    {
        put_text(members, "at", self.at)?;
        put_text(members, "what", "clock")?;
        put_flag(members, "believed", self.is_believed)?;
        put_text(members, "why", self.why)?;
        self.preceding.put(alloc, members)
    }
}
