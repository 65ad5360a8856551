//! The other lines of a gate, written into a journal.
ghost use Rattle.std.specs.Prelude.{◌≡◌, ◌≢◌, Err};
ghost use Rattle.office_journal.specs.Kinds.{IsRefusedRead, begun_fields, came_fields, clock_fields, ended_fields, upload_fields, reading_fields, refused_fields, settings_fields, stored_fields};
ghost use Rattle.office_journal.specs.Noting.{IsNoted};
ghost use Rattle.office_journal.specs.Unread.{IsJudged};

use crate::members::new_members;
use crate::{
    Begun, Came, Clock, Ended, Journal, Reading, Refused, Settings, Stored, Unwritten, Upload,
};
use std::alloc::Global;
use std::io::Write;

impl<W: Write> Journal<W> {
    /// Writes the line of a request that was refused, and returns its number. The office got nothing
    /// of the request.
    pub fn note_refused(&mut self, alloc: Global, refused: &Refused<'_>) -> Result<u64, Unwritten>
        ensures noted { IsNoted W.contents self.old self.new (refused_fields refused.now) result }
        // Texts that cannot be read refuse it, and no others do.
        ensures read { IsJudged (IsRefusedRead refused.now) result }
    {
        let mut members = new_members(alloc);
        refused.put(alloc, &mut members)?;
        self.note(alloc, members)
    }

    /// Writes the line of a long list that came, and returns its number. Call it before anybody reads
    /// the list.
    pub fn note_came(&mut self, alloc: Global, came: &Came<'_>) -> Result<u64, Unwritten>
        ensures noted { IsNoted W.contents self.old self.new (came_fields came.now) result }
        ensures texts { result ≢ Err Unwritten.NoJson }
    {
        let mut members = new_members(alloc);
        came.put(alloc, &mut members)?;
        self.note(alloc, members)
    }

    /// Writes the line of a reading that was answered, and returns its number.
    pub fn note_reading(&mut self, alloc: Global, reading: &Reading<'_>) -> Result<u64, Unwritten>
        ensures noted { IsNoted W.contents self.old self.new (reading_fields reading.now) result }
        ensures texts { result ≢ Err Unwritten.NoJson }
    {
        let mut members = new_members(alloc);
        reading.put(alloc, &mut members)?;
        self.note(alloc, members)
    }

    /// Writes the line of a file that goes into the vault, and returns its number. Call it before the
    /// vault gets the file.
    pub fn note_put(&mut self, alloc: Global, upload: &Upload<'_>) -> Result<u64, Unwritten>
        ensures noted { IsNoted W.contents self.old self.new (upload_fields upload.now) result }
        ensures texts { result ≢ Err Unwritten.NoJson }
    {
        let mut members = new_members(alloc);
        upload.put(alloc, &mut members)?;
        self.note(alloc, members)
    }

    /// Writes the line of a file that is in the vault, and returns its number. Call it before the
    /// client has its answer.
    pub fn note_stored(&mut self, alloc: Global, stored: &Stored<'_>) -> Result<u64, Unwritten>
        ensures noted { IsNoted W.contents self.old self.new (stored_fields stored.now) result }
        ensures texts { result ≢ Err Unwritten.NoJson }
    {
        let mut members = new_members(alloc);
        stored.put(alloc, &mut members)?;
        self.note(alloc, members)
    }

    /// Writes the line of the begin of a gate, and returns its number. Call it before the gate decides
    /// anything by its settings.
    pub fn note_opened(&mut self, alloc: Global, opened: &Begun<'_>) -> Result<u64, Unwritten>
        ensures noted { IsNoted W.contents self.old self.new (begun_fields opened.now) result }
        ensures texts { result ≢ Err Unwritten.NoJson }
    {
        let mut members = new_members(alloc);
        opened.put(alloc, &mut members)?;
        self.note(alloc, members)
    }

    /// Writes the line of the end of a gate, and returns its number. No line of the gate follows.
    pub fn note_closed(&mut self, alloc: Global, closed: &Ended<'_>) -> Result<u64, Unwritten>
        ensures noted { IsNoted W.contents self.old self.new (ended_fields closed.now) result }
        ensures texts { result ≢ Err Unwritten.NoJson }
    {
        let mut members = new_members(alloc);
        closed.put(alloc, &mut members)?;
        self.note(alloc, members)
    }

    /// Writes the line of other settings, and returns its number. Call it before the gate decides
    /// anything by them.
    pub fn note_settings(
        &mut self,
        alloc: Global,
        settings: &Settings<'_>,
    ) -> Result<u64, Unwritten>
        ensures noted { IsNoted W.contents self.old self.new (settings_fields settings.now) result }
        ensures texts { result ≢ Err Unwritten.NoJson }
    {
        let mut members = new_members(alloc);
        settings.put(alloc, &mut members)?;
        self.note(alloc, members)
    }

    /// Writes the line of a clock that is believed no more, or again, and returns its number.
    pub fn note_clock(&mut self, alloc: Global, clock: &Clock<'_>) -> Result<u64, Unwritten>
        ensures noted { IsNoted W.contents self.old self.new (clock_fields clock.now) result }
        ensures texts { result ≢ Err Unwritten.NoJson }
    {
        let mut members = new_members(alloc);
        clock.put(alloc, &mut members)?;
        self.note(alloc, members)
    }
}
