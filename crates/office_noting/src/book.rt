//! A journal, its clock, and the settings that it names.
ghost use Rattle.std.specs.Prelude.{◌≡◌, IfErr, IfOk, OnOk};
ghost use Rattle.office_noting.specs.Ledgers.{BeginsBook, LacksBegin, LacksSettings, NamesSettings, NotesEnd, NotesSettings, ledger_of};

use office_base::Memory;
use office_journal::{Begun, Ended, Journal, Preceding, Settings, Unwritten};
use office_records::Text;
use std::alloc::Global;
use std::io::Write;

/// A clock for the lines of a journal.
pub trait Watch: Drop {
    /// Returns the moment in UTC, as `2026-11-28T16:21:47.083841+00:00`. `Memory` comes if it was
    /// refused for that text.
    fn moment(&mut self, alloc: Global) -> Result<Text, Memory>;
}

/// A journal that is open, the clock of its lines, and the settings that it names.
#[derive(Drop)]
pub struct Book<W, C> {
    pub journal: Journal<W>,
    pub watch: C,
    /// The SHA-256 of the settings in the last line `opened` or `settings`.
    pub named: [u8; 32],
}

impl<W: Write, C: Watch> Book<W, C> {
    /// Writes the line `opened`, with the SHA-256 of the settings in force and what precedes the line
    /// in the file. Returns the book that goes on behind it.
    pub fn open(
        alloc: Global,
        journal: Journal<W>,
        watch: C,
        settings: [u8; 32],
        preceding: Preceding<'_>,
    ) -> Result<Book<W, C>, Unwritten>
    where
        W: Drop,
        ensures ok { IfOk result (λ book. BeginsBook W.contents settings journal book) }
        ensures err { IfErr result (λ why. LacksBegin W.contents settings journal why) }
    {
        let mut book = Book {
            journal,
            watch,
            named: settings,
        };
        let Ok(moment) = book.watch.moment(alloc) else {
            return Err(Unwritten::Memory);
        };
        let begun = Begun {
            at: moment.text(),
            settings,
            preceding,
        };
        match book.journal.note_opened(alloc, &begun) {
            Ok(_) => Ok(book),
            Err(why) => Err(why),
        }
    }

    /// Writes the line `closed`, and returns its number. Write no line after it.
    pub fn close(&mut self, alloc: Global) -> Result<u64, Unwritten>
        ensures line { NotesEnd W.contents result self.old.journal self.new.journal }
        ensures named { self.new.named ≡ self.old.named }
    {
        let Ok(moment) = self.watch.moment(alloc) else {
            return Err(Unwritten::Memory);
        };
        let ended = Ended {
            at: moment.text(),
            preceding: Preceding::nothing(),
        };
        self.journal.note_closed(alloc, &ended)
    }

    /// Writes the line of settings with that SHA-256, and returns its number.
    fn note_settings(&mut self, alloc: Global, sha256: [u8; 32]) -> Result<u64, Unwritten>
        ensures line { NotesSettings W.contents sha256 result self.old.journal
            self.new.journal }
        ensures named { self.new.named ≡ self.old.named }
    {
        let Ok(moment) = self.watch.moment(alloc) else {
            return Err(Unwritten::Memory);
        };
        let settings = Settings {
            at: moment.text(),
            sha256,
            preceding: Preceding::nothing(),
        };
        self.journal.note_settings(alloc, &settings)
    }

    /// Writes the line of settings with that SHA-256, unless the journal names them already.
    pub(crate) fn name_settings(&mut self, alloc: Global, sha256: [u8; 32]) -> Result<(), Unwritten>
        ensures ok { OnOk result (NamesSettings W.contents sha256 (ledger_of self.old)
            (ledger_of self.new)) }
        ensures err { IfErr result (λ why. LacksSettings W.contents sha256 why
            (ledger_of self.old) (ledger_of self.new)) }
    {
        if self.named == sha256 {
            return Ok(());
        }
        match self.note_settings(alloc, sha256) {
            Ok(_) => {
                self.named = sha256;
                Ok(())
            }
            Err(why) => Err(why),
        }
    }
}
