//! Connections at a gate with a journal, served one after another.
ghost use Rattle.std.specs.Prelude.{◌≡◌, Bool, IfErr, IfOk, Result};
ghost use Rattle.office_gate.specs.Exchanges.{LeavesVisited};
ghost use Rattle.office_gate.specs.InForce.{IsPolicyIn, Renews};
ghost use Rattle.office_gate.specs.Sessions.{GateTurn, GatesAll};
ghost use Rattle.office_gate.specs.declared.access.AccessError.{AccessError};
ghost use Rattle.office_noting.specs.Arrivals.{NotesVisit};
ghost use Rattle.office_noting.specs.Gates.{HasItsDigest, OpensGate};
ghost use Rattle.office_noting.specs.Ledgers.{LacksBegin, ledger_of};
ghost use Rattle.office_noting.specs.Sessions.{NotedTurn, NotedTurns};
ghost use Rattle.office_wire.specs.Connections.{IsVisitedBy};
ghost use Rattle.sha2.specs.Sha256.{sha256};

use crate::arrival::Arrival;
use crate::book::{Book, Watch};
use crate::exchange::answer_noted_visit;
use office_base::Io;
use office_desk::Desk;
use office_gate::{Access, SettingsText};
use office_journal::{Journal, Preceding, Unwritten};
use office_rules::digest_of;
use office_wire::{ConnectionSource, Service, Serving, ends_after, failed_by, send};
use sqlite::Alter;
use std::alloc::Global;
use std::io::{Read, Write};

/// A gate that notes what it does: the settings in force, and the journal.
#[derive(Drop)]
pub struct NotingGate<T, W, C> {
    pub access: Access<T>,
    /// The SHA-256 of the text that the settings in force are those of.
    pub settings: [u8; 32],
    pub book: Book<W, C>,
}

impl<T: SettingsText, W: Write, C: Watch> NotingGate<T, W, C> {
    /// Writes the line `opened` into a journal, with the SHA-256 of the settings and what precedes
    /// the line in the file. Returns the gate that goes on behind it.
    pub fn open(
        alloc: Global,
        access: Access<T>,
        journal: Journal<W>,
        watch: C,
        preceding: Preceding<'_>,
    ) -> Result<NotingGate<T, W, C>, Unwritten>
    where
        W: Drop,
        requires { IsPolicyIn access.seen.items access.gate.policy }
        ensures ok { IfOk result (λ gate. OpensGate W.contents access journal gate) }
        ensures err { IfErr result
            (λ why. LacksBegin W.contents (sha256 access.seen.items) journal why) }
    {
        let settings = digest_of(&access.seen);
        match Book::open(alloc, journal, watch, settings, preceding) {
            Ok(book) => Ok(NotingGate {
                access,
                settings,
                book,
            }),
            Err(why) => Err(why),
        }
    }

    /// Reads the settings anew, and reports a text that is not taken over.
    fn renew_or_report(&mut self, alloc: Global)
        ensures renews { (renewal : Result Bool AccessError)
            × Renews T.readings renewal self.old.access self.new.access }
        ensures digest { HasItsDigest self.old → HasItsDigest self.new }
        ensures ledger { ledger_of self.new.book ≡ ledger_of self.old.book }
    {
        match self.access.renew(alloc) {
            Ok(true) => {
                self.settings = digest_of(&self.access.seen);
            }
            Ok(false) => {}
            Err(error) => self.access.source.report(error),
        }
    }
}

/// Answers one request that comes through the proxy, as `office_gate::serve_visit` does, and notes it.
fn serve_noted_visit<R: Read, O: Write, W: Write, C: Watch, S: Alter>(
    serving: Serving<'_>,
    arrival: &Arrival<'_>,
    book: &mut Book<W, C>,
    desk: &mut Desk<S>,
    reader: &mut R,
    writer: &mut O,
) -> Result<u16, Io>
    ensures noted { NotesVisit W.contents S.Store arrival.now (ledger_of book.old)
        (ledger_of book.new) desk.old desk.new }
    ensures leaves { IsVisitedBy (λ t d. LeavesVisited S.Store t arrival.now.gate.now.policy d)
        S.Store result desk.old desk.new }
{
    let sending = answer_noted_visit(serving, arrival, book, desk, reader)?;
    send(sending, writer)
}

/// Waits for the next connection of a source, serves it under the settings of that moment, and
/// closes it.
fn serve_next_noted_visit<C: ConnectionSource, T: SettingsText, W: Write, K: Watch, S: Alter>(
    serving: Serving<'_>,
    source: &mut C,
    gate: &mut NotingGate<T, W, K>,
    desk: &mut Desk<S>,
) -> Result<u16, Io>
    ensures turn { GateTurn S.Store T.readings result gate.old.access gate.new.access desk.old
        desk.new }
    ensures digest { HasItsDigest gate.old → HasItsDigest gate.new }
    ensures noted { HasItsDigest gate.old → NotedTurn W.contents S.Store
        (ledger_of gate.old.book) (ledger_of gate.new.book) desk.old desk.new }
{
    let (mut reader, mut writer) = source.accept()?;
    gate.renew_or_report(serving.alloc);
    let arrival = Arrival {
        gate: &gate.access.gate,
        settings: gate.settings,
    };
    let served = serve_noted_visit(
        serving,
        &arrival,
        &mut gate.book,
        desk,
        &mut reader,
        &mut writer,
    );
    source.close(reader, writer, served)
}

/// Serves that many connections of a source, as `office_gate::serve_visits` does, and notes what the
/// journal is to have of each. If the SHA-256 of the settings is that of their text at first, each
/// line names the settings in force by that of theirs.
pub fn serve_noted_visits<C: ConnectionSource, T: SettingsText, W: Write, K: Watch, S: Alter>(
    serving: Serving<'_>,
    source: &mut C,
    gate: &mut NotingGate<T, W, K>,
    count: u32,
    desk: &mut Desk<S>,
) -> Service
    ensures gates { GatesAll S.Store T.readings count result gate.old.access gate.new.access
        desk.old desk.new }
    ensures digest { HasItsDigest gate.old → HasItsDigest gate.new }
    ensures noted { HasItsDigest gate.old → NotedTurns W.contents S.Store result.connections
        (ledger_of gate.old.book) (ledger_of gate.new.book) desk.old desk.new }
{
    let mut has_failed = false;
    for before in 0..count {
        let served = serve_next_noted_visit(serving, source, gate, desk);
        has_failed = failed_by(has_failed, served);
        if ends_after(desk, served) {
            return Service {
                connections: before + 1,
                has_failed,
                is_poisoned: true,
            };
        }
    }
    Service {
        connections: count,
        has_failed,
        is_poisoned: false,
    }
}
