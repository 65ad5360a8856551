//! The office in a file, served over TCP to the names that a proxy states.
ghost use Rattle.std.specs.Prelude.{◌≡◌, IfErr, false};
ghost use Rattle.sqlite_std_file.specs.File.{IsFresh};
ghost use Rattle.sqlite_wal.specs.Files.{image_at};
ghost use Rattle.sqlite.specs.Held.{state};
ghost use Rattle.sqlite.specs.State.{HasCleanDisk};
ghost use Rattle.office_commands.specs.Files.{GatesInFiles};
ghost use Rattle.office_commands.specs.OpenResult.{IsOpenResult};
ghost use Rattle.office_commands.specs.Serving.{GateEnds, ServesAtBy};
ghost use Rattle.office_commands.specs.declared.office_files.FilesLeft.TheVariants as files;
ghost use Rattle.office_gate.specs.Sessions.{LeavesGated};

use crate::command::report_listening;
use crate::exit::Exit;
use crate::office_files::{FilesLeft, Opened, close, law_of_the_last_commit, refuse};
use office_desk::Desk;
use office_gate::Gatekeeper;
use office_store::Fault;
use office_wire::{Routes, Serving, Sockets};
use sqlite::{Alter, Connection, FileFrom, Start};
use std::io::{Read, Write};
use std::net::{OpenListener, OpenStream};

/// Reports where an open office is served, and serves that many connections.
fn gate_at<L: OpenListener, G: Gatekeeper, W: Write, E: Write, S: Alter>(
    rt: &HostRuntime,
    routes: &Routes,
    listener: &L,
    port: u16,
    count: u32,
    keeper: &mut G,
    desk: &mut Desk<S>,
    out: &mut W,
    err: &mut E,
) -> Exit
where
    L::Stream: Read + Write + OpenStream,
    ensures { ServesAtBy (LeavesGated S.Store (G.settings keeper.old)) S.Store port count desk.old
        desk.new (W.contents out.old) (W.contents out.new) result }
{
    match report_listening(port, out) {
        Ok(()) => {
            let alloc = rt.alloc();
            let mut sockets = Sockets {
                alloc,
                listener,
                clock: rt,
                err,
            };
            let serving = Serving { alloc, routes };
            Exit::from(keeper.serve(serving, &mut sockets, count, desk))
        }
        Err(_) => Exit::File,
    }
}

/// `gate FILE PORT COUNT ACCESS TOKEN JOURNAL` over a connection to the file.
fn gate_on<L: OpenListener, G: Gatekeeper, W: Write, E: Write, S: Alter>(
    rt: &HostRuntime,
    routes: &Routes,
    listener: &L,
    port: u16,
    count: u32,
    keeper: &mut G,
    conn: Connection<S>,
    out: &mut W,
    err: &mut E,
) -> (Exit, Connection<S>)
where
    L::Stream: Read + Write + OpenStream,
    requires { conn.in_transaction ≡ false }
    ensures ends { GateEnds S.Store (G.settings keeper.old) port count conn result.1
        (W.contents out.old) (W.contents out.new) result.0 }
    ensures clean { HasCleanDisk (state S.Store result.1) → HasCleanDisk (state S.Store conn) }
    ensures shield { (state S.Store conn).IsShielded → (state S.Store result.1).IsShielded }
{
    match Desk::open(rt.alloc(), conn) {
        Ok(mut desk) => {
            let exit = gate_at(
                rt, routes, listener, port, count, keeper, &mut desk, out, err,
            );
            (exit, desk.close())
        }
        Err((fault, conn)) => (Exit::Fault(fault), conn),
    }
}

/// Serves the office in a file as [`crate::serve_opened`] does, as far as the name that a proxy states
/// may have it by the settings in force, which the gatekeeper knows.
pub fn gate_opened<L: OpenListener, G: Gatekeeper, S: Start, W: Write, E: Write>(
    rt: &HostRuntime,
    routes: &Routes,
    listener: &L,
    port: u16,
    count: u32,
    keeper: &mut G,
    opened: Opened<S>,
    out: &mut W,
    err: &mut E,
) -> (Exit, FilesLeft<FileFrom<S>>)
where
    L::Stream: Read + Write + OpenStream,
    requires { IsOpenResult IsFresh (image_at S.Start) opened }
    // A refused file is left as the database gave it back: fault 31, with nothing written.
    ensures refused { IfErr opened (λ e. (result.0 ≡ Exit.Fault Fault.Store)
        × (result.1 ≡ files.Unopened e.1) × (W.contents out.new ≡ W.contents out.old)) }

    // Over the connection the office is served, and it is closed.
    ensures serves { GatesInFiles result.1 (image_at S.Start) opened (G.settings keeper.old) port
        count (W.contents out.old) (W.contents out.new) result.0 }
{
    match opened {
        Ok(conn) => {
            law_of_the_last_commit(&conn);
            let (exit, conn) = gate_on(rt, routes, listener, port, count, keeper, conn, out, err);
            law_of_the_last_commit(&conn);
            (exit, close(conn))
        }
        Err(refused) => (Exit::Fault(Fault::Store), refuse(refused)),
    }
}
