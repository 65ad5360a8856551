//! The office in a file, served over TCP.
ghost use Rattle.std.specs.Prelude.{◌≡◌, IfErr, false};
ghost use Rattle.sqlite_std_file.specs.File.{IsFresh};
ghost use Rattle.sqlite_wal.specs.Files.{image_at};
ghost use Rattle.sqlite.specs.Held.{state};
ghost use Rattle.sqlite.specs.State.{HasCleanDisk};
ghost use Rattle.office_commands.specs.Files.{ServesInFiles};
ghost use Rattle.office_commands.specs.OpenResult.{IsOpenResult};
ghost use Rattle.office_commands.specs.Serving.{ServesAt, ServiceEnds};
ghost use Rattle.office_commands.specs.declared.office_files.FilesLeft.TheVariants as files;

use crate::command::report_listening;
use crate::exit::Exit;
use crate::office_files::{FilesLeft, Opened, close, law_of_the_last_commit, refuse};
use office_desk::Desk;
use office_store::Fault;
use office_wire::{Routes, serve_each};
use sqlite::{Alter, Connection, FileFrom, Start};
use std::io::{Read, Write};
use std::net::{OpenListener, OpenStream};

/// Reports where an open office is served, and serves so many connections.
fn serve_at<L: OpenListener, W: Write, E: Write, S: Alter>(
    rt: &HostRuntime,
    routes: &Routes,
    listener: &L,
    port: u16,
    count: u32,
    desk: &mut Desk<S>,
    out: &mut W,
    err: &mut E,
) -> Exit
where
    L::Stream: Read + Write + OpenStream,
    ensures { ServesAt S.Store port count desk.old desk.new (W.contents out.old)
        (W.contents out.new) result }
{
    match report_listening(port, out) {
        Ok(()) => { Exit::from(serve_each(rt.alloc(), routes, listener, rt, count, desk, err)) }
        Err(_) => Exit::File,
    }
}

/// `serve FILE PORT COUNT` over a connection to the file.
fn serve_on<L: OpenListener, W: Write, E: Write, S: Alter>(
    rt: &HostRuntime,
    routes: &Routes,
    listener: &L,
    port: u16,
    count: u32,
    conn: Connection<S>,
    out: &mut W,
    err: &mut E,
) -> (Exit, Connection<S>)
where
    L::Stream: Read + Write + OpenStream,
    requires { conn.in_transaction ≡ false }
    ensures ends { ServiceEnds S.Store port count conn result.1 (W.contents out.old)
        (W.contents out.new) result.0 }
    ensures clean { HasCleanDisk (state S.Store result.1) → HasCleanDisk (state S.Store conn) }
    ensures shield { (state S.Store conn).IsShielded → (state S.Store result.1).IsShielded }
{
    match Desk::open(rt.alloc(), conn) {
        Ok(mut desk) => {
            let exit = serve_at(rt, routes, listener, port, count, &mut desk, out, err);
            (exit, desk.close())
        }
        Err((fault, conn)) => (Exit::Fault(fault), conn),
    }
}

/// Serves the office in a file over the connection with which the database opened the file: reports
/// on `out` where it is served, serves so many connections of a listener, and closes the file, as
/// [`crate::run_opened`] does. It gives how that ends, which is not reported yet, and what is left
/// of the file. The listener is bound to that port of this machine.
pub fn serve_opened<L: OpenListener, S: Start, W: Write, E: Write>(
    rt: &HostRuntime,
    routes: &Routes,
    listener: &L,
    port: u16,
    count: u32,
    opened: Opened<S>,
    out: &mut W,
    err: &mut E,
) -> (Exit, FilesLeft<FileFrom<S>>)
where
    L::Stream: Read + Write + OpenStream,
    requires { IsOpenResult IsFresh (image_at S.Start) opened }
    // A refused file is left as the database gave it back: fault 31, with nothing written.
    ensures refused { IfErr opened (λ e. (result.0 ≡ Exit.Fault Fault.Store)
        × (result.1 ≡ files.Unopened e.1) × (W.contents out.new ≡ W.contents out.old)) }

    // Over the connection the office is served, and it is closed.
    ensures serves { ServesInFiles result.1 (image_at S.Start) opened port count
        (W.contents out.old) (W.contents out.new) result.0 }
{
    match opened {
        Ok(conn) => {
            law_of_the_last_commit(&conn);
            let (exit, conn) = serve_on(rt, routes, listener, port, count, conn, out, err);
            law_of_the_last_commit(&conn);
            (exit, close(conn))
        }
        Err(refused) => (Exit::Fault(Fault::Store), refuse(refused)),
    }
}
