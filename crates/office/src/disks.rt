//! An office in a file, on the disk that whoever runs the program names.
ghost use Rattle.std.specs.Prelude.{◌≡◌};
ghost use Rattle.office_command_line.specs.Disks.{finishes_sectors};

use crate::{read_file, report_exit};
use office_command_line::{Disk, Order, UnknownDisk, disk_of};
use office_commands::{Exit, Routes, apply_opened, run_opened, serve_opened};
use office_store::Fault;
use sqlite::{Connection, Start, Unknown, Wary};
use std::env::VarError;
use std::fs::OpenOptions;
use std::io::{LineWriter, Read};
use std::net::{Ipv4Addr, SocketAddr, TcpListener};
use std::os::unix::fs::OpenOptionsExt;
use std::{env, io};

/// What may be done with a new office's file: its owner alone reads and writes it.
const MODE: u32 = 0o600;

/// An office's file, and the disk that it is on.
#[derive(Clone, Copy)]
pub(crate) struct Place<'a> {
    pub(crate) file: &'a str,
    pub(crate) disk: Disk,
}

/// The disk that the variable OFFICE_DISK names, or how the program ends where it names none.
pub(crate) fn disk_of_process(rt: &HostRuntime) -> Result<Disk, Exit> {
    let named = match env::var(rt, "OFFICE_DISK") {
        Ok(value) => disk_of(Some(value.as_str())),
        Err(VarError::NotPresent) => disk_of(None),
        Err(VarError::NotUnicode) => Err(UnknownDisk),
        Err(VarError::OutOfMemory) => return Err(Exit::Fault(Fault::Memory)),
    };
    match named {
        Ok(disk) => Ok(disk),
        Err(error) => {
            let _ = eprintln!(rt; "office: {error}");
            Err(Exit::BadWords)
        }
    }
}

/// Makes an office's file, empty, where there is none, so that its owner alone may read it,
/// whatever the process takes away of a mode; the log gets the file's mode as it is made. What
/// hinders it hinders the opening too.
pub(crate) fn make_private(rt: &HostRuntime, file: &str) {
    let _ = OpenOptions::new()
        .write(true)
        .create_new(true)
        .mode(MODE)
        .open(rt, file);
}

/// Does acts at the office at a place, whose files are opened by this start.
fn apply_over<S: Start>(rt: &HostRuntime, place: Place<'_>, start: S, text: &[u8]) -> Exit
    requires { S.Start.is_mixing ≡ finishes_sectors place.disk }
{
    // a line goes out in one write
    match LineWriter::new(rt.alloc(), io::writer(rt)) {
        Ok(mut out) => {
            make_private(rt, place.file);
            let opened = Connection::open_from(rt, place.file, false, start);
            let (exit, _left) = apply_opened(rt.alloc(), opened, text, &mut out);
            exit
        }
        Err(_) => Exit::Fault(Fault::Memory),
    }
}

/// Does the acts of a file, which is read into memory before the office's file is opened, at the
/// office at a place.
pub(crate) fn apply_in(rt: &HostRuntime, place: Place<'_>, acts: &str) -> Exit {
    let text = match read_file(rt, acts) {
        Ok(text) => text,
        Err(stop) => return Exit::from(stop),
    };
    match place.disk {
        Disk::Any => apply_over(rt, place, Wary, &text),
        Disk::PowerSafe => apply_over(rt, place, Unknown, &text),
    }
}

/// Runs a command on the office at a place, whose files are opened by this start.
fn run_over<S: Start, R: Read>(
    rt: &HostRuntime,
    place: Place<'_>,
    start: S,
    order: &Order<'_>,
    input: &mut R,
) -> u8
    requires { S.Start.is_mixing ≡ finishes_sectors place.disk }
{
    // a line goes out in one write
    match LineWriter::new(rt.alloc(), io::writer(rt)) {
        Ok(mut out) => {
            let mut err = rt.stderr();
            make_private(rt, place.file);
            let opened = Connection::open_from(rt, place.file, false, start);
            let (status, _left) = run_opened(rt.alloc(), opened, order, input, &mut out, &mut err);
            status
        }
        Err(_) => report_exit(rt, Exit::Fault(Fault::Memory)),
    }
}

/// Runs a command on the office at a place, whose file is made where there is none; `input` is what
/// the command reads. A file that is no database's stays as it is. Where it is not closed,
/// the file and its log still have every act.
pub(crate) fn run_in<R: Read>(
    rt: &HostRuntime,
    place: Place<'_>,
    order: &Order<'_>,
    input: &mut R,
) -> u8 {
    match place.disk {
        Disk::Any => run_over(rt, place, Wary, order, input),
        Disk::PowerSafe => run_over(rt, place, Unknown, order, input),
    }
}

/// Binds a port of 127.0.0.1, which no other machine reaches.
pub(crate) fn bound_to(rt: &HostRuntime, port: u16) -> io::Result<TcpListener> {
    TcpListener::bind(rt, SocketAddr::from((Ipv4Addr::LOCALHOST, port)))
}

/// Serves the office at a place, whose files are opened by this start.
fn serve_over<S: Start>(
    rt: &HostRuntime,
    routes: &Routes,
    listener: &TcpListener,
    port: u16,
    count: u32,
    place: Place<'_>,
    start: S,
) -> Exit
    requires { S.Start.is_mixing ≡ finishes_sectors place.disk }
{
    let (mut out, mut err) = (io::writer(rt), rt.stderr());
    make_private(rt, place.file);
    let opened = Connection::open_from(rt, place.file, false, start);
    let (exit, _left) = serve_opened(
        rt, routes, listener, port, count, opened, &mut out, &mut err,
    );
    exit
}

/// Serves the office at a place, whose file is made where there is none, at a port of 127.0.0.1,
/// which no other machine reaches. Where memory is refused for the routes, or the port cannot be
/// bound, the file stays as it is.
pub(crate) fn serve_in(rt: &HostRuntime, place: Place<'_>, port: u16, count: u32) -> Exit {
    let Ok(routes) = Routes::new(rt.alloc()) else {
        return Exit::Fault(Fault::Memory);
    };
    let Ok(listener) = bound_to(rt, port) else {
        return Exit::Socket;
    };
    match place.disk {
        Disk::Any => serve_over(rt, &routes, &listener, port, count, place, Wary),
        Disk::PowerSafe => serve_over(rt, &routes, &listener, port, count, place, Unknown),
    }
}
