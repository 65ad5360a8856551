//! An office in a file, served to the names that a proxy states, by settings in a file.
ghost use Rattle.std.specs.Prelude.{◌≡◌};
ghost use Rattle.std.specs.Prelude.{IfOk};
ghost use Rattle.office_command_line.specs.Disks.{finishes_sectors};
ghost use Rattle.office_gate.specs.InForce.{IsPolicyIn};

use crate::disks::{Place, bound_to, make_private};
use crate::journal::{LinesFile, WallClock, journal_in};
use crate::read_file;
use office_base::Stop;
use office_command_line::Disk;
use office_commands::{Exit, Routes, gate_opened};
use office_gate::{Access, AccessError, Gatekeeper, SettingsText, secret_in};
use office_journal::Preceding;
use office_noting::NotingGate;
use office_records::Text;
use office_settings::Fault as SettingsFault;
use office_store::Fault;
use sqlite::{Connection, Start, Unknown, Wary};
use std::alloc::Global;
use std::io;
use std::net::TcpListener;

/// The files of a gate: the settings, the secret of the proxy, and the journal, or `-` for none.
#[derive(Clone, Copy)]
pub(crate) struct Door<'a> {
    pub(crate) access: &'a str,
    pub(crate) token: &'a str,
    pub(crate) journal: &'a str,
}

/// The settings in a file.
#[derive(Drop)]
struct AccessFile<'a> {
    rt: &'a HostRuntime,
    file: &'a str,
}

/// Prints why a file of settings is refused.
fn print_fault(rt: &HostRuntime, file: &str, fault: SettingsFault) {
    let reason = fault.wrong.text();
    let _ = match fault.line {
        Some(line) => eprintln!(rt; "office: {file}:{line}: {reason}"),
        None => eprintln!(rt; "office: {file}: {reason}"),
    };
}

impl SettingsText for AccessFile<'_> {
    fn read(&mut self, _alloc: Global) -> Result<Vec<u8>, Stop> {
        read_file(self.rt, self.file)
    }

    fn report(&mut self, error: AccessError) {
        match error {
            AccessError::Wrong(fault) => print_fault(self.rt, self.file, fault),
            AccessError::Io => {
                let _ = eprintln!(self.rt; "office: {} cannot be read", self.file);
            }
            AccessError::Memory => {
                let _ = eprintln!(self.rt; "office: no memory for {}", self.file);
            }
        }
    }
}

/// Reads the secret of the proxy.
fn secret_of(rt: &HostRuntime, file: &str) -> Result<Text, Exit> {
    let bytes = match read_file(rt, file) {
        Ok(bytes) => bytes,
        Err(stop) => return Err(Exit::from(stop)),
    };
    match secret_in(rt.alloc(), &bytes) {
        Ok(Some(secret)) => Ok(secret),
        Ok(None) => {
            let _ = eprintln!(rt; "office: {file} has no secret of 32 to 200 letters and digits");
            Err(Exit::BadWords)
        }
        Err(_) => Err(Exit::Fault(Fault::Memory)),
    }
}

/// Reads the settings, and the secret of the proxy.
fn access_of<'a>(rt: &'a HostRuntime, door: Door<'a>) -> Result<Access<AccessFile<'a>>, Exit>
    ensures { IfOk result (λ access. IsPolicyIn access.seen.items access.gate.policy) }
{
    let token = secret_of(rt, door.token)?;
    let source = AccessFile {
        rt,
        file: door.access,
    };
    match Access::open(rt.alloc(), source, token) {
        Ok(access) => Ok(access),
        Err(AccessError::Wrong(fault)) => {
            print_fault(rt, door.access, fault);
            Err(Exit::BadWords)
        }
        Err(AccessError::Io) => Err(Exit::File),
        Err(AccessError::Memory) => Err(Exit::Fault(Fault::Memory)),
    }
}

/// Serves the office at a place, whose files are opened by this start.
fn gate_over<S: Start, G: Gatekeeper>(
    rt: &HostRuntime,
    routes: &Routes,
    listener: &TcpListener,
    port: u16,
    count: u32,
    place: Place<'_>,
    start: S,
    keeper: &mut G,
) -> Exit
    requires { S.Start.is_mixing ≡ finishes_sectors place.disk }
{
    let (mut out, mut err) = (io::writer(rt), rt.stderr());
    make_private(rt, place.file);
    let opened = Connection::open_from(rt, place.file, false, start);
    let (exit, _left) = gate_opened(
        rt, routes, listener, port, count, keeper, opened, &mut out, &mut err,
    );
    exit
}

/// Serves the office at a place, on its disk.
fn gate_on_disk<G: Gatekeeper>(
    rt: &HostRuntime,
    routes: &Routes,
    listener: &TcpListener,
    port: u16,
    count: u32,
    place: Place<'_>,
    keeper: &mut G,
) -> Exit {
    match place.disk {
        Disk::Any => gate_over(rt, routes, listener, port, count, place, Wary, keeper),
        Disk::PowerSafe => gate_over(rt, routes, listener, port, count, place, Unknown, keeper),
    }
}

/// Opens the journal of a gate, and notes that the gate begins.
fn noting_gate<'a>(
    rt: &'a HostRuntime,
    file: &str,
    access: Access<AccessFile<'a>>,
) -> Result<NotingGate<AccessFile<'a>, LinesFile, WallClock<'a>>, Exit>
    requires { IsPolicyIn access.seen.items access.gate.policy }
{
    let journal = journal_in(rt, file)?;
    match NotingGate::open(
        rt.alloc(),
        access,
        journal,
        WallClock { rt },
        Preceding::nothing(),
    ) {
        Ok(gate) => Ok(gate),
        Err(_) => {
            let _ = eprintln!(rt; "office: {file} takes no line");
            Err(Exit::File)
        }
    }
}

/// Serves the office at a place with a journal, and notes that the gate ends.
fn gate_noting(
    rt: &HostRuntime,
    routes: &Routes,
    listener: &TcpListener,
    port: u16,
    count: u32,
    place: Place<'_>,
    file: &str,
    access: Access<AccessFile<'_>>,
) -> Exit
    requires { IsPolicyIn access.seen.items access.gate.policy }
{
    let mut gate = match noting_gate(rt, file, access) {
        Ok(gate) => gate,
        Err(exit) => return exit,
    };
    let exit = gate_on_disk(rt, routes, listener, port, count, place, &mut gate);
    if gate.book.close(rt.alloc()).is_err() {
        let _ = eprintln!(rt; "office: {file} lacks the line of the end");
    }
    exit
}

/// Serves the office at a place as `serve_in` does, as far as the name that a proxy states may have
/// it. If the settings or the secret are wrong, the port is not bound. If a line of the journal is
/// wrong, it is bound, and the file stays as it is.
pub(crate) fn gate_in(
    rt: &HostRuntime,
    place: Place<'_>,
    port: u16,
    count: u32,
    door: Door<'_>,
) -> Exit {
    let mut access = match access_of(rt, door) {
        Ok(access) => access,
        Err(exit) => return exit,
    };
    let Ok(routes) = Routes::new(rt.alloc()) else {
        return Exit::Fault(Fault::Memory);
    };
    let Ok(listener) = bound_to(rt, port) else {
        return Exit::Socket;
    };
    match door.journal {
        "-" => gate_on_disk(rt, &routes, &listener, port, count, place, &mut access),
        file => gate_noting(rt, &routes, &listener, port, count, place, file, access),
    }
}
