//! Connections through a proxy, served one after another.
ghost use Rattle.std.specs.Prelude.{Result, Bool};
ghost use Rattle.office_gate.specs.InForce.{Renews};
ghost use Rattle.office_gate.specs.Sessions.{GateTurn, GatesAll};
ghost use Rattle.office_gate.specs.declared.access.AccessError.{AccessError};

use crate::access::{Access, SettingsText};
use crate::exchange::serve_visit;
use office_base::Io;
use office_desk::Desk;
use office_wire::{ConnectionSource, Service, Serving, Sockets, ends_after, failed_by};
use sqlite::Alter;
use std::io::{Read, Write};
use std::net::{OpenListener, OpenStream};
use std::time::Clock;

/// Reads the settings anew, and reports a text that is not taken over.
fn renew_or_report<T: SettingsText>(serving: Serving<'_>, access: &mut Access<T>)
    ensures { (renewal : Result Bool AccessError) × Renews T.readings renewal access.old access.new }
{
    if let Err(error) = access.renew(serving.alloc) {
        access.source.report(error);
    }
}

/// Waits for the next connection of a source, serves it under the settings of that moment, and
/// closes it.
fn serve_next_visit<C: ConnectionSource, T: SettingsText, S: Alter>(
    serving: Serving<'_>,
    source: &mut C,
    access: &mut Access<T>,
    desk: &mut Desk<S>,
) -> Result<u16, Io>
    ensures { GateTurn S.Store T.readings result access.old access.new desk.old desk.new }
{
    let (mut reader, mut writer) = source.accept()?;
    renew_or_report(serving, access);
    let served = serve_visit(serving, &access.gate, desk, &mut reader, &mut writer);
    source.close(reader, writer, served)
}

/// Serves that many connections of a source, one after another, and fewer only if the desk was
/// poisoned; one that fails counts too. Before each request is read, the settings are read anew. What
/// a request asks for is done only as far as the name that the proxy states may have it.
pub fn serve_visits<C: ConnectionSource, T: SettingsText, S: Alter>(
    serving: Serving<'_>,
    source: &mut C,
    access: &mut Access<T>,
    count: u32,
    desk: &mut Desk<S>,
) -> Service
    ensures { GatesAll S.Store T.readings count result access.old access.new desk.old desk.new }
{
    let mut has_failed = false;
    for before in 0..count {
        let served = serve_next_visit(serving, source, access, desk);
        has_failed = failed_by(has_failed, served);
        if ends_after(desk, served) {
            return Service {
                connections: before + 1,
                has_failed,
                is_poisoned: true,
            };
        }
    }
    Service {
        connections: count,
        has_failed,
        is_poisoned: false,
    }
}
