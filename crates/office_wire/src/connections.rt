//! Connections, served one after another.
ghost use Rattle.std.specs.Prelude.{◌≡◌, ◌||◌, IfOk, IfSome, OnErr};
ghost use Rattle.office_wire.specs.Connections.{Ends, ServesAll, Turn, has_failed};
ghost use Rattle.office_wire.specs.Exchanges.{AreServed, IsNextServed};

use crate::connection_source::ConnectionSource;
use crate::exchange::serve_with;
use crate::sockets::Sockets;
use office_base::{Io, Memory};
use office_desk::Desk;
use office_http::Routes;
use sqlite::Alter;
use std::alloc::Global;
use std::io::{Read, Write};
use std::net::{OpenListener, OpenStream};
use std::time::Clock;

/// What serving takes besides an office: memory, and the routes, which are made once.
#[derive(Clone, Copy)]
pub struct Serving<'a> {
    /// Where memory comes from.
    pub alloc: Global,
    /// Which path asks for what.
    pub routes: &'a Routes,
}

/// How serving ended.
#[derive(Clone, Copy, PartialEq, Eq, Debug, Drop)]
pub struct Service {
    /// How many connections came, those that failed too.
    pub connections: u32,
    /// Whether one of them failed.
    pub has_failed: bool,
    /// Whether it ended since the desk was poisoned.
    pub is_poisoned: bool,
}

/// Waits for the next connection of a source, serves it and closes it.
fn serve_next<C: ConnectionSource, S: Alter>(
    serving: Serving<'_>,
    source: &mut C,
    desk: &mut Desk<S>,
) -> Result<u16, Io>
    ensures turn { Turn S.Store result desk.old desk.new }
    ensures next { IfSome (C.traffic source.old)
        (λ it. IsNextServed S.Store result it (C.traffic source.new) desk.old desk.new) }
{
    let (mut reader, mut writer) = source.accept()?;
    let served = serve_with(
        serving.alloc,
        serving.routes,
        desk,
        &mut reader,
        &mut writer,
    );
    source.close(reader, writer, served)
}

/// Whether serving ends after a connection: its answer was 503, and the desk was poisoned.
pub fn ends_after<S: Alter>(desk: &Desk<S>, served: Result<u16, Io>) -> bool
    ensures { Ends served desk.now.is_poisoned result }
{
    match served {
        Ok(503) => desk.is_poisoned(),
        _ => false,
    }
}

/// Whether a connection has failed, this one or an earlier one.
pub fn failed_by(earlier: bool, served: Result<u16, Io>) -> bool
    ensures { result ≡ (earlier || has_failed served) }
{
    earlier || served.is_err()
}

/// Serves so many connections of a source, one after another, and fewer only where the desk was
/// poisoned. One that fails counts too, also where none came. Of a source that reports its bytes it
/// is known which requests came, what went out on each connection, and that nothing else was done.
/// By [`crate::law_of_sessions`] the office is then at the state to which these requests lead, where
/// each connection got its whole answer and none was 503.
pub fn serve_session<C: ConnectionSource, S: Alter>(
    serving: Serving<'_>,
    source: &mut C,
    count: u32,
    desk: &mut Desk<S>,
) -> Service
    ensures all { ServesAll S.Store count result desk.old desk.new }
    ensures served { IfSome (C.traffic source.old) (λ it. AreServed S.Store result.connections
        result.has_failed it (C.traffic source.new) desk.old desk.new) }
{
    let mut has_failed = false;
    for before in 0..count {
        let served = serve_next(serving, source, desk);
        has_failed = failed_by(has_failed, served);
        if ends_after(desk, served) {
            return Service {
                connections: before + 1,
                has_failed,
                is_poisoned: true,
            };
        }
    }
    Service {
        connections: count,
        has_failed,
        is_poisoned: false,
    }
}

/// Serves so many connections of a listener as [`serve_session`] does. One that fails is reported
/// on `err`. By the clock a whole request may take `LONGEST` seconds from its first read on, and its
/// whole answer as many from its first write on; a connection that takes longer fails. What a client
/// asks is not known here, since a socket does not report its bytes beforehand: of each connection
/// it is known that the desk is where serving something leaves it.
pub fn serve_each<L: OpenListener, K: Clock, E: Write, S: Alter>(
    alloc: Global,
    routes: &Routes,
    listener: &L,
    clock: &K,
    count: u32,
    desk: &mut Desk<S>,
    err: &mut E,
) -> Service
where
    L::Stream: Read + Write + OpenStream,
    ensures { ServesAll S.Store count result desk.old desk.new }
{
    let mut sockets = Sockets {
        alloc,
        listener,
        clock,
        err,
    };
    serve_session(Serving { alloc, routes }, &mut sockets, count, desk)
}

/// Serves so many connections as [`serve_each`] does, by routes of its own, the machine's clock and
/// its standard error. `Memory` comes where it is refused for the routes: then no connection was
/// accepted.
pub fn serve_all<L: OpenListener, S: Alter>(
    rt: &HostRuntime,
    listener: &L,
    count: u32,
    desk: &mut Desk<S>,
) -> Result<Service, Memory>
where
    L::Stream: Read + Write + OpenStream,
    ensures ok { IfOk result (λ service. ServesAll S.Store count service desk.old desk.new) }
    ensures err { OnErr result (desk.new ≡ desk.old) }
{
    let routes = Routes::new(rt.alloc())?;
    let mut err = rt.stderr();
    Ok(serve_each(rt.alloc(), &routes, listener, rt, count, desk, &mut err))
}
