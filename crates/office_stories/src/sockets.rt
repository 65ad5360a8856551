//! Clients over real sockets, which connect and send before they are served, and read afterwards.
use crate::errands::{Errand, do_all};
use crate::failures::failure;
use crate::reporting::report_parts;
use crate::requests::exchange_of;
use office_desk::Desk;
use office_wire::{Routes, Service, serve_all, serve_each};
use sqlite::Alter;
use std::alloc::Global;
use std::io;
use std::io::Write;
use std::net::{Ipv4Addr, Shutdown, SocketAddr, TcpListener, TcpStream};
use std::test::Fail;

/// Clients of an office, and how serving them ends.
#[derive(Clone, Copy)]
pub(crate) struct Meeting<'a> {
    /// The parts of a story that make the office.
    pub(crate) office: &'a str,
    /// A row for each client: `sends` or, of one that might send more, `waits`, and its request and
    /// answer.
    pub(crate) clients: &'a str,
    /// Whether serving waits for clients that have not come.
    pub(crate) is_patient: bool,
    /// How many clients are to be served.
    pub(crate) most: u32,
    pub(crate) service: Service,
    /// What is reported on standard error.
    pub(crate) reported: &'a str,
}

/// A client that has sent, and the answer that it awaits.
#[derive(Drop)]
struct Client {
    stream: TcpStream,
    answer: String,
}

/// A client that has connected and sent.
fn stream_of(
    rt: &HostRuntime,
    addr: SocketAddr,
    sent: &[u8],
    waits: bool,
) -> io::Result<TcpStream> {
    let mut stream = TcpStream::connect(rt, addr)?;
    stream.write_all(sent)?;
    if !waits {
        stream.shutdown(Shutdown::Write)?;
    }
    Ok(stream)
}

/// The client of a row.
fn client_of(rt: &HostRuntime, addr: SocketAddr, row: &str) -> Result<Client, Fail> {
    let (how, row) = row.split_once(' ').ok_or("no client")?;
    let it = exchange_of(rt.alloc(), row)?;
    let stream = stream_of(rt, addr, it.sent.as_slice(), how == "waits")?;
    Ok(Client {
        stream,
        answer: it.answer,
    })
}

/// The clients of the rows.
fn clients_of(rt: &HostRuntime, addr: SocketAddr, rows: &str) -> Result<Vec<Client>, Fail> {
    let mut clients = Vec::new(rt.alloc());
    for row in rows.lines() {
        clients.push(client_of(rt, addr, row)?)?;
    }
    Ok(clients)
}

/// A client must hear its answer.
fn hear(alloc: Global, client: Client) -> Result<(), Fail> {
    let got = io::read_to_string(alloc, client.stream)?;
    if got.as_str() == client.answer.as_str() {
        return Ok(());
    }
    Err(failure("a client was told", got.as_str()))
}

/// Serves the clients of a meeting; where nothing may be reported, with the machine's own standard
/// error.
fn served<S: Alter>(
    rt: &HostRuntime,
    listener: &TcpListener,
    desk: &mut Desk<S>,
    meeting: &Meeting<'_>,
    err: &mut Vec<u8>,
) -> Result<Service, Fail> {
    if meeting.reported.is_empty() {
        return Ok(serve_all(rt, listener, meeting.most, desk)?);
    }
    let alloc = rt.alloc();
    let routes = Routes::new(alloc)?;
    Ok(serve_each(alloc, &routes, listener, rt, meeting.most, desk, err))
}

/// Serving must end as the meeting says.
pub(crate) fn serve<S: Alter>(
    rt: &HostRuntime,
    listener: &TcpListener,
    desk: &mut Desk<S>,
    meeting: &Meeting<'_>,
) -> Result<(), Fail> {
    let mut err = Vec::new(rt.alloc());
    let service = served(rt, listener, desk, meeting, &mut err)?;
    if service == meeting.service && err.as_slice() == meeting.reported.as_bytes() {
        return Ok(());
    }
    Err(Fail::new("serving ends otherwise"))
}

/// The clients of a meeting are served, and each must hear its answer.
pub(crate) fn meet(rt: &HostRuntime, meeting: &Meeting<'_>) -> Result<(), Fail> {
    let listener = TcpListener::bind(rt, SocketAddr::from((Ipv4Addr::LOCALHOST, 0)))?;
    let clients = clients_of(rt, listener.local_addr()?, meeting.clients)?;
    listener.set_nonblocking(!meeting.is_patient)?;
    let mut image = report_parts(rt.alloc(), meeting.office)?;
    do_all(
        rt.alloc(),
        &mut image,
        Errand::Meeting(rt, &listener, meeting),
    )?;
    for client in clients {
        hear(rt.alloc(), client)?;
    }
    Ok(())
}
