//! All of a request is read here, and nothing is done yet.
ghost use Rattle.std.specs.Prelude.{◌≡◌, ◌≢◌, ◌+◌, ℕ, ◌≤◌, ◌++◌, drop, length, IfErr, IfOk, IfSome, OnErr};
ghost use Rattle.httparse.specs.Grammar.{RequestHead};
ghost use Rattle.httparse.specs.Spans.{IsRequestAt};
ghost use Rattle.office_http.specs.RequestPlans.{IsSized};
ghost use Rattle.office_http.specs.Requests.{IsHeadAt};
ghost use Rattle.office_http.specs.Receiving.{IsRequestRead, IsParsedFrom, IsOutOfMemoryFor, Receives, request_of_body, request_of_plan};

use crate::acts_body::ActsBody;
use crate::body::read_body;
use crate::head::{Head, LONGEST_HEAD, MOST_FIELDS, read_head};
use crate::path_request::PathRequest;
use crate::paths::Routes;
use crate::rejection::Rejection;
use crate::request_plan::{RequestPlan, is_head_in, plan_in};
use httparse::spans::{HeaderSpan, RequestSpans};
use office_base::{Io, Stop};
use std::alloc::Global;
use std::io::Read;

/// What a request asks for.
#[derive(Drop)]
pub enum RequestKind {
    /// Nothing, since a check of its head fails.
    Refused(Rejection),
    /// Nothing, since the connection ends before the body does.
    Cut,
    /// The acts of a body, which may be none.
    Acts(ActsBody),
    /// What its path says; it has no body.
    Serve(PathRequest),
}

/// A request whose head was read.
#[derive(Drop)]
pub struct ParsedRequest {
    /// What it asks for.
    pub kind: RequestKind,
    /// Whether its method is HEAD, so that the head of the answer alone is written.
    pub is_head: bool,
}

/// What came on a connection.
#[derive(Drop)]
pub enum Received {
    /// No byte at all.
    Nothing,
    /// Bytes that do not begin with a head within the limits.
    Headless,
    /// A request.
    Request(ParsedRequest),
}

/// Why nothing was received.
#[derive(Clone, Copy, PartialEq, Eq, Debug)]
pub enum ReceiveStop {
    /// The reader answered an error.
    Io,
    /// Memory was refused before a byte was read.
    Memory,
    /// Memory was refused for the body of acts, after the head was read.
    MemoryForBody,
}

/// Reads the body of acts.
fn receive_acts<R: Read>(
    reader: &mut R,
    mut buf: Vec<u8>,
    start: usize,
    size: u64,
) -> Result<RequestKind, Stop>
    requires start_in { start ≤ length buf.items }
    requires small { start ≤ 16_384 }
    requires limit { size ≤ 1_048_576 }
    ensures { IsRequestRead (request_of_body size) (drop start buf.items)
        (R.remaining reader.old) result }
{
    let end = start + size as usize;
    if read_body(reader, &mut buf, start, end)? {
        Ok(RequestKind::Acts(ActsBody::new(buf, start, end)))
    } else {
        Ok(RequestKind::Cut)
    }
}

/// Reads what a plan wants besides the head.
fn receive_planned<R: Read>(
    reader: &mut R,
    buf: Vec<u8>,
    start: usize,
    plan: RequestPlan,
) -> Result<RequestKind, Stop>
    requires start_in { start ≤ length buf.items }
    requires small { start ≤ 16_384 }
    requires sized { IsSized plan }
    ensures read { IsRequestRead (request_of_plan plan) (drop start buf.items)
        (R.remaining reader.old) result }
    ensures memory { result ≡ Err Stop.Memory
        → (size : ℕ) × (plan ≡ RequestPlan.Acts size) }
{
    match plan {
        RequestPlan::Refuse(check) => Ok(RequestKind::Refused(check)),
        RequestPlan::Acts(size) => receive_acts(reader, buf, start, size),
        RequestPlan::Serve(request) => Ok(RequestKind::Serve(request)),
    }
}

/// Reads the rest of a request whose head is in the buffer.
pub(crate) fn receive_rest<R: Read>(
    routes: &Routes,
    reader: &mut R,
    buf: Vec<u8>,
    head: &RequestSpans,
    headers: &[HeaderSpan],
) -> Result<ParsedRequest, ReceiveStop>
    requires at { IsHeadAt head.now buf.items headers.now }
    ensures ok { IfOk result
        (λ it. IfSome (R.remaining reader.old)
        (λ left. (h : RequestHead) → IsRequestAt buf.items headers.now head.now h
        → IsParsedFrom h (drop head.now.len buf.items ++ left) it)) }
    ensures err { IfErr result
        (λ stop. (h : RequestHead) → IsRequestAt buf.items headers.now head.now h
        → IsOutOfMemoryFor h stop) }
{
    let is_head = is_head_in(buf.as_slice(), head);
    let plan = plan_in(routes, buf.as_slice(), head, headers);
    match receive_planned(reader, buf, head.len, plan) {
        Ok(kind) => Ok(ParsedRequest { kind, is_head }),
        Err(Stop::Memory) => Err(ReceiveStop::MemoryForBody),
        Err(Stop::Io) => Err(ReceiveStop::Io),
    }
}

/// Reads all of a request: its head, and a body where it asks for acts. It is known then whether a
/// check of the head fails; no act is looked at yet. Nothing is known of the office here, so
/// nothing is done where it stops. Memory is asked for twice: for the head before a byte is read,
/// and for the body of acts; nothing else that a request asks for takes any here.
pub fn receive<R: Read>(
    alloc: Global,
    routes: &Routes,
    reader: &mut R,
) -> Result<Received, ReceiveStop>
    ensures came { IfSome (R.remaining reader.old) (λ bytes. Receives result bytes) }
    ensures unread { result ≡ Err ReceiveStop.Memory → reader.new ≡ reader.old }
{
    let Ok(mut buf) = Vec::with_capacity(alloc, LONGEST_HEAD) else {
        return Err(ReceiveStop::Memory);
    };
    let mut headers = [HeaderSpan::default(); MOST_FIELDS];
    match read_head(reader, &mut buf, &mut headers) {
        Ok(Head::Found(head)) => {
            let request = receive_rest(routes, reader, buf, &head, &headers)?;
            Ok(Received::Request(request))
        }
        Ok(Head::Missing) => Ok(Received::Headless),
        Ok(Head::Empty) => Ok(Received::Nothing),
        Err(Io) => Err(ReceiveStop::Io),
    }
}
