//! A request with what a proxy states about it.
ghost use Rattle.std.specs.Prelude.{◌++◌, drop, IfErr, IfOk, IfSome};
ghost use Rattle.httparse.specs.Grammar.{RequestHead};
ghost use Rattle.httparse.specs.Spans.{IsRequestAt};
ghost use Rattle.office_http.specs.Proxies.{IsProxiedFrom, IsStopFor, ReceivesProxied};
ghost use Rattle.office_http.specs.Requests.{IsHeadAt};

use crate::head::{Head, LONGEST_HEAD, MOST_FIELDS, read_head};
use crate::paths::Routes;
use crate::proxy_lines::{ProxyLines, proxy_lines_in};
use crate::request::{ParsedRequest, ReceiveStop, receive_rest};
use httparse::spans::{HeaderSpan, RequestSpans};
use office_base::Io;
use std::alloc::Global;
use std::io::Read;

/// A request whose head was read, and what a proxy states about the request.
#[derive(Drop)]
pub struct ProxiedRequest {
    pub request: ParsedRequest,
    pub lines: ProxyLines,
}

/// The bytes of a connection that comes through a proxy.
#[derive(Drop)]
pub enum Proxied {
    /// No byte at all.
    Nothing,
    /// Bytes that do not begin with a head within the limits.
    Headless,
    /// A request.
    Request(ProxiedRequest),
}

/// Reads the rest of a request whose head is in the buffer, after the lines of the proxy.
fn receive_stated<R: Read>(
    alloc: Global,
    routes: &Routes,
    reader: &mut R,
    buf: Vec<u8>,
    head: &RequestSpans,
    headers: &[HeaderSpan],
) -> Result<ProxiedRequest, ReceiveStop>
    requires at { IsHeadAt head.now buf.items headers.now }
    ensures ok { IfOk result
        (λ it. IfSome (R.remaining reader.old)
        (λ left. (h : RequestHead) → IsRequestAt buf.items headers.now head.now h
        → IsProxiedFrom h (drop head.now.len buf.items ++ left) it)) }
    ensures err { IfErr result
        (λ stop. (h : RequestHead) → IsRequestAt buf.items headers.now head.now h
        → IsStopFor h stop) }
{
    let Ok(lines) = proxy_lines_in(alloc, buf.as_slice(), head, headers) else {
        return Err(ReceiveStop::Memory);
    };
    let request = receive_rest(routes, reader, buf, head, headers)?;
    Ok(ProxiedRequest { request, lines })
}

/// Reads all of a request as [`receive`](crate::receive) does, and what a proxy states about the
/// request. Memory is asked for once more, for the lines of the proxy: `Memory` comes then too, and
/// nothing was done.
pub fn receive_proxied<R: Read>(
    alloc: Global,
    routes: &Routes,
    reader: &mut R,
) -> Result<Proxied, ReceiveStop>
    ensures { IfSome (R.remaining reader.old) (λ bytes. ReceivesProxied result bytes) }
{
    let Ok(mut buf) = Vec::with_capacity(alloc, LONGEST_HEAD) else {
        return Err(ReceiveStop::Memory);
    };
    let mut headers = [HeaderSpan::default(); MOST_FIELDS];
    match read_head(reader, &mut buf, &mut headers) {
        Ok(Head::Found(head)) => {
            let request = receive_stated(alloc, routes, reader, buf, &head, &headers)?;
            Ok(Proxied::Request(request))
        }
        Ok(Head::Missing) => Ok(Proxied::Headless),
        Ok(Head::Empty) => Ok(Proxied::Nothing),
        Err(Io) => Err(ReceiveStop::Io),
    }
}
