//! What a proxy states about a request, in field lines of its own.
ghost use Rattle.std.specs.Prelude.{◌≡◌, List, length, map, IfOk, All};
ghost use Rattle.httparse.specs.Grammar.{RequestHead};
ghost use Rattle.httparse.specs.Spans.{header_bytes, name_and_value, IsHeaderWithin, IsRequestAt, IsRequestWithin};
ghost use Rattle.office_http.specs.Fields.{found_bytes, IsFoundWithin};
ghost use Rattle.office_http.specs.Proxies.{AreProxyLines, values_of};

use crate::fields::{Found, find_named};
use httparse::spans::{HeaderSpan, RequestSpans};
use office_base::Memory;
use std::alloc::Global;

/// The value of the field lines of one name, if there is one line.
#[derive(Drop)]
pub enum FieldValue {
    /// There is no such line.
    Missing,
    /// There is one, and this is its value without the white space around it.
    One(Vec<u8>),
    /// There are two or more.
    Many,
}

/// The field lines by which a proxy states who signed in, on which day, and from where.
#[derive(Drop)]
pub struct ProxyLines {
    /// `Office-Token`: the secret that the proxy and the office share.
    pub token: FieldValue,
    /// `Office-Name`: the name that signed in.
    pub name: FieldValue,
    /// `Office-Day`: the day of the proxy's clock, in the time zone of the office.
    pub day: FieldValue,
    /// `Office-From`: the address that the request came from.
    pub from: FieldValue,
}

/// Copies the value out of the buffer.
fn copied(alloc: Global, buf: &[u8], found: Found) -> Result<FieldValue, Memory>
    requires { IsFoundWithin (length buf.now) found }
    ensures { IfOk result (λ value. values_of value ≡ found_bytes buf.now found) }
{
    match found {
        Found::Missing => Ok(FieldValue::Missing),
        Found::One(span) => Ok(FieldValue::One(Vec::from_slice(alloc, span.of(buf))?)),
        Found::Many => Ok(FieldValue::Many),
    }
}

/// Copies the lines of a proxy out of these headers.
fn lines_of(alloc: Global, buf: &[u8], headers: &[HeaderSpan]) -> Result<ProxyLines, Memory>
    requires { All (IsHeaderWithin (length buf.now)) headers.now }
    ensures { IfOk result (λ lines. AreProxyLines (map (header_bytes buf.now) headers.now) lines) }
{
    Ok(ProxyLines {
        token: copied(alloc, buf, find_named(buf, headers, b"office-token"))?,
        name: copied(alloc, buf, find_named(buf, headers, b"office-name"))?,
        day: copied(alloc, buf, find_named(buf, headers, b"office-day"))?,
        from: copied(alloc, buf, find_named(buf, headers, b"office-from"))?,
    })
}

/// Copies the lines of a proxy out of the head that [`read_head`](crate::read_head) found in the
/// buffer.
pub(crate) fn proxy_lines_in(
    alloc: Global,
    buf: &[u8],
    head: &RequestSpans,
    headers: &[HeaderSpan],
) -> Result<ProxyLines, Memory>
    requires { IsRequestWithin buf.now headers.now head.now }
    ensures { IfOk result (λ lines. (h : RequestHead) → IsRequestAt buf.now headers.now head.now h
        → AreProxyLines (map name_and_value h.fields) lines) }
{
    lines_of(alloc, buf, &headers[..head.headers])
}
