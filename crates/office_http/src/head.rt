//! The head of a request, read from a connection within its limits.
ghost use Rattle.std.specs.Prelude.{◌≡◌, ◌≢◌, ℕ, ◌+◌, ◌≤◌, ◌<◌, List, [], ◌++◌, length, IfOk, OnOk};
ghost use Rattle.std.specs.Io.KnownBytes.{Consumes, IsAtEnd};
ghost use Rattle.std.specs.Vec.{vec_capacity};
ghost use Rattle.office_http.specs.Requests.{IsParsed, ReadsHead, Request, IsRequest};

use httparse::Status;
use httparse::spans::{HeaderSpan, RequestSpans, parse_request};
use office_base::Io;
use std::io::Read;

/// What a buffer reports of the head of a request.
#[derive(Clone, Copy)]
pub(crate) enum HeadParse {
    /// It begins with a whole head, whose parts lie there.
    Complete(RequestSpans),
    /// It has no whole head yet.
    Partial,
    /// It will never begin with a head within the limits.
    Invalid,
}

/// What the bytes of a connection begin with.
#[derive(Clone, Copy, Debug)]
pub enum Head {
    /// A head within the limits, whose parts lie there.
    Found(RequestSpans),
    /// No head, one beyond the limits, or one that does not come to its end.
    Missing,
    /// The connection ended before any byte.
    Empty,
}

/// The most bytes of a head.
pub const LONGEST_HEAD: usize = 16_384;

/// The most lines of fields of a head.
pub const MOST_FIELDS: usize = 64;

/// The most bytes that are read at once.
const PIECE: usize = 4_096;

/// What a buffer reports of a head.
fn parse_head(buf: &[u8], headers: &mut [HeaderSpan]) -> HeadParse
    requires short { length buf.now ≤ 16_384 }
    requires room { length headers.old ≡ 64 }
    ensures { IsParsed result buf.now headers.new }
{
    match parse_request(buf, headers) {
        Ok(Status::Complete(head)) => HeadParse::Complete(head),
        Ok(Status::Partial) => HeadParse::Partial,
        Err(_) => HeadParse::Invalid,
    }
}

/// The same, also of no bytes.
fn parse_any(buf: &[u8], headers: &mut [HeaderSpan]) -> HeadParse
    requires short { length buf.now ≤ 16_384 }
    requires room { length headers.old ≡ 64 }
    ensures parsed { IsParsed result buf.now headers.new }
    ensures some { result ≡ HeadParse.Invalid → buf.now ≢ [] }
{
    if buf.is_empty() {
        HeadParse::Partial
    } else {
        parse_head(buf, headers)
    }
}

/// Reads some bytes onto the end of a buffer, which then has at most that many and has room for
/// them.
pub(crate) fn read_piece<R: Read>(
    reader: &mut R,
    buf: &mut Vec<u8>,
    most: usize,
) -> Result<usize, Io>
    requires short { length buf.old.items < most }
    requires room { most ≤ vec_capacity buf.old }
    ensures fits { OnOk result (length buf.new.items ≤ most) }
    ensures count { IfOk result (λ n. length buf.new.items ≡ length buf.old.items + n) }
    ensures bytes { OnOk result
        ((piece : List ℕ) × (buf.new.items ≡ buf.old.items ++ piece)
        × Consumes (R.remaining reader.old) (R.remaining reader.new) piece) }
    ensures end { IfOk result (λ n. n ≡ 0 → IsAtEnd (R.remaining reader.new)) }
    ensures room { OnOk result (most ≤ vec_capacity buf.new) }
{
    let mut piece = [0u8; PIECE];
    let room = (most - buf.len()).min(PIECE);
    match reader.read(&mut piece[..room]) {
        Ok(n) => {
            if buf.extend_from_slice(&piece[..n]).is_err() {
                unreachable!()
            }
            Ok(n)
        }
        Err(_) => Err(Io),
    }
}

/// Reads into an empty buffer, which has room for the longest head, until a head is whole, or there
/// will be none. The buffer may then have bytes that follow the head. No memory is asked for. `Io`
/// comes where the reader answered an error.
pub fn read_head<R: Read>(
    reader: &mut R,
    buf: &mut Vec<u8>,
    headers: &mut [HeaderSpan],
) -> Result<Head, Io>
    requires empty { buf.old.items ≡ [] }
    requires place { 16_384 ≤ vec_capacity buf.old }
    requires room { length headers.old ≡ 64 }
    ensures { IfOk result (λ head. ReadsHead head buf.new.items headers.new
        (R.remaining reader.old) (R.remaining reader.new)) }
{
    loop {
        match parse_any(buf.as_slice(), headers) {
            HeadParse::Complete(head) => return Ok(Head::Found(head)),
            HeadParse::Invalid => return Ok(Head::Missing),
            HeadParse::Partial => {}
        }
        if buf.len() >= LONGEST_HEAD {
            return Ok(Head::Missing);
        }
        if read_piece(reader, buf, LONGEST_HEAD)? == 0 {
            return Ok(if buf.is_empty() {
                Head::Empty
            } else {
                Head::Missing
            });
        }
    }
}

/// The law that all bytes of a connection are one request only.
pub fn law_of_requests()
    ensures { (bytes : List ℕ) (q r : Request) → IsRequest q bytes → IsRequest r bytes → q ≡ r }
{}
