//! Heads and bodies as clients send them, in pieces, and what a failing reader leaves.
ghost use Rattle.std.specs.Prelude.{◌≤◌, vec_capacity};

use crate::streams::Sent;
use crate::written::push;
use httparse::spans::HeaderSpan;
use office_base::{Io, Stop};
use office_http::{Head, LONGEST_HEAD, RequestPlan, Routes, plan_in, read_body, read_head};
use std::io::Write;

/// What is done for a head; a day is reported by its number, and 19782 is that of 2024-02-29.
pub(crate) const HEADS: &str = r"
    # hosts of each version
    plan POST /acts HTTP/1.1\r\nContent-Length: 2\r\n\r\n = Refuse(Host)
    plan GET /nothing HTTP/1.1\r\nHost: a\r\nHOST: a\r\n\r\n = Refuse(Host)
    plan POST /acts HTTP/1.0\r\nContent-Length: 2\r\n\r\n = Acts(2)
    plan POST /acts HTTP/1.0\r\nHost: a\r\nHost: b\r\nContent-Length: 2\r\n\r\n = Acts(2)
    plan POST /acts HTTP/1.1\nhost:\nCONTENT-length: \t 0 \t\n\n = Acts(0)

    # targets that name nothing
    plan GET /nothing HTTP/1.1\r\nHost: h\r\n\r\n = Refuse(Path)
    plan HEAD /nothing HTTP/1.1\r\nHost: h\r\n\r\n = Refuse(Path)
    plan POST /acts? HTTP/1.1\r\nHost: h\r\n\r\n = Refuse(Path)
    plan GET /records/1?x=1 HTTP/1.1\r\nHost: h\r\n\r\n = Refuse(Path)
    plan GET http://h/records/1 HTTP/1.1\r\nHost: h\r\n\r\n = Refuse(Path)
    plan OPTIONS * HTTP/1.1\r\nHost: h\r\n\r\n = Refuse(Path)
    plan GET /records HTTP/1.1\r\nHost: h\r\n\r\n = Refuse(Path)
    plan GET /records/ HTTP/1.1\r\nHost: h\r\n\r\n = Refuse(Path)
    plan GET /records//content HTTP/1.1\r\nHost: h\r\n\r\n = Refuse(Path)
    plan GET /records/1/ HTTP/1.1\r\nHost: h\r\n\r\n = Refuse(Path)
    plan GET /overdue/2025-02-02 HTTP/1.1\r\nHost: h\r\n\r\n = Refuse(Path)
    plan GET /overdue/2025-02-02/ HTTP/1.1\r\nHost: h\r\n\r\n = Refuse(Path)
    plan GET /overdue//30 HTTP/1.1\r\nHost: h\r\n\r\n = Refuse(Path)
    plan GET /overdue/2025-02-02/30/ HTTP/1.1\r\nHost: h\r\n\r\n = Refuse(Path)
    plan GET /overdue/2025-02-02/30/1 HTTP/1.1\r\nHost: h\r\n\r\n = Refuse(Path)
    plan GET /records/1/content/ HTTP/1.1\r\nHost: h\r\n\r\n = Refuse(Path)
    plan GET /Records/1 HTTP/1.1\r\nHost: h\r\n\r\n = Refuse(Path)

    # methods that a path has not
    plan HEAD /acts HTTP/1.1\r\nHost: h\r\n\r\n = Refuse(NotPost)
    plan GET /run/resume HTTP/1.1\r\nHost: h\r\n\r\n = Refuse(NotPost)
    plan post /acts HTTP/1.1\r\nHost: h\r\n\r\n = Refuse(NotPost)
    plan POST /records/01 HTTP/1.1\r\nHost: h\r\n\r\n = Refuse(NotGet)
    plan HEAD /due/never HTTP/1.1\r\nHost: h\r\n\r\n = Refuse(NotGet)
    plan HEAD /overdue/never/many HTTP/1.1\r\nHost: h\r\n\r\n = Refuse(NotGet)
    plan POST /overdue/2025-02-02/30 HTTP/1.1\r\nHost: h\r\nContent-Length: 2\r\n\r\n = Refuse(NotGet)

    # bodies that are not read
    plan POST /acts HTTP/1.1\r\nHost: h\r\nTransfer-Encoding: chunked\r\nContent-Length: 5\r\n\r\n = Refuse(TransferCoding)
    plan POST /acts HTTP/1.1\r\nHost: h\r\n\r\n = Refuse(LengthMissing)
    plan POST /acts HTTP/1.1\r\nHost: h\r\nContent-Length: 2\r\nContent-Length: 2\r\n\r\n = Refuse(LengthInvalid)
    plan POST /acts HTTP/1.1\r\nHost: h\r\nContent-Length: +5\r\n\r\n = Refuse(LengthInvalid)
    plan POST /acts HTTP/1.1\r\nHost: h\r\nContent-Length:\r\n\r\n = Refuse(LengthInvalid)
    plan POST /acts HTTP/1.1\r\nHost: h\r\nContent-Length: 00000000000000000005\r\n\r\n = Refuse(LengthInvalid)
    plan POST /acts HTTP/1.1\r\nHost: h\r\nContent-Length: 9999999999999999999\r\n\r\n = Refuse(ContentTooLarge)
    plan POST /acts HTTP/1.1\r\nHost: h\r\nContent-Length: 1048577\r\n\r\n = Refuse(ContentTooLarge)

    # bodies that are read
    plan POST /acts HTTP/1.1\r\nHost: h\r\nContent-Length: 20\r\n\r\n = Acts(20)
    plan POST /acts HTTP/1.1\r\nHost: h\r\nContent-Length: 0000000000000000007\r\n\r\n = Acts(7)
    plan POST /acts HTTP/1.1\r\nHost: h\r\nContent-Length: 1048576\r\n\r\n = Acts(1048576)

    # numbers of paths
    plan GET /records/1 HTTP/1.1\r\nHost: h\r\n\r\n = Serve(Record(Some(1)))
    plan GET /records/01 HTTP/1.1\r\nHost: h\r\n\r\n = Serve(Record(None))
    plan GET /records/0 HTTP/1.1\r\nHost: h\r\n\r\n = Serve(Record(None))
    plan GET /records/4294967295/content HTTP/1.1\r\nHost: h\r\n\r\n = Serve(Content(Some(4294967295)))
    plan GET /records/4294967296/content HTTP/1.1\r\nHost: h\r\n\r\n = Serve(Content(None))
    plan GET /certificates/20 HTTP/1.1\r\nHost: h\r\n\r\n = Serve(Certificate(Some(20)))
    plan GET /certificates/+2 HTTP/1.1\r\nHost: h\r\n\r\n = Serve(Certificate(None))

    # days of paths
    plan GET /due/2024-02-29 HTTP/1.1\r\nHost: h\r\n\r\n = Serve(Due(Some(Day { number: 19782 })))
    plan GET /due/2023-02-29 HTTP/1.1\r\nHost: h\r\n\r\n = Serve(Due(None))
    plan GET /due/%32024-02-29 HTTP/1.1\r\nHost: h\r\n\r\n = Serve(Due(None))

    # days of paths, and the days to confirm
    plan GET /overdue/2024-02-29/30 HTTP/1.1\r\nHost: h\r\n\r\n = Serve(Overdue(Some(Day { number: 19782 }), Some(ConfirmDays { count: 30 })))
    plan GET /overdue/2024-02-29/030 HTTP/1.1\r\nHost: h\r\n\r\n = Serve(Overdue(Some(Day { number: 19782 }), Some(ConfirmDays { count: 30 })))
    plan GET /overdue/2024-02-29/0 HTTP/1.1\r\nHost: h\r\n\r\n = Serve(Overdue(Some(Day { number: 19782 }), Some(ConfirmDays { count: 0 })))
    plan GET /overdue/2024-02-29/3650 HTTP/1.1\r\nHost: h\r\n\r\n = Serve(Overdue(Some(Day { number: 19782 }), Some(ConfirmDays { count: 3650 })))
    plan GET /overdue/2024-02-29/3651 HTTP/1.1\r\nHost: h\r\n\r\n = Serve(Overdue(Some(Day { number: 19782 }), None))
    plan GET /overdue/2024-02-29/99999999999999999999999 HTTP/1.1\r\nHost: h\r\n\r\n = Serve(Overdue(Some(Day { number: 19782 }), None))
    plan GET /overdue/2024-02-29/+30 HTTP/1.1\r\nHost: h\r\n\r\n = Serve(Overdue(Some(Day { number: 19782 }), None))
    plan GET /overdue/2024-02-29/%330 HTTP/1.1\r\nHost: h\r\n\r\n = Serve(Overdue(Some(Day { number: 19782 }), None))
    plan GET /overdue/2023-02-29/30 HTTP/1.1\r\nHost: h\r\n\r\n = Serve(Overdue(None, Some(ConfirmDays { count: 30 })))
    plan GET /overdue/30/2024-02-29 HTTP/1.1\r\nHost: h\r\n\r\n = Serve(Overdue(None, None))

    # fields that do not matter
    plan POST /run/resume HTTP/1.1\r\nHost: h\r\nTransfer-Encoding: chunked\r\n\r\n = Serve(Resume)
    plan GET /records/1 HTTP/1.1\r\nHost: h\r\nContent-Length: no\r\n\r\n = Serve(Record(Some(1)))

    # bytes without a head
    plan G = no head
    plan GET /records/1 HTTP/1.1\r\nHost: h\r\n = no head
    plan GET /records/1 HTTP/2.0\r\nHost: h\r\n\r\n = no head
    plan GET /records/1\r\nHost: h\r\n\r\n = no head
    plan GET /records/1 HTTP/1.1\r\nHost : h\r\n\r\n = no head
    plan \1 = no head
    plan nothing = no byte

    # the most lines, and one more
    plan GET /records/1 HTTP/1.1\r\nHost: h\r\n + a:b\r\n x 63 + \r\n = Serve(Record(Some(1)))
    plan GET /records/1 HTTP/1.1\r\nHost: h\r\n + a:b\r\n x 64 + \r\n = no head
    # the longest head, of 34 bytes of two lines, 4 of a name and the end of its line and 2 of the empty line
    # beside a value, and one byte more
    plan GET /records/1 HTTP/1.1\r\nHost: h\r\nn: + v x 16344 + \r\n\r\n = Serve(Record(Some(1)))
    plan GET /records/1 HTTP/1.1\r\nHost: h\r\nn: + v x 16345 + \r\n\r\n = no head
";

/// The body that follows a head.
pub(crate) const BODIES: &str = r#"
    body POST /acts HTTP/1.1\r\nHost: h\r\nContent-Length: 20\r\n\r\n[{"act":"run-step"}] = whole: [{"act":"run-step"}]
    body POST /acts HTTP/1.1\r\nHost: h\r\nContent-Length: 20\r\n\r\n[{"act":"run-step"}]GET = whole: [{"act":"run-step"}]
    body POST /acts HTTP/1.1\r\nHost: h\r\nContent-Length: 20\r\n\r\n[{"ac = cut: [{"ac
    body POST /acts HTTP/1.1\r\nHost: h\r\nContent-Length: 20\r\n\r\n = cut:\s
    reader GET /records/1 HTTP/1.1\r\nHost: h\r\n\r\n = fails before each byte
"#;

/// Appends what is done for a head.
fn push_plan(plan: RequestPlan, out: &mut Vec<u8>) -> Option<()> {
    write!(out, "{plan:?}").ok()
}

/// What is done for the head of some bytes that come in pieces.
fn report_plan(most: usize, bytes: &[u8], out: &mut Vec<u8>) -> Option<()> {
    let alloc = *out.allocator();
    let routes = Routes::new(alloc).ok()?;
    let mut buf = Vec::with_capacity(alloc, LONGEST_HEAD).ok()?;
    let mut headers = [HeaderSpan::default(); 64];
    let mut reader = Sent::in_pieces(bytes, most);
    match read_head(&mut reader, &mut buf, &mut headers) {
        Ok(Head::Found(head)) => push_plan(plan_in(&routes, &buf, &head, &headers), out),
        Ok(Head::Missing) => push(out, "no head"),
        Ok(Head::Empty) => push(out, "no byte"),
        Err(Io) => None,
    }
}

/// Appends what was read of a body, and whether it is whole.
fn push_body(out: &mut Vec<u8>, whole: bool, body: &[u8]) -> Option<()> {
    push(out, if whole { "whole: " } else { "cut: " })?;
    out.extend_from_slice(body).ok()
}

/// The body of twenty bytes that follows a head, and whether it is whole.
fn report_body(most: usize, bytes: &[u8], out: &mut Vec<u8>) -> Option<()> {
    let mut reader = Sent::in_pieces(bytes, most);
    let mut buf = Vec::with_capacity(*out.allocator(), LONGEST_HEAD).ok()?;
    let mut headers = [HeaderSpan::default(); 64];
    let Ok(Head::Found(head)) = read_head(&mut reader, &mut buf, &mut headers) else {
        return None;
    };
    let end = head.len.saturating_add(20);
    match read_body(&mut reader, &mut buf, head.len, end) {
        Ok(whole) => {
            let body = buf.get(head.len..end.min(buf.len())).unwrap_or(b"");
            push_body(out, whole, body)
        }
        Err(_) => None,
    }
}

/// Whether a reader that breaks after these bytes is reported as failing, for a head and for a
/// body.
fn is_reported_as_broken(bytes: &[u8], buf: &mut Vec<u8>) -> bool
    requires { 16_384 ≤ vec_capacity buf.old }
{
    let mut headers = [HeaderSpan::default(); 64];
    buf.clear();
    let head = read_head(&mut Sent::breaking(bytes), buf, &mut headers);
    let body = read_body(&mut Sent::breaking(bytes), buf, 0, 4_096);
    matches!(head, Err(Io)) && body == Err(Stop::Io)
}

/// A reader that breaks before each of these bytes.
fn report_reader(bytes: &[u8], out: &mut Vec<u8>) -> Option<()> {
    for end in 0..bytes.len() {
        let mut buf = Vec::with_capacity(*out.allocator(), LONGEST_HEAD).ok()?;
        if !is_reported_as_broken(&bytes[..end], &mut buf) {
            return None;
        }
    }
    push(out, "fails before each byte")
}

pub(crate) fn report(most: usize, word: &str, bytes: &[u8], out: &mut Vec<u8>) -> Option<()> {
    match word {
        "plan" => report_plan(most, bytes, out),
        "body" => report_body(most, bytes, out),
        "reader" => report_reader(bytes, out),
        _ => None,
    }
}
