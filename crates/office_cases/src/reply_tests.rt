//! Whole answers, with their status and their length, and what a failing writer leaves.
use crate::streams::{Narrow, Sent};
use httparse::spans::HeaderSpan;
use office_base::Io;
use office_http::{
    Allow, Body, Head, LONGEST_HEAD, MediaType, Reply, RequestError, RequestPlan, Routes, Status,
    check_reply, error_reply, is_head_in, plan_in, read_head, write_reply,
};
use std::io::Write;

/// The answer to a request whose head does not pass a check, read in pieces of several sizes; to a
/// failure; and of bodies that are texts and octets. Each is also written with too little room.
pub(crate) const ROWS: &str = r#"
    reply GET /nothing HTTP/1.1\r\nHost: h\r\n\r\n = 404 in 113 bytes: HTTP/1.1 404 Not Found\r\nContent-Type: application/json\r\nContent-Length: 16\r\nConnection: close\r\n\r\n{"error":"path"}
    reply HEAD /nothing HTTP/1.1\r\nHost: h\r\n\r\n = 404 in 97 bytes: HTTP/1.1 404 Not Found\r\nContent-Type: application/json\r\nContent-Length: 16\r\nConnection: close\r\n\r\n
    reply HEAD /acts HTTP/1.1\r\nHost: h\r\n\r\n = 405 in 119 bytes: HTTP/1.1 405 Method Not Allowed\r\nContent-Type: application/json\r\nContent-Length: 18\r\nAllow: POST\r\nConnection: close\r\n\r\n
    reply HEAD /nothing HTTP/1.1\r\n\r\n = 400 in 99 bytes: HTTP/1.1 400 Bad Request\r\nContent-Type: application/json\r\nContent-Length: 16\r\nConnection: close\r\n\r\n
    reply DELETE /records/1 HTTP/1.1\r\nHost: h\r\n\r\n = 405 in 136 bytes: HTTP/1.1 405 Method Not Allowed\r\nContent-Type: application/json\r\nContent-Length: 18\r\nAllow: GET\r\nConnection: close\r\n\r\n{"error":"method"}

    # each check has its answer
    reply POST /acts HTTP/1.1\r\nContent-Length: 2\r\n\r\n = 400 in 115 bytes: HTTP/1.1 400 Bad Request\r\nContent-Type: application/json\r\nContent-Length: 16\r\nConnection: close\r\n\r\n{"error":"host"}
    reply GET /records HTTP/1.1\r\nHost: h\r\n\r\n = 404 in 113 bytes: HTTP/1.1 404 Not Found\r\nContent-Type: application/json\r\nContent-Length: 16\r\nConnection: close\r\n\r\n{"error":"path"}
    reply POST /acts HTTP/1.1\r\nHost: h\r\nTransfer-Encoding: chunked\r\nContent-Length: 5\r\n\r\n = 501 in 121 bytes: HTTP/1.1 501 Not Implemented\r\nContent-Type: application/json\r\nContent-Length: 18\r\nConnection: close\r\n\r\n{"error":"coding"}
    reply POST /acts HTTP/1.1\r\nHost: h\r\n\r\n = 411 in 121 bytes: HTTP/1.1 411 Length Required\r\nContent-Type: application/json\r\nContent-Length: 18\r\nConnection: close\r\n\r\n{"error":"length"}
    reply POST /acts HTTP/1.1\r\nHost: h\r\nContent-Length: +5\r\n\r\n = 400 in 117 bytes: HTTP/1.1 400 Bad Request\r\nContent-Type: application/json\r\nContent-Length: 18\r\nConnection: close\r\n\r\n{"error":"length"}
    reply POST /acts HTTP/1.1\r\nHost: h\r\nContent-Length: 1048577\r\n\r\n = 413 in 121 bytes: HTTP/1.1 413 Payload Too Large\r\nContent-Type: application/json\r\nContent-Length: 16\r\nConnection: close\r\n\r\n{"error":"size"}

    # each failure has its answer
    failure head = 400 in 115 bytes: HTTP/1.1 400 Bad Request\r\nContent-Type: application/json\r\nContent-Length: 16\r\nConnection: close\r\n\r\n{"error":"head"}
    failure body = 400 in 115 bytes: HTTP/1.1 400 Bad Request\r\nContent-Type: application/json\r\nContent-Length: 16\r\nConnection: close\r\n\r\n{"error":"body"}
    failure json = 400 in 115 bytes: HTTP/1.1 400 Bad Request\r\nContent-Type: application/json\r\nContent-Length: 16\r\nConnection: close\r\n\r\n{"error":"json"}
    failure memory = 503 in 125 bytes: HTTP/1.1 503 Service Unavailable\r\nContent-Type: application/json\r\nContent-Length: 18\r\nConnection: close\r\n\r\n{"error":"memory"}
    failure record = 404 in 115 bytes: HTTP/1.1 404 Not Found\r\nContent-Type: application/json\r\nContent-Length: 18\r\nConnection: close\r\n\r\n{"error":"record"}
    failure content = 404 in 116 bytes: HTTP/1.1 404 Not Found\r\nContent-Type: application/json\r\nContent-Length: 19\r\nConnection: close\r\n\r\n{"error":"content"}
    failure certificate = 404 in 120 bytes: HTTP/1.1 404 Not Found\r\nContent-Type: application/json\r\nContent-Length: 23\r\nConnection: close\r\n\r\n{"error":"certificate"}
    failure day = 400 in 114 bytes: HTTP/1.1 400 Bad Request\r\nContent-Type: application/json\r\nContent-Length: 15\r\nConnection: close\r\n\r\n{"error":"day"}
    failure count = 400 in 116 bytes: HTTP/1.1 400 Bad Request\r\nContent-Type: application/json\r\nContent-Length: 17\r\nConnection: close\r\n\r\n{"error":"count"}

    # a body of each other kind
    text RUN 1\n = 200 in 104 bytes: HTTP/1.1 200 OK\r\nContent-Type: text/plain; charset=utf-8\r\nContent-Length: 6\r\nConnection: close\r\n\r\nRUN 1\n
    octets \0\f = 409 in 105 bytes: HTTP/1.1 409 Conflict\r\nContent-Type: application/octet-stream\r\nContent-Length: 2\r\nConnection: close\r\n\r\n\0\f
"#;

/// Whether a writer fails that has room for fewer bytes than an answer has, and one with room for
/// them gives its status.
fn fails_at_each_byte(reply: &Reply, is_head: bool, size: usize, status: u16) -> bool {
    for room in 0..size {
        if write_reply(reply, is_head, &mut Narrow { room }) != Err(Io) {
            return false;
        }
    }
    write_reply(reply, is_head, &mut Narrow { room: size }) == Ok(status)
}

/// An answer with its status and its size.
fn report_reply(reply: &Reply, is_head: bool, out: &mut Vec<u8>) -> Option<()> {
    let mut answer = Vec::new(*out.allocator());
    match write_reply(reply, is_head, &mut answer) {
        Ok(status) if fails_at_each_byte(reply, is_head, answer.len(), status) => {
            write!(out, "{status} in {} bytes: ", answer.len()).ok()?;
            out.extend_from_slice(&answer).ok()
        }
        _ => None,
    }
}

/// The answer to a head that does not pass a check, read in pieces.
fn report_refused(most: usize, bytes: &[u8], out: &mut Vec<u8>) -> Option<()> {
    let alloc = *out.allocator();
    let routes = Routes::new(alloc).ok()?;
    let mut buf = Vec::with_capacity(alloc, LONGEST_HEAD).ok()?;
    let mut headers = [HeaderSpan::default(); 64];
    let mut reader = Sent::in_pieces(bytes, most);
    let Ok(Head::Found(head)) = read_head(&mut reader, &mut buf, &mut headers) else {
        return None;
    };
    let is_head = is_head_in(&buf, &head);
    match plan_in(&routes, &buf, &head, &headers) {
        RequestPlan::Refuse(check) => report_reply(&check_reply(check), is_head, out),
        _ => None,
    }
}

/// The error of that word.
fn error_of(word: &str) -> Option<RequestError> {
    match word {
        "head" => Some(RequestError::Head),
        "body" => Some(RequestError::Body),
        "json" => Some(RequestError::Json),
        "memory" => Some(RequestError::Memory),
        "record" => Some(RequestError::Record),
        "content" => Some(RequestError::Content),
        "certificate" => Some(RequestError::Certificate),
        "day" => Some(RequestError::Day),
        "count" => Some(RequestError::Count),
        _ => None,
    }
}

/// The answer to an error.
fn report_error(bytes: &[u8], out: &mut Vec<u8>) -> Option<()> {
    let error = error_of(str::from_utf8(bytes).ok()?)?;
    report_reply(&error_reply(error), false, out)
}

/// What was asked for, as a text.
fn report_text(bytes: &[u8], out: &mut Vec<u8>) -> Option<()> {
    let text = String::from_str(*out.allocator(), str::from_utf8(bytes).ok()?).ok()?;
    let reply = Reply {
        status: Status::Ok,
        media_type: MediaType::Plain,
        allow: Allow::Absent,
        body: Body::Text(text),
    };
    report_reply(&reply, false, out)
}

/// A refusal, as octets.
fn report_octets(bytes: &[u8], out: &mut Vec<u8>) -> Option<()> {
    let octets = Vec::from_slice(*out.allocator(), bytes).ok()?;
    let reply = Reply {
        status: Status::Conflict,
        media_type: MediaType::Octets,
        allow: Allow::Absent,
        body: Body::Bytes(octets),
    };
    report_reply(&reply, false, out)
}

pub(crate) fn report(most: usize, word: &str, bytes: &[u8], out: &mut Vec<u8>) -> Option<()> {
    match word {
        "reply" => report_refused(most, bytes, out),
        "failure" => report_error(bytes, out),
        "text" => report_text(bytes, out),
        "octets" => report_octets(bytes, out),
        _ => None,
    }
}
