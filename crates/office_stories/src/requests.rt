//! Requests of HTTP and their answers, byte for byte, of the words of a row.
use crate::failures::failure;
use crate::repeating::{bytes_of, written};
use std::alloc::{AllocError, Global};
use std::test::Fail;

/// What a client sends and what it must be answered.
#[derive(Drop)]
pub(crate) struct Exchange {
    pub(crate) sent: Vec<u8>,
    pub(crate) answer: String,
    /// How many bytes of the answer it takes.
    pub(crate) room: usize,
    /// Whether its connection is lost after what it sent.
    pub(crate) is_lost: bool,
}

/// A request that has a body, with the length that is reported of it.
fn request_with_body(
    alloc: Global,
    target: &str,
    length: &str,
    body: &str,
) -> Result<String, AllocError> {
    format!(in alloc; "POST {target} HTTP/1.1\r\nHost: h\r\nContent-Length: {length}\r\n\r\n{body}")
}

/// A request as a text.
fn request(alloc: Global, words: &str) -> Result<String, AllocError> {
    if let Some(bytes) = words.strip_prefix("bytes ") {
        return written(alloc, bytes);
    }
    if words == "nothing" {
        return Ok(String::new(alloc));
    }
    if let Some(("POST", rest)) = words.split_once(' ')
        && let Some((target, rest)) = rest.split_once(' ')
        && let Some((length, body)) = rest.split_once(' ')
    {
        return request_with_body(alloc, target, length, body);
    }
    format!(in alloc; "{words} HTTP/1.1\r\nHost: h\r\n\r\n")
}

/// How many bytes of a request are sent, and its words.
fn first_of(words: &str) -> (usize, &str) {
    if let Some(rest) = words.strip_prefix("first ")
        && let Some((count, words)) = rest.split_once(" of ")
    {
        return (count.parse().unwrap_or(0), words);
    }
    (usize::MAX, words)
}

/// The bytes that a client sends.
fn sent(alloc: Global, words: &str) -> Result<Vec<u8>, AllocError> {
    let (count, words) = first_of(words);
    let mut bytes = bytes_of(alloc, request(alloc, words)?.as_str())?;
    bytes.truncate(count);
    Ok(bytes)
}

/// The bytes of an answer of that status and type, with the length that is reported of its body.
fn reply(
    alloc: Global,
    status: &str,
    kind: &str,
    length: &str,
    body: &str,
) -> Result<String, AllocError> {
    let body = written(alloc, body)?;
    format!(in alloc;
        "HTTP/1.1 {status}\r\nContent-Type: {kind}\r\nContent-Length: {length}\r\nConnection: close\r\n\r\n{body}"
    )
}

/// The bytes of an answer, none where it is none.
fn answer(alloc: Global, words: &str) -> Result<String, AllocError> {
    if let Some(bytes) = words.strip_prefix("bytes ") {
        return written(alloc, bytes);
    }
    if let Some((head, body)) = words.split_once(':')
        && let Some((status, rest)) = head.split_once(", ")
        && let Some((kind, length)) = rest.split_once(", ")
    {
        return reply(alloc, status, kind, length, body.trim());
    }
    Ok(String::new(alloc))
}

/// An answer, which must have so many bytes in all where a row says so.
fn counted_answer(alloc: Global, words: &str) -> Result<String, Fail> {
    let Some((words, length)) = words.split_once(", in all ") else {
        return Ok(answer(alloc, words)?);
    };
    let answer = answer(alloc, words)?;
    if length.parse() == Ok(answer.len()) {
        return Ok(answer);
    }
    Err(failure("of another length", words))
}

/// After how many bytes of its answer a client is lost, and the answer.
fn taken(reported: &str) -> (&str, usize) {
    match reported.split_once(", lost after ") {
        Some((answer, room)) => (answer, room.parse().unwrap_or(0)),
        None => (reported, usize::MAX),
    }
}

/// The exchange that a row reports.
pub(crate) fn exchange_of(alloc: Global, row: &str) -> Result<Exchange, Fail> {
    let Some((words, reported)) = row.split_once(" = ") else {
        return Err(failure("no answer", row));
    };
    let (reported, room) = taken(reported);
    let sent = sent(alloc, words)?;
    let answer = counted_answer(alloc, reported)?;
    Ok(Exchange {
        sent,
        answer,
        room,
        is_lost: reported == "lost",
    })
}
