//! A reply written part by part, from its status line to its body.
ghost use Rattle.std.specs.Prelude.{◌≡◌, ◌<◌, ◌^◌, IfOk, OnErr, OnOk, [], false, length, true};
ghost use Rattle.std.specs.Io.KnownBytes.{Appends};
ghost use Rattle.office_base.specs.Output.{AppendsSome};
ghost use Rattle.httparse.specs.Grammar.{ReadsResponse};
ghost use Rattle.office_http.specs.Messages.{message_head};
ghost use Rattle.office_http.specs.Replies.{Response, allow_line, head_end, head_start, head_text, media_type_line, response, response_text, status_number};

use crate::reply::{Allow, MediaType, Reply};
use crate::status::Status;
use itoa::Buffer;
use office_base::{Io, put_bytes, put_parts};
use std::io::Write;

/// The line of the media type.
#[tactic(auto, unfolding(crate::specs::Replies::media_type_line))]
fn media_type_line(media_type: MediaType) -> &'static str
    ensures { result.now ≡ media_type_line media_type }
{
    match media_type {
        MediaType::Json => "Content-Type: application/json\r\n",
        MediaType::Octets => "Content-Type: application/octet-stream\r\n",
        MediaType::Plain => "Content-Type: text/plain; charset=utf-8\r\n",
    }
}

/// The line of the method that is taken, if one is reported.
#[tactic(auto, unfolding(crate::specs::Replies::allow_line))]
fn allow_text(allow: Allow) -> &'static str
    ensures { result.now ≡ allow_line allow }
{
    match allow {
        Allow::Absent => "",
        Allow::Get => "Allow: GET\r\n",
        Allow::Post => "Allow: POST\r\n",
    }
}

/// Writes the first lines of a head: the status, and the media type.
#[tactic(auto, unfolding(crate::specs::Replies::status_words))]
fn put_start<W: Write>(writer: &mut W, status: Status, media_type: MediaType) -> Result<(), Io>
    ensures ok { OnOk result
        (Appends (W.contents writer.old) (W.contents writer.new) (head_start status media_type)) }
    ensures err { OnErr result
        (AppendsSome (W.contents writer.old) (W.contents writer.new) (head_start status media_type)) }
{
    let mut digits = Buffer::new();
    put_parts(
        &[
            b"HTTP/1.1 ",
            digits.format(status.number()).as_bytes(),
            b" ",
            status.phrase().as_bytes(),
            b"\r\n",
            media_type_line(media_type).as_bytes(),
        ],
        writer,
    )
}

/// Writes the other lines of a head: the length of the body, the method that is taken, and the end.
fn put_end<W: Write>(writer: &mut W, size: usize, allow: Allow) -> Result<(), Io>
    ensures ok { OnOk result
        (Appends (W.contents writer.old) (W.contents writer.new) (head_end size allow)) }
    ensures err { OnErr result
        (AppendsSome (W.contents writer.old) (W.contents writer.new) (head_end size allow)) }
{
    let mut digits = Buffer::new();
    put_parts(
        &[
            b"Content-Length: ",
            digits.format(size).as_bytes(),
            b"\r\n",
            allow_text(allow).as_bytes(),
            b"Connection: close\r\n\r\n",
        ],
        writer,
    )
}

/// Writes the head of an answer whose body has that size.
#[tactic(auto, using(crate::proofs::Appending::appends_then))]
fn put_head<W: Write>(writer: &mut W, reply: &Reply, size: usize) -> Result<(), Io>
    ensures ok { OnOk result (Appends (W.contents writer.old) (W.contents writer.new)
        (head_text reply.now.status reply.now.media_type size reply.now.allow)) }
    ensures err { OnErr result (AppendsSome (W.contents writer.old) (W.contents writer.new)
        (head_text reply.now.status reply.now.media_type size reply.now.allow)) }
{
    put_start(writer, reply.status, reply.media_type)?;
    put_end(writer, size, reply.allow)
}

/// Writes an answer, to HEAD its head alone, flushes the writer, and gives the status code. At an
/// error the first of its bytes, or none, went out. The parts of the answer are written one by one,
/// so give it a buffered writer where a write is dear.
#[tactic(auto, using(crate::proofs::Appending::appends_then))]
pub fn write_reply<W: Write>(reply: &Reply, is_head: bool, writer: &mut W) -> Result<u16, Io>
    ensures bytes { OnOk result
        (Appends (W.contents writer.old) (W.contents writer.new)
        (response_text is_head (response reply.now))) }
    ensures status { IfOk result (λ status. status ≡ status_number reply.now.status) }
    ensures err { OnErr result
        (AppendsSome (W.contents writer.old) (W.contents writer.new)
        (response_text is_head (response reply.now))) }
{
    put_reply(reply, is_head, writer)?;
    writer.flush().or(Err(Io))?;
    Ok(reply.status.number())
}

/// Writes an answer, to HEAD its head alone.
#[tactic(auto, using(crate::proofs::Appending::appends_then))]
fn put_reply<W: Write>(reply: &Reply, is_head: bool, writer: &mut W) -> Result<(), Io>
    ensures ok { OnOk result
        (Appends (W.contents writer.old) (W.contents writer.new)
        (response_text is_head (response reply.now))) }
    ensures err { OnErr result
        (AppendsSome (W.contents writer.old) (W.contents writer.new)
        (response_text is_head (response reply.now))) }
{
    let body = reply.body.as_bytes();
    put_head(writer, reply, body.len())?;
    if is_head {
        Ok(())
    } else {
        put_bytes(body, writer)
    }
}

/// The law that an answer is a message of HTTP, with these field lines and no others, and that to
/// HEAD it is the same message without its body.
pub fn law_of_replies()
    ensures message { (r : Response) → length r.body < 2 ^ 64
        → ReadsResponse (response_text false r) (message_head r) r.body }
    ensures head { (r : Response) → length r.body < 2 ^ 64
        → ReadsResponse (response_text true r) (message_head r) [] }
{}
