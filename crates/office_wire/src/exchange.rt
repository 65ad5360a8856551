//! One request is received, answered at the desk, and its answer written: in two halves, of which
//! one has no writer and the other no desk.
ghost use Rattle.std.specs.Prelude.{◌≡◌, IfOk, IsTrue, OnErr, false};
ghost use Rattle.office_http.specs.Replies.{response};
ghost use Rattle.office_http.specs.Receiving.{request_of_kind};
ghost use Rattle.office_wire.specs.Calling.{CalledAt};
ghost use Rattle.office_wire.specs.Serving.{AnswersNext, HasReply, InHalves, IsFailed, IsGoneAnswered, IsOneServed, Sends};

use crate::answers::answer;
use office_base::Io;
use office_desk::Desk;
use office_http::{
    ParsedRequest, ReceiveStop, Received, Reply, RequestError, RequestKind, Routes, error_reply,
    receive, write_reply,
};
use sqlite::Alter;
use std::alloc::Global;
use std::io::{Read, Write};

/// Does what a request asks for, and gives an answer in any case: where memory is refused for it,
/// that is reported from fixed bytes.
fn answer_always<S: Alter>(alloc: Global, desk: &mut Desk<S>, kind: &RequestKind) -> Reply
    ensures { HasReply S.Store (request_of_kind kind.now) (response result) desk.old desk.new }
{
    match answer(alloc, desk, kind) {
        Ok(reply) => reply,
        Err(_) => error_reply(RequestError::Memory),
    }
}

/// An answer that is to be written.
#[derive(Drop)]
pub struct OutgoingReply {
    /// The answer.
    pub reply: Reply,
    /// Whether its head alone is written, as to HEAD.
    pub is_head: bool,
}

/// An answer from fixed bytes.
pub fn error_to_send(error: RequestError, is_head: bool) -> Option<OutgoingReply>
    ensures { IsFailed error is_head result }
{
    let reply = error_reply(error);
    Some(OutgoingReply { reply, is_head })
}

/// Does what a request asks for, and gives its answer.
fn answer_request<S: Alter>(
    alloc: Global,
    desk: &mut Desk<S>,
    request: ParsedRequest,
) -> OutgoingReply
    ensures is_head { result.is_head ≡ request.is_head }
    ensures has { HasReply S.Store (request_of_kind request.kind) (response result.reply) desk.old
        desk.new }
{
    let reply = answer_always(alloc, desk, &request.kind);
    OutgoingReply {
        reply,
        is_head: request.is_head,
    }
}

/// The half of serving before a byte is written: reads a request, does what it asks for, and gives
/// its answer; none where the connection had no byte. `Io` comes where the reader answered an
/// error, of no writer, since none is here; and then nothing was done.
pub fn answer_next<R: Read, S: Alter>(
    alloc: Global,
    routes: &Routes,
    desk: &mut Desk<S>,
    reader: &mut R,
) -> Result<Option<OutgoingReply>, Io>
    ensures next { AnswersNext S.Store R.remaining reader.old reader.new result desk.old desk.new }
    ensures err { OnErr result (desk.new ≡ desk.old) }
{
    match receive(alloc, routes, reader) {
        Ok(Received::Nothing) => Ok(None),
        Ok(Received::Headless) => Ok(error_to_send(RequestError::Head, false)),
        Ok(Received::Request(request)) => Ok(Some(answer_request(alloc, desk, request))),
        Err(ReceiveStop::Memory) => Ok(error_to_send(RequestError::Memory, false)),
        Err(ReceiveStop::MemoryForBody) => Ok(error_to_send(RequestError::Memory, false)),
        Err(ReceiveStop::Io) => Err(Io),
    }
}

/// The half of serving after it: writes an answer, if there is one, and gives its status, or 0.
/// `Io` comes where the writer answered an error, and the first bytes of the answer, or none, went
/// out; no desk is here, so it is as if the answer had been written.
pub fn send<W: Write>(sending: Option<OutgoingReply>, writer: &mut W) -> Result<u16, Io>
    ensures { Sends sending result (W.contents writer.old) (W.contents writer.new) }
{
    match sending {
        None => Ok(0),
        Some(it) => write_reply(&it.reply, it.is_head, writer),
    }
}

/// Answers one request by routes that were made before: its bytes are read, what it asks for is
/// done at the desk, and the answer is written. It gives the status of the answer, or 0 where the
/// connection had no byte. The answer does not depend on how the bytes were cut.
///
/// It is [`answer_next`] and then [`send`]. `Io` comes where the reader answered an error, and then
/// nothing was done and nothing written; or where the writer did, and then the first bytes of the
/// answer, or none, went out, and the desk is as if all had been written. Where the reader does not
/// report its bytes, as a socket's does not, the desk still is where serving something leaves it.
///
/// A poisoned desk stays as it is, and fault 32 is reported in place of all that it would do or
/// report. Where it is poisoned here, the status is 503.
pub fn serve_with<R: Read, W: Write, S: Alter>(
    alloc: Global,
    routes: &Routes,
    desk: &mut Desk<S>,
    reader: &mut R,
    writer: &mut W,
) -> Result<u16, Io>
    // From each state over a clean disk, all bytes of the connection are answered.
    ensures served { CalledAt S.Store desk.old desk.new (λ t. IsOneServed S.Store t
        (R.remaining reader.old) (reader.new ≡ reader.old) result (W.contents writer.old)
        (W.contents writer.new) desk.new) }

    // A poisoned desk stays as it is, and fault 32 stands for all that it would do or report.
    ensures gone { IsTrue desk.old.is_poisoned → (desk.new ≡ desk.old)
        × IsGoneAnswered (R.remaining reader.old) (reader.new ≡ reader.old) result
        (W.contents writer.old) (W.contents writer.new) }

    // Where serving poisons the desk, the status is 503.
    ensures unavailable { desk.old.is_poisoned ≡ false → IsTrue desk.new.is_poisoned
        → IfOk result (λ status. status ≡ 503) }

    // At an error nothing was done, or the desk is as if the whole answer had been written.
    ensures halves { InHalves S.Store R.remaining reader.old reader.new W.contents writer.old
        writer.new result desk.old desk.new }
{
    let sending = answer_next(alloc, routes, desk, reader)?;
    send(sending, writer)
}

/// Answers one request as [`serve_with`] does, by routes of its own. Without memory for these, the
/// answer is 503 `{"error":"memory"}`, no byte is read, and the desk stays as it is.
pub fn serve_one<R: Read, W: Write, S: Alter>(
    alloc: Global,
    desk: &mut Desk<S>,
    reader: &mut R,
    writer: &mut W,
) -> Result<u16, Io>
    // From each state over a clean disk, all bytes of the connection are answered.
    ensures served { CalledAt S.Store desk.old desk.new (λ t. IsOneServed S.Store t
        (R.remaining reader.old) (reader.new ≡ reader.old) result (W.contents writer.old)
        (W.contents writer.new) desk.new) }

    // A poisoned desk stays as it is, and fault 32 stands for all that it would do or report.
    ensures gone { IsTrue desk.old.is_poisoned → (desk.new ≡ desk.old)
        × IsGoneAnswered (R.remaining reader.old) (reader.new ≡ reader.old) result
        (W.contents writer.old) (W.contents writer.new) }

    // Where serving poisons the desk, the status is 503.
    ensures unavailable { desk.old.is_poisoned ≡ false → IsTrue desk.new.is_poisoned
        → IfOk result (λ status. status ≡ 503) }

    // At an error nothing was done, or the desk is as if the whole answer had been written.
    ensures halves { InHalves S.Store R.remaining reader.old reader.new W.contents writer.old
        writer.new result desk.old desk.new }
{
    match Routes::new(alloc) {
        Ok(routes) => serve_with(alloc, &routes, desk, reader, writer),
        Err(_) => send(error_to_send(RequestError::Memory, false), writer),
    }
}
