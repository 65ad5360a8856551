//! One request is received with what the proxy states, answered at the desk, and its answer written.
ghost use Rattle.std.specs.Prelude.{◌≡◌, OnErr};
ghost use Rattle.office_gate.specs.Exchanges.{AnswersStated, HasStatedReply, IsAnsweredStated, IsVisitServed};
ghost use Rattle.office_gate.specs.Stated.{visitor_stated};
ghost use Rattle.office_http.specs.Proxies.{values_of};
ghost use Rattle.office_http.specs.Receiving.{request_of_kind};
ghost use Rattle.office_http.specs.Replies.{response};

use crate::answers::answer_for;
use crate::denials::token_reply;
use crate::gate::Gate;
use office_base::{Io, Memory};
use office_desk::Desk;
use office_http::{
    Proxied, ProxiedRequest, ReceiveStop, Reply, RequestError, Routes, error_reply, receive_proxied,
};
use office_wire::{OutgoingReply, Serving, error_to_send, send};
use sqlite::Alter;
use std::alloc::Global;
use std::io::{Read, Write};

/// Does what a request asks for, for the visitor whom the proxy states, and gives the answer.
fn answer_stated<S: Alter>(
    alloc: Global,
    gate: &Gate,
    desk: &mut Desk<S>,
    request: &ProxiedRequest,
) -> Result<Reply, Memory>
    ensures { IsAnsweredStated S.Store (visitor_stated gate.now (values_of request.now.lines.token)
        (values_of request.now.lines.name) (values_of request.now.lines.day))
        (request_of_kind request.now.request.kind) result desk.old desk.new }
{
    match gate.visitor(alloc, &request.lines)? {
        Some(keeper) => answer_for(alloc, &keeper, desk, &request.request.kind),
        None => Ok(token_reply()),
    }
}

/// Does what a request asks for, and gives an answer in any case: if memory is refused for it, that
/// is reported from fixed bytes.
fn answer_always<S: Alter>(
    alloc: Global,
    gate: &Gate,
    desk: &mut Desk<S>,
    request: &ProxiedRequest,
) -> Reply
    ensures { HasStatedReply S.Store (visitor_stated gate.now (values_of request.now.lines.token)
        (values_of request.now.lines.name) (values_of request.now.lines.day))
        (request_of_kind request.now.request.kind) (response result) desk.old desk.new }
{
    match answer_stated(alloc, gate, desk, request) {
        Ok(reply) => reply,
        Err(_) => error_reply(RequestError::Memory),
    }
}

/// Does what a request asks for, and gives its answer.
fn answer_request<S: Alter>(
    alloc: Global,
    gate: &Gate,
    desk: &mut Desk<S>,
    request: ProxiedRequest,
) -> OutgoingReply
    ensures is_head { result.is_head ≡ request.request.is_head }
    ensures has { HasStatedReply S.Store (visitor_stated gate.now (values_of request.lines.token)
        (values_of request.lines.name) (values_of request.lines.day))
        (request_of_kind request.request.kind) (response result.reply) desk.old desk.new }
{
    let reply = answer_always(alloc, gate, desk, &request);
    OutgoingReply {
        reply,
        is_head: request.request.is_head,
    }
}

/// The half of serving before a byte is written: reads a request with what the proxy states, does
/// what it asks for as far as the visitor may, and gives its answer; none if the connection had no
/// byte. `Io` comes if the reader answered an error, and then nothing was done.
pub fn answer_visit<R: Read, S: Alter>(
    alloc: Global,
    routes: &Routes,
    gate: &Gate,
    desk: &mut Desk<S>,
    reader: &mut R,
) -> Result<Option<OutgoingReply>, Io>
    ensures next { AnswersStated S.Store gate.now (R.remaining reader.old) result desk.old
        desk.new }
    ensures err { OnErr result (desk.new ≡ desk.old) }
{
    match receive_proxied(alloc, routes, reader) {
        Ok(Proxied::Nothing) => Ok(None),
        Ok(Proxied::Headless) => Ok(error_to_send(RequestError::Head, false)),
        Ok(Proxied::Request(request)) => Ok(Some(answer_request(alloc, gate, desk, request))),
        Err(ReceiveStop::Memory) => Ok(error_to_send(RequestError::Memory, false)),
        Err(ReceiveStop::MemoryForBody) => Ok(error_to_send(RequestError::Memory, false)),
        Err(ReceiveStop::Io) => Err(Io),
    }
}

/// Answers one request that comes through the proxy: its bytes are read, what it asks for is done at
/// the desk as far as the name that the proxy states may do it, and the answer is written. Returns
/// the status of the answer, or 0 if the connection had no byte. `Io` comes if the reader answered
/// an error, and then nothing was done and nothing written; or if the writer did, and then the first
/// bytes of the answer, or none, went out, and the desk is as if all had been written.
pub fn serve_visit<R: Read, W: Write, S: Alter>(
    serving: Serving<'_>,
    gate: &Gate,
    desk: &mut Desk<S>,
    reader: &mut R,
    writer: &mut W,
) -> Result<u16, Io>
    ensures { IsVisitServed S.Store gate.now (R.remaining reader.old) W.contents writer.old
        writer.new result desk.old desk.new }
{
    let sending = answer_visit(serving.alloc, serving.routes, gate, desk, reader)?;
    send(sending, writer)
}
