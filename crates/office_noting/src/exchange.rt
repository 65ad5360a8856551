//! One request is received with what the proxy states, and noted, served and answered.
ghost use Rattle.std.specs.Prelude.{◌≡◌, IfOk, IfSome, OnErr};
ghost use Rattle.office_gate.specs.Exchanges.{LeavesVisited};
ghost use Rattle.office_gate.specs.Stated.{visitor_stated};
ghost use Rattle.office_http.specs.Proxies.{values_of};
ghost use Rattle.office_http.specs.Receiving.{request_of_kind};
ghost use Rattle.office_http.specs.Replies.{response};
ghost use Rattle.office_noting.specs.Arrivals.{IsNotedStated, IsNotedToSend, IsUntouched, NotesVisit, stated_address};
ghost use Rattle.office_noting.specs.Ledgers.{ledger_of};
ghost use Rattle.office_wire.specs.Calling.{AnsweredAt};
ghost use Rattle.office_wire.specs.Serving.{ReportsUnavailable};

use crate::arrival::{Arrival, stated_address};
use crate::book::{Book, Watch};
use crate::turn::answer_noted;
use crate::visit::Visit;
use office_base::Io;
use office_desk::Desk;
use office_gate::token_reply;
use office_http::{
    Proxied, ProxiedRequest, ReceiveStop, Reply, RequestError, error_reply, receive_proxied,
};
use office_wire::{OutgoingReply, Serving, error_to_send};
use sqlite::Alter;
use std::alloc::Global;
use std::io::{Read, Write};

/// Notes and does what a request asks for, for the visitor whom the proxy states, and gives an
/// answer in any case.
fn answer_stated<W: Write, C: Watch, S: Alter>(
    alloc: Global,
    arrival: &Arrival<'_>,
    book: &mut Book<W, C>,
    desk: &mut Desk<S>,
    request: &ProxiedRequest,
) -> Reply
    ensures { IsNotedStated W.contents S.Store arrival.now
        (stated_address (values_of request.now.lines.from))
        (visitor_stated arrival.now.gate.now (values_of request.now.lines.token)
        (values_of request.now.lines.name) (values_of request.now.lines.day))
        (request_of_kind request.now.request.kind) (response result) (ledger_of book.old)
        (ledger_of book.new) desk.old desk.new }
{
    match arrival.gate.visitor(alloc, &request.lines) {
        Ok(Some(keeper)) => {
            let visit = Visit {
                keeper,
                from: stated_address(&request.lines.from),
                settings: arrival.settings,
            };
            answer_noted(alloc, &visit, book, desk, &request.request.kind)
        }
        Ok(None) => token_reply(),
        Err(_) => error_reply(RequestError::Memory),
    }
}

/// Notes and does what a request asks for, and gives its answer.
fn answer_request<W: Write, C: Watch, S: Alter>(
    alloc: Global,
    arrival: &Arrival<'_>,
    book: &mut Book<W, C>,
    desk: &mut Desk<S>,
    request: ProxiedRequest,
) -> OutgoingReply
    ensures is_head { result.is_head ≡ request.request.is_head }
    ensures noted { IsNotedStated W.contents S.Store arrival.now
        (stated_address (values_of request.lines.from))
        (visitor_stated arrival.now.gate.now (values_of request.lines.token)
        (values_of request.lines.name) (values_of request.lines.day))
        (request_of_kind request.request.kind) (response result.reply) (ledger_of book.old)
        (ledger_of book.new) desk.old desk.new }
{
    let reply = answer_stated(alloc, arrival, book, desk, &request);
    OutgoingReply {
        reply,
        is_head: request.request.is_head,
    }
}

/// Reads a request as `office_gate::answer_visit` does, notes and does what it asks for, and gives
/// its answer, which is noted; none if the connection had no byte. `Io` comes if the reader answered
/// an error, and then nothing was done and nothing noted.
pub fn answer_noted_visit<R: Read, W: Write, C: Watch, S: Alter>(
    serving: Serving<'_>,
    arrival: &Arrival<'_>,
    book: &mut Book<W, C>,
    desk: &mut Desk<S>,
    reader: &mut R,
) -> Result<Option<OutgoingReply>, Io>
    // If the reader reports its bytes, the answer is that to all of them.
    ensures ok { IfOk result (λ it. IfSome (R.remaining reader.old)
        (λ bytes. IsNotedToSend W.contents S.Store arrival.now bytes it (ledger_of book.old)
        (ledger_of book.new) desk.old desk.new)) }
    ensures noted { NotesVisit W.contents S.Store arrival.now (ledger_of book.old)
        (ledger_of book.new) desk.old desk.new }

    // The desk is where the same visit leaves it at a gate without a journal.
    ensures leaves { AnsweredAt S.Store desk.old desk.new
        (λ t. LeavesVisited S.Store t arrival.now.gate.now.policy desk.new) (Unit {0})
        (IfOk result (λ it. ReportsUnavailable it)) }
    ensures err { OnErr result
        (IsUntouched (ledger_of book.old) (ledger_of book.new) desk.old desk.new) }
{
    match receive_proxied(serving.alloc, serving.routes, reader) {
        Ok(Proxied::Nothing) => Ok(None),
        Ok(Proxied::Headless) => Ok(error_to_send(RequestError::Head, false)),
        Ok(Proxied::Request(request)) => {
            let sending = answer_request(serving.alloc, arrival, book, desk, request);
            Ok(Some(sending))
        }
        Err(ReceiveStop::Memory) => Ok(error_to_send(RequestError::Memory, false)),
        Err(ReceiveStop::MemoryForBody) => Ok(error_to_send(RequestError::Memory, false)),
        Err(ReceiveStop::Io) => Err(Io),
    }
}
