//! A request is noted, done, and answered, in this order.
ghost use Rattle.std.specs.Prelude.{◌≡◌, List, Ok, Result, Some};
ghost use Rattle.office_gate.specs.Exchanges.{HasStatedReply};
ghost use Rattle.office_gate.specs.Visitors.{visitor_of};
ghost use Rattle.office_http.specs.Receiving.{acts, request_of_kind};
ghost use Rattle.office_http.specs.Replies.{response};
ghost use Rattle.office_json.specs.Lists.{IsListFault, NoActs, acts_in};
ghost use Rattle.office_noting.specs.Ledgers.{ledger_of};
ghost use Rattle.office_noting.specs.Noted.{IsNotedFirst, IsNotedReply, IsUnread, NotesList};
ghost use Rattle.office_noting.specs.Requests.{IsListed, acts_of, request_of};
ghost use Rattle.office_rules.specs.declared.act.Act.{Act};

use crate::answered::note_answered;
use crate::asked::note_asked;
use crate::book::{Book, Watch};
use crate::replies::{unasked_reply, unnoted_reply};
use crate::visit::{Visit, Wanted};
use office_desk::Desk;
use office_gate::{answer_for, perform_for};
use office_guard::Keeper;
use office_http::{PathRequest, Reply, RequestError, RequestKind, error_reply};
use office_json::{ListFault, read_acts};
use office_rules::Act;
use office_wire::bad_act_reply;
use sqlite::Alter;
use std::alloc::Global;
use std::io::Write;

/// Does what a request asks for, as far as the visitor may have it, and answers in any case.
fn answer_always<S: Alter>(
    alloc: Global,
    keeper: &Keeper<'_>,
    desk: &mut Desk<S>,
    kind: &RequestKind,
) -> Reply
    ensures { HasStatedReply S.Store (Some (visitor_of keeper.now)) (request_of_kind kind.now)
        (response result) desk.old desk.new }
{
    match answer_for(alloc, keeper, desk, kind) {
        Ok(reply) => reply,
        Err(_) => error_reply(RequestError::Memory),
    }
}

/// Performs the acts of a body, as far as each is permitted, and answers in any case.
fn perform_always<S: Alter>(
    alloc: Global,
    keeper: &Keeper<'_>,
    desk: &mut Desk<S>,
    body: &[u8],
    all: &[Act],
) -> Reply
    requires { acts_in body.now ≡ Ok all.now }
    ensures { HasStatedReply S.Store (Some (visitor_of keeper.now)) (acts body.now)
        (response result) desk.old desk.new }
{
    match perform_for(alloc, keeper, desk, all) {
        Ok(reply) => reply,
        Err(_) => error_reply(RequestError::Memory),
    }
}

/// Does what is wanted, as far as the visitor may have it, and answers in any case.
fn serve_wanted<S: Alter>(
    alloc: Global,
    keeper: &Keeper<'_>,
    desk: &mut Desk<S>,
    wanted: &Wanted<'_>,
) -> Reply
    requires { IsListed wanted.now }
    ensures { HasStatedReply S.Store (Some (visitor_of keeper.now)) (request_of wanted.now)
        (response result) desk.old desk.new }
{
    match wanted {
        Wanted::Acts { body, acts } => perform_always(alloc, keeper, desk, body, acts),
        Wanted::Resumption => {
            answer_always(
                alloc,
                keeper,
                desk,
                &RequestKind::Serve(PathRequest::Resume),
            )
        }
    }
}

/// Notes what is wanted, does it, notes the answer, and returns that.
fn serve_noted<W: Write, C: Watch, S: Alter>(
    alloc: Global,
    visit: &Visit<'_>,
    book: &mut Book<W, C>,
    desk: &mut Desk<S>,
    wanted: &Wanted<'_>,
) -> Reply
    requires { IsListed wanted.now }
    ensures { IsNotedFirst W.contents S.Store visit.now (request_of wanted.now)
        (acts_of wanted.now) (response result) (ledger_of book.old) (ledger_of book.new) desk.old
        desk.new }
{
    let Ok(line) = note_asked(alloc, visit, wanted, book) else {
        return unasked_reply();
    };
    let reply = serve_wanted(alloc, &visit.keeper, desk, wanted);
    match note_answered(alloc, wanted, line, &reply, book) {
        Ok(_) => reply,
        Err(_) => unnoted_reply(),
    }
}

/// Reports why a body has no list of acts, or lack of memory.
fn unread_reply(alloc: Global, fault: ListFault) -> Reply
    ensures { (read : Result (List Act) NoActs) → IsListFault read fault
        → IsUnread read (response result) }
{
    match fault {
        ListFault::NotJson => error_reply(RequestError::Json),
        ListFault::BadAct(place, refusal) => match bad_act_reply(alloc, place, refusal) {
            Ok(reply) => reply,
            Err(_) => error_reply(RequestError::Memory),
        },
        ListFault::Memory => error_reply(RequestError::Memory),
    }
}

/// Serves the acts of a body, if they can be read.
fn answer_list<W: Write, C: Watch, S: Alter>(
    alloc: Global,
    visit: &Visit<'_>,
    book: &mut Book<W, C>,
    desk: &mut Desk<S>,
    body: &[u8],
) -> Reply
    ensures { NotesList W.contents S.Store visit.now body.now (acts_in body.now) (response result)
        (ledger_of book.old) (ledger_of book.new) desk.old desk.new }
{
    match read_acts(alloc, body) {
        Ok(acts) => {
            let wanted = Wanted::Acts {
                body,
                acts: acts.as_slice(),
            };
            serve_noted(alloc, visit, book, desk, &wanted)
        }
        Err(fault) => unread_reply(alloc, fault),
    }
}

/// Does at the desk what a visitor's request asks for, as `office_gate::answer_for` does, and returns
/// the answer in any case. A list of acts or a resumption gets its line in the journal first; if the
/// journal does not take that line, nothing is done ([`crate::unasked_reply`]). Its answer is noted
/// before it is returned; if that line is not taken, [`crate::unnoted_reply`] goes out in its place.
pub fn answer_noted<W: Write, C: Watch, S: Alter>(
    alloc: Global,
    visit: &Visit<'_>,
    book: &mut Book<W, C>,
    desk: &mut Desk<S>,
    kind: &RequestKind,
) -> Reply
    ensures { IsNotedReply W.contents S.Store visit.now (request_of_kind kind.now)
        (response result) (ledger_of book.old) (ledger_of book.new) desk.old desk.new }
{
    match kind {
        RequestKind::Acts(body) => answer_list(alloc, visit, book, desk, body.as_bytes()),
        RequestKind::Serve(PathRequest::Resume) => {
            serve_noted(alloc, visit, book, desk, &Wanted::Resumption)
        }
        _ => answer_always(alloc, &visit.keeper, desk, kind),
    }
}
