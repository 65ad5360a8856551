//! The office behind a connection is opened, and serves requests.
ghost use Rattle.std.specs.Prelude.{◌≡◌, ◌<◌, ◌≤◌, ◌++◌, ◌∷◌, [], IsTrue, MatchOption, false, map, vec_capacity, vec_len};
ghost use Rattle.sqlite.specs.Held.{state};
ghost use Rattle.sqlite.specs.State.{HasCleanDisk};
ghost use Rattle.office_rules.specs.State.{State};
ghost use Rattle.office_desk.specs.Leaving.{IsAt};
ghost use Rattle.office_life.specs.Life.{LeadsBy};
ghost use Rattle.office_life.specs.Standing.{LeavesAt, RestsAt};
ghost use Rattle.office_wire.specs.Exchanges.{IsExchanged};
ghost use Rattle.office_sessions.specs.Requests.{IsWhole, sent_as};
ghost use Rattle.office_sessions.specs.Stints.{DidRequests, WereOpenedFor};

use crate::reports::RequestsEnd;
use office_desk::Desk;
use office_rules::laws::resumption::law_of_resumption;
use office_rules::laws::soundness::law_of_soundness;
use office_store::laws::law_of_one_database;
use office_wire::{RequestList, Routes, SentAnswer, Serving, serve_session};
use sqlite::{Alter, Connection};
use std::alloc::Global;

/// Serves one request, as a session of its own, and gives what went out. Nothing is done if memory
/// for that is refused.
fn serve_request<S: Alter>(
    serving: Serving<'_>,
    desk: &mut Desk<S>,
    request: &[u8],
) -> Option<SentAnswer>
    ensures { MatchOption result (desk.new ≡ desk.old)
        (λ it. IsExchanged S.Store request.now (sent_as it) desk.old desk.new) }
{
    let requests = [request];
    let Ok(mut list) = RequestList::new(serving.alloc, &requests) else {
        return None;
    };
    serve_session(serving, &mut list, 1, desk);
    let mut sent = list.into_answers();
    sent.pop()
}

/// Returns true if a response went out whole, and is no 503.
fn is_whole(it: &SentAnswer) -> bool
    ensures yes { IsTrue result → IsWhole (sent_as it.now) }
    ensures no { result ≡ false → IsWhole (sent_as it.now) → ⊥ }
{
    match it.status {
        Ok(code) => code != 503,
        Err(_) => false,
    }
}

/// Keeps a response, for which there is room.
fn keep(answers: &mut Vec<SentAnswer>, it: SentAnswer)
    requires { vec_len answers.old < vec_capacity answers.old }
    ensures items { answers.new.items ≡ answers.old.items ++ it ∷ [] }
    ensures capacity { vec_capacity answers.old ≤ vec_capacity answers.new }
{
    let _ = answers.push(it);
}

/// Serves requests one after another, until one is not answered.
fn serve_each<S: Alter>(serving: Serving<'_>, desk: &mut Desk<S>, requests: &[&[u8]]) -> RequestsEnd
    ensures opened { WereOpenedFor result }
    ensures clean { HasCleanDisk (state S.Store desk.new.connection)
        → HasCleanDisk (state S.Store desk.old.connection) }
    ensures left { HasCleanDisk (state S.Store desk.new.connection) → (s : State)
        → IsAt S.Store s desk.old
        → LeavesAt (LeadsBy (DidRequests (map (λ bytes. bytes.now) requests.now) result) s)
        (state S.Store desk.new.connection) }
{
    law_of_soundness();
    law_of_resumption();
    let Ok(mut answers) = Vec::with_capacity(serving.alloc, requests.len()) else {
        return RequestsEnd::Stopped(Vec::new(serving.alloc), None);
    };
    for request in requests {
        let Some(it) = serve_request(serving, desk, request) else {
            return RequestsEnd::Stopped(answers, None);
        };
        if !is_whole(&it) {
            return RequestsEnd::Stopped(answers, Some(it));
        }
        keep(&mut answers, it);
    }
    RequestsEnd::Answered(answers)
}

/// Serves requests at a desk, and closes it.
fn serve_on<S: Alter>(
    alloc: Global,
    mut desk: Desk<S>,
    requests: &[&[u8]],
) -> (RequestsEnd, Connection<S>)
    ensures opened { WereOpenedFor result.0 }
    ensures clean { HasCleanDisk (state S.Store result.1)
        → HasCleanDisk (state S.Store desk.connection) }
    ensures left { HasCleanDisk (state S.Store result.1) → (s : State) → IsAt S.Store s desk
        → LeavesAt (LeadsBy (DidRequests (map (λ bytes. bytes.now) requests.now) result.0) s)
        (state S.Store result.1) }
{
    let Ok(routes) = Routes::new(alloc) else {
        return (RequestsEnd::Stopped(Vec::new(alloc), None), desk.close());
    };
    let serving = Serving {
        alloc,
        routes: &routes,
    };
    let end = serve_each(serving, &mut desk, requests);
    (end, desk.close())
}

/// Opens the office behind a connection, and serves requests.
pub(crate) fn serve_at<S: Alter>(
    alloc: Global,
    conn: Connection<S>,
    requests: &[&[u8]],
) -> (RequestsEnd, Connection<S>)
    requires { conn.in_transaction ≡ false }
    ensures opened { WereOpenedFor result.0 }
    ensures left { HasCleanDisk (state S.Store result.1) → (s : State)
        → RestsAt (state S.Store conn) s
        → LeavesAt (LeadsBy (DidRequests (map (λ bytes. bytes.now) requests.now) result.0) s)
        (state S.Store result.1) }
{
    law_of_soundness();
    law_of_one_database();
    match Desk::open(alloc, conn) {
        Ok(desk) => serve_on(alloc, desk, requests),
        Err((fault, conn)) => (RequestsEnd::OfficeShut(fault), conn),
    }
}
