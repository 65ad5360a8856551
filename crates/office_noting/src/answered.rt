//! The line of an answer.
ghost use Rattle.std.specs.Prelude.{◌≡◌};
ghost use Rattle.office_http.specs.Replies.{response};
ghost use Rattle.office_noting.specs.Noted.{NotesAnswered};
ghost use Rattle.office_noting.specs.Requests.{HasAnswer, has_answers, is_known, request_of};

use crate::book::{Book, Watch};
use crate::visit::Wanted;
use office_http::{Reply, Status};
use office_journal::{Answered, Preceding, Unwritten};
use office_settings::text_in;
use std::alloc::Global;
use std::io::Write;

/// Reports whether the body of an answer is the answers to a list of acts.
fn has_answers(wanted: &Wanted<'_>, status: Status) -> bool
    ensures { result ≡ has_answers (request_of wanted.now) status }
{
    match wanted {
        Wanted::Acts { .. } => matches!(status, Status::Ok | Status::Conflict),
        Wanted::Resumption => false,
    }
}

/// Reports whether it is known how much was done.
fn is_known(status: Status) -> bool
    ensures { result ≡ is_known status }
{
    !matches!(status, Status::ServiceUnavailable)
}

/// Returns what the line of an answer has, at that moment.
fn answered_at<'a>(at: &'a str, line: u64, reply: &'a Reply, is_list: bool) -> Answered<'a>
    ensures { HasAnswer is_list line (response reply.now) result }
{
    let text = text_in(reply.body.as_bytes());
    let mut answered = Answered {
        at,
        of: line,
        status: reply.status.number(),
        answers: None,
        fault: None,
        answer: None,
        position: None,
        is_repeated: false,
        is_known: is_known(reply.status),
        preceding: Preceding::nothing(),
    };
    if is_list {
        answered.answers = text;
    } else {
        answered.answer = text;
    }
    answered
}

/// Writes the line of the answer to the request of a line, and returns its number.
pub(crate) fn note_answered<W: Write, C: Watch>(
    alloc: Global,
    wanted: &Wanted<'_>,
    line: u64,
    reply: &Reply,
    book: &mut Book<W, C>,
) -> Result<u64, Unwritten>
    ensures line { NotesAnswered W.contents (request_of wanted.now) line (response reply.now) result
        book.old.journal book.new.journal }
    ensures named { book.new.named ≡ book.old.named }
{
    let Ok(moment) = book.watch.moment(alloc) else {
        return Err(Unwritten::Memory);
    };
    let is_list = has_answers(wanted, reply.status);
    let answered = answered_at(moment.text(), line, reply, is_list);
    book.journal.note_answered(alloc, &answered)
}
