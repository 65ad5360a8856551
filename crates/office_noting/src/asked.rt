//! The line of a request that may change the office.
ghost use Rattle.std.specs.Prelude.{◌≡◌, IsSomeAnd, List, None, Some, ℕ};
ghost use Rattle.office_http.specs.Receiving.{acts, requested};
ghost use Rattle.office_http.specs.declared.path_request.PathRequest.TheVariants.{Resume};
ghost use Rattle.office_noting.specs.Ledgers.{ledger_of};
ghost use Rattle.office_noting.specs.Noted.{NotesAsked, NotesRequest};
ghost use Rattle.office_noting.specs.Requests.{acts_of, request_name, request_of, sum_of};

use crate::book::{Book, Watch};
use crate::visit::{Visit, Wanted};
use office_journal::{Asked, Body, Preceding, Unwritten};
use office_notes::acts_text;
use office_rules::{Act, digest_of};
use std::alloc::Global;
use std::io::Write;

/// Returns the length and the SHA-256 of a body.
fn sum_of(body: &[u8]) -> Body
    ensures { result ≡ sum_of body.now }
{
    Body {
        bytes: body.len() as u64,
        sha256: digest_of(body),
    }
}

/// Returns the line of a resumption, at that moment, but for its settings.
fn resumption_by<'a>(at: &'a str, name: &'a str, from: &'a str) -> Asked<'a>
    ensures name { result.name.now ≡ name.now }
    ensures from { result.from.now ≡ from.now }
    ensures request { result.request.now ≡ request_name (requested Resume) }
    ensures body { (result.body ≡ None) × (result.acts ≡ None) }
{
    Asked {
        at,
        name,
        from,
        request: "POST /run/resume",
        reason: None,
        key: None,
        body: None,
        acts: None,
        settings: [0; 32],
        earlier: None,
        files: None,
        contents: None,
        preceding: Preceding::nothing(),
    }
}

/// Returns the line of a list with these acts, at that moment, but for its body and its settings.
fn list_by<'a>(at: &'a str, name: &'a str, from: &'a str, notes: &'a str) -> Asked<'a>
    ensures name { result.name.now ≡ name.now }
    ensures from { result.from.now ≡ from.now }
    ensures request { (body : List ℕ) → result.request.now ≡ request_name (acts body) }
    ensures notes { IsSomeAnd result.acts (λ text. text.now ≡ notes.now) }
{
    let mut asked = resumption_by(at, name, from);
    asked.request = "POST /acts";
    asked.acts = Some(notes);
    asked
}

/// Writes the line of a list, and returns its number.
fn note_list<W: Write, C: Watch>(
    alloc: Global,
    visit: &Visit<'_>,
    body: &[u8],
    all: &[Act],
    book: &mut Book<W, C>,
) -> Result<u64, Unwritten>
    ensures line { NotesRequest W.contents visit.now (acts body.now) (Some all.now) result
        book.old.journal book.new.journal }
    ensures named { book.new.named ≡ book.old.named }
{
    let Ok(moment) = book.watch.moment(alloc) else {
        return Err(Unwritten::Memory);
    };
    let Ok(notes) = acts_text(alloc, all) else {
        return Err(Unwritten::Memory);
    };
    let name = visit.keeper.name.name.text();
    let mut asked = list_by(moment.text(), name, visit.address(), notes.as_str());
    asked.body = Some(sum_of(body));
    asked.settings = visit.settings;
    book.journal.note_asked(alloc, &asked)
}

/// Writes the line of a resumption, and returns its number.
fn note_resumption<W: Write, C: Watch>(
    alloc: Global,
    visit: &Visit<'_>,
    book: &mut Book<W, C>,
) -> Result<u64, Unwritten>
    ensures line { NotesRequest W.contents visit.now (requested Resume) None result
        book.old.journal book.new.journal }
    ensures named { book.new.named ≡ book.old.named }
{
    let Ok(moment) = book.watch.moment(alloc) else {
        return Err(Unwritten::Memory);
    };
    let name = visit.keeper.name.name.text();
    let mut asked = resumption_by(moment.text(), name, visit.address());
    asked.settings = visit.settings;
    book.journal.note_asked(alloc, &asked)
}

/// Writes the line of a request that may change the office, and returns its number.
fn note_wanted<W: Write, C: Watch>(
    alloc: Global,
    visit: &Visit<'_>,
    wanted: &Wanted<'_>,
    book: &mut Book<W, C>,
) -> Result<u64, Unwritten>
    ensures line { NotesRequest W.contents visit.now (request_of wanted.now) (acts_of wanted.now)
        result book.old.journal book.new.journal }
    ensures named { book.new.named ≡ book.old.named }
{
    match wanted {
        Wanted::Acts { body, acts } => note_list(alloc, visit, body, acts, book),
        Wanted::Resumption => note_resumption(alloc, visit, book),
    }
}

/// Writes the line of a request that may change the office behind the settings that decide it, and
/// returns its number.
pub(crate) fn note_asked<W: Write, C: Watch>(
    alloc: Global,
    visit: &Visit<'_>,
    wanted: &Wanted<'_>,
    book: &mut Book<W, C>,
) -> Result<u64, Unwritten>
    ensures { NotesAsked W.contents visit.now (request_of wanted.now) (acts_of wanted.now) result
        (ledger_of book.old) (ledger_of book.new) }
{
    match book.name_settings(alloc, visit.settings) {
        Ok(()) => note_wanted(alloc, visit, wanted, book),
        Err(why) => Err(why),
    }
}
