//! What noted requests and sessions mean, as laws that are proved: calls of these do nothing.
ghost use Rattle.std.specs.Prelude.{◌≡◌, ◌⊎◌, List, Option, ℕ};
ghost use Rattle.office_desk.specs.Desk.{DeskState};
ghost use Rattle.office_gate.specs.Exchanges.{LeavesVisited};
ghost use Rattle.office_http.specs.Receiving.{OfficeRequest};
ghost use Rattle.office_http.specs.Replies.{Response};
ghost use Rattle.office_noting.specs.InJournal.{IsAnsweredIn, IsAskedIn};
ghost use Rattle.office_noting.specs.Ledgers.{Ledger};
ghost use Rattle.office_noting.specs.Noted.{IsNotedFirst, IsNotedReply};
ghost use Rattle.office_noting.specs.Replies.{unasked_response, unnoted_response};
ghost use Rattle.office_noting.specs.Sessions.{ChangesAreAsked, NotedTurns};
ghost use Rattle.office_noting.specs.declared.visit.Visit.{Visit};
ghost use Rattle.office_rules.specs.declared.act.Act.{Act};
ghost use Rattle.office_wire.specs.Answering.{IsUnavailable};
ghost use Rattle.office_wire.specs.Calling.{AnsweredAt};

use sqlite::Alter;
use std::io::Write;

/// If a list of acts or a resumption changed the desk, the journal has the line of the request, with
/// each of its acts, the name that signed in and the SHA-256 of the settings. The journal named these
/// settings before that line, by a line of its own if they were new. The answer that goes out has its
/// line there too, unless it reports that there is none. And the desk is where the same request leaves
/// it at a gate without a journal, so that the laws of `office_gate` hold.
pub fn law_of_noted_requests<W: Write, S: Alter>()
    ensures asked { (visit : Visit) (request : OfficeRequest) (all : Option (List Act))
        (r : Response) (ledger after : Ledger W) (old new : DeskState S)
        → IsNotedFirst W.contents S.Store visit request all r ledger after old new
        → (new ≡ old) ⊎ IsAskedIn W.contents visit request all ledger after }
    ensures answered { (visit : Visit) (request : OfficeRequest) (all : Option (List Act))
        (r : Response) (ledger after : Ledger W) (old new : DeskState S)
        → IsNotedFirst W.contents S.Store visit request all r ledger after old new
        → (r ≡ unasked_response) ⊎ (r ≡ unnoted_response)
        ⊎ IsAnsweredIn W.contents request r ledger.journal after.journal }
    ensures left { (visit : Visit) (request : OfficeRequest) (r : Response)
        (ledger after : Ledger W) (old new : DeskState S)
        → IsNotedReply W.contents S.Store visit request r ledger after old new
        → AnsweredAt S.Store old new
        (λ t. LeavesVisited S.Store t visit.keeper.policy.now new) (Unit {0})
        (IsUnavailable r) }
{}

/// If a connection of a session changed the desk, a request was served for a name that signed in,
/// under the settings of a file. If the request may change the office, what the session wrote into
/// the journal has its line, with each of its acts, the name, and the SHA-256 of that file, which the
/// journal named before that line.
pub fn law_of_noted_sessions<W: Write, S: Alter>()
    ensures { (n : ℕ) (first last : Ledger W) (old new : DeskState S)
        → NotedTurns W.contents S.Store n first last old new
        → ChangesAreAsked W.contents S.Store first last n old new }
{}
