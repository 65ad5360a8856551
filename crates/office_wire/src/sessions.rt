//! A session is the fold of its requests, as a law that is proved: a call of it does nothing.
ghost use Rattle.office_wire.specs.Sessions.{OneSession};

use sqlite::Alter;

/// A desk at a state was sent the bytes of connections and nothing else, and gave each its whole
/// answer, none by 503. Then what went out is the answers to the requests that these bytes are, each
/// at the state to which those before it lead, and the desk is at the state to which all of them
/// lead (`answered`). The bytes that came determine those answers and that state (`determined`). So
/// offices at one state that were sent the same requests wrote the same bytes and are at one state
/// again (`alike`). What it asks of a desk is what [`crate::serve_session`] promises of a source
/// that reports its bytes, if the disk is clean: its clause `served`.
pub fn law_of_sessions<S: Alter>()
    ensures { OneSession S.Store }
{}
