//! The acts of a JSON array, at the office in a file.
ghost use Rattle.std.specs.Prelude.{◌≡◌, false};
ghost use Rattle.sqlite.specs.Held.{state};
ghost use Rattle.sqlite.specs.State.{HasCleanDisk};
ghost use Rattle.office_desk.specs.Outcomes.{SparesTheRest};
ghost use Rattle.office_commands.specs.Applying.{Applies, ApplyEnds, TextEnds};
ghost use Rattle.office_commands.specs.Opening.{WasAt};

use crate::exit::Exit;
use office_base::read_whole;
use office_desk::Desk;
use office_json::{read_acts, write_answers};
use sqlite::{Alter, Connection};
use std::alloc::Global;
use std::io::{Read, Write};

/// Does the acts of a text at a desk that is open, and reports their answers.
fn apply_at<W: Write, S: Alter>(alloc: Global, desk: &mut Desk<S>, text: &[u8], out: &mut W) -> Exit
    requires { desk.old.is_poisoned ≡ false }
    ensures done { Applies (WasAt S.Store desk.old desk.new) text.now
        (state S.Store desk.new.connection) (W.contents out.old) (W.contents out.new) result }
    ensures rest { SparesTheRest S.Store desk.old desk.new }
{
    match read_acts(alloc, text) {
        Ok(acts) => {
            let mut answers = Vec::new(alloc);
            let done = desk.perform_all(acts.as_slice(), &mut answers);
            match write_answers(answers.as_slice(), out) {
                Ok(()) => Exit::of_acts(done, answers.as_slice()),
                Err(_) => Exit::File,
            }
        }
        Err(fault) => Exit::from(fault),
    }
}

/// Does the acts of a text that is in memory over a connection to the office's file.
pub(crate) fn apply_text<W: Write, S: Alter>(
    alloc: Global,
    conn: Connection<S>,
    text: &[u8],
    out: &mut W,
) -> (Exit, Connection<S>)
    requires { conn.in_transaction ≡ false }
    ensures ends { TextEnds text.now (state S.Store conn) (state S.Store result.1)
        (W.contents out.old) (W.contents out.new) result.0 }
    ensures clean { HasCleanDisk (state S.Store result.1) → HasCleanDisk (state S.Store conn) }
    ensures shield { (state S.Store conn).IsShielded → (state S.Store result.1).IsShielded }
{
    match Desk::open(alloc, conn) {
        Ok(mut desk) => {
            let exit = apply_at(alloc, &mut desk, text, out);
            (exit, desk.close())
        }
        Err((fault, conn)) => (Exit::Fault(fault), conn),
    }
}

/// `apply FILE ACTS` over a connection to the file, outside a transaction; `input` is the text of
/// acts. The answers go to `out`, a line for each, and the connection is given back.
pub fn apply_on<R: Read, W: Write, S: Alter>(
    alloc: Global,
    conn: Connection<S>,
    input: &mut R,
    out: &mut W,
) -> (Exit, Connection<S>)
    requires { conn.in_transaction ≡ false }
    // The acts of the text are done in order and their answers written; or none is done.
    ensures ends { ApplyEnds S.Store (R.remaining input.old) conn result.1 (W.contents out.old)
        (W.contents out.new) result.0 }

    // A disk that is clean afterwards was clean before.
    ensures clean { HasCleanDisk (state S.Store result.1) → HasCleanDisk (state S.Store conn) }

    // Later reads are tested against digests, if they were before.
    ensures shield { (state S.Store conn).IsShielded → (state S.Store result.1).IsShielded }
{
    match read_whole(alloc, input) {
        Ok(text) => apply_text(alloc, conn, text.as_slice(), out),
        Err(stop) => (Exit::from(stop), conn),
    }
}
