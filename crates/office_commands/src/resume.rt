//! The open run of the office in a file, resumed to its end.
ghost use Rattle.std.specs.Prelude.{◌≡◌, ℕ, Ok, Option, false, OnErr, OnOk};
ghost use Rattle.std.specs.Io.KnownBytes.{Appends};
ghost use Rattle.sqlite.specs.Held.{state};
ghost use Rattle.sqlite.specs.State.{HasCleanDisk};
ghost use Rattle.office_base.specs.Output.{AppendsSome};
ghost use Rattle.office_desk.specs.Outcomes.{SparesTheRest};
ghost use Rattle.office_desk.specs.Resuming.{resumed_answer};
ghost use Rattle.office_desk.specs.Resumptions.{run_outcome};
ghost use Rattle.office_commands.specs.Calling.{Reports};
ghost use Rattle.office_commands.specs.Opening.{WasAt};
ghost use Rattle.office_commands.specs.Resuming.{IsRunReported, ResumeEnds, Resumes, certificate_line};

use crate::exit::Exit;
use itoa::Buffer;
use office_base::{Io, put_parts};
use office_desk::Desk;
use office_rules::Answer;
use sqlite::{Alter, Connection};
use std::alloc::Global;
use std::io::Write;

/// Writes the line that reports the run that was closed, and flushes.
#[tactic(auto, using(office_base::proofs::Written::kept_some))]
fn write_closed<W: Write>(run: u32, out: &mut W) -> Result<(), Io>
    ensures ok { OnOk result
        (Appends (W.contents out.old) (W.contents out.new) (certificate_line run)) }
    ensures err { OnErr result
        (AppendsSome (W.contents out.old) (W.contents out.new) (certificate_line run)) }
{
    let mut digits = Buffer::new();
    put_parts(
        &[b"certificate ", digits.format(run).as_bytes(), b"\n"],
        out,
    )?;
    out.flush().or(Err(Io))
}

/// Reports the run that was closed.
fn report_closed<W: Write>(run: u32, out: &mut W) -> Exit
    ensures { Reports (certificate_line run) Exit.Done (W.contents out.old) (W.contents out.new)
        result }
{
    match write_closed(run, out) {
        Ok(()) => Exit::Done,
        Err(Io) => Exit::File,
    }
}

/// Reports what a resumption answers, which is one of two answers.
fn report_answer<W: Write>(answer: Answer, out: &mut W) -> Exit
    requires { (was_open : Option ℕ) × (answer ≡ resumed_answer was_open) }
    ensures { (was_open : Option ℕ) → answer ≡ resumed_answer was_open
        → IsRunReported (run_outcome (Ok answer) was_open) (W.contents out.old)
        (W.contents out.new) result }
{
    match answer {
        Answer::RunClosed(run) => report_closed(run, out),
        Answer::Refused(refusal) => Exit::Refused(refusal),
        _ => unreachable!(),
    }
}

/// Resumes the open run at a desk that is open.
fn resume_at<W: Write, S: Alter>(desk: &mut Desk<S>, out: &mut W) -> Exit
    requires { desk.old.is_poisoned ≡ false }
    ensures done { Resumes (WasAt S.Store desk.old desk.new) (state S.Store desk.new.connection)
        (W.contents out.old) (W.contents out.new) result }
    ensures rest { SparesTheRest S.Store desk.old desk.new }
{
    match desk.resume() {
        Ok(answer) => report_answer(answer, out),
        Err(fault) => Exit::Fault(fault),
    }
}

/// `resume FILE` over a connection to the file, outside a transaction. The connection is given
/// back.
pub fn resume_on<W: Write, S: Alter>(
    alloc: Global,
    conn: Connection<S>,
    out: &mut W,
) -> (Exit, Connection<S>)
    requires { conn.in_transaction ≡ false }
    // The open run is closed and its number written; or the exit says why it is not.
    ensures ends { ResumeEnds (state S.Store conn) (state S.Store result.1) (W.contents out.old)
        (W.contents out.new) result.0 }

    // A disk that is clean afterwards was clean before.
    ensures clean { HasCleanDisk (state S.Store result.1) → HasCleanDisk (state S.Store conn) }

    // Later reads are tested against digests, if they were before.
    ensures shield { (state S.Store conn).IsShielded → (state S.Store result.1).IsShielded }
{
    match Desk::open(alloc, conn) {
        Ok(mut desk) => {
            let exit = resume_at(&mut desk, out);
            (exit, desk.close())
        }
        Err((fault, conn)) => (Exit::Fault(fault), conn),
    }
}
