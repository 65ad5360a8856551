//! The certificate of a run of the office in a file.
ghost use Rattle.std.specs.Prelude.{◌≡◌, false};
ghost use Rattle.sqlite.specs.Held.{state};
ghost use Rattle.sqlite.specs.State.{HasCleanDisk};
ghost use Rattle.office_commands.specs.Calling.{Reports};
ghost use Rattle.office_commands.specs.Certifying.{CertificateEnds, Certifies};

use crate::exit::Exit;
use office_base::{Io, Refusal, write_out};
use office_desk::Desk;
use sqlite::{Alter, Connection};
use std::alloc::Global;
use std::io::Write;

/// Reports a text as it is.
fn report_text<W: Write>(text: &str, out: &mut W) -> Exit
    ensures { Reports text.now Exit.Done (W.contents out.old) (W.contents out.new) result }
{
    match write_out(text.as_bytes(), out) {
        Ok(()) => Exit::Done,
        Err(Io) => Exit::File,
    }
}

/// Reports the certificate of that run at a desk that is open.
fn certificate_at<W: Write, S: Alter>(desk: &Desk<S>, run: u32, out: &mut W) -> Exit
    requires { desk.now.is_poisoned ≡ false }
    ensures { Certifies desk.now.office run (W.contents out.old) (W.contents out.new) result }
{
    match desk.certificate(run) {
        Ok(Some(text)) => report_text(text.as_str(), out),
        Ok(None) => Exit::Refused(Refusal::NoSuch),
        Err(fault) => Exit::Fault(fault),
    }
}

/// `certificate FILE N` over a connection to the file, outside a transaction. The connection is
/// given back.
pub fn certificate_on<W: Write, S: Alter>(
    alloc: Global,
    conn: Connection<S>,
    run: u32,
    out: &mut W,
) -> (Exit, Connection<S>)
    requires { conn.in_transaction ≡ false }
    // The certificate of the run is written as it is; or the exit says why it is not.
    ensures ends { CertificateEnds run (state S.Store conn) (state S.Store result.1)
        (W.contents out.old) (W.contents out.new) result.0 }

    // A disk that is clean afterwards was clean before.
    ensures clean { HasCleanDisk (state S.Store result.1) → HasCleanDisk (state S.Store conn) }

    // Later reads are tested against digests, if they were before.
    ensures shield { (state S.Store conn).IsShielded → (state S.Store result.1).IsShielded }
{
    match Desk::open(alloc, conn) {
        Ok(desk) => {
            let exit = certificate_at(&desk, run, out);
            (exit, desk.close())
        }
        Err((fault, conn)) => (Exit::Fault(fault), conn),
    }
}
