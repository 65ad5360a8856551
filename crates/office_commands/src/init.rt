//! The office in a file, made where there is none.
ghost use Rattle.std.specs.Prelude.{◌≡◌, false};
ghost use Rattle.sqlite.specs.Held.{state};
ghost use Rattle.sqlite.specs.State.{HasCleanDisk};
ghost use Rattle.office_store.specs.declared.fault.Fault.{Fault as AnyFault};
ghost use Rattle.office_commands.specs.Calling.{Reports};
ghost use Rattle.office_commands.specs.Making.{InitEnds, version_line};

use crate::exit::Exit;
use office_base::{Io, write_out};
use office_desk::Desk;
use sqlite::{Alter, Connection};
use std::alloc::Global;
use std::io::Write;

/// Reports the version of the office's file.
fn report_version<W: Write>(out: &mut W) -> Exit
    ensures { Reports version_line Exit.Done (W.contents out.old) (W.contents out.new) result }
{
    match write_out(b"version 2\n", out) {
        Ok(()) => Exit::Done,
        Err(Io) => Exit::File,
    }
}

/// `init FILE` over a connection to the file, outside a transaction: an office that is there
/// already is opened, and one of version 1 is made one of version 2. The connection is given back.
pub fn init_on<W: Write, S: Alter>(
    alloc: Global,
    conn: Connection<S>,
    out: &mut W,
) -> (Exit, Connection<S>)
    requires { conn.in_transaction ≡ false }
    // The office is opened and its version written; or a fault says why it is not opened.
    ensures ends { InitEnds (state S.Store conn) (state S.Store result.1) (W.contents out.old)
        (W.contents out.new) result.0 }

    // At a fault nothing is written.
    ensures untouched { (fault : AnyFault) → result.0 ≡ Exit.Fault fault → out.new ≡ out.old }

    // A disk that is clean afterwards was clean before.
    ensures clean { HasCleanDisk (state S.Store result.1) → HasCleanDisk (state S.Store conn) }

    // Later reads are tested against digests, if they were before.
    ensures shield { (state S.Store conn).IsShielded → (state S.Store result.1).IsShielded }
{
    match Desk::open(alloc, conn) {
        Ok(desk) => (report_version(out), desk.close()),
        Err((fault, conn)) => (Exit::Fault(fault), conn),
    }
}
