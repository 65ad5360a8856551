//! The registers of the office in a file.
ghost use Rattle.std.specs.Prelude.{◌≡◌, false};
ghost use Rattle.sqlite.specs.Held.{state};
ghost use Rattle.sqlite.specs.State.{HasCleanDisk};
ghost use Rattle.office_wire.specs.Exporting.{Exports as WritesText};
ghost use Rattle.office_commands.specs.Exporting.{ExportEnds, Exports, IsRegisterText};

use crate::exit::Exit;
use office_command_line::Register;
use office_desk::Desk;
use office_wire::{ExportStop, export_due, export_entries, export_overdue};
use sqlite::{Alter, Connection};
use std::alloc::Global;
use std::io::Write;

impl From<Result<(), ExportStop>> for Exit {
    ghost use Rattle.std.specs.Prelude.{◌≡◌};
    ghost use Rattle.office_commands.specs.Exporting.{exit_of_export};

    ghost from_gives = { λ done exit. exit ≡ exit_of_export done };

    fn from(done: Result<(), ExportStop>) -> Exit {
        match done {
            Ok(()) => Exit::Done,
            Err(ExportStop::Fault(fault)) => Exit::Fault(fault),
            Err(ExportStop::Io) => Exit::File,
        }
    }
}

/// Writes a register at a desk.
fn write_register<W: Write, S: Alter>(
    alloc: Global,
    desk: &mut Desk<S>,
    register: Register,
    out: &mut W,
) -> Result<(), ExportStop>
    ensures { WritesText (IsRegisterText register) W.contents out.old out.new result desk.old
        desk.new }
{
    match register {
        Register::Entries => export_entries(alloc, desk, out),
        Register::Due(day) => export_due(alloc, desk, day, out),
        Register::Overdue(day, days) => export_overdue(alloc, desk, day, days, out),
    }
}

/// Writes a register at a desk that is open.
#[tactic(auto, using(crate::proofs::Exports::exported))]
fn export_at<W: Write, S: Alter>(
    alloc: Global,
    desk: &mut Desk<S>,
    register: Register,
    out: &mut W,
) -> Exit
    requires { desk.old.is_poisoned ≡ false }
    ensures exports { Exports desk.old.office register (W.contents out.old) (W.contents out.new)
        result }
    ensures kept { desk.new ≡ desk.old }
{
    Exit::from(write_register(alloc, desk, register, out))
}

/// `export FILE entries`, `export FILE DAY` or `overdue FILE DAY COUNT` over a connection to the
/// file.
pub fn export_on<W: Write, S: Alter>(
    alloc: Global,
    conn: Connection<S>,
    register: Register,
    out: &mut W,
) -> (Exit, Connection<S>)
    requires { conn.in_transaction ≡ false }
    // The register is written whole; or the exit says why it is not.
    ensures ends { ExportEnds register (state S.Store conn) (state S.Store result.1)
        (W.contents out.old) (W.contents out.new) result.0 }

    // A disk that is clean afterwards was clean before.
    ensures clean { HasCleanDisk (state S.Store result.1) → HasCleanDisk (state S.Store conn) }

    // Later reads are tested against digests, if they were before.
    ensures shield { (state S.Store conn).IsShielded → (state S.Store result.1).IsShielded }
{
    match Desk::open(alloc, conn) {
        Ok(mut desk) => {
            let exit = export_at(alloc, &mut desk, register, out);
            (exit, desk.close())
        }
        Err((fault, conn)) => (Exit::Fault(fault), conn),
    }
}
