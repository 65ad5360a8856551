//! The commands that run on the office in a file, over a connection to it.
ghost use Rattle.std.specs.Prelude.{◌≡◌, false, OnErr, OnOk};
ghost use Rattle.std.specs.Io.KnownBytes.{Appends};
ghost use Rattle.sqlite.specs.Held.{state};
ghost use Rattle.sqlite.specs.State.{HasCleanDisk};
ghost use Rattle.office_base.specs.Output.{AppendsSome};
ghost use Rattle.office_command_line.specs.Orders.{command};
ghost use Rattle.office_commands.specs.Calling.{Exits};
ghost use Rattle.office_commands.specs.Running.{RunEnds, listening_line};

use crate::apply::apply_on;
use crate::certificate::certificate_on;
use crate::exit::Exit;
use crate::exit_line::report;
use crate::export::export_on;
use crate::init::init_on;
use crate::record_import::import_on;
use crate::resume::resume_on;
use itoa::Buffer;
use office_base::{Io, put_parts};
use office_command_line::{Order, Register};
use sqlite::{Alter, Connection};
use std::alloc::Global;
use std::io::{Read, Write};

/// Reports the port of this machine at which a service listens, and sends the line out. `Io` means
/// that the writer returned an error, and then the first bytes of the line went out, or none.
pub fn report_listening<W: Write>(port: u16, out: &mut W) -> Result<(), Io>
    ensures ok { OnOk result
        (Appends (W.contents out.old) (W.contents out.new) (listening_line port)) }
    ensures err { OnErr result
        (AppendsSome (W.contents out.old) (W.contents out.new) (listening_line port)) }
{
    let mut digits = Buffer::new();
    put_parts(
        &[
            b"listening 127.0.0.1:",
            digits.format(port).as_bytes(),
            b"\n",
        ],
        out,
    )?;
    out.flush().or(Err(Io))
}

/// Runs a command over a connection to the office's file, and reports nothing of its exit.
fn dispatch<R: Read, W: Write, S: Alter>(
    alloc: Global,
    conn: Connection<S>,
    order: &Order<'_>,
    input: &mut R,
    out: &mut W,
) -> (Exit, Connection<S>)
    requires { conn.in_transaction ≡ false }
    ensures ends { RunEnds S.Store (command order.now) (R.remaining input.old) conn result.1
        (W.contents out.old) (W.contents out.new) result.0 }
    ensures clean { HasCleanDisk (state S.Store result.1) → HasCleanDisk (state S.Store conn) }
    ensures shield { (state S.Store conn).IsShielded → (state S.Store result.1).IsShielded }
{
    match order {
        Order::Init { .. } => init_on(alloc, conn, out),
        Order::Apply { .. } => apply_on(alloc, conn, input, out),
        Order::Import { day, .. } => import_on(alloc, conn, *day, input, out),
        Order::Export { register, .. } => export_on(alloc, conn, *register, out),
        Order::Overdue { day, days, .. } => {
            export_on(alloc, conn, Register::Overdue(*day, *days), out)
        }
        Order::Resume { .. } => resume_on(alloc, conn, out),
        Order::Certificate { run, .. } => certificate_on(alloc, conn, *run, out),
        Order::Due { .. }
        | Order::Plan { .. }
        | Order::Serve { .. }
        | Order::Gate { .. }
        | Order::Nothing => { (Exit::BadWords, conn) }
    }
}

/// Runs a command over a connection to the office's file, outside a transaction: what it reads comes
/// from `input`, what it answers goes to `out`, and the line of its exit to `err`. It gives the
/// exit status, and the connection back. A command that is not run over a connection is none here:
/// status 2, with nothing done.
pub fn run_on<R: Read, W: Write, E: Write, S: Alter>(
    alloc: Global,
    conn: Connection<S>,
    order: &Order<'_>,
    input: &mut R,
    out: &mut W,
    err: &mut E,
) -> (u8, Connection<S>)
    requires { conn.in_transaction ≡ false }
    // The command is run, and the status is that of its exit.
    ensures runs { Exits result.0 (RunEnds S.Store (command order.now) (R.remaining input.old) conn
        result.1 (W.contents out.old) (W.contents out.new)) }

    // A disk that is clean afterwards was clean before.
    ensures clean { HasCleanDisk (state S.Store result.1) → HasCleanDisk (state S.Store conn) }

    // Later reads are tested against digests, if they were before.
    ensures shield { (state S.Store conn).IsShielded → (state S.Store result.1).IsShielded }
{
    let (exit, conn) = dispatch(alloc, conn, order, input, out);
    let _ = report(exit, err);
    (exit.status(), conn)
}
