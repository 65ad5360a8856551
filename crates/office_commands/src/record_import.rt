//! The records of a CSV file, at the office in a file.
ghost use Rattle.std.specs.Prelude.{◌≡◌, false, option_map};
ghost use Rattle.csv.specs.Reading.{strip_bom};
ghost use Rattle.sqlite.specs.Held.{state};
ghost use Rattle.sqlite.specs.State.{HasCleanDisk};
ghost use Rattle.office_commands.specs.Importing.{ImportEnds, ImportsAt};
ghost use Rattle.office_commands.specs.Opening.{WasAt};

use crate::exit::Exit;
use office_days::Day;
use office_desk::Desk;
use office_wire::{ImportStop, import_records};
use sqlite::{Alter, Connection};
use std::alloc::Global;
use std::io::{Read, Write};

impl From<Result<u64, ImportStop>> for Exit {
    ghost use Rattle.std.specs.Prelude.{◌≡◌};
    ghost use Rattle.office_commands.specs.Importing.{exit_of_import};

    ghost from_gives = { λ done exit. exit ≡ exit_of_import done };

    // The exit of an import, of whose rows so many were refused.
    fn from(done: Result<u64, ImportStop>) -> Exit {
        match done {
            Ok(0) => Exit::Done,
            Ok(_) => Exit::SomeRefused,
            Err(ImportStop::Header) => Exit::CsvHeader,
            Err(ImportStop::Row(number)) => Exit::CsvRow(number),
            Err(ImportStop::Fault(fault)) => Exit::Fault(fault),
            Err(ImportStop::Io) => Exit::File,
        }
    }
}

/// Adds the records of a text at a desk.
fn import_at<R: Read, W: Write, S: Alter>(
    alloc: Global,
    desk: &mut Desk<S>,
    day: Day,
    input: &mut R,
    out: &mut W,
) -> Exit
    ensures done { ImportsAt (WasAt S.Store desk.old desk.new) day
        (option_map strip_bom (R.remaining input.old)) (state S.Store desk.new.connection)
        (W.contents out.old) (W.contents out.new) result }
    ensures clean { HasCleanDisk (state S.Store desk.new.connection)
        → HasCleanDisk (state S.Store desk.old.connection) }
    ensures shield { (state S.Store desk.old.connection).IsShielded
        → (state S.Store desk.new.connection).IsShielded }
{
    Exit::from(import_records(alloc, desk, day, input, out))
}

/// `import FILE DAY CSV` over a connection to the file; `input` is the text of CSV.
pub fn import_on<R: Read, W: Write, S: Alter>(
    alloc: Global,
    conn: Connection<S>,
    day: Day,
    input: &mut R,
    out: &mut W,
) -> (Exit, Connection<S>)
    requires { conn.in_transaction ≡ false }
    // The records of the rows are added in order; or the exit says why not all of them.
    ensures ends { ImportEnds day (R.remaining input.old) (state S.Store conn)
        (state S.Store result.1) (W.contents out.old) (W.contents out.new) result.0 }

    // A disk that is clean afterwards was clean before.
    ensures clean { HasCleanDisk (state S.Store result.1) → HasCleanDisk (state S.Store conn) }

    // Later reads are tested against digests, if they were before.
    ensures shield { (state S.Store conn).IsShielded → (state S.Store result.1).IsShielded }
{
    match Desk::open(alloc, conn) {
        Ok(mut desk) => {
            let exit = import_at(alloc, &mut desk, day, input, out);
            (exit, desk.close())
        }
        Err((fault, conn)) => (Exit::Fault(fault), conn),
    }
}
