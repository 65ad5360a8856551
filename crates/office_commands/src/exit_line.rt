//! The line of an exit, written.
ghost use Rattle.std.specs.Prelude.{OnOk};
ghost use Rattle.std.specs.Io.KnownBytes.{Appends};
ghost use Rattle.office_commands.specs.ExitStatuses.{line_said};

use crate::exit::Exit;
use office_base::Io;
use std::io::Write;

/// Reports the line of an exit, with its line feed, or nothing; at an error some of it may have
/// gone out.
pub fn report<E: Write>(exit: Exit, err: &mut E) -> Result<(), Io>
    ensures { OnOk result (Appends (E.contents err.old) (E.contents err.new) (line_said exit)) }
{
    write!(err, "{exit}").or(Err(Io))
}
