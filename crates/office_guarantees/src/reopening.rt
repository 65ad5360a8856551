//! That an office's file opens again.
ghost use Rattle.std.specs.Prelude.{IfSome, Err};
ghost use Rattle.sqlite_std_file.specs.File.{IsFresh};
ghost use Rattle.sqlite_wal.specs.Files.{image_at};
ghost use Rattle.office_commands.specs.OpenResult.{IsOpenResult};
ghost use Rattle.office_guarantees.specs.Reopening.{IsHinderedAlone};

use office_life::law_of_openings;
use sqlite::{Error, FileFrom, Leftover, Start};

/// An office's file opens again. `refused` is what the database returned in place of a connection,
/// and the file stood for an office. Then memory ran out, a call of the disk failed in that opening
/// (also a read whose bytes do not have their digest), or a limit of the format was met. The file is
/// never refused as no database. If nothing is left of the file, the system refused to open it.
///
/// That the office in a file that was opened is not refused either is `office_life::find`: `why`.
pub fn law_of_reopening<S: Start>(refused: &(Error, Option<Leftover<FileFrom<S>>>))
    requires { IsOpenResult IsFresh (image_at S.Start) (Err refused.now) }
    ensures { IfSome refused.now.1 (IsHinderedAlone (image_at S.Start) refused.now.0) }
{
    law_of_openings::<FileFrom<S>>();
}
