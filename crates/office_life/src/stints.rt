//! One stint of an office.
ghost use Rattle.std.specs.Prelude.{IsTrue};
ghost use Rattle.sqlite_wal.specs.Files.{outcomes};
ghost use Rattle.office_life.specs.Life.{Leads};
ghost use Rattle.office_life.specs.Standing.{FilesLead, IsKnownAt, NeverLies, Stage, outcomes_left, stage_after};
ghost use Rattle.office_life.specs.Told.{IsTold};

use crate::closing::close;
use crate::opening::{open, remains_by};
use crate::reports::{Report, StintEnd, Task};
use crate::work::work_at;
use sqlite::{Files, Leftover};
use sqlite_disk::Disk;
use std::alloc::Global;

/// Opens the office in two files, does what is asked, and closes the files. Whatever a crash leaves
/// of them then stands for the state to which the acts led that the stint did, from the state for
/// which they stood before. It gives what is left of the files: why they were not opened, and why
/// they could not be closed, is said of that (`IsTold`).
pub fn stint<D: Disk + Drop>(alloc: Global, files: Files<D>, task: &Task) -> (Report, Leftover<D>)
    requires log { IsTrue (D.Disk.is_usable files.log) }
    requires db { IsTrue (D.Disk.is_usable files.db) }
    ensures led { NeverLies D.Disk → (stage : Stage) → IsKnownAt stage result.0.remains
        → FilesLead stage (stage_after stage result.0.remains) (Leads task.now result.0.end)
        (outcomes D.Disk files.log files.db) (outcomes_left result.1) }
    ensures told { NeverLies D.Disk → IsTold task.now result.0 files result.1 }
{
    match open(alloc, files) {
        Ok(conn) => {
            let (end, conn) = work_at(alloc, conn, task);
            let (remains, rest) = close(conn);
            (Report { end, remains }, rest)
        }
        Err((error, rest)) => {
            let end = StintEnd::FilesShut(error);
            let remains = remains_by(&rest);
            (Report { end, remains }, rest)
        }
    }
}
