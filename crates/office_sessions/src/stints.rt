//! One stint of an office that serves requests.
ghost use Rattle.std.specs.Prelude.{IsTrue, map};
ghost use Rattle.sqlite_wal.specs.Files.{outcomes};
ghost use Rattle.office_life.specs.Life.{LeadsBy};
ghost use Rattle.office_life.specs.Standing.{FilesLead, IsKnownAt, NeverLies, Stage, outcomes_left, stage_after};
ghost use Rattle.office_sessions.specs.Stints.{AreToldOf, DidRequests};

use crate::reports::{RequestsEnd, RequestsReport};
use crate::serving::serve_at;
use office_life::{close, open, remains_by};
use office_rules::laws::soundness::law_of_soundness;
use sqlite::{Files, Leftover};
use sqlite_disk::Disk;
use std::alloc::Global;

/// Opens the office in two files, serves requests one after another until one is not answered, and
/// closes the files. Whatever a crash leaves of them then stands for the state after all acts of
/// the requests that were answered and some first acts of one more, from the state for which they
/// stood before. The response to each is the one that its bytes determine. It gives what is left of
/// the files: why they were not opened, and why they could not be closed, is said of that
/// (`AreToldOf`).
pub fn serve_requests<D: Disk + Drop>(
    alloc: Global,
    files: Files<D>,
    requests: &[&[u8]],
) -> (RequestsReport, Leftover<D>)
    requires log { IsTrue (D.Disk.is_usable files.log) }
    requires db { IsTrue (D.Disk.is_usable files.db) }
    ensures led { NeverLies D.Disk → (stage : Stage) → IsKnownAt stage result.0.remains
        → FilesLead stage (stage_after stage result.0.remains)
        (LeadsBy (DidRequests (map (λ bytes. bytes.now) requests.now) result.0.end))
        (outcomes D.Disk files.log files.db) (outcomes_left result.1) }
    ensures told { NeverLies D.Disk
        → AreToldOf (map (λ bytes. bytes.now) requests.now) result.0 files result.1 }
{
    law_of_soundness();
    match open(alloc, files) {
        Ok(conn) => {
            let (end, conn) = serve_at(alloc, conn, requests);
            let (remains, rest) = close(conn);
            (RequestsReport { end, remains }, rest)
        }
        Err((error, rest)) => {
            let end = RequestsEnd::FilesShut(error);
            let remains = remains_by(&rest);
            (RequestsReport { end, remains }, rest)
        }
    }
}
