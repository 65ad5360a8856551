//! A life of an office that serves requests: stints, each ended by a crash.
ghost use Rattle.std.specs.Prelude.{IfOk, IsTrue};
ghost use Rattle.sqlite_wal.specs.Files.{outcomes};
ghost use Rattle.office_life.specs.Standing.{FilesLead, IsKnownAt, NeverLies, Stage, outcomes_left, stage_after};
ghost use Rattle.office_life.specs.Life.{LeadsBy};
ghost use Rattle.office_sessions.specs.Life.{AreAllKnown, AreAllReported, DidErrand, IsAfterStints, IsReported, LivedOn, remains_in, stage_then};

use crate::reports::{Errand, LifeReport};
use crate::stints::serve_requests;
use office_desk::fates::law_of_fates;
use office_life::{crash, stint};
use office_rules::laws::soundness::law_of_soundness;
use sqlite::{Files, Leftover};
use sqlite_disk::{Crash, Disk};
use std::alloc::{AllocError, Global};

/// Runs one stint over two files.
fn run_errand<D: Disk + Drop>(
    alloc: Global,
    files: Files<D>,
    errand: Errand<'_>,
) -> (LifeReport, Leftover<D>)
    requires log { IsTrue (D.Disk.is_usable files.log) }
    requires db { IsTrue (D.Disk.is_usable files.db) }
    ensures led { NeverLies D.Disk → (stage : Stage) → IsKnownAt stage (remains_in result.0)
        → FilesLead stage (stage_after stage (remains_in result.0))
        (LeadsBy (DidErrand errand.entry result.0)) (outcomes D.Disk files.log files.db)
        (outcomes_left result.1) }
    ensures told { NeverLies D.Disk → IsReported errand.entry result.0 files result.1 }
{
    match errand {
        Errand::Task(task) => {
            let (report, rest) = stint(alloc, files, task);
            (LifeReport::Task(report), rest)
        }
        Errand::Requests(requests) => {
            let (report, rest) = serve_requests(alloc, files, requests);
            (LifeReport::Requests(report), rest)
        }
    }
}

/// Runs stints over two files, each ended by a crash.
fn run<D: Crash + Drop>(
    alloc: Global,
    mut files: Files<D>,
    errands: &[Errand<'_>],
) -> Result<(Vec<LifeReport>, Files<D>), AllocError>
    requires log { IsTrue (D.Disk.is_usable files.log) }
    requires db { IsTrue (D.Disk.is_usable files.db) }
    ensures log { IfOk result (λ r. IsTrue (D.Disk.is_usable r.1.log)) }
    ensures db { IfOk result (λ r. IsTrue (D.Disk.is_usable r.1.db)) }
    ensures led { NeverLies D.Disk → IfOk result (λ r. (stage : Stage)
        → AreAllKnown stage r.0.items → FilesLead stage (stage_then stage r.0.items)
        (LeadsBy (λ s done. LivedOn s errands.now r.0.items done))
        (outcomes D.Disk files.log files.db) (outcomes D.Disk r.1.log r.1.db)) }
    ensures told { NeverLies D.Disk → IfOk result
        (λ r. AreAllReported D.Disk files errands.now r.0.items r.1) }
{
    let mut reports = Vec::new(alloc);
    for errand in errands {
        let (report, rest) = run_errand(alloc, files, *errand);
        files = crash(rest);
        reports.push(report)?;
    }
    Ok((reports, files))
}

/// A life of an office in two files, on disks that fail at any call and from then on: stints, one
/// after another, each with acts, a resumption or requests, and each ended by a crash. Whatever is
/// left then stands for the state after the acts that were done: all acts of the requests that were
/// answered, and in each stint some first acts of one more; of acts and resumptions those of
/// [`office_life::live`]. Nothing is known of what a stint left only if its opening stopped while
/// it read the tables, or if its closing failed and shut the store (`AreAllReported`). If memory
/// for the reports runs out, the life ends.
pub fn live_with_requests<D: Crash + Drop>(
    alloc: Global,
    files: Files<D>,
    errands: &[Errand<'_>],
) -> Result<(Vec<LifeReport>, Files<D>), AllocError>
    requires log { IsTrue (D.Disk.is_usable files.log) }
    requires db { IsTrue (D.Disk.is_usable files.db) }
    ensures log { IfOk result (λ r. IsTrue (D.Disk.is_usable r.1.log)) }
    ensures db { IfOk result (λ r. IsTrue (D.Disk.is_usable r.1.db)) }
    ensures led { NeverLies D.Disk → IfOk result (λ r. (stage : Stage)
        → AreAllKnown stage r.0.items → FilesLead stage (stage_then stage r.0.items)
        (IsAfterStints errands.now r.0.items) (outcomes D.Disk files.log files.db)
        (outcomes D.Disk r.1.log r.1.db)) }
    ensures told { NeverLies D.Disk → IfOk result
        (λ r. AreAllReported D.Disk files errands.now r.0.items r.1) }
{
    law_of_soundness();
    law_of_fates();
    run(alloc, files, errands)
}
