//! A life of an office: stints, each ended by a crash, and the office that is found then.
ghost use Rattle.std.specs.Prelude.{IfOk, IfSome, IsTrue};
ghost use Rattle.sqlite_wal.specs.Files.{outcomes};
ghost use Rattle.sqlite_wal.specs.Recovery.{Image};
ghost use Rattle.office_life.specs.Life.{AreKnownFrom, IsAfterLife, LeadsOn, stage_at_end};
ghost use Rattle.office_life.specs.Standing.{FilesLead, FindsLed, NeverLies, Stage, outcomes_left};
ghost use Rattle.office_life.specs.Told.{AreTold};

use crate::finding::find;
use crate::reports::{Report, Task};
use crate::stints::stint;
use office_desk::Desk;
use office_desk::fates::law_of_fates;
use office_rules::laws::resumption::law_of_resumption;
use office_rules::laws::soundness::law_of_soundness;
use sqlite::{FileStore, Files, Leftover};
use sqlite_disk::{Crash, Disk};
use std::alloc::{AllocError, Global};

/// Lets the machine crash and come back, with what is left of two files.
pub fn crash<D: Crash>(rest: Leftover<D>) -> Files<D>
    ensures log { IsTrue (D.Disk.is_usable result.log) }
    ensures db { IsTrue (D.Disk.is_usable result.db) }
    ensures fewer { (image : Image) → outcomes D.Disk result.log result.db image
        → outcomes_left rest image }
{
    let mut files = rest.into_files();
    files.log.crash();
    files.db.crash();
    files
}

/// Runs stints over two files, each ended by a crash.
fn run<D: Crash + Drop>(
    alloc: Global,
    mut files: Files<D>,
    tasks: &[Task],
) -> Result<(Vec<Report>, Files<D>), AllocError>
    requires log { IsTrue (D.Disk.is_usable files.log) }
    requires db { IsTrue (D.Disk.is_usable files.db) }
    ensures log { IfOk result (λ r. IsTrue (D.Disk.is_usable r.1.log)) }
    ensures db { IfOk result (λ r. IsTrue (D.Disk.is_usable r.1.db)) }
    ensures led { NeverLies D.Disk → IfOk result (λ r. (stage : Stage)
        → AreKnownFrom stage r.0.items
        → FilesLead stage (stage_at_end stage r.0.items) (LeadsOn tasks.now r.0.items)
        (outcomes D.Disk files.log files.db) (outcomes D.Disk r.1.log r.1.db)) }
    ensures told { NeverLies D.Disk
        → IfOk result (λ r. AreTold D.Disk files tasks.now r.0.items r.1) }
{
    let mut reports = Vec::new(alloc);
    for task in tasks {
        let (report, rest) = stint(alloc, files, task);
        files = crash(rest);
        reports.push(report)?;
    }
    Ok((reports, files))
}

/// A life of an office in two files, on disks that fail at any call and from then on: stints, one
/// after another, each ended by a crash. Whatever is left then stands for the state after the acts
/// that were done: those that were answered, and at most one more in each stint. Nothing is known of
/// what a stint left only if its opening stopped while it read the tables, or if its closing failed
/// and shut the store (`AreTold`). Where memory for the reports runs out, the life ends.
pub fn live<D: Crash + Drop>(
    alloc: Global,
    files: Files<D>,
    tasks: &[Task],
) -> Result<(Vec<Report>, Files<D>), AllocError>
    requires log { IsTrue (D.Disk.is_usable files.log) }
    requires db { IsTrue (D.Disk.is_usable files.db) }
    ensures log { IfOk result (λ r. IsTrue (D.Disk.is_usable r.1.log)) }
    ensures db { IfOk result (λ r. IsTrue (D.Disk.is_usable r.1.db)) }
    ensures led { NeverLies D.Disk → IfOk result (λ r. (stage : Stage)
        → AreKnownFrom stage r.0.items
        → FilesLead stage (stage_at_end stage r.0.items) (IsAfterLife tasks.now r.0.items)
        (outcomes D.Disk files.log files.db) (outcomes D.Disk r.1.log r.1.db)) }
    ensures told { NeverLies D.Disk
        → IfOk result (λ r. AreTold D.Disk files tasks.now r.0.items r.1) }
{
    law_of_soundness();
    law_of_fates();
    law_of_resumption();
    run(alloc, files, tasks)
}

/// A life of an office, and the office that is opened at its end, if it is: it is at the state after
/// the answered acts of all stints and at most one more of each, from the state for which the files
/// stood.
pub fn live_and_find<D: Crash + Drop>(
    alloc: Global,
    files: Files<D>,
    tasks: &[Task],
) -> Result<(Vec<Report>, Option<Desk<FileStore<D>>>), AllocError>
    requires log { IsTrue (D.Disk.is_usable files.log) }
    requires db { IsTrue (D.Disk.is_usable files.db) }
    ensures { NeverLies D.Disk → IfOk result (λ r. (stage : Stage) → AreKnownFrom stage r.0.items
        → IfSome r.1 (FindsLed stage (IsAfterLife tasks.now r.0.items)
        (outcomes D.Disk files.log files.db))) }
{
    let (reports, left) = live(alloc, files, tasks)?;
    match find(alloc, left) {
        Ok(desk) => Ok((reports, Some(desk))),
        Err(_) => Ok((reports, None)),
    }
}
