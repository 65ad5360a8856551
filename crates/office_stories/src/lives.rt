//! Lives of an office: stints on disks that stop in each of them, after each number of calls in
//! turn.
use crate::disks::{Image, LastingDisks, Stop};
use crate::failures::{failure, must};
use crate::life_rows::{Row, answers_of, row_of, tasks_of, words_of};
use crate::outcomes::{Outcomes, is_whole, push_end};
use crate::selections::all_selected;
use office_desk::Desk;
use office_life::{FindStop, Remains, Report, Task, find, live};
use sqlite::{Alter, Files};
use sqlite_disk::{Crash, Disk};
use std::alloc::Global;
use std::test::Fail;

/// What came of a life.
#[derive(Drop)]
struct Life {
    reports: Vec<Report>,
    /// The files after the last crash.
    left: Image,
    /// The tables of the office that is found in them.
    tables: String,
}

/// A life that is tried with each stop of its disks.
#[derive(Clone, Copy)]
struct Trial<'a> {
    /// The files in which it begins.
    image: &'a Image,
    /// What is asked in each stint.
    words: &'a [&'a str],
    tasks: &'a [Task],
    /// What it leaves if no disk stops.
    left: &'a Image,
}

/// How far the making of the files may have come, as `Stage` of `office_life` says it.
#[derive(Clone, Copy)]
enum Stage {
    Stored,
    Unmade,
    HalfMade,
}

/// After how many stints the database does not promise what is left, by why.
#[derive(Clone, Copy)]
struct Unknown {
    /// The opening stopped while it read the tables.
    unread: u64,
    /// The closing failed and shut the store.
    shut: u64,
    /// The opening stopped while it made new files, as an earlier one had.
    begun: u64,
}

/// Lives through stints in files, each ended by a crash.
fn lived<D: Crash + Drop>(
    alloc: Global,
    files: Files<D>,
    tasks: &[Task],
) -> Result<(Vec<Report>, Files<D>), Fail> {
    if !files.may_be_used() {
        return Err(Fail::new("files that may not be used"));
    }
    Ok(live(alloc, files, tasks)?)
}

/// Reads the tables behind a desk.
fn tables_behind<S: Alter + Drop>(alloc: Global, desk: Desk<S>) -> Result<String, Fail> {
    let mut conn = desk.close();
    all_selected(alloc, &mut conn)
}

/// Names the reason why no office is found.
fn unfound<D: Disk>(stop: &FindStop<D>) -> Fail {
    match stop {
        FindStop::Files(error, _) => Fail::new(format_args!("no office is found: {error:?}")),
        FindStop::Office(fault, _) => Fail::new(format_args!("no office is found: {fault:?}")),
    }
}

/// Finds the office in files, and reads its tables.
fn found<D: Disk + Drop>(alloc: Global, files: Files<D>) -> Result<String, Fail> {
    if !files.may_be_used() {
        return Err(Fail::new("files that may not be used"));
    }
    match find(alloc, files) {
        Ok(desk) => tables_behind(alloc, desk),
        Err(stop) => Err(unfound(&stop)),
    }
}

/// Reads what a life left: its files, and the tables of the office that is found in them.
fn ending_of(alloc: Global, files: LastingDisks) -> Result<(Image, String), Fail> {
    let left = Image::left(alloc, &files)?;
    let tables = found(alloc, files)?;
    Ok((left, tables))
}

/// Lives from these files on, with disks that stop so in each stint.
fn life_of(alloc: Global, image: &Image, tasks: &[Task], stop: Stop) -> Result<Life, Fail> {
    let files = image.lasting(alloc, stop, tasks.len())?;
    let (reports, files) = lived(alloc, files, tasks)?;
    let (left, tables) = ending_of(alloc, files)?;
    Ok(Life {
        reports,
        left,
        tables,
    })
}

/// Tells whether a life found the tables to which the reports of its stints lead: what they
/// answered, and at most one act more of each, or any steps of a run.
fn is_led_to(
    alloc: Global,
    words: &[&str],
    life: &Life,
    outcomes: &mut Outcomes<'_>,
) -> Result<bool, Fail> {
    let mut all_asks = outcomes.begin(alloc)?;
    for (asked, report) in words.iter().zip(life.reports.iter()) {
        all_asks = outcomes.go_on(alloc, all_asks.as_slice(), asked, &report.end)?;
    }
    Ok(outcomes.lead_to(all_asks.as_slice(), life.tables.as_str()))
}

/// Names the stops of a life that found other tables.
fn another_state(stop: Stop, tables: &str) -> Fail {
    let Stop { log, db } = stop;
    Fail::new(format_args!("stops of {log} and {db}: {tables}"))
}

/// Counts the stints after which the database does not promise what is left.
fn count_unknown(reports: &[Report], first: Stage, unknown: &mut Unknown) {
    let mut stage = first;
    for report in reports {
        match (report.remains, stage) {
            (Remains::Held, _) => stage = Stage::Stored,
            (Remains::Same, _) | (Remains::Begun, Stage::Stored) => {}
            (Remains::Begun, Stage::Unmade) => stage = Stage::HalfMade,
            (Remains::Begun, Stage::HalfMade) => unknown.begun = unknown.begun.saturating_add(1),
            (Remains::Unread, _) => unknown.unread = unknown.unread.saturating_add(1),
            (Remains::Shut, _) => unknown.shut = unknown.shut.saturating_add(1),
        }
    }
}

/// Gives the stage at which a life begins.
fn first_stage(image: &Image) -> Stage {
    if image.is_none() {
        Stage::Unmade
    } else {
        Stage::Stored
    }
}

/// Tells whether nothing stopped the stints before all was done.
fn are_whole(reports: &[Report]) -> bool {
    for report in reports {
        if !is_whole(&report.end) {
            return false;
        }
    }
    true
}

/// Tells whether nothing stopped in a life: a closing that was stopped leaves other bytes.
fn is_whole_life(trial: Trial<'_>, life: &Life) -> bool {
    are_whole(life.reports.as_slice()) && life.left.is_same(trial.left)
}

/// Checks that a life whose disks stop so leads where its stints report.
fn report_life(
    alloc: Global,
    trial: Trial<'_>,
    stop: Stop,
    life: &Life,
    outcomes: &mut Outcomes<'_>,
) -> Result<(), Fail> {
    if is_led_to(alloc, trial.words, life, outcomes)? {
        return Ok(());
    }
    Err(another_state(stop, life.tables.as_str()))
}

/// Tries a life whose disks stop so, and tells whether nothing stopped in it.
fn is_whole_after(
    alloc: Global,
    trial: Trial<'_>,
    stop: Stop,
    outcomes: &mut Outcomes<'_>,
    unknown: &mut Unknown,
) -> Result<bool, Fail> {
    let life = life_of(alloc, trial.image, trial.tasks, stop)?;
    report_life(alloc, trial, stop, &life, outcomes)?;
    count_unknown(life.reports.as_slice(), first_stage(trial.image), unknown);
    Ok(is_whole_life(trial, &life))
}

/// Counts how often a disk stops a life, after each number of its calls in turn.
fn count_of_stops(
    alloc: Global,
    trial: Trial<'_>,
    disk: &str,
    outcomes: &mut Outcomes<'_>,
    unknown: &mut Unknown,
) -> Result<u64, Fail> {
    for calls in 0..10_000 {
        if is_whole_after(alloc, trial, Stop::of(disk, calls)?, outcomes, unknown)? {
            return Ok(calls);
        }
    }
    Err(failure("never done", disk))
}

/// Checks that a disk stops a life so often at least.
fn report_stops(
    alloc: Global,
    trial: Trial<'_>,
    disk: &str,
    least: u32,
    outcomes: &mut Outcomes<'_>,
    unknown: &mut Unknown,
) -> Result<(), Fail> {
    let stops = count_of_stops(alloc, trial, disk, outcomes, unknown)?;
    let reported = format!(in alloc; "{stops} stops")?;
    must(stops >= least as u64, disk, reported.as_str())
}

/// Tries a life while the log stops in each stint, the database file, or both. Counts the stints
/// after which the database does not promise what is left.
fn unknown_of(alloc: Global, trial: Trial<'_>, least: u32) -> Result<Unknown, Fail> {
    let mut unknown = Unknown {
        unread: 0,
        shut: 0,
        begun: 0,
    };
    let mut outcomes = Outcomes::new(alloc, trial.image);
    for disk in ["log", "db", "both"] {
        report_stops(alloc, trial, disk, least, &mut outcomes, &mut unknown)?;
    }
    Ok(unknown)
}

/// Checks the counts of a row.
fn report_unknown(alloc: Global, row: Row<'_>, unknown: Unknown) -> Result<(), Fail> {
    let Unknown {
        unread,
        shut,
        begun,
    } = unknown;
    let reported = format!(in alloc; "unread {unread}, shut {shut}, begun {begun}")?;
    must(
        reported.as_str() == row.unknown,
        row.stints,
        reported.as_str(),
    )
}

/// Lists the answers of all stints, a line for each.
fn answers_in(alloc: Global, reports: &[Report]) -> Result<String, Fail> {
    let mut text = String::new(alloc);
    for report in reports {
        push_end(alloc, &mut text, &report.end)?;
    }
    Ok(text)
}

/// Checks the answers of a row.
fn report_answers(alloc: Global, row: Row<'_>, reports: &[Report]) -> Result<(), Fail> {
    let wanted = answers_of(alloc, row.stints)?;
    let reported = answers_in(alloc, reports)?;
    must(
        reported.as_str() == wanted.as_str(),
        row.stints,
        reported.as_str(),
    )
}

/// Lives with disks that never stop, and checks the answers. Gives the files that are left.
fn left_of(alloc: Global, image: &Image, row: Row<'_>, tasks: &[Task]) -> Result<Image, Fail> {
    let Life {
        reports,
        left,
        tables: _,
    } = life_of(alloc, image, tasks, Stop::never())?;
    report_answers(alloc, row, reports.as_slice())?;
    Ok(left)
}

/// Tries a life with each stop, and checks the counts of its row.
fn report_trial(alloc: Global, trial: Trial<'_>, row: Row<'_>) -> Result<(), Fail> {
    let unknown = unknown_of(alloc, trial, row.least)?;
    report_unknown(alloc, row, unknown)
}

/// Does the same from these files on. Gives those that are left if no disk stops.
fn tried(
    alloc: Global,
    image: &Image,
    row: Row<'_>,
    words: &[&str],
    tasks: &[Task],
) -> Result<Image, Fail> {
    let left = left_of(alloc, image, row, tasks)?;
    let trial = Trial {
        image,
        words,
        tasks,
        left: &left,
    };
    report_trial(alloc, trial, row)?;
    Ok(left)
}

/// Tries the life of a row: `ACTS = ANSWERS ; resume = ANSWER, at least 20, unread 3, shut 0, begun
/// 0`. The log stops in each of its stints, then the database file, then both. The first number is
/// how often each stops them at least. The others count the stints after which the database does
/// not promise what is left, by why. In the end the files are those that are left if no disk stops.
pub(crate) fn report_lived(alloc: Global, image: &mut Image, row: &str) -> Result<(), Fail> {
    let row = row_of(row)?;
    let words = words_of(alloc, row.stints)?;
    let tasks = tasks_of(alloc, words.as_slice())?;
    let left = tried(alloc, image, row, words.as_slice(), tasks.as_slice())?;
    *image = left;
    Ok(())
}
