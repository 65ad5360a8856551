//! A file of version 1 is opened while a disk stops, at each of its calls in turn.
use crate::disks::{Image, Stop};
use crate::errands::{Errand, do_all, done};
use crate::failures::{failure, must};
use crate::repeating::number;
use crate::tables::rows_in;
use std::alloc::Global;
use std::test::Fail;

/// What is in the tables of a file of version 1, and once it was opened.
#[derive(Drop)]
struct Versions {
    one: String,
    two: String,
}

/// What is in the tables now, and once the office is opened.
fn versions_of(alloc: Global, image: &Image) -> Result<Versions, Fail> {
    let mut copy = image.copy(alloc)?;
    let one = rows_in(alloc, &mut copy)?;
    do_all(alloc, &mut copy, Errand::Asks(&[]))?;
    let two = rows_in(alloc, &mut copy)?;
    must(
        one.as_str() != two.as_str(),
        "no file of version 1",
        one.as_str(),
    )?;
    Ok(Versions { one, two })
}

/// What a stop leaves is all of version 2 or, where the file was not opened, all of version 1.
fn report_left(
    alloc: Global,
    left: &mut Image,
    versions: &Versions,
    reported: &str,
) -> Result<(), Fail> {
    let rows = rows_in(alloc, left)?;
    let is_two = rows.as_str() == versions.two.as_str();
    let is_one = rows.as_str() == versions.one.as_str();
    must(
        is_two || is_one && !reported.is_empty(),
        "neither version, whole",
        rows.as_str(),
    )
}

/// The file is opened while a disk stops so, and then without a stop: whether nothing stopped it.
fn is_opened_before(
    alloc: Global,
    image: &Image,
    versions: &Versions,
    stop: Stop,
) -> Result<bool, Fail> {
    let mut left = image.copy(alloc)?;
    let reported = done(alloc, &mut left, stop, Errand::Asks(&[]))?;
    let reported = reported.as_str();
    must(
        reported.is_empty() || reported == "fault 31",
        "no stop of the store",
        reported,
    )?;
    report_left(alloc, &mut left, versions, reported)?;
    do_all(alloc, &mut left, Errand::Asks(&[]))?;
    report_left(alloc, &mut left, versions, "")?;
    Ok(reported.is_empty())
}

/// How often the disk stops the opening, after each number of its calls in turn, until nothing
/// stops.
fn count_of_stops(
    alloc: Global,
    image: &Image,
    versions: &Versions,
    disk: &str,
) -> Result<u64, Fail> {
    for calls in 0..10_000 {
        if is_opened_before(alloc, image, versions, Stop::of(disk, calls)?)? {
            return Ok(calls);
        }
    }
    Err(failure("never opened", disk))
}

/// A file of version 1 is opened while each disk stops in turn, so often at least, and then without
/// a stop.
pub(crate) fn report_opened(alloc: Global, image: &mut Image, row: &str) -> Result<(), Fail> {
    let Some(least) = row.strip_prefix("at least ") else {
        return Err(failure("no such row", row));
    };
    let least = number(least)? as u64;
    let versions = versions_of(alloc, image)?;
    for disk in ["log", "db"] {
        let count = count_of_stops(alloc, image, &versions, disk)?;
        let reported = format!(in alloc; "{count} stops of {disk}")?;
        must(count >= least, row, reported.as_str())?;
    }
    do_all(alloc, image, Errand::Asks(&[]))
}
