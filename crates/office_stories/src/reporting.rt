//! Stories are carried out, part by part.
use crate::disks::Image;
use crate::errands::{Errand, close, do_all};
use crate::failures::failure;
use crate::intakes::report_taken_over;
use crate::lives::report_lived;
use crate::migrations::report_opened;
use crate::office::{BASE, BUSY};
use crate::old_office::{OLD_BASE, OLD_TABLES};
use crate::others::{EARLIER, LATER};
use crate::pages::put_row;
use crate::repeating::{FOR_EACH, copies, number};
use crate::rests::report_rest;
use crate::rows::Way;
use crate::stops::{report_asked, report_resumed};
use crate::tables::{report_counts, report_opening, report_selection};
use std::alloc::Global;
use std::test::Fail;

/// A row at no open desk.
fn report_apart(alloc: Global, image: &mut Image, place: &str, row: &str) -> Result<(), Fail> {
    match place {
        "by the program" => do_all(alloc, image, Errand::Program(row)),
        _ if place.starts_with("in the tables") => do_all(alloc, image, Errand::Statements(row)),
        "read from the tables" => report_selection(alloc, image, row),
        "tried on the tables" => report_opening(alloc, image, row),
        "counts of the tables" => report_counts(alloc, image, row),
        "taken over by memory" => report_taken_over(alloc, image, row),
        "asked while a disk stops" => report_asked(alloc, image, row),
        "resumed while a disk stops" => report_resumed(alloc, image, row),
        "lived while disks stop" => report_lived(alloc, image, row),
        "opened while a disk stops" => report_opened(alloc, image, row),
        "the bytes of a file" => put_row(alloc, image, row),
        _ => Err(failure("no such place", place)),
    }
}

/// All rows at no open desk.
fn report_all_apart(alloc: Global, image: &mut Image, place: &str, rows: &str) -> Result<(), Fail> {
    for row in rows.lines() {
        if !row.is_empty() {
            report_apart(alloc, image, place, row)?;
        }
    }
    Ok(())
}

/// How rows are reported at that place; none where it is not at an open desk.
fn way_of(place: &str) -> Result<Option<Way>, Fail> {
    if let Some((_, most)) = place.split_once("clients in pieces of ") {
        return Ok(Some(Way::Pieces(number(most)?)));
    }
    if place.starts_with("at the desk") {
        return Ok(Some(Way::Rows));
    }
    Ok(None)
}

/// The tables of version 1, where the place is in them, and the rows of the old base office, where
/// it is in its tables.
fn make_old(alloc: Global, image: &mut Image, place: &str) -> Result<(), Fail> {
    let is_base = place.ends_with(" of the old base office");
    if is_base || place.ends_with(" of version 1") {
        do_all(alloc, image, Errand::Statements(OLD_TABLES))?;
    }
    if is_base {
        do_all(alloc, image, Errand::Statements(OLD_BASE))?;
    }
    Ok(())
}

/// The other tables of the file, where the place is in those of an earlier program or of a later
/// one.
fn make_others(alloc: Global, image: &mut Image, place: &str) -> Result<(), Fail> {
    if place.ends_with(" of an earlier program") {
        do_all(alloc, image, Errand::Statements(EARLIER))?;
    }
    if place.ends_with(" of a later program") {
        do_all(alloc, image, Errand::Statements(LATER))?;
    }
    Ok(())
}

/// The acts of the base office or of the busy one, where the place is at its desk.
fn make_office(alloc: Global, image: &mut Image, place: &str) -> Result<(), Fail> {
    let is_busy = place.ends_with(" of the busy office");
    if is_busy || place.ends_with(" of the base office") {
        do_all(alloc, image, Errand::Rows(Way::Rows, BASE))?;
    }
    if is_busy {
        do_all(alloc, image, Errand::Rows(Way::Rows, BUSY))?;
    }
    Ok(())
}

/// The rows of a part at their place.
fn report_rows_at(alloc: Global, image: &mut Image, place: &str, rows: &str) -> Result<(), Fail> {
    if place == "closed" {
        return close(alloc, image);
    }
    make_others(alloc, image, place)?;
    make_old(alloc, image, place)?;
    make_office(alloc, image, place)?;
    match way_of(place)? {
        Some(way) => do_all(alloc, image, Errand::Rows(way, rows)),
        None => report_all_apart(alloc, image, place, rows),
    }
}

/// A part of a story: its place and its rows. What else the file has stays as it is, unless they
/// change it.
fn report_part(
    alloc: Global,
    image: &mut Image,
    part: &str,
    rest: &mut String,
) -> Result<(), Fail> {
    let (place, rows) = part.split_once('\n').ok_or("no rows")?;
    report_rows_at(alloc, image, place, rows)?;
    report_rest(alloc, image, place, rest)
}

/// The parts of a story, from no office on. Gives the office to which they come.
pub(crate) fn report_parts(alloc: Global, parts: &str) -> Result<Image, Fail> {
    let mut image = Image::new(alloc);
    let mut rest = String::new(alloc);
    for part in parts.split("## ") {
        if !part.trim().is_empty() {
            report_part(alloc, &mut image, part, &mut rest)?;
        }
    }
    Ok(image)
}

/// A story that is reported once.
fn report_once(alloc: Global, parts: &str) -> Result<(), Fail> {
    report_parts(alloc, parts)?;
    Ok(())
}

/// A story, which may be reported for each of several numbers.
fn report_story(alloc: Global, story: &str) -> Result<(), Fail> {
    let (title, parts) = story.split_once('\n').ok_or("no story")?;
    let Some((_, list)) = title.split_once(FOR_EACH) else {
        return report_once(alloc, parts);
    };
    for copy in copies(alloc, parts, list)? {
        report_once(alloc, copy.as_str())?;
    }
    Ok(())
}

/// Stories are reported: each must be as it says.
pub(crate) fn report(alloc: Global, stories: &str) -> Result<(), Fail> {
    for story in stories.split("\n# ") {
        if !story.trim().is_empty() {
            report_story(alloc, story)?;
        }
    }
    Ok(())
}
