//! What a file has besides the office's tables: rows of other tables, indexes and views.
use crate::disks::{Image, Stop};
use crate::errands::{Errand, done};
use crate::failures::must;
use crate::selections::{push_selected, selected};
use sqlite::{Alter, Connection};
use std::alloc::Global;
use std::test::Fail;

/// Which objects of a file are not the office's own: all but its thirteen tables, and the indexes
/// that their keys make.
const IS_OTHER: &str =
    "NOT (tbl_name IN ('office', 'schedules', 'classes', 'aggregations', 'records', 'contents', 'holds', 'targets', 'runs', 'entries', 'certificates', 'schedules2', 'events') AND (type = 'table' OR sql IS NULL))";

/// The names of the other objects of that kind, each with a semicolon behind it.
fn names_of<S: Alter>(alloc: Global, conn: &mut Connection<S>, kind: &str) -> Result<String, Fail> {
    let select = format!(in alloc;
        "SELECT name FROM sqlite_schema WHERE type = '{kind}' AND {IS_OTHER}"
    )?;
    selected(alloc, conn, select.as_str())
}

/// Appends what these columns have of an object, with its name.
fn push_object<S: Alter>(
    alloc: Global,
    conn: &mut Connection<S>,
    text: &mut String,
    name: &str,
    columns: &str,
) -> Result<(), Fail> {
    let select = format!(in alloc; "SELECT {columns} FROM \"{name}\"")?;
    push_selected(alloc, conn, text, name, select.as_str())
}

/// Appends what these columns have of each of the objects, a line for each.
fn push_objects<S: Alter>(
    alloc: Global,
    conn: &mut Connection<S>,
    text: &mut String,
    names: &str,
    columns: &str,
) -> Result<(), Fail> {
    if names == "none" {
        return Ok(());
    }
    for name in names.split_terminator(';') {
        push_object(alloc, conn, text, name, columns)?;
    }
    Ok(())
}

/// What these columns have of each other object of that kind, a line for each.
fn rows_of<S: Alter>(
    alloc: Global,
    conn: &mut Connection<S>,
    kind: &str,
    columns: &str,
) -> Result<String, Fail> {
    let names = names_of(alloc, conn, kind)?;
    let mut text = String::new(alloc);
    push_objects(alloc, conn, &mut text, names.as_str(), columns)?;
    Ok(text)
}

/// The list of the other objects, with their texts, and each row of each other table, with its
/// rowid; nothing where there is no other object. A table that is not read reports so.
pub(crate) fn rest_text<S: Alter>(alloc: Global, conn: &mut Connection<S>) -> Result<String, Fail> {
    let select = format!(in alloc;
        "SELECT type, name, tbl_name, sql FROM sqlite_schema WHERE {IS_OTHER}"
    )?;
    let objects = selected(alloc, conn, select.as_str())?;
    if objects.as_str() == "none" {
        return Ok(String::new(alloc));
    }
    let rows = rows_of(alloc, conn, "table", "rowid, *")?;
    Ok(format!(in alloc; "{objects}\n{rows}")?)
}

/// The same, and what each view answers, which may follow the office's own tables.
pub(crate) fn rest_and_views<S: Alter>(
    alloc: Global,
    conn: &mut Connection<S>,
) -> Result<String, Fail> {
    let mut text = rest_text(alloc, conn)?;
    if !text.is_empty() {
        let views = rows_of(alloc, conn, "view", "*")?;
        text.push_str(views.as_str())?;
    }
    Ok(text)
}

/// What else the file has, where no office is opened before.
fn rest_in(alloc: Global, image: &mut Image) -> Result<String, Fail> {
    done(alloc, image, Stop::never(), Errand::Rest)
}

/// Whether the rows of a place change what else the file has.
fn is_free(place: &str) -> bool {
    place.starts_with("in the tables") || place == "the bytes of a file"
}

/// After a part of a story: what else the file has must be as it was, unless the rows of that place
/// change it.
pub(crate) fn report_rest(
    alloc: Global,
    image: &mut Image,
    place: &str,
    rest: &mut String,
) -> Result<(), Fail> {
    if is_free(place) {
        *rest = rest_in(alloc, image)?;
        return Ok(());
    }
    if rest.is_empty() {
        return Ok(());
    }
    let now = rest_in(alloc, image)?;
    must(now.as_str() == rest.as_str(), place, now.as_str())
}
