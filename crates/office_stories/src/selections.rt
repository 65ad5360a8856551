//! What is in the tables of an office, as statements read it where no office is opened before.
use crate::failures::failure;
use crate::rests::rest_and_views;
use sqlite::types::ValueRef;
use sqlite::{Alter, Connection, Row};
use std::alloc::{AllocError, Global};
use std::test::Fail;

/// The thirteen tables.
const TABLES: [&str; 13] = [
    "office",
    "schedules",
    "classes",
    "aggregations",
    "records",
    "contents",
    "holds",
    "targets",
    "runs",
    "entries",
    "certificates",
    "schedules2",
    "events",
];

/// A value as text.
fn value_text(alloc: Global, value: ValueRef<'_>) -> Result<String, AllocError> {
    match value {
        ValueRef::Int(number) => format!(in alloc; "{number};"),
        ValueRef::Text(bytes) => match str::from_utf8(bytes) {
            Ok(text) => format!(in alloc; "{text};"),
            Err(_) => format!(in alloc; "{bytes:?};"),
        },
        _ => format!(in alloc; "{value:?};"),
    }
}

/// Appends the values of a row.
fn push_row(alloc: Global, text: &mut String, row: &Row) -> Result<(), AllocError> {
    for at in 0..row.column_count() {
        if let Ok(value) = row.get_ref(at) {
            text.push_str(value_text(alloc, value)?.as_str())?;
        }
    }
    Ok(())
}

/// The values of the rows.
fn rows_text(alloc: Global, rows: &[Row]) -> Result<String, AllocError> {
    let mut text = String::new(alloc);
    for row in rows {
        push_row(alloc, &mut text, row)?;
    }
    if text.is_empty() {
        text.push_str("none")?;
    }
    Ok(text)
}

/// What a statement reads: the values of its rows, `none`, or `refused`, as where there is no such
/// table.
pub(crate) fn selected<S: Alter>(
    alloc: Global,
    conn: &mut Connection<S>,
    select: &str,
) -> Result<String, Fail> {
    let Ok(statement) = conn.prepare(select) else {
        return Ok(String::from_str(alloc, "refused")?);
    };
    match statement.query_all(conn, &[]) {
        Ok(rows) => Ok(rows_text(alloc, rows.as_slice())?),
        Err(_) => Err(failure("not read", select)),
    }
}

/// Appends what a statement reads, with its name.
pub(crate) fn push_selected<S: Alter>(
    alloc: Global,
    conn: &mut Connection<S>,
    text: &mut String,
    name: &str,
    select: &str,
) -> Result<(), Fail> {
    let rows = selected(alloc, conn, select)?;
    let line = format!(in alloc; "{name} {rows}\n")?;
    Ok(text.push_str(line.as_str())?)
}

/// Appends the rows of a table, with its name.
fn push_table<S: Alter>(
    alloc: Global,
    conn: &mut Connection<S>,
    text: &mut String,
    table: &str,
) -> Result<(), Fail> {
    let select = format!(in alloc; "SELECT * FROM {table}")?;
    push_selected(alloc, conn, text, table, select.as_str())
}

/// Appends the rows of each table.
fn push_tables<S: Alter>(
    alloc: Global,
    conn: &mut Connection<S>,
    text: &mut String,
) -> Result<(), Fail> {
    for table in &TABLES {
        push_table(alloc, conn, text, table)?;
    }
    Ok(())
}

/// Appends what else the file has.
fn push_rest<S: Alter>(
    alloc: Global,
    conn: &mut Connection<S>,
    text: &mut String,
) -> Result<(), Fail> {
    let rest = rest_and_views(alloc, conn)?;
    Ok(text.push_str(rest.as_str())?)
}

/// All rows of the tables, each table with its name, and what else the file has.
pub(crate) fn all_selected<S: Alter>(
    alloc: Global,
    conn: &mut Connection<S>,
) -> Result<String, Fail> {
    let mut text = String::new(alloc);
    push_tables(alloc, conn, &mut text)?;
    push_rest(alloc, conn, &mut text)?;
    Ok(text)
}
