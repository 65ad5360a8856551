//! What is done at an office while its two files are open.
use crate::acts::{answered, is_act};
use crate::disks::{Image, Stop};
use crate::failures::failure;
use crate::intakes::taken_over;
use crate::program::report_program;
use crate::readings::{fault_text, reported};
use crate::rests::rest_text;
use crate::rows::{Way, report_rows};
use crate::selections::{all_selected, selected};
use crate::sockets::{Meeting, serve};
use crate::tables::{change, counts_text, tables_text};
use office_desk::Desk;
use office_store::Fault;
use sqlite::{Alter, Connection, FileStore, Files, Options};
use sqlite_disk::{Crash, Disk};
use std::alloc::Global;
use std::net::TcpListener;
use std::test::Fail;

/// What is done while an office is open.
#[derive(Clone, Copy)]
pub(crate) enum Errand<'a> {
    /// Rows are reported at the desk.
    Rows(Way, &'a str),
    /// Acts and readings are asked at the desk; what is reported is a line for each.
    Asks(&'a [&'a str]),
    /// Clients are served who wait at a socket.
    Meeting(&'a HostRuntime, &'a TcpListener, &'a Meeting<'a>),
    /// A row of the program's words.
    Program(&'a str),
    /// Statements change the tables.
    Statements(&'a str),
    /// The rows of the tables are counted.
    Counts,
    /// What is in the tables is reported, once the office is opened.
    Tables,
    /// What is in the tables is reported, and no office is opened.
    AllRows,
    /// What else the file has is reported, and no office is opened.
    Rest,
    /// What a statement reads is reported, and no office is opened.
    Selection(&'a str),
    /// The office is taken over with memory for so many rows.
    TakenOver(usize),
}

/// What is reported of acts or of a reading.
fn line_of<S: Alter>(alloc: Global, desk: &mut Desk<S>, words: &str) -> Result<String, Fail> {
    if is_act(words) {
        return answered(alloc, desk, words);
    }
    reported(alloc, desk, words)
}

/// What is reported of acts and readings, a line for each; a poisoned desk is asked to resume, too.
fn reported_of<S: Alter>(alloc: Global, desk: &mut Desk<S>, asks: &[&str]) -> Result<String, Fail> {
    let mut text = String::new(alloc);
    for words in asks {
        text.push_str(line_of(alloc, desk, words)?.as_str())?;
        text.push('\n')?;
    }
    if desk.is_poisoned() {
        text.push_str(line_of(alloc, desk, "resume")?.as_str())?;
        text.push('\n')?;
    }
    Ok(text)
}

/// An errand at an open desk.
fn done_at<S: Alter>(
    alloc: Global,
    desk: &mut Desk<S>,
    errand: Errand<'_>,
) -> Result<String, Fail> {
    match errand {
        Errand::Rows(way, rows) => report_rows(alloc, desk, way, rows)?,
        Errand::Asks(asks) => return reported_of(alloc, desk, asks),
        Errand::Meeting(rt, listener, meeting) => serve(rt, listener, desk, meeting)?,
        Errand::Program(_) | Errand::Statements(_) | Errand::Selection(_) => {}
        Errand::Counts | Errand::Tables | Errand::AllRows | Errand::TakenOver(_) => {}
        Errand::Rest => {}
    }
    Ok(String::new(alloc))
}

/// An errand at a desk over a connection, which is closed again; the fault where it is not opened.
fn done_at_desk<S: Alter>(
    alloc: Global,
    conn: Connection<S>,
    errand: Errand<'_>,
) -> (Result<String, Fail>, Connection<S>) {
    if !conn.is_autocommit() {
        return (Err(Fail::new("a transaction is under way")), conn);
    }
    match Desk::open(alloc, conn) {
        Ok(mut desk) => {
            let reported = done_at(alloc, &mut desk, errand);
            (reported, desk.close())
        }
        Err((fault, conn)) => (fault_text(alloc, fault), conn),
    }
}

/// An errand over a connection.
fn done_over<S: Alter + Drop>(
    alloc: Global,
    mut conn: Connection<S>,
    errand: Errand<'_>,
) -> (Result<String, Fail>, Connection<S>) {
    match errand {
        Errand::Program(row) => report_program(alloc, conn, row),
        Errand::Statements(statements) => change(alloc, conn, statements),
        Errand::Counts => counts_text(alloc, conn),
        Errand::Tables => tables_text(alloc, conn),
        Errand::AllRows => (all_selected(alloc, &mut conn), conn),
        Errand::Rest => (rest_text(alloc, &mut conn), conn),
        Errand::Selection(select) => (selected(alloc, &mut conn, select), conn),
        Errand::TakenOver(rows) => taken_over(alloc, conn, rows),
        _ => done_at_desk(alloc, conn, errand),
    }
}

/// How many pages of an office are kept in memory: each opening fills them with zeros first.
const PAGES: usize = 256;

/// A connection to the files, or these where the disk stops.
fn connected<D: Disk + Drop>(
    alloc: Global,
    files: Files<D>,
) -> Result<Connection<FileStore<D>>, Files<D>> {
    if !files.may_be_used() {
        return Err(files);
    }
    let mut options = Options::new(1);
    options.cache_pages = PAGES;
    match Connection::open_files(alloc, files, options) {
        Ok(conn) => Ok(conn),
        Err((_, left)) => Err(left.into_files()),
    }
}

/// The store of a connection that is left as it is.
fn store_behind<S: Alter + Drop>(conn: Connection<S>) -> S {
    conn.into_store()
}

/// The files of a store.
fn files_behind<D: Disk + Drop>(store: FileStore<D>) -> Files<D> {
    store.close()
}

/// An errand over files, which are left as they are.
fn done_in<D: Disk + Drop>(
    alloc: Global,
    files: Files<D>,
    errand: Errand<'_>,
) -> (Result<String, Fail>, Files<D>) {
    match connected(alloc, files) {
        Ok(conn) => {
            let (reported, conn) = done_over(alloc, conn, errand);
            (reported, files_behind(store_behind(conn)))
        }
        Err(files) => (fault_text(alloc, Fault::Store), files),
    }
}

/// The files of a connection that is closed, the log empty.
fn closed<D: Disk + Drop>(conn: Connection<FileStore<D>>) -> Result<Files<D>, Fail> {
    match conn.close_files() {
        Ok(files) => Ok(files),
        Err((_, store)) => {
            drop(files_behind(store));
            Err(Fail::new("not closed"))
        }
    }
}

/// The database of an office is closed: its log goes back into its file.
pub(crate) fn close(alloc: Global, image: &mut Image) -> Result<(), Fail> {
    let Ok(conn) = connected(alloc, image.files(alloc, Stop::never())?) else {
        return Err(Fail::new("not opened"));
    };
    *image = Image::of(alloc, &closed(conn)?)?;
    Ok(())
}

/// The machine crashes.
fn crash<D: Crash>(files: &mut Files<D>) {
    files.log.crash();
    files.db.crash();
}

/// An errand at an office whose disks stop so, of which a crash leaves what it may. Gives what is
/// reported, which is a fault where the office is not opened.
pub(crate) fn done(
    alloc: Global,
    image: &mut Image,
    stop: Stop,
    errand: Errand<'_>,
) -> Result<String, Fail> {
    let (reported, mut files) = done_in(alloc, image.files(alloc, stop)?, errand);
    crash(&mut files);
    let reported = reported?;
    *image = Image::of(alloc, &files)?;
    Ok(reported)
}

/// An errand at an office that reports nothing.
pub(crate) fn do_all(alloc: Global, image: &mut Image, errand: Errand<'_>) -> Result<(), Fail> {
    let reported = done(alloc, image, Stop::never(), errand)?;
    if reported.is_empty() {
        return Ok(());
    }
    Err(failure("not opened", reported.as_str()))
}
