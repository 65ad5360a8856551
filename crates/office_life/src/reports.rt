//! What is asked of an office in a stint, and what the stint reports.

use office_rules::{Act, Answer};
use office_store::Fault;
use sqlite::Error;

/// What is asked of an office in one stint.
#[derive(Drop)]
pub enum Task {
    /// Acts, one after another.
    Acts(Vec<Act>),
    /// The open run is resumed.
    Resumption,
}

/// How a stint ended.
#[derive(Drop)]
pub enum StintEnd {
    /// The files were not opened, by this error.
    FilesShut(Error),
    /// The office in them was not opened.
    OfficeShut(Fault),
    /// All acts were done, with these answers.
    Done(Vec<Answer>),
    /// A fault stopped the acts after these answers.
    Stopped(Vec<Answer>, Fault),
    /// The run was resumed, with this answer.
    Resumed(Answer),
    /// A fault stopped the resumption.
    Interrupted(Fault),
}

/// What the database promises of the files that a stint left.
#[derive(Clone, Copy, Debug, PartialEq, Eq)]
pub enum Remains {
    /// They were opened, and hold tables.
    Held,
    /// They were not opened, and are as they were.
    Same,
    /// They were not opened. If they held tables they hold these; if they held no database, one may
    /// be half made.
    Begun,
    /// Nothing: the opening stopped while it read the tables. A store over them stands for the
    /// tables that they held, but it may number them otherwise.
    Unread,
    /// Nothing: the closing failed and shut the store.
    Shut,
}

/// What a stint reports.
#[derive(Drop)]
pub struct Report {
    pub end: StintEnd,
    pub remains: Remains,
}
