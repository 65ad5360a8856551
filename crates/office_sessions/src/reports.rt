//! What is asked of an office in a stint, and what a stint with requests reports.

use office_life::{Remains, Report, Task};
use office_store::Fault;
use office_wire::SentAnswer;
use sqlite::Error;

/// What is asked of an office in one stint.
#[derive(Clone, Copy)]
pub enum Errand<'a> {
    /// Acts are done, or the open run is resumed.
    Task(&'a Task),
    /// Requests are served, each given as all bytes of a connection.
    Requests(&'a [&'a [u8]]),
}

/// How a stint with requests ended.
#[derive(Drop)]
pub enum RequestsEnd {
    /// The files were not opened, by this error.
    FilesShut(Error),
    /// The office in them was not opened.
    OfficeShut(Fault),
    /// Each request was answered: these responses went out whole, and none was a 503.
    Answered(Vec<SentAnswer>),
    /// These responses to the first requests did. To the next request this went out in place of a
    /// whole response: first bytes of one, or a 503. If nothing is given, the next request was not
    /// read, since memory for its response was refused.
    Stopped(Vec<SentAnswer>, Option<SentAnswer>),
}

/// What a stint with requests reports.
#[derive(Drop)]
pub struct RequestsReport {
    pub end: RequestsEnd,
    pub remains: Remains,
}

/// What a stint of a life reports.
#[derive(Drop)]
pub enum LifeReport {
    /// Of acts, or of a resumption.
    Task(Report),
    /// Of requests.
    Requests(RequestsReport),
}
