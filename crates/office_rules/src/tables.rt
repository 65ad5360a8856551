//! The rows of all of the office's tables.
use crate::{Entry, RecordRow, Run, RunNo};
use office_days::Day;
use office_records::{AggNo, Aggregation, Class, Code, Event, HoldRow, RecordNo, Schedule, Target};

/// The rows of the office's tables, each row with its key before it, in the order of the keys; the
/// targets of holds in any order. An entry holds its key itself. Of `contents` the keys are here
/// alone, of `office`, which has one row, its day.
#[derive(Drop)]
pub struct Tables {
    pub day: Day,
    pub schedules: Vec<(Code, Schedule)>,
    pub classes: Vec<(Code, Class)>,
    pub aggregations: Vec<(AggNo, Aggregation)>,
    pub records: Vec<(RecordNo, RecordRow)>,
    pub events: Vec<(RecordNo, Event)>,
    pub contents: Vec<RecordNo>,
    pub holds: Vec<(Code, HoldRow)>,
    pub targets: Vec<(Code, Target)>,
    pub runs: Vec<(RunNo, Run)>,
    pub entries: Vec<Entry>,
    pub certificates: Vec<(RunNo, String)>,
}
