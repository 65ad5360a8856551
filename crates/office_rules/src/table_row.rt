//! A row of one of the office's tables.
use crate::{Entry, RecordRow, Run, RunNo};
use office_days::Day;
use office_records::{AggNo, Aggregation, Class, Code, Event, HoldRow, RecordNo, Schedule, Target};

/// A row of one of the office's tables, with its key. Of `contents` it is the key alone, of
/// `office`, which has one row of this version, its day.
#[derive(Drop)]
pub enum Row {
    Office {
        day: Day,
    },
    Schedule {
        code: Code,
        schedule: Schedule,
    },
    Class {
        code: Code,
        class: Class,
    },
    Aggregation {
        number: AggNo,
        aggregation: Aggregation,
    },
    Record {
        number: RecordNo,
        columns: RecordRow,
    },
    /// The event of the record of that number.
    Event {
        number: RecordNo,
        event: Event,
    },
    Content {
        number: RecordNo,
    },
    Hold {
        code: Code,
        hold: HoldRow,
    },
    Target {
        hold: Code,
        target: Target,
    },
    Run {
        number: RunNo,
        run: Run,
    },
    Entry {
        entry: Entry,
    },
    Certificate {
        run: RunNo,
        text: String,
    },
}
