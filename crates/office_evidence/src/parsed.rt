//! A certificate as its text gives it, line by line.
use office_days::{Day, DueDay};
use office_records::{AggNo, Code, RecordNo, Text};
use office_rules::{Outcome, RunNo};

/// The line of an entry: what a run did with a record, and the ref of the record, with the length
/// in bytes and the SHA-256 of its content.
#[derive(Drop)]
pub struct EntryLine {
    pub record_no: RecordNo,
    pub outcome: Outcome,
    pub ref_text: Text,
    pub class: Code,
    pub schedule: Code,
    pub due: DueDay,
    /// The hold that kept the record, for a skipped record alone.
    pub hold: Option<Code>,
    pub confirmed_by: Text,
    pub length: u32,
    pub digest: [u8; 32],
}

/// The line of an aggregation that is spent.
#[derive(Drop)]
pub struct SpentLine {
    pub number: AggNo,
    pub ref_text: Text,
}

/// A certificate as its text gives it: the run, its day and who opened it, and its lines in their
/// order. How many entries have each kind of outcome follows from the lines.
#[derive(Drop)]
pub struct ParsedCertificate {
    pub run: RunNo,
    pub day: Day,
    pub by: Text,
    pub entries: Vec<EntryLine>,
    pub spent: Vec<SpentLine>,
}
