//! Entries of disposal runs, and the numbers of runs.
use crate::Outcome;
use office_days::DueDay;
use office_records::{Code, RecordNo, Text};

/// The number of a disposal run: 1, 2, .. in the order of opening.
pub type RunNo = u32;

/// What a run did with a record, as it was at that moment: the class and the schedule in effect,
/// the due day that was confirmed and who confirmed it, and for a skipped record the least code, in
/// byte order, of the holds that covered it.
#[derive(Drop)]
pub struct Entry {
    pub run: RunNo,
    pub record_no: RecordNo,
    pub outcome: Outcome,
    pub class: Code,
    pub schedule: Code,
    pub due: DueDay,
    pub confirmed_by: Text,
    pub hold: Option<Code>,
}
