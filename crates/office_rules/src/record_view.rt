//! What is reported of a record.
use office_days::{Day, DueDay};
use office_records::{Action, AggNo, Code, Confirmation, RecordNo, Status, Text};

/// What is reported of a record: its head and status; the class, the schedule and the action in
/// effect, the due day, the day of its event and the least hold as the office says now, whatever
/// the status; and its confirmation, also where it does not count any more.
#[derive(Drop)]
pub struct RecordView {
    pub number: RecordNo,
    pub ref_text: Text,
    pub title: Text,
    pub originated: Day,
    pub added: Day,
    /// The number of its aggregation.
    pub aggregation: AggNo,
    /// The length of its content, in bytes.
    pub length: u32,
    /// The SHA-256 of its content.
    pub digest: [u8; 32],
    pub status: Status,
    pub class: Code,
    pub schedule: Code,
    pub action: Action,
    pub due: Option<DueDay>,
    pub event: Option<Day>,
    pub held: Option<Code>,
    pub confirmed: Option<Confirmation>,
    pub counts: bool,
}
