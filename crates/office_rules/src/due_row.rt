//! A row of what is due or overdue, as lists and registers report it.
use office_days::DueDay;
use office_records::{Action, Code, RecordNo, Text};

/// A record that is due, as the list and the register of what is due report it: its parts in the
/// office, borrowed.
#[derive(Clone, Copy)]
pub struct DueRow<'a> {
    pub number: RecordNo,
    pub ref_text: &'a Text,
    /// The class and the schedule in effect.
    pub class: &'a Code,
    pub schedule: &'a Code,
    pub action: Action,
    pub due: DueDay,
    /// The least hold that covers it.
    pub held: Option<&'a Code>,
    /// Whether a confirmation of it counts.
    pub counts: bool,
}
