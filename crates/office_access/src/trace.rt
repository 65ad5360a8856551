//! What a name did about a record, as the office keeps it.
use office_days::Day;

/// A trace that a name leaves at a record, by which a rule of four eyes keeps the name from opening
/// a run.
#[derive(Clone, Copy)]
pub(crate) enum Trace {
    /// The confirmation of the record.
    Confirmation,
    /// Its event or its review, of a day less than that many days before the day.
    Change { days: u16, day: Day },
    /// Its receipt.
    Receipt,
}
