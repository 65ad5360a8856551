//! What a request without a body asks for, with the numbers and days of its path.
use office_days::{ConfirmDays, Day};

/// What a request without a body asks for. What its path does not write is `None`: a number is 1 to
/// 4,294,967,295, without leading zeros; a count of days is 3,650 at most, leading zeros allowed.
#[derive(Clone, Copy, PartialEq, Eq, Debug)]
pub enum PathRequest {
    /// Go on with the open run, to its end.
    Resume,
    /// The record with that number.
    Record(Option<u32>),
    /// The content of the record with that number.
    Content(Option<u32>),
    /// The records that are due on that day.
    Due(Option<Day>),
    /// The records whose deadline, so many days after their due day, is before that day, and of
    /// which no confirmation counts now.
    Overdue(Option<Day>, Option<ConfirmDays>),
    /// The certificate of the run with that number.
    Certificate(Option<u32>),
}
