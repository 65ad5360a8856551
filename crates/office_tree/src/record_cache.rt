//! What is derived of one record from the rows.
use crate::schedule_numbers::ScheduleNo;
use office_days::DueDay;

/// What is cached of a record: the number of its schedule in effect, its due day, and whether a
/// disposal run takes it once it is due.
#[derive(Clone, Copy, PartialEq, Eq, Debug)]
pub(crate) struct RecordCache {
    pub(crate) plan: ScheduleNo,
    pub(crate) due: Option<DueDay>,
    pub(crate) is_candidate: bool,
}
