//! The event with which a record's retention period may begin.
ghost use Rattle.std.specs.Prelude.{◌≡◌, IfOk};

use crate::Text;
use office_base::Memory;
use office_days::Day;
use std::alloc::Global;

/// An event of a record, such as the end of a contract: the day on which it occurred, the day of
/// the act that recorded it, and who reported it. A later act records another event in place of the
/// earlier one.
#[derive(Drop)]
pub struct Event {
    pub occurred: Day,
    pub day: Day,
    pub by: Text,
}

impl Event {
    /// A second event that is equal to this one; `Memory` where there is none for it.
    pub fn copy(&self, alloc: Global) -> Result<Event, Memory>
        ensures { IfOk result (λ e. e ≡ self.now) }
    {
        Ok(Event {
            occurred: self.occurred,
            day: self.day,
            by: self.by.copy(alloc)?,
        })
    }
}
