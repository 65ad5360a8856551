//! Disposal runs as the office stores them.
ghost use Rattle.std.specs.Prelude.{◌≡◌, IfOk};

use office_base::Memory;
use office_days::Day;
use office_records::{RecordNo, Text};
use std::alloc::Global;

/// A disposal run: the day for which it looks at due days, who opened it, and the last record that
/// it took, 0 at first.
#[derive(Drop)]
pub struct Run {
    pub day: Day,
    pub by: Text,
    pub cursor: RecordNo,
    /// Whether it is over: it takes no other record, and has its certificate.
    pub is_closed: bool,
}

impl Run {
    /// A second run that is equal to this one; `Memory` where there is none for it.
    pub fn copy(&self, alloc: Global) -> Result<Run, Memory>
        ensures { IfOk result (λ run. run ≡ self.now) }
    {
        Ok(Run {
            day: self.day,
            by: self.by.copy(alloc)?,
            cursor: self.cursor,
            is_closed: self.is_closed,
        })
    }
}
