//! A row of the table of holds, without its key.
ghost use Rattle.std.specs.Prelude.{◌≡◌, IfOk};

use crate::Text;
use office_base::Memory;
use office_days::Day;
use std::alloc::Global;

/// The columns of a hold beside its code: why, when and by whom it was placed, and the day on which
/// it was lifted. Its targets are rows of their own.
#[derive(Drop)]
pub struct HoldRow {
    pub reason: Text,
    pub placed: Day,
    pub placed_by: Text,
    pub lifted: Option<Day>,
}

impl HoldRow {
    /// Second columns that are equal to these; `Memory` where there is none for them.
    pub fn copy(&self, alloc: Global) -> Result<HoldRow, Memory>
        ensures { IfOk result (λ row. row ≡ self.now) }
    {
        Ok(HoldRow {
            reason: self.reason.copy(alloc)?,
            placed: self.placed,
            placed_by: self.placed_by.copy(alloc)?,
            lifted: self.lifted,
        })
    }
}
