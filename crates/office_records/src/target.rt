//! The entities that a hold can be put on.
ghost use Rattle.std.specs.Prelude.{◌≡◌, IfOk};

use crate::{AggNo, Code, RecordNo};
use office_base::Memory;
use std::alloc::Global;

/// What a hold is put on: a class by its code, an aggregation or a record by its number.
#[derive(Drop)]
pub enum Target {
    Class(Code),
    Aggregation(AggNo),
    Record(RecordNo),
}

impl Target {
    /// A second target that is equal to this one; `Memory` where there is none for it.
    pub fn copy(&self, alloc: Global) -> Result<Target, Memory>
        ensures { IfOk result (λ target. target ≡ self.now) }
    {
        match self {
            Target::Class(code) => Ok(Target::Class(code.copy(alloc)?)),
            Target::Aggregation(number) => Ok(Target::Aggregation(*number)),
            Target::Record(number) => Ok(Target::Record(*number)),
        }
    }
}
