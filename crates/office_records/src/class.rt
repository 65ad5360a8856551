//! Classes of records, each with its disposal schedule.
ghost use Rattle.std.specs.Prelude.{◌≡◌, IfOk};

use crate::{Code, Text};
use office_base::Memory;
use std::alloc::Global;

/// A class of records, with the code of its disposal schedule.
#[derive(Drop)]
pub struct Class {
    pub title: Text,
    pub schedule: Code,
}

impl Class {
    /// A second class that is equal to this one; `Memory` where there is none for it.
    pub fn copy(&self, alloc: Global) -> Result<Class, Memory>
        ensures { IfOk result (λ c. c ≡ self.now) }
    {
        Ok(Class {
            title: self.title.copy(alloc)?,
            schedule: self.schedule.copy(alloc)?,
        })
    }
}
