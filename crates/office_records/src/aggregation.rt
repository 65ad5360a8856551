//! Aggregations: files, series and fonds, one in another.
ghost use Rattle.std.specs.Prelude.{◌≡◌, IfOk};

use crate::code::copy_code;
use crate::text::copy_both;
use crate::{Code, Text};
use office_base::Memory;
use office_days::Day;
use std::alloc::Global;

/// The number of an aggregation: 1, 2, .. in the order of addition.
pub type AggNo = u32;

/// An aggregation: a file, a series, a fonds. A root has no parent. `closed` is the day on which
/// it was closed; none while it is open.
#[derive(Drop)]
pub struct Aggregation {
    pub ref_text: Text,
    pub title: Text,
    pub parent: Option<AggNo>,
    pub class: Option<Code>,
    pub closed: Option<Day>,
}

impl Aggregation {
    /// A second aggregation that is equal to this one; `Memory` where there is none for it.
    pub fn copy(&self, alloc: Global) -> Result<Aggregation, Memory>
        ensures { IfOk result (λ a. a ≡ self.now) }
    {
        let class = copy_code(alloc, &self.class)?;
        let (ref_text, title) = copy_both(alloc, &self.ref_text, &self.title)?;
        Ok(Aggregation {
            ref_text,
            title,
            parent: self.parent,
            class,
            closed: self.closed,
        })
    }
}
