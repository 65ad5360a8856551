//! What is derived from the rows of a tree, so that readings need not go over all rows.
ghost use Rattle.std.specs.Prelude.{IfOk};
ghost use Rattle.office_records.specs.Sound.{IsSound};
ghost use Rattle.office_records.specs.Tree.{empty_tree};
ghost use Rattle.office_tree.specs.Derived.{IsDerived};

use crate::child_lists::{ChildLists, link_aggregations, link_records};
use crate::class_index::{ClassIndex, class_index_of};
use crate::directory::Directory;
use crate::per_record::PerRecord;
use crate::record_caches::RecordCaches;
use crate::ref_index::{index_of_aggregations, index_of_records};
use crate::renewal::record_caches_of;
use crate::rows::Rows;
use crate::schedule_numbers::{ScheduleNumbers, schedule_numbers_of};
use crate::summary::summaries_of;
use office_base::Memory;
use std::alloc::Global;
use std::collections::BTreeMap;

/// What is derived from the rows of a tree: a directory of them, and what is computed of each
/// record from its head and the directory. `IsDerived` says that it is right.
#[derive(Drop)]
pub(crate) struct Derived {
    pub(crate) directory: Directory,
    pub(crate) per_record: PerRecord,
}

impl Derived {
    /// Of no rows.
    pub(crate) fn new(alloc: Global) -> Derived
        ensures { IsDerived empty_tree result }
    {
        Derived {
            directory: Directory {
                by_aggregation_ref: BTreeMap::new(alloc),
                by_record_ref: BTreeMap::new(alloc),
                schedule_numbers: ScheduleNumbers::new(alloc),
                summaries: Vec::new(alloc),
                records_in: ChildLists::new(alloc),
                aggregations_in: ChildLists::new(alloc),
            },
            per_record: PerRecord {
                record_caches: RecordCaches::new(alloc),
                class_index: ClassIndex::new(alloc),
            },
        }
    }

    /// Of these rows.
    pub(crate) fn of(alloc: Global, rows: &Rows<'_>) -> Result<Derived, Memory>
        requires { IsSound rows.now }
        ensures { IfOk result (IsDerived rows.now) }
    {
        let schedule_numbers = schedule_numbers_of(alloc, rows.schedules)?;
        let summaries = summaries_of(alloc, rows.aggregations, rows.records, rows.statuses)?;
        let by_aggregation_ref = index_of_aggregations(alloc, rows.aggregations)?;
        let by_record_ref = index_of_records(alloc, rows.records)?;
        let records_in = link_records(alloc, rows.aggregations.len(), rows.records)?;
        let aggregations_in = link_aggregations(alloc, rows.aggregations)?;
        let directory = Directory {
            by_aggregation_ref,
            by_record_ref,
            schedule_numbers,
            summaries,
            records_in,
            aggregations_in,
        };
        let record_caches = record_caches_of(alloc, rows, &directory)?;
        let class_index = class_index_of(alloc, rows)?;
        Ok(Derived {
            directory,
            per_record: PerRecord {
                record_caches,
                class_index,
            },
        })
    }
}
