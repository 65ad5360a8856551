//! The office that the rows so far represent, or that there is none.
ghost use Rattle.std.specs.Prelude.{◌≡◌, IfOk, length};
ghost use Rattle.office_base.specs.Rows.{OnDamaged, numbered_rows};
ghost use Rattle.office_records.specs.Sound as sound_tree;
ghost use Rattle.office_records.specs.Tree.{TreeState};
ghost use Rattle.office_rules.specs.Loading.{AreTablesOf, HaveKeys};
ghost use Rattle.office_rules.specs.Rows.{record_rows};
ghost use Rattle.office_rules.specs.Sound.{IsSound};
ghost use Rattle.office_rules.specs.State.{ByteMap, with_contents};
ghost use Rattle.office_rules.specs.Tables.{RepresentNone};
ghost use Rattle.office_machine.specs.TreeRows.{AreTreeRows};

mod agreement;
mod entries;
pub(crate) mod records;
mod runs;

use crate::keys::ContentKeys;
use crate::loader::Loader;
use crate::parts::Parts;
use office_base::{Rebuild, ordered};
use office_records::{Aggregation, Class, Code, Event, Record, RecordNo, Schedule, Status};
use office_tree::Tree;
use std::alloc::Global;
use std::collections::BTreeMap;

/// The tree of these parts; damaged where there is no sound one.
fn tree_of(
    alloc: Global,
    schedules: BTreeMap<Code, Schedule>,
    classes: BTreeMap<Code, Class>,
    aggregations: Vec<Aggregation>,
    heads: Vec<Record>,
    statuses: Vec<Status>,
    events: BTreeMap<RecordNo, Event>,
) -> Result<Tree, Rebuild>
    requires { length statuses.items ≡ length heads.items }
    ensures ok { IfOk result
        (λ tree. AreTreeRows schedules.entries classes.entries (numbered_rows aggregations.items)
        (numbered_rows (record_rows heads.items statuses.items)) events.entries tree) }
    ensures damaged { OnDamaged result
        ((tree : TreeState) → sound_tree.IsSound tree
        → AreTreeRows schedules.entries classes.entries (numbered_rows aggregations.items)
        (numbered_rows (record_rows heads.items statuses.items)) events.entries tree → ⊥) }
{
    ordered(&schedules);
    ordered(&classes);
    ordered(&events);
    match Tree::of_parts(
        alloc,
        schedules,
        classes,
        aggregations,
        heads,
        statuses,
        events,
    ) {
        Ok(Some(tree)) => Ok(tree),
        Ok(None) => Err(Rebuild::Damaged),
        Err(_) => Err(Rebuild::Memory),
    }
}

impl Loader {
    /// The parts of which the rows are, and the keys of contents; damaged only where there is no
    /// sound office of such rows.
    fn parts(self) -> Result<(Parts, ContentKeys), Rebuild>
        ensures parts { IfOk result (λ p. AreTablesOf self p.0) }
        ensures keys { IfOk result (λ p. (contents : ByteMap) × HaveKeys contents self.contents) }
        ensures same_keys { IfOk result (λ p. p.1 ≡ self.contents) }
        ensures damaged { OnDamaged result (RepresentNone self) }
    {
        let Some(day) = self.day else {
            return Err(Rebuild::Damaged);
        };
        ordered(&self.entries);
        ordered(&self.certificates);
        self.contents.ascending();
        let tree = tree_of(
            self.alloc,
            self.schedules,
            self.classes,
            self.aggregations,
            self.heads,
            self.statuses,
            self.events,
        )?;
        let parts = Parts {
            tree,
            holds: self.holds,
            runs: self.runs,
            entries: self.entries,
            certificates: self.certificates,
            day,
        };
        Ok((parts, self.contents))
    }

    /// The office that the rows taken in so far represent; Damaged only where there is none, Memory
    /// where there is none for what is derived or examined. Whatever the contents of the keys that
    /// have come are, it is sound with them. Contents themselves are not asked for.
    pub fn finish(self) -> Result<Parts, Rebuild>
        ensures ok { IfOk result (λ office. AreTablesOf self office) }
        ensures sound { IfOk result
            (λ office. (contents : ByteMap) → HaveKeys contents self.contents
            → IsSound (with_contents office contents)) }
        ensures keys { IfOk result
            (λ office. (contents : ByteMap) × HaveKeys contents self.contents) }
        ensures damaged { OnDamaged result (RepresentNone self) }
    {
        let alloc = self.alloc;
        let (office, keys) = self.parts()?;
        office.tree.sound();
        match office.is_sound(alloc, keys.as_slice()) {
            Ok(true) => Ok(office),
            Ok(false) => Err(Rebuild::Damaged),
            Err(_) => Err(Rebuild::Memory),
        }
    }
}
