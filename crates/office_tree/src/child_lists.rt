//! What is in each aggregation, as linked lists: its records, or the aggregations in it.
ghost use Rattle.std.specs.Prelude.{◌≡◌, ◌++◌, ◌∷◌, ◌+◌, ◌<◌, ◌≤◌, ℕ, List, [], IfOk, IfSome, OnOk, Some, length, vec_len, vec_capacity};
ghost use Rattle.std.specs.Option.{unwrap_or};
ghost use Rattle.office_tree.specs.ChildLists.{AreLinked, HasChildren, containers_of};
ghost use Rattle.office_records.specs.Lists.{numbered};
ghost use Rattle.office_records.specs.declared.aggregation.Aggregation.{Aggregation};
ghost use Rattle.office_records.specs.declared.head.Record.{Record};

use crate::new_rows::push_row;
use office_base::Memory;
use office_records::{AggNo, Aggregation, Record};
use std::alloc::Global;

/// The number of a record, or of an aggregation in another.
type EntityNo = u32;

/// What is in each aggregation, linked, so that it is gone through without the others, records and
/// aggregations alike: for each aggregation the number of the last entity in it, for each entity
/// that of the one before it in the same aggregation, 0 for none.
#[derive(Drop)]
pub(crate) struct ChildLists {
    pub(crate) last: Vec<EntityNo>,
    pub(crate) before: Vec<EntityNo>,
}

impl ChildLists {
    /// No aggregations, and nothing in them.
    pub(crate) fn new(alloc: Global) -> ChildLists
        ensures last { result.last.items ≡ [] }
        ensures before { result.before.items ≡ [] }
    {
        ChildLists {
            last: Vec::new(alloc),
            before: Vec::new(alloc),
        }
    }

    /// The number of the last entity in the aggregation; 0 for none.
    pub(crate) fn last(&self, aggregation: AggNo) -> EntityNo
        requires low { 0 < aggregation }
        requires high { aggregation ≤ length self.now.last.items }
        ensures { numbered self.now.last.items aggregation ≡ Some result }
    {
        self.last[aggregation as usize - 1]
    }

    /// The number of the entity before this one in the same aggregation; 0 for none.
    pub(crate) fn before(&self, entity: EntityNo) -> EntityNo
        requires low { 0 < entity }
        requires high { entity ≤ length self.now.before.items }
        ensures { numbered self.now.before.items entity ≡ Some result }
    {
        self.before[entity as usize - 1]
    }

    /// Makes room for the list of one more aggregation.
    pub(crate) fn make_list_room(&mut self) -> Result<(), Memory>
        ensures last { self.new.last.items ≡ self.old.last.items }
        ensures before { self.new.before.items ≡ self.old.before.items }
        ensures room { OnOk result (vec_len self.new.last < vec_capacity self.new.last) }
    {
        self.last.try_reserve(1)?;
        Ok(())
    }

    /// Makes room for one more entity.
    pub(crate) fn make_entity_room(&mut self) -> Result<(), Memory>
        ensures last { self.new.last.items ≡ self.old.last.items }
        ensures before { self.new.before.items ≡ self.old.before.items }
        ensures room { OnOk result (vec_len self.new.before < vec_capacity self.new.before) }
    {
        self.before.try_reserve(1)?;
        Ok(())
    }

    /// Makes room for one more aggregation, which is an entity too.
    pub(crate) fn make_child_room(&mut self) -> Result<(), Memory>
        ensures last { self.new.last.items ≡ self.old.last.items }
        ensures before { self.new.before.items ≡ self.old.before.items }
        ensures list_room { OnOk result (vec_len self.new.last < vec_capacity self.new.last) }
        ensures entity_room { OnOk result (vec_len self.new.before < vec_capacity self.new.before) }
    {
        self.last.try_reserve(1)?;
        self.before.try_reserve(1)?;
        Ok(())
    }

    /// Adds the list of the next aggregation, for which there is room.
    pub(crate) fn add_list(&mut self)
        requires { vec_len self.old.last < vec_capacity self.old.last }
        ensures linked { (containers : List ℕ) (count : ℕ)
            → AreLinked containers count self.old.last.items self.old.before.items
            → AreLinked containers (count + 1) self.new.last.items self.new.before.items }
        ensures before { self.new.before ≡ self.old.before }
    {
        push_row(&mut self.last, 0);
    }

    /// Adds the next entity, for which there is room, to the aggregation.
    pub(crate) fn add_entity(&mut self, aggregation: AggNo)
        requires room { vec_len self.old.before < vec_capacity self.old.before }
        requires few { length self.old.before.items ≤ 200_000 }
        requires low { 0 < aggregation }
        requires high { aggregation ≤ length self.old.last.items }
        ensures { (containers : List ℕ) (count : ℕ)
            → AreLinked containers count self.old.last.items self.old.before.items
            → AreLinked (containers ++ aggregation ∷ []) count self.new.last.items
            self.new.before.items }
    {
        let before = self.last(aggregation);
        push_row(&mut self.before, before);
        self.last[aggregation as usize - 1] = self.before.len() as EntityNo;
    }

    /// Adds the next entity, for which there is room, which is in no aggregation.
    pub(crate) fn add_outside(&mut self)
        requires { vec_len self.old.before < vec_capacity self.old.before }
        ensures { (containers : List ℕ) (count : ℕ)
            → AreLinked containers count self.old.last.items self.old.before.items
            → AreLinked (containers ++ 0 ∷ []) count self.new.last.items self.new.before.items }
    {
        push_row(&mut self.before, 0);
    }

    /// Adds the next entity, for which there is room, to the aggregation that is its parent, if
    /// it has one.
    pub(crate) fn add_child(&mut self, parent: Option<AggNo>)
        requires room { vec_len self.old.before < vec_capacity self.old.before }
        requires few { length self.old.before.items ≤ 200_000 }
        requires within { IfSome parent (λ p. (0 < p) × (p ≤ length self.old.last.items)) }
        ensures { (containers : List ℕ) (count : ℕ)
            → AreLinked containers count self.old.last.items self.old.before.items
            → AreLinked (containers ++ unwrap_or parent 0 ∷ []) count self.new.last.items
            self.new.before.items }
    {
        match parent {
            Some(aggregation) => self.add_entity(aggregation),
            None => self.add_outside(),
        }
    }
}

/// So many aggregations with nothing in them.
fn empty_child_lists(alloc: Global, count: usize) -> Result<ChildLists, Memory>
    ensures { IfOk result
        (λ child_lists. AreLinked [] count child_lists.last.items child_lists.before.items) }
{
    let mut child_lists = ChildLists::new(alloc);
    for _i in 0..count {
        child_lists.make_list_room()?;
        child_lists.add_list();
    }
    Ok(child_lists)
}

/// So many aggregations with these records.
pub(crate) fn link_records(
    alloc: Global,
    count: usize,
    records: &[Record],
) -> Result<ChildLists, Memory>
    requires within { (r : ℕ) (head : Record) → numbered records.now r ≡ Some head
        → (0 < head.aggregation) × (head.aggregation ≤ count) }
    requires few { length records.now ≤ 200_000 }
    ensures { IfOk result
        (λ child_lists. AreLinked (containers_of records.now) count child_lists.last.items
        child_lists.before.items) }
{
    let mut child_lists = empty_child_lists(alloc, count)?;
    for i in 0..records.len() {
        child_lists.make_entity_room()?;
        child_lists.add_entity(records[i].aggregation);
    }
    Ok(child_lists)
}

/// These aggregations, each in its parent.
pub(crate) fn link_aggregations(
    alloc: Global,
    aggregations: &[Aggregation],
) -> Result<ChildLists, Memory>
    requires within { (a : ℕ) (it : Aggregation) → numbered aggregations.now a ≡ Some it
        → IfSome it.parent (λ p. (0 < p) × (p ≤ length aggregations.now)) }
    requires few { length aggregations.now ≤ 50_000 }
    ensures { IfOk result
        (λ child_lists. HasChildren aggregations.now child_lists.last.items
        child_lists.before.items) }
{
    let mut child_lists = empty_child_lists(alloc, aggregations.len())?;
    for i in 0..aggregations.len() {
        child_lists.make_entity_room()?;
        child_lists.add_child(aggregations[i].parent);
    }
    Ok(child_lists)
}
