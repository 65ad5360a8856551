//! A tree made of its parts, where these are sound.
ghost use Rattle.std.specs.Prelude.{◌≡◌, ◌↔◌, ◌<◌, ◌≤◌, ℕ, IsTrue, IfOk, IfSome, MatchOption, true, false, length, nat_le, Some};
ghost use Rattle.std.specs.BTreeMap as map;
ghost use Rattle.std.specs.FinMap.{contains_key, from_entries, len};
ghost use Rattle.std.specs.List.{All};
ghost use Rattle.std.specs.Option.{unwrap_or};
ghost use Rattle.office_records.specs.Loading.{is_aggregation_named, is_placed, is_record_named, is_there, is_within_limits, tree_of};
ghost use Rattle.office_records.specs.Lists.{numbered};
ghost use Rattle.office_records.specs.Sound.{IsSound, NamesExist, RootsHaveClasses};
ghost use Rattle.office_records.specs.Tree.{chain, chain_of, code_cmp};
ghost use Rattle.office_records.specs.declared.aggregation.Aggregation.{Aggregation};

use crate::Tree;
use crate::derived::Derived;
use crate::rows::Rows;
use office_base::Memory;
use office_records::{AggNo, Aggregation, Class, Code, Event, Record, RecordNo, Schedule, Status};
use std::alloc::Global;
use std::collections::BTreeMap;

/// How many schedules or classes have codes.
fn count<V>(by_code: &BTreeMap<Code, V>) -> usize
    ensures { result ≡ len (from_entries {R = code_cmp} by_code.now.entries) }
{
    by_code.len()
}

/// Whether there is a schedule or class of that code.
fn has<V>(by_code: &BTreeMap<Code, V>, code: &Code) -> bool
    ensures { result ≡ contains_key (from_entries {R = code_cmp} by_code.now.entries) code.now }
{
    by_code.contains_key(code)
}

/// The same, of a code that may not be given.
fn is_there<V>(by_code: &BTreeMap<Code, V>, code: &Option<Code>) -> bool
    ensures { result ≡ is_there (from_entries {R = code_cmp} by_code.now.entries) code.now }
{
    match code {
        Some(code) => has(by_code, code),
        None => true,
    }
}

/// Whether there are no more of each than the office takes.
fn is_within_limits(
    schedules: &BTreeMap<Code, Schedule>,
    classes: &BTreeMap<Code, Class>,
    aggregations: &[Aggregation],
    records: &[Record],
) -> bool
    ensures { result
        ≡ is_within_limits (from_entries {R = code_cmp} schedules.now.entries)
        (from_entries {R = code_cmp} classes.now.entries) aggregations.now records.now }
{
    count(schedules) <= 1_000
        && count(classes) <= 1_000
        && aggregations.len() <= 50_000
        && records.len() <= 200_000
}

/// Whether the schedules of the classes are there.
fn are_classes_named(schedules: &BTreeMap<Code, Schedule>, classes: &BTreeMap<Code, Class>) -> bool
    ensures all { IsTrue result
        ↔ All
        (λ it. contains_key (from_entries {R = code_cmp} schedules.now.entries) it.schedule
        ≡ true) (map.values classes.now) }
    ensures ordered { map.IsOrdered code_cmp classes.now }
{
    classes.values().all(|it| has(schedules, &it.schedule))
}

/// Whether the aggregation's class is there; a root has one.
fn is_aggregation_named(classes: &BTreeMap<Code, Class>, it: &Aggregation) -> bool
    ensures { result
        ≡ is_aggregation_named (from_entries {R = code_cmp} classes.now.entries) it.now }
{
    is_there(classes, &it.class) && (it.parent.is_some() || it.class.is_some())
}

/// Whether the classes of the aggregations are there.
fn are_aggregations_named(classes: &BTreeMap<Code, Class>, aggregations: &[Aggregation]) -> bool
    ensures { IsTrue result
        ↔ All
        (λ it. is_aggregation_named (from_entries {R = code_cmp} classes.now.entries) it ≡ true)
        aggregations.now }
{
    aggregations
        .iter()
        .all(|it| is_aggregation_named(classes, it))
}

/// Whether the aggregation, the class and the schedule of a record are there.
fn is_record_named(
    schedules: &BTreeMap<Code, Schedule>,
    classes: &BTreeMap<Code, Class>,
    count: usize,
    head: &Record,
) -> bool
    ensures { result
        ≡ is_record_named (from_entries {R = code_cmp} schedules.now.entries)
        (from_entries {R = code_cmp} classes.now.entries) count head.now }
{
    1 <= head.aggregation
        && head.aggregation as usize <= count
        && is_there(classes, &head.class)
        && is_there(schedules, &head.schedule)
}

/// Whether the aggregations, classes and schedules of the records are there.
fn are_records_named(
    schedules: &BTreeMap<Code, Schedule>,
    classes: &BTreeMap<Code, Class>,
    count: usize,
    records: &[Record],
) -> bool
    ensures { IsTrue result
        ↔ All
        (λ head. is_record_named (from_entries {R = code_cmp} schedules.now.entries)
        (from_entries {R = code_cmp} classes.now.entries) count head ≡ true)
        records.now }
{
    records
        .iter()
        .all(|head| is_record_named(schedules, classes, count, head))
}

/// Whether all that is named is there, and each root has a class.
fn do_names_exist(
    schedules: &BTreeMap<Code, Schedule>,
    classes: &BTreeMap<Code, Class>,
    aggregations: &[Aggregation],
    records: &[Record],
) -> bool
    ensures yes { IsTrue result
        → NamesExist (from_entries {R = code_cmp} schedules.now.entries)
        (from_entries {R = code_cmp} classes.now.entries) aggregations.now records.now }
    ensures no { result ≡ false
        → NamesExist (from_entries {R = code_cmp} schedules.now.entries)
        (from_entries {R = code_cmp} classes.now.entries) aggregations.now records.now → ⊥ }
{
    if !are_classes_named(schedules, classes) {
        return false;
    }
    if !are_aggregations_named(classes, aggregations) {
        return false;
    }
    are_records_named(schedules, classes, aggregations.len(), records)
}

/// Whether the parent's number is smaller, and it is not a closed one over an open one.
fn is_placed(aggregations: &[Aggregation], number: usize) -> bool
    requires low { 0 < number }
    requires high { number ≤ length aggregations.now }
    ensures { (it : Aggregation) → numbered aggregations.now number ≡ Some it
        → result ≡ is_placed aggregations.now number it it.parent }
{
    let it = &aggregations[number - 1];
    match it.parent {
        None => true,
        Some(parent) => {
            if parent == 0 || parent as usize >= number {
                return false;
            }
            it.closed.is_some() || aggregations[parent as usize - 1].closed.is_none()
        }
    }
}

/// Whether parents have smaller numbers, and no open aggregation has a closed one.
fn are_placed(aggregations: &[Aggregation]) -> bool
    ensures yes { IsTrue result → (a : ℕ) (it : Aggregation) → numbered aggregations.now a ≡ Some it
        → is_placed aggregations.now a it it.parent ≡ true }
    ensures no { result ≡ false
        → ((a : ℕ) (it : Aggregation) → numbered aggregations.now a ≡ Some it
        → is_placed aggregations.now a it it.parent ≡ true) → ⊥ }
{
    for i in 0..aggregations.len() {
        if !is_placed(aggregations, i + 1) {
            return false;
        }
    }
    true
}

/// Whether no more than so many contain each other from this one on.
fn is_low(aggregations: &[Aggregation], next: Option<AggNo>, steps: u32) -> bool
    requires below { (a p : ℕ) (it : Aggregation) → numbered aggregations.now a ≡ Some it
        → it.parent ≡ Some p → (0 < p) × (p < a) }
    requires roots { RootsHaveClasses aggregations.now }
    requires within { IfSome next (λ a. (0 < a) × (a ≤ length aggregations.now)) }
    ensures { result ≡ nat_le (length (chain aggregations.now (unwrap_or next 0) next)) steps }
{
    match next {
        None => true,
        Some(at) => {
            if steps == 0 {
                return false;
            }
            let it = &aggregations[at as usize - 1];
            is_low(aggregations, it.parent, steps - 1)
        }
    }
}

/// Whether the depths are at most eight.
fn are_low(aggregations: &[Aggregation]) -> bool
    requires below { (a p : ℕ) (it : Aggregation) → numbered aggregations.now a ≡ Some it
        → it.parent ≡ Some p → (0 < p) × (p < a) }
    requires roots { RootsHaveClasses aggregations.now }
    requires few { length aggregations.now ≤ 50_000 }
    ensures yes { IsTrue result → (a : ℕ) → length (chain_of aggregations.now a) ≤ 8 }
    ensures no { result ≡ false → ((a : ℕ) → length (chain_of aggregations.now a) ≤ 8) → ⊥ }
{
    for i in 0..aggregations.len() {
        if !is_low(aggregations, Some(i as AggNo + 1), 8) {
            return false;
        }
    }
    true
}

/// Whether the parts hang together.
fn are_sound(
    schedules: &BTreeMap<Code, Schedule>,
    classes: &BTreeMap<Code, Class>,
    aggregations: &[Aggregation],
    records: &[Record],
    statuses: &[Status],
    events: &BTreeMap<RecordNo, Event>,
) -> bool
    ensures yes { IsTrue result
        → IsSound (tree_of schedules.now.entries classes.now.entries aggregations.now records.now
        statuses.now events.now.entries) }
    ensures no { result ≡ false
        → IsSound (tree_of schedules.now.entries classes.now.entries aggregations.now records.now
        statuses.now events.now.entries) → ⊥ }
{
    if !is_within_limits(schedules, classes, aggregations, records) {
        return false;
    }
    if !do_names_exist(schedules, classes, aggregations, records) {
        return false;
    }
    if !are_placed(aggregations) {
        return false;
    }
    if !are_low(aggregations) {
        return false;
    }
    statuses.len() == records.len()
}

impl Tree {
    /// The tree of these parts, with what is derived from them; `None` exactly where they do not
    /// hang together. They do where there are no more of each than the office takes, all that is
    /// named is there, each root has a class, a parent has a smaller number than its child and is
    /// not closed over an open one, depths are at most eight, and each record has one status. What
    /// the events say, and whether refs differ, is not looked at. `Memory` comes where there is
    /// none for what is derived.
    pub fn of_parts(
        alloc: Global,
        schedules: BTreeMap<Code, Schedule>,
        classes: BTreeMap<Code, Class>,
        aggregations: Vec<Aggregation>,
        records: Vec<Record>,
        statuses: Vec<Status>,
        events: BTreeMap<RecordNo, Event>,
    ) -> Result<Option<Tree>, Memory>
        ensures { IfOk result
            (λ found. MatchOption found
            (IsSound (tree_of schedules.entries classes.entries aggregations.items records.items
            statuses.items events.entries) → ⊥)
            (λ tree. tree
            ≡ tree_of schedules.entries classes.entries aggregations.items records.items
            statuses.items events.entries)) }
    {
        if !are_sound(
            &schedules,
            &classes,
            &aggregations,
            &records,
            &statuses,
            &events,
        ) {
            return Ok(None);
        }
        let rows = Rows {
            schedules: &schedules,
            classes: &classes,
            aggregations: &aggregations,
            records: &records,
            statuses: &statuses,
            events: &events,
        };
        let derived = Derived::of(alloc, &rows)?;
        Ok(Some(Tree {
            schedules,
            classes,
            aggregations,
            records,
            statuses,
            events,
            derived,
        }))
    }
}
