//! What is derived of each aggregation: its last addition, and counts of the records below it.
ghost use Rattle.std.specs.Prelude.{◌≡◌, ◌+◌, ◌-◌, ◌<◌, ◌≤◌, IfOk, ◌&&◌, ◌==◌, count_by, false, length, map, true, ℕ};
ghost use Rattle.std.specs.List.{All};
ghost use Rattle.office_records.specs.Lists.{numbered};
ghost use Rattle.office_records.specs.Sound.{IsForest, IsSound, RootsHaveClasses};
ghost use Rattle.office_tree.specs.Summaries.{AreAdded, AreAfterStatusChange, AreSummaries, IsQuiet, is_in_chain};
ghost use Rattle.office_records.specs.Tree.{TreeState};

use crate::change_refusals::is_ended;
use crate::classification::chain_of;
use crate::due_days::later;
use office_base::Memory;
use office_days::Day;
use office_records::{AggNo, Aggregation, Record, Status};
use std::alloc::Global;

/// What is cached of an aggregation: the greatest added day of the records in it, how many records
/// are below it at any depth, and how many of these are not ended.
#[derive(Clone, Copy, PartialEq, Eq, Debug)]
pub(crate) struct AggregationSummary {
    pub(crate) last_addition: Option<Day>,
    pub(crate) records: u32,
    pub(crate) active: u32,
}

/// Adds one to the records below each aggregation of these numbers.
fn add_records(summaries: &mut [AggregationSummary], numbers: &[AggNo])
    requires within { All (λ b. (0 < b) × (b ≤ length summaries.old)) numbers.now }
    requires short { length numbers.now ≤ 8 }
    requires few { (a : ℕ) (it : AggregationSummary) → numbered summaries.old a ≡ Some it
        → it.records ≤ 200_000 }
    ensures { (a : ℕ) (it : AggregationSummary) → numbered summaries.old a ≡ Some it
        → numbered summaries.new a
        ≡ Some (record it { records = it.records + count_by (λ b. b == a) numbers.now }) }
{
    for number in numbers {
        let summary = &mut summaries[*number as usize - 1];
        summary.records += 1;
    }
}

/// Adds one to the records that are not ended below each aggregation of these numbers.
fn add_active(summaries: &mut [AggregationSummary], numbers: &[AggNo])
    requires within { All (λ b. (0 < b) × (b ≤ length summaries.old)) numbers.now }
    requires short { length numbers.now ≤ 8 }
    requires few { (a : ℕ) (it : AggregationSummary) → numbered summaries.old a ≡ Some it
        → it.active ≤ 200_000 }
    ensures { (a : ℕ) (it : AggregationSummary) → numbered summaries.old a ≡ Some it
        → numbered summaries.new a
        ≡ Some (record it { active = it.active + count_by (λ b. b == a) numbers.now }) }
{
    for number in numbers {
        let summary = &mut summaries[*number as usize - 1];
        summary.active += 1;
    }
}

/// Takes one from the records that are not ended below each aggregation of these numbers.
fn take_active(summaries: &mut [AggregationSummary], numbers: &[AggNo])
    requires within { All (λ b. (0 < b) × (b ≤ length summaries.old)) numbers.now }
    requires some { (a : ℕ) (it : AggregationSummary) → numbered summaries.old a ≡ Some it
        → count_by (λ b. b == a) numbers.now ≤ it.active }
    ensures { (a : ℕ) (it : AggregationSummary) → numbered summaries.old a ≡ Some it
        → numbered summaries.new a
        ≡ Some (record it { active = it.active - count_by (λ b. b == a) numbers.now }) }
{
    for number in numbers {
        let summary = &mut summaries[*number as usize - 1];
        summary.active -= 1;
    }
}

/// Whether an addition on that day is later than the last one to the aggregation, if there is one.
pub(crate) fn is_later(summaries: &[AggregationSummary], aggregation: AggNo, day: Day) -> bool
    requires low { 0 < aggregation }
    requires high { aggregation ≤ length summaries.now }
    ensures { result ≡ false → IsQuiet summaries.now aggregation day }
{
    match summaries[aggregation as usize - 1].last_addition {
        Some(last) => last < day,
        None => false,
    }
}

/// Notes that a record was added to its aggregation on that day.
pub(crate) fn note_addition(
    summaries: &mut [AggregationSummary],
    aggregations: &[Aggregation],
    aggregation: AggNo,
    day: Day,
    is_active: bool,
)
    requires forest { IsForest aggregations.now }
    requires roots { RootsHaveClasses aggregations.now }
    requires low { 0 < aggregation }
    requires high { aggregation ≤ length aggregations.now }
    requires count { length summaries.old ≡ length aggregations.now }
    requires few { (a : ℕ) (it : AggregationSummary) → numbered summaries.old a ≡ Some it
        → (it.records ≤ 200_000) × (it.active ≤ 200_000) }
    ensures { AreAdded aggregations.now aggregation day is_active summaries.old summaries.new }
{
    let numbers = chain_of(aggregations, aggregation);
    add_records(summaries, numbers.as_slice());
    if is_active {
        add_active(summaries, numbers.as_slice());
    }
    let summary = &mut summaries[aggregation as usize - 1];
    summary.last_addition = Some(later(summary.last_addition, day));
}

/// Notes that the status of a record in that aggregation changed: whether it was active, and
/// whether it is active now.
pub(crate) fn note_status_change(
    summaries: &mut [AggregationSummary],
    aggregations: &[Aggregation],
    aggregation: AggNo,
    was_active: bool,
    is_active: bool,
)
    requires forest { IsForest aggregations.now }
    requires roots { RootsHaveClasses aggregations.now }
    requires low { 0 < aggregation }
    requires high { aggregation ≤ length aggregations.now }
    requires count { length summaries.old ≡ length aggregations.now }
    requires few { (a : ℕ) (it : AggregationSummary) → numbered summaries.old a ≡ Some it
        → it.active ≤ 200_000 }
    requires some { (a : ℕ) (it : AggregationSummary) → numbered summaries.old a ≡ Some it
        → (is_in_chain aggregations.now aggregation a && was_active) ≡ true → 0 < it.active }
    ensures { AreAfterStatusChange aggregations.now aggregation was_active is_active summaries.old
        summaries.new }
{
    if was_active == is_active {
        return;
    }
    let numbers = chain_of(aggregations, aggregation);
    if is_active {
        add_active(summaries, numbers.as_slice());
    } else {
        take_active(summaries, numbers.as_slice());
    }
}

/// What is cached of these aggregations where there are no records.
fn fresh_summaries(
    alloc: Global,
    aggregations: &[Aggregation],
) -> Result<Vec<AggregationSummary>, Memory>
    ensures { IfOk result
        (λ summaries. summaries.items
        ≡ map (λ _. record { last_addition = None; records = 0; active = 0 }) aggregations.now) }
{
    let summaries = aggregations
        .iter()
        .map(|_| AggregationSummary {
            last_addition: None,
            records: 0,
            active: 0,
        })
        .collect(alloc)?;
    Ok(summaries)
}

/// Notes that these records were added, where there were none.
fn note_additions(
    summaries: &mut [AggregationSummary],
    aggregations: &[Aggregation],
    records: &[Record],
    statuses: &[Status],
)
    requires forest { IsForest aggregations.now }
    requires roots { RootsHaveClasses aggregations.now }
    requires containers { (r : ℕ) (head : Record) → numbered records.now r ≡ Some head
        → (0 < head.aggregation) × (head.aggregation ≤ length aggregations.now) }
    requires few { length records.now ≤ 200_000 }
    requires statuses { length statuses.now ≡ length records.now }
    requires fresh { summaries.old
        ≡ map (λ _. record { last_addition = None; records = 0; active = 0 }) aggregations.now }
    ensures { (tree : TreeState) → tree.aggregations ≡ aggregations.now → tree.records ≡ records.now
        → tree.statuses ≡ statuses.now → AreSummaries tree summaries.new }
{
    for (i, head) in records.iter().enumerate() {
        let is_active = !is_ended(Some(statuses[i]));
        note_addition(
            summaries,
            aggregations,
            head.aggregation,
            head.added,
            is_active,
        );
    }
}

/// What is cached of these aggregations with these records.
pub(crate) fn summaries_of(
    alloc: Global,
    aggregations: &[Aggregation],
    records: &[Record],
    statuses: &[Status],
) -> Result<Vec<AggregationSummary>, Memory>
    requires forest { IsForest aggregations.now }
    requires roots { RootsHaveClasses aggregations.now }
    requires containers { (r : ℕ) (head : Record) → numbered records.now r ≡ Some head
        → (0 < head.aggregation) × (head.aggregation ≤ length aggregations.now) }
    requires few { length records.now ≤ 200_000 }
    requires statuses { length statuses.now ≡ length records.now }
    ensures { IfOk result
        (λ summaries. (tree : TreeState) → IsSound tree → tree.aggregations ≡ aggregations.now
        → tree.records ≡ records.now → tree.statuses ≡ statuses.now
        → AreSummaries tree summaries.items) }
{
    let mut summaries = fresh_summaries(alloc, aggregations)?;
    note_additions(summaries.as_mut_slice(), aggregations, records, statuses);
    Ok(summaries)
}
