//! Marks of aggregations, one for each, by number.
ghost use Rattle.std.specs.Prelude.{◌≡◌, ◌==◌, ◌+◌, ◌<◌, ◌≤◌, ◌||◌, ℕ, IfOk, false, length, map, slice_index_or};
ghost use Rattle.std.specs.List.{All, list_any};
ghost use Rattle.office_rules.specs.Runs.{ended_below};
ghost use Rattle.office_machine.specs.Marks.{AreMarks};

use office_base::Memory;
use office_records::AggNo;
use office_rules::Entry;
use office_tree::Tree;
use std::alloc::Global;

/// Marks these aggregations.
fn mark(marks: &mut [bool], aggregations: &[AggNo])
    requires { All (λ a. (0 < a) × (a ≤ length marks.old)) aggregations.now }
    ensures count { length marks.new ≡ length marks.old }
    ensures each { (i : ℕ) → i < length marks.old
        → slice_index_or marks.new i false
        ≡ (slice_index_or marks.old i false || list_any (λ a. a == i + 1) aggregations.now) }
{
    for aggregation in aggregations {
        marks[*aggregation as usize - 1] = true;
    }
}

/// Marks the aggregations above the record that the entry ended.
fn mark_above(tree: &Tree, entry: &Entry, marks: &mut [bool])
    requires { length marks.old ≡ length tree.now.aggregations }
    ensures count { length marks.new ≡ length marks.old }
    ensures each { (i : ℕ) → i < length marks.old
        → slice_index_or marks.new i false
        ≡ (slice_index_or marks.old i false || ended_below tree.now (i + 1) entry.now) }
{
    if !entry.outcome.is_ending() {
        return;
    }
    if !tree.has_record(entry.record_no) {
        return;
    }
    tree.sound();
    mark(marks, &tree.above(entry.record_no));
}

/// The marks of the aggregations above the records that these entries ended.
pub(crate) fn marks_above(
    alloc: Global,
    tree: &Tree,
    entries: &[&Entry],
) -> Result<Vec<bool>, Memory>
    ensures { IfOk result
        (λ marks. AreMarks tree.now (map (λ entry. entry.now) entries.now) marks.items) }
{
    let mut marks = vec![in alloc; false; tree.aggregation_count() as usize]?;
    for entry in entries {
        mark_above(tree, entry, &mut marks);
    }
    Ok(marks)
}
