//! The walk over all records that lists what is due, or what is overdue.
ghost use Rattle.std.specs.Prelude.{IfOk};
ghost use Rattle.office_machine.specs.Selections.{AreSelectedPairs, IsSelectedList};

use crate::selection::Selection;
use office_base::Memory;
use office_days::DueDay;
use office_records::RecordNo;
use office_tree::Tree;
use std::alloc::Global;
use std::collections::BTreeSet;

/// The records that are selected, each by its due day and number. A deadline is as many days after
/// each due day, so the order is that of deadlines too.
pub(crate) fn due_pairs(
    alloc: Global,
    tree: &Tree,
    selection: &Selection,
) -> Result<BTreeSet<(DueDay, RecordNo)>, Memory>
    ensures { IfOk result (λ pairs. AreSelectedPairs selection.now tree.now pairs.keys) }
{
    let mut pairs = BTreeSet::new(alloc);
    for before in 0..tree.record_count() {
        let record_no = before + 1;
        if let Some(due) = selection.due_selected(tree, record_no) {
            pairs.insert((due, record_no))?;
        }
    }
    Ok(pairs)
}

/// The records that are selected, in the order of their list.
pub(crate) fn due_list(
    alloc: Global,
    tree: &Tree,
    selection: &Selection,
) -> Result<Vec<RecordNo>, Memory>
    ensures { IfOk result (λ list. IsSelectedList selection.now tree.now list.items) }
{
    let pairs = due_pairs(alloc, tree, selection)?;
    let mut list = Vec::with_capacity(alloc, pairs.len())?;
    for (_, record_no) in pairs.iter() {
        list.push(*record_no)?;
    }
    Ok(list)
}
