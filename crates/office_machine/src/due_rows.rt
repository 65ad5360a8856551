//! What is due or overdue, row by row.
ghost use Rattle.std.specs.Prelude.{◌≡◌, ◌∷◌, ◌&&◌, [], IfOk, IfSome, IsNone, IsTrue, Some};
ghost use Rattle.std.specs.Option.{option_copied};
ghost use Rattle.std.specs.Ordering.{int_eq};
ghost use Rattle.office_records.specs.Disposal.{same_action};
ghost use Rattle.office_records.specs.Lists.{is_some_and};
ghost use Rattle.office_records.specs.Tree.{due_of, has_record};
ghost use Rattle.office_rules.specs.Registers.{due_row, due_reported};
ghost use Rattle.office_machine.specs.Selections.{AreSelectedRows};

use crate::due_list::due_pairs;
use crate::parts::Parts;
use crate::selection::Selection;
use office_base::Memory;
use office_days::DueDay;
use office_records::{Action, Confirmation, RecordNo};
use office_rules::DueRow;
use std::alloc::Global;
use std::collections::btree_set;
use std::marker::Model;

/// The records that are due by a day, or overdue on it, one row after another, by due day (and so
/// by deadline), then number. Contracts see the rows that are left.
#[derive(Drop)]
pub struct DueRows<'a> {
    parts: &'a Parts,
    pairs: btree_set::IntoIter<(DueDay, RecordNo)>,
}

impl<'a> Model for DueRows<'a> {
    ghost use Rattle.std.specs.Coded.{codes};
    ghost use Rattle.std.specs.Prelude.{List};
    ghost use Rattle.office_rules.specs.Registers.{DueRowView};
    ghost use Rattle.office_machine.specs.DuePairs.{AreOwnPairs, rows_of_pairs};

    ghost Value = { List DueRowView };

    ghost view = { λ rows. rows_of_pairs rows.parts.now rows.pairs };

    ghost invariant = { λ rows. AreOwnPairs rows.parts.now.tree rows.pairs };
}

/// Whether the confirmation is of that action and that due day.
fn counts(confirmation: Option<&Confirmation>, action: Action, due: DueDay) -> bool
    ensures { result
        ≡ is_some_and (option_copied confirmation.entry)
        (λ it. same_action it.action action && int_eq it.due due) }
{
    match confirmation {
        Some(confirmation) => confirmation.is_of(action, Some(due)),
        None => false,
    }
}

impl Parts {
    /// The row of a record with that due day.
    fn due_row(&self, record_no: RecordNo, due: DueDay) -> DueRow<'_>
        requires there { IsTrue (has_record self.now.tree record_no) }
        requires due { due_of self.now.tree record_no ≡ Some due }
        ensures { due_row self.now record_no ≡ Some (due_reported result) }
    {
        let tree = &self.tree;
        let head = tree.record(record_no);
        let action = tree.schedule_of(record_no).action;
        DueRow {
            number: record_no,
            ref_text: &head.ref_text,
            class: tree.class_of(record_no),
            schedule: tree.plan_of(record_no),
            action,
            due,
            held: self.holds.covering(tree, record_no),
            counts: counts(head.confirmation.as_ref(), action, due),
        }
    }

    /// The rows of the records that are selected.
    pub(crate) fn due_rows(
        &self,
        alloc: Global,
        selection: &Selection,
    ) -> Result<DueRows<'_>, Memory>
        ensures { IfOk result (λ rows. AreSelectedRows selection.now self.now rows) }
    {
        let pairs = due_pairs(alloc, &self.tree, selection)?;
        Ok(DueRows {
            parts: self,
            pairs: pairs.into_iter(),
        })
    }
}

impl<'a> DueRows<'a> {
    /// The next row, which is not reported again; none after the last.
    pub fn next_row(&mut self) -> Option<DueRow<'a>>
        ensures some { IfSome result (λ row. self.old ≡ due_reported row ∷ self.new) }
        ensures none { IsNone result → self.old ≡ [] }
        ensures ended { IsNone result → self.new ≡ [] }
    {
        match self.pairs.next() {
            Some((due, record_no)) => Some(self.parts.due_row(record_no, due)),
            None => None,
        }
    }
}
