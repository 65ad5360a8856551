//! Which records a list of due records has.
ghost use Rattle.std.specs.Prelude.{◌≡◌, IsTrue};
ghost use Rattle.office_records.specs.Tree.{has_record};
ghost use Rattle.office_machine.specs.Selections.{due_selected, selects_due};

use office_days::{ConfirmDays, Day, DueDay, deadline};
use office_records::{RecordNo, Status};
use office_tree::Tree;

/// Which records a list has. It has only records that are here.
#[derive(Clone, Copy)]
pub(crate) enum Selection {
    /// The records that are due on that day or before it.
    Due(Day),
    /// Those whose deadline, so many days after the due day, is before that day, and of which no
    /// confirmation counts.
    Overdue(Day, ConfirmDays),
}

impl Selection {
    /// Whether it has the record, which is here and has that due day.
    fn selects_due(&self, tree: &Tree, record_no: RecordNo, due: DueDay) -> bool
        requires { IsTrue (has_record tree.now record_no) }
        ensures { result ≡ selects_due self.now tree.now record_no due }
    {
        match self {
            Selection::Due(day) => due.reached(*day),
            Selection::Overdue(day, days) => {
                deadline(due, *days).passed(*day) && !tree.counts(record_no)
            }
        }
    }

    /// The due day of a record that it has.
    pub(crate) fn due_selected(&self, tree: &Tree, record_no: RecordNo) -> Option<DueDay>
        requires { IsTrue (has_record tree.now record_no) }
        ensures { result ≡ due_selected self.now tree.now record_no }
    {
        if tree.status(record_no) != Status::Here {
            return None;
        }
        match tree.due_of(record_no) {
            Some(due) if self.selects_due(tree, record_no, due) => Some(due),
            _ => None,
        }
    }
}
