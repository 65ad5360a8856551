//! Whether a confirmation is of an action and a due day.
ghost use Rattle.std.specs.Prelude.{◌≡◌, ◌&&◌};
ghost use Rattle.std.specs.Ordering.{int_eq};
ghost use Rattle.office_records.specs.Disposal.{same_action};
ghost use Rattle.office_records.specs.Lists.{is_some_and};

use crate::{Action, Confirmation};
use office_days::DueDay;

/// Whether the two are one action.
pub fn same_action(one: Action, other: Action) -> bool
    ensures { result ≡ same_action one other }
{
    one == other
}

/// Whether the due day, if there is one, is that of the confirmation.
fn is_same_due(confirmed: DueDay, due: Option<DueDay>) -> bool
    ensures { result ≡ is_some_and due (int_eq confirmed) }
{
    match due {
        Some(due) => confirmed == due,
        None => false,
    }
}

impl Confirmation {
    /// Whether it is of that action and that due day; it counts only where these are the record's.
    pub fn is_of(&self, action: Action, due: Option<DueDay>) -> bool
        ensures { result ≡ same_action self.now.action action
            && is_some_and due (int_eq self.now.due) }
    {
        if !same_action(self.action, action) {
            return false;
        }
        is_same_due(self.due, due)
    }
}
