//! What a disposal run does with one record, by how far its disposal has come.
ghost use Rattle.std.specs.Prelude.{◌≡◌, Some, if◌then◌else◌};
ghost use Rattle.office_rules.specs.declared.outcome.Outcome.TheVariants.{Skipped};
ghost use Rattle.office_rules.specs.Disposing.{outcome_by};

use office_records::{Action, Status};
use office_rules::Outcome;

/// That end, or `Skipped` where a hold keeps the record from it.
fn unless_held(ending: Outcome, held: bool) -> Outcome
    ensures { result ≡ (if held then Skipped else ending) }
{
    if held { Outcome::Skipped } else { ending }
}

/// What comes of a record of that status whose plan has that action; `None` where a run does not
/// take it. A held record is sent all the same, and skipped where it would be ended.
pub(crate) fn outcome_by(status: Status, action: Action, held: bool) -> Option<Outcome>
    ensures { result ≡ outcome_by (Some status) (Some action) held }
{
    match (status, action) {
        (Status::Here, Action::Transfer) => Some(Outcome::Sent),
        (Status::Here, Action::Destroy) => Some(unless_held(Outcome::Destroyed, held)),
        (Status::Received, _) => Some(unless_held(Outcome::Transferred, held)),
        _ => None,
    }
}
