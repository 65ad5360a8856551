//! Why an act is refused, by a table of conditions.
ghost use Rattle.std.specs.Prelude.{◌≡◌};
ghost use Rattle.office_records.specs.Conditions.{first_of};

use office_base::Refusal;

/// The refusal of the first condition that holds, if one does. A table names its conditions in the
/// order of the refusals' numbers, so the answer is the one with the least number.
pub fn first_of(conditions: &[(Refusal, bool)]) -> Option<Refusal>
    ensures { result ≡ first_of conditions.now }
{
    for (refusal, holds) in conditions {
        if *holds {
            return Some(*refusal);
        }
    }
    None
}
