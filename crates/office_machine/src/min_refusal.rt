//! The smaller of two refusals, where tree and holds both have conditions.
ghost use Rattle.std.specs.Prelude.{◌≡◌};
ghost use Rattle.office_machine.specs.MinRefusal.{min_refusal};

use office_base::Refusal;

/// Of two refusals, each where there is one, the one with the lesser number.
pub(crate) fn min_refusal(one: Option<Refusal>, other: Option<Refusal>) -> Option<Refusal>
    ensures { result ≡ min_refusal one other }
{
    match (one, other) {
        (Some(one), Some(other)) if other.number() < one.number() => Some(other),
        (Some(one), _) => Some(one),
        (None, other) => other,
    }
}
