//! Why an act on holds is refused, as far as the register of holds can say.
ghost use Rattle.std.specs.Prelude.{◌≡◌, nat_le};
ghost use Rattle.std.specs.FinMap.{len};
ghost use Rattle.std.specs.Option.{option_copied};
ghost use Rattle.office_records.specs.Conditions.{IsLeastOf, first_of};
ghost use Rattle.office_rules.specs.HoldConditions.{conditions_of_hold_off, conditions_of_hold_on, conditions_of_leaving_class, conditions_of_lift_hold, conditions_of_place_hold};

use crate::Holds;
use office_base::Refusal;
use office_records::{Classified, Code, Target};
use office_tree::Tree;

impl Holds {
    /// Whether there are as many holds as the office takes, lifted ones counted.
    pub(crate) fn is_full(&self) -> bool
        ensures { result ≡ nat_le 1_000 (len self.now) }
    {
        self.by_code.len() >= 1_000
    }

    /// Why a new hold of that code is refused: the code is there, or there are 1,000 holds, lifted
    /// ones counted.
    pub fn check_place(&self, code: &Code) -> Option<Refusal>
        ensures first { result ≡ first_of (conditions_of_place_hold self.now code.now) }
        ensures least { IsLeastOf (conditions_of_place_hold self.now code.now) result }
    {
        if self.hold(code).is_some() {
            return Some(Refusal::Exists);
        }
        if self.is_full() {
            return Some(Refusal::Full);
        }
        None
    }

    /// Why a target is not put on a hold, by the holds alone: the hold has it, there is no such
    /// hold, it has 1,000 targets, or it is lifted.
    pub fn check_cover(&self, code: &Code, target: &Target) -> Option<Refusal>
        ensures first { result ≡ first_of (conditions_of_hold_on self.now code.now target.now) }
        ensures least { IsLeastOf (conditions_of_hold_on self.now code.now target.now) result }
    {
        let Some(hold) = self.hold(code) else {
            return Some(Refusal::NoSuch);
        };
        if hold.has(target) {
            return Some(Refusal::Exists);
        }
        if hold.is_full() {
            return Some(Refusal::Full);
        }
        if hold.is_lifted() {
            return Some(Refusal::Lifted);
        }
        None
    }

    /// Why a target is not taken off a hold: there is no such hold or it has no such target, or it
    /// is lifted.
    pub fn check_uncover(&self, code: &Code, target: &Target) -> Option<Refusal>
        ensures first { result ≡ first_of (conditions_of_hold_off self.now code.now target.now) }
        ensures least { IsLeastOf (conditions_of_hold_off self.now code.now target.now) result }
    {
        let Some(hold) = self.hold(code) else {
            return Some(Refusal::NoSuch);
        };
        if !hold.has(target) {
            return Some(Refusal::NoSuch);
        }
        if hold.is_lifted() {
            return Some(Refusal::Lifted);
        }
        None
    }

    /// Why a hold is not lifted: there is no such hold, or it is lifted already.
    pub fn check_lift(&self, code: &Code) -> Option<Refusal>
        ensures first { result ≡ first_of (conditions_of_lift_hold self.now code.now) }
        ensures least { IsLeastOf (conditions_of_lift_hold self.now code.now) result }
    {
        match self.hold(code) {
            Some(hold) if hold.is_lifted() => Some(Refusal::Lifted),
            Some(_) => None,
            None => Some(Refusal::NoSuch),
        }
    }

    /// Why an aggregation or a record is not reclassified, by the holds alone: its class would
    /// change, and a hold in force has the old one as a target. What is not there leaves no class.
    pub fn check_reclassify(
        &self,
        tree: &Tree,
        target: Classified,
        class: Option<&Code>,
    ) -> Option<Refusal>
        ensures first { result
            ≡ first_of
            (conditions_of_leaving_class self.now tree.now target (option_copied class.entry)) }
        ensures least { IsLeastOf
            (conditions_of_leaving_class self.now tree.now target (option_copied class.entry))
            result }
    {
        if self.leaves_held_class(tree, target, class) {
            return Some(Refusal::HeldClass);
        }
        None
    }
}
