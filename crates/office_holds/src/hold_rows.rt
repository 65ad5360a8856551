//! Holds loaded from their rows: columns and targets, appended in the order of their keys.
ghost use Rattle.std.specs.Prelude.{◌≡◌, ◌++◌, ◌∷◌, [], true, false, ℕ, List, IsTrue, OnErr, OnOk};
ghost use Rattle.office_base.specs.Rows.{OnDamaged};
ghost use Rattle.office_rules.specs.HoldEffects.{held_on};
ghost use Rattle.office_rules.specs.HoldForms.{FitsHoldLimits};
ghost use Rattle.office_rules.specs.HoldLoading.{AreRowsOf, IsAbove, hold_rows, takes_target};
ghost use Rattle.office_rules.specs.Holds.{HoldMap};
ghost use Rattle.office_records.specs.declared.hold_row.HoldRow.{HoldRow};
ghost use Rattle.office_records.specs.declared.target.Target.{Target};

use crate::Holds;
use office_base::{Rebuild, follows};
use office_records::{Code, HoldRow, Target};

impl Holds {
    /// Puts a hold of these columns after the others, without targets; damaged only where no holds
    /// within their limits have rows that begin with those of these and this one.
    pub fn push_row(&mut self, code: Code, row: HoldRow) -> Result<(), Rebuild>
        ensures ok { OnOk result
            ((rows : List (List ℕ × HoldRow)) (targets : List (List ℕ × Target))
            → AreRowsOf rows targets self.old
            → AreRowsOf (rows ++ (code, row) ∷ []) targets self.new) }
        ensures err { OnErr result (self.new ≡ self.old) }
        ensures damaged { OnDamaged result
            ((holds : HoldMap) (rest : List (List ℕ × HoldRow)) → FitsHoldLimits holds
            → hold_rows holds ≡ (hold_rows self.old ++ (code, row) ∷ []) ++ rest → ⊥) }
    {
        if self.is_full() {
            return Err(Rebuild::Damaged);
        }
        if !self.is_next(&code) {
            return Err(Rebuild::Damaged);
        }
        self.sound();
        match self.add(code, row) {
            Ok(()) => Ok(()),
            Err(_) => Err(Rebuild::Memory),
        }
    }

    /// Whether the code is above those of all the holds.
    fn is_next(&self, code: &Code) -> bool
        ensures above { IsTrue result → IsAbove self.now code.now }
        ensures not_above { result ≡ false → IsAbove self.now code.now → ⊥ }
    {
        let _ = self.by_code.len();
        follows(&self.by_code, code)
    }

    /// Puts a target on the hold of that code; damaged only where no holds within their limits have
    /// the columns of these and targets that begin with those of these and this one.
    pub fn push_target(&mut self, code: &Code, target: Target) -> Result<(), Rebuild>
        ensures ok { OnOk result
            ((rows : List (List ℕ × HoldRow)) (targets : List (List ℕ × Target))
            → AreRowsOf rows targets self.old
            → AreRowsOf rows (targets ++ (code.now, target) ∷ []) self.new) }
        ensures err { OnErr result (self.new ≡ self.old) }
        ensures damaged { OnDamaged result
            ((rows : List (List ℕ × HoldRow)) (targets rest : List (List ℕ × Target))
            (holds : HoldMap) → AreRowsOf rows targets self.old → FitsHoldLimits holds
            → AreRowsOf rows (targets ++ (code.now, target) ∷ rest) holds → ⊥) }
    {
        if !self.takes(code, &target) {
            return Err(Rebuild::Damaged);
        }
        self.sound();
        match self.put_target(code, target) {
            Ok(()) => Ok(()),
            Err(_) => Err(Rebuild::Memory),
        }
    }

    /// Whether the hold of that code is there, and has the target or room for it.
    fn takes(&self, code: &Code, target: &Target) -> bool
        ensures { result ≡ takes_target self.now code.now target.now }
    {
        match self.hold(code) {
            Some(hold) => hold.has(target) || !hold.is_full(),
            None => false,
        }
    }
}
