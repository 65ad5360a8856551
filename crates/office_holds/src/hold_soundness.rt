//! What is examined of the holds before they are taken over with the rest of an office.
ghost use Rattle.std.specs.Prelude.{◌≡◌, ◌↔◌, ◌≤ℤ◌, IfSome, IsTrue, false, length};
ghost use Rattle.std.specs.BTreeMap as map;
ghost use Rattle.std.specs.List.{All};
ghost use Rattle.office_records.specs.Forms.{IsCode};
ghost use Rattle.office_records.specs.Tree.{code_cmp};
ghost use Rattle.office_rules.specs.HoldForms.{AreWellFormedHolds, IsWellFormedHold};
ghost use Rattle.office_rules.specs.Holds.{HoldState};
ghost use Rattle.office_rules.specs.SoundHolds.{NoHoldIsAfter, TargetsAreThere, TargetsExist};

use crate::{Hold, Holds};
use office_days::Day;
use office_records::Code;
use office_tree::Tree;
use std::collections::BTreeMap;

/// Whether every target of each hold is in the tree.
fn do_all_exist(holds: &BTreeMap<Code, Hold>, tree: &Tree) -> bool
    ensures all { IsTrue result
        ↔ All
        (TargetsAreThere tree.now.classes (length tree.now.aggregations)
        (length tree.now.records)) (map.values holds.now) }
    ensures ordered { map.IsOrdered code_cmp holds.now }
{
    holds.values().all(|hold| hold.do_targets_exist(tree))
}

/// Whether none of the holds was placed or lifted after that day.
fn are_all_by(holds: &BTreeMap<Code, Hold>, last: Day) -> bool
    ensures all { IsTrue result
        ↔ All
        (λ (hold : HoldState). (hold.placed ≤ℤ last)
        × IfSome hold.lifted (λ lifted. lifted ≤ℤ last)) (map.values holds.now) }
    ensures ordered { map.IsOrdered code_cmp holds.now }
{
    holds.values().all(|hold| hold.is_by(last))
}

/// Makes known to proofs that each hold and its code are of their forms: a call changes nothing.
fn well_formed_holds(holds: &BTreeMap<Code, Hold>)
    ensures { All (λ it. IsCode it.0 × IsWellFormedHold it.1) holds.now.entries }
{
    for (code, hold) in holds.iter() {
        let _ = code.text();
        hold.formed();
    }
}

impl Holds {
    /// Whether every target of every hold is in the tree.
    pub fn do_targets_exist(&self, tree: &Tree) -> bool
        ensures yes { IsTrue result
            → TargetsExist self.now tree.now.classes (length tree.now.aggregations)
            (length tree.now.records) }
        ensures no { result ≡ false
            → TargetsExist self.now tree.now.classes (length tree.now.aggregations)
            (length tree.now.records) → ⊥ }
    {
        do_all_exist(&self.by_code, tree)
    }

    /// Whether no hold was placed or lifted after that day.
    pub fn are_by(&self, last: Day) -> bool
        ensures yes { IsTrue result → NoHoldIsAfter self.now last }
        ensures no { result ≡ false → NoHoldIsAfter self.now last → ⊥ }
    {
        are_all_by(&self.by_code, last)
    }

    /// Makes known to proofs that all that is in the holds is of its form: a call changes nothing.
    pub fn formed(&self)
        ensures { AreWellFormedHolds self.now }
    {
        well_formed_holds(&self.by_code);
    }
}
