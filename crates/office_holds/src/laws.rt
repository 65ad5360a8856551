//! What the definitions on holds mean, as laws that are proved: calls of these do nothing.
ghost use Rattle.std.specs.Prelude.{◌≡◌, ◌≢◌, ◌↔◌, ℕ, false, Some, None, IsTrue, List};
ghost use Rattle.std.specs.declared.cmp.Ordering.TheVariants.{Greater};
ghost use Rattle.office_records.specs.Sound.{IsSound};
ghost use Rattle.office_records.specs.Tree.{TreeState, code_cmp};
ghost use Rattle.office_rules.specs.Holds.{HoldMap, is_held, least_covering};
ghost use Rattle.office_holds.specs.Meanings.{Covers, IsHeld};

/// In a sound tree a record is held exactly where a hold in force has as a target the record, an
/// aggregation that contains it at any height, or its class.
pub fn law_of_holds()
    ensures held { (holds : HoldMap) (tree : TreeState) (r : ℕ) → IsSound tree
        → (IsTrue (is_held holds tree r) ↔ IsHeld holds tree r) }
{}

/// The least covering hold is one that covers the record, and no other that does has a code before
/// it in byte order; there is none exactly where the record is not held.
pub fn law_of_the_least_hold()
    ensures covers { (holds : HoldMap) (tree : TreeState) (r : ℕ) (code : List ℕ) → IsSound tree
        → least_covering holds tree r ≡ Some code → Covers holds tree code r }
    ensures least { (holds : HoldMap) (tree : TreeState) (r : ℕ) (code other : List ℕ)
        → IsSound tree → least_covering holds tree r ≡ Some code → Covers holds tree other r
        → code_cmp code other ≢ Greater }
    ensures none { (holds : HoldMap) (tree : TreeState) (r : ℕ)
        → ((least_covering holds tree r ≡ None) ↔ (is_held holds tree r ≡ false)) }
{}
