//! What the tree's definitions mean, as laws that are proved: calls of these do nothing.
ghost use Rattle.std.specs.Prelude.{◌≡◌, ◌≢◌, ◌↔◌, ℕ, Some, None, IsTrue, List, ℤ};
ghost use Rattle.office_records.specs.Disposal.{is_below, is_spent};
ghost use Rattle.office_records.specs.Lists.{numbered};
ghost use Rattle.office_records.specs.Meanings.{Contains, IsClassOf, IsNearestFrom, IsLastAddition, IsSpent};
ghost use Rattle.office_records.specs.Sound.{IsSound};
ghost use Rattle.office_records.specs.Tree.{TreeState, has_aggregation, class_of, aggregation_class_of, last_addition};
ghost use Rattle.office_records.specs.declared.head.Record.{Record};

/// In a sound tree the aggregations above a record are those that contain it, and its class is its
/// own or that of the nearest of them that has one. The class of an aggregation is that of the
/// nearest that has one, from itself on.
pub fn law_of_classification()
    ensures above { (tree : TreeState) (a r : ℕ) → IsSound tree
        → (IsTrue (is_below tree a r) ↔ Contains tree a r) }
    ensures class { (tree : TreeState) (r : ℕ) (class : List ℕ) → IsSound tree
        → ((class_of tree r ≡ Some class) ↔ IsClassOf tree r class) }
    ensures aggregation { (tree : TreeState) (a : ℕ) (class : List ℕ) → IsSound tree
        → IsTrue (has_aggregation tree a)
        → ((aggregation_class_of tree a ≡ Some class)
        ↔ IsNearestFrom tree.aggregations (Some a) class) }
{}

/// The last addition to an aggregation is the greatest added day of its records, and there is none
/// exactly where it has no record.
pub fn law_of_last_addition()
    ensures greatest { (records : List Record) (a : ℕ) (day : ℤ)
        → ((last_addition records a ≡ Some day) ↔ IsLastAddition records a day) }
    ensures none { (records : List Record) (a : ℕ)
        → ((last_addition records a ≡ None)
        ↔ ((r : ℕ) (head : Record) → numbered records r ≡ Some head → head.aggregation ≢ a)) }
{}

/// In a sound tree an aggregation is spent exactly where it is closed, a record lies below it at
/// some depth, and all records below it are ended.
pub fn law_of_spent_aggregations()
    ensures spent { (tree : TreeState) (a : ℕ) → IsSound tree
        → (IsTrue (is_spent tree a) ↔ IsSpent tree a) }
{}
