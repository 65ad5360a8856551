//! Whether a reclassification leaves a class that a hold in force has as a target.
ghost use Rattle.std.specs.Prelude.{◌≡◌, ◌&&◌, not, IsTrue, Some, None};
ghost use Rattle.std.specs.Option.{option_copied};
ghost use Rattle.std.specs.Str.{bytes_eq};
ghost use Rattle.office_records.specs.Effects.{reclassified};
ghost use Rattle.office_records.specs.Lists.{is_some_and};
ghost use Rattle.office_records.specs.Tree.{aggregation_class_of, class_of, has_aggregation, has_record};
ghost use Rattle.office_records.specs.declared.classified.Classified.TheVariants as classified;
ghost use Rattle.office_rules.specs.HoldConditions.{would_leave_held_class};
ghost use Rattle.office_rules.specs.Holds.{is_held_class};

use crate::Holds;
use office_records::{AggNo, Classified, Code, RecordNo};
use office_tree::Tree;

/// The class of a record's aggregation, which is the record's where it has none of its own.
fn class_of_container(tree: &Tree, record_no: RecordNo) -> &Code
    requires { IsTrue (has_record tree.now record_no) }
    ensures { class_of (reclassified tree.now (classified.Record record_no) None) record_no
        ≡ Some result.now }
{
    tree.sound();
    let head = tree.record(record_no);
    tree.aggregation_class_of(head.aggregation)
}

/// The class of an aggregation's parent, which is the aggregation's where it has none of its own;
/// `None` for a root.
fn class_of_parent(tree: &Tree, aggregation: AggNo) -> Option<&Code>
    requires { IsTrue (has_aggregation tree.now aggregation) }
    ensures { option_copied result
        ≡ aggregation_class_of (reclassified tree.now (classified.Aggregation aggregation) None)
        aggregation }
{
    tree.sound();
    match tree.aggregation(aggregation).parent {
        Some(parent) => Some(tree.aggregation_class_of(parent)),
        None => None,
    }
}

/// The class of the record once it has this class of its own, or none.
fn record_class_after<'a>(tree: &'a Tree, record_no: RecordNo, class: Option<&'a Code>) -> &'a Code
    requires { IsTrue (has_record tree.now record_no) }
    ensures { class_of
        (reclassified tree.now (classified.Record record_no) (option_copied class.entry))
        record_no ≡ Some result.now }
{
    match class {
        Some(class) => class,
        None => class_of_container(tree, record_no),
    }
}

/// The class of the aggregation once it has this class of its own, or none.
fn aggregation_class_after<'a>(
    tree: &'a Tree,
    aggregation: AggNo,
    class: Option<&'a Code>,
) -> Option<&'a Code>
    requires { IsTrue (has_aggregation tree.now aggregation) }
    ensures { option_copied result
        ≡ aggregation_class_of
        (reclassified tree.now (classified.Aggregation aggregation) (option_copied class.entry))
        aggregation }
{
    match class {
        Some(class) => Some(class),
        None => class_of_parent(tree, aggregation),
    }
}

/// Whether that class, if there is one, is this class.
fn is_class(class: Option<&Code>, this: &Code) -> bool
    ensures { result ≡ is_some_and (option_copied class.entry) (bytes_eq this.now) }
{
    match class {
        Some(class) => this == class,
        None => false,
    }
}

impl Holds {
    /// Whether a hold in force has the class as a target.
    fn is_held_class(&self, class: &Code) -> bool
        ensures { result ≡ is_held_class self.now class.now }
    {
        self.counts.is_class_bound(class)
    }

    /// Whether a class is left for another, or for none, and a hold in force has it as a target.
    fn leaves(&self, old: &Code, new: Option<&Code>) -> bool
        ensures { result
            ≡ (not (is_some_and (option_copied new.entry) (bytes_eq old.now))
            && is_held_class self.now old.now) }
    {
        if is_class(new, old) {
            return false;
        }
        self.is_held_class(old)
    }

    /// Whether the aggregation is there and would leave a held class.
    fn aggregation_leaves(&self, tree: &Tree, aggregation: AggNo, class: Option<&Code>) -> bool
        ensures { result
            ≡ would_leave_held_class self.now tree.now (classified.Aggregation aggregation)
            (option_copied class.entry) }
    {
        if !tree.has_aggregation(aggregation) {
            return false;
        }
        let after = aggregation_class_after(tree, aggregation, class);
        self.leaves(tree.aggregation_class_of(aggregation), after)
    }

    /// Whether the record is there and would leave a held class.
    fn record_leaves(&self, tree: &Tree, record_no: RecordNo, class: Option<&Code>) -> bool
        ensures { result
            ≡ would_leave_held_class self.now tree.now (classified.Record record_no)
            (option_copied class.entry) }
    {
        if !tree.has_record(record_no) {
            return false;
        }
        let after = record_class_after(tree, record_no, class);
        self.leaves(tree.class_of(record_no), Some(after))
    }

    /// Whether what is named is there and would leave a held class.
    pub(crate) fn leaves_held_class(
        &self,
        tree: &Tree,
        target: Classified,
        class: Option<&Code>,
    ) -> bool
        ensures { result
            ≡ would_leave_held_class self.now tree.now target (option_copied class.entry) }
    {
        match target {
            Classified::Aggregation(aggregation) => {
                self.aggregation_leaves(tree, aggregation, class)
            }
            Classified::Record(record_no) => self.record_leaves(tree, record_no, class),
        }
    }
}
