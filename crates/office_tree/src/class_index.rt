//! The index of records by class: a number for each class, and the list under it.
ghost use Rattle.std.specs.Prelude.{◌≡◌, ◌+◌, ◌≤◌, [], IfOk, IsSome, IsTrue, OnOk, Some, false, length};
ghost use Rattle.std.specs.FinMap.{FinMap, empty, from_entries, get};
ghost use Rattle.office_tree.specs.ClassIndex.{AreListed, HaveNumbers, IsOfClass, StayNamed};
ghost use Rattle.office_tree.specs.ClassLists.{HaveRoom};
ghost use Rattle.office_tree.specs.Derived.{AreExtended, AreRenewed, CanRefresh, HasPlaces, IsPutRight, KeepsNumbers};
ghost use Rattle.office_records.specs.Sound.{IsSound};
ghost use Rattle.office_tree.specs.Stored.{is_in};
ghost use Rattle.office_records.specs.Tree.{code_cmp, has_aggregation, has_record};
ghost use Rattle.office_records.specs.declared.class.Class.{Class};

use crate::class_lists::{ClassLists, ClassNo};
use crate::classification::class_in;
use crate::directory::Directory;
use crate::rows::Rows;
use office_base::Memory;
use office_records::{AggNo, Class, Code, RecordNo};
use std::alloc::Global;
use std::collections::BTreeMap;

/// The records of each class, which has a number. Numbers are given 1, 2, .. and stay their class's
/// for good.
#[derive(Drop)]
pub(crate) struct ClassIndex {
    pub(crate) numbers: BTreeMap<Code, ClassNo>,
    pub(crate) class_lists: ClassLists,
}

impl ClassIndex {
    /// No classes and no records.
    pub(crate) fn new(alloc: Global) -> ClassIndex
        ensures numbers { from_entries {R = code_cmp} result.numbers.entries ≡ empty }
        ensures first { result.class_lists.first.items ≡ [] }
        ensures class { result.class_lists.class.items ≡ [] }
    {
        ClassIndex {
            numbers: BTreeMap::new(alloc),
            class_lists: ClassLists::new(alloc),
        }
    }

    /// The number of a class that has one.
    pub(crate) fn number_of(&self, code: &Code) -> ClassNo
        requires { IsSome (get (from_entries {R = code_cmp} self.now.numbers.entries) code.now) }
        ensures { get (from_entries {R = code_cmp} self.now.numbers.entries) code.now
            ≡ Some result }
    {
        match self.numbers.get(code) {
            Some(number) => *number,
            None => unreachable!(),
        }
    }

    /// Gives a class the next number and a list without records, if it has none.
    pub(crate) fn add_class(&mut self, alloc: Global, code: &Code) -> Result<(), Memory>
        ensures class { self.new.class_lists.class.items ≡ self.old.class_lists.class.items }
        ensures named { OnOk result
            (IsSome (get (from_entries {R = code_cmp} self.new.numbers.entries) code.now)) }
        ensures kept { StayNamed (from_entries self.old.numbers.entries)
            (from_entries self.new.numbers.entries) }
        ensures numbers { (classes : FinMap code_cmp Class)
            → HaveNumbers classes (from_entries self.old.numbers.entries)
            (length self.old.class_lists.first.items)
            → HaveNumbers classes (from_entries self.new.numbers.entries)
            (length self.new.class_lists.first.items) }
    {
        if self.numbers.contains_key(code) {
            return Ok(());
        }
        self.class_lists.make_class_room()?;
        let number = self.class_lists.first.len() + 1;
        self.numbers.insert(code.copy(alloc)?, number)?;
        self.class_lists.add_class();
        Ok(())
    }

    /// Puts the record on the list of its class.
    pub(crate) fn reindex(&mut self, rows: &Rows<'_>, record_no: RecordNo)
        requires sound { IsSound rows.now }
        requires there { IsTrue (has_record rows.now record_no) }
        requires numbers { HaveNumbers rows.now.classes (from_entries self.old.numbers.entries)
            (length self.old.class_lists.first.items) }
        requires on_list { record_no ≤ length self.old.class_lists.class.items }
        ensures keeps { KeepsNumbers self.old self.new }
        ensures listed { IsPutRight
            (IsOfClass (from_entries self.old.numbers.entries) rows.now.aggregations
            rows.now.records record_no) record_no self.old.class_lists.class.items
            self.new.class_lists.class.items }
    {
        let class = class_in(rows.aggregations, rows.records, record_no);
        let number = self.number_of(class);
        self.class_lists.put(record_no, number);
    }

    /// Adds the next record, for which there is room, on the list of its class.
    pub(crate) fn add_listed(&mut self, rows: &Rows<'_>)
        requires sound { IsSound rows.now }
        requires room { HaveRoom self.old.class_lists.next self.old.class_lists.previous
            self.old.class_lists.class }
        requires numbers { HaveNumbers rows.now.classes (from_entries self.old.numbers.entries)
            (length self.old.class_lists.first.items) }
        requires many { length self.old.class_lists.class.items + 1 ≡ length rows.now.records }
        ensures keeps { KeepsNumbers self.old self.new }
        ensures listed { AreExtended
            (IsOfClass (from_entries self.old.numbers.entries) rows.now.aggregations
            rows.now.records) rows.now.records (λ _. false) self.old.class_lists.class.items
            self.new.class_lists.class.items }
    {
        self.class_lists.add();
        self.reindex(rows, rows.records.len() as RecordNo);
    }

    /// Puts each record of the aggregation on the list of its class, and goes through these alone.
    pub(crate) fn reindex_records_in(
        &mut self,
        rows: &Rows<'_>,
        directory: &Directory,
        aggregation: AggNo,
    )
        requires ready { CanRefresh rows.now directory.now }
        requires there { IsTrue (has_aggregation rows.now aggregation) }
        requires places { HasPlaces rows.now self.old }
        ensures keeps { KeepsNumbers self.old self.new }
        ensures listed { AreRenewed
            (IsOfClass (from_entries self.old.numbers.entries) rows.now.aggregations
            rows.now.records) rows.now.records (is_in aggregation)
            self.old.class_lists.class.items self.new.class_lists.class.items }
    {
        let mut at = directory.records_in.last(aggregation);
        while at != 0 {
            self.reindex(rows, at);
            at = directory.records_in.before(at);
        }
    }
}

/// The classes, each with a number, and no records.
fn numbered_classes(alloc: Global, classes: &BTreeMap<Code, Class>) -> Result<ClassIndex, Memory>
    ensures numbers { IfOk result
        (λ it. HaveNumbers (from_entries classes.now.entries) (from_entries it.numbers.entries)
        (length it.class_lists.first.items)) }
    ensures class { IfOk result (λ it. it.class_lists.class.items ≡ []) }
{
    let mut class_index = ClassIndex::new(alloc);
    for code in classes.keys() {
        class_index.add_class(alloc, code)?;
    }
    Ok(class_index)
}

/// The records, each on the list of its class.
pub(crate) fn class_index_of(alloc: Global, rows: &Rows<'_>) -> Result<ClassIndex, Memory>
    requires { IsSound rows.now }
    ensures { IfOk result
        (λ it. AreListed rows.now.classes rows.now.aggregations rows.now.records
        (from_entries it.numbers.entries) (length it.class_lists.first.items)
        it.class_lists.class.items) }
{
    let mut class_index = numbered_classes(alloc, rows.classes)?;
    for i in 0..rows.records.len() {
        class_index.class_lists.make_record_room()?;
        class_index.class_lists.add();
        class_index.reindex(rows, i as RecordNo + 1);
    }
    Ok(class_index)
}
