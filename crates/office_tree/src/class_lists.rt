//! The records of each class, on a list of their own.
ghost use Rattle.std.specs.Prelude.{◌≡◌, ◌++◌, ◌∷◌, ◌+◌, ◌<◌, ◌≤◌, ◌≢◌, [], OnOk, Some, length};
ghost use Rattle.office_records.specs.Lists.{numbered, put};
ghost use Rattle.office_tree.specs.ClassLists.{AreClassLists, HaveRoom};
ghost use Rattle.office_tree.specs.Rooms.{HasRoom};

use crate::new_rows::push_row;
use office_base::Memory;
use office_records::RecordNo;
use std::alloc::Global;

/// The number of a class of records: 1, 2, .. in the order of addition; 0 for none.
pub(crate) type ClassNo = usize;

/// The records of each class, doubly linked, so that they are gone through without the others and
/// each is moved without them: for each class the number of the first record on its list, for each
/// record those of the next and of the previous on its list, 0 for none, and the number of the
/// class on whose list it is, 0 for none.
#[derive(Drop)]
pub(crate) struct ClassLists {
    pub(crate) first: Vec<RecordNo>,
    pub(crate) next: Vec<RecordNo>,
    pub(crate) previous: Vec<RecordNo>,
    pub(crate) class: Vec<ClassNo>,
    ghost linked: { AreClassLists first.items next.items previous.items class.items },
}

/// Writes under a number that is there, and nothing under 0.
fn write(numbers: &mut Vec<RecordNo>, n: usize, x: RecordNo)
    requires { n ≤ length numbers.old.items }
    ensures { numbers.new.items ≡ put numbers.old.items n x }
{
    if n != 0 {
        numbers[n - 1] = x;
    }
}

/// The next record now follows the one before, or is the first of the class where there is none
/// before.
fn link_over(
    first: &mut Vec<RecordNo>,
    nexts: &mut Vec<RecordNo>,
    class: ClassNo,
    previous: RecordNo,
    next: RecordNo,
)
    requires first { class ≤ length first.old.items }
    requires nexts { previous ≤ length nexts.old.items }
    ensures next { nexts.new.items ≡ put nexts.old.items previous next }
    ensures head { previous ≡ 0 → first.new.items ≡ put first.old.items class next }
    ensures same { previous ≢ 0 → first.new.items ≡ first.old.items }
{
    if previous == 0 {
        write(first, class, next);
    } else {
        write(nexts, previous as usize, next);
    }
}

impl ClassLists {
    /// No classes and no records.
    pub(crate) fn new(alloc: Global) -> ClassLists
        ensures first { result.first.items ≡ [] }
        ensures class { result.class.items ≡ [] }
    {
        ClassLists {
            first: Vec::new(alloc),
            next: Vec::new(alloc),
            previous: Vec::new(alloc),
            class: Vec::new(alloc),
        }
    }

    /// The number of the first record on the class's list; 0 for none.
    pub(crate) fn first(&self, class: ClassNo) -> RecordNo
        requires low { 0 < class }
        requires high { class ≤ length self.now.first.items }
        ensures { numbered self.now.first.items class ≡ Some result }
    {
        self.first[class - 1]
    }

    /// The number of the next record on the same list; 0 for none.
    pub(crate) fn next(&self, record_no: RecordNo) -> RecordNo
        requires low { 0 < record_no }
        requires high { record_no ≤ length self.now.next.items }
        ensures { numbered self.now.next.items record_no ≡ Some result }
    {
        self.next[record_no as usize - 1]
    }

    /// The number of the previous record on the same list; 0 for none.
    fn previous(&self, record_no: RecordNo) -> RecordNo
        requires low { 0 < record_no }
        requires high { record_no ≤ length self.now.previous.items }
        ensures { numbered self.now.previous.items record_no ≡ Some result }
    {
        self.previous[record_no as usize - 1]
    }

    /// The class on whose list the record is; 0 for none.
    fn class(&self, record_no: RecordNo) -> ClassNo
        requires low { 0 < record_no }
        requires high { record_no ≤ length self.now.class.items }
        ensures { numbered self.now.class.items record_no ≡ Some result }
    {
        self.class[record_no as usize - 1]
    }

    /// Makes room for one more class.
    pub(crate) fn make_class_room(&mut self) -> Result<(), Memory>
        ensures first { self.new.first.items ≡ self.old.first.items }
        ensures class { self.new.class.items ≡ self.old.class.items }
        ensures room { OnOk result (HasRoom self.new.first) }
    {
        self.first.try_reserve(1)?;
        Ok(())
    }

    /// Makes room for one more record.
    pub(crate) fn make_record_room(&mut self) -> Result<(), Memory>
        ensures first { self.new.first.items ≡ self.old.first.items }
        ensures class { self.new.class.items ≡ self.old.class.items }
        ensures room { OnOk result (HaveRoom self.new.next self.new.previous self.new.class) }
    {
        self.next.try_reserve(1)?;
        self.previous.try_reserve(1)?;
        self.class.try_reserve(1)?;
        Ok(())
    }

    /// Adds the next class, for which there is room, with no records.
    pub(crate) fn add_class(&mut self)
        requires { HasRoom self.old.first }
        ensures classes { length self.new.first.items ≡ length self.old.first.items + 1 }
        ensures class { self.new.class.items ≡ self.old.class.items }
    {
        push_row(&mut self.first, 0);
    }

    /// Takes the record off its list, if it is on one.
    fn take_off(&mut self, record_no: RecordNo)
        requires low { 0 < record_no }
        requires high { record_no ≤ length self.old.class.items }
        ensures classes { length self.new.first.items ≡ length self.old.first.items }
        ensures class { self.new.class.items ≡ put self.old.class.items record_no 0 }
    {
        let class = self.class(record_no);
        let next = self.next(record_no);
        let previous = self.previous(record_no);
        link_over(&mut self.first, &mut self.next, class, previous, next);
        write(&mut self.next, record_no as usize, 0);
        write(&mut self.previous, next as usize, previous);
        write(&mut self.previous, record_no as usize, 0);
        self.class[record_no as usize - 1] = 0;
    }

    /// Puts the record, which is on no list, at the head of the class's list.
    fn put_on(&mut self, record_no: RecordNo, class: ClassNo)
        requires off { numbered self.old.class.items record_no ≡ Some 0 }
        requires low { 0 < class }
        requires high { class ≤ length self.old.first.items }
        ensures classes { length self.new.first.items ≡ length self.old.first.items }
        ensures class { self.new.class.items ≡ put self.old.class.items record_no class }
    {
        let next = self.first(class);
        write(&mut self.first, class, record_no);
        write(&mut self.next, record_no as usize, next);
        write(&mut self.previous, next as usize, record_no);
        self.class[record_no as usize - 1] = class;
    }

    /// The record is on the list of that class now, or on none where the class is 0. Nothing is
    /// written where it is there already.
    pub(crate) fn put(&mut self, record_no: RecordNo, class: ClassNo)
        requires low { 0 < record_no }
        requires high { record_no ≤ length self.old.class.items }
        requires there { class ≤ length self.old.first.items }
        ensures classes { length self.new.first.items ≡ length self.old.first.items }
        ensures class { self.new.class.items ≡ put self.old.class.items record_no class }
        ensures same { numbered self.old.class.items record_no ≡ Some class → self.new ≡ self.old }
    {
        if self.class(record_no) == class {
            return;
        }
        self.take_off(record_no);
        if class != 0 {
            self.put_on(record_no, class);
        }
    }

    /// Adds the next record, for which there is room, on no list.
    pub(crate) fn add(&mut self)
        requires { HaveRoom self.old.next self.old.previous self.old.class }
        ensures classes { length self.new.first.items ≡ length self.old.first.items }
        ensures class { self.new.class.items ≡ self.old.class.items ++ 0 ∷ [] }
    {
        push_row(&mut self.next, 0);
        push_row(&mut self.previous, 0);
        push_row(&mut self.class, 0);
    }
}
