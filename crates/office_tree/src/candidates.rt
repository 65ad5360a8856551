//! A set of record numbers whose next member is found in a few words.
ghost use Rattle.std.specs.Prelude.{◌≡◌, ◌+◌, ◌-◌, ◌<◌, ◌≤◌, ◌++◌, ◌∷◌, ℕ, [], IfSome, IfNone, OnOk, OnErr, false, length, slice_set, true};
ghost use Rattle.office_tree.specs.Flags.{HasNoneAbove, IsNextAbove, is_member};

use crate::bits::Bits;
use crate::groups::Groups;
use office_base::Memory;
use office_records::RecordNo;
use std::alloc::Global;
use std::marker::Model;

/// The records that a disposal run takes once they are due, by number. A record comes and goes
/// without memory, and the next one is found in at most five words. Contracts see flags, the first
/// for number 1, one for each number that there is room for.
#[derive(Drop)]
pub(crate) struct CandidateSet {
    flags: Bits,
    groups: Groups,
    count: usize,
}

impl Model for CandidateSet {
    ghost use Rattle.std.specs.Prelude.{◌≤◌, Bool, List, length, take};
    ghost use Rattle.office_tree.specs.Flags.{HasNoneFrom};
    ghost use Rattle.office_tree.specs.Levels.{HaveGroups};

    ghost Value = { List Bool };

    ghost view = { λ s. take s.count s.flags };

    ghost invariant = { λ s. HaveGroups s.flags s.groups × (s.count ≤ length s.flags)
        × (s.count ≤ 262_144) × HasNoneFrom s.flags s.count };
}

impl CandidateSet {
    /// No numbers, and room for none.
    pub(crate) fn new(alloc: Global) -> CandidateSet
        ensures { result ≡ [] }
    {
        CandidateSet {
            flags: Bits::new(alloc),
            groups: Groups::new(alloc),
            count: 0,
        }
    }

    /// How many numbers there is room for.
    fn room(&self) -> usize
        ensures room { result ≡ length self.now }
        ensures few { result ≤ 262_144 }
    {
        self.count
    }

    /// Makes room for the next number, which is not in the set.
    fn reserve_one(&mut self) -> Result<(), Memory>
        requires { length self.old < 262_144 }
        ensures ok { OnOk result (self.new ≡ self.old ++ false ∷ []) }
        ensures err { OnErr result (self.new ≡ self.old) }
    {
        self.groups.make_room(self.count / 64)?;
        self.flags.make_room(self.count)?;
        self.count += 1;
        Ok(())
    }

    /// Makes room for the number, which is the next one or has room already. Room that is not used
    /// stays, and may be asked for again.
    pub(crate) fn make_room_for(&mut self, record_no: RecordNo) -> Result<(), Memory>
        requires next { record_no ≤ length self.old + 1 }
        requires few { record_no ≤ 262_144 }
        ensures room { OnOk result (record_no ≤ length self.new) }
        ensures grows { length self.old ≤ length self.new }
        ensures same { (k : ℕ) → is_member self.new k ≡ is_member self.old k }
    {
        if record_no as usize > self.room() {
            self.reserve_one()?;
        }
        Ok(())
    }

    /// Puts the number in.
    pub(crate) fn insert(&mut self, record_no: RecordNo)
        requires low { 0 < record_no }
        requires high { record_no ≤ length self.old }
        ensures { self.new ≡ slice_set self.old (record_no - 1) true }
    {
        let index = record_no as usize - 1;
        self.flags.set(index);
        self.groups.set(index / 64);
    }

    /// Takes the number out.
    pub(crate) fn remove(&mut self, record_no: RecordNo)
        requires low { 0 < record_no }
        requires high { record_no ≤ length self.old }
        ensures { self.new ≡ slice_set self.old (record_no - 1) false }
    {
        let index = record_no as usize - 1;
        self.flags.clear(index);
        if self.flags.first_in_word(index / 64 * 64).is_none() {
            self.groups.clear(index / 64);
        }
    }

    /// The least number above that one that is in.
    pub(crate) fn next_above(&self, above: RecordNo) -> Option<RecordNo>
        ensures found { IfSome result (IsNextAbove self.now above) }
        ensures none { IfNone result (HasNoneAbove self.now above) }
    {
        let from = above as usize;
        if from >= self.count {
            return None;
        }
        if let Some(found) = self.flags.first_in_word(from) {
            return Some(found as RecordNo + 1);
        }
        let word = self.groups.first_from(from / 64 + 1)?;
        let found = self.flags.first_in_word(word * 64)?;
        Some(found as RecordNo + 1)
    }
}
