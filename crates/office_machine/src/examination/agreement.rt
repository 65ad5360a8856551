//! The parts of an office examined together.
ghost use Rattle.std.specs.Prelude.{◌≡◌, IsTrue, Ok, false, true};
ghost use Rattle.std.specs.List.Sorted.{IsStrictlySortedBy};
ghost use Rattle.std.specs.Ordering.{nat_cmp};
ghost use Rattle.office_records.specs.Examined.{AreContentsShort};
ghost use Rattle.office_rules.specs.Loading.{AreEntriesKeyed, DoPartsAgree, ArePartsSound, HaveKeys, IsWellFormedOffice, IsOfficeBy};
ghost use Rattle.office_rules.specs.Sound.{IsSound};
ghost use Rattle.office_rules.specs.State.{ByteMap, with_contents};
ghost use Rattle.office_machine.specs.Keys.{bare_contents};

use crate::parts::Parts;
use office_base::Memory;
use office_records::RecordNo;
use std::alloc::Global;

impl Parts {
    /// Whether they agree with each other, and with the keys of contents.
    pub(crate) fn do_agree(&self, keys: &[RecordNo]) -> bool
        requires { IsStrictlySortedBy nat_cmp keys.now }
        ensures yes { IsTrue result → DoPartsAgree self.now (bare_contents keys.now) }
        ensures no { result ≡ false → DoPartsAgree self.now (bare_contents keys.now) → ⊥ }
    {
        if self.runs.len() > 10_000 {
            return false;
        }
        if !self.tree.are_contents_short() {
            return false;
        }
        if !self.tree.have_all_documents() {
            return false;
        }
        if !self.is_by() {
            return false;
        }
        self.are_parts_sound(keys)
    }

    /// Whether what the parts name is there.
    fn are_parts_sound(&self, keys: &[RecordNo]) -> bool
        requires { IsStrictlySortedBy nat_cmp keys.now }
        ensures yes { IsTrue result → ArePartsSound self.now (bare_contents keys.now) }
        ensures no { result ≡ false → ArePartsSound self.now (bare_contents keys.now) → ⊥ }
    {
        if !self.holds.do_targets_exist(&self.tree) {
            return false;
        }
        if !self.do_runs_agree() {
            return false;
        }
        if !self.are_active_keys(keys) {
            return false;
        }
        self.are_entries_right()
    }

    /// Whether no day of an act is after the office's, and each event is of a record that is there
    /// and not ahead of its act.
    fn is_by(&self) -> bool
        ensures yes { IsTrue result → IsOfficeBy self.now }
        ensures no { result ≡ false → IsOfficeBy self.now → ⊥ }
    {
        if !self.tree.is_by(self.day) {
            return false;
        }
        if !self.tree.are_events_sound(self.day) {
            return false;
        }
        if !self.holds.are_by(self.day) {
            return false;
        }
        self.are_runs_by()
    }

    /// Makes known to proofs that all that is in the parts is of its form: a call changes nothing.
    fn all_well_formed(&self)
        requires { AreContentsShort self.now.tree.records }
        ensures { IsWellFormedOffice self.now }
    {
        self.tree.sound();
        self.tree.formed();
        self.holds.sound();
        self.holds.formed();
        self.formed();
    }

    /// Whether they are sound with contents of these keys.
    pub(crate) fn is_sound(&self, alloc: Global, keys: &[RecordNo]) -> Result<bool, Memory>
        requires keyed { AreEntriesKeyed self.now.entries }
        requires ordered { IsStrictlySortedBy nat_cmp keys.now }
        ensures yes { result ≡ Ok true → (contents : ByteMap) → HaveKeys contents keys.now
            → IsSound (with_contents self.now contents) }
        ensures no { result ≡ Ok false → (contents : ByteMap) → HaveKeys contents keys.now
            → IsSound (with_contents self.now contents) → ⊥ }
    {
        if !self.do_agree(keys) {
            return Ok(false);
        }
        self.all_well_formed();
        let has_one_each = self.have_all_one_ending(alloc)?;
        if !has_one_each {
            return Ok(false);
        }
        Ok(self.tree.do_refs_differ())
    }
}
