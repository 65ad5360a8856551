//! Flags that each represent 64 others, with the flags above them.
ghost use Rattle.std.specs.Prelude.{◌≡◌, ◌+◌, ◌*◌, ◌/◌, ◌<◌, ◌≤◌, ℕ, [], IfSome, IfNone, OnOk, false, length, slice_set, true};
ghost use Rattle.office_tree.specs.Flags.{flag_at, HasNoneFrom, IsFirstFrom};

use crate::bits::Bits;
use office_base::Memory;
use std::alloc::Global;
use std::marker::Model;

/// At most 4096 flags, and above them one for each 64, so that the first that is set is found in
/// three words at most. Contracts see the flags.
#[derive(Drop)]
pub(crate) struct Groups {
    flags: Bits,
    top: Bits,
}

impl Model for Groups {
    ghost use Rattle.std.specs.Prelude.{Bool, List};
    ghost use Rattle.office_tree.specs.Flags.{HasNoneFrom};
    ghost use Rattle.office_tree.specs.Levels.{HaveGroups};

    ghost Value = { List Bool };

    ghost view = { λ g. g.flags };

    ghost invariant = { λ g. HaveGroups g.flags g.top × HasNoneFrom g.top 64 };
}

impl Groups {
    /// Room for no flag.
    pub(crate) fn new(alloc: Global) -> Groups
        ensures { result ≡ [] }
    {
        Groups {
            flags: Bits::new(alloc),
            top: Bits::new(alloc),
        }
    }

    /// Makes room for the flag at the index, which is the next one or there already.
    pub(crate) fn make_room(&mut self, index: usize) -> Result<(), Memory>
        requires { index ≤ length self.old }
        ensures room { OnOk result (index < length self.new) }
        ensures same { (k : ℕ) → flag_at self.new k ≡ flag_at self.old k }
        ensures grows { length self.old ≤ length self.new }
    {
        self.top.make_room(index / 64)?;
        self.flags.make_room(index)?;
        Ok(())
    }

    /// Sets a flag.
    pub(crate) fn set(&mut self, index: usize)
        requires within { index < length self.old }
        requires small { index < 4096 }
        ensures { self.new ≡ slice_set self.old index true }
    {
        self.flags.set(index);
        self.top.set(index / 64);
    }

    /// Clears a flag.
    pub(crate) fn clear(&mut self, index: usize)
        requires within { index < length self.old }
        ensures { self.new ≡ slice_set self.old index false }
    {
        self.flags.clear(index);
        if self.flags.first_in_word(index / 64 * 64).is_none() {
            self.top.clear(index / 64);
        }
    }

    /// The first flag that is set from the index on.
    pub(crate) fn first_from(&self, from: usize) -> Option<usize>
        ensures found { IfSome result (IsFirstFrom self.now from) }
        ensures none { IfNone result (HasNoneFrom self.now from) }
    {
        if let Some(found) = self.flags.first_in_word(from) {
            return Some(found);
        }
        let group = self.top.first_in_word(from / 64 + 1)?;
        self.flags.first_in_word(group * 64)
    }
}
