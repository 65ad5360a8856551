//! Flags, one bit each, in words of 64.
ghost use Rattle.std.specs.Prelude.{◌≡◌, ◌+◌, ◌*◌, ◌/◌, ◌<◌, ◌≤◌, ℕ, [], IfSome, IfNone, OnOk, false, length, max, slice_set, true};
ghost use Rattle.office_tree.specs.Flags.{flag_at, HasNoneUpTo, IsFirstFrom};

use office_base::Memory;
use std::alloc::Global;
use std::marker::Model;

/// Flags, one bit each, in words of 64. Contracts see the flag of each index that there is room
/// for.
#[derive(Drop)]
pub(crate) struct Bits {
    words: Vec<u64>,
}

impl Model for Bits {
    ghost use Rattle.std.specs.Prelude.{Bool, List};
    ghost use Rattle.office_tree.specs.Levels.{bits_of};

    ghost Value = { List Bool };

    ghost view = { λ b. bits_of b.words.items };
}

impl Bits {
    /// Room for no flag.
    pub(crate) fn new(alloc: Global) -> Bits
        ensures { result ≡ [] }
    {
        Bits {
            words: Vec::new(alloc),
        }
    }

    /// Makes room for the flag at the index, which is the next one or there already.
    pub(crate) fn make_room(&mut self, index: usize) -> Result<(), Memory>
        requires { index ≤ length self.old }
        ensures room { OnOk result (index < length self.new) }
        ensures same { (k : ℕ) → flag_at self.new k ≡ flag_at self.old k }
        ensures grows { length self.old ≤ length self.new }
        ensures little { length self.new ≤ max (length self.old) (index / 64 * 64 + 64) }
    {
        if index / 64 >= self.words.len() {
            self.words.push(0)?;
        }
        Ok(())
    }

    /// Sets a flag.
    pub(crate) fn set(&mut self, index: usize)
        requires { index < length self.old }
        ensures { self.new ≡ slice_set self.old index true }
    {
        self.words[index / 64] |= 1u64 << (index % 64);
    }

    /// Clears a flag.
    pub(crate) fn clear(&mut self, index: usize)
        requires { index < length self.old }
        ensures { self.new ≡ slice_set self.old index false }
    {
        self.words[index / 64] &= !(1u64 << (index % 64));
    }

    /// The first flag that is set in the word of the index, from the index on.
    pub(crate) fn first_in_word(&self, from: usize) -> Option<usize>
        ensures found { IfSome result (IsFirstFrom self.now from) }
        ensures inside { IfSome result (λ j. j < (from / 64 + 1) * 64) }
        ensures none { IfNone result (HasNoneUpTo self.now from ((from / 64 + 1) * 64)) }
    {
        if from / 64 >= self.words.len() {
            return None;
        }
        let left = self.words[from / 64] >> (from % 64);
        if left == 0 {
            return None;
        }
        Some(from + left.trailing_zeros() as usize)
    }
}
