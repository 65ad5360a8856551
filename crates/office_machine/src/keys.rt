//! The keys of contents as they come.
ghost use Rattle.std.specs.Prelude.{◌≡◌, ◌∷◌, ◌++◌, [], false, IsTrue, OnOk};
ghost use Rattle.std.specs.List.{All};
ghost use Rattle.std.specs.List.Sorted.{IsStrictlySortedBy};
ghost use Rattle.std.specs.Ordering.{nat_cmp};
ghost use Rattle.std.specs.declared.cmp.Ordering.TheVariants.{Less};
ghost use Rattle.office_base.specs.Rows.{OnDamaged};

use office_base::Rebuild;
use office_records::RecordNo;
use std::alloc::Global;
use std::marker::Model;

/// Keys of contents, each above those before it. Contracts see the list of them.
#[derive(Drop)]
pub(crate) struct ContentKeys {
    numbers: Vec<RecordNo>,
}

impl Model for ContentKeys {
    ghost use Rattle.std.specs.Prelude.{List, ℕ};
    ghost use Rattle.std.specs.List.Sorted.{IsStrictlySortedBy};
    ghost use Rattle.std.specs.Ordering.{nat_cmp};

    ghost Value = { List ℕ };

    ghost view = { λ keys. keys.numbers.items };

    ghost invariant = { λ keys. IsStrictlySortedBy nat_cmp keys.numbers.items };
}

impl ContentKeys {
    /// No keys.
    pub(crate) fn new(alloc: Global) -> ContentKeys
        ensures { result ≡ [] }
    {
        ContentKeys {
            numbers: Vec::new(alloc),
        }
    }

    /// Whether the number is above all keys.
    fn are_below(&self, number: RecordNo) -> bool
        ensures yes { IsTrue result → All (λ q. nat_cmp q number ≡ Less) self.now }
        ensures no { result ≡ false → All (λ q. nat_cmp q number ≡ Less) self.now → ⊥ }
    {
        match self.numbers.last() {
            Some(last) => *last < number,
            None => true,
        }
    }

    /// Puts a key after the others; damaged where it is not above them.
    pub(crate) fn push(&mut self, number: RecordNo) -> Result<(), Rebuild>
        ensures ok { OnOk result (self.new ≡ self.old ++ number ∷ []) }
        ensures damaged { OnDamaged result (All (λ q. nat_cmp q number ≡ Less) self.old → ⊥) }
    {
        if !self.are_below(number) {
            return Err(Rebuild::Damaged);
        }
        match self.numbers.push(number) {
            Ok(()) => Ok(()),
            Err(_) => Err(Rebuild::Memory),
        }
    }

    /// The keys, the least first.
    pub(crate) fn as_slice(&self) -> &[RecordNo]
        ensures keys { result.now ≡ self.now }
        ensures ascend { IsStrictlySortedBy nat_cmp result.now }
    {
        self.numbers.as_slice()
    }

    /// Makes known to proofs that the keys ascend: a call does nothing.
    pub(crate) fn ascending(&self)
        ensures { IsStrictlySortedBy nat_cmp self.now }
    {
        let _ = &self.numbers;
    }
}
