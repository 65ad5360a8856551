//! Why a line was not written.
use crate::text_error::TextError;
use std::alloc::AllocError;

/// Why a line is not in the journal.
#[derive(Clone, Copy, PartialEq, Eq, Debug)]
pub enum Unwritten {
    /// Out of memory. Nothing was written, and the journal goes on. Which lines need too much memory
    /// is not stated: a caller may try the same line again.
    Memory,
    /// A text that should be JSON is none, has a member twice, or nests 128 deep, so that a reader of
    /// the line would refuse it. Nothing was written, and the journal goes on. Any other answer but
    /// `Memory` means that each such text was read.
    NoJson,
    /// The last number is taken. Nothing was written.
    Full,
    /// The writer failed: the file may end with the first bytes of the line. The journal takes no
    /// line until it is opened anew.
    Io,
    /// A line before was not written. Nothing was written now.
    Poisoned,
}

impl From<TextError> for Unwritten {
    ghost use Rattle.std.specs.Prelude.{◌≡◌};
    ghost use Rattle.office_journal.specs.Unread.{unwritten_of};

    ghost from_gives = { λ error why. why ≡ unwritten_of error };

    fn from(error: TextError) -> Unwritten {
        match error {
            TextError::Memory => Unwritten::Memory,
            TextError::NoJson => Unwritten::NoJson,
        }
    }
}

impl From<AllocError> for Unwritten {
    ghost use Rattle.std.specs.Prelude.{◌≡◌};
    ghost use Rattle.office_journal.specs.declared.unwritten.Unwritten.TheVariants.{Memory};

    ghost from_gives = { λ _ why. why ≡ Memory };

    fn from(_refused: AllocError) -> Unwritten {
        Unwritten::Memory
    }
}
