//! Why the text of a line was not made.
use std::alloc::AllocError;

/// Why a line has no text.
#[derive(Clone, Copy, PartialEq, Eq, Debug)]
pub(crate) enum TextError {
    Memory,
    /// A text that should be JSON is none, has a member twice, or nests 128 deep.
    NoJson,
}

impl From<AllocError> for TextError {
    ghost use Rattle.std.specs.Prelude.{◌≡◌};
    ghost use Rattle.office_journal.specs.declared.text_error.TextError.TheVariants.{Memory};

    ghost from_gives = { λ _ error. error ≡ Memory };

    fn from(_refused: AllocError) -> TextError {
        TextError::Memory
    }
}

impl From<json::Error> for TextError {
    ghost use Rattle.std.specs.Prelude.{◌≡◌};
    ghost use Rattle.office_journal.specs.Unread.{text_error_of};

    ghost from_gives = { λ error reason. reason ≡ text_error_of error };

    fn from(error: json::Error) -> TextError {
        match error {
            json::Error::OutOfMemory => TextError::Memory,
            _ => TextError::NoJson,
        }
    }
}
