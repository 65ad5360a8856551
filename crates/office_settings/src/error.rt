//! The errors of a reading.
ghost use Rattle.std.specs.Prelude.{◌≡◌};
ghost use Rattle.office_settings.specs.Files.{fault_at};

use crate::{Fault, Wrong};
use std::alloc::{AllocError, AllocFailed};

/// Why a file of settings is not read.
#[derive(Clone, Copy, PartialEq, Eq, Debug)]
pub enum SettingsError {
    /// Memory was asked for and refused.
    OutOfMemory,
    /// The file is wrong.
    Refused(Fault),
}

impl SettingsError {
    /// Makes the error of a line.
    pub(crate) fn at(number: usize, wrong: Wrong) -> SettingsError
        ensures { result ≡ SettingsError.Refused (fault_at number wrong) }
    {
        SettingsError::Refused(Fault {
            line: Some(number),
            wrong,
        })
    }

    /// Makes the error of a file in which something is missing.
    pub(crate) fn of_file(wrong: Wrong) -> SettingsError
        ensures { result ≡ SettingsError.Refused (record { line = None; wrong = wrong }) }
    {
        SettingsError::Refused(Fault { line: None, wrong })
    }
}

impl From<AllocError> for SettingsError {
    ghost use Rattle.office_settings.specs.declared.error.SettingsError.{SettingsError};

    ghost from_gives = { λ _ error. error ≡ SettingsError.OutOfMemory };

    fn from(_refused: AllocError) -> SettingsError {
        SettingsError::OutOfMemory
    }
}

impl<T: Drop> From<AllocFailed<T>> for SettingsError {
    ghost use Rattle.office_settings.specs.declared.error.SettingsError.{SettingsError};

    ghost from_gives = { λ _ error. error ≡ SettingsError.OutOfMemory };

    fn from(_refused: AllocFailed<T>) -> SettingsError {
        SettingsError::OutOfMemory
    }
}
