//! What a right allows.
ghost use Rattle.std.specs.Prelude.{◌≡◌};
ghost use Rattle.office_access.specs.Kinds.{power_number, same_power};

use crate::{Kind, Reading};

/// What a right allows: an act of a kind, or something beside the acts.
#[derive(Clone, Copy)]
pub enum Power {
    /// An act of that kind.
    Act(Kind),
    /// To carry out the open run to its end.
    Resume,
    /// To put a file into the vault.
    Vault,
    /// An act of a later day than today.
    LaterDay,
    /// To read that thing.
    Read(Reading),
}

impl Power {
    /// Numbers the powers: each has its own number.
    pub fn number(self) -> u8
        ensures { result ≡ power_number self }
    {
        match self {
            Power::Act(kind) => kind.number(),
            Power::Resume => 18,
            Power::Vault => 19,
            Power::LaterDay => 20,
            Power::Read(reading) => reading.number(),
        }
    }

    /// Reports whether the two are one power.
    pub fn is(self, other: Power) -> bool
        ensures { result ≡ same_power self other }
    {
        self.number() == other.number()
    }
}
