//! The settings in force, which are read anew for each connection.
ghost use Rattle.std.specs.Prelude.{◌≡◌, Err, IfErr, IfOk, List, MatchResult, None, Ok, Option, Result, ℕ};
ghost use Rattle.office_base.specs.declared.stop.Stop.{Stop};
ghost use Rattle.office_gate.specs.InForce.{AddsReading, IsPolicyIn, IsRefused, Renews};

use crate::gate::Gate;
use office_access::Policy;
use office_base::{Memory, Stop};
use office_policy::read_settings;
use office_records::Text;
use office_settings::Fault;
use std::alloc::Global;

/// Why a text of settings is not taken over.
#[derive(Clone, Copy, PartialEq, Eq, Debug)]
pub enum AccessError {
    /// The text could not be read.
    Io,
    /// Memory was refused.
    Memory,
    /// The text is no file of settings.
    Wrong(Fault),
}

impl From<Stop> for AccessError {
    ghost use Rattle.std.specs.Prelude.{◌≡◌};
    ghost use Rattle.office_gate.specs.InForce.{error_of_stop};

    ghost from_gives = { λ stop error. error ≡ error_of_stop stop };

    fn from(stop: Stop) -> AccessError {
        match stop {
            Stop::Io => AccessError::Io,
            Stop::Memory => AccessError::Memory,
        }
    }
}

/// Where the text of the settings comes from.
pub trait SettingsText: Drop {
    /// What was read so far, one reading after another. A file reports none.
    ghost readings: { Self → Option (List (Result (List ℕ) Stop)) } = { λ _. None };

    /// Reads the text as it is now.
    fn read(&mut self, alloc: Global) -> Result<Vec<u8>, Stop>
        ensures { MatchResult result
            (λ text. AddsReading (readings self.old) (readings self.new) (Ok text.items))
            (λ stop. AddsReading (readings self.old) (readings self.new) (Err stop)) };

    /// Reports why a text was not taken over.
    fn report(&mut self, error: AccessError)
        ensures { readings self.new ≡ readings self.old };
}

/// The settings in force at a gate: those of the last text that was a file of settings.
#[derive(Drop)]
pub struct Access<T> {
    /// Where the text comes from.
    pub source: T,
    pub gate: Gate,
    /// The last text that was read; it may be no file of settings.
    pub seen: Vec<u8>,
}

/// Reads a text as settings, and returns their policy.
fn policy_in(alloc: Global, text: &[u8]) -> Result<Policy, AccessError>
    ensures ok { IfOk result (λ policy. IsPolicyIn text.now policy) }
    ensures err { IfErr result (λ error. IsRefused text.now error) }
{
    match read_settings(alloc, text) {
        Ok(Ok(settings)) => Ok(settings.policy),
        Ok(Err(fault)) => Err(AccessError::Wrong(fault)),
        Err(Memory) => Err(AccessError::Memory),
    }
}

impl<T: SettingsText> Access<T> {
    /// Reads the first settings, for a proxy with that secret. `Io` and `Memory` come as the source
    /// returns them, `Memory` also if it is refused for the settings; `Wrong` has the first line that
    /// is wrong.
    pub fn open(alloc: Global, mut source: T, token: Text) -> Result<Access<T>, AccessError>
        ensures policy { IfOk result (λ access. IsPolicyIn access.seen.items access.gate.policy) }
        ensures token { IfOk result (λ access. access.gate.token ≡ token) }
    {
        let seen = source.read(alloc)?;
        let policy = policy_in(alloc, &seen)?;
        Ok(Access {
            source,
            gate: Gate { policy, token },
            seen,
        })
    }

    /// Reads the text anew. If another text came that is a file of settings, its settings are in
    /// force from now on, and the result is true. After an error those of before are. A text that is
    /// wrong is reported once.
    pub fn renew(&mut self, alloc: Global) -> Result<bool, AccessError>
        ensures { Renews T.readings result self.old self.new }
    {
        let text = self.source.read(alloc)?;
        if text.as_slice() == self.seen.as_slice() {
            return Ok(false);
        }
        let policy = policy_in(alloc, &text);
        self.seen = text;
        self.gate.policy = policy?;
        Ok(true)
    }
}
