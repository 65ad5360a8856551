//! A request that may change the office, and who sends it.
ghost use Rattle.std.specs.Prelude.{◌≡◌};

use office_guard::Keeper;
use office_rules::Act;

/// Who asks, where the request came from, and under which settings.
#[derive(Drop)]
pub struct Visit<'a> {
    pub keeper: Keeper<'a>,
    /// The address that the request is stated to come from.
    pub from: &'a str,
    /// The SHA-256 of the settings that decide the request.
    pub settings: [u8; 32],
}

impl Visit<'_> {
    /// Returns the address that the request is stated to come from.
    pub(crate) fn address(&self) -> &str
        ensures { result.now ≡ self.now.from.now }
    {
        self.from
    }
}

/// A request that may change the office.
#[derive(Clone, Copy)]
pub enum Wanted<'a> {
    /// The acts of a body.
    Acts { body: &'a [u8], acts: &'a [Act] },
    /// The open run goes on to its end.
    Resumption,
}
