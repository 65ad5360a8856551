//! The names of the settings, and the names that sign in.
ghost use Rattle.std.specs.Prelude.{◌≡◌};
ghost use Rattle.office_access.specs.Settings.{goes_by};

use crate::Grants;
use office_records::Text;

/// A name of the settings: the text that the office records as `by` for the name, and its rights.
#[derive(Drop)]
pub struct Person {
    pub name: Text,
    pub signs: Text,
    pub grants: Grants,
}

/// A name that signed in, with its look: the name without the case and the forms of its letters.
#[derive(Drop)]
pub struct SignIn {
    pub name: Text,
    pub look: Text,
}

impl Person {
    /// Reports whether the text is the name, or what the name signs.
    pub fn goes_by(&self, text: &Text) -> bool
        ensures { result ≡ goes_by text.now self.now }
    {
        self.name == *text || self.signs == *text
    }
}
