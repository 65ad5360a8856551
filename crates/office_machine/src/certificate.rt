//! Certificates of closed runs, as the office in memory has them.
ghost use Rattle.std.specs.Prelude.{◌≡◌};
ghost use Rattle.std.specs.String.{string_bytes};

use std::marker::Model;

/// The text of a closed run's certificate. Contracts see its bytes.
#[derive(Drop)]
pub struct Certificate {
    text: String,
}

impl Model for Certificate {
    ghost use Rattle.std.specs.Prelude.{List, ℕ};
    ghost use Rattle.std.specs.String.{string_bytes};

    ghost Value = { List ℕ };

    ghost view = { λ c. string_bytes c.text };
}

impl Certificate {
    /// The certificate of that text.
    pub fn new(text: String) -> Certificate
        ensures { result ≡ string_bytes text }
    {
        Certificate { text }
    }

    /// Its text.
    pub fn text(&self) -> &str
        ensures { result.now ≡ self.now }
    {
        self.text.as_str()
    }
}
