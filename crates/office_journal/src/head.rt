//! The head of a journal.
ghost use Rattle.std.specs.Prelude.{◌≡◌};
ghost use Rattle.office_journal.specs.Lines.{start};

/// The last line of a journal: its number, from 1 on, and the SHA-256 of its bytes.
#[derive(Clone, Copy, PartialEq, Eq, Debug)]
pub struct Head {
    pub line: u64,
    pub digest: [u8; 32],
}

impl Head {
    /// Returns the head of a journal without a line: number 0, and a digest of zeros.
    pub fn start() -> Head
        ensures { result ≡ start }
    {
        Head {
            line: 0,
            digest: [0u8; 32],
        }
    }
}
