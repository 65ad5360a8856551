//! The things that can be read.
ghost use Rattle.std.specs.Prelude.{◌≡◌};
ghost use Rattle.office_access.specs.Kinds.{reading_number};

/// A thing to read.
#[derive(Clone, Copy)]
pub enum Reading {
    /// A record, without its content.
    Records,
    /// The content of a record, with the files of a vault that the content names.
    Contents,
    /// The records that are due, and those that are overdue.
    Lists,
    Certificates,
    /// All of an office as a page shows it, with titles.
    Catalogue,
    /// Who did what, and why.
    History,
    /// Whether all is well, for a monitor.
    Health,
}

impl Reading {
    /// Numbers the things to read, after the kinds of acts and what else a name may do.
    pub fn number(self) -> u8
        ensures { result ≡ reading_number self }
    {
        match self {
            Reading::Records => 21,
            Reading::Contents => 22,
            Reading::Lists => 23,
            Reading::Certificates => 24,
            Reading::Catalogue => 25,
            Reading::History => 26,
            Reading::Health => 27,
        }
    }
}
