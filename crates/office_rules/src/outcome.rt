//! The outcomes of a run for a record, and their words.
ghost use Rattle.std.specs.Prelude.{◌≡◌};
ghost use Rattle.office_rules.specs.Outcomes.{is_ending, is_sending, is_skipping, outcome_named, outcome_word};

/// What a disposal run did with a record.
#[derive(Clone, Copy, PartialEq, Eq, Debug)]
pub enum Outcome {
    /// It was due to be destroyed, and its content is gone.
    Destroyed,
    /// Its receiver has reported that it has the copy, and the content here is gone.
    Transferred,
    /// A copy may be sent to its receiver; the content is still here.
    Sent,
    /// A hold kept it from being ended.
    Skipped,
}

impl Outcome {
    /// The outcome of that word: `destroyed`, `transferred`, `sent` or `skipped`.
    pub fn read(text: &str) -> Option<Outcome>
        ensures { result ≡ outcome_named text.now }
    {
        match text {
            "destroyed" => Some(Outcome::Destroyed),
            "transferred" => Some(Outcome::Transferred),
            "sent" => Some(Outcome::Sent),
            "skipped" => Some(Outcome::Skipped),
            _ => None,
        }
    }

    /// The word for the outcome, which `read` takes back.
    pub fn text(self) -> &'static str
        ensures { result.now ≡ outcome_word self }
    {
        match self {
            Outcome::Destroyed => "destroyed",
            Outcome::Transferred => "transferred",
            Outcome::Sent => "sent",
            Outcome::Skipped => "skipped",
        }
    }

    /// Whether the record is ended by it.
    pub fn is_ending(self) -> bool
        ensures { result ≡ is_ending self }
    {
        matches!(self, Outcome::Destroyed | Outcome::Transferred)
    }

    /// Whether a copy may be sent.
    pub fn is_sending(self) -> bool
        ensures { result ≡ is_sending self }
    {
        matches!(self, Outcome::Sent)
    }

    /// Whether a hold kept the record.
    pub fn is_skipping(self) -> bool
        ensures { result ≡ is_skipping self }
    {
        matches!(self, Outcome::Skipped)
    }
}
