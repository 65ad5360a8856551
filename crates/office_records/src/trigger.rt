//! What the retention period of a schedule begins with.
ghost use Rattle.std.specs.Prelude.{◌≡◌};
ghost use Rattle.office_records.specs.Words.{trigger_named, trigger_word};

/// What begins the retention period of a schedule.
#[derive(Clone, Copy, PartialEq, Eq, Debug)]
pub enum Trigger {
    /// The record's own day of origin.
    Origin,
    /// The record's addition to its aggregation.
    Added,
    /// The closing of the record's aggregation.
    Closed,
    /// The latest addition to the record's aggregation.
    LastAddition,
    /// The record's latest review.
    Review,
    /// The record's own event, such as the end of a contract; no start before one is recorded.
    Event,
}

impl Trigger {
    /// The trigger of that word: `origin`, `added`, `closed`, `last-addition`, `review` or `event`.
    pub fn read(text: &str) -> Option<Trigger>
        ensures { result ≡ trigger_named text.now }
    {
        match text {
            "origin" => Some(Trigger::Origin),
            "added" => Some(Trigger::Added),
            "closed" => Some(Trigger::Closed),
            "last-addition" => Some(Trigger::LastAddition),
            "review" => Some(Trigger::Review),
            "event" => Some(Trigger::Event),
            _ => None,
        }
    }

    /// The word for the trigger, which `read` takes back.
    pub fn text(self) -> &'static str
        ensures { result.now ≡ trigger_word self }
    {
        match self {
            Trigger::Origin => "origin",
            Trigger::Added => "added",
            Trigger::Closed => "closed",
            Trigger::LastAddition => "last-addition",
            Trigger::Review => "review",
            Trigger::Event => "event",
        }
    }
}
