//! The statuses of a record, and their words.
ghost use Rattle.std.specs.Prelude.{◌≡◌, not};
ghost use Rattle.office_records.specs.Disposal.{is_ended};
ghost use Rattle.office_records.specs.Words.{status_named, status_word};

/// How far a record's disposal has come.
#[derive(Clone, Copy, PartialEq, Eq, Debug)]
pub enum Status {
    /// The office has the record, and no run sent or ended it. It may have been reviewed, confirmed
    /// or skipped.
    Here,
    /// A copy was sent to an archive, which has not yet said that it has it.
    Sent,
    /// The archive said that it has the copy.
    Received,
    /// The record was destroyed, or its transfer is complete.
    Ended,
}

impl Status {
    /// The status of that word: `here`, `sent`, `received` or `ended`.
    pub fn read(text: &str) -> Option<Status>
        ensures { result ≡ status_named text.now }
    {
        match text {
            "here" => Some(Status::Here),
            "sent" => Some(Status::Sent),
            "received" => Some(Status::Received),
            "ended" => Some(Status::Ended),
            _ => None,
        }
    }

    /// The word for the status, which `read` takes back.
    pub fn text(self) -> &'static str
        ensures { result.now ≡ status_word self }
    {
        match self {
            Status::Here => "here",
            Status::Sent => "sent",
            Status::Received => "received",
            Status::Ended => "ended",
        }
    }

    /// Whether the record's disposal is not complete.
    pub fn is_active(self) -> bool
        ensures { result ≡ not (is_ended self) }
    {
        match self {
            Status::Here | Status::Sent | Status::Received => true,
            Status::Ended => false,
        }
    }
}
