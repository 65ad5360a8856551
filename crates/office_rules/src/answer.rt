//! The answers to acts.
ghost use Rattle.std.specs.Prelude.{◌≡◌};
ghost use Rattle.std.specs.List.{list_any};
ghost use Rattle.office_rules.specs.Answers.{is_refusal};

use crate::{Outcome, RunNo};
use office_base::Refusal;
use office_records::RecordNo;

/// What the office answers to an act.
#[derive(Clone, Copy, PartialEq, Eq, Debug)]
pub enum Answer {
    /// It is done.
    Done,
    /// It is done, and what was added has that number.
    Number(u32),
    /// The record was added before, with that number, and nothing was done.
    Same(RecordNo),
    /// A run took that record, and this came of it.
    Step(RecordNo, Outcome),
    /// The run found no other record and is closed, with the certificate of its number.
    RunClosed(RunNo),
    /// It is refused, and nothing was done.
    Refused(Refusal),
}

impl Answer {
    /// Whether it refuses the act.
    pub fn is_refusal(self) -> bool
        ensures { result ≡ is_refusal self }
    {
        matches!(self, Answer::Refused(_))
    }
}

/// Whether one of the answers refuses its act.
pub fn has_refusal(answers: &[Answer]) -> bool
    ensures { result ≡ list_any is_refusal answers.now }
{
    answers.iter().any(|answer| answer.is_refusal())
}
