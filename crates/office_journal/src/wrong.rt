//! Why a line of a journal is wrong.
ghost use Rattle.std.specs.Prelude.{◌≡◌};
ghost use Rattle.office_journal.specs.Reasons.{reason};

/// Why bytes are not the line after another.
#[derive(Clone, Copy, PartialEq, Eq, Debug)]
pub enum Wrong {
    /// They are no line of a journal, or the beginning of one.
    NoLine,
    /// They name another line before: that line was changed or cut out, or this one was moved.
    OtherBefore,
    /// They have another number than the next.
    OtherNumber,
}

/// The first wrong line of a text: its place there, from 1 on, and what is wrong.
#[derive(Clone, Copy, PartialEq, Eq, Debug)]
pub struct WrongLine {
    pub place: usize,
    pub wrong: Wrong,
}

impl Wrong {
    /// Returns the reason in words.
    pub fn text(self) -> &'static str
        ensures { result.now ≡ reason self }
    {
        match self {
            Wrong::NoLine => "this is no line of a journal",
            Wrong::OtherBefore => "this line names another line before it",
            Wrong::OtherNumber => "this line has another number than the next",
        }
    }
}
