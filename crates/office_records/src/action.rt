//! The disposal actions, and their words.
ghost use Rattle.std.specs.Prelude.{◌≡◌};
ghost use Rattle.office_records.specs.Words.{action_named, action_word};

/// What is to be done with a record once it is due. What is to be kept has no due day.
#[derive(Clone, Copy, PartialEq, Eq, Debug)]
pub enum Action {
    /// It is kept for good.
    Keep,
    /// Someone looks at it again and decides.
    Review,
    /// It is handed to an archive.
    Transfer,
    /// It is destroyed.
    Destroy,
}

impl Action {
    /// The action of that word: `keep`, `review`, `transfer` or `destroy`.
    pub fn read(text: &str) -> Option<Action>
        ensures { result ≡ action_named text.now }
    {
        match text {
            "keep" => Some(Action::Keep),
            "review" => Some(Action::Review),
            "transfer" => Some(Action::Transfer),
            "destroy" => Some(Action::Destroy),
            _ => None,
        }
    }

    /// The word for the action, which `read` takes back.
    pub fn text(self) -> &'static str
        ensures { result.now ≡ action_word self }
    {
        match self {
            Action::Keep => "keep",
            Action::Review => "review",
            Action::Transfer => "transfer",
            Action::Destroy => "destroy",
        }
    }
}
