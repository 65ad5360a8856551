//! Why an act is denied.
ghost use Rattle.std.specs.Prelude.{◌≡◌};
ghost use Rattle.office_access.specs.Words.{denial_rule, denial_word};

use crate::Rule;

/// Why a name may not do an act, in the order in which the policy asks.
#[derive(Clone, Copy, PartialEq, Eq, Debug)]
pub enum Denial {
    /// The settings give the name no rights.
    Name,
    /// The name has no right to acts of that kind.
    Right,
    /// The act states that somebody else did it.
    By,
    /// The day of the act is after today, and the name has no right to a later day.
    Future,
    /// The name has no right to acts of that kind in a class that the act is about.
    Class,
    /// A rule of four eyes keeps the name from the act.
    Eyes(Rule),
}

impl Denial {
    /// The word for the denial, as an answer states it.
    pub fn text(self) -> &'static str
        ensures { result.now ≡ denial_word self }
    {
        match self {
            Denial::Name => "name",
            Denial::Right => "right",
            Denial::By => "by",
            Denial::Future => "future",
            Denial::Class => "class",
            Denial::Eyes(_) => "eyes",
        }
    }

    /// The rule of four eyes that keeps the name from the act, if it is a rule that does.
    pub fn rule(self) -> Option<Rule>
        ensures { result ≡ denial_rule self }
    {
        match self {
            Denial::Eyes(rule) => Some(rule),
            _ => None,
        }
    }
}
