//! The units in which a retention period is counted, and their words.
ghost use Rattle.std.specs.Prelude.{◌≡◌};
ghost use Rattle.office_days.specs.Words.{unit_named, unit_word};

/// In what a period is counted. A week is 7 days, a year is 12 months.
#[derive(Clone, Copy, PartialEq, Eq, Debug)]
pub enum Unit {
    Days,
    Weeks,
    Months,
    Years,
}

impl Unit {
    /// The unit of that word: `days`, `weeks`, `months` or `years`.
    pub fn read(text: &str) -> Option<Unit>
        ensures { result ≡ unit_named text.now }
    {
        match text {
            "days" => Some(Unit::Days),
            "weeks" => Some(Unit::Weeks),
            "months" => Some(Unit::Months),
            "years" => Some(Unit::Years),
            _ => None,
        }
    }

    /// The word for the unit, which `read` takes back.
    pub fn text(self) -> &'static str
        ensures { result.now ≡ unit_word self }
    {
        match self {
            Unit::Days => "days",
            Unit::Weeks => "weeks",
            Unit::Months => "months",
            Unit::Years => "years",
        }
    }
}
