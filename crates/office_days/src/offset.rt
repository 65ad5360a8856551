//! Calendar offsets of a disposal schedule: to which day a period's end is moved, and their words.
ghost use Rattle.std.specs.Prelude.{◌≡◌};

use crate::Month;

/// To which day the end of a period is moved: the least day, not before that end, that is any day
/// at all, the first of a month, the first of January, April, July or October, or the first of
/// one month of the year. A day that is such a day already stays.
#[derive(Clone, Copy, PartialEq, Eq, Debug)]
pub enum Offset {
    AnyDay,
    FirstOfMonth,
    FirstOfQuarter,
    FirstOf(Month),
}

impl Offset {
    ghost use Rattle.office_days.specs.Words.{offset_named, offset_word};

    /// The offset of that word: `none`, `month`, `quarter`, or `from-month-1` to
    /// `from-month-12`, with no leading zero.
    pub fn read(text: &str) -> Option<Offset>
        ensures { result ≡ offset_named text.now }
    {
        match text {
            "none" => Some(Offset::AnyDay),
            "month" => Some(Offset::FirstOfMonth),
            "quarter" => Some(Offset::FirstOfQuarter),
            "from-month-1" => Some(Offset::FirstOf(Month::January)),
            "from-month-2" => Some(Offset::FirstOf(Month::February)),
            "from-month-3" => Some(Offset::FirstOf(Month::March)),
            "from-month-4" => Some(Offset::FirstOf(Month::April)),
            "from-month-5" => Some(Offset::FirstOf(Month::May)),
            "from-month-6" => Some(Offset::FirstOf(Month::June)),
            "from-month-7" => Some(Offset::FirstOf(Month::July)),
            "from-month-8" => Some(Offset::FirstOf(Month::August)),
            "from-month-9" => Some(Offset::FirstOf(Month::September)),
            "from-month-10" => Some(Offset::FirstOf(Month::October)),
            "from-month-11" => Some(Offset::FirstOf(Month::November)),
            "from-month-12" => Some(Offset::FirstOf(Month::December)),
            _ => None,
        }
    }

    /// The word for the offset, which `read` takes back.
    pub fn text(self) -> &'static str
        ensures { result.now ≡ offset_word self }
    {
        match self {
            Offset::AnyDay => "none",
            Offset::FirstOfMonth => "month",
            Offset::FirstOfQuarter => "quarter",
            Offset::FirstOf(Month::January) => "from-month-1",
            Offset::FirstOf(Month::February) => "from-month-2",
            Offset::FirstOf(Month::March) => "from-month-3",
            Offset::FirstOf(Month::April) => "from-month-4",
            Offset::FirstOf(Month::May) => "from-month-5",
            Offset::FirstOf(Month::June) => "from-month-6",
            Offset::FirstOf(Month::July) => "from-month-7",
            Offset::FirstOf(Month::August) => "from-month-8",
            Offset::FirstOf(Month::September) => "from-month-9",
            Offset::FirstOf(Month::October) => "from-month-10",
            Offset::FirstOf(Month::November) => "from-month-11",
            Offset::FirstOf(Month::December) => "from-month-12",
        }
    }
}
