//! The months of the year, by name and number.
ghost use Rattle.std.specs.Prelude.{◌≡◌, ◌≤◌};

/// A month of the year.
#[derive(Clone, Copy, PartialEq, Eq, Debug)]
pub enum Month {
    January,
    February,
    March,
    April,
    May,
    June,
    July,
    August,
    September,
    October,
    November,
    December,
}

impl Month {
    ghost use Rattle.office_days.specs.Offsets.{month_number};

    /// The month's number, from 1 to 12.
    pub fn number(self) -> u8
        ensures value { result ≡ month_number self }
        ensures range { (1 ≤ result) × (result ≤ 12) }
    {
        match self {
            Month::January => 1,
            Month::February => 2,
            Month::March => 3,
            Month::April => 4,
            Month::May => 5,
            Month::June => 6,
            Month::July => 7,
            Month::August => 8,
            Month::September => 9,
            Month::October => 10,
            Month::November => 11,
            Month::December => 12,
        }
    }
}
