//! The civil days that may be handed in, by number and as text.
ghost use Rattle.std.specs.Prelude.{neg_ℤ, pos, ◌≡◌, ◌↔◌, ◌≤◌, IsSome, IfSome, ℤ, ◌≤ℤ◌};
ghost use Rattle.jiff.specs.Words.{epoch_day};
ghost use Rattle.office_days.specs.Calendar.{CivilDay, IsDay, civil, number_of};
ghost use Rattle.office_days.specs.Limits.{IsDayNumber};
ghost use Rattle.office_days.specs.Texts.{day_named, day_text};

use crate::date::date_of;
use crate::text::{date_text, read_date};
use jiff::civil::Date;
use std::marker::Model;

/// A civil day that is handed in, from 0001-01-01 to 2999-12-31. Contracts see its day number,
/// where 1970-01-01 is 0.
#[derive(Clone, Copy, PartialEq, Eq, PartialOrd, Ord, Debug)]
pub struct Day {
    number: i32,
}

impl Model for Day {
    ghost Value = { ℤ };

    ghost view = { λ d. d.number };

    ghost inverse = { λ n. record { number = n } };

    ghost invariant = { λ d. IsDayNumber d.number };
}

impl Day {
    /// The day that a text of exactly ten bytes names, as `2024-02-29`: year, month and day in
    /// digits with hyphens between. `None` where the calendar has no such day, or where it lies
    /// outside 0001-01-01 to 2999-12-31.
    pub fn read(text: &str) -> Option<Day>
        ensures named { result ≡ day_named text.now }
        ensures exact { IfSome result (λ d. text.now ≡ day_text (civil d)) }

        // Every day of the calendar up to 2999-12-31 is read, as the day that `jiff` numbers so.
        ensures every { (c : CivilDay) → IsDay c → c.year ≤ 2999 → text.now ≡ day_text c
            → result ≡ Some (number_of c) }
    {
        Day::of_date(read_date(text.as_bytes())?)
    }

    /// The day of a date, where it is in range.
    fn of_date(date: Date) -> Option<Day>
        ensures in_range { IsSome result ↔ IsDayNumber (epoch_day date) }
        ensures value { IfSome result (λ d. d ≡ epoch_day date) }
    {
        Day::of_number(date.to_plain().to_unix_epoch_day() as i64)
    }

    /// The day with that number, where 1970-01-01 is 0; `None` below -719162 (0001-01-01) and
    /// above 376199 (2999-12-31).
    pub fn of_number(number: i64) -> Option<Day>
        ensures in_range { IsSome result ↔ IsDayNumber number }
        ensures value { IfSome result (λ d. d ≡ number) }
    {
        if number < -719_162 || number > 376_199 {
            return None;
        }
        Some(Day {
            number: number as i32,
        })
    }

    /// The first day that there is, 0001-01-01.
    pub fn first() -> Day
        ensures { result ≡ neg_ℤ (pos 719_162) }
    {
        Day { number: -719_162 }
    }

    /// The date of `jiff` for the day.
    pub(crate) fn date(self) -> Date
        ensures value { epoch_day result ≡ self }
        ensures in_range { IsDayNumber (epoch_day result) }
    {
        date_of(self.number())
    }

    /// The day number, where 1970-01-01 is 0.
    pub fn number(self) -> i32
        ensures value { result ≡ self }
        ensures in_range { IsDayNumber result }
    {
        self.number
    }

    /// The day as `read` takes it, in ten ASCII bytes.
    pub fn text(self) -> [u8; 10]
        ensures value { result ≡ day_text (civil self) }

        // The day that is written is one of the calendar, and the one that `jiff` numbers so.
        ensures calendar { IsDay (civil self) × (number_of (civil self) ≡ self) }
    {
        date_text(self.date())
    }
}
