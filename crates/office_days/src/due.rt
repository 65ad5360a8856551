//! Due days, and the calendar's rule for one: a start day, a period and an offset.
ghost use Rattle.std.specs.Prelude.{◌≡◌, ◌↔◌, ◌*◌, ℤ, ◌≤ℤ◌, IsTrue, IsSome, IfSome};
ghost use Rattle.jiff.specs.Words.{epoch_day};
ghost use Rattle.office_days.specs.Calendar.{IsDay, civil, number_of};
ghost use Rattle.office_days.specs.Due.{due_from, end_of, IsMonthsLater};
ghost use Rattle.office_days.specs.Limits.{IsDueNumber};
ghost use Rattle.office_days.specs.Offsets.{IsLeastFrom};
ghost use Rattle.office_days.specs.Texts.{day_text};

use crate::date::{date_of, end_of};
use crate::offset_day::move_to;
use crate::text::date_text;
use crate::{Day, Offset, Period, Unit};
use jiff::civil::Date;
use std::marker::Model;

/// A day on which something is due, from 0001-01-01 to 3500-12-01: what [`due_day`] can give.
/// Contracts see its day number, where 1970-01-01 is 0.
#[derive(Clone, Copy, PartialEq, Eq, PartialOrd, Ord, Debug)]
pub struct DueDay {
    number: i32,
}

impl Model for DueDay {
    ghost Value = { ℤ };

    ghost view = { λ d. d.number };

    ghost inverse = { λ n. record { number = n } };

    ghost invariant = { λ d. IsDueNumber d.number };
}

impl DueDay {
    /// The due day with that number, where 1970-01-01 is 0; `None` below -719162 (0001-01-01)
    /// and above 559155 (3500-12-01).
    pub fn of_number(number: i64) -> Option<DueDay>
        ensures in_range { IsSome result ↔ IsDueNumber number }
        ensures value { IfSome result (λ d. d ≡ number) }
    {
        if number < -719_162 || number > 559_155 {
            return None;
        }
        Some(DueDay {
            number: number as i32,
        })
    }

    /// The due day of a date.
    fn of_date(date: Date) -> DueDay
        requires { IsDueNumber (epoch_day date) }
        ensures { result ≡ epoch_day date }
    {
        DueDay {
            number: date.to_plain().to_unix_epoch_day(),
        }
    }

    /// The date of `jiff` for the day.
    fn date(self) -> Date
        ensures value { epoch_day result ≡ self }
        ensures in_range { IsDueNumber (epoch_day result) }
    {
        date_of(self.number())
    }

    /// The day number, where 1970-01-01 is 0.
    pub fn number(self) -> i32
        ensures value { result ≡ self }
        ensures in_range { IsDueNumber result }
    {
        self.number
    }

    /// The day in ten ASCII bytes, as `2024-02-29`.
    pub fn text(self) -> [u8; 10]
        ensures value { result ≡ day_text (civil self) }

        // The day that is written is one of the calendar, and the one that `jiff` numbers so.
        ensures calendar { IsDay (civil self) × (number_of (civil self) ≡ self) }
    {
        date_text(self.date())
    }

    /// Whether the due day has come on that day: it is not after it.
    pub fn reached(self, day: Day) -> bool
        ensures { IsTrue result ↔ (self ≤ℤ day) }
    {
        day.number() >= self.number
    }
}

/// The due day: the period is added to the start day, and the offset then moves its end on. It
/// never refuses: the greatest result is 3500-12-01.
pub fn due_day(start: Day, period: Period, offset: Offset) -> DueDay
    ensures exact { result ≡ due_from start period offset }

    // It is the least day, not before the period's end, that has the offset's property.
    ensures least { IsLeastFrom offset (end_of start period) result }

    // Months keep the day of the month, or take the month's last; a year is 12 of them.
    ensures months { period.unit ≡ Unit.Months
        → IsMonthsLater period.count (civil start) (civil (end_of start period)) }
    ensures years { period.unit ≡ Unit.Years
        → IsMonthsLater (12 * period.count) (civil start) (civil (end_of start period)) }
{
    DueDay::of_date(move_to(end_of(start.date(), period), offset))
}
