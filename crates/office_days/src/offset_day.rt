//! The first date, from a date on, that a calendar offset allows.
ghost use Rattle.std.specs.Prelude.{◌≡◌, ◌≢◌, ◌/◌, ◌%◌, ℕ, ◌+◌, ◌*◌, ◌<◌, ◌≤◌, pos, ◌≤ℤ◌, true, false};
ghost use Rattle.jiff.specs.Words.{epoch_day};
ghost use Rattle.office_days.specs.Calendar.{day_of, month_index};
ghost use Rattle.office_days.specs.Offsets.{is_offset_month, offset_found};

use crate::Offset;
use jiff::civil::{Date, date};

/// The first month from a month on whose first day an offset asks for, where months are counted
/// from January of the year 0.
fn offset_month(offset: Offset, from: u32) -> u32
    requires { from < 100_000 }
    ensures asked { is_offset_month offset result ≡ true }
    ensures least { (i : ℕ) → from ≤ i → i < result → is_offset_month offset i ≡ false }
    ensures low { from ≤ result }
    ensures high { result < from + 12 }
{
    match offset {
        Offset::AnyDay | Offset::FirstOfMonth => from,
        Offset::FirstOfQuarter => (from + 2) / 3 * 3,
        Offset::FirstOf(month) => from + (month.number() as u32 + 11 - from % 12) % 12,
    }
}

/// The first month that begins on a date or after it.
fn next_month(date: Date) -> u32
    requires { (pos 1 ≤ℤ date.year) × (date.year ≤ℤ pos 3499) }
    ensures begins { date.day ≡ 1 → result ≡ month_index (day_of date) }
    ensures later { date.day ≢ 1 → result ≡ month_index (day_of date) + 1 }
{
    let month = date.year() as u32 * 12 + (date.month() as u32 - 1);
    if date.day() == 1 { month } else { month + 1 }
}

/// The first day of a month.
fn first_of(month: u32) -> Date
    requires { (12 ≤ month) × (month < 12 * 3501) }
    ensures year { result.year ≡ pos (month / 12) }
    ensures month { result.month ≡ month % 12 + 1 }
    ensures day { result.day ≡ 1 }
{
    date((month / 12) as i16, (month % 12 + 1) as i8, 1)
}

/// The first day from a date on that an offset asks for.
pub(crate) fn move_to(end: Date, offset: Offset) -> Date
    requires { (pos 1 ≤ℤ end.year) × (end.year ≤ℤ pos 3499) }
    ensures value { offset_found offset (epoch_day end) ≡ Some (epoch_day result) }
    ensures range { (epoch_day end ≤ℤ epoch_day result) × (epoch_day result ≤ℤ pos 559_155) }
{
    if let Offset::AnyDay = offset {
        return end;
    }
    first_of(offset_month(offset, next_month(end)))
}
