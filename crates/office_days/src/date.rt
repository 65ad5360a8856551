//! Dates of the crate `jiff`: the date of a day number, and the end of a period from a date on.
ghost use Rattle.std.specs.Prelude.{◌≡◌, ◌≤◌, pos, ◌≤ℤ◌};
ghost use Rattle.jiff.specs.Words.{epoch_day, IsEpochDay, span_months, span_days};
ghost use Rattle.jiff_core.specs.Span.{clock_days};
ghost use Rattle.office_days.specs.Due.{end_of};
ghost use Rattle.office_days.specs.Limits.{IsDayNumber, longest};
ghost use Rattle.office_days.specs.Spans.{months_in, days_in};

use crate::{Period, Unit};
use jiff::civil::Date;
use jiff::{Span, ToSpan};
use jiff_core::civil;

/// The date with that day number.
pub(crate) fn date_of(number: i32) -> Date
    requires { IsEpochDay number }
    ensures { epoch_day result ≡ number }
{
    match civil::Date::from_unix_epoch_day(number as i64) {
        Ok(date) => Date::from_plain(date),
        Err(_) => unreachable!(),
    }
}

/// The span of a period.
fn span_of(period: Period) -> Span
    ensures months { span_months result ≡ pos (months_in period.unit period.count) }
    ensures days { span_days result ≡ pos (days_in period.unit period.count) }
    ensures clock { clock_days result ≡ pos 0 }
    ensures within { period.count ≤ longest period.unit }
{
    let count = period.count() as i64;
    match period.unit() {
        Unit::Days => count.days(),
        Unit::Weeks => count.weeks(),
        Unit::Months => count.months(),
        Unit::Years => count.years(),
    }
}

/// The date on which a period ends that begins on a date.
pub(crate) fn end_of(start: Date, period: Period) -> Date
    requires { IsDayNumber (epoch_day start) }
    ensures value { epoch_day result ≡ end_of (epoch_day start) period }
    ensures range { (pos 1 ≤ℤ result.year) × (result.year ≤ℤ pos 3499) }
    ensures within { period.count ≤ longest period.unit }
{
    match start.checked_add(span_of(period)) {
        Ok(date) => date,
        Err(_) => unreachable!(),
    }
}
