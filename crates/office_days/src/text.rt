//! Dates of the crate `jiff` as text, year, month and day in digits: written, and read back.
ghost use Rattle.std.specs.Prelude.{◌≡◌, ◌≢◌, ℕ, ◌-◌, ◌<◌, ◌≤◌, pos, ◌≤ℤ◌, IfSome, IsNone, SomeIff};
ghost use Rattle.office_days.specs.Calendar.{CivilDay, IsDay, day_of};
ghost use Rattle.office_days.specs.Texts.{day_text, digit, IsTwo, IsFour, IsDayParts};

use jiff::civil::Date;

/// The last digit of a number.
fn digit(number: u32) -> u8
    ensures { result ≡ digit number }
{
    b'0' + (number % 10) as u8
}

/// The digit that a byte is.
fn value_of(byte: u8) -> Option<u32>
    ensures { SomeIff result ((48 ≤ byte) × (byte < 58)) (byte - 48) }
{
    if byte >= 48 && byte < 58 {
        return Some(byte as u32 - 48);
    }
    None
}

/// The text of a date.
pub(crate) fn date_text(date: Date) -> [u8; 10]
    requires { pos 1 ≤ℤ date.year }
    ensures { result ≡ day_text (day_of date) }
{
    let (year, month, day) = (date.year() as u32, date.month() as u32, date.day() as u32);
    [
        digit(year / 1000),
        digit(year / 100),
        digit(year / 10),
        digit(year),
        b'-',
        digit(month / 10),
        digit(month),
        b'-',
        digit(day / 10),
        digit(day),
    ]
}

/// The number that two digits write.
fn two(tens: u8, ones: u8) -> Option<u32>
    ensures value { IfSome result (λ n. IsTwo tens ones n × (n < 100)) }
    ensures none { IsNone result → (n : ℕ) → IsTwo tens ones n → ⊥ }
{
    Some(value_of(tens)? * 10 + value_of(ones)?)
}

/// The number that four digits write.
fn four(high: (u8, u8), low: (u8, u8)) -> Option<u32>
    ensures value { IfSome result (λ n. IsFour high.0 high.1 low.0 low.1 n × (n < 10_000)) }
    ensures none { IsNone result → (n : ℕ) → IsFour high.0 high.1 low.0 low.1 n → ⊥ }
{
    Some(two(high.0, high.1)? * 100 + two(low.0, low.1)?)
}

/// The date with these parts, from the year 1 on.
fn date_of_parts(year: u32, month: u32, day: u32) -> Option<Date>
    requires { (year < 10_000) × (month < 100) × (day < 100) }
    ensures value { IfSome result (λ d. IsDayParts d year month day) }
    ensures none { IsNone result → (c : CivilDay) → IsDay c → c.year ≡ year → c.month ≡ month
        → c.day ≡ day → ⊥ }
{
    if year == 0 {
        return None;
    }
    Date::new(year as i16, month as i8, day as i8).ok()
}

/// The date that a text names, from the year 1 on.
pub(crate) fn read_date(text: &[u8]) -> Option<Date>
    ensures value { IfSome result (λ d. (text.now ≡ day_text (day_of d)) × (pos 1 ≤ℤ d.year)) }
    ensures none { IsNone result → (c : CivilDay) → IsDay c → c.year ≤ 9999
        → text.now ≢ day_text c }
{
    if text.len() != 10 || text[4] != b'-' || text[7] != b'-' {
        return None;
    }
    let year = four((text[0], text[1]), (text[2], text[3]))?;
    let month = two(text[5], text[6])?;
    let day = two(text[8], text[9])?;
    date_of_parts(year, month, day)
}
