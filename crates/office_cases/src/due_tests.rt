//! Due days, deadlines, day texts and their numbers.
use crate::answering::push_refused;
use crate::rows::word;
use crate::streams::Narrow;
use crate::written::push;
use office_base::{Io, Refusal};
use office_days::{Day, Deadline, DueDay, deadline, read_confirm_days};
use office_plan::due_to;
use std::io::Write;

pub(crate) const ROWS: &str = r"
    # 29 February and years
    due years 1 none 2020-02-29 = 2021-02-28\n
    due years 100 none 2000-02-29 = 2100-02-28\n
    # a month from the 31st, and a week over the end of a leap February
    due months 1 none 2020-01-31 = 2020-02-29\n
    due months 1 none 1900-01-31 = 1900-02-28\n
    due weeks 1 none 2024-02-26 = 2024-03-04\n
    # the offsets
    due days 0 month 2023-12-31 = 2024-01-01\n
    due days 0 quarter 2024-01-01 = 2024-01-01\n
    due days 0 quarter 2024-10-02 = 2025-01-01\n
    due years 7 from-month-4 2017-06-30 = 2025-04-01\n
    # usual rules: after the end of a year, also of one from April; its first day, which stays; at least 72 hours
    due years 10 from-month-1 2024-12-31 = 2035-01-01\n
    due years 10 from-month-1 2024-01-02 = 2035-01-01\n
    due years 10 from-month-1 2024-01-01 = 2034-01-01\n
    due years 6 from-month-4 2024-03-31 = 2030-04-01\n
    due years 6 from-month-4 2023-04-01 = 2029-04-01\n
    due days 4 none 2024-01-02 = 2024-01-06\n
    # the greatest due day, and zeros in front of a count
    due years 500 from-month-12 2999-12-31 = 3500-12-01\n
    due years 00000000000000000000007 none 2017-06-30 = 2024-06-30\n
    # a count over the limit, however long, unless a text is bad too
    due years 501 none 2017-06-30 = refused 3
    due years 99999999999999999999999 none 2017-06-30 = refused 3
    due years 501 from-month-04 2017-06-30 = refused 2
    # texts that are not of their form
    due years||none|2017-06-30 = refused 2
    due years +7 none 2017-06-30 = refused 2
    due year 7 none 2017-06-30 = refused 2
    due years 7 none 2023-02-29 = refused 2
    due years 7 none 2024-2-01 = refused 2
    due years 7 none 3000-01-01 = refused 2
    due years 7 none 0000-12-31 = refused 2
    writer years 7 from-month-4 2017-06-30 = fails at each byte
    # where a count is refused, nothing is written
    no-room years 501 none 2017-06-30 = refused 3

    # days and their numbers
    day 2023-02-29 = none
    day 2024-2-01 = none
    day 3000-01-01 = none
    day 0000-12-31 = none
    day 0001-01-01 = -719162
    day 1970-01-01 = 0
    day 2024-02-29 = 19782
    day 2999-12-31 = 376199

    # deadlines, so many days after the due day of that number; the last that there is; counts that are none
    deadline 20090 0 = 2025-01-02
    deadline 20090 30 = 2025-02-01
    deadline 20090 0003650 = 2034-12-31
    deadline 559155 3650 = 3510-11-29
    deadline 20090 3651 = refused 3
    deadline 20090 99999999999999999999999 = refused 3
    deadline 20090 -1 = refused 2
    deadline 20090| = refused 2
    # its own day is in time, the next is not
    late 20090 30 2025-02-01 = no
    late 20090 30 2025-02-02 = yes
";

/// Writes the due day that words ask for, or gives its refusal.
fn due<W: Write>(ask: &str, writer: &mut W) -> Result<Option<Refusal>, Io> {
    let (unit, count) = (word(ask, 0), word(ask, 1));
    let (offset, day) = (word(ask, 2), word(ask, 3));
    due_to(unit, count, offset, day, writer)
}

/// The line of a due day, or its refusal.
fn report_due(ask: &str, out: &mut Vec<u8>) -> Option<()> {
    match due(ask, out) {
        Ok(None) => Some(()),
        Ok(Some(refusal)) => push_refused(out, refusal),
        Err(Io) => None,
    }
}

/// A refusal, for which a writer without room is not touched.
fn report_no_room(ask: &str, out: &mut Vec<u8>) -> Option<()> {
    match due(ask, &mut Narrow { room: 0 }) {
        Ok(Some(refusal)) => push_refused(out, refusal),
        _ => None,
    }
}

/// A writer with room for fewer bytes than the eleven of a line, and one with room for them.
fn report_writer(ask: &str, out: &mut Vec<u8>) -> Option<()> {
    for room in 0..11 {
        if due(ask, &mut Narrow { room }) != Err(Io) {
            return None;
        }
    }
    match due(ask, &mut Narrow { room: 11 }) {
        Ok(None) => push(out, "fails at each byte"),
        _ => None,
    }
}

/// The number of the day that a text names, which its day must give back.
fn report_day(text: &str, out: &mut Vec<u8>) -> Option<()> {
    match Day::read(text) {
        None => push(out, "none"),
        Some(day) if day.text().as_slice() == text.as_bytes() => {
            write!(out, "{}", day.number()).ok()
        }
        Some(_) => None,
    }
}

/// The deadline that a number of a due day and a count ask for.
fn deadline_asked(ask: &str) -> Option<Result<Deadline, Refusal>> {
    let due = DueDay::of_number(word(ask, 0).parse().ok()?)?;
    Some(match read_confirm_days(word(ask, 1)) {
        Ok(days) => Ok(deadline(due, days)),
        Err(refusal) => Err(refusal),
    })
}

/// The deadline, or the refusal of its count.
fn report_deadline(ask: &str, out: &mut Vec<u8>) -> Option<()> {
    match deadline_asked(ask)? {
        Ok(deadline) => out.extend_from_slice(&deadline.text()).ok(),
        Err(refusal) => push_refused(out, refusal),
    }
}

/// Whether a deadline is over on a day.
fn report_late(ask: &str, out: &mut Vec<u8>) -> Option<()> {
    let deadline = deadline_asked(ask)?.ok()?;
    let is_late = deadline.passed(Day::read(word(ask, 2))?);
    push(out, if is_late { "yes" } else { "no" })
}

pub(crate) fn report(word: &str, asked: &[u8], out: &mut Vec<u8>) -> Option<()> {
    let text = str::from_utf8(asked).ok()?;
    match word {
        "due" => report_due(text, out),
        "no-room" => report_no_room(text, out),
        "writer" => report_writer(text, out),
        "day" => report_day(text, out),
        "deadline" => report_deadline(text, out),
        "late" => report_late(text, out),
        _ => None,
    }
}
