//! Plan files, and what a failing reader or writer leaves.
use crate::answering::push_refused;
use crate::streams::{Narrow, Sent};
use crate::written::push;
use office_plan::{PlanStop, plan_to};
use std::alloc::Global;
use std::io::Write;

/// Two schedules, two classes, an aggregation in another, which is closed, and three records.
pub(crate) const CLOSED: &str = "schedule C closed months 1 quarter destroy
schedule K added days 0 none keep
class FIN C
class PER K
aggregation FIN -
aggregation - 1
record 2 - - 2024-01-02 2024-01-02
record 2 PER - 2024-01-02 2024-01-02
record 1 - - 2024-01-02 2024-01-02
close 2 2024-01-31
";

/// One class and two records of it, the last line without its end.
pub(crate) const TWO: &str = "schedule D1 added years 1 none destroy
class FIN D1
aggregation FIN -
record 1 - - 2024-01-02 2024-01-02
record 1 - - 2024-01-02 2024-02-29";

/// One class whose schedule counts from an event, and two records of it.
pub(crate) const EVENT: &str = "schedule E event years 2 none destroy
class FIN E
aggregation FIN -
record 1 - - 2024-01-02 2024-01-02
record 1 - - 2024-01-02 2024-01-02
";

/// `CLOSED`, `TWO` and `EVENT` represent those files.
pub(crate) const ROWS: &str = r"
    plan CLOSED = 1 2024-04-01\n2 -\n3 -\n
    plan TWO + \n = 1 2025-01-02\n2 2025-02-28\n
    plan TWO = 1 2025-01-02\n2 2025-02-28\n
    plan schedule D1 added years 1 none destroy\r\nclass FIN D1\r\naggregation FIN -\r\nrecord 1 - - 2024-01-02 2024-01-02\r\nrecord 1 - - 2024-01-02 2024-02-29\r\n = 1 2025-01-02\n2 2025-02-28\n
    plan nothing = nothing
    plan \n\r\n\n = nothing
    # the last addition is the greatest day
    plan schedule L last-addition days 30 none destroy\nclass FIN L\naggregation FIN -\nrecord 1 - - 2024-01-02 2024-03-01\nrecord 1 - - 2024-01-02 2024-01-02\n = 1 2024-03-31\n2 2024-03-31\n

    # made on 1 January: in the aggregation of the year, closed on 31 December; by its own day. After an event
    plan schedule B closed years 10 from-month-1 destroy\nschedule D origin years 10 from-month-1 destroy\nschedule E closed years 2 none destroy\nclass FIN B\naggregation FIN -\naggregation FIN -\nrecord 1 - - 2024-01-01 2024-01-02\nrecord 1 - D 2024-01-01 2024-01-02\nrecord 2 - E 2020-01-07 2020-01-07\nclose 1 2024-12-31\nclose 2 2024-06-30\n = 1 2035-01-01\n2 2034-01-01\n3 2026-06-30\n

    # two years after an event of record 1; a later line of the same record replaces it
    plan EVENT = 1 -\n2 -\n
    plan EVENT + event 1 2024-02-29\n = 1 2026-02-28\n2 -\n
    plan EVENT + event 1 2024-02-29\nevent 1 2024-03-31\n = 1 2026-03-31\n2 -\n

    # a further line that is refused
    plan CLOSED + aggregation - - = line 11 refused 10
    plan CLOSED + aggregation FIN 2 = line 11 refused 7
    plan CLOSED + close 2 2024-02-01 = line 11 refused 7
    plan CLOSED + record 9 - - 2024-01-02 2024-01-02 = line 11 refused 5
    plan CLOSED + record 0 - - 2024-01-02 2024-01-02 = line 11 refused 3
    plan CLOSED + record 1 - - 2024-01-02 2023-02-29 = line 11 refused 2
    plan CLOSED + record 0 - - 2024-01-02 2023-02-29 = line 11 refused 2
    plan CLOSED + schedule C added days 0 none keep = line 11 refused 4
    plan CLOSED + schedule - added days 0 none keep = line 11 refused 2
    plan CLOSED + schedule X added years 501 none keep = line 11 refused 3
    plan CLOSED + schedule X added years 501 no keep = line 11 refused 2
    plan CLOSED + class FIN NON = line 11 refused 4
    plan CLOSED + class NEW NON = line 11 refused 5
    plan CLOSED + class A - = line 11 refused 2
    plan CLOSED + close 1 = line 11 refused 2
    plan CLOSED + close  1 2024-02-01 = line 11 refused 2
    plan CLOSED + open 1 2024-02-01 = line 11 refused 2
    plan CLOSED + \s = line 11 refused 2
    plan CLOSED + \r = line 11 refused 2

    plan EVENT + event 3 2024-02-29 = line 6 refused 5
    plan EVENT + event 1 = line 6 refused 2
    plan EVENT + event 0 2024-02-29 = line 6 refused 3
    plan EVENT + event 0 2024-02-30 = line 6 refused 2
    plan EVENT + event 1 2024-02-29 x = line 6 refused 2
    plan EVENT + event - 2024-02-29 = line 6 refused 2

    # of several lines the first is told: an open child, a lone carriage return, a byte that is no text
    plan schedule C closed months 1 quarter destroy\nschedule K added days 0 none keep\nclass FIN C\nclass PER K\naggregation FIN -\naggregation - 1\nrecord 2 - - 2024-01-02 2024-01-02\nrecord 2 PER - 2024-01-02 2024-01-02\nrecord 1 - - 2024-01-02 2024-01-02\nclose 1 2024-01-31\nx\n = line 10 refused 8
    plan \r = line 1 refused 2
    plan \n\nclass \f D1\nx\n = line 3 refused 2

    # the ninth aggregation is too deep
    plan schedule D added days 0 none keep\nclass A D\naggregation A -\naggregation - 1\naggregation - 2\naggregation - 3\naggregation - 4\naggregation - 5\naggregation - 6\naggregation - 7\n = nothing
    plan schedule D added days 0 none keep\nclass A D\naggregation A -\naggregation - 1\naggregation - 2\naggregation - 3\naggregation - 4\naggregation - 5\naggregation - 6\naggregation - 7\naggregation - 8\n = line 11 refused 9

    reader TWO + \n = fails at each byte
    writer TWO + \n = fails at each of 26 bytes
";

/// What is printed of a file, or the line that is refused, where nothing is printed.
fn report_plan(mut file: &[u8], out: &mut Vec<u8>) -> Option<()> {
    match plan_to(*out.allocator(), &mut file, out) {
        Ok(None) => Some(()),
        Ok(Some((line, refusal))) if out.is_empty() => {
            write!(out, "line {line} ").ok()?;
            push_refused(out, refusal)
        }
        _ => None,
    }
}

/// A reader that breaks after each number of bytes, for which nothing is printed.
fn report_reader(file: &[u8], out: &mut Vec<u8>) -> Option<()> {
    for end in 0..file.len() {
        let mut reader = Sent::breaking(&file[..end]);
        if plan_to(*out.allocator(), &mut reader, out) != Err(PlanStop::Io) || !out.is_empty() {
            return None;
        }
    }
    push(out, "fails at each byte")
}

/// How a plan ends for a writer with that much room.
fn plan_into(alloc: Global, mut file: &[u8], room: usize) -> Result<bool, PlanStop> {
    let refused = plan_to(alloc, &mut file, &mut Narrow { room })?;
    Ok(refused.is_none())
}

/// A writer with room for fewer bytes than the 26 that are printed, and one with room for them.
fn report_writer(file: &[u8], out: &mut Vec<u8>) -> Option<()> {
    let alloc = *out.allocator();
    for room in 0..26 {
        if plan_into(alloc, file, room) != Err(PlanStop::Io) {
            return None;
        }
    }
    match plan_into(alloc, file, 26) {
        Ok(true) => push(out, "fails at each of 26 bytes"),
        _ => None,
    }
}

pub(crate) fn report(word: &str, file: &[u8], out: &mut Vec<u8>) -> Option<()> {
    match word {
        "plan" => report_plan(file, out),
        "reader" => report_reader(file, out),
        "writer" => report_writer(file, out),
        _ => None,
    }
}
