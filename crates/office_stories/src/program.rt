//! The program's words over a connection to an office.
use crate::failures::failure;
use crate::peer::{Document, Pieces};
use crate::repeating::{bytes_of, number, unescaped};
use office_command_line::{Order, Register};
use office_commands::run_on;
use office_days::{Day, read_confirm_days};
use sqlite::{Alter, Connection};
use std::alloc::Global;
use std::test::Fail;

/// The file that the orders name.
const FILE: &str = "office.db";

/// The order of an import on that day, and the text that it reads.
fn import_of(rest: &str) -> (Order<'static>, &str) {
    match rest.split_once(' ') {
        Some((day, text)) => match Day::read(day) {
            Some(day) => {
                let csv = "letters.csv";
                (
                    Order::Import {
                        file: FILE,
                        day,
                        csv,
                    },
                    text,
                )
            }
            None => (Order::Nothing, text),
        },
        None => (Order::Nothing, rest),
    }
}

/// The order of an export of that register.
fn export_of(register: &str) -> Order<'static> {
    match Day::read(register) {
        Some(day) => Order::Export {
            file: FILE,
            register: Register::Due(day),
        },
        None => Order::Export {
            file: FILE,
            register: Register::Entries,
        },
    }
}

/// The order of the register of what is overdue on that day, after so many days.
fn overdue_of(rest: &str) -> Order<'static> {
    let (day, count) = rest.split_once(' ').unwrap_or((rest, ""));
    match (Day::read(day), read_confirm_days(count)) {
        (Some(day), Ok(days)) => Order::Overdue {
            file: FILE,
            day,
            days,
        },
        _ => Order::Nothing,
    }
}

/// The order of those words, and the text that it reads.
fn order_of(words: &str) -> (Order<'static>, &str) {
    match words.split_once(' ') {
        Some(("certificate", run)) => {
            let run = run.parse().unwrap_or(0);
            (Order::Certificate { file: FILE, run }, "")
        }
        Some(("import", rest)) => import_of(rest),
        Some(("export", register)) => (export_of(register), ""),
        Some(("overdue", rest)) => (overdue_of(rest), ""),
        Some(("apply", text)) => {
            let acts = "acts.json";
            (Order::Apply { file: FILE, acts }, text)
        }
        _ if words == "init" => (Order::Init { file: FILE }, ""),
        _ if words == "resume" => (Order::Resume { file: FILE }, ""),
        _ => (Order::Nothing, ""),
    }
}

/// How many bytes of its text the program reads, and how many it writes, before the line fails.
#[derive(Clone, Copy)]
struct Line {
    read: usize,
    written: usize,
}

/// More bytes than any story has.
const ALL: usize = 1_000_000_000;

/// A row, and the line over which it is reported.
fn line_of(row: &str) -> Result<(&str, Line), Fail> {
    if let Some((row, count)) = row.rsplit_once(" while read up to ") {
        let read = number(count)? as usize;
        return Ok((row, Line { read, written: ALL }));
    }
    if let Some((row, count)) = row.rsplit_once(" while written up to ") {
        let written = number(count)? as usize;
        return Ok((row, Line { read: ALL, written }));
    }
    let line = Line {
        read: ALL,
        written: ALL,
    };
    Ok((row, line))
}

/// The bytes as far as the line gives them; it fails where that is not all.
fn bytes_over(bytes: &[u8], line: Line) -> Pieces<'_> {
    let (prefix, rest) = bytes.split_at(line.read.min(bytes.len()));
    Pieces {
        bytes: prefix,
        most: 4_096,
        fails: !rest.is_empty(),
    }
}

/// The status, the output and the line on standard error of a row's answer.
fn parts(answer: &str) -> Option<(&str, &str, &str)> {
    let (status, rest) = answer.split_once(';')?;
    let (output, line) = rest.split_once(';')?;
    Some((status, output, line))
}

/// Whether the document has what was awaited, or was `*`, as far as it took it.
fn is_written_so(document: &Document<'_>, output: &str) -> bool {
    output == "*" || !document.differs && (document.room == 0 || document.awaited.is_empty())
}

/// Carries out the order of those words over a line, and reports whether it is answered so.
fn is_carried_out<S: Alter>(
    alloc: Global,
    conn: Connection<S>,
    words: &str,
    answer: &str,
    line: Line,
) -> (bool, Connection<S>) {
    let Some((wanted, output, said)) = parts(answer) else {
        return (false, conn);
    };
    if !conn.is_autocommit() {
        return (false, conn);
    }
    let (order, text) = order_of(words);
    let Ok(bytes) = bytes_of(alloc, text) else {
        return (false, conn);
    };
    let mut input = bytes_over(bytes.as_slice(), line);
    let mut out = Document {
        awaited: output.as_bytes(),
        room: line.written,
        differs: false,
    };
    let mut err = Vec::new(alloc);
    let (status, conn) = run_on(alloc, conn, &order, &mut input, &mut out, &mut err);
    let is_so = wanted.parse() == Ok(status) && err.as_slice() == said.as_bytes();
    (is_so && is_written_so(&out, output), conn)
}

/// Carries out a row, and reports whether it is answered so.
fn is_reported<S: Alter>(
    alloc: Global,
    conn: Connection<S>,
    row: &str,
    line: Line,
) -> (bool, Connection<S>) {
    match row.split_once(" = ") {
        Some((words, answer)) => is_carried_out(alloc, conn, words, answer, line),
        None => (false, conn),
    }
}

/// Nothing is reported of a row that is so.
fn reported_of(alloc: Global, row: &str, holds: bool) -> Result<String, Fail> {
    if holds {
        return Ok(String::new(alloc));
    }
    Err(failure("not answered so", row))
}

/// Carries out a row over a connection, which must be answered as it says.
pub(crate) fn report_program<S: Alter>(
    alloc: Global,
    conn: Connection<S>,
    row: &str,
) -> (Result<String, Fail>, Connection<S>) {
    let (words, line) = match line_of(row) {
        Ok(parts) => parts,
        Err(fail) => return (Err(fail), conn),
    };
    match unescaped(alloc, words) {
        Ok(text) => {
            let (holds, conn) = is_reported(alloc, conn, text.as_str(), line);
            (reported_of(alloc, row, holds), conn)
        }
        Err(_) => (Err(Fail::new("no memory")), conn),
    }
}
