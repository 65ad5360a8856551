//! How the program ends: the status and the line on standard error, in its own letters.
use crate::failures::must;
use crate::repeating::unescaped;
use office_base::Refusal;
use office_commands::Exit;
use office_store::Fault;
use std::alloc::Global;
use std::test::Fail;

/// Each kind of exit.
const EXITS: [Exit; 18] = [
    Exit::Done,
    Exit::Refused(Refusal::BadText),
    Exit::Refused(Refusal::WrongDigest),
    Exit::LineRefused(11, Refusal::NeedsClass),
    Exit::SomeRefused,
    Exit::ActRefused(0, Refusal::BadNumber),
    Exit::NotJson,
    Exit::BadWords,
    Exit::File,
    Exit::Socket,
    Exit::CsvHeader,
    Exit::CsvRow(7),
    Exit::SomeFailed,
    Exit::Fault(Fault::Memory),
    Exit::Fault(Fault::Store),
    Exit::Fault(Fault::Reopen),
    Exit::Fault(Fault::Damaged),
    Exit::Fault(Fault::Version),
];

/// A row for each of them: the status, and what is said on standard error.
const ROWS: &str = r"0;
1;office: refused 2\n
1;office: refused 20\n
1;office: line 11 refused 10\n
1;
1;office: act 0 refused 3\n
1;office: json\n
2;
3;office: file\n
3;office: socket\n
1;office: csv header\n
1;office: csv row 7\n
3;
4;office: fault 30\n
3;office: fault 31\n
3;office: fault 32\n
3;office: fault 33\n
3;office: fault 34\n";

/// An exit must be reported as its row says.
fn report_exit(alloc: Global, exit: Exit, row: &str) -> Result<(), Fail> {
    let wanted = unescaped(alloc, row)?;
    let reported = format!(in alloc; "{};{exit}", exit.status())?;
    must(reported.as_str() == wanted.as_str(), row, reported.as_str())
}

/// Each exit must be reported as its row says.
pub(crate) fn report_exits(alloc: Global) -> Result<(), Fail> {
    if ROWS.lines().count() != EXITS.len() {
        return Err(Fail::new("not a row for each exit"));
    }
    for (exit, row) in EXITS.iter().zip(ROWS.lines()) {
        report_exit(alloc, *exit, row)?;
    }
    Ok(())
}
