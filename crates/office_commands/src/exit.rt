//! How a command of the program ends: the exit status, and the line on standard error.
ghost use Rattle.std.specs.Prelude.{◌≡◌};

use office_base::{Io, Refusal, Stop};
use office_json::ListFault;
use office_rules::{Answer, has_refusal};
use office_store::Fault;
use office_wire::Service;
use std::fmt;

/// How the program ends. Its text is the line on standard error, with its line feed, or nothing.
#[derive(Clone, Copy, PartialEq, Eq, Debug)]
pub enum Exit {
    /// All was done.
    Done,
    /// What was asked is refused.
    Refused(Refusal),
    /// A line of what was read is refused, with its number from 1.
    LineRefused(u64, Refusal),
    /// Each act was answered, and some answers are refusals; they say so themselves.
    SomeRefused,
    /// An act of what was read is refused before any was done, with its place from 0.
    ActRefused(u64, Refusal),
    /// What was read is no JSON array.
    NotJson,
    /// The first row of what was imported does not name the columns.
    CsvHeader,
    /// The row of that number, from 1, is none of an import; the rows before it are done.
    CsvRow(u64),
    /// The words are no command of the program; what is wrong was said already.
    BadWords,
    /// Standard output could not be written; or a plan file, a text of acts or one of CSV could not
    /// be opened or read to its end.
    File,
    /// The port could not be bound.
    Socket,
    /// All was served that could be, and some connections failed; that was said when they did.
    SomeFailed,
    /// It was begun, and a fault stopped it; of lack of memory too.
    Fault(Fault),
}

impl From<Stop> for Exit {
    ghost use Rattle.std.specs.Prelude.{◌≡◌};
    ghost use Rattle.office_commands.specs.ExitStatuses.{exit_of_stop};

    ghost from_gives = { λ stop exit. exit ≡ exit_of_stop stop };

    fn from(stop: Stop) -> Exit {
        match stop {
            Stop::Io => Exit::File,
            Stop::Memory => Exit::Fault(Fault::Memory),
        }
    }
}

impl From<Result<Option<Refusal>, Io>> for Exit {
    ghost use Rattle.std.specs.Prelude.{◌≡◌};
    ghost use Rattle.office_commands.specs.ExitStatuses.{exit_of};

    ghost from_gives = { λ answer exit. exit ≡ exit_of answer };

    // The exit of `due`, which answers a refusal or none.
    fn from(answer: Result<Option<Refusal>, Io>) -> Exit {
        match answer {
            Ok(None) => Exit::Done,
            Ok(Some(refusal)) => Exit::Refused(refusal),
            Err(Io) => Exit::File,
        }
    }
}

impl From<Result<Option<(u64, Refusal)>, Stop>> for Exit {
    ghost use Rattle.std.specs.Prelude.{◌≡◌};
    ghost use Rattle.office_commands.specs.ExitStatuses.{exit_of_plan};

    ghost from_gives = { λ answer exit. exit ≡ exit_of_plan answer };

    // The exit of `plan`, which answers the refusal of a line or none.
    fn from(answer: Result<Option<(u64, Refusal)>, Stop>) -> Exit {
        match answer {
            Ok(None) => Exit::Done,
            Ok(Some((line, refusal))) => Exit::LineRefused(line, refusal),
            Err(stop) => Exit::from(stop),
        }
    }
}

impl From<ListFault> for Exit {
    ghost use Rattle.std.specs.Prelude.{◌≡◌};
    ghost use Rattle.office_commands.specs.ExitStatuses.{exit_of_list};

    ghost from_gives = { λ fault exit. exit ≡ exit_of_list fault };

    fn from(fault: ListFault) -> Exit {
        match fault {
            ListFault::NotJson => Exit::NotJson,
            ListFault::BadAct(place, refusal) => Exit::ActRefused(place, refusal),
            ListFault::Memory => Exit::Fault(Fault::Memory),
        }
    }
}

impl From<Service> for Exit {
    ghost use Rattle.std.specs.Prelude.{◌≡◌};
    ghost use Rattle.office_commands.specs.ExitStatuses.{exit_of_service};

    ghost from_gives = { λ service exit.
        exit ≡ exit_of_service service.has_failed service.is_poisoned };

    fn from(service: Service) -> Exit {
        if service.is_poisoned {
            Exit::Fault(Fault::Reopen)
        } else if service.has_failed {
            Exit::SomeFailed
        } else {
            Exit::Done
        }
    }
}

impl Exit {
    ghost use Rattle.std.specs.Prelude.{[]};
    ghost use Rattle.office_desk.specs.Outcomes.{acts_outcome};
    ghost use Rattle.office_commands.specs.ExitStatuses.{exit_of_acts, exit_status};

    /// The exit of acts that were answered so, all of them or those before a fault.
    pub fn of_acts(done: Result<(), Fault>, answers: &[Answer]) -> Exit
        ensures { result ≡ exit_of_acts (acts_outcome done [] answers.now) }
    {
        match done {
            Ok(()) if has_refusal(answers) => Exit::SomeRefused,
            Ok(()) => Exit::Done,
            Err(fault) => Exit::Fault(fault),
        }
    }

    /// The exit status.
    pub fn status(self) -> u8
        ensures { result ≡ exit_status self }
    {
        match self {
            Exit::Done => 0,
            Exit::Refused(_) => 1,
            Exit::SomeRefused => 1,
            Exit::LineRefused(_, _) => 1,
            Exit::ActRefused(_, _) => 1,
            Exit::NotJson => 1,
            Exit::CsvHeader => 1,
            Exit::CsvRow(_) => 1,
            Exit::BadWords => 2,
            Exit::File => 3,
            Exit::Socket => 3,
            Exit::SomeFailed => 3,
            Exit::Fault(Fault::Memory) => 4,
            Exit::Fault(_) => 3,
        }
    }
}

impl fmt::Display for Exit {
    ghost use Rattle.std.specs.Prelude.{Some};
    ghost use Rattle.office_commands.specs.ExitStatuses.{line_said};

    ghost output = { λ e. Some (line_said e) };

    fn fmt<W: fmt::Write>(&self, f: &mut fmt::Formatter<W>) -> fmt::Result {
        match self {
            Exit::Done | Exit::SomeRefused | Exit::SomeFailed | Exit::BadWords => Ok(()),
            Exit::Refused(refusal) => writeln!(f, "office: refused {}", refusal.number()),
            Exit::LineRefused(line, refusal) => {
                writeln!(f, "office: line {line} refused {}", refusal.number())
            }
            Exit::ActRefused(place, refusal) => {
                writeln!(f, "office: act {place} refused {}", refusal.number())
            }
            Exit::NotJson => writeln!(f, "office: json"),
            Exit::CsvHeader => writeln!(f, "office: csv header"),
            Exit::CsvRow(number) => writeln!(f, "office: csv row {number}"),
            Exit::File => writeln!(f, "office: file"),
            Exit::Socket => writeln!(f, "office: socket"),
            Exit::Fault(fault) => writeln!(f, "office: fault {}", fault.number()),
        }
    }
}
