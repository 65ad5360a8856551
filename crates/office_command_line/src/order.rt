//! What the program is to do, with the operands of its command read.
ghost use Rattle.std.specs.Prelude.{◌≡◌, Err, IfErr, IfOk, Ok};
ghost use Rattle.office_command_line.specs.Command.{line_of};
ghost use Rattle.office_command_line.specs.Orders.{command, command_read};

use crate::register::{Register, read_register};
use crate::service::read_service;
use crate::words::Words;
use office_base::{Refusal, read_entity_number};
use office_days::{ConfirmDays, Day, read_confirm_days};

/// What the program is to do: its command, with the operands read if it is on an office's file. `due` and `plan`, which open no office, read theirs where they are done.
#[derive(Drop)]
pub enum Order<'a> {
    Due {
        unit: &'a str,
        count: &'a str,
        offset: &'a str,
        day: &'a str,
    },
    Plan {
        file: &'a str,
    },
    /// Opens the office in the file, or makes a new one there.
    Init {
        file: &'a str,
    },
    /// Does the acts of that file at the office in the other one.
    Apply {
        file: &'a str,
        acts: &'a str,
    },
    /// Resumes the open run of the office in the file, to its end.
    Resume {
        file: &'a str,
    },
    /// Reports the certificate of that run.
    Certificate {
        file: &'a str,
        run: u32,
    },
    /// Adds, on that day, the records of the rows of that CSV file to the office in the other one.
    Import {
        file: &'a str,
        day: Day,
        csv: &'a str,
    },
    /// Writes that register of the office in the file.
    Export {
        file: &'a str,
        register: Register,
    },
    /// Writes the register of what is overdue on that day at the office in the file, where a record
    /// is to be confirmed within so many days after its due day.
    Overdue {
        file: &'a str,
        day: Day,
        days: ConfirmDays,
    },
    /// Answers requests to the office in the file, at that port, until so many connections were
    /// served.
    Serve {
        file: &'a str,
        port: u16,
        count: u32,
    },
    /// Answers requests as [`Order::Serve`] does, as far as the name that a proxy states may have
    /// them by the settings in the file `access`; the file `token` has the secret of the proxy. The
    /// lines of the journal go into the file `journal`, or nowhere if that is `-`.
    Gate {
        file: &'a str,
        port: u16,
        count: u32,
        access: &'a str,
        token: &'a str,
        journal: &'a str,
    },
    /// No command.
    Nothing,
}

/// What the command line orders, or why an operand is refused; no file is looked at. The number of a run is
/// one or more ASCII digits, from 1 to 4,294,967,295, leading zeros allowed; so are the port of a
/// service, from 1 to 65,535, and its count of connections, from 1 to 1,000,000. The day of an
/// import is written as 2017-06-30; the register of an export is `entries`, or such a day. The day
/// of what is overdue is written so too, and its count of days, 3,650 at most, as the numbers
/// above. `BadText` comes where an operand is no day, no digits or no register, and else
/// `BadNumber` where a number is out of its range.
pub fn order_of<'a>(words: Words<'a>) -> Result<Order<'a>, Refusal>
    ensures ok { IfOk result (λ order. command_read (line_of words.entry) ≡ Ok (command order)) }
    ensures err { IfErr result (λ refusal. command_read (line_of words.entry) ≡ Err refusal) }
{
    match words {
        Words::Due {
            unit,
            count,
            offset,
            day,
        } => Ok(Order::Due {
            unit,
            count,
            offset,
            day,
        }),
        Words::Plan { file } => Ok(Order::Plan { file }),
        Words::Init { file } => Ok(Order::Init { file }),
        Words::Apply { file, acts } => Ok(Order::Apply { file, acts }),
        Words::Resume { file } => Ok(Order::Resume { file }),
        Words::Certificate { file, number } => match read_entity_number(number) {
            Ok(run) => Ok(Order::Certificate { file, run }),
            Err(refusal) => Err(refusal),
        },
        Words::Import { file, day, csv } => match Day::read(day) {
            Some(day) => Ok(Order::Import { file, day, csv }),
            None => Err(Refusal::BadText),
        },
        Words::Export { file, register } => match read_register(register) {
            Some(register) => Ok(Order::Export { file, register }),
            None => Err(Refusal::BadText),
        },
        Words::Overdue { file, day, count } => match (Day::read(day), read_confirm_days(count)) {
            (Some(day), Ok(days)) => Ok(Order::Overdue { file, day, days }),
            (Some(_), Err(refusal)) => Err(refusal),
            (None, _) => Err(Refusal::BadText),
        },
        Words::Serve { file, port, count } => match read_service(port, count) {
            Ok((port, count)) => Ok(Order::Serve { file, port, count }),
            Err(refusal) => Err(refusal),
        },
        Words::Gate {
            file,
            port,
            count,
            access,
            token,
            journal,
        } => match read_service(port, count) {
            Ok((port, count)) => Ok(Order::Gate {
                file,
                port,
                count,
                access,
                token,
                journal,
            }),
            Err(refusal) => Err(refusal),
        },
        Words::Nothing => Ok(Order::Nothing),
    }
}
