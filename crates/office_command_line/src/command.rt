//! The commands of the program, as `clap` knows them.
ghost use Rattle.std.specs.Prelude.{◌≡◌, IfOk, false};
ghost use Rattle.clap.specs.Words.{app_of, new_app, rule_of};
ghost use Rattle.clap.specs.declared.builder.command.Command.TheViews.{out-Command as fields_of};
ghost use Rattle.office_command_line.specs.Command.{office_app, operand, with_csv_commands, with_file_commands, with_import_command, with_operands, with_plain_commands, with_register_commands, with_row, with_rows, with_run_commands, with_service_commands};

use clap::{Arg, Command};
use std::alloc::{AllocError, Global};

/// An operand of a command, which must be there: its name, and what the help says of it.
#[derive(Clone, Copy)]
pub(crate) struct Operand<'a>(&'a str, &'a str);

/// A command: its name, what the help says of it, and its operands in their order.
#[derive(Clone, Copy)]
pub(crate) struct CommandRow<'a> {
    name: &'a str,
    about: &'a str,
    operands: &'a [Operand<'a>],
}

impl<'a> Operand<'a> {
    fn arg(&self, alloc: Global) -> Arg<'a>
        ensures rule { rule_of result ≡ operand self.now.0.now }
        ensures global { result.global ≡ false }
    {
        Arg::new(alloc, self.0).required(true).help(self.1)
    }
}

/// The command of that name with these operands.
fn command_of<'a>(
    alloc: Global,
    name: &'a str,
    about: &'a str,
    operands: &[Operand<'a>],
) -> Result<Command<'a>, AllocError>
    ensures app { IfOk result
        (λ c. app_of c ≡ with_operands (new_app name.entry.now) operands.now) }
    ensures globals { IfOk result (λ c. (fields_of c).has_globals ≡ false) }
{
    let mut command = Command::new(alloc, name).about(about);
    for operand in operands {
        command = command.arg(operand.arg(alloc))?;
    }
    Ok(command)
}

/// With the command of a row.
fn with_command<'a>(
    alloc: Global,
    command: Command<'a>,
    row: &CommandRow<'a>,
) -> Result<Command<'a>, AllocError>
    ensures { IfOk result (λ c. app_of c ≡ with_row (app_of command.entry) row.now) }
{
    match command_of(alloc, row.name, row.about, row.operands) {
        Ok(subcommand) => command.subcommand(subcommand),
        Err(error) => Err(error),
    }
}

/// With the commands of these rows, one after another.
fn with_commands<'a>(
    alloc: Global,
    base: Command<'a>,
    rows: &[CommandRow<'a>],
) -> Result<Command<'a>, AllocError>
    ensures { IfOk result (λ c. app_of c ≡ with_rows (app_of base.entry) rows.now) }
{
    let mut command = base;
    for row in rows {
        command = with_command(alloc, command, row)?;
    }
    Ok(command)
}

/// With the commands that open no office.
#[tactic(auto, unfolding(crate::specs::Command::with_plain_commands))]
fn with_plain_commands<'a>(alloc: Global, command: Command<'a>) -> Result<Command<'a>, AllocError>
    ensures { IfOk result (λ c. app_of c ≡ with_plain_commands (app_of command.entry)) }
{
    with_commands(
        alloc,
        command,
        &[
            CommandRow {
                name: "due",
                about: "Prints the due day of a period that begins on a day",
                operands: &[
                    Operand("UNIT", "days, weeks, months or years"),
                    Operand("COUNT", "How many of them"),
                    Operand(
                        "OFFSET",
                        "none, month, quarter or from-month-1 to from-month-12",
                    ),
                    Operand("DAY", "The start day, as 2017-06-30"),
                ],
            },
            CommandRow {
                name: "plan",
                about: "Prints the due day of each record of a plan file",
                operands: &[Operand(
                    "FILE",
                    "A file of schedules, classes, aggregations and records",
                )],
            },
        ],
    )
}

/// With the commands on the office in a file.
#[tactic(auto, unfolding(crate::specs::Command::with_file_commands))]
fn with_file_commands<'a>(alloc: Global, command: Command<'a>) -> Result<Command<'a>, AllocError>
    ensures { IfOk result (λ c. app_of c ≡ with_file_commands (app_of command.entry)) }
{
    with_commands(
        alloc,
        command,
        &[
            CommandRow {
                name: "init",
                about: "Opens the office in a file, or makes a new one there",
                operands: &[Operand("FILE", "The office's file")],
            },
            CommandRow {
                name: "apply",
                about: "Does the acts of a JSON array, one after another",
                operands: &[
                    Operand("FILE", "The office's file"),
                    Operand("ACTS", "A file with the JSON array of acts"),
                ],
            },
        ],
    )
}

/// With the commands on the runs of that office.
#[tactic(auto, unfolding(crate::specs::Command::with_run_commands))]
fn with_run_commands<'a>(alloc: Global, command: Command<'a>) -> Result<Command<'a>, AllocError>
    ensures { IfOk result (λ c. app_of c ≡ with_run_commands (app_of command.entry)) }
{
    with_commands(
        alloc,
        command,
        &[
            CommandRow {
                name: "resume",
                about: "Takes up the run that is open, to its end",
                operands: &[Operand("FILE", "The office's file")],
            },
            CommandRow {
                name: "certificate",
                about: "Prints the certificate of a run",
                operands: &[
                    Operand("FILE", "The office's file"),
                    Operand("N", "The number of the run, from 1"),
                ],
            },
        ],
    )
}

/// With the command that adds records from a text of CSV.
#[tactic(auto, unfolding(crate::specs::Command::with_import_command))]
fn with_import_command<'a>(alloc: Global, command: Command<'a>) -> Result<Command<'a>, AllocError>
    ensures { IfOk result (λ c. app_of c ≡ with_import_command (app_of command.entry)) }
{
    with_commands(
        alloc,
        command,
        &[CommandRow {
            name: "import",
            about: "Adds the records of a CSV file, one after another",
            operands: &[
                Operand("FILE", "The office's file"),
                Operand("DAY", "The day on which they are added, as 2017-06-30"),
                Operand(
                    "CSV",
                    "A file of ref, title, originated, aggregation, class, schedule, content",
                ),
            ],
        }],
    )
}

/// With the commands that write registers as CSV.
#[tactic(auto, unfolding(crate::specs::Command::with_register_commands))]
fn with_register_commands<'a>(
    alloc: Global,
    command: Command<'a>,
) -> Result<Command<'a>, AllocError>
    ensures { IfOk result (λ c. app_of c ≡ with_register_commands (app_of command.entry)) }
{
    with_commands(
        alloc,
        command,
        &[
            CommandRow {
                name: "export",
                about: "Writes a register of the office as CSV",
                operands: &[
                    Operand("FILE", "The office's file"),
                    Operand(
                        "REGISTER",
                        "entries, or the day of what is due, as 2017-06-30",
                    ),
                ],
            },
            CommandRow {
                name: "overdue",
                about: "Writes the register of what is overdue as CSV",
                operands: &[
                    Operand("FILE", "The office's file"),
                    Operand("DAY", "The day on which it is overdue, as 2017-06-30"),
                    Operand(
                        "COUNT",
                        "Days after its due day within which a record is to be confirmed, 3650 at most",
                    ),
                ],
            },
        ],
    )
}

/// With the commands that take and give texts of CSV.
#[tactic(auto, unfolding(crate::specs::Command::with_csv_commands))]
fn with_csv_commands<'a>(alloc: Global, command: Command<'a>) -> Result<Command<'a>, AllocError>
    ensures { IfOk result (λ c. app_of c ≡ with_csv_commands (app_of command.entry)) }
{
    let command = with_import_command(alloc, command)?;
    with_register_commands(alloc, command)
}

/// Adds the commands that answer requests to that office.
#[tactic(auto, unfolding(crate::specs::Command::with_service_commands))]
fn with_service_commands<'a>(alloc: Global, command: Command<'a>) -> Result<Command<'a>, AllocError>
    ensures { IfOk result (λ c. app_of c ≡ with_service_commands (app_of command.entry)) }
{
    with_commands(
        alloc,
        command,
        &[
            CommandRow {
                name: "serve",
                about: "Answers requests at a port of this machine",
                operands: &[
                    Operand("FILE", "The office's file"),
                    Operand("PORT", "From 1 to 65535"),
                    Operand(
                        "COUNT",
                        "How many connections are served, from 1 to 1000000",
                    ),
                ],
            },
            CommandRow {
                name: "gate",
                about: "Answers requests for the names that a proxy states",
                operands: &[
                    Operand("FILE", "The office's file"),
                    Operand("PORT", "From 1 to 65535"),
                    Operand(
                        "COUNT",
                        "How many connections are served, from 1 to 1000000",
                    ),
                    Operand("ACCESS", "A file of settings: who may do what"),
                    Operand("TOKEN", "A file with the secret of the proxy"),
                    Operand(
                        "JOURNAL",
                        "A file for the lines of the journal, or - for none",
                    ),
                ],
            },
        ],
    )
}

#[tactic(auto, unfolding(crate::specs::Command::office_app))]
pub(crate) fn office_command<'a>(alloc: Global) -> Result<Command<'a>, AllocError>
    ensures { IfOk result (λ c. app_of c ≡ office_app) }
{
    let command = Command::new(alloc, "office")
        .about("A records disposal office with legal holds")
        .subcommand_required(true)
        .arg_required_else_help(true);
    let command = with_plain_commands(alloc, command)?;
    let command = with_file_commands(alloc, command)?;
    let command = with_run_commands(alloc, command)?;
    let command = with_csv_commands(alloc, command)?;
    with_service_commands(alloc, command)
}
