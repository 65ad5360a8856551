//! The words of the command line as a command with its operands, before these are read.
ghost use Rattle.std.specs.Prelude.{◌≡◌, ◌≢◌, IfOk, IfErr, true, map};
ghost use Rattle.clap.specs.Words.{FailsBy, fault_of, found_of, kind_of, rows_of, subcommand_of, subcommand_rows_of, takes};
ghost use Rattle.office_command_line.specs.Command.{apply_in, line_in, line_of, due_in, export_in, import_in, init_in, no_line, certificate_in, office_app, overdue_in, gate_in, plan_in, resume_in, serve_in, service_in, text_of};

use crate::command::office_command;
use clap::error::ErrorKind;
use clap::{ArgMatches, Error};
use std::alloc::Global;

/// What the program is asked to do, with its operands as they were written.
#[derive(Drop)]
pub enum Words<'a> {
    Due {
        unit: &'a str,
        count: &'a str,
        offset: &'a str,
        day: &'a str,
    },
    Plan {
        file: &'a str,
    },
    Init {
        file: &'a str,
    },
    Apply {
        file: &'a str,
        acts: &'a str,
    },
    Resume {
        file: &'a str,
    },
    Certificate {
        file: &'a str,
        number: &'a str,
    },
    Import {
        file: &'a str,
        day: &'a str,
        csv: &'a str,
    },
    Export {
        file: &'a str,
        register: &'a str,
    },
    Overdue {
        file: &'a str,
        day: &'a str,
        count: &'a str,
    },
    Serve {
        file: &'a str,
        port: &'a str,
        count: &'a str,
    },
    Gate {
        file: &'a str,
        port: &'a str,
        count: &'a str,
        access: &'a str,
        token: &'a str,
        journal: &'a str,
    },
    /// No command: `read_words` never gives it.
    Nothing,
}

/// The operand of that name; `clap` takes no words in which one lacks.
fn operand<'a>(matches: &ArgMatches<'a>, name: &str) -> &'a str
    ensures { result.now ≡ text_of name.now (rows_of (found_of matches.now)) }
{
    matches.get_str(name).unwrap_or("")
}

fn due_words<'a>(matches: &ArgMatches<'a>) -> Words<'a>
    ensures { line_of result ≡ due_in (rows_of (found_of matches.now)) }
{
    Words::Due {
        unit: operand(matches, "UNIT"),
        count: operand(matches, "COUNT"),
        offset: operand(matches, "OFFSET"),
        day: operand(matches, "DAY"),
    }
}

fn plan_words<'a>(matches: &ArgMatches<'a>) -> Words<'a>
    ensures { line_of result ≡ plan_in (rows_of (found_of matches.now)) }
{
    Words::Plan {
        file: operand(matches, "FILE"),
    }
}

fn init_words<'a>(matches: &ArgMatches<'a>) -> Words<'a>
    ensures { line_of result ≡ init_in (rows_of (found_of matches.now)) }
{
    Words::Init {
        file: operand(matches, "FILE"),
    }
}

fn apply_words<'a>(matches: &ArgMatches<'a>) -> Words<'a>
    ensures { line_of result ≡ apply_in (rows_of (found_of matches.now)) }
{
    Words::Apply {
        file: operand(matches, "FILE"),
        acts: operand(matches, "ACTS"),
    }
}

fn resume_words<'a>(matches: &ArgMatches<'a>) -> Words<'a>
    ensures { line_of result ≡ resume_in (rows_of (found_of matches.now)) }
{
    Words::Resume {
        file: operand(matches, "FILE"),
    }
}

fn certificate_words<'a>(matches: &ArgMatches<'a>) -> Words<'a>
    ensures { line_of result ≡ certificate_in (rows_of (found_of matches.now)) }
{
    Words::Certificate {
        file: operand(matches, "FILE"),
        number: operand(matches, "N"),
    }
}

fn import_words<'a>(matches: &ArgMatches<'a>) -> Words<'a>
    ensures { line_of result ≡ import_in (rows_of (found_of matches.now)) }
{
    Words::Import {
        file: operand(matches, "FILE"),
        day: operand(matches, "DAY"),
        csv: operand(matches, "CSV"),
    }
}

fn export_words<'a>(matches: &ArgMatches<'a>) -> Words<'a>
    ensures { line_of result ≡ export_in (rows_of (found_of matches.now)) }
{
    Words::Export {
        file: operand(matches, "FILE"),
        register: operand(matches, "REGISTER"),
    }
}

fn overdue_words<'a>(matches: &ArgMatches<'a>) -> Words<'a>
    ensures { line_of result ≡ overdue_in (rows_of (found_of matches.now)) }
{
    Words::Overdue {
        file: operand(matches, "FILE"),
        day: operand(matches, "DAY"),
        count: operand(matches, "COUNT"),
    }
}

fn serve_words<'a>(matches: &ArgMatches<'a>) -> Words<'a>
    ensures { line_of result ≡ serve_in (rows_of (found_of matches.now)) }
{
    Words::Serve {
        file: operand(matches, "FILE"),
        port: operand(matches, "PORT"),
        count: operand(matches, "COUNT"),
    }
}

fn gate_words<'a>(matches: &ArgMatches<'a>) -> Words<'a>
    ensures { line_of result ≡ gate_in (rows_of (found_of matches.now)) }
{
    let (port, count) = (operand(matches, "PORT"), operand(matches, "COUNT"));
    Words::Gate {
        file: operand(matches, "FILE"),
        port,
        count,
        access: operand(matches, "ACCESS"),
        token: operand(matches, "TOKEN"),
        journal: operand(matches, "JOURNAL"),
    }
}

/// The words of the commands that answer requests.
fn service_words<'a>(name: &str, matches: &ArgMatches<'a>) -> Words<'a>
    ensures { line_of result ≡ service_in name.now (rows_of (found_of matches.now)) }
{
    match name {
        "serve" => serve_words(matches),
        "gate" => gate_words(matches),
        _ => Words::Nothing,
    }
}

fn words_of<'a>(matches: &ArgMatches<'a>) -> Words<'a>
    ensures { line_of result ≡ line_in (subcommand_rows_of matches.now) }
{
    match matches.subcommand() {
        Some(("due", inner)) => due_words(inner),
        Some(("plan", inner)) => plan_words(inner),
        Some(("init", inner)) => init_words(inner),
        Some(("apply", inner)) => apply_words(inner),
        Some(("resume", inner)) => resume_words(inner),
        Some(("certificate", inner)) => certificate_words(inner),
        Some(("import", inner)) => import_words(inner),
        Some(("export", inner)) => export_words(inner),
        Some(("overdue", inner)) => overdue_words(inner),
        Some((name, inner)) => service_words(name, inner),
        None => Words::Nothing,
    }
}

/// What the words of the command line ask for; the first word is the program's name. Where the
/// words are none of the program's commands with its operands, or ask for help, the error has the
/// text of `clap`, and its kind says which: help, a subcommand that is missing or is none, an
/// operand that is missing, an argument that is unknown. `OutOfMemory` comes where memory ran out.
pub fn read_words<'a>(alloc: Global, words: &'a [&'a str]) -> Result<Words<'a>, Error>
    // Words in which `clap` finds a fault are refused, by the kind of the first fault.
    ensures refused { FailsBy (fault_of office_app (map (λ s. s.now) words.entry.now)) result }
    ensures asked { IfOk result
        (λ w. line_of w ≡ line_in (subcommand_of office_app (map (λ s. s.now) words.entry.now))) }
    // A command is named.
    ensures named { IfOk result (λ w. line_of w ≢ no_line) }

    // Where the words are a command of the program, only lack of memory can fail.
    ensures taken { takes office_app (map (λ s. s.now) words.entry.now) ≡ true
        → IfErr result (λ e. kind_of e ≡ ErrorKind.OutOfMemory) }
{
    let command = office_command(alloc)?;
    match command.try_get_matches_from(words) {
        Ok(matches) => Ok(words_of(&matches)),
        Err(error) => Err(error),
    }
}
