//! The program `office` of the records disposal office.
//!
//! Its command line is read by `office_command_line`. The commands that open no office are done by
//! `office_plan`; those on the office in a file by `office_commands`, which opens it (`disks`). What is
//! here joins the process's own streams, files and socket to them: for `serve` and `gate` a port is
//! bound first, and `gate` keeps a journal in a file of its own (`journal`).
#![tactic(auto)]

mod access;
mod disks;
mod journal;

use crate::access::{Door, gate_in};
use crate::disks::{Place, apply_in, disk_of_process, run_in, serve_in};
use clap::error::ErrorKind;
use office_base::{Stop, read_whole};
use office_command_line::{Disk, Order, order_of, read_words};
use office_commands::{Exit, report};
use office_plan::{due_to, plan_to};
use office_store::Fault;
use std::alloc::AllocError;
use std::fs::File;
use std::process::ExitCode;
use std::{env, io};

/// Reports the line of an exit on standard error, and gives its status.
fn report_exit(rt: &HostRuntime, exit: Exit) -> u8 {
    let _ = report(exit, &mut rt.stderr());
    exit.status()
}

/// Prints the due days of a plan file.
fn plan_in(rt: &HostRuntime, file: &str) -> Exit {
    match File::open(rt, file) {
        Ok(mut reader) => Exit::from(plan_to(rt.alloc(), &mut reader, &mut io::writer(rt))),
        Err(error) => Exit::from(Stop::from(error)),
    }
}

/// The bytes of a file.
fn read_file(rt: &HostRuntime, file: &str) -> Result<Vec<u8>, Stop> {
    let mut reader = File::open(rt, file)?;
    read_whole(rt.alloc(), &mut reader)
}

/// Adds the records of a CSV file, which is opened before the office's file, and read row by row.
fn import_in(rt: &HostRuntime, place: Place<'_>, csv: &str, order: &Order<'_>) -> u8 {
    match File::open(rt, csv) {
        Ok(mut reader) => run_in(rt, place, order, &mut reader),
        Err(error) => report_exit(rt, Exit::from(Stop::from(error))),
    }
}

/// Runs a command on the office in a file, on that disk.
fn run_on_disk(rt: &HostRuntime, disk: Disk, order: &Order<'_>) -> u8 {
    match order {
        Order::Apply { file, acts } => report_exit(rt, apply_in(rt, Place { file, disk }, acts)),
        Order::Import { file, csv, .. } => import_in(rt, Place { file, disk }, csv, order),
        Order::Init { file }
        | Order::Resume { file }
        | Order::Certificate { file, .. }
        | Order::Export { file, .. }
        | Order::Overdue { file, .. } => {
            let mut nothing: &[u8] = &[];
            run_in(rt, Place { file, disk }, order, &mut nothing)
        }
        Order::Serve { file, port, count } => {
            report_exit(rt, serve_in(rt, Place { file, disk }, *port, *count))
        }
        Order::Gate {
            file,
            port,
            count,
            access,
            token,
            journal,
        } => {
            let door = Door {
                access,
                token,
                journal,
            };
            report_exit(rt, gate_in(rt, Place { file, disk }, *port, *count, door))
        }
        Order::Due { .. } | Order::Plan { .. } | Order::Nothing => report_exit(rt, Exit::BadWords),
    }
}

/// Runs a command. Where it is on an office, the disk is read before anything is opened.
fn run_order(rt: &HostRuntime, order: &Order<'_>) -> u8 {
    match order {
        Order::Due {
            unit,
            count,
            offset,
            day,
        } => {
            let answer = due_to(unit, count, offset, day, &mut io::writer(rt));
            report_exit(rt, Exit::from(answer))
        }
        Order::Plan { file } => report_exit(rt, plan_in(rt, file)),
        Order::Nothing => report_exit(rt, Exit::BadWords),
        _ => match disk_of_process(rt) {
            Ok(disk) => run_on_disk(rt, disk, order),
            Err(exit) => report_exit(rt, exit),
        },
    }
}

/// The words of the command line, as text; the first is the name of the program.
fn words_of_process(rt: &HostRuntime) -> io::Result<Vec<String>> {
    let words: Vec<String> = env::args(rt)?.collect(rt.alloc())?;
    Ok(words)
}

/// Reads the command line and runs its command.
fn run_command_line(rt: &HostRuntime, texts: &[String]) -> Result<u8, AllocError> {
    let mut words = Vec::new(rt.alloc());
    for text in texts {
        words.push(text.as_str())?;
    }
    match read_words(rt.alloc(), words.as_slice()) {
        Ok(words) => match order_of(words) {
            Ok(order) => Ok(run_order(rt, &order)),
            Err(refusal) => Ok(report_exit(rt, Exit::Refused(refusal))),
        },
        Err(error) if error.kind() == ErrorKind::OutOfMemory => Err(AllocError),
        Err(error) => {
            let _ = eprint!(rt; "{error}");
            Ok(report_exit(rt, Exit::BadWords))
        }
    }
}

fn start(rt: &HostRuntime) -> u8 {
    let out_of_memory = Exit::Fault(Fault::Memory);
    match words_of_process(rt) {
        Ok(texts) => match run_command_line(rt, texts.as_slice()) {
            Ok(status) => status,
            Err(_) => report_exit(rt, out_of_memory),
        },
        Err(error) if error.kind() == io::ErrorKind::OutOfMemory => report_exit(rt, out_of_memory),
        Err(_) => {
            let _ = eprintln!(rt; "office: the words are not UTF-8 text");
            report_exit(rt, Exit::BadWords)
        }
    }
}

fn main(rt: HostRuntime) -> ExitCode {
    ExitCode::from(start(&rt))
}
