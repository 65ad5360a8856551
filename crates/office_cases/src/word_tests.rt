//! Words of the command line: which are taken, and of which kind the errors of others are; the disk
//! that a value names.
use crate::act_tests::push_day;
use crate::answering::push_refused;
use crate::rows::words_of;
use crate::written::push;
use office_command_line::{Order, Register, disk_of, order_of, read_words};
use std::io::Write;

/// Each row is a command line, or a variable with its value, where it is set. A refusal is that of
/// an operand; what is no command of the program is reported by the kind of the error of `clap`, or
/// by its text.
pub(crate) const ROWS: &str = "
    words office due years 7 from-month-4 2017-06-30 = due years 7 from-month-4 2017-06-30
    words office plan tree.txt = plan tree.txt
    words office init office.db = init office.db
    words office apply office.db acts.json = apply office.db acts.json
    words office resume office.db = resume office.db
    words office certificate office.db 1 = certificate 1 office.db
    words office certificate office.db 007 = certificate 7 office.db
    words office certificate office.db 4294967295 = certificate 4294967295 office.db
    words office serve office.db 8080 3 = serve 8080 3 office.db
    words office serve office.db 00080 01 = serve 80 1 office.db
    words office serve office.db 1 1 = serve 1 1 office.db
    words office import office.db 2024-01-02 letters.csv = import 2024-01-02 office.db letters.csv
    words office export office.db entries = export entries office.db
    words office export office.db 2025-01-02 = export 2025-01-02 office.db
    words office overdue office.db 2025-02-02 30 = overdue 2025-02-02 30 office.db
    words office overdue office.db 0001-01-01 0 = overdue 0001-01-01 0 office.db
    words office overdue office.db 2999-12-31 03650 = overdue 2999-12-31 3650 office.db
    words office serve office.db 65535 1000000 = serve 65535 1000000 office.db
    words office gate office.db 8080 3 city.access token city.journal = gate 8080 3 office.db city.access token city.journal

    # words that are no command
    words office due years 1 none = MissingRequiredArgument
    words office due --strange = UnknownArgument
    words office dew = InvalidSubcommand
    words office help = DisplayHelp
    words office due --help = DisplayHelp

    # what is printed of them
    text office due --strange = error: unexpected argument '--strange' found\\n\\n  tip: to pass '--strange' as a value, use '-- --strange'\\n\\nUsage: office due <UNIT> <COUNT> <OFFSET> <DAY>\\n\\nFor more information, try '--help'.\\n
    text office dew = error: unrecognized subcommand 'dew'\\n\\nUsage: office <COMMAND>\\n\\nFor more information, try '--help'.\\n
    text office help = A records disposal office with legal holds\\n\\nUsage: office <COMMAND>\\n\\nCommands:\\n  due          Prints the due day of a period that begins on a day\\n  plan         Prints the due day of each record of a plan file\\n  init         Opens the office in a file, or makes a new one there\\n  apply        Does the acts of a JSON array, one after another\\n  resume       Takes up the run that is open, to its end\\n  certificate  Prints the certificate of a run\\n  import       Adds the records of a CSV file, one after another\\n  export       Writes a register of the office as CSV\\n  overdue      Writes the register of what is overdue as CSV\\n  serve        Answers requests at a port of this machine\\n  gate         Answers requests for the names that a proxy states\\n  help         Print this message or the help of the given subcommand(s)\\n\\nOptions:\\n  -h, --help  Print help\\n

    # days of no import
    words office import office.db 2024-1-02 letters.csv = refused 2
    words office|import|office.db||letters.csv = refused 2
    words office import office.db 3000-01-01 letters.csv = refused 2
    words office import office.db 2024-01-02 = MissingRequiredArgument

    # names of no register
    words office export office.db Entries = refused 2
    words office export office.db 2025-1-2 = refused 2
    words office|export|office.db| = refused 2
    words office export office.db entries 2025-01-02 = UnknownArgument
    words office export office.db = MissingRequiredArgument

    # days of no confirmation
    words office overdue office.db 2025-2-2 30 = refused 2
    words office|overdue|office.db||30 = refused 2
    words office overdue office.db 3000-01-01 30 = refused 2
    words office overdue office.db 2025-02-02 many = refused 2
    words office overdue office.db 2025-02-02 +30 = refused 2
    words office|overdue|office.db|2025-02-02| = refused 2
    words office overdue office.db 30 2025-02-02 = refused 2
    words office overdue office.db 2025-1-1 4000 = refused 2
    words office overdue office.db 2025-02-02 3651 = refused 3
    words office overdue office.db 2025-02-02 99999999999999999999999 = refused 3
    words office overdue office.db 2025-02-02 = MissingRequiredArgument
    words office overdue office.db 2025-02-02 30 31 = UnknownArgument

    # numbers of no run
    words office|certificate|office.db| = refused 2
    words office certificate office.db one = refused 2
    words office certificate office.db +1 = refused 2
    words office|certificate|office.db|1  = refused 2
    words office certificate office.db 0 = refused 3
    words office certificate office.db 000 = refused 3
    words office certificate office.db 4294967296 = refused 3
    words office certificate office.db 99999999999999999999999 = refused 3

    # numbers of no service
    words office serve office.db 0 1 = refused 3
    words office serve office.db 65536 1 = refused 3
    words office serve office.db 80 0 = refused 3
    words office serve office.db 80 1000001 = refused 3
    words office serve office.db 99999999999999999999999 1 = refused 3
    words office serve office.db http 1 = refused 2
    words office|serve|office.db|80| = refused 2
    words office serve office.db 80 +1 = refused 2
    words office serve office.db 0 many = refused 2
    words office serve office.db http 0 = refused 2
    words office gate office.db 0 1 city.access token - = refused 3
    words office gate office.db 80 many city.access token - = refused 2
    words office gate office.db 80 1 city.access token = MissingRequiredArgument

    # disks
    disk OFFICE_DISK = Any
    disk OFFICE_DISK any = Any
    disk OFFICE_DISK powersafe = PowerSafe

    # values that name no disk
    disk OFFICE_DISK| = OFFICE_DISK must be any or powersafe
    disk OFFICE_DISK Any = OFFICE_DISK must be any or powersafe
    disk OFFICE_DISK powersave = OFFICE_DISK must be any or powersafe
    disk OFFICE_DISK power-safe = OFFICE_DISK must be any or powersafe
    disk OFFICE_DISK an = OFFICE_DISK must be any or powersafe
    disk OFFICE_DISK anyone = OFFICE_DISK must be any or powersafe
    disk OFFICE_DISK|any  = OFFICE_DISK must be any or powersafe
    disk OFFICE_DISK| powersafe = OFFICE_DISK must be any or powersafe
    disk OFFICE_DISK unknown = OFFICE_DISK must be any or powersafe
    disk OFFICE_DISK 1 = OFFICE_DISK must be any or powersafe
";

/// Appends words with spaces between them.
fn push_all(out: &mut Vec<u8>, words: &[&str]) -> Option<()> {
    for (place, word) in words.iter().enumerate() {
        push(out, if place == 0 { "" } else { " " })?;
        push(out, word)?;
    }
    Some(())
}

/// The register that is ordered.
fn report_register(register: &Register, out: &mut Vec<u8>) -> Option<()> {
    match register {
        Register::Entries => push(out, "entries"),
        Register::Due(day) => push_day(out, *day),
        Register::Overdue(day, days) => {
            push_day(out, *day)?;
            write!(out, " {}", days.count()).ok()
        }
    }
}

/// What is ordered.
fn report_order(order: &Order<'_>, out: &mut Vec<u8>) -> Option<()> {
    match order {
        Order::Due {
            unit,
            count,
            offset,
            day,
        } => push_all(out, &["due", unit, count, offset, day]),
        Order::Plan { file } => push_all(out, &["plan", file]),
        Order::Init { file } => push_all(out, &["init", file]),
        Order::Apply { file, acts } => push_all(out, &["apply", file, acts]),
        Order::Resume { file } => push_all(out, &["resume", file]),
        Order::Certificate { file, run } => {
            write!(out, "certificate {run}")
                .ok()
                .and(push_all(out, &["", file]))
        }
        Order::Import { file, day, csv } => push(out, "import ")
            .and(push_day(out, *day))
            .and(push_all(out, &["", file, csv])),
        Order::Export { file, register } => push(out, "export ")
            .and(report_register(register, out))
            .and(push_all(out, &["", file])),
        Order::Overdue { file, day, days } => push(out, "overdue ")
            .and(report_register(&Register::Overdue(*day, *days), out))
            .and(push_all(out, &["", file])),
        Order::Serve { file, port, count } => {
            write!(out, "serve {port} {count}")
                .ok()
                .and(push_all(out, &["", file]))
        }
        Order::Gate {
            file,
            port,
            count,
            access,
            token,
            journal,
        } => {
            write!(out, "gate {port} {count}")
                .ok()
                .and(push_all(out, &["", file, access, token, journal]))
        }
        Order::Nothing => None,
    }
}

/// The text of `clap` on words that are no command.
fn report_text(words: &[&str], out: &mut Vec<u8>) -> Option<()> {
    match read_words(*out.allocator(), words) {
        Ok(_) => None,
        Err(error) => write!(out, "{error}").ok(),
    }
}

/// What some words order.
fn report_words(words: &[&str], out: &mut Vec<u8>) -> Option<()> {
    match read_words(*out.allocator(), words) {
        Ok(words) => match order_of(words) {
            Ok(order) => report_order(&order, out),
            Err(refusal) => push_refused(out, refusal),
        },
        Err(error) => write!(out, "{:?}", error.kind()).ok(),
    }
}

/// The disk that a variable names.
fn report_disk(words: &[&str], out: &mut Vec<u8>) -> Option<()> {
    match disk_of(words.get(1).copied()) {
        Ok(disk) => write!(out, "{disk:?}").ok(),
        Err(error) => write!(out, "{error}").ok(),
    }
}

/// What the words of a row order, or the disk that its variable names. With memory at hand, its
/// want is no answer.
pub(crate) fn report(word: &str, asked: &[u8], out: &mut Vec<u8>) -> Option<()> {
    let text = str::from_utf8(asked).ok()?;
    let words = words_of(*out.allocator(), text)?;
    match word {
        "disk" => report_disk(&words, out),
        "text" => report_text(&words, out),
        _ => report_words(&words, out),
    }
}
