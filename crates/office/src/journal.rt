//! The journal of a gate, in a file.
use crate::read_file;
use jiff::Timestamp;
use office_base::{Memory, Stop};
use office_commands::Exit;
use office_journal::{Head, Journal, Opened, WrongLine, open_journal};
use office_noting::Watch;
use office_records::Text;
use office_store::Fault;
use std::alloc::Global;
use std::fs::{File, OpenOptions};
use std::io;
use std::io::Write;
use std::os::unix::fs::OpenOptionsExt;

/// What may be done with a new journal: its owner alone reads and writes it.
const MODE: u32 = 0o600;

/// How the moment of a line is written.
const MOMENT: &str = "%Y-%m-%dT%H:%M:%S%.6f+00:00";

/// A file to whose end lines are added. A line is on the disk once it is flushed.
#[derive(Drop)]
pub(crate) struct LinesFile {
    file: File,
}

impl Write for LinesFile {
    fn write(&mut self, buf: &[u8]) -> io::Result<usize> {
        self.file.write(buf)
    }

    fn flush(&mut self) -> io::Result<()> {
        self.file.sync_data()
    }
}

/// The clock of the machine. One that is set before 1970 counts as 1970.
#[derive(Drop)]
pub(crate) struct WallClock<'a> {
    pub(crate) rt: &'a HostRuntime,
}

impl Watch for WallClock<'_> {
    fn moment(&mut self, alloc: Global) -> Result<Text, Memory> {
        let now = match Timestamp::now(self.rt) {
            Ok(now) => now,
            Err(_) => Timestamp::UNIX_EPOCH,
        };
        match now.strftime(alloc, MOMENT) {
            Ok(text) => match Text::read(alloc, text.as_str())? {
                Some(moment) => Ok(moment),
                None => Err(Memory),
            },
            Err(_) => Err(Memory),
        }
    }
}

/// Prints which line of a journal is wrong, and why.
fn print_wrong(rt: &HostRuntime, file: &str, wrong: WrongLine) {
    let _ = eprintln!(rt; "office: {file}:{}: {}", wrong.place, wrong.wrong.text());
}

/// Opens the file of a journal for more lines, and makes it if there is none. No other process may
/// have it open so.
fn lines_file(rt: &HostRuntime, file: &str) -> Result<File, Exit> {
    let opened = OpenOptions::new()
        .read(true)
        .append(true)
        .create(true)
        .mode(MODE)
        .open(rt, file);
    let Ok(lines) = opened else {
        return Err(Exit::File);
    };
    match lines.try_lock() {
        Ok(()) => Ok(lines),
        Err(_) => {
            let _ = eprintln!(rt; "office: {file} is open in another process");
            Err(Exit::File)
        }
    }
}

/// Reads the end of a journal, and cuts off a torn line, which a stop left.
fn end_of(rt: &HostRuntime, file: &str, lines: &File) -> Result<Opened, Exit> {
    let text = match read_file(rt, file) {
        Ok(text) => text,
        Err(Stop::Memory) => return Err(Exit::Fault(Fault::Memory)),
        Err(Stop::Io) => return Err(Exit::File),
    };
    let end = match open_journal(&Head::start(), &text) {
        Ok(end) => end,
        Err(wrong) => {
            print_wrong(rt, file, wrong);
            return Err(Exit::File);
        }
    };
    if end.torn > 0 && lines.set_len(end.whole as u64).is_err() {
        let _ = eprintln!(rt; "office: the torn line at the end of {file} cannot be cut off");
        return Err(Exit::File);
    }
    Ok(end)
}

/// Opens the journal in a file. If a line of it is wrong, that is printed, and the file stays as it
/// is.
pub(crate) fn journal_in(rt: &HostRuntime, file: &str) -> Result<Journal<LinesFile>, Exit> {
    let lines = lines_file(rt, file)?;
    let end = end_of(rt, file, &lines)?;
    Ok(Journal::new(LinesFile { file: lines }, end.head))
}
