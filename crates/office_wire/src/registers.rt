//! The registers of the office, written as CSV.
ghost use Rattle.std.specs.Prelude.{◌≡◌, ◌⊎◌, [], OnErr, OnOk};
ghost use Rattle.std.specs.Io.KnownBytes.{Appends};
ghost use Rattle.office_base.specs.Output.{AppendsSome};
ghost use Rattle.office_csv.specs.Registers.{due_register, entry_register, overdue_register};
ghost use Rattle.office_wire.specs.Exporting.{Exports, IsDueRegister, IsEntryRegister, IsOverdueRegister};

use office_base::Stop;
use office_csv::{
    write_due_header, write_due_line, write_entry_header, write_entry_line, write_overdue_header,
    write_overdue_line,
};
use office_days::{ConfirmDays, Day};
use office_desk::{Desk, DueRows, EntryRows};
use office_store::Fault;
use sqlite::Alter;
use std::alloc::Global;
use std::io::Write;

/// Why a register was not written to its end; its first bytes may have gone out.
#[derive(Clone, Copy, PartialEq, Eq, Debug)]
pub enum ExportStop {
    /// The desk reported this fault, or lack of memory.
    Fault(Fault),
    /// The writer answered an error.
    Io,
}

impl From<Stop> for ExportStop {
    ghost use Rattle.std.specs.Prelude.{◌≡◌, ◌⊎◌};
    ghost use Rattle.office_store.specs.declared.fault.Fault.TheVariants as fault;
    ghost use Rattle.office_wire.specs.declared.registers.ExportStop.TheVariants as stop;

    ghost from_gives = { λ _ why. (why ≡ stop.Io) ⊎ (why ≡ stop.Fault fault.Memory) };

    fn from(stop: Stop) -> ExportStop {
        match stop {
            Stop::Memory => ExportStop::Fault(Fault::Memory),
            Stop::Io => ExportStop::Io,
        }
    }
}

/// Sends out what was written.
#[tactic(auto, using(office_json::proofs::Appending::appends_none))]
fn flush<W: Write>(out: &mut W) -> Result<(), Stop>
    ensures { Appends (W.contents out.old) (W.contents out.new) [] }
{
    out.flush().or(Err(Stop::Io))
}

/// Writes the due register: its header, and a line for each row.
fn write_due_register<W: Write>(
    alloc: Global,
    mut rows: DueRows<'_>,
    out: &mut W,
) -> Result<(), Stop>
    ensures ok { OnOk result
        (Appends (W.contents out.old) (W.contents out.new) (due_register rows.entry)) }
    ensures err { OnErr result
        (AppendsSome (W.contents out.old) (W.contents out.new) (due_register rows.entry)) }
{
    write_due_header(alloc, out)?;
    while let Some(row) = rows.next_row() {
        write_due_line(alloc, &row, out)?;
    }
    flush(out)
}

/// Writes the overdue register, each row with its deadline.
fn write_overdue_register<W: Write>(
    alloc: Global,
    mut rows: DueRows<'_>,
    days: ConfirmDays,
    out: &mut W,
) -> Result<(), Stop>
    ensures ok { OnOk result
        (Appends (W.contents out.old) (W.contents out.new) (overdue_register days rows.entry)) }
    ensures err { OnErr result
        (AppendsSome (W.contents out.old) (W.contents out.new) (overdue_register days rows.entry)) }
{
    write_overdue_header(alloc, out)?;
    while let Some(row) = rows.next_row() {
        write_overdue_line(alloc, &row, days, out)?;
    }
    flush(out)
}

/// Writes the register of entries.
fn write_entry_register<W: Write>(
    alloc: Global,
    mut rows: EntryRows<'_>,
    out: &mut W,
) -> Result<(), Stop>
    ensures ok { OnOk result
        (Appends (W.contents out.old) (W.contents out.new) (entry_register rows.entry)) }
    ensures err { OnErr result
        (AppendsSome (W.contents out.old) (W.contents out.new) (entry_register rows.entry)) }
{
    write_entry_header(alloc, out)?;
    while let Some(row) = rows.next_row() {
        write_entry_line(alloc, &row, out)?;
    }
    flush(out)
}

/// Writes the due register of a day as CSV: its columns
/// `record,ref,class,schedule,action,due,held,confirmed`, and a line for each record that is here
/// and due on that day or before it, by due day, then number. Each line goes out before the next is
/// made, and at `Ok` all of them were sent out. It changes nothing. `Fault(Memory)` comes where
/// memory was refused, `Fault(Reopen)` where the desk was poisoned, and then nothing is written;
/// `Io` where the writer answered an error. At `Fault(Memory)` and `Io` the first bytes of the
/// register, or none, went out.
pub fn export_due<S: Alter, W: Write>(
    alloc: Global,
    desk: &mut Desk<S>,
    day: Day,
    out: &mut W,
) -> Result<(), ExportStop>
    ensures { Exports (IsDueRegister day) W.contents out.old out.new result desk.old desk.new }
{
    match desk.due_rows(day) {
        Ok(rows) => write_due_register(alloc, rows, out).map_err(ExportStop::from),
        Err(fault) => Err(ExportStop::Fault(fault)),
    }
}

/// Writes the overdue register of a day as CSV: its columns
/// `record,ref,class,schedule,action,due,deadline,held`, and a line for each record that is here,
/// whose deadline, so many days after its due day, is before that day, and of which no confirmation
/// counts; by deadline, then number. Otherwise as `export_due`.
pub fn export_overdue<S: Alter, W: Write>(
    alloc: Global,
    desk: &mut Desk<S>,
    day: Day,
    days: ConfirmDays,
    out: &mut W,
) -> Result<(), ExportStop>
    ensures { Exports (IsOverdueRegister day days) W.contents out.old out.new result desk.old
        desk.new }
{
    match desk.overdue_rows(day, days) {
        Ok(rows) => write_overdue_register(alloc, rows, days, out).map_err(ExportStop::from),
        Err(fault) => Err(ExportStop::Fault(fault)),
    }
}

/// Writes the register of the entries of all runs as CSV: its columns
/// `run,record,ref,outcome,class,schedule,due,hold,confirmed_by,length,digest`, and a line for each
/// entry, by run, then record. Ref, length and digest are those of the record's head. Otherwise as
/// `export_due`.
pub fn export_entries<S: Alter, W: Write>(
    alloc: Global,
    desk: &mut Desk<S>,
    out: &mut W,
) -> Result<(), ExportStop>
    ensures { Exports IsEntryRegister W.contents out.old out.new result desk.old desk.new }
{
    match desk.entry_rows() {
        Ok(rows) => write_entry_register(alloc, rows, out).map_err(ExportStop::from),
        Err(fault) => Err(ExportStop::Fault(fault)),
    }
}
