//! The writes of a change, done to the office in memory.
ghost use Rattle.std.specs.Prelude.{◌≡◌, ◌<◌, ◌≤◌, length, OnOk, OnErr};
ghost use Rattle.office_records.specs.Lasting.{KeepsHead};
ghost use Rattle.office_records.specs.Rows.{put_record};
ghost use Rattle.office_records.specs.Lists.{put};
ghost use Rattle.office_records.specs.Sound.{IsSound};
ghost use Rattle.office_rules.specs.Writes.{all_office_writes, write_office, CanFollow, CanPut, CanWrite};

use crate::entry_maps::{put_certificate, put_entry};
use crate::parts::Parts;
use crate::{Change, RowWrite, Run};
use office_base::Memory;
use office_records::{Record, RecordNo, Status};
use office_rules::RunNo;
use office_tree::{Tree, put_row};

/// Puts a record's head and status in place of those that are there.
fn replace_record(tree: &mut Tree, record_no: RecordNo, head: Record, status: Status)
    requires sound { IsSound (put_record tree.old record_no head status) }
    requires there { (0 < record_no) × (record_no ≤ length tree.old.records) }
    requires keeps { KeepsHead tree.old.records record_no head }
    ensures { tree.new ≡ put_record tree.old record_no head status }
{
    if tree.put_record(record_no, head, status).is_err() {
        unreachable!();
    }
}

/// Puts a run in place of the one that is there.
fn replace_run(runs: &mut Vec<Run>, number: RunNo, run: Run)
    requires { (0 < number) × (number ≤ length runs.old.items) }
    ensures { runs.new.items ≡ put runs.old.items number run }
{
    if put_row(runs, number, run).is_err() {
        unreachable!();
    }
}

impl Parts {
    /// Does a write that may need memory. Where an allocation is refused, the office is as it was.
    fn put(&mut self, write: RowWrite) -> Result<(), Memory>
        requires { CanPut self.old write }
        ensures ok { OnOk result (self.new ≡ write_office write self.old) }
        ensures err { OnErr result (self.new ≡ self.old) }
    {
        match write {
            RowWrite::Schedule { code, schedule } => self.tree.put_schedule(code, schedule),
            RowWrite::Class { code, class } => self.tree.put_class(code, class),
            RowWrite::Aggregation {
                number,
                aggregation,
            } => self.tree.put_aggregation(number, aggregation),
            RowWrite::Record {
                number,
                head,
                status,
            } => self.tree.put_record(number, head, status),
            RowWrite::Event { number, event } => self.tree.put_event(number, event),
            RowWrite::Hold { code, hold } => self.holds.put(code, hold),
            RowWrite::Target { hold, target } => self.holds.put_target(&hold, target),
            RowWrite::RemoveTarget { hold, target } => {
                self.holds.take_target(&hold, &target);
                Ok(())
            }
            RowWrite::Run { number, run } => put_row(&mut self.runs, number, run),
            RowWrite::Entry { entry } => put_entry(&mut self.entries, entry),
            RowWrite::Certificate { run, text } => {
                put_certificate(&mut self.certificates, run, text)
            }
            _ => unreachable!(),
        }
    }

    /// Does a write that needs no memory; the contents of records are not kept here.
    fn follow(&mut self, write: RowWrite)
        requires { CanFollow self.old write }
        ensures { self.new ≡ write_office write self.old }
    {
        match write {
            RowWrite::Record {
                number,
                head,
                status,
            } => replace_record(&mut self.tree, number, head, status),
            RowWrite::Run { number, run } => replace_run(&mut self.runs, number, run),
            RowWrite::Day { day } => self.day = day,
            RowWrite::Content { .. } | RowWrite::DeleteContent { .. } => {}
            _ => unreachable!(),
        }
    }

    /// Makes a change that was decided of this office. Where an allocation is refused, the office
    /// is as it was.
    pub(crate) fn apply(&mut self, change: Change) -> Result<(), Memory>
        requires { CanWrite self.old change.writes.items }
        ensures ok { OnOk result (self.new ≡ all_office_writes change.writes.items self.old) }
        ensures err { OnErr result (self.new ≡ self.old) }
    {
        let mut writes = change.writes.into_iter();
        if let Some(first) = writes.next() {
            self.put(first)?;
            for write in writes {
                self.follow(write);
            }
        }
        Ok(())
    }
}
