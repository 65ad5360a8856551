//! The office in memory, as a policy reads it.
use office_access::OfficeView;
use office_machine::Machine;
use office_records::{RecordNo, Text};
use office_rules::{Entry, RunNo};
use office_tree::Tree;

/// An office in memory, as it stands just before an act.
#[derive(Drop)]
pub struct Snapshot<'a> {
    pub machine: &'a Machine,
}

impl OfficeView for Snapshot<'_> {
    ghost office = { λ snapshot. snapshot.machine.now };

    fn tree(&self) -> &Tree {
        self.machine.tree()
    }

    fn opener(&self) -> Option<&Text> {
        self.machine.opener()
    }

    fn run_count(&self) -> RunNo {
        self.machine.run_count()
    }

    fn run_opener(&self, run: RunNo) -> Option<&Text> {
        self.machine.run_opener(run)
    }

    fn entry(&self, run: RunNo, record_no: RecordNo) -> Option<&Entry> {
        self.machine.entry(run, record_no)
    }
}
