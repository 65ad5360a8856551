//! The open run, and the next ready record for it.
ghost use Rattle.std.specs.Prelude.{◌≡◌, length, IsSome, IsTrue, Some};
ghost use Rattle.std.specs.Option.{option_copied, option_map};
ghost use Rattle.office_records.specs.Lists.{numbered};
ghost use Rattle.office_records.specs.Candidates.{is_candidate};
ghost use Rattle.office_records.specs.Tree.{has_record};
ghost use Rattle.office_rules.specs.Disposing.{is_ready};
ghost use Rattle.office_rules.specs.Runs.{looked_at, looked_at_in, next_in_run, next_ready, open_run, opened_by};
ghost use Rattle.office_rules.specs.Sound.{IsSoundOffice};

use crate::Run;
use crate::parts::Parts;
use office_days::Day;
use office_records::{RecordNo, Status, Text};
use office_rules::RunNo;

impl Parts {
    /// How many runs there are: the number of the last one.
    pub(crate) fn run_count(&self) -> RunNo
        requires { IsSoundOffice self.now }
        ensures { result ≡ length self.now.runs }
    {
        self.runs.len() as RunNo
    }

    /// The run of that number.
    pub(crate) fn run(&self, number: RunNo) -> &Run
        requires { IsSome (numbered self.now.runs number) }
        ensures { numbered self.now.runs number ≡ Some result.now }
    {
        &self.runs[number as usize - 1]
    }

    /// Who opened the run of that number; `None` if there is no such run.
    pub(crate) fn run_opener(&self, number: RunNo) -> Option<&Text>
        requires { IsSoundOffice self.now }
        ensures { option_copied result ≡ option_map (λ it. it.by) (numbered self.now.runs number) }
    {
        if number == 0 || number > self.run_count() {
            return None;
        }
        Some(&self.run(number).by)
    }

    /// The run that is open: the last one, unless it is closed.
    pub(crate) fn open_run(&self) -> Option<RunNo>
        requires { IsSoundOffice self.now }
        ensures { result ≡ open_run self.now }
    {
        let last = self.run_count();
        match self.runs.last() {
            Some(run) if !run.is_closed => Some(last),
            _ => None,
        }
    }

    /// Who opened the run that is open; `None` if none is open.
    pub(crate) fn opener(&self) -> Option<&Text>
        requires { IsSoundOffice self.now }
        ensures { option_copied result ≡ option_map (opened_by self.now) (open_run self.now) }
    {
        match self.open_run() {
            Some(run) => Some(&self.run(run).by),
            None => None,
        }
    }

    /// Whether a candidate is ready for a run of that day: it is received, or its due day is
    /// reached.
    fn is_ready(&self, day: Day, record_no: RecordNo) -> bool
        requires there { IsTrue (has_record self.now.tree record_no) }
        requires candidate { IsTrue (is_candidate self.now.tree record_no) }
        ensures { result ≡ is_ready self.now day record_no }
    {
        match self.tree.status(record_no) {
            Status::Here => match self.tree.due_of(record_no) {
                Some(due) => due.reached(day),
                None => false,
            },
            Status::Received => true,
            Status::Sent | Status::Ended => false,
        }
    }

    /// The least ready record above the cursor of the run, and how many candidates were looked at;
    /// no other record is.
    fn next_ready_counted(&self, run: RunNo) -> (Option<RecordNo>, u32)
        requires { IsSome (numbered self.now.runs run) }
        ensures next { result.0 ≡ next_ready self.now run }
        ensures count { result.1 ≡ looked_at_in self.now run }
    {
        let it = self.run(run);
        let mut above = it.cursor;
        let mut count = 0;
        while let Some(record_no) = self.tree.next_candidate(above) {
            count += 1;
            if self.is_ready(it.day, record_no) {
                return (Some(record_no), count);
            }
            above = record_no;
        }
        (None, count)
    }

    /// The least ready record above the cursor of the run.
    pub(crate) fn next_ready(&self, run: RunNo) -> Option<RecordNo>
        requires { IsSome (numbered self.now.runs run) }
        ensures { result ≡ next_ready self.now run }
    {
        self.next_ready_counted(run).0
    }

    /// The record that the next step of the open run would take, and how many candidates were
    /// looked at.
    pub(crate) fn next_counted(&self) -> (Option<RecordNo>, u32)
        requires { IsSoundOffice self.now }
        ensures next { result.0 ≡ next_in_run self.now }
        ensures count { result.1 ≡ looked_at self.now }
    {
        match self.open_run() {
            Some(run) => self.next_ready_counted(run),
            None => (None, 0),
        }
    }

    /// The record that the next step of the open run would take.
    pub(crate) fn next_in_run(&self) -> Option<RecordNo>
        requires { IsSoundOffice self.now }
        ensures { result ≡ next_in_run self.now }
    {
        self.next_counted().0
    }
}
