//! The office as the layers above see it, sound at any time: it decides, applies and reports.
ghost use Rattle.std.specs.Prelude.{◌≡◌, IfOk, None, Ok, OnErr, OnOk, false, length};
ghost use Rattle.std.specs.FinMap.{get};
ghost use Rattle.std.specs.Option.{option_copied, option_map};
ghost use Rattle.std.specs.String.{string_bytes};
ghost use Rattle.office_records.specs.Lists.{numbered};
ghost use Rattle.office_rules.specs.Acts.{CanBeMade, IsDecidedFor, IsFeasible, KeepsHeld, ReportsItsKind, may_release};
ghost use Rattle.office_rules.specs.Forms.{IsWellFormedAct};
ghost use Rattle.office_rules.specs.Readings.{IsDueList, IsOverdueList, all_entries_of, ending_entry, record_view};
ghost use Rattle.office_rules.specs.Registers.{AreDueRows, AreOverdueRows, entry_rows};
ghost use Rattle.office_rules.specs.Runs.{looked_at, next_in_run, open_run, opened_by};
ghost use Rattle.office_rules.specs.State.{empty_office};
ghost use Rattle.office_rules.specs.Writes.{all_office_writes};

use crate::due_list::due_list;
use crate::due_rows::DueRows;
use crate::entry_rows::EntryRows;
use crate::parts::Parts;
use crate::selection::Selection;
use crate::{Act, Change, Decision, RecordView};
use office_base::Memory;
use office_days::{ConfirmDays, Day};
use office_holds::Holds;
use office_records::{RecordNo, Text};
use office_rules::{Entry, RunNo};
use office_tree::Tree;
use std::alloc::Global;
use std::marker::Model;

/// The office in memory, without the contents of its records. Contracts see an `Office`, which is
/// sound.
#[derive(Drop)]
pub struct Machine {
    pub(crate) parts: Parts,
}

impl Model for Machine {
    ghost use Rattle.std.specs.Coded.{codes};
    ghost use Rattle.std.specs.FinMap as map;
    ghost use Rattle.office_rules.specs.Sound.{IsSoundOffice};
    ghost use Rattle.office_rules.specs.State.{Office};

    ghost Value = { Office };

    ghost coded = { Prim.hlevel (codes, map.code) };

    ghost view = { λ m. m.parts };

    ghost invariant = { λ m. IsSoundOffice m.parts };
}

impl Machine {
    /// A new office, in which nothing is, on the first day that there is, 0001-01-01.
    pub fn new(alloc: Global) -> Machine
        ensures { result ≡ empty_office }
    {
        Machine {
            parts: Parts::new(alloc),
        }
    }

    /// The allocator of what it keeps, with which its answers are made.
    fn alloc(&self) -> Global {
        *self.parts.runs.allocator()
    }

    /// What is decided of an act: that it is refused, that its record was added before (`Same`), or
    /// the change that is to be made. The office stays as it is, and the contents of records are
    /// not asked for. `Memory` where there is none for the change.
    pub fn decide(&self, act: &Act) -> Result<Decision, Memory>
        ensures formed { IsWellFormedAct act.now }
        ensures step { IfOk result (λ d. IsDecidedFor self.now act.now d) }
        ensures reported { IfOk result ReportsItsKind }
        ensures feasible { IfOk result (λ d. IsFeasible self.now d) }
        ensures held { IfOk result (λ d. may_release act.now ≡ false → KeepsHeld self.now d) }
    {
        act.formed();
        self.parts.decide(self.alloc(), act)
    }

    /// Makes a change that was decided of this office. Where an allocation is refused, the office
    /// is as it was.
    pub fn apply(&mut self, change: Change) -> Result<(), Memory>
        requires { CanBeMade self.old change }
        ensures ok { OnOk result (self.new ≡ all_office_writes change.writes.items self.old) }
        ensures err { OnErr result (self.new ≡ self.old) }
    {
        self.parts.apply(change)
    }

    /// The record that the next step of the open run would take; none where no run is open, or
    /// where the step would close it.
    pub fn next_in_run(&self) -> Option<RecordNo>
        ensures { result ≡ next_in_run self.now }
    {
        self.parts.next_in_run()
    }

    /// The answer of [`Machine::next_in_run`], and how many records were looked at for it, of those
    /// that a run takes once they are due ([`Tree::is_candidate`]): the ones above the cursor of
    /// the open run and not above the answer, all above the cursor where it is `None`, and none
    /// where no run is open.
    pub fn next_counted(&self) -> (Option<RecordNo>, u32)
        ensures answer { result.0 ≡ next_in_run self.now }
        ensures count { result.1 ≡ looked_at self.now }
    {
        self.parts.next_counted()
    }

    /// What is reported of the record; `None` where it is not there, which takes no memory.
    pub fn record(&self, record_no: RecordNo) -> Result<Option<RecordView>, Memory>
        ensures read { IfOk result (λ view. view ≡ record_view self.now record_no) }
        ensures absent { record_view self.now record_no ≡ None → result ≡ Ok None }
    {
        self.parts.view(self.alloc(), record_no)
    }

    /// The entry that ended the record; `None` where it is not ended or not there, which takes no
    /// memory.
    pub fn entry_of(&self, record_no: RecordNo) -> Result<Option<Entry>, Memory>
        ensures read { IfOk result (λ entry. entry ≡ ending_entry self.now record_no) }
        ensures absent { ending_entry self.now record_no ≡ None → result ≡ Ok None }
    {
        self.parts.entry_that_ended(self.alloc(), record_no)
    }

    /// All entries, by run, then record.
    pub fn entries(&self) -> Result<Vec<Entry>, Memory>
        ensures { IfOk result (λ all. all.items ≡ all_entries_of self.now) }
    {
        self.parts.all_entries(self.alloc())
    }

    /// The text of the certificate of that run; `None` where it is not closed or not there, which
    /// takes no memory.
    pub fn certificate(&self, run: RunNo) -> Result<Option<String>, Memory>
        ensures read { IfOk result
            (λ text. option_map (λ it. string_bytes it) text ≡ get self.now.certificates run) }
        ensures absent { get self.now.certificates run ≡ None → result ≡ Ok None }
    {
        self.parts.certificate(self.alloc(), run)
    }

    /// The due list of the day: the records that are here and due on it or before it, by due day,
    /// then number.
    pub fn due_list(&self, day: Day) -> Result<Vec<RecordNo>, Memory>
        ensures { IfOk result (λ list. IsDueList self.now.tree day list.items) }
    {
        due_list(self.alloc(), &self.parts.tree, &Selection::Due(day))
    }

    /// What is reported of the records that are due on the day, row by row, in the order of the due
    /// list.
    pub fn due_rows(&self, day: Day) -> Result<DueRows<'_>, Memory>
        ensures { IfOk result (λ rows. AreDueRows self.now day rows) }
    {
        self.parts.due_rows(self.alloc(), &Selection::Due(day))
    }

    /// What is overdue on the day: the records that are here whose deadline, so many days after the
    /// due day, is before it, and of which no confirmation counts; by deadline, then number.
    pub fn overdue_list(&self, day: Day, days: ConfirmDays) -> Result<Vec<RecordNo>, Memory>
        ensures { IfOk result (λ list. IsOverdueList self.now.tree day days list.items) }
    {
        due_list(
            self.alloc(),
            &self.parts.tree,
            &Selection::Overdue(day, days),
        )
    }

    /// The rows of what is overdue on the day, in the order of that list.
    pub fn overdue_rows(&self, day: Day, days: ConfirmDays) -> Result<DueRows<'_>, Memory>
        ensures { IfOk result (λ rows. AreOverdueRows self.now day days rows) }
    {
        self.parts
            .due_rows(self.alloc(), &Selection::Overdue(day, days))
    }

    /// What is reported of all entries, row by row, by run, then record.
    pub fn entry_rows(&self) -> EntryRows<'_>
        ensures { result ≡ entry_rows self.now }
    {
        self.parts.entry_rows()
    }

    /// The number of runs, which is that of the last one.
    pub fn run_count(&self) -> RunNo
        ensures { result ≡ length self.now.runs }
    {
        self.parts.run_count()
    }

    /// Who opened the run of that number; `None` if there is no such run.
    pub fn run_opener(&self, run: RunNo) -> Option<&Text>
        ensures { option_copied result ≡ option_map (λ it. it.by) (numbered self.now.runs run) }
    {
        self.parts.run_opener(run)
    }

    /// The entry of that run about the record; `None` if there is none.
    pub fn entry(&self, run: RunNo, record_no: RecordNo) -> Option<&Entry>
        ensures { option_copied result ≡ get self.now.entries (run, record_no) }
    {
        self.parts.entry(run, record_no)
    }

    /// Who opened the run that is open; `None` if none is open.
    pub fn opener(&self) -> Option<&Text>
        ensures { option_copied result ≡ option_map (opened_by self.now) (open_run self.now) }
    {
        self.parts.opener()
    }

    /// The tree, by which its readings and checks are reached.
    pub fn tree(&self) -> &Tree
        ensures { result.now ≡ self.now.tree }
    {
        &self.parts.tree
    }

    /// The holds, by which theirs are reached.
    pub fn holds(&self) -> &Holds
        ensures { result.now ≡ self.now.holds }
    {
        &self.parts.holds
    }

    /// The office's day, before which no act may be.
    pub fn day(&self) -> Day
        ensures { result ≡ self.now.day }
    {
        self.parts.day
    }
}
