//! A step of a run on one record: its outcome, its entry and its row writes.
ghost use Rattle.std.specs.Prelude.{◌≡◌, [], ◌∷◌, ◌++◌, IfOk, IsSome, IsTrue, Some};
ghost use Rattle.office_records.specs.Disposal.{confirmation_of};
ghost use Rattle.office_records.specs.Lists.{numbered};
ghost use Rattle.office_records.specs.Tree.{has_record};
ghost use Rattle.office_records.specs.declared.head.Record.{Record};
ghost use Rattle.office_rules.specs.Holds.{least_covering};
ghost use Rattle.office_rules.specs.Disposing.{entry_of, hold_by, outcome_of};
ghost use Rattle.office_machine.specs.RunWrites.{outcome_writes, taking_writes};
ghost use Rattle.office_rules.specs.declared.rows.RowWrite.TheVariants as row_write;
ghost use Rattle.office_rules.specs.declared.run.Run.{Run};

use crate::RowWrite;
use crate::disposal::outcome_by;
use crate::parts::Parts;
use crate::tree_decisions::then;
use office_base::Memory;
use office_records::{Code, RecordNo, Status};
use office_rules::{Entry, Outcome, RunNo, copy_code, copy_codes};
use office_tree::Tree;
use std::alloc::Global;

/// The writes, and then that of the record with another status.
fn with_status(
    alloc: Global,
    tree: &Tree,
    writes: Vec<RowWrite>,
    record_no: RecordNo,
    status: Status,
) -> Result<Vec<RowWrite>, Memory>
    requires { IsTrue (has_record tree.now record_no) }
    ensures { IfOk result
        (λ all. (head : Record) → numbered tree.now.records record_no ≡ Some head
        → all.items ≡ writes.items ++ row_write.Record record_no head status ∷ []) }
{
    let head = tree.record(record_no).copy(alloc)?;
    let write = RowWrite::Record {
        number: record_no,
        head,
        status,
    };
    then(writes, write)
}

/// The writes, and then those of the record's own rows.
fn with_outcome(
    alloc: Global,
    tree: &Tree,
    writes: Vec<RowWrite>,
    record_no: RecordNo,
    outcome: Outcome,
) -> Result<Vec<RowWrite>, Memory>
    requires { IsTrue (has_record tree.now record_no) }
    ensures { IfOk result
        (λ all. (head : Record) → numbered tree.now.records record_no ≡ Some head
        → all.items ≡ writes.items ++ outcome_writes outcome record_no head) }
{
    match outcome {
        Outcome::Skipped => Ok(writes),
        Outcome::Sent => with_status(alloc, tree, writes, record_no, Status::Sent),
        Outcome::Destroyed | Outcome::Transferred => {
            let mut writes = with_status(alloc, tree, writes, record_no, Status::Ended)?;
            writes.push(RowWrite::DeleteContent { number: record_no })?;
            Ok(writes)
        }
    }
}

impl Parts {
    /// What comes of the record in a run; `None` where a run does not take it.
    pub(crate) fn outcome_of(&self, record_no: RecordNo) -> Option<Outcome>
        requires { IsTrue (has_record self.now.tree record_no) }
        ensures { result ≡ outcome_of self.now record_no }
    {
        let action = self.tree.schedule_of(record_no).action;
        let held = self.holds.held(&self.tree, record_no);
        outcome_by(self.tree.status(record_no), action, held)
    }

    /// The hold that is reported of a skipped record: the least code of those that cover it.
    fn hold_reported(
        &self,
        alloc: Global,
        record_no: RecordNo,
        outcome: Outcome,
    ) -> Result<Option<Code>, Memory>
        requires { IsTrue (has_record self.now.tree record_no) }
        ensures { IfOk result
            (λ hold. hold
            ≡ hold_by outcome (least_covering self.now.holds self.now.tree record_no)) }
    {
        match outcome {
            Outcome::Skipped => copy_code(alloc, self.holds.covering(&self.tree, record_no)),
            _ => Ok(None),
        }
    }

    /// The entry of a record that a run takes, as the office is.
    fn entry_of(
        &self,
        alloc: Global,
        run: RunNo,
        record_no: RecordNo,
        outcome: Outcome,
    ) -> Result<Entry, Memory>
        requires there { IsTrue (has_record self.now.tree record_no) }
        requires confirmed { IsSome (confirmation_of self.now.tree record_no) }
        ensures { IfOk result (λ entry. entry ≡ entry_of self.now run record_no outcome) }
    {
        let Some(confirmation) = &self.tree.record(record_no).confirmation else {
            unreachable!();
        };
        let confirmed_by = confirmation.by.copy(alloc)?;
        let hold = self.hold_reported(alloc, record_no, outcome)?;
        let class = self.tree.class_of(record_no);
        let (class, schedule) = copy_codes(alloc, class, self.tree.plan_of(record_no))?;
        Ok(Entry {
            run,
            record_no,
            outcome,
            class,
            schedule,
            due: confirmation.due,
            confirmed_by,
            hold,
        })
    }

    /// The writes of a run that takes the record, with that outcome.
    pub(crate) fn taking_writes(
        &self,
        alloc: Global,
        run: RunNo,
        record_no: RecordNo,
        outcome: Outcome,
    ) -> Result<Vec<RowWrite>, Memory>
        requires there { IsTrue (has_record self.now.tree record_no) }
        requires confirmed { IsSome (confirmation_of self.now.tree record_no) }
        requires run { IsSome (numbered self.now.runs run) }
        ensures { IfOk result
            (λ writes. (head : Record) (it : Run)
            → numbered self.now.tree.records record_no ≡ Some head
            → numbered self.now.runs run ≡ Some it
            → writes.items
            ≡ taking_writes outcome (entry_of self.now run record_no outcome) head it) }
    {
        let entry = self.entry_of(alloc, run, record_no, outcome)?;
        let writes = Vec::from_array(alloc, [RowWrite::Entry { entry }])?;
        let writes = with_outcome(alloc, &self.tree, writes, record_no, outcome)?;
        let mut moved = self.run(run).copy(alloc)?;
        moved.cursor = record_no;
        let write = RowWrite::Run {
            number: run,
            run: moved,
        };
        then(writes, write)
    }
}
