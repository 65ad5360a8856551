//! Decisions on disposal runs: the opening of one, and a step of the open one.
ghost use Rattle.std.specs.Prelude.{◌≡◌, None, Some, IfOk};
ghost use Rattle.office_records.specs.Conditions.{first_of};
ghost use Rattle.office_rules.specs.Acts.{IsDecidedTo};
ghost use Rattle.office_rules.specs.Conditions.{conditions_of_open_run};
ghost use Rattle.office_rules.specs.Runs.{next_ready, open_run};
ghost use Rattle.office_rules.specs.Sound.{IsSoundOffice};
ghost use Rattle.office_rules.specs.State.{with_contents};
ghost use Rattle.office_rules.specs.Steps.{step_open_run, step_run_step};

use crate::parts::Parts;
use crate::tree_decisions::two;
use crate::{Answer, Change, Decision, RowWrite, Run};
use office_base::{Memory, Refusal};
use office_days::Day;
use office_records::{RecordNo, Text};
use office_rules::RunNo;
use std::alloc::Global;

impl Parts {
    /// Why a run is not opened, by the runs alone: there are 10,000, or one is open.
    fn check_open_run(&self) -> Option<Refusal>
        requires { IsSoundOffice self.now }
        ensures { result ≡ first_of (conditions_of_open_run self.now) }
    {
        if self.runs.len() >= 10_000 {
            return Some(Refusal::Full);
        }
        if self.open_run().is_some() {
            return Some(Refusal::RunOpen);
        }
        None
    }

    /// What is decided of a new run.
    pub(crate) fn decide_open_run(
        &self,
        alloc: Global,
        day: Day,
        by: &Text,
    ) -> Result<Decision, Memory>
        requires { IsSoundOffice self.now }
        ensures { IfOk result
            (λ d. IsDecidedTo self.now
            (λ contents. step_open_run (with_contents self.now contents) day by.now) d) }
    {
        if let Some(refusal) = self.dated(day, self.check_open_run()) {
            return Ok(Decision::Stay(Answer::Refused(refusal)));
        }
        let number = self.run_count() + 1;
        let run = Run {
            day,
            by: by.copy(alloc)?,
            cursor: 0,
            is_closed: false,
        };
        self.go(
            alloc,
            Answer::Number(number),
            RowWrite::Run { number, run },
            day,
        )
    }

    /// What is decided of a step of the open run that takes this record.
    fn decide_taking(
        &self,
        alloc: Global,
        run: RunNo,
        record_no: RecordNo,
    ) -> Result<Decision, Memory>
        requires sound { IsSoundOffice self.now }
        requires opened { open_run self.now ≡ Some run }
        requires next { next_ready self.now run ≡ Some record_no }
        ensures { IfOk result
            (λ d. IsDecidedTo self.now (λ contents. step_run_step (with_contents self.now contents))
            d) }
    {
        let Some(outcome) = self.outcome_of(record_no) else {
            unreachable!();
        };
        let writes = self.taking_writes(alloc, run, record_no, outcome)?;
        Ok(Decision::Go(Change {
            answer: Answer::Step(record_no, outcome),
            writes,
        }))
    }

    /// What is decided of a step of the open run where no record is left.
    fn decide_closing(&self, alloc: Global, run: RunNo) -> Result<Decision, Memory>
        requires sound { IsSoundOffice self.now }
        requires opened { open_run self.now ≡ Some run }
        requires next { next_ready self.now run ≡ None }
        ensures { IfOk result
            (λ d. IsDecidedTo self.now (λ contents. step_run_step (with_contents self.now contents))
            d) }
    {
        let text = self.certificate_of(alloc, run)?;
        let mut closed = self.run(run).copy(alloc)?;
        closed.is_closed = true;
        let writes = two(
            alloc,
            RowWrite::Certificate { run, text },
            RowWrite::Run {
                number: run,
                run: closed,
            },
        )?;
        Ok(Decision::Go(Change {
            answer: Answer::RunClosed(run),
            writes,
        }))
    }

    /// What is decided of a step of the open run.
    pub(crate) fn decide_run_step(&self, alloc: Global) -> Result<Decision, Memory>
        requires { IsSoundOffice self.now }
        ensures { IfOk result
            (λ d. IsDecidedTo self.now (λ contents. step_run_step (with_contents self.now contents))
            d) }
    {
        let Some(run) = self.open_run() else {
            return Ok(Decision::Stay(Answer::Refused(Refusal::NoRun)));
        };
        match self.next_ready(run) {
            Some(record_no) => self.decide_taking(alloc, run, record_no),
            None => self.decide_closing(alloc, run),
        }
    }
}
