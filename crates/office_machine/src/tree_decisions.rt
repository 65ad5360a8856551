//! Decisions on schedules, classes and aggregations, and the write of the office's day.
ghost use Rattle.std.specs.Prelude.{◌≡◌, List, [], ◌∷◌, ◌++◌, Bool, None, IfOk};
ghost use Rattle.std.specs.Option.{option_copied};
ghost use Rattle.office_base.specs.declared.refusal.Refusal.{Refusal};
ghost use Rattle.office_records.specs.Conditions.{first_of};
ghost use Rattle.office_rules.specs.Acts.{IsDecidedTo, IsGoing};
ghost use Rattle.office_rules.specs.Conditions.{dated};
ghost use Rattle.office_rules.specs.Sound.{IsSoundOffice};
ghost use Rattle.office_rules.specs.State.{with_contents};
ghost use Rattle.office_machine.specs.DayWrites.{day_writes};
ghost use Rattle.office_rules.specs.Steps.{step_add_aggregation, step_add_class, step_add_schedule, step_close_aggregation, step_set_class_schedule};

use crate::parts::Parts;
use crate::{Answer, Change, Decision, RowWrite};
use office_base::{Memory, Refusal};
use office_days::Day;
use office_records::{AggNo, Aggregation, Class, Code, Schedule, Text};
use office_rules::{copy_code, copy_codes, copy_texts};
use std::alloc::Global;

/// Two writes in this order.
pub(crate) fn two(alloc: Global, first: RowWrite, second: RowWrite) -> Result<Vec<RowWrite>, Memory>
    ensures { IfOk result (λ writes. writes.items ≡ first ∷ second ∷ []) }
{
    Ok(Vec::from_array(alloc, [first, second])?)
}

/// The writes and then one more.
pub(crate) fn then(mut writes: Vec<RowWrite>, last: RowWrite) -> Result<Vec<RowWrite>, Memory>
    ensures { IfOk result (λ all. all.items ≡ writes.items ++ last ∷ []) }
{
    writes.push(last)?;
    Ok(writes)
}

/// An aggregation of these, open.
fn open_aggregation(
    alloc: Global,
    ref_text: &Text,
    title: &Text,
    parent: Option<AggNo>,
    class: Option<&Code>,
) -> Result<Aggregation, Memory>
    ensures { IfOk result
        (λ it. it
        ≡ record {
          ref_text = ref_text.now;
          title = title.now;
          parent = parent;
          class =
              option_copied class.entry;
          closed = None;
        }) }
{
    let class = copy_code(alloc, class)?;
    let (ref_text, title) = copy_texts(alloc, ref_text, title)?;
    Ok(Aggregation {
        ref_text,
        title,
        parent,
        class,
        closed: None,
    })
}

impl Parts {
    /// The writes, and then that of the office's day, where it is another.
    pub(crate) fn with_day(
        &self,
        mut writes: Vec<RowWrite>,
        day: Day,
    ) -> Result<Vec<RowWrite>, Memory>
        ensures { IfOk result (λ all. all.items ≡ writes.items ++ day_writes self.now day) }
    {
        if day != self.day {
            writes.push(RowWrite::Day { day })?;
        }
        Ok(writes)
    }

    /// The decision to do that write and then to set the office's day.
    pub(crate) fn go(
        &self,
        alloc: Global,
        answer: Answer,
        write: RowWrite,
        day: Day,
    ) -> Result<Decision, Memory>
        ensures { IfOk result (λ d. IsGoing answer (write ∷ day_writes self.now day) d) }
    {
        let writes = self.with_day(Vec::from_array(alloc, [write])?, day)?;
        Ok(Decision::Go(Change { answer, writes }))
    }

    /// The refusal of an act of that day: the day's, where it is before the office's, else the
    /// other.
    pub(crate) fn dated(&self, day: Day, refusal: Option<Refusal>) -> Option<Refusal>
        ensures { (conditions : List (Refusal × Bool)) → refusal ≡ first_of conditions
            → result ≡ first_of (dated self.now day conditions) }
    {
        if day < self.day {
            return Some(Refusal::DayBack);
        }
        refusal
    }

    /// What is decided of a new schedule.
    pub(crate) fn decide_add_schedule(
        &self,
        alloc: Global,
        day: Day,
        code: &Code,
        schedule: Schedule,
    ) -> Result<Decision, Memory>
        requires { IsSoundOffice self.now }
        ensures { IfOk result
            (λ d. IsDecidedTo self.now
            (λ contents. step_add_schedule (with_contents self.now contents) day code.now
            schedule) d) }
    {
        if let Some(refusal) = self.dated(day, self.tree.check_add_schedule(code)) {
            return Ok(Decision::Stay(Answer::Refused(refusal)));
        }
        let code = code.copy(alloc)?;
        self.go(
            alloc,
            Answer::Done,
            RowWrite::Schedule { code, schedule },
            day,
        )
    }

    /// What is decided of a new class.
    pub(crate) fn decide_add_class(
        &self,
        alloc: Global,
        day: Day,
        code: &Code,
        title: &Text,
        schedule: &Code,
    ) -> Result<Decision, Memory>
        requires { IsSoundOffice self.now }
        ensures { IfOk result
            (λ d. IsDecidedTo self.now
            (λ contents. step_add_class (with_contents self.now contents) day code.now
            (record { title = title.now; schedule = schedule.now })) d) }
    {
        if let Some(refusal) = self.dated(day, self.tree.check_add_class(code, schedule)) {
            return Ok(Decision::Stay(Answer::Refused(refusal)));
        }
        let title = title.copy(alloc)?;
        let (code, schedule) = copy_codes(alloc, code, schedule)?;
        let class = Class { title, schedule };
        self.go(alloc, Answer::Done, RowWrite::Class { code, class }, day)
    }

    /// What is decided of another schedule for a class.
    pub(crate) fn decide_set_class_schedule(
        &self,
        alloc: Global,
        day: Day,
        class: &Code,
        schedule: &Code,
    ) -> Result<Decision, Memory>
        requires { IsSoundOffice self.now }
        ensures { IfOk result
            (λ d. IsDecidedTo self.now
            (λ contents. step_set_class_schedule (with_contents self.now contents) day class.now
            schedule.now) d) }
    {
        if let Some(refusal) = self.dated(
            day,
            self.tree.check_set_class_schedule(class, schedule),
        ) {
            return Ok(Decision::Stay(Answer::Refused(refusal)));
        }
        let title = match self.tree.class(class) {
            Some(it) => it.title.copy(alloc)?,
            None => unreachable!(),
        };
        let (code, schedule) = copy_codes(alloc, class, schedule)?;
        let class = Class { title, schedule };
        self.go(alloc, Answer::Done, RowWrite::Class { code, class }, day)
    }

    /// What is decided of a new aggregation.
    pub(crate) fn decide_add_aggregation(
        &self,
        alloc: Global,
        day: Day,
        ref_text: &Text,
        title: &Text,
        parent: Option<AggNo>,
        class: Option<&Code>,
    ) -> Result<Decision, Memory>
        requires { IsSoundOffice self.now }
        ensures { IfOk result
            (λ d. IsDecidedTo self.now
            (λ contents. step_add_aggregation (with_contents self.now contents) day ref_text.now
            title.now parent (option_copied class.entry)) d) }
    {
        if let Some(refusal) = self.dated(
            day,
            self.tree.check_add_aggregation(ref_text, parent, class),
        ) {
            return Ok(Decision::Stay(Answer::Refused(refusal)));
        }
        let number = self.tree.aggregation_count() + 1;
        let aggregation = open_aggregation(alloc, ref_text, title, parent, class)?;
        let write = RowWrite::Aggregation {
            number,
            aggregation,
        };
        self.go(alloc, Answer::Number(number), write, day)
    }

    /// What is decided of an aggregation's closing.
    pub(crate) fn decide_close_aggregation(
        &self,
        alloc: Global,
        day: Day,
        aggregation: AggNo,
    ) -> Result<Decision, Memory>
        requires { IsSoundOffice self.now }
        ensures { IfOk result
            (λ d. IsDecidedTo self.now
            (λ contents. step_close_aggregation (with_contents self.now contents) day
            aggregation) d) }
    {
        if let Some(refusal) = self.dated(day, self.tree.check_close_aggregation(aggregation)) {
            return Ok(Decision::Stay(Answer::Refused(refusal)));
        }
        let mut closed = self.tree.aggregation(aggregation).copy(alloc)?;
        closed.closed = Some(day);
        let write = RowWrite::Aggregation {
            number: aggregation,
            aggregation: closed,
        };
        self.go(alloc, Answer::Done, write, day)
    }
}
