//! What is decided of an act on a record.
ghost use Rattle.std.specs.Prelude.{◌≡◌, IfOk};
ghost use Rattle.std.specs.Option.{option_copied, option_map};
ghost use Rattle.sha2.specs.Sha256.{sha256};
ghost use Rattle.office_records.specs.Lists.{or_else};
ghost use Rattle.office_rules.specs.Acts.{IsDecidedTo};
ghost use Rattle.office_rules.specs.Conditions.{is_same_record, same_record};
ghost use Rattle.office_rules.specs.Effects.{new_head};
ghost use Rattle.office_rules.specs.Sound.{IsSoundOffice};
ghost use Rattle.office_rules.specs.State.{with_contents};
ghost use Rattle.office_rules.specs.Steps.{step_add_record, step_confirm, step_event, step_receipt, step_review, step_set_record_schedule};
ghost use Rattle.office_machine.specs.Filings.{filed};

use crate::new_record::Filing;
use crate::parts::Parts;
use crate::tree_decisions::two;
use crate::{Answer, Change, Decision, RowWrite};
use office_base::Memory;
use office_days::{Day, DueDay};
use office_records::{
    Action, Code, Confirmation, Event, Receipt, Record, RecordNo, Review, Status, Text,
};
use office_rules::{copy_code, copy_plan, copy_texts, digest_of};
use std::alloc::Global;

/// A second code that is equal to the first, if there is one, else to the other.
fn first_code(
    alloc: Global,
    first: Option<&Code>,
    other: Option<&Code>,
) -> Result<Option<Code>, Memory>
    ensures { IfOk result
        (λ c. c ≡ or_else (option_copied first.entry) (option_copied other.entry)) }
{
    match first {
        Some(code) => Ok(Some(code.copy(alloc)?)),
        None => copy_code(alloc, other),
    }
}

/// The confirmation of an action on that day, for a record that is due.
fn confirmed(
    alloc: Global,
    action: Action,
    due: Option<DueDay>,
    day: Day,
    by: &Text,
) -> Result<Option<Confirmation>, Memory>
    ensures { IfOk result
        (λ c. c
        ≡ option_map (λ it. record { action = action; due = it; day = day; by = by.now }) due) }
{
    match due {
        Some(due) => Ok(Some(Confirmation {
            action,
            due,
            day,
            by: by.copy(alloc)?,
        })),
        None => Ok(None),
    }
}

/// Whether the record is the one that is asked for, where its content has that digest.
fn is_same(new: &Filing<'_>, digest: [u8; 32], head: &Record) -> bool
    requires { digest ≡ sha256 (filed new.now).content }
    ensures { result ≡ is_same_record (filed new.now) head.now }
{
    *new.ref_text == head.ref_text
        && *new.title == head.title
        && new.originated == head.originated
        && new.aggregation == head.aggregation
        && new.content.bytes().len() == head.length as usize
        && digest == head.digest
}

/// The head of a new record, where its content has that digest.
fn new_head(alloc: Global, day: Day, new: &Filing<'_>, digest: [u8; 32]) -> Result<Record, Memory>
    requires { digest ≡ sha256 (filed new.now).content }
    ensures { IfOk result (λ head. head ≡ new_head day (filed new.now)) }
{
    let (class, schedule) = copy_plan(alloc, new.class, new.schedule)?;
    let (ref_text, title) = copy_texts(alloc, new.ref_text, new.title)?;
    Ok(Record {
        ref_text,
        title,
        originated: new.originated,
        added: day,
        aggregation: new.aggregation,
        class,
        schedule,
        length: new.content.bytes().len() as u32,
        digest,
        review: None,
        confirmation: None,
        receipt: None,
    })
}

impl Parts {
    /// The record that was added before with all that is asked now, where its content has that
    /// digest.
    fn same_record(&self, new: &Filing<'_>, digest: [u8; 32]) -> Option<RecordNo>
        requires sound { IsSoundOffice self.now }
        requires digest { digest ≡ sha256 (filed new.now).content }
        ensures { result ≡ same_record self.now (filed new.now) }
    {
        match self.tree.record_of_ref(new.ref_text) {
            Some(record_no) => {
                if is_same(new, digest, self.tree.record(record_no)) {
                    Some(record_no)
                } else {
                    None
                }
            }
            None => None,
        }
    }

    /// What is decided of a new record, which may have been added before.
    pub(crate) fn decide_add_record(
        &self,
        alloc: Global,
        day: Day,
        new: &Filing<'_>,
    ) -> Result<Decision, Memory>
        requires { IsSoundOffice self.now }
        ensures { IfOk result
            (λ d. IsDecidedTo self.now
            (λ contents. step_add_record (with_contents self.now contents) day (filed new.now)) d) }
    {
        let digest = digest_of(new.content.bytes());
        if let Some(record_no) = self.same_record(new, digest) {
            return Ok(Decision::Stay(Answer::Same(record_no)));
        }
        let class = new.class.as_ref();
        let schedule = new.schedule.as_ref();
        let check = self
            .tree
            .check_add_record(new.ref_text, new.aggregation, class, schedule);
        if let Some(refusal) = self.dated(day, check) {
            return Ok(Decision::Stay(Answer::Refused(refusal)));
        }
        let number = self.tree.record_count() + 1;
        let bytes = Vec::from_slice(alloc, new.content.bytes())?;
        let head = new_head(alloc, day, new, digest)?;
        let write = RowWrite::Record {
            number,
            head,
            status: Status::Here,
        };
        let writes = two(alloc, write, RowWrite::Content { number, bytes })?;
        let writes = self.with_day(writes, day)?;
        Ok(Decision::Go(Change {
            answer: Answer::Number(number),
            writes,
        }))
    }

    /// What is decided of a record's own schedule, set or taken away.
    pub(crate) fn decide_set_record_schedule(
        &self,
        alloc: Global,
        day: Day,
        record_no: RecordNo,
        schedule: Option<&Code>,
    ) -> Result<Decision, Memory>
        requires { IsSoundOffice self.now }
        ensures { IfOk result
            (λ d. IsDecidedTo self.now
            (λ contents. step_set_record_schedule (with_contents self.now contents) day
            record_no (option_copied schedule.entry)) d) }
    {
        if let Some(refusal) = self.dated(
            day,
            self.tree.check_set_record_schedule(record_no, schedule),
        ) {
            return Ok(Decision::Stay(Answer::Refused(refusal)));
        }
        let status = self.tree.status(record_no);
        let own = copy_code(alloc, schedule)?;
        let mut head = self.tree.record(record_no).copy(alloc)?;
        head.schedule = own;
        let write = RowWrite::Record {
            number: record_no,
            head,
            status,
        };
        self.go(alloc, Answer::Done, write, day)
    }

    /// What is decided of a confirmation of a record's disposal.
    pub(crate) fn decide_confirm(
        &self,
        alloc: Global,
        day: Day,
        record_no: RecordNo,
        action: Action,
        by: &Text,
    ) -> Result<Decision, Memory>
        requires { IsSoundOffice self.now }
        ensures { IfOk result
            (λ d. IsDecidedTo self.now
            (λ contents. step_confirm (with_contents self.now contents) day record_no action
            by.now) d) }
    {
        if let Some(refusal) = self.dated(day, self.tree.check_confirm(day, record_no, action)) {
            return Ok(Decision::Stay(Answer::Refused(refusal)));
        }
        let status = self.tree.status(record_no);
        let confirmation = confirmed(alloc, action, self.tree.due_of(record_no), day, by)?;
        let mut head = self.tree.record(record_no).copy(alloc)?;
        head.confirmation = confirmation;
        let write = RowWrite::Record {
            number: record_no,
            head,
            status,
        };
        self.go(alloc, Answer::Done, write, day)
    }

    /// What is decided of a record's review.
    pub(crate) fn decide_review(
        &self,
        alloc: Global,
        day: Day,
        record_no: RecordNo,
        schedule: Option<&Code>,
        by: &Text,
    ) -> Result<Decision, Memory>
        requires { IsSoundOffice self.now }
        ensures { IfOk result
            (λ d. IsDecidedTo self.now
            (λ contents. step_review (with_contents self.now contents) day record_no
            (option_copied schedule.entry) by.now) d) }
    {
        if let Some(refusal) = self.dated(day, self.tree.check_review(day, record_no, schedule)) {
            return Ok(Decision::Stay(Answer::Refused(refusal)));
        }
        let status = self.tree.status(record_no);
        let old = self.tree.record(record_no);
        let by = by.copy(alloc)?;
        let schedule = first_code(alloc, schedule, old.schedule.as_ref())?;
        let mut head = old.copy(alloc)?;
        head.review = Some(Review { day, by });
        head.schedule = schedule;
        let write = RowWrite::Record {
            number: record_no,
            head,
            status,
        };
        self.go(alloc, Answer::Done, write, day)
    }

    /// What is decided of a receiver's receipt for a record that was sent, by which it is received.
    pub(crate) fn decide_receipt(
        &self,
        alloc: Global,
        day: Day,
        record_no: RecordNo,
        digest: [u8; 32],
        by: &Text,
    ) -> Result<Decision, Memory>
        requires { IsSoundOffice self.now }
        ensures { IfOk result
            (λ d. IsDecidedTo self.now
            (λ contents. step_receipt (with_contents self.now contents) day record_no digest
            by.now) d) }
    {
        if let Some(refusal) = self.dated(day, self.tree.check_receipt(record_no, digest)) {
            return Ok(Decision::Stay(Answer::Refused(refusal)));
        }
        let by = by.copy(alloc)?;
        let mut head = self.tree.record(record_no).copy(alloc)?;
        head.receipt = Some(Receipt { day, by });
        let write = RowWrite::Record {
            number: record_no,
            head,
            status: Status::Received,
        };
        self.go(alloc, Answer::Done, write, day)
    }

    /// What is decided of an event of a record that occurred on the day `occurred`.
    pub(crate) fn decide_event(
        &self,
        alloc: Global,
        day: Day,
        record_no: RecordNo,
        occurred: Day,
        by: &Text,
    ) -> Result<Decision, Memory>
        ensures { IfOk result
            (λ d. IsDecidedTo self.now
            (λ contents. step_event (with_contents self.now contents) day record_no occurred
            by.now) d) }
    {
        if let Some(refusal) = self.dated(day, self.tree.check_event(day, record_no, occurred)) {
            return Ok(Decision::Stay(Answer::Refused(refusal)));
        }
        let by = by.copy(alloc)?;
        let write = RowWrite::Event {
            number: record_no,
            event: Event { occurred, day, by },
        };
        self.go(alloc, Answer::Done, write, day)
    }
}
