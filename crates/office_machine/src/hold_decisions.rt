//! Decisions on holds: placing, lifting, and targets put on and taken off.
ghost use Rattle.std.specs.Prelude.{◌≡◌, IfOk};
ghost use Rattle.office_records.specs.Conditions.{first_of};
ghost use Rattle.office_rules.specs.Acts.{IsDecidedTo};
ghost use Rattle.office_rules.specs.Conditions.{conditions_of_target, lacks_target, target_status};
ghost use Rattle.office_rules.specs.Sound.{IsSoundOffice};
ghost use Rattle.office_rules.specs.State.{with_contents};
ghost use Rattle.office_rules.specs.Steps.{step_hold_off, step_hold_on, step_lift_hold, step_place_hold};

use crate::min_refusal::min_refusal;
use crate::parts::Parts;
use crate::{Answer, Decision, RowWrite};
use office_base::{Memory, Refusal};
use office_days::Day;
use office_records::{Code, HoldRow, Status, Target, Text};
use office_rules::copy_texts;
use office_tree::Tree;
use std::alloc::Global;

/// Whether there is no such target.
fn lacks_target(tree: &Tree, target: &Target) -> bool
    ensures { result ≡ lacks_target tree.now target.now }
{
    match target {
        Target::Class(code) => tree.class(code).is_none(),
        Target::Aggregation(number) => !tree.has_aggregation(*number),
        Target::Record(number) => !tree.has_record(*number),
    }
}

/// The status of a record that is a target and is there.
fn target_status(tree: &Tree, target: &Target) -> Option<Status>
    ensures { result ≡ target_status tree.now target.now }
{
    let Target::Record(number) = target else {
        return None;
    };
    tree.sound();
    if !tree.has_record(*number) {
        return None;
    }
    Some(tree.status(*number))
}

/// Why that is no target for a hold, by the tree alone: it is not there, or it is an ended
/// record.
fn check_target(tree: &Tree, target: &Target) -> Option<Refusal>
    ensures { result ≡ first_of (conditions_of_target tree.now target.now) }
{
    if lacks_target(tree, target) {
        return Some(Refusal::NoSuch);
    }
    match target_status(tree, target) {
        Some(Status::Ended) => Some(Refusal::Ended),
        _ => None,
    }
}

impl Parts {
    /// What is decided of a new hold.
    pub(crate) fn decide_place_hold(
        &self,
        alloc: Global,
        day: Day,
        code: &Code,
        reason: &Text,
        by: &Text,
    ) -> Result<Decision, Memory>
        requires { IsSoundOffice self.now }
        ensures { IfOk result
            (λ d. IsDecidedTo self.now
            (λ contents. step_place_hold (with_contents self.now contents) day code.now
            reason.now by.now) d) }
    {
        if let Some(refusal) = self.dated(day, self.holds.check_place(code)) {
            return Ok(Decision::Stay(Answer::Refused(refusal)));
        }
        let code = code.copy(alloc)?;
        let (reason, placed_by) = copy_texts(alloc, reason, by)?;
        let hold = HoldRow {
            reason,
            placed: day,
            placed_by,
            lifted: None,
        };
        self.go(alloc, Answer::Done, RowWrite::Hold { code, hold }, day)
    }

    /// What is decided of a target for a hold.
    pub(crate) fn decide_hold_on(
        &self,
        alloc: Global,
        day: Day,
        code: &Code,
        target: &Target,
    ) -> Result<Decision, Memory>
        requires { IsSoundOffice self.now }
        ensures { IfOk result
            (λ d. IsDecidedTo self.now
            (λ contents. step_hold_on (with_contents self.now contents) day code.now target.now)
            d) }
    {
        let by_holds = self.holds.check_cover(code, target);
        let by_tree = check_target(&self.tree, target);
        if let Some(refusal) = self.dated(day, min_refusal(by_holds, by_tree)) {
            return Ok(Decision::Stay(Answer::Refused(refusal)));
        }
        let hold = code.copy(alloc)?;
        let target = target.copy(alloc)?;
        self.go(alloc, Answer::Done, RowWrite::Target { hold, target }, day)
    }

    /// What is decided of a target that is to be taken off a hold.
    pub(crate) fn decide_hold_off(
        &self,
        alloc: Global,
        day: Day,
        code: &Code,
        target: &Target,
    ) -> Result<Decision, Memory>
        ensures { IfOk result
            (λ d. IsDecidedTo self.now
            (λ contents. step_hold_off (with_contents self.now contents) day code.now
            target.now) d) }
    {
        if let Some(refusal) = self.dated(day, self.holds.check_uncover(code, target)) {
            return Ok(Decision::Stay(Answer::Refused(refusal)));
        }
        let hold = code.copy(alloc)?;
        let target = target.copy(alloc)?;
        self.go(
            alloc,
            Answer::Done,
            RowWrite::RemoveTarget { hold, target },
            day,
        )
    }

    /// What is decided of a hold's lifting.
    pub(crate) fn decide_lift_hold(
        &self,
        alloc: Global,
        day: Day,
        code: &Code,
    ) -> Result<Decision, Memory>
        requires { IsSoundOffice self.now }
        ensures { IfOk result
            (λ d. IsDecidedTo self.now
            (λ contents. step_lift_hold (with_contents self.now contents) day code.now) d) }
    {
        if let Some(refusal) = self.dated(day, self.holds.check_lift(code)) {
            return Ok(Decision::Stay(Answer::Refused(refusal)));
        }
        let Some(before) = self.holds.hold(code) else {
            unreachable!();
        };
        let code = code.copy(alloc)?;
        let mut hold = before.row().copy(alloc)?;
        hold.lifted = Some(day);
        self.go(alloc, Answer::Done, RowWrite::Hold { code, hold }, day)
    }
}
