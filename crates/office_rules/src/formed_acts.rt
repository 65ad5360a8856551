//! What an act asks for is well-formed, stated as functions for proofs. A call does nothing: the
//! types see to it.
ghost use Rattle.std.specs.Prelude.{IfSome};
ghost use Rattle.office_records.specs.Forms.{IsCode};
ghost use Rattle.office_rules.specs.HoldForms.{IsWellFormedTarget};
ghost use Rattle.office_rules.specs.Acts.{IsOnAggregations, IsOnHolds, IsOnNewRecord, IsOnRecords, IsOnRuns, IsOnSchedules};
ghost use Rattle.office_rules.specs.Forms.{IsWellFormedAct};

use crate::Act;
use office_records::{Code, Target};

/// A code, if there is one, is of its form.
fn well_formed_code_or_none(code: &Option<Code>)
    ensures { IfSome code.now IsCode }
{
    if let Some(code) = code {
        let _ = code.text();
    }
}

/// A target's code is of its form.
fn well_formed_target(target: &Target)
    ensures { IsWellFormedTarget target.now }
{
    match target {
        Target::Class(code) => {
            let _ = code.text();
        }
        Target::Aggregation(_) | Target::Record(_) => {}
    }
}

impl Act {
    /// Makes known to proofs that what an act asks for is of its form: a call does nothing.
    pub fn formed(&self)
        ensures { IsWellFormedAct self.now }
    {
        match self {
            Act::AddSchedule { .. } | Act::AddClass { .. } | Act::SetClassSchedule { .. } => {
                self.well_formed_on_schedules()
            }
            Act::AddAggregation { .. } | Act::CloseAggregation { .. } | Act::Reclassify { .. } => {
                self.well_formed_on_aggregations()
            }
            Act::AddRecord { .. } => self.well_formed_on_new_record(),
            Act::SetRecordSchedule { .. }
            | Act::Confirm { .. }
            | Act::Review { .. }
            | Act::Receipt { .. }
            | Act::Event { .. } => self.well_formed_on_records(),
            Act::PlaceHold { .. }
            | Act::HoldOn { .. }
            | Act::HoldOff { .. }
            | Act::LiftHold { .. } => self.well_formed_on_holds(),
            Act::OpenRun { .. } | Act::RunStep => self.well_formed_on_runs(),
        }
    }

    /// An act on schedules and classes is of its form.
    fn well_formed_on_schedules(&self)
        requires { IsOnSchedules self.now }
        ensures { IsWellFormedAct self.now }
    {
        match self {
            Act::AddSchedule {
                day,
                code,
                period,
                ..
            } => {
                let _ = day.number();
                let _ = code.text();
                let _ = period.count();
            }
            Act::AddClass {
                day,
                code,
                title,
                schedule,
            } => {
                let _ = day.number();
                let _ = code.text();
                let _ = title.text();
                let _ = schedule.text();
            }
            Act::SetClassSchedule {
                day,
                class,
                schedule,
            } => {
                let _ = day.number();
                let _ = class.text();
                let _ = schedule.text();
            }
            _ => unreachable!(),
        }
    }

    /// An act on aggregations, or on an own class, is of its form.
    fn well_formed_on_aggregations(&self)
        requires { IsOnAggregations self.now }
        ensures { IsWellFormedAct self.now }
    {
        match self {
            Act::AddAggregation {
                day,
                ref_text,
                title,
                class,
                ..
            } => {
                let _ = day.number();
                let _ = ref_text.text();
                let _ = title.text();
                well_formed_code_or_none(class);
            }
            Act::CloseAggregation { day, .. } => {
                let _ = day.number();
            }
            Act::Reclassify { day, class, .. } => {
                let _ = day.number();
                well_formed_code_or_none(class);
            }
            _ => unreachable!(),
        }
    }

    /// An act that adds a record is of its form, and the content is not too long.
    fn well_formed_on_new_record(&self)
        requires { IsOnNewRecord self.now }
        ensures { IsWellFormedAct self.now }
    {
        match self {
            Act::AddRecord {
                day,
                ref_text,
                title,
                originated,
                class,
                schedule,
                content,
                ..
            } => {
                let _ = day.number();
                let _ = ref_text.text();
                let _ = title.text();
                let _ = originated.number();
                well_formed_code_or_none(class);
                well_formed_code_or_none(schedule);
                let _ = content.bytes();
            }
            _ => unreachable!(),
        }
    }

    /// An act on a record is of its form.
    fn well_formed_on_records(&self)
        requires { IsOnRecords self.now }
        ensures { IsWellFormedAct self.now }
    {
        match self {
            Act::SetRecordSchedule { day, schedule, .. } => {
                let _ = day.number();
                well_formed_code_or_none(schedule);
            }
            Act::Confirm { day, by, .. } | Act::Receipt { day, by, .. } => {
                let _ = day.number();
                let _ = by.text();
            }
            Act::Review {
                day,
                schedule,
                by,
                ..
            } => {
                let _ = day.number();
                well_formed_code_or_none(schedule);
                let _ = by.text();
            }
            Act::Event {
                day,
                occurred,
                by,
                ..
            } => {
                let _ = day.number();
                let _ = occurred.number();
                let _ = by.text();
            }
            _ => unreachable!(),
        }
    }

    /// An act on holds is of its form.
    fn well_formed_on_holds(&self)
        requires { IsOnHolds self.now }
        ensures { IsWellFormedAct self.now }
    {
        match self {
            Act::PlaceHold {
                day,
                code,
                reason,
                by,
            } => {
                let _ = day.number();
                let _ = code.text();
                let _ = reason.text();
                let _ = by.text();
            }
            Act::HoldOn {
                day,
                hold: code,
                target,
            }
            | Act::HoldOff {
                day,
                hold: code,
                target,
            } => {
                let _ = day.number();
                let _ = code.text();
                well_formed_target(target);
            }
            Act::LiftHold { day, hold: code } => {
                let _ = day.number();
                let _ = code.text();
            }
            _ => unreachable!(),
        }
    }

    /// An act on runs is of its form.
    fn well_formed_on_runs(&self)
        requires { IsOnRuns self.now }
        ensures { IsWellFormedAct self.now }
    {
        match self {
            Act::OpenRun { day, by } => {
                let _ = day.number();
                let _ = by.text();
            }
            Act::RunStep => {}
            _ => unreachable!(),
        }
    }
}
