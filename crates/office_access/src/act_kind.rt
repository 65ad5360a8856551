//! What is read of an act alone: its kind, its day, and who it states did it.
ghost use Rattle.std.specs.Prelude.{◌≡◌};
ghost use Rattle.std.specs.Option.{option_copied};
ghost use Rattle.office_access.specs.Kinds.{day_of, is_decision, is_making, kind_of, opening_day, received_record};
ghost use Rattle.office_access.specs.Signing.{is_signed, signature_of};

use crate::Kind;
use office_days::Day;
use office_records::{RecordNo, Text};
use office_rules::Act;

/// The kind of an act.
pub(crate) fn kind_of(act: &Act) -> Kind
    ensures { result ≡ kind_of act.now }
{
    match act {
        Act::AddSchedule { .. } => Kind::AddSchedule,
        Act::AddClass { .. } => Kind::AddClass,
        Act::SetClassSchedule { .. } => Kind::SetClassSchedule,
        Act::AddAggregation { .. } => Kind::AddAggregation,
        Act::CloseAggregation { .. } => Kind::CloseAggregation,
        Act::AddRecord { .. } => Kind::AddRecord,
        Act::SetRecordSchedule { .. } => Kind::SetRecordSchedule,
        Act::Reclassify { .. } => Kind::Reclassify,
        Act::PlaceHold { .. } => Kind::PlaceHold,
        Act::HoldOn { .. } => Kind::HoldOn,
        Act::HoldOff { .. } => Kind::HoldOff,
        Act::LiftHold { .. } => Kind::LiftHold,
        Act::Confirm { .. } => Kind::Confirm,
        Act::Review { .. } => Kind::Review,
        Act::Receipt { .. } => Kind::Receipt,
        Act::Event { .. } => Kind::Event,
        Act::OpenRun { .. } => Kind::OpenRun,
        Act::RunStep => Kind::RunStep,
    }
}

/// Reports whether the act decides which records a run takes.
pub(crate) fn is_decision(act: &Act) -> bool
    ensures { result ≡ is_decision act.now }
{
    match act {
        Act::Confirm { .. }
        | Act::Review { .. }
        | Act::Event { .. }
        | Act::SetRecordSchedule { .. }
        | Act::Reclassify { .. }
        | Act::SetClassSchedule { .. }
        | Act::CloseAggregation { .. } => true,
        _ => false,
    }
}

/// Reports whether the act makes something with a schedule or a class of its own, or with a day of
/// origin before the day of the act.
pub(crate) fn is_making(act: &Act) -> bool
    ensures { result ≡ is_making act.now }
{
    match act {
        Act::AddClass { .. } => true,
        Act::AddAggregation { class, .. } => class.is_some(),
        Act::AddRecord {
            day,
            originated,
            class,
            schedule,
            ..
        } => class.is_some() || schedule.is_some() || originated.number() < day.number(),
        _ => false,
    }
}

/// The day of the run that the act opens.
pub(crate) fn opening_day(act: &Act) -> Option<Day>
    ensures { result ≡ opening_day act.now }
{
    match act {
        Act::OpenRun { day, .. } => Some(*day),
        _ => None,
    }
}

/// The record of which the act is the receipt.
pub(crate) fn received_record(act: &Act) -> Option<RecordNo>
    ensures { result ≡ received_record act.now }
{
    match act {
        Act::Receipt { record_no, .. } => Some(*record_no),
        _ => None,
    }
}

/// The day of the act; a step of a run has none.
pub(crate) fn day_of(act: &Act) -> Option<Day>
    ensures { result ≡ day_of act.now }
{
    match act {
        Act::AddSchedule { day, .. }
        | Act::AddClass { day, .. }
        | Act::SetClassSchedule { day, .. }
        | Act::AddAggregation { day, .. }
        | Act::CloseAggregation { day, .. }
        | Act::AddRecord { day, .. }
        | Act::SetRecordSchedule { day, .. }
        | Act::Reclassify { day, .. }
        | Act::PlaceHold { day, .. }
        | Act::HoldOn { day, .. }
        | Act::HoldOff { day, .. }
        | Act::LiftHold { day, .. }
        | Act::Confirm { day, .. }
        | Act::Review { day, .. }
        | Act::Receipt { day, .. }
        | Act::Event { day, .. }
        | Act::OpenRun { day, .. } => Some(*day),
        Act::RunStep => None,
    }
}

/// Finds who the act states did it; `None` if acts of its kind name nobody.
fn signature_of(act: &Act) -> Option<&Text>
    ensures { option_copied result ≡ signature_of act.now }
{
    match act {
        Act::PlaceHold { by, .. }
        | Act::Confirm { by, .. }
        | Act::Review { by, .. }
        | Act::Receipt { by, .. }
        | Act::Event { by, .. }
        | Act::OpenRun { by, .. } => Some(by),
        _ => None,
    }
}

/// Reports whether the act names nobody, or this one.
pub(crate) fn is_signed(act: &Act, signs: &Text) -> bool
    ensures { result ≡ is_signed signs.now (signature_of act.now) }
{
    match signature_of(act) {
        Some(by) => *by == *signs,
        None => true,
    }
}
