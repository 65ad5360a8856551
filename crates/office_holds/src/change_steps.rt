//! Single steps of a change of holds: on the map by code, or on the counts, each alone.
ghost use Rattle.std.specs.Prelude.{◌≡◌, OnOk, OnErr, None, Some};
ghost use Rattle.std.specs.FinMap.{contains_key, from_entries, get, insert};
ghost use Rattle.office_records.specs.Lists.{amended};
ghost use Rattle.office_records.specs.Tree.{code_cmp};
ghost use Rattle.office_rules.specs.HoldEffects.{held_off, held_on, lifted_hold};
ghost use Rattle.office_holds.specs.HoldCounts.{CountsDown, binds_at};
ghost use Rattle.office_rules.specs.HoldRows.{hold_from};

use crate::Hold;
use crate::counts::HoldCounts;
use office_base::Memory;
use office_days::Day;
use office_records::{Code, HoldRow, Target};
use std::alloc::Global;
use std::collections::BTreeMap;

/// Counts each target of the hold of that code down by one, if the hold is there and in force.
pub(crate) fn count_off(holds: &BTreeMap<Code, Hold>, code: &Code, counts: &mut HoldCounts)
    ensures { CountsDown counts.old counts.new
        (binds_at (from_entries holds.now.entries) code.now) }
{
    if let Some(hold) = holds.get(code) {
        if !hold.is_lifted() {
            hold.count_off(counts);
        }
    }
}

/// Lifts the hold of that code, if it is there.
pub(crate) fn lift_in(holds: &mut BTreeMap<Code, Hold>, code: &Code, day: Day)
    ensures { from_entries {R = code_cmp} holds.new.entries
        ≡ lifted_hold (from_entries holds.old.entries) day code.now }
{
    if let Some(hold) = holds.get_mut(code) {
        hold.lift(day);
    }
}

/// Gives the hold of that code other columns, if it is there; its targets stay.
pub(crate) fn set_row_in(holds: &mut BTreeMap<Code, Hold>, code: &Code, row: HoldRow)
    ensures { from_entries {R = code_cmp} holds.new.entries
        ≡ amended (from_entries holds.old.entries) code.now (λ hold. hold_from row (Some hold)) }
{
    if let Some(hold) = holds.get_mut(code) {
        hold.set_row(row);
    }
}

/// Adds a hold without targets.
pub(crate) fn add_in(
    holds: &mut BTreeMap<Code, Hold>,
    alloc: Global,
    code: Code,
    row: HoldRow,
) -> Result<(), Memory>
    ensures ok { OnOk result
        (from_entries {R = code_cmp} holds.new.entries
        ≡ insert (from_entries holds.old.entries) code (hold_from row None)) }
    ensures err { OnErr result (holds.new.entries ≡ holds.old.entries) }
{
    let hold = Hold::new(alloc, row);
    holds.insert(code, hold)?;
    Ok(())
}

/// Puts a target on the hold of that code, if it is there.
pub(crate) fn put_target_in(
    holds: &mut BTreeMap<Code, Hold>,
    code: &Code,
    target: Target,
) -> Result<(), Memory>
    ensures ok { OnOk result
        (from_entries {R = code_cmp} holds.new.entries
        ≡ held_on (from_entries holds.old.entries) code.now target) }
    ensures err { OnErr result (holds.new.entries ≡ holds.old.entries) }
{
    match holds.get_mut(code) {
        Some(hold) => hold.put(target),
        None => Ok(()),
    }
}

/// Takes a target off the hold of that code, if it is there.
pub(crate) fn take_target_in(holds: &mut BTreeMap<Code, Hold>, code: &Code, target: &Target)
    ensures { from_entries {R = code_cmp} holds.new.entries
        ≡ held_off (from_entries holds.old.entries) code.now target.now }
{
    if let Some(hold) = holds.get_mut(code) {
        hold.take(target);
    }
}
