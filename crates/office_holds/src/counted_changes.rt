//! Changes of the holds, each with the counts that are derived from them.
ghost use Rattle.std.specs.Prelude.{◌≡◌, IsTrue, OnErr, OnOk, None, Some};
ghost use Rattle.std.specs.FinMap.{contains_key, get};
ghost use Rattle.std.specs.Option.{is_none};
ghost use Rattle.office_records.specs.Lists.{amended};
ghost use Rattle.office_rules.specs.HoldEffects.{held_off, held_on, lifted_hold};
ghost use Rattle.office_rules.specs.HoldForms.{FitsHoldLimits};
ghost use Rattle.office_holds.specs.HoldCounts.{binds_at, may_gain};
ghost use Rattle.office_rules.specs.Holds.{HoldState};
ghost use Rattle.office_rules.specs.HoldRows.{StaysLifted, hold_from, put_hold};

use crate::Holds;
use crate::change_steps::{add_in, count_off, lift_in, put_target_in, set_row_in, take_target_in};
use crate::sets::{put_code, take_code};
use office_base::Memory;
use office_days::Day;
use office_records::{Code, HoldRow, Target};

impl Holds {
    /// Lifts the hold of that code, if it is there; from then on it counts for no target.
    pub(crate) fn set_lifted(&mut self, code: &Code, day: Day)
        ensures { self.new ≡ lifted_hold self.old day code.now }
    {
        count_off(&self.by_code, code, &mut self.counts);
        take_code(&mut self.in_force, code);
        lift_in(&mut self.by_code, code, day);
    }

    /// Gives the hold of that code, if it is there, columns by which it is lifted exactly where it
    /// was.
    fn set_row(&mut self, code: &Code, row: HoldRow)
        requires { (hold : HoldState) → get self.old code.now ≡ Some hold
            → is_none hold.lifted ≡ is_none row.lifted }
        ensures { self.new ≡ amended self.old code.now (λ hold. hold_from row (Some hold)) }
    {
        set_row_in(&mut self.by_code, code, row);
    }

    /// Puts other columns in for a hold that is there.
    pub(crate) fn replace(&mut self, code: &Code, row: HoldRow)
        requires there { IsTrue (contains_key self.old code.now) }
        requires stays_lifted { StaysLifted self.old code.now row }
        ensures { self.new ≡ put_hold self.old code.now row }
    {
        if let Some(day) = row.lifted {
            self.set_lifted(code, day);
            self.set_row(code, row);
            return;
        }
        self.set_row(code, row);
    }

    /// Adds a hold of a new code, without targets. Its code goes to those of the holds in force
    /// first, where it does no harm if there is no memory for the hold.
    pub(crate) fn add(&mut self, code: Code, row: HoldRow) -> Result<(), Memory>
        requires fits { FitsHoldLimits (put_hold self.old code row) }
        requires new { get self.old code ≡ None }
        ensures ok { OnOk result (self.new ≡ put_hold self.old code row) }
        ensures err { OnErr result (self.new ≡ self.old) }
    {
        put_code(&mut self.in_force, code.copy(self.alloc)?)?;
        add_in(&mut self.by_code, self.alloc, code, row)
    }

    /// Whether the hold of that code is there and in force, and has not the target yet.
    pub(crate) fn may_gain(&self, code: &Code, target: &Target) -> bool
        ensures { result ≡ may_gain self.now code.now target.now }
    {
        match self.hold(code) {
            Some(hold) => !hold.is_lifted() && !hold.has(target),
            None => false,
        }
    }

    /// Whether the hold of that code is there and in force, and has the target.
    pub(crate) fn binds(&self, code: &Code, target: &Target) -> bool
        ensures { result ≡ binds_at self.now code.now target.now }
    {
        match self.hold(code) {
            Some(hold) => !hold.is_lifted() && hold.has(target),
            None => false,
        }
    }

    /// Puts a new target on a hold in force, and counts it.
    pub(crate) fn put_counted(&mut self, code: &Code, target: Target) -> Result<(), Memory>
        requires fits { FitsHoldLimits (held_on self.old code.now target) }
        requires gains { IsTrue (may_gain self.old code.now target) }
        ensures ok { OnOk result (self.new ≡ held_on self.old code.now target) }
        ensures err { OnErr result (self.new ≡ self.old) }
    {
        let copy = target.copy(self.alloc)?;
        self.counts.make_room(self.alloc, &target)?;
        put_target_in(&mut self.by_code, code, copy)?;
        self.counts.count_up(&target);
        Ok(())
    }

    /// Takes a target off a hold in force that has it, and counts it off.
    pub(crate) fn take_counted(&mut self, code: &Code, target: &Target)
        requires { IsTrue (binds_at self.old code.now target.now) }
        ensures { self.new ≡ held_off self.old code.now target.now }
    {
        self.counts.count_down(target);
        take_target_in(&mut self.by_code, code, target);
    }
}
