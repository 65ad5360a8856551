//! Acts on holds, and stored rows put in: placing, lifting, and targets put on and taken off.
ghost use Rattle.std.specs.Prelude.{◌≡◌, OnOk, OnErr, IsOk, IsTrue, None};
ghost use Rattle.std.specs.FinMap.{contains_key};
ghost use Rattle.office_records.specs.Conditions.{first_of};
ghost use Rattle.office_rules.specs.HoldConditions.{conditions_of_hold_off, conditions_of_hold_on, conditions_of_lift_hold, conditions_of_place_hold};
ghost use Rattle.office_rules.specs.HoldEffects.{held_off, held_on, lifted_hold, placed_hold};
ghost use Rattle.office_rules.specs.HoldForms.{FitsHoldLimits};
ghost use Rattle.office_rules.specs.HoldRows.{StaysLifted, put_hold};

use crate::Holds;
use crate::change_steps::{put_target_in, take_target_in};
use office_base::Memory;
use office_days::Day;
use office_records::{Code, HoldRow, Target, Text};

impl Holds {
    /// Places a hold of a new code on that day, without targets. At `Memory` the holds are as they
    /// were.
    pub fn place(&mut self, code: Code, day: Day, reason: Text, by: Text) -> Result<(), Memory>
        requires { first_of (conditions_of_place_hold self.old code) ≡ None }
        ensures ok { OnOk result (self.new ≡ placed_hold self.old day code reason by) }
        ensures err { OnErr result (self.new ≡ self.old) }
    {
        self.sound();
        let row = HoldRow {
            reason,
            placed: day,
            placed_by: by,
            lifted: None,
        };
        self.put(code, row)
    }

    /// Puts a target on a hold. At `Memory` the holds are as they were.
    pub fn cover(&mut self, code: &Code, target: Target) -> Result<(), Memory>
        requires { first_of (conditions_of_hold_on self.old code.now target) ≡ None }
        ensures ok { OnOk result (self.new ≡ held_on self.old code.now target) }
        ensures err { OnErr result (self.new ≡ self.old) }
    {
        self.sound();
        self.put_target(code, target)
    }

    /// Takes a target off a hold. It takes no memory.
    pub fn uncover(&mut self, code: &Code, target: &Target)
        requires { first_of (conditions_of_hold_off self.old code.now target.now) ≡ None }
        ensures { self.new ≡ held_off self.old code.now target.now }
    {
        self.take_target(code, target)
    }

    /// Lifts a hold on that day; its targets stay on record. It takes no memory.
    pub fn lift(&mut self, code: &Code, day: Day)
        requires { first_of (conditions_of_lift_hold self.old code.now) ≡ None }
        ensures { self.new ≡ lifted_hold self.old day code.now }
    {
        self.set_lifted(code, day);
    }

    /// Puts the columns of a hold in under its code, in place of what was there or as a new hold;
    /// the targets of a hold that is there stay, and then it takes no memory. There must be no more
    /// than 1,000 holds with it, and over a lifted hold its columns must be those of a lifted one.
    /// At `Memory` the holds are as they were.
    pub fn put(&mut self, code: Code, row: HoldRow) -> Result<(), Memory>
        requires fits { FitsHoldLimits (put_hold self.old code row) }
        requires stays_lifted { StaysLifted self.old code row }
        ensures ok { OnOk result (self.new ≡ put_hold self.old code row) }
        ensures err { OnErr result (self.new ≡ self.old) }
        ensures in_place { IsTrue (contains_key self.old code) → IsOk result }
    {
        if self.hold(&code).is_some() {
            self.replace(&code, row);
            return Ok(());
        }
        self.add(code, row)
    }

    /// Puts a target on the hold of that code, if it is there. The hold must have no more than
    /// 1,000 targets with it. At `Memory` the holds are as they were.
    pub fn put_target(&mut self, code: &Code, target: Target) -> Result<(), Memory>
        requires { FitsHoldLimits (held_on self.old code.now target) }
        ensures ok { OnOk result (self.new ≡ held_on self.old code.now target) }
        ensures err { OnErr result (self.new ≡ self.old) }
    {
        if self.may_gain(code, &target) {
            return self.put_counted(code, target);
        }
        put_target_in(&mut self.by_code, code, target)
    }

    /// Takes a target off the hold of that code, if it is there. It takes no memory.
    pub fn take_target(&mut self, code: &Code, target: &Target)
        ensures { self.new ≡ held_off self.old code.now target.now }
    {
        if self.binds(code, target) {
            self.take_counted(code, target);
            return;
        }
        take_target_in(&mut self.by_code, code, target);
    }
}
