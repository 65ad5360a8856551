//! Numbers for the codes of schedules.
ghost use Rattle.std.specs.Prelude.{◌≡◌, [], IfOk, IfSome, IsNone, IsSome, OnOk, Some};
ghost use Rattle.std.specs.FinMap.{from_entries};
ghost use Rattle.office_records.specs.Lists.{numbered};
ghost use Rattle.office_tree.specs.ScheduleNumbers.{AreNumbered, IsAmong, StayNumbered};

use office_base::Memory;
use office_records::{Code, Schedule};
use std::alloc::Global;
use std::collections::BTreeMap;
use std::marker::Model;

/// The number of a schedule's code: 1, 2, .. in the order of addition.
pub(crate) type ScheduleNo = usize;

/// The codes of schedules by their numbers, and the numbers by the codes. Contracts see the list of
/// codes.
#[derive(Drop)]
pub(crate) struct ScheduleNumbers {
    codes: Vec<Code>,
    numbers: BTreeMap<Code, ScheduleNo>,
}

impl Model for ScheduleNumbers {
    ghost use Rattle.std.specs.Prelude.{List, ℕ};
    ghost use Rattle.std.specs.FinMap.{from_entries};
    ghost use Rattle.office_tree.specs.Indexes.{Indexes};
    ghost use Rattle.office_records.specs.Tree.{code_cmp};

    ghost Value = { List (List ℕ) };

    ghost view = { λ p. p.codes.items };

    ghost invariant = { λ p. Indexes (from_entries {R = code_cmp} p.numbers.entries)
        p.codes.items };
}

impl ScheduleNumbers {
    /// No codes.
    pub(crate) fn new(alloc: Global) -> ScheduleNumbers
        ensures { result ≡ [] }
    {
        ScheduleNumbers {
            codes: Vec::new(alloc),
            numbers: BTreeMap::new(alloc),
        }
    }

    /// The code of that number.
    pub(crate) fn code(&self, plan: ScheduleNo) -> &Code
        requires { IsSome (numbered self.now plan) }
        ensures { numbered self.now plan ≡ Some result.now }
    {
        &self.codes[plan - 1]
    }

    /// The number of the code, if it has one.
    fn find(&self, code: &Code) -> Option<ScheduleNo>
        ensures some { IfSome result (λ n. numbered self.now n ≡ Some code.now) }
        ensures none { IsNone result → IsAmong self.now code.now → ⊥ }
    {
        self.numbers.get(code).copied()
    }

    /// The number of a code that has one.
    pub(crate) fn number_of(&self, code: &Code) -> ScheduleNo
        requires { IsAmong self.now code.now }
        ensures { numbered self.now result ≡ Some code.now }
    {
        match self.find(code) {
            Some(plan) => plan,
            None => unreachable!(),
        }
    }

    /// Gives the code the next number, if it has none. A number stays its code's for good.
    pub(crate) fn add(&mut self, alloc: Global, code: &Code) -> Result<(), Memory>
        ensures among { OnOk result (IsAmong self.new code.now) }
        ensures stay { StayNumbered self.old self.new }
    {
        if self.find(code).is_some() {
            return Ok(());
        }
        self.codes.try_reserve(1)?;
        let copy = code.copy(alloc)?;
        let plan = self.codes.len() + 1;
        self.numbers.insert(code.copy(alloc)?, plan)?;
        self.codes.push(copy)?;
        Ok(())
    }
}

/// The codes of these schedules, each with its number.
pub(crate) fn schedule_numbers_of(
    alloc: Global,
    schedules: &BTreeMap<Code, Schedule>,
) -> Result<ScheduleNumbers, Memory>
    ensures { IfOk result
        (λ schedule_numbers. AreNumbered (from_entries schedules.now.entries) schedule_numbers) }
{
    let mut schedule_numbers = ScheduleNumbers::new(alloc);
    for code in schedules.keys() {
        schedule_numbers.add(alloc, code)?;
    }
    Ok(schedule_numbers)
}
