//! One hold: its columns, the sets of its targets, and whether it covers a record.
ghost use Rattle.std.specs.Prelude.{◌≡◌, ◌↔◌, ◌≤ℤ◌, IfSome, IsTrue, nat_le, length, Some, None, OnOk, OnErr};
ghost use Rattle.std.specs.Option.{is_some};
ghost use Rattle.office_days.specs.Limits.{IsDayNumber};
ghost use Rattle.office_rules.specs.HoldConditions.{target_count};
ghost use Rattle.office_rules.specs.HoldEffects.{with_target, without_target};
ghost use Rattle.office_rules.specs.HoldForms.{IsWellFormedHold};
ghost use Rattle.office_holds.specs.HoldCounts.{CountsDown};
ghost use Rattle.office_rules.specs.Holds.{has_target, hold_covers};
ghost use Rattle.office_rules.specs.HoldRows.{hold_from, hold_row};
ghost use Rattle.office_rules.specs.SoundHolds.{TargetsAreThere};

use crate::counts::HoldCounts;
use crate::numbers::count_each_down;
use crate::sets::{
    are_aggregations, are_classes, are_records, count_codes, count_numbers, has_any, has_code,
    has_number, put_code, put_number, take_code, take_number, well_formed_codes,
};
use office_base::Memory;
use office_days::Day;
use office_records::{AggNo, Code, HoldRow, RecordNo, Target};
use office_tree::Tree;
use std::alloc::Global;
use std::collections::BTreeSet;
use std::marker::Model;

/// A hold: its columns, and its targets of each kind. Contracts see a `HoldState`.
#[derive(Drop)]
pub struct Hold {
    row: HoldRow,
    classes: BTreeSet<Code>,
    aggregations: BTreeSet<AggNo>,
    records: BTreeSet<RecordNo>,
}

impl Model for Hold {
    ghost use Rattle.std.specs.Coded.{codes};
    ghost use Rattle.std.specs.FinMap as map;
    ghost use Rattle.std.specs.FinSet.{from_list};
    ghost use Rattle.office_rules.specs.Holds.{HoldState};

    ghost Value = { HoldState };

    ghost coded = { Prim.hlevel (codes, map.code) };

    ghost view = { λ h. record {
      reason = h.row.reason;
      placed = h.row.placed;
      by = h.row.placed_by;
      lifted = h.row.lifted;
      classes = from_list h.classes.keys;
      aggregations = from_list h.aggregations.keys;
      records = from_list h.records.keys;
    } };
}

/// Makes known to proofs that a day, where there is one, may be handed in: a call changes nothing.
fn well_formed_day_or_none(day: Option<Day>)
    ensures { IfSome day IsDayNumber }
{
    if let Some(day) = day {
        let _ = day.number();
    }
}

impl Hold {
    /// A hold of these columns, without targets.
    pub(crate) fn new(alloc: Global, row: HoldRow) -> Hold
        ensures { result ≡ hold_from row None }
    {
        Hold {
            row,
            classes: BTreeSet::new(alloc),
            aggregations: BTreeSet::new(alloc),
            records: BTreeSet::new(alloc),
        }
    }

    /// Its columns.
    pub fn row(&self) -> &HoldRow
        ensures { result.now ≡ hold_row self.now }
    {
        &self.row
    }

    /// Gives it other columns; its targets stay.
    pub(crate) fn set_row(&mut self, row: HoldRow)
        ensures { self.new ≡ hold_from row (Some self.old) }
    {
        self.row = row;
    }

    /// Lifts it on that day; its targets stay.
    pub(crate) fn lift(&mut self, day: Day)
        ensures { self.new ≡ record (self.old) { lifted = Some day } }
    {
        self.row.lifted = Some(day);
    }

    /// Whether it is lifted.
    pub(crate) fn is_lifted(&self) -> bool
        ensures { result ≡ is_some self.now.lifted }
    {
        self.row.lifted.is_some()
    }

    /// Whether it has that target.
    pub fn has(&self, target: &Target) -> bool
        ensures { result ≡ has_target self.now target.now }
    {
        match target {
            Target::Class(code) => has_code(&self.classes, code),
            Target::Aggregation(number) => has_number(&self.aggregations, *number),
            Target::Record(number) => has_number(&self.records, *number),
        }
    }

    /// Whether it has as many targets as a hold may have.
    pub(crate) fn is_full(&self) -> bool
        ensures { result ≡ nat_le 1_000 (target_count self.now) }
    {
        let room = 1_000_usize
            .saturating_sub(count_codes(&self.classes))
            .saturating_sub(count_numbers(&self.aggregations));
        count_numbers(&self.records) >= room
    }

    /// Puts a target in. Where an allocation is refused, the hold is as it was.
    pub(crate) fn put(&mut self, target: Target) -> Result<(), Memory>
        ensures ok { OnOk result (self.new ≡ with_target target self.old) }
        ensures err { OnErr result (self.new ≡ self.old) }
    {
        match target {
            Target::Class(code) => put_code(&mut self.classes, code),
            Target::Aggregation(number) => put_number(&mut self.aggregations, number),
            Target::Record(number) => put_number(&mut self.records, number),
        }
    }

    /// Takes a target out.
    pub(crate) fn take(&mut self, target: &Target)
        ensures { self.new ≡ without_target target.now self.old }
    {
        match target {
            Target::Class(code) => take_code(&mut self.classes, code),
            Target::Aggregation(number) => take_number(&mut self.aggregations, *number),
            Target::Record(number) => take_number(&mut self.records, *number),
        }
    }

    /// Counts each of its targets down by one.
    pub(crate) fn count_off(&self, counts: &mut HoldCounts)
        ensures { CountsDown counts.old counts.new (has_target self.now) }
    {
        count_each_down(&mut counts.classes, &self.classes);
        count_each_down(&mut counts.aggregations, &self.aggregations);
        count_each_down(&mut counts.records, &self.records);
    }

    /// Whether it covers a record that these aggregations contain and that has this class.
    pub(crate) fn covers(&self, record_no: RecordNo, above: &[AggNo], class: &Code) -> bool
        ensures { result ≡ hold_covers self.now record_no above.now (Some class.now) }
    {
        if self.is_lifted() {
            return false;
        }
        if has_number(&self.records, record_no) {
            return true;
        }
        if has_any(&self.aggregations, above) {
            return true;
        }
        has_code(&self.classes, class)
    }

    /// Whether every target is in the tree.
    pub(crate) fn do_targets_exist(&self, tree: &Tree) -> bool
        ensures { IsTrue result
            ↔ TargetsAreThere tree.now.classes (length tree.now.aggregations)
            (length tree.now.records) self.now }
    {
        if !are_classes(&self.classes, tree) {
            return false;
        }
        if !are_aggregations(&self.aggregations, tree) {
            return false;
        }
        are_records(&self.records, tree)
    }

    /// Whether it was neither placed nor lifted after that day.
    pub(crate) fn is_by(&self, last: Day) -> bool
        ensures { IsTrue result
            ↔ (self.now.placed ≤ℤ last) × IfSome self.now.lifted (λ lifted. lifted ≤ℤ last) }
    {
        self.row.placed <= last && self.row.lifted.is_none_or(|lifted| lifted <= last)
    }

    /// Makes known to proofs that its texts and days and the codes of its classes are of their
    /// forms: a call changes nothing.
    pub(crate) fn formed(&self)
        ensures { IsWellFormedHold self.now }
    {
        let _ = self.row.reason.text();
        let _ = self.row.placed.number();
        let _ = self.row.placed_by.text();
        well_formed_day_or_none(self.row.lifted);
        well_formed_codes(&self.classes);
    }
}
