//! The rows of holds, targets, runs, entries and certificates taken in.
ghost use Rattle.std.specs.Prelude.{◌≡◌, OnOk};
ghost use Rattle.office_base.specs.Rows.{OnDamaged};
ghost use Rattle.office_rules.specs.Tables.{Begins, RepresentNone, TableLists, with_row};
ghost use Rattle.office_rules.specs.declared.table_row.Row.TheVariants as of_table;

use crate::certificate::Certificate;
use crate::loader::Loader;
use office_base::{Rebuild, push_keyed, push_numbered};
use office_records::{Code, HoldRow, Target};
use office_rules::{Entry, Run, RunNo};

impl Loader {
    /// Takes a hold in.
    pub(super) fn put_hold(&mut self, code: Code, hold: HoldRow) -> Result<(), Rebuild>
        ensures ok { OnOk result (self.new ≡ with_row self.old (of_table.Hold code hold)) }
        ensures damaged { OnDamaged result
            ((t : TableLists) → Begins (with_row self.old (of_table.Hold code hold)) t
            → RepresentNone t) }
    {
        self.holds.push_row(code, hold)
    }

    /// Takes a target of a hold in.
    pub(super) fn put_target(&mut self, hold: Code, target: Target) -> Result<(), Rebuild>
        ensures ok { OnOk result (self.new ≡ with_row self.old (of_table.Target hold target)) }
        ensures damaged { OnDamaged result
            ((t : TableLists) → Begins (with_row self.old (of_table.Target hold target)) t
            → RepresentNone t) }
    {
        let targets = self.targets.and(&hold, &target);
        self.holds.push_target(&hold, target)?;
        self.targets = targets;
        Ok(())
    }

    /// Takes a run in.
    pub(super) fn put_run(&mut self, number: RunNo, run: Run) -> Result<(), Rebuild>
        ensures ok { OnOk result (self.new ≡ with_row self.old (of_table.Run number run)) }
        ensures damaged { OnDamaged result
            ((t : TableLists) → Begins (with_row self.old (of_table.Run number run)) t
            → RepresentNone t) }
    {
        push_numbered(&mut self.runs, number, run)
    }

    /// Takes an entry in.
    pub(super) fn put_entry(&mut self, entry: Entry) -> Result<(), Rebuild>
        ensures ok { OnOk result (self.new ≡ with_row self.old (of_table.Entry entry)) }
        ensures damaged { OnDamaged result
            ((t : TableLists) → Begins (with_row self.old (of_table.Entry entry)) t
            → RepresentNone t) }
    {
        push_keyed(&mut self.entries, (entry.run, entry.record_no), entry)
    }

    /// Takes a certificate in.
    pub(super) fn put_certificate(&mut self, run: RunNo, text: String) -> Result<(), Rebuild>
        ensures ok { OnOk result (self.new ≡ with_row self.old (of_table.Certificate run text)) }
        ensures damaged { OnDamaged result
            ((t : TableLists) → Begins (with_row self.old (of_table.Certificate run text)) t
            → RepresentNone t) }
    {
        push_keyed(&mut self.certificates, run, Certificate::new(text))
    }
}
