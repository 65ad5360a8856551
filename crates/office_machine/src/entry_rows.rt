//! The entries of all runs, row by row.
ghost use Rattle.std.specs.Prelude.{◌≡◌, ◌∷◌, [], IfSome, IsNone, IsTrue, List};
ghost use Rattle.office_records.specs.Lists.{numbered};
ghost use Rattle.office_records.specs.Tree.{has_record};
ghost use Rattle.office_rules.specs.Readings.{all_entries_of};
ghost use Rattle.office_rules.specs.Registers.{EntryView, and_entry, entry_rows, entry_view};
ghost use Rattle.office_machine.specs.EntryPlaces.{AreOfRecords};

use crate::parts::Parts;
use office_records::RecordNo;
use office_rules::{Entry, EntryRow, RunNo};
use office_tree::Tree;
use std::collections::btree_map;
use std::marker::Model;

/// The entries of all runs, one row after another, by run, then record. Contracts see the rows that
/// are left.
#[derive(Drop)]
pub struct EntryRows<'a> {
    tree: &'a Tree,
    entries: btree_map::Values<'a, (RunNo, RecordNo), Entry>,
}

impl<'a> Model for EntryRows<'a> {
    ghost use Rattle.std.specs.Prelude.{List};
    ghost use Rattle.office_rules.specs.Registers.{EntryView, entry_rows_of};
    ghost use Rattle.office_machine.specs.EntryPlaces.{AreOfRecords};

    ghost Value = { List EntryView };

    ghost view = { λ rows. entry_rows_of rows.tree.now rows.entries };

    ghost invariant = { λ rows. AreOfRecords rows.tree.now rows.entries };
}

/// What is reported of an entry whose record is there.
fn entry_row<'a>(tree: &'a Tree, entry: &'a Entry) -> EntryRow<'a>
    requires { IsTrue (has_record tree.now entry.now.record_no) }
    ensures { (rest : List EntryView)
        → and_entry (numbered tree.now.records entry.now.record_no) entry.now rest
        ≡ entry_view result ∷ rest }
{
    let head = tree.record(entry.record_no);
    EntryRow {
        entry,
        ref_text: &head.ref_text,
        length: head.length,
        digest: &head.digest,
    }
}

impl Parts {
    /// All entries, each as it is reported.
    pub(crate) fn entry_rows(&self) -> EntryRows<'_>
        requires { AreOfRecords self.now.tree (all_entries_of self.now) }
        ensures { result ≡ entry_rows self.now }
    {
        EntryRows {
            tree: &self.tree,
            entries: self.entries.values(),
        }
    }
}

impl<'a> EntryRows<'a> {
    /// The next row, which is not reported again; none after the last.
    pub fn next_row(&mut self) -> Option<EntryRow<'a>>
        ensures some { IfSome result (λ row. self.old ≡ entry_view row ∷ self.new) }
        ensures none { IsNone result → self.old ≡ [] }
        ensures ended { IsNone result → self.new ≡ [] }
    {
        match self.entries.next() {
            Some(entry) => Some(entry_row(self.tree, entry)),
            None => None,
        }
    }
}
