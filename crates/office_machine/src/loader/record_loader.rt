//! The rows of records, events and contents taken in.
ghost use Rattle.std.specs.Prelude.{◌≡◌, OnOk};
ghost use Rattle.office_base.specs.Rows.{OnDamaged};
ghost use Rattle.office_rules.specs.Tables.{Begins, RepresentNone, TableLists, with_row};
ghost use Rattle.office_rules.specs.declared.table_row.Row.TheVariants as of_table;

use crate::examination::records::push_record;
use crate::loader::Loader;
use office_base::{Rebuild, push_keyed};
use office_records::{Event, RecordNo};
use office_rules::RecordRow;

impl Loader {
    /// Takes a record in.
    pub(super) fn put_record(&mut self, number: RecordNo, columns: RecordRow) -> Result<(), Rebuild>
        ensures ok { OnOk result (self.new ≡ with_row self.old (of_table.Record number columns)) }
        ensures damaged { OnDamaged result
            ((t : TableLists) → Begins (with_row self.old (of_table.Record number columns)) t
            → RepresentNone t) }
    {
        push_record(&mut self.heads, &mut self.statuses, number, columns)
    }

    /// Takes the event of a record in.
    pub(super) fn put_event(&mut self, number: RecordNo, event: Event) -> Result<(), Rebuild>
        ensures ok { OnOk result (self.new ≡ with_row self.old (of_table.Event number event)) }
        ensures damaged { OnDamaged result
            ((t : TableLists) → Begins (with_row self.old (of_table.Event number event)) t
            → RepresentNone t) }
    {
        push_keyed(&mut self.events, number, event)
    }

    /// Takes the key of a content in.
    pub(super) fn put_content(&mut self, number: RecordNo) -> Result<(), Rebuild>
        ensures ok { OnOk result (self.new ≡ with_row self.old (of_table.Content number)) }
        ensures damaged { OnDamaged result
            ((t : TableLists) → Begins (with_row self.old (of_table.Content number)) t
            → RepresentNone t) }
    {
        self.contents.push(number)
    }
}
