//! The rows of events.
ghost use Rattle.office_store.specs.Stored.{IsEventPair, IsRowOf, event_pair, event_table_row};

use crate::columns::{day, entity_number, has_columns, words};
use crate::stored::Stored;
use office_records::{Event, RecordNo};
use office_rules::Row as TableRow;
use office_sql::BadValue;
use sqlite::Row;
use std::alloc::Global;

impl Stored for (RecordNo, Event) {
    ghost encoded = { event_pair };

    ghost IsRow = { IsRowOf event_pair IsEventPair };

    ghost table_row = { event_table_row };

    fn read(alloc: Global, row: &Row) -> Result<(RecordNo, Event), BadValue> {
        has_columns(row, 4)?;
        let numbered = entity_number(row, 0)?;
        let event = Event {
            occurred: day(row, 1)?,
            day: day(row, 2)?,
            by: words(alloc, row, 3)?,
        };
        Ok((numbered, event))
    }

    fn into_row(self) -> TableRow {
        let (number, event) = self;
        TableRow::Event { number, event }
    }
}
