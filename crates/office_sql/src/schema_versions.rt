//! The two versions of an office's tables.
ghost use Rattle.std.specs.Prelude.{◌≡◌, pos};
ghost use Rattle.sqlite.specs.Held.{state};
ghost use Rattle.office_sql.specs.SchemaVersions.{schedules_table, version_of};
ghost use Rattle.office_sql.specs.Names.{layout_of};

use crate::tables::OfficeTable;
use sqlite::{Alter, Connection};

/// The version of an office's tables. Version 2 has `schedules2` and `events` beside the tables of
/// version 1, and no row in `schedules`.
#[derive(Clone, Copy)]
pub enum SchemaVersion {
    One,
    Two,
}

impl SchemaVersion {
    /// Its number, as `office` has it: 1 or 2.
    pub fn number(self) -> u32
        ensures { pos result ≡ version_of self }
    {
        match self {
            SchemaVersion::One => 1,
            SchemaVersion::Two => 2,
        }
    }

    /// The table that has the office's schedules.
    pub fn schedules(self) -> OfficeTable
        ensures { result ≡ schedules_table self }
    {
        match self {
            SchemaVersion::One => OfficeTable::OldSchedules,
            SchemaVersion::Two => OfficeTable::Schedules,
        }
    }
}

/// The version whose tables these are, by their names: `None` where only one of `schedules2` and
/// `events` is there. It reads nothing and changes nothing.
pub fn layout<S: Alter>(conn: &Connection<S>) -> Option<SchemaVersion>
    ensures { result ≡ layout_of (state S.Store conn.now).now.schema }
{
    let schema = conn.schema();
    let has_schedules = schema.table_named(b"schedules2").is_some();
    let has_events = schema.table_named(b"events").is_some();
    match (has_schedules, has_events) {
        (false, false) => Some(SchemaVersion::One),
        (true, true) => Some(SchemaVersion::Two),
        _ => None,
    }
}
