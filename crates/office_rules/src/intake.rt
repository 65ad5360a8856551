//! What takes the rows of an office's tables in, one after another.
ghost use Rattle.std.specs.Prelude.{◌≡◌, OnOk};
ghost use Rattle.office_base.specs.Rows.{OnDamaged};
ghost use Rattle.office_rules.specs.Tables.{Begins, RepresentNone, TableLists, with_row};

use crate::Row;
use office_base::Rebuild;

/// What takes the rows of tables in, one after another. Contracts see the rows that have come.
pub trait Intake {
    /// The rows that have come.
    ghost content: { Self → TableLists };

    /// Whether it ever answers Damaged. One that only collects the rows never does.
    ghost examines: { Type 0 };

    /// Takes one more row. The tables come in the order office, schedules, classes, aggregations,
    /// records, events, contents, holds, targets, runs, entries, certificates, the rows of each by
    /// their keys. Damaged only where no tables that begin with the rows that have come and this
    /// one represent a state; Memory where there is none for the row. After an error nothing is
    /// said of what it holds.
    fn row(&mut self, row: Row) -> Result<(), Rebuild>
        ensures ok { OnOk result (content self.new ≡ with_row (content self.old) row) }
        ensures damaged { OnDamaged result
            ((t : TableLists) → Begins (with_row (content self.old) row) t → RepresentNone t) }
        ensures examined { OnDamaged result examines };
}
