//! A row is put into a table.
ghost use Rattle.std.specs.Prelude.{◌≡◌};
ghost use Rattle.sqlite.specs.Held.{state};
ghost use Rattle.sqlite.specs.Values.{bound};
ghost use Rattle.office_sql.specs.Office.{PutsInto};
ghost use Rattle.office_sql.specs.Suited.{IsRowFor};
ghost use Rattle.office_sql.specs.Tables.{keys_of, table_of};

use crate::statement::execute;
use crate::tables::OfficeTable;
use sqlite::types::ValueRef;
use sqlite::{Alter, Error, Transaction};

/// Puts a row in, in place of those that share one of the table's keys with it. Its values are
/// those of the columns, in their order and each of its column's kind. Where the statement fails,
/// what was committed last is kept.
pub fn put<S: Alter>(
    tx: &mut Transaction<'_, S>,
    table: OfficeTable,
    row: &[ValueRef<'_>],
) -> Result<(), Error>
    ensures same_reference { tx.new.conn.ghost_name ≡ tx.old.conn.ghost_name }
    ensures put { IsRowFor (table_of table) (bound row.now)
        → PutsInto (table_of table) (keys_of table) (bound row.now) (state S.Store tx.old.conn.now)
        (state S.Store tx.new.conn.now) result }
{
    execute(tx, table.insert(), row)
}
