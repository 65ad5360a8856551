//! A new office: its tables, and the one row that says so.
ghost use Rattle.std.specs.Prelude.{◌≡◌, false};
ghost use Rattle.sqlite.specs.Held.{state};
ghost use Rattle.sqlite.specs.State.{HasCleanDisk};
ghost use Rattle.office_sql.specs.Made.{MakesInside};
ghost use Rattle.office_sql.specs.Office.{Creates, IsBare, IsNewOffice};

use crate::new_tables::create_tables;
use crate::puts::put;
use crate::tables::OfficeTable;
use sqlite::{Alter, Connection, Error, Transaction, params};

/// The first day there is, by its number.
const FIRST_DAY: i32 = -719_162;

/// Makes the office's tables and puts its row in, in one transaction: all of it or, where it fails
/// and the connection is still open, nothing. It fails where a statement or the commit does; then a
/// crash leaves what was there or the new office.
pub fn create_all<S: Alter>(conn: &mut Connection<S>) -> Result<(), Error>
    requires { conn.old.in_transaction ≡ false }
    ensures creates { Creates (state S.Store conn.old) (state S.Store conn.new) result }
    ensures clean { HasCleanDisk (state S.Store conn.new) → HasCleanDisk (state S.Store conn.old) }
    ensures shield { (state S.Store conn.old).IsShielded → (state S.Store conn.new).IsShielded }
    ensures ended { conn.new.in_transaction ≡ false }
{
    let mut tx = conn.transaction();
    begin_office(&mut tx)?;
    tx.commit()
}

/// The tables, and the row that makes them an office.
fn begin_office<S: Alter>(tx: &mut Transaction<'_, S>) -> Result<(), Error>
    ensures same_reference { tx.new.conn.ghost_name ≡ tx.old.conn.ghost_name }
    ensures begun { MakesInside IsBare IsNewOffice (state S.Store tx.old.conn.now)
        (state S.Store tx.new.conn.now) result }
{
    create_tables(tx)?;
    put(tx, OfficeTable::Office, params![1_u32, 2_u32, FIRST_DAY])
}
