//! The thirteen tables, made one after another.
ghost use Rattle.std.specs.Prelude.{◌≡◌, suc};
ghost use Rattle.sqlite.specs.Held.{state};
ghost use Rattle.sqlite.specs.State.{Survives};
ghost use Rattle.office_sql.specs.Made.{GrowsTo, IsMadeUpTo, MakesInside};
ghost use Rattle.office_sql.specs.Tables.{made_before};

use crate::statement::execute;
use crate::tables::OfficeTable;
use sqlite::{Alter, Error, Transaction};

/// Makes a table, where those before it are made.
fn create<S: Alter>(tx: &mut Transaction<'_, S>, table: OfficeTable) -> Result<(), Error>
    ensures same_reference { tx.new.conn.ghost_name ≡ tx.old.conn.ghost_name }
    ensures made { MakesInside (IsMadeUpTo (made_before table))
        (GrowsTo (made_before table) (suc (made_before table))) (state S.Store tx.old.conn.now)
        (state S.Store tx.new.conn.now) result }
{
    execute(tx, table.create(), &[])
}

/// The tables of what an office disposes by.
fn create_plans<S: Alter>(tx: &mut Transaction<'_, S>) -> Result<(), Error>
    ensures same_reference { tx.new.conn.ghost_name ≡ tx.old.conn.ghost_name }
    ensures made { MakesInside (IsMadeUpTo 0) (GrowsTo 0 3) (state S.Store tx.old.conn.now)
        (state S.Store tx.new.conn.now) result }
{
    create(tx, OfficeTable::Office)?;
    create(tx, OfficeTable::OldSchedules)?;
    create(tx, OfficeTable::Classes)
}

/// The tables of what it keeps.
fn create_holdings<S: Alter>(tx: &mut Transaction<'_, S>) -> Result<(), Error>
    ensures same_reference { tx.new.conn.ghost_name ≡ tx.old.conn.ghost_name }
    ensures made { MakesInside (IsMadeUpTo 3) (GrowsTo 3 6) (state S.Store tx.old.conn.now)
        (state S.Store tx.new.conn.now) result }
{
    create(tx, OfficeTable::Aggregations)?;
    create(tx, OfficeTable::Records)?;
    create(tx, OfficeTable::Contents)
}

/// The tables of what stays disposal.
fn create_stays<S: Alter>(tx: &mut Transaction<'_, S>) -> Result<(), Error>
    ensures same_reference { tx.new.conn.ghost_name ≡ tx.old.conn.ghost_name }
    ensures made { MakesInside (IsMadeUpTo 6) (GrowsTo 6 8) (state S.Store tx.old.conn.now)
        (state S.Store tx.new.conn.now) result }
{
    create(tx, OfficeTable::Holds)?;
    create(tx, OfficeTable::Targets)
}

/// The tables of what was disposed of.
fn create_disposals<S: Alter>(tx: &mut Transaction<'_, S>) -> Result<(), Error>
    ensures same_reference { tx.new.conn.ghost_name ≡ tx.old.conn.ghost_name }
    ensures made { MakesInside (IsMadeUpTo 8) (GrowsTo 8 11) (state S.Store tx.old.conn.now)
        (state S.Store tx.new.conn.now) result }
{
    create(tx, OfficeTable::Runs)?;
    create(tx, OfficeTable::Entries)?;
    create(tx, OfficeTable::Certificates)
}

/// The tables that version 1 has not.
pub(crate) fn create_later<S: Alter>(tx: &mut Transaction<'_, S>) -> Result<(), Error>
    ensures same_reference { tx.new.conn.ghost_name ≡ tx.old.conn.ghost_name }
    ensures made { MakesInside (IsMadeUpTo 11) (GrowsTo 11 13) (state S.Store tx.old.conn.now)
        (state S.Store tx.new.conn.now) result }
    ensures quiet { Survives (state S.Store tx.old.conn.now) (state S.Store tx.new.conn.now)
        (λ _. ⊥) }
{
    create(tx, OfficeTable::Schedules)?;
    create(tx, OfficeTable::Events)
}

/// Makes the tables of what was disposed of, and those that version 1 has not.
fn create_last<S: Alter>(tx: &mut Transaction<'_, S>) -> Result<(), Error>
    ensures same_reference { tx.new.conn.ghost_name ≡ tx.old.conn.ghost_name }
    ensures made { MakesInside (IsMadeUpTo 8) (GrowsTo 8 13) (state S.Store tx.old.conn.now)
        (state S.Store tx.new.conn.now) result }
{
    create_disposals(tx)?;
    create_later(tx)
}

/// Makes the thirteen tables, with no row in any.
pub(crate) fn create_tables<S: Alter>(tx: &mut Transaction<'_, S>) -> Result<(), Error>
    ensures same_reference { tx.new.conn.ghost_name ≡ tx.old.conn.ghost_name }
    ensures made { MakesInside (IsMadeUpTo 0) (GrowsTo 0 13) (state S.Store tx.old.conn.now)
        (state S.Store tx.new.conn.now) result }
{
    create_plans(tx)?;
    create_holdings(tx)?;
    create_stays(tx)?;
    create_last(tx)
}
