//! An office of version 1 is made one of version 2.
ghost use Rattle.std.specs.Prelude.{◌≡◌, ◌∷◌, [], ℤ, false, pos};
ghost use Rattle.std.specs.List.{AllByRecursion};
ghost use Rattle.sqlite.specs.Held.{state};
ghost use Rattle.sqlite.specs.State.{HasCleanDisk, Survives};
ghost use Rattle.office_sql.specs.Bags.{rows_of};
ghost use Rattle.office_sql.specs.SchemaVersions.{version_2};
ghost use Rattle.office_sql.specs.Migrated.{IsMigrated, IsReadyToMove, IsScheduleRow, Migrates, Moved, MovedOver, Raised};
ghost use Rattle.office_sql.specs.Made.{MakesInside};
ghost use Rattle.office_sql.specs.Office.{GoesInside, IsOfficeOf, Removed};
ghost use Rattle.office_sql.specs.declared.schema_versions.SchemaVersion.TheVariants as schema_version;
ghost use Rattle.office_sql.specs.Schema.{office, schedules, schedules2};
ghost use Rattle.office_sql.specs.Shown.{office_row};

use crate::new_tables::create_later;
use crate::statement::execute;
use sqlite::{Alter, Connection, Error, Transaction};

/// Puts the rows of `schedules` into `schedules2`, which has none.
fn move_schedules<S: Alter>(tx: &mut Transaction<'_, S>) -> Result<(), Error>
    ensures same_reference { tx.new.conn.ghost_name ≡ tx.old.conn.ghost_name }
    ensures quiet { Survives (state S.Store tx.old.conn.now) (state S.Store tx.new.conn.now)
        (λ _. ⊥) }
    ensures moved { rows_of schedules2 (state S.Store tx.old.conn.now).now.trees ≡ []
        → AllByRecursion IsScheduleRow (rows_of schedules (state S.Store tx.old.conn.now).now.trees)
        → GoesInside version_2 Moved (state S.Store tx.old.conn.now) (state S.Store tx.new.conn.now)
        result }
{
    execute(
        tx,
        "INSERT INTO schedules2 SELECT code, start_at, unit, span, roll, disposal FROM schedules",
        &[],
    )
}

/// Takes every row of `schedules` away.
fn clear_schedules<S: Alter>(tx: &mut Transaction<'_, S>) -> Result<(), Error>
    ensures same_reference { tx.new.conn.ghost_name ≡ tx.old.conn.ghost_name }
    ensures quiet { Survives (state S.Store tx.old.conn.now) (state S.Store tx.new.conn.now)
        (λ _. ⊥) }
    ensures cleared { GoesInside version_2 (Removed version_2 schedules ([] ∷ []) [])
        (state S.Store tx.old.conn.now) (state S.Store tx.new.conn.now) result }
{
    execute(tx, "DELETE FROM schedules", &[])
}

/// Reports that the office is of version 2.
fn raise_version<S: Alter>(tx: &mut Transaction<'_, S>) -> Result<(), Error>
    ensures same_reference { tx.new.conn.ghost_name ≡ tx.old.conn.ghost_name }
    ensures quiet { Survives (state S.Store tx.old.conn.now) (state S.Store tx.new.conn.now)
        (λ _. ⊥) }
    ensures raised { (day : ℤ)
        → rows_of office (state S.Store tx.old.conn.now).now.trees
        ≡ office_row (pos 1) (pos 1) day ∷ []
        → GoesInside version_2 (Raised day) (state S.Store tx.old.conn.now)
        (state S.Store tx.new.conn.now) result }
{
    execute(tx, "UPDATE office SET version = 2", &[])
}

/// Moves the schedules over, and reports the version.
fn move_over<S: Alter>(tx: &mut Transaction<'_, S>) -> Result<(), Error>
    ensures same_reference { tx.new.conn.ghost_name ≡ tx.old.conn.ghost_name }
    ensures quiet { Survives (state S.Store tx.old.conn.now) (state S.Store tx.new.conn.now)
        (λ _. ⊥) }
    ensures moved { (day : ℤ) → rows_of schedules2 (state S.Store tx.old.conn.now).now.trees ≡ []
        → IsReadyToMove day (state S.Store tx.old.conn.now).now.trees
        → GoesInside version_2 (MovedOver day) (state S.Store tx.old.conn.now)
        (state S.Store tx.new.conn.now) result }
{
    move_schedules(tx)?;
    clear_schedules(tx)?;
    raise_version(tx)
}

/// Makes the later tables, moves the schedules over, and reports the version.
fn migrate_in<S: Alter>(tx: &mut Transaction<'_, S>) -> Result<(), Error>
    ensures same_reference { tx.new.conn.ghost_name ≡ tx.old.conn.ghost_name }
    ensures quiet { Survives (state S.Store tx.old.conn.now) (state S.Store tx.new.conn.now)
        (λ _. ⊥) }
    ensures migrated { (day : ℤ) → IsReadyToMove day (state S.Store tx.old.conn.now).now.trees
        → MakesInside (IsOfficeOf schema_version.One) (IsMigrated day)
        (state S.Store tx.old.conn.now) (state S.Store tx.new.conn.now) result }
{
    create_later(tx)?;
    move_over(tx)
}

/// Makes an office of version 1 one of version 2, in one transaction: all of it or, where it fails
/// and the connection is still open, nothing. It fails where a statement or the commit does; then a
/// crash leaves the office of version 1 or that of version 2.
pub fn migrate_all<S: Alter>(conn: &mut Connection<S>) -> Result<(), Error>
    requires { conn.old.in_transaction ≡ false }
    ensures migrates { (day : ℤ)
        → Migrates day (state S.Store conn.old) (state S.Store conn.new) result }
    ensures clean { HasCleanDisk (state S.Store conn.new) → HasCleanDisk (state S.Store conn.old) }
    ensures shield { (state S.Store conn.old).IsShielded → (state S.Store conn.new).IsShielded }
    ensures ended { conn.new.in_transaction ≡ false }
{
    let mut tx = conn.transaction();
    migrate_in(&mut tx)?;
    tx.commit()
}
