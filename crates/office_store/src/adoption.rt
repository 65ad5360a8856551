//! An office that is there is taken in: its version first, whether the tables are that version's,
//! then one table after the other, row by row.
ghost use Rattle.std.specs.Prelude.{◌≡◌, ◌≢◌, ◌⊎◌, ℤ, pos, false, [], ◌∷◌, Some, IfOk, IfErr, OnOk, IsPermutation};
ghost use Rattle.sqlite.specs.Held.{state};
ghost use Rattle.sqlite.specs.State.{HasCleanDisk};
ghost use Rattle.sqlite_value.specs.declared.value.Value.TheVariants.{Int};
ghost use Rattle.sqlite_value.specs.Order.{Row};
ghost use Rattle.office_days.specs.Limits.{IsDayNumber};
ghost use Rattle.office_sql.specs.Bags.{rows_of};
ghost use Rattle.office_sql.specs.SchemaVersions.{IsTableOf, version_of};
ghost use Rattle.office_sql.specs.declared.schema_versions.SchemaVersion.{SchemaVersion as AnySchemaVersion};
ghost use Rattle.office_sql.specs.Office.{HasTables, IsAtRestOver};
ghost use Rattle.office_sql.specs.Schema.{office};
ghost use Rattle.office_sql.specs.Shown.{office_row};
ghost use Rattle.office_store.specs.Adopted.{AreNumbersAndBytes, ConfirmsSchemaVersion, FindsNone, IsNamed, IsOtherVersion, ReadsTables};
ghost use Rattle.office_store.specs.Calling.{AreOfOneVersion, ReportsMixed};
ghost use Rattle.office_store.specs.Taken.{TakesAll, TakesIn};

use crate::Fault;
use crate::columns::{day, has_columns};
use crate::table_rows::{give, take_rows};
use office_days::Day;
use office_records::{AggNo, Aggregation, Class, Code, Event, HoldRow, RecordNo, Schedule, Target};
use office_rules::{Entry, Intake, RecordRow, Row as TableRow, Run, RunNo};
use office_sql::{OfficeTable, SchemaVersion, all_rows, layout, number};
use sqlite::types::ValueRef;
use sqlite::{Alter, Connection, Row};
use std::alloc::Global;

/// An open connection's tables obey their schema: each row of `contents` is a number and bytes.
pub(crate) fn schema_holds<S: Alter>(conn: &Connection<S>)
    ensures { (e : AnySchemaVersion) → IsAtRestOver e (state S.Store conn.now)
        → AreNumbersAndBytes (state S.Store conn.now).now.trees }
{
    conn.schema();
}

/// Takes in the rows of the tables, where the version is 1 or 2 and they are that version's.
pub(crate) fn take_tables<S: Alter, I: Intake>(
    alloc: Global,
    conn: &mut Connection<S>,
    intake: &mut I,
) -> Result<(), Fault>
    ensures takes { (e : AnySchemaVersion)
        → TakesAll e (state S.Store conn.old) (state S.Store conn.new) (I.content intake.old)
        (I.content intake.new) I.examines result }
    ensures version { OnOk result (AreOfOneVersion S.Store conn.old conn.new) }
    ensures mixed { IfErr result (ReportsMixed S.Store conn.old conn.new) }
    ensures mode { conn.old.in_transaction ≡ false → conn.new.in_transaction ≡ false }
{
    let named = layout(conn);
    let (schema_version, day) = office_day(conn)?;
    check_schema_version(conn, schema_version, named)?;
    give(TableRow::Office { day }, intake)?;
    take_rest(alloc, conn, schema_version, intake)
}

// That the tables, by their names those of `named`, are those of that version, and in version 2
// `schedules` has no row.
fn check_schema_version<S: Alter>(
    conn: &mut Connection<S>,
    schema_version: SchemaVersion,
    named: Option<SchemaVersion>,
) -> Result<(), Fault>
    ensures confirms { (e : AnySchemaVersion) → named ≡ Some e
        → ConfirmsSchemaVersion e schema_version (state S.Store conn.old)
        (state S.Store conn.new) result }
    ensures names { OnOk result (named ≡ Some schema_version) }
    ensures faults { IfErr result (λ fault. (fault ≡ Fault.Damaged) ⊎ (fault ≡ Fault.Store)) }
    ensures clean { HasCleanDisk (state S.Store conn.new) → HasCleanDisk (state S.Store conn.old) }
    ensures shield { (state S.Store conn.old).IsShielded → (state S.Store conn.new).IsShielded }
    ensures mode { conn.old.in_transaction ≡ false → conn.new.in_transaction ≡ false }
{
    match (named, schema_version) {
        (Some(SchemaVersion::One), SchemaVersion::One) => Ok(()),
        (Some(SchemaVersion::Two), SchemaVersion::Two) => no_row(conn, OfficeTable::OldSchedules),
        _ => Err(Fault::Damaged),
    }
}

// That the table has no row.
fn no_row<S: Alter>(conn: &mut Connection<S>, table: OfficeTable) -> Result<(), Fault>
    ensures finds { (e : AnySchemaVersion) → IsTableOf e table
        → FindsNone e table (state S.Store conn.old) (state S.Store conn.new) result }
    ensures faults { IfErr result (λ fault. (fault ≡ Fault.Damaged) ⊎ (fault ≡ Fault.Store)) }
    ensures clean { HasCleanDisk (state S.Store conn.new) → HasCleanDisk (state S.Store conn.old) }
    ensures shield { (state S.Store conn.old).IsShielded → (state S.Store conn.new).IsShielded }
    ensures mode { conn.old.in_transaction ≡ false → conn.new.in_transaction ≡ false }
{
    let rows = all_rows(conn, table)?;
    if !rows.is_empty() {
        return Err(Fault::Damaged);
    }
    Ok(())
}

// Takes in the tables of that version beside `office`.
fn take_rest<S: Alter, I: Intake>(
    alloc: Global,
    conn: &mut Connection<S>,
    schema_version: SchemaVersion,
    intake: &mut I,
) -> Result<(), Fault>
    ensures takes { TakesIn schema_version 1 12 (state S.Store conn.old) (state S.Store conn.new)
        (I.content intake.old) (I.content intake.new) I.examines result }
    ensures mode { conn.old.in_transaction ≡ false → conn.new.in_transaction ≡ false }
{
    take_plans(alloc, conn, schema_version, intake)?;
    take_things(alloc, conn, schema_version, intake)?;
    take_holding(alloc, conn, intake)?;
    take_running(alloc, conn, intake)
}

// Takes in schedules, classes and aggregations.
fn take_plans<S: Alter, I: Intake>(
    alloc: Global,
    conn: &mut Connection<S>,
    schema_version: SchemaVersion,
    intake: &mut I,
) -> Result<(), Fault>
    ensures takes { TakesIn schema_version 1 4 (state S.Store conn.old) (state S.Store conn.new)
        (I.content intake.old) (I.content intake.new) I.examines result }
    ensures mode { conn.old.in_transaction ≡ false → conn.new.in_transaction ≡ false }
{
    take_rows::<S, (Code, Schedule), I>(alloc, conn, schema_version.schedules(), intake)?;
    take_rows::<S, (Code, Class), I>(alloc, conn, OfficeTable::Classes, intake)?;
    take_rows::<S, (AggNo, Aggregation), I>(alloc, conn, OfficeTable::Aggregations, intake)
}

// Takes in records, events, and the keys of contents.
fn take_things<S: Alter, I: Intake>(
    alloc: Global,
    conn: &mut Connection<S>,
    schema_version: SchemaVersion,
    intake: &mut I,
) -> Result<(), Fault>
    ensures takes { TakesIn schema_version 4 7 (state S.Store conn.old) (state S.Store conn.new)
        (I.content intake.old) (I.content intake.new) I.examines result }
    ensures mode { conn.old.in_transaction ≡ false → conn.new.in_transaction ≡ false }
{
    take_rows::<S, (RecordNo, RecordRow), I>(alloc, conn, OfficeTable::Records, intake)?;
    take_events(alloc, conn, schema_version, intake)?;
    take_rows::<S, RecordNo, I>(alloc, conn, OfficeTable::Contents, intake)
}

// Takes in events; version 1 has no such table, and no events.
fn take_events<S: Alter, I: Intake>(
    alloc: Global,
    conn: &mut Connection<S>,
    schema_version: SchemaVersion,
    intake: &mut I,
) -> Result<(), Fault>
    ensures takes { TakesIn schema_version 5 6 (state S.Store conn.old) (state S.Store conn.new)
        (I.content intake.old) (I.content intake.new) I.examines result }
    ensures mode { conn.old.in_transaction ≡ false → conn.new.in_transaction ≡ false }
{
    match schema_version {
        SchemaVersion::One => Ok(()),
        SchemaVersion::Two => {
            take_rows::<S, (RecordNo, Event), I>(alloc, conn, OfficeTable::Events, intake)
        }
    }
}

// Takes in holds and their targets.
fn take_holding<S: Alter, I: Intake>(
    alloc: Global,
    conn: &mut Connection<S>,
    intake: &mut I,
) -> Result<(), Fault>
    ensures takes { (e : AnySchemaVersion)
        → TakesIn e 7 9 (state S.Store conn.old) (state S.Store conn.new) (I.content intake.old)
        (I.content intake.new) I.examines result }
    ensures mode { conn.old.in_transaction ≡ false → conn.new.in_transaction ≡ false }
{
    take_rows::<S, (Code, HoldRow), I>(alloc, conn, OfficeTable::Holds, intake)?;
    take_rows::<S, (Code, Target), I>(alloc, conn, OfficeTable::Targets, intake)
}

// Takes in runs, entries and certificates.
fn take_running<S: Alter, I: Intake>(
    alloc: Global,
    conn: &mut Connection<S>,
    intake: &mut I,
) -> Result<(), Fault>
    ensures takes { (e : AnySchemaVersion)
        → TakesIn e 9 12 (state S.Store conn.old) (state S.Store conn.new) (I.content intake.old)
        (I.content intake.new) I.examines result }
    ensures mode { conn.old.in_transaction ≡ false → conn.new.in_transaction ≡ false }
{
    take_rows::<S, (RunNo, Run), I>(alloc, conn, OfficeTable::Runs, intake)?;
    take_rows::<S, Entry, I>(alloc, conn, OfficeTable::Entries, intake)?;
    take_rows::<S, (RunNo, String), I>(alloc, conn, OfficeTable::Certificates, intake)
}

// The version and the office's day, where there is one row, of version 1 or 2.
fn office_day<S: Alter>(conn: &mut Connection<S>) -> Result<(SchemaVersion, Day), Fault>
    ensures reads { (e : AnySchemaVersion)
        → ReadsTables
        (λ p db. IsPermutation (office_row (pos 1) (version_of p.0) p.1 ∷ [])
        (rows_of office db)) e (state S.Store conn.old) (state S.Store conn.new) result }
    ensures formed { IfOk result (λ p. IsDayNumber p.1) }
    ensures named { HasCleanDisk (state S.Store conn.new)
        → HasTables (office ∷ []) (state S.Store conn.old).now
        → IfOk result (λ p. IsNamed p.0 (state S.Store conn.old).now.trees) }
    ensures other { HasCleanDisk (state S.Store conn.new)
        → HasTables (office ∷ []) (state S.Store conn.old).now
        → IfErr result
        (λ fault. (e : AnySchemaVersion) → IsNamed e (state S.Store conn.old).now.trees
        → (fault ≡ Fault.Damaged) ⊎ (fault ≡ Fault.Store)) }
    ensures this_version { (e : AnySchemaVersion) → HasCleanDisk (state S.Store conn.new)
        → IsAtRestOver e (state S.Store conn.old)
        → IfErr result
        (λ fault. fault ≡ Fault.Damaged → IsOtherVersion (state S.Store conn.old).now.trees
        → ⊥) }
    ensures mode { conn.old.in_transaction ≡ false → conn.new.in_transaction ≡ false }
{
    let rows = all_rows(conn, OfficeTable::Office)?;
    day_of(&rows)
}

// The version and the day in the one row of `office`.
fn day_of(rows: &[Row]) -> Result<(SchemaVersion, Day), Fault>
    ensures ok { IfOk result (λ p. rows.now ≡ office_row (pos 1) (version_of p.0) p.1 ∷ []) }
    ensures formed { IfOk result (λ p. IsDayNumber p.1) }
    ensures damaged { IfErr result
        (λ fault. fault ≡ Fault.Damaged → (e : AnySchemaVersion) (day : ℤ) → IsDayNumber day
        → rows.now ≢ office_row (pos 1) (version_of e) day ∷ []) }
    ensures this_version { IfErr result
        (λ fault. fault ≡ Fault.Damaged → (one version : ℤ) (rest : Row) → version ≢ pos 1
        → version ≢ pos 2 → rows.now ≢ (Int one ∷ Int version ∷ rest) ∷ []) }
    ensures version { IfErr result
        (λ fault. fault ≡ Fault.Version
        → (one : ℤ) × (version : ℤ) × (rest : Row)
        × (rows.now ≡ (Int one ∷ Int version ∷ rest) ∷ []) × (version ≢ pos 1)
        × (version ≢ pos 2)) }
    ensures faults { IfErr result (λ fault. (fault ≡ Fault.Damaged) ⊎ (fault ≡ Fault.Version)) }
{
    let [row] = rows else {
        return Err(Fault::Damaged);
    };
    let schema_version = schema_version_in(row)?;
    has_columns(row, 3)?;
    if number(row, 0) != Ok(1) {
        return Err(Fault::Damaged);
    }
    Ok((schema_version, day(row, 2)?))
}

// The version in a row of `office`; one of another version than 1 and 2 is refused.
fn schema_version_in(row: &Row) -> Result<SchemaVersion, Fault>
    ensures ok { IfOk result
        (λ schema_version. (one : ℤ) × (rest : Row)
        × (row.now ≡ Int one ∷ Int (version_of schema_version) ∷ rest)) }
    ensures version { IfErr result
        (λ fault. fault ≡ Fault.Version
        → (one : ℤ) × (version : ℤ) × (rest : Row) × (row.now ≡ Int one ∷ Int version ∷ rest)
        × (version ≢ pos 1) × (version ≢ pos 2)) }
    ensures damaged { IfErr result
        (λ fault. fault ≡ Fault.Damaged → (one version : ℤ) (rest : Row)
        → row.now ≢ Int one ∷ Int version ∷ rest) }
    ensures faults { IfErr result (λ fault. (fault ≡ Fault.Damaged) ⊎ (fault ≡ Fault.Version)) }
{
    match (row.get_ref(0), row.get_ref(1)) {
        (Ok(ValueRef::Int(_)), Ok(ValueRef::Int(1))) => Ok(SchemaVersion::One),
        (Ok(ValueRef::Int(_)), Ok(ValueRef::Int(2))) => Ok(SchemaVersion::Two),
        (Ok(ValueRef::Int(_)), Ok(ValueRef::Int(_))) => Err(Fault::Version),
        _ => Err(Fault::Damaged),
    }
}
