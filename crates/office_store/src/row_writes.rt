//! The writes of a change, done to the tables inside one transaction.
ghost use Rattle.std.specs.Prelude.{◌≡◌, ◌∷◌, [], pos};
ghost use Rattle.std.specs.Option.{option_copied, option_map};
ghost use Rattle.sqlite.specs.Held.{state};
ghost use Rattle.office_sql.specs.SchemaVersions.{version_2};
ghost use Rattle.office_sql.specs.Office.{GoesInside, PutsInto};
ghost use Rattle.office_sql.specs.Schema.{certificates, contents, targets};
ghost use Rattle.office_sql.specs.Shown.{certificate_row, content_row, target_row};
ghost use Rattle.office_records.specs.Words.{action_word};
ghost use Rattle.office_rules.specs.declared.rows.RowWrite.TheVariants as row_write;
ghost use Rattle.office_store.specs.Encoded.{target_kind};
ghost use Rattle.office_store.specs.Written.{AreWritten, IsWritten, needed_text};

use crate::encoded_write::EncodedWrite;
use crate::texts::target_kind;
use office_days::Day;
use office_records::{Aggregation, Class, Code, Event, HoldRow, Record, Schedule, Status, Target};
use office_rules::{Entry, RowWrite, Run};
use office_sql::{OfficeTable, put, remove_content, remove_target};
use sqlite::{Alter, Error, Transaction, params};

fn put_schedule<S: Alter>(
    tx: &mut Transaction<'_, S>,
    code: &Code,
    schedule: Schedule,
) -> Result<(), Error>
    ensures same_reference { tx.new.conn.ghost_name ≡ tx.old.conn.ghost_name }
    ensures written { GoesInside version_2 (IsWritten (row_write.Schedule code.now schedule))
        (state S.Store tx.old.conn.now) (state S.Store tx.new.conn.now) result }
{
    put(
        tx,
        OfficeTable::Schedules,
        params![
            code.text(),
            schedule.trigger.text(),
            schedule.period.unit().text(),
            schedule.period.count(),
            schedule.offset.text(),
            schedule.action.text()
        ],
    )
}

fn put_class<S: Alter>(tx: &mut Transaction<'_, S>, code: &Code, class: &Class) -> Result<(), Error>
    ensures same_reference { tx.new.conn.ghost_name ≡ tx.old.conn.ghost_name }
    ensures written { GoesInside version_2 (IsWritten (row_write.Class code.now class.now))
        (state S.Store tx.old.conn.now) (state S.Store tx.new.conn.now) result }
{
    put(
        tx,
        OfficeTable::Classes,
        params![code.text(), class.title.text(), class.schedule.text()],
    )
}

fn put_aggregation<S: Alter>(
    tx: &mut Transaction<'_, S>,
    number: u32,
    it: &Aggregation,
) -> Result<(), Error>
    ensures same_reference { tx.new.conn.ghost_name ≡ tx.old.conn.ghost_name }
    ensures written { GoesInside version_2 (IsWritten (row_write.Aggregation number it.now))
        (state S.Store tx.old.conn.now) (state S.Store tx.new.conn.now) result }
{
    put(
        tx,
        OfficeTable::Aggregations,
        params![
            number,
            it.ref_text.text(),
            it.title.text(),
            it.parent,
            it.class.as_ref().map(|code| code.text()),
            it.closed.map(|day| day.number())
        ],
    )
}

/// The day of a record's review, and who reviewed it.
fn review_columns(head: &Record) -> (Option<i32>, Option<&str>)
    ensures day { result.0 ≡ option_map (λ review. review.day) head.now.review }
    ensures by { option_copied result.1 ≡ option_map (λ review. review.by) head.now.review }
{
    let review = head.review.as_ref();
    (
        review.map(|it| it.day.number()),
        review.map(|it| it.by.text()),
    )
}

/// The action, the due day and the day of a record's confirmation, and who confirmed.
fn confirmation_columns(head: &Record) -> (Option<&str>, Option<i32>, Option<i32>, Option<&str>)
    ensures action { option_copied result.0
        ≡ option_map action_word
        (option_map (λ confirmation. confirmation.action) head.now.confirmation) }
    ensures due { result.1 ≡ option_map (λ confirmation. confirmation.due) head.now.confirmation }
    ensures day { result.2 ≡ option_map (λ confirmation. confirmation.day) head.now.confirmation }
    ensures by { option_copied result.3
        ≡ option_map (λ confirmation. confirmation.by) head.now.confirmation }
{
    let confirmation = head.confirmation.as_ref();
    (
        confirmation.map(|it| it.action.text()),
        confirmation.map(|it| it.due.number()),
        confirmation.map(|it| it.day.number()),
        confirmation.map(|it| it.by.text()),
    )
}

/// The day of a record's receipt, and who reported it.
fn receipt_columns(head: &Record) -> (Option<i32>, Option<&str>)
    ensures day { result.0 ≡ option_map (λ receipt. receipt.day) head.now.receipt }
    ensures by { option_copied result.1 ≡ option_map (λ receipt. receipt.by) head.now.receipt }
{
    let receipt = head.receipt.as_ref();
    (
        receipt.map(|it| it.day.number()),
        receipt.map(|it| it.by.text()),
    )
}

/// Puts a record's row in; its digest's digits are given.
fn put_record<S: Alter>(
    tx: &mut Transaction<'_, S>,
    number: u32,
    head: &Record,
    status: Status,
    digest: &str,
) -> Result<(), Error>
    requires { digest.now ≡ needed_text (row_write.Record number head.now status) }
    ensures same_reference { tx.new.conn.ghost_name ≡ tx.old.conn.ghost_name }
    ensures written { GoesInside version_2 (IsWritten (row_write.Record number head.now status))
        (state S.Store tx.old.conn.now) (state S.Store tx.new.conn.now) result }
{
    let review = review_columns(head);
    let confirmation = confirmation_columns(head);
    let receipt = receipt_columns(head);
    put(
        tx,
        OfficeTable::Records,
        params![
            number,
            head.ref_text.text(),
            head.title.text(),
            head.originated.number(),
            head.added.number(),
            head.aggregation,
            head.length,
            digest,
            status.text(),
            head.class.as_ref().map(|code| code.text()),
            head.schedule.as_ref().map(|code| code.text()),
            review.0,
            review.1,
            confirmation.0,
            confirmation.1,
            confirmation.2,
            confirmation.3,
            receipt.0,
            receipt.1
        ],
    )
}

fn put_event<S: Alter>(tx: &mut Transaction<'_, S>, number: u32, event: &Event) -> Result<(), Error>
    ensures same_reference { tx.new.conn.ghost_name ≡ tx.old.conn.ghost_name }
    ensures written { GoesInside version_2 (IsWritten (row_write.Event number event.now))
        (state S.Store tx.old.conn.now) (state S.Store tx.new.conn.now) result }
{
    put(
        tx,
        OfficeTable::Events,
        params![
            number,
            event.occurred.number(),
            event.day.number(),
            event.by.text()
        ],
    )
}

fn put_hold<S: Alter>(tx: &mut Transaction<'_, S>, code: &Code, hold: &HoldRow) -> Result<(), Error>
    ensures same_reference { tx.new.conn.ghost_name ≡ tx.old.conn.ghost_name }
    ensures written { GoesInside version_2 (IsWritten (row_write.Hold code.now hold.now))
        (state S.Store tx.old.conn.now) (state S.Store tx.new.conn.now) result }
{
    put(
        tx,
        OfficeTable::Holds,
        params![
            code.text(),
            hold.reason.text(),
            hold.placed.number(),
            hold.placed_by.text(),
            hold.lifted.map(|day| day.number())
        ],
    )
}

fn put_run<S: Alter>(tx: &mut Transaction<'_, S>, number: u32, run: &Run) -> Result<(), Error>
    ensures same_reference { tx.new.conn.ghost_name ≡ tx.old.conn.ghost_name }
    ensures written { GoesInside version_2 (IsWritten (row_write.Run number run.now))
        (state S.Store tx.old.conn.now) (state S.Store tx.new.conn.now) result }
{
    put(
        tx,
        OfficeTable::Runs,
        params![
            number,
            run.day.number(),
            run.by.text(),
            run.cursor,
            run.is_closed
        ],
    )
}

fn put_entry<S: Alter>(tx: &mut Transaction<'_, S>, entry: &Entry) -> Result<(), Error>
    ensures same_reference { tx.new.conn.ghost_name ≡ tx.old.conn.ghost_name }
    ensures written { GoesInside version_2 (IsWritten (row_write.Entry entry.now))
        (state S.Store tx.old.conn.now) (state S.Store tx.new.conn.now) result }
{
    put(
        tx,
        OfficeTable::Entries,
        params![
            entry.run,
            entry.record_no,
            entry.outcome.text(),
            entry.class.text(),
            entry.schedule.text(),
            entry.due.number(),
            entry.confirmed_by.text(),
            entry.hold.as_ref().map(|code| code.text())
        ],
    )
}

fn put_content<S: Alter>(
    tx: &mut Transaction<'_, S>,
    number: u32,
    bytes: &[u8],
) -> Result<(), Error>
    ensures same_reference { tx.new.conn.ghost_name ≡ tx.old.conn.ghost_name }
    ensures written { PutsInto contents ((0 ∷ []) ∷ []) (content_row (pos number) bytes.now)
        (state S.Store tx.old.conn.now) (state S.Store tx.new.conn.now) result }
{
    put(tx, OfficeTable::Contents, params![number, bytes])
}

/// Puts a target of a hold in; its code or number is given as text.
fn put_target<S: Alter>(
    tx: &mut Transaction<'_, S>,
    hold: &Code,
    target: &Target,
    text: &str,
) -> Result<(), Error>
    ensures same_reference { tx.new.conn.ghost_name ≡ tx.old.conn.ghost_name }
    ensures written { PutsInto targets ((0 ∷ 1 ∷ 2 ∷ []) ∷ [])
        (target_row hold.now (target_kind target.now) text.now) (state S.Store tx.old.conn.now)
        (state S.Store tx.new.conn.now) result }
{
    put(
        tx,
        OfficeTable::Targets,
        params![hold.text(), target_kind(target), text],
    )
}

fn put_certificate<S: Alter>(tx: &mut Transaction<'_, S>, run: u32, text: &str) -> Result<(), Error>
    ensures same_reference { tx.new.conn.ghost_name ≡ tx.old.conn.ghost_name }
    ensures written { PutsInto certificates ((0 ∷ []) ∷ []) (certificate_row (pos run) text.now)
        (state S.Store tx.old.conn.now) (state S.Store tx.new.conn.now) result }
{
    put(tx, OfficeTable::Certificates, params![run, text])
}

fn put_day<S: Alter>(tx: &mut Transaction<'_, S>, day: Day) -> Result<(), Error>
    ensures same_reference { tx.new.conn.ghost_name ≡ tx.old.conn.ghost_name }
    ensures written { GoesInside version_2 (IsWritten (row_write.Day day))
        (state S.Store tx.old.conn.now) (state S.Store tx.new.conn.now) result }
{
    put(tx, OfficeTable::Office, params![1_u32, 2_u32, day.number()])
}

/// Does one write.
fn write_row<S: Alter>(tx: &mut Transaction<'_, S>, it: &EncodedWrite<'_>) -> Result<(), Error>
    ensures same_reference { tx.new.conn.ghost_name ≡ tx.old.conn.ghost_name }
    ensures written { GoesInside version_2 (IsWritten it.now) (state S.Store tx.old.conn.now)
        (state S.Store tx.new.conn.now) result }
{
    let text = it.text.as_str();
    match it.write {
        RowWrite::Schedule { code, schedule } => put_schedule(tx, code, *schedule),
        RowWrite::Class { code, class } => put_class(tx, code, class),
        RowWrite::Aggregation {
            number,
            aggregation,
        } => put_aggregation(tx, *number, aggregation),
        RowWrite::Record {
            number,
            head,
            status,
        } => put_record(tx, *number, head, *status, text),
        RowWrite::Event { number, event } => put_event(tx, *number, event),
        RowWrite::Content { number, bytes } => put_content(tx, *number, bytes),
        RowWrite::DeleteContent { number } => remove_content(tx, *number),
        RowWrite::Hold { code, hold } => put_hold(tx, code, hold),
        RowWrite::Target { hold, target } => put_target(tx, hold, target, text),
        RowWrite::RemoveTarget { hold, target } => {
            remove_target(tx, hold.text(), target_kind(target), text)
        }
        RowWrite::Run { number, run } => put_run(tx, *number, run),
        RowWrite::Entry { entry } => put_entry(tx, entry),
        RowWrite::Certificate { run, text } => put_certificate(tx, *run, text.as_str()),
        RowWrite::Day { day } => put_day(tx, *day),
    }
}

/// Does the writes one after another.
pub(crate) fn write_all<S: Alter>(
    tx: &mut Transaction<'_, S>,
    writes: &[EncodedWrite<'_>],
) -> Result<(), Error>
    ensures same_reference { tx.new.conn.ghost_name ≡ tx.old.conn.ghost_name }
    ensures written { GoesInside version_2 (AreWritten writes.now) (state S.Store tx.old.conn.now)
        (state S.Store tx.new.conn.now) result }
{
    for write in writes {
        write_row(tx, write)?;
    }
    Ok(())
}
