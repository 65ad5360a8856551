//! Rows whose columns are not the fields of the thing that they represent.
ghost use Rattle.std.specs.Prelude.{◌≡◌, ◌≢◌, ◌∷◌, ◌++◌, [], ℕ, List, MatchOption, OnOk, Option, length};
ghost use Rattle.std.specs.Option.{option_map};
ghost use Rattle.office_base.specs.Rows.{OnDamaged, numbered_rows};
ghost use Rattle.office_records.specs.declared.head.Confirmation.{Confirmation};
ghost use Rattle.office_records.specs.declared.head.Receipt.{Receipt};
ghost use Rattle.office_records.specs.declared.head.Record.{Record};
ghost use Rattle.office_records.specs.declared.head.Review.{Review};
ghost use Rattle.office_records.specs.declared.status.Status.{Status};
ghost use Rattle.office_rules.specs.Rows.{record_row, record_rows};
ghost use Rattle.office_rules.specs.declared.rows.RecordRow.{RecordRow};

use office_base::{Rebuild, push_numbered};
use office_days::{Day, DueDay};
use office_records::{Action, Confirmation, Receipt, Record, RecordNo, Review, Status, Text};
use office_rules::RecordRow;

/// The review, if there is one, of which these are the columns; `None` where one of them is there
/// alone.
fn review_of(day: Option<Day>, by: Option<Text>) -> Option<Option<Review>>
    ensures { MatchOption result
        ((it : Option Review) → option_map (λ review. review.day) it ≡ day
        → option_map (λ review. review.by) it ≢ by)
        (λ it. (option_map (λ review. review.day) it ≡ day)
        × (option_map (λ review. review.by) it ≡ by)) }
{
    match (day, by) {
        (Some(day), Some(by)) => Some(Some(Review { day, by })),
        (None, None) => Some(None),
        _ => None,
    }
}

/// The confirmation, if there is one, of which these are the columns; `None` where some of them are
/// there and some are not.
fn confirmation_of(
    action: Option<Action>,
    due: Option<DueDay>,
    day: Option<Day>,
    by: Option<Text>,
) -> Option<Option<Confirmation>>
    ensures { MatchOption result
        ((it : Option Confirmation) → option_map (λ confirmation. confirmation.action) it ≡ action
        → option_map (λ confirmation. confirmation.due) it ≡ due
        → option_map (λ confirmation. confirmation.day) it ≡ day
        → option_map (λ confirmation. confirmation.by) it ≢ by)
        (λ it. (option_map (λ confirmation. confirmation.action) it ≡ action)
        × (option_map (λ confirmation. confirmation.due) it ≡ due)
        × (option_map (λ confirmation. confirmation.day) it ≡ day)
        × (option_map (λ confirmation. confirmation.by) it ≡ by)) }
{
    match (action, due, day, by) {
        (Some(action), Some(due), Some(day), Some(by)) => Some(Some(Confirmation {
            action,
            due,
            day,
            by,
        })),
        (None, None, None, None) => Some(None),
        _ => None,
    }
}

/// The receipt, if there is one, of which these are the columns; `None` where one of them is there
/// alone.
fn receipt_of(day: Option<Day>, by: Option<Text>) -> Option<Option<Receipt>>
    ensures { MatchOption result
        ((it : Option Receipt) → option_map (λ receipt. receipt.day) it ≡ day
        → option_map (λ receipt. receipt.by) it ≢ by)
        (λ it. (option_map (λ receipt. receipt.day) it ≡ day)
        × (option_map (λ receipt. receipt.by) it ≡ by)) }
{
    match (day, by) {
        (Some(day), Some(by)) => Some(Some(Receipt { day, by })),
        (None, None) => Some(None),
        _ => None,
    }
}

/// The head and the status of which these are the columns; `None` where there are none.
fn record_of(row: RecordRow) -> Option<(Record, Status)>
    ensures { MatchOption result ((head : Record) (status : Status) → record_row head status ≢ row)
        (λ p. record_row p.0 p.1 ≡ row) }
{
    let review = review_of(row.reviewed, row.reviewed_by);
    let confirmation = confirmation_of(row.conf_action, row.conf_due, row.conf_day, row.conf_by);
    let receipt = receipt_of(row.receipt_day, row.receipt_by);
    let (Some(review), Some(confirmation), Some(receipt)) = (review, confirmation, receipt) else {
        return None;
    };
    let digest = row.digest;
    let head = Record {
        ref_text: row.ref_text,
        title: row.title,
        originated: row.originated,
        added: row.added,
        aggregation: row.aggregation,
        class: row.class,
        schedule: row.schedule,
        length: row.size,
        digest,
        review,
        confirmation,
        receipt,
    };
    Some((head, row.status))
}

/// Puts the head and the status of which these are the columns after the others, under that number;
/// damaged where there are none, or where it is not the next number.
pub(crate) fn push_record(
    heads: &mut Vec<Record>,
    statuses: &mut Vec<Status>,
    number: RecordNo,
    columns: RecordRow,
) -> Result<(), Rebuild>
    requires { length statuses.old.items ≡ length heads.old.items }
    ensures ok { OnOk result
        (numbered_rows (record_rows heads.new.items statuses.new.items)
        ≡ numbered_rows (record_rows heads.old.items statuses.old.items) ++ (number, columns)
        ∷ []) }
    ensures long { length statuses.new.items ≡ length heads.new.items }
    ensures damaged { OnDamaged result
        ((all : List Record) (ends : List Status) (rest : List (ℕ × RecordRow))
        → numbered_rows (record_rows all ends)
        ≢ (numbered_rows (record_rows heads.old.items statuses.old.items)
        ++ (number, columns) ∷ []) ++ rest) }
{
    if statuses.try_reserve(1).is_err() {
        return Err(Rebuild::Memory);
    }
    let Some((head, status)) = record_of(columns) else {
        return Err(Rebuild::Damaged);
    };
    push_numbered(heads, number, head)?;
    match statuses.push(status) {
        Ok(()) => Ok(()),
        Err(_) => Err(Rebuild::Memory),
    }
}
