//! The traces of a name at the records that are not ended.
ghost use Rattle.std.specs.Prelude.{◌≡◌, ◌&&◌, IsTrue};
ghost use Rattle.std.specs.FinMap.{get};
ghost use Rattle.std.specs.Str.{bytes_eq};
ghost use Rattle.office_records.specs.Disposal.{confirmation_of};
ghost use Rattle.office_records.specs.Lists.{is_some_and};
ghost use Rattle.office_records.specs.Tree.{has_record};
ghost use Rattle.office_access.specs.Eyes.{has_trace, has_trace_anywhere, is_left, is_within, receipt_of, review_of};

use crate::trace::Trace;
use office_days::Day;
use office_records::{RecordNo, Status, Text};
use office_tree::Tree;

/// Reports whether the record is not ended.
fn is_left(tree: &Tree, record_no: RecordNo) -> bool
    requires { IsTrue (has_record tree.now record_no) }
    ensures { result ≡ is_left tree.now record_no }
{
    !matches!(tree.status(record_no), Status::Ended)
}

/// Reports whether a day is less than that many days before another.
fn is_within(days: u16, day: Day, before: Day) -> bool
    ensures { result ≡ is_within days day before }
{
    day.number() < before.number() + i32::from(days)
}

/// Reports whether the name confirmed the record last.
fn is_confirmer(tree: &Tree, signs: &Text, record_no: RecordNo) -> bool
    requires { IsTrue (has_record tree.now record_no) }
    ensures { result
        ≡ is_some_and (confirmation_of tree.now record_no) (λ it. bytes_eq it.by signs.now) }
{
    match &tree.record(record_no).confirmation {
        Some(confirmation) => confirmation.by == *signs,
        None => false,
    }
}

/// Reports whether the name reviewed the record in the days before that day.
fn is_reviewer(tree: &Tree, signs: &Text, period: (u16, Day), record_no: RecordNo) -> bool
    requires { IsTrue (has_record tree.now record_no) }
    ensures { result
        ≡ is_some_and (review_of tree.now record_no)
        (λ it. bytes_eq it.by signs.now && is_within period.0 period.1 it.day) }
{
    match &tree.record(record_no).review {
        Some(review) => review.by == *signs && is_within(period.0, period.1, review.day),
        None => false,
    }
}

/// Reports whether the name recorded the event of the record in the days before that day.
fn is_recorder(tree: &Tree, signs: &Text, period: (u16, Day), record_no: RecordNo) -> bool
    ensures { result
        ≡ is_some_and (get tree.now.events record_no)
        (λ it. bytes_eq it.by signs.now && is_within period.0 period.1 it.day) }
{
    match tree.event(record_no) {
        Some(event) => event.by == *signs && is_within(period.0, period.1, event.day),
        None => false,
    }
}

/// Reports whether the name filed the receipt of the record.
fn is_receiver(tree: &Tree, signs: &Text, record_no: RecordNo) -> bool
    requires { IsTrue (has_record tree.now record_no) }
    ensures { result
        ≡ is_some_and (receipt_of tree.now record_no) (λ it. bytes_eq it.by signs.now) }
{
    match &tree.record(record_no).receipt {
        Some(receipt) => receipt.by == *signs,
        None => false,
    }
}

/// Reports whether the record is not ended and has that trace of the name.
fn has_trace(tree: &Tree, signs: &Text, trace: &Trace, record_no: RecordNo) -> bool
    requires { IsTrue (has_record tree.now record_no) }
    ensures { result ≡ has_trace tree.now signs.now trace.now record_no }
{
    if !is_left(tree, record_no) {
        return false;
    }
    match trace {
        Trace::Confirmation => is_confirmer(tree, signs, record_no),
        Trace::Change { days, day } => {
            is_recorder(tree, signs, (*days, *day), record_no)
                || is_reviewer(tree, signs, (*days, *day), record_no)
        }
        Trace::Receipt => is_receiver(tree, signs, record_no),
    }
}

/// Reports whether one of the records that are not ended has that trace of the name.
pub(crate) fn has_trace_anywhere(tree: &Tree, signs: &Text, trace: &Trace) -> bool
    ensures { result ≡ has_trace_anywhere tree.now signs.now trace.now }
{
    for before in 0..tree.record_count() {
        if has_trace(tree, signs, trace, before + 1) {
            return true;
        }
    }
    false
}
