//! The replies of HTTP to the requests at the office.
ghost use Rattle.std.specs.Prelude.{◌≡◌, false, IfOk, map, option_map, string_bytes};
ghost use Rattle.std.specs.Option.{option_copied};
ghost use Rattle.serde_json.specs.View.{view};
ghost use Rattle.serde_json.specs.Written.{has_float};
ghost use Rattle.office_json.specs.DueJson.{due_row_data};
ghost use Rattle.office_json.specs.OverdueJson.{overdue_row_data};
ghost use Rattle.office_http.specs.Replies.{response};
ghost use Rattle.office_wire.specs.Replies.{acts_response, answer_response, answered_status, bad_act_response, certificate_response, content_response, due_response, fault_response, json_response, overdue_response, record_response, stopped_response};

use office_base::{Memory, Refusal};
use office_days::ConfirmDays;
use office_desk::DueRows;
use office_http::{Allow, Body, MediaType, Reply, RequestError, Status, error_reply};
use office_json::{
    answer_value, answers_value, bad_act_value, due_row_value, due_value, fault_value,
    overdue_row_value, overdue_value, record_value, stopped_value, text_of,
};
use office_rules::{Answer, Entry, RecordView, has_refusal};
use office_store::Fault;
use serde_json::Value;
use std::alloc::Global;

/// An answer whose body is JSON.
#[tactic(auto, unfolding(crate::specs::Replies::json_response))]
pub fn json_reply(alloc: Global, status: Status, value: &Value) -> Result<Reply, Memory>
    requires { has_float (view value.now) ≡ false }
    ensures { IfOk result (λ reply. response reply ≡ json_response status (view value.now)) }
{
    let text = text_of(alloc, value)?;
    Ok(Reply {
        status,
        media_type: MediaType::Json,
        allow: Allow::Absent,
        body: Body::Text(text),
    })
}

/// The status of what was answered, which is refused or not.
fn answered_status(is_refused: bool) -> Status
    ensures { result ≡ answered_status is_refused }
{
    if is_refused {
        Status::Conflict
    } else {
        Status::Ok
    }
}

/// The answers to acts.
pub fn acts_reply(alloc: Global, answers: &[Answer]) -> Result<Reply, Memory>
    ensures { IfOk result (λ reply. response reply ≡ acts_response answers.now) }
{
    let value = answers_value(alloc, answers)?;
    json_reply(alloc, answered_status(has_refusal(answers)), &value)
}

/// The answers to the acts before a fault, and the fault.
pub fn stopped_reply(alloc: Global, answers: &[Answer], fault: Fault) -> Result<Reply, Memory>
    ensures { IfOk result (λ reply. response reply ≡ stopped_response answers.now fault) }
{
    let value = stopped_value(alloc, answers, fault.number())?;
    json_reply(alloc, Status::ServiceUnavailable, &value)
}

/// A fault.
pub fn fault_reply(alloc: Global, fault: Fault) -> Result<Reply, Memory>
    ensures { IfOk result (λ reply. response reply ≡ fault_response fault) }
{
    let value = fault_value(alloc, fault.number())?;
    json_reply(alloc, Status::ServiceUnavailable, &value)
}

/// The first value that asks for no act.
pub fn bad_act_reply(alloc: Global, place: u64, refusal: Refusal) -> Result<Reply, Memory>
    ensures { IfOk result (λ reply. response reply ≡ bad_act_response place refusal) }
{
    let value = bad_act_value(alloc, place, refusal)?;
    json_reply(alloc, Status::BadRequest, &value)
}

/// The answer to one act.
pub fn answer_reply(alloc: Global, answer: &Answer) -> Result<Reply, Memory>
    ensures { IfOk result (λ reply. response reply ≡ answer_response answer.now) }
{
    let value = answer_value(alloc, answer)?;
    json_reply(alloc, answered_status(answer.is_refusal()), &value)
}

/// What is reported of a record, with the entry that ended it.
pub(crate) fn record_reply(
    alloc: Global,
    reported: &RecordView,
    ending: Option<&Entry>,
) -> Result<Reply, Memory>
    ensures { IfOk result
        (λ reply. response reply
        ≡ record_response (Some reported.now) (option_copied ending.entry)) }
{
    let value = record_value(alloc, reported, ending)?;
    json_reply(alloc, Status::Ok, &value)
}

/// The rows of what is due, in JSON.
fn row_values(alloc: Global, mut rows: DueRows<'_>) -> Result<Vec<Value>, Memory>
    ensures { IfOk result (λ values. map view values.items ≡ map due_row_data rows.entry) }
{
    let mut values = Vec::new(alloc);
    while let Some(row) = rows.next_row() {
        values.push(due_row_value(alloc, &row)?)?;
    }
    Ok(values)
}

/// What is due.
pub(crate) fn due_reply(alloc: Global, rows: DueRows<'_>) -> Result<Reply, Memory>
    ensures { IfOk result (λ reply. response reply ≡ due_response rows.entry) }
{
    let values = row_values(alloc, rows)?;
    let value = due_value(values);
    json_reply(alloc, Status::Ok, &value)
}

/// The rows of what is overdue, in JSON.
fn overdue_values(
    alloc: Global,
    mut rows: DueRows<'_>,
    days: ConfirmDays,
) -> Result<Vec<Value>, Memory>
    ensures { IfOk result
        (λ values. map view values.items ≡ map (overdue_row_data days) rows.entry) }
{
    let mut values = Vec::new(alloc);
    while let Some(row) = rows.next_row() {
        values.push(overdue_row_value(alloc, &row, days)?)?;
    }
    Ok(values)
}

/// What is overdue, so many days after the due day.
pub(crate) fn overdue_reply(
    alloc: Global,
    rows: DueRows<'_>,
    days: ConfirmDays,
) -> Result<Reply, Memory>
    ensures { IfOk result (λ reply. response reply ≡ overdue_response days rows.entry) }
{
    let values = overdue_values(alloc, rows, days)?;
    let value = overdue_value(values);
    json_reply(alloc, Status::Ok, &value)
}

/// A content, or that there is none.
pub(crate) fn content_reply(content: Option<Vec<u8>>) -> Reply
    ensures { response result ≡ content_response (option_map (λ it. it.items) content) }
{
    match content {
        None => error_reply(RequestError::Content),
        Some(bytes) => Reply {
            status: Status::Ok,
            media_type: MediaType::Octets,
            allow: Allow::Absent,
            body: Body::Bytes(bytes),
        },
    }
}

/// A certificate, or that there is none.
pub(crate) fn certificate_reply(certificate: Option<String>) -> Reply
    ensures { response result
        ≡ certificate_response (option_map (λ it. string_bytes it) certificate) }
{
    match certificate {
        None => error_reply(RequestError::Certificate),
        Some(text) => Reply {
            status: Status::Ok,
            media_type: MediaType::Plain,
            allow: Allow::Absent,
            body: Body::Text(text),
        },
    }
}
