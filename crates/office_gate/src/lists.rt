//! The lists of a visitor: the rows of the classes that the visitor may read.
ghost use Rattle.std.specs.Prelude.{◌≡◌, IfOk, map};
ghost use Rattle.serde_json.specs.View.{view};
ghost use Rattle.office_gate.specs.Answering.{IsReadFor};
ghost use Rattle.office_gate.specs.Lists.{is_listed, listed};
ghost use Rattle.office_gate.specs.Visitors.{visitor_of};
ghost use Rattle.office_http.specs.Receiving.{requested};
ghost use Rattle.office_http.specs.Replies.{response};
ghost use Rattle.office_json.specs.DueJson.{due_row_data};
ghost use Rattle.office_json.specs.OverdueJson.{overdue_row_data};
ghost use Rattle.office_rules.specs.Registers.{due_reported};
ghost use Rattle.office_wire.specs.Replies.{due_response, fault_response, overdue_response};

use office_access::Reading;
use office_base::Memory;
use office_days::{ConfirmDays, Day};
use office_desk::{Desk, DueRows};
use office_guard::Keeper;
use office_http::{PathRequest, Reply, RequestError, Status, error_reply};
use office_json::{due_row_value, due_value, fault_value, overdue_row_value, overdue_value};
use office_rules::DueRow;
use office_store::Fault;
use office_wire::json_reply;
use serde_json::Value;
use sqlite::Alter;
use std::alloc::Global;

/// Reports whether the visitor may read the row.
fn is_listed(keeper: &Keeper<'_>, row: &DueRow<'_>) -> bool
    ensures { result ≡ is_listed (visitor_of keeper.now) (due_reported row.now) }
{
    keeper
        .policy
        .permit_reading(&keeper.name, Reading::Lists, Some(row.class), false)
        .is_none()
}

/// Reports a fault.
fn fault_reply(alloc: Global, fault: Fault) -> Result<Reply, Memory>
    ensures { IfOk result (λ reply. response reply ≡ fault_response fault) }
{
    let value = fault_value(alloc, fault.number())?;
    json_reply(alloc, Status::ServiceUnavailable, &value)
}

/// Collects the rows that are due and that the visitor may read, in JSON.
fn due_values(
    alloc: Global,
    keeper: &Keeper<'_>,
    mut rows: DueRows<'_>,
) -> Result<Vec<Value>, Memory>
    ensures { IfOk result (λ values. map view values.items
        ≡ map due_row_data (listed (visitor_of keeper.now) rows.entry)) }
{
    let mut values = Vec::new(alloc);
    while let Some(row) = rows.next_row() {
        if is_listed(keeper, &row) {
            values.push(due_row_value(alloc, &row)?)?;
        }
    }
    Ok(values)
}

/// Reports the rows that are due and that the visitor may read.
fn due_reply(alloc: Global, keeper: &Keeper<'_>, rows: DueRows<'_>) -> Result<Reply, Memory>
    ensures { IfOk result (λ reply. response reply
        ≡ due_response (listed (visitor_of keeper.now) rows.entry)) }
{
    let values = due_values(alloc, keeper, rows)?;
    let value = due_value(values);
    json_reply(alloc, Status::Ok, &value)
}

/// Reports what is due on a day, as far as the visitor may read it.
pub(crate) fn report_due<S: Alter>(
    alloc: Global,
    keeper: &Keeper<'_>,
    desk: &Desk<S>,
    day: Option<Day>,
) -> Result<Reply, Memory>
    ensures { IsReadFor S.Store (visitor_of keeper.now) (requested (PathRequest.Due day)) result
        desk.now }
{
    let Some(day) = day else {
        return Ok(error_reply(RequestError::Day));
    };
    match desk.due_rows(day) {
        Ok(rows) => due_reply(alloc, keeper, rows),
        Err(fault) => fault_reply(alloc, fault),
    }
}

/// Collects the rows that are overdue and that the visitor may read, in JSON.
fn overdue_values(
    alloc: Global,
    keeper: &Keeper<'_>,
    mut rows: DueRows<'_>,
    days: ConfirmDays,
) -> Result<Vec<Value>, Memory>
    ensures { IfOk result (λ values. map view values.items
        ≡ map (overdue_row_data days) (listed (visitor_of keeper.now) rows.entry)) }
{
    let mut values = Vec::new(alloc);
    while let Some(row) = rows.next_row() {
        if is_listed(keeper, &row) {
            values.push(overdue_row_value(alloc, &row, days)?)?;
        }
    }
    Ok(values)
}

/// Reports the rows that are overdue and that the visitor may read.
fn overdue_reply(
    alloc: Global,
    keeper: &Keeper<'_>,
    rows: DueRows<'_>,
    days: ConfirmDays,
) -> Result<Reply, Memory>
    ensures { IfOk result (λ reply. response reply
        ≡ overdue_response days (listed (visitor_of keeper.now) rows.entry)) }
{
    let values = overdue_values(alloc, keeper, rows, days)?;
    let value = overdue_value(values);
    json_reply(alloc, Status::Ok, &value)
}

/// Reports what is overdue on a day, that many days after the due day, as far as the visitor may
/// read it. Of a bad day and a bad count the day is reported.
pub(crate) fn report_overdue<S: Alter>(
    alloc: Global,
    keeper: &Keeper<'_>,
    desk: &Desk<S>,
    day: Option<Day>,
    days: Option<ConfirmDays>,
) -> Result<Reply, Memory>
    ensures { IsReadFor S.Store (visitor_of keeper.now) (requested (PathRequest.Overdue day days))
        result desk.now }
{
    let Some(day) = day else {
        return Ok(error_reply(RequestError::Day));
    };
    let Some(days) = days else {
        return Ok(error_reply(RequestError::Count));
    };
    match desk.overdue_rows(day, days) {
        Ok(rows) => overdue_reply(alloc, keeper, rows, days),
        Err(fault) => fault_reply(alloc, fault),
    }
}
