//! What a request asks for is done at the desk, and answered.
ghost use Rattle.std.specs.FinMap.{get};
ghost use Rattle.std.specs.Prelude.{◌≡◌, ◌⊎◌, IfErr, IfOk, IsSome, IsTrue, OnErr, false, option_map, string_bytes};
ghost use Rattle.office_rules.specs.Readings.{ending_entry, record_view};
ghost use Rattle.office_wire.specs.Answering.{ArePerformedBy, IsAnswered, IsPerformed, IsRead, IsReportedOf};
ghost use Rattle.office_http.specs.Receiving.{acts, request_of_kind, requested};

use crate::replies::{
    acts_reply, answer_reply, bad_act_reply, certificate_reply, content_reply, due_reply,
    fault_reply, overdue_reply, record_reply, stopped_reply,
};
use office_base::Memory;
use office_days::{ConfirmDays, Day};
use office_desk::Desk;
use office_http::{PathRequest, Reply, RequestError, RequestKind, check_reply, error_reply};
use office_json::{ListFault, read_acts};
use office_records::RecordNo;
use office_rules::{Act, Entry, RecordView};
use office_store::Fault;
use sqlite::Alter;
use std::alloc::Global;

/// Does acts, and answers them.
fn perform<S: Alter>(alloc: Global, desk: &mut Desk<S>, acts: &[Act]) -> Result<Reply, Memory>
    ensures { ArePerformedBy S.Store acts.now result desk.old desk.new }
{
    let mut answers = Vec::new(alloc);
    match desk.perform_all(acts, &mut answers) {
        Ok(()) => acts_reply(alloc, answers.as_slice()),
        Err(fault) => stopped_reply(alloc, answers.as_slice(), fault),
    }
}

/// Does the acts of a body, and answers them.
fn perform_body<S: Alter>(alloc: Global, desk: &mut Desk<S>, body: &[u8]) -> Result<Reply, Memory>
    ensures { IsAnswered S.Store (acts body.now) result desk.old desk.new }
{
    match read_acts(alloc, body) {
        Ok(acts) => perform(alloc, desk, acts.as_slice()),
        Err(ListFault::NotJson) => Ok(error_reply(RequestError::Json)),
        Err(ListFault::BadAct(place, refusal)) => bad_act_reply(alloc, place, refusal),
        Err(ListFault::Memory) => Err(Memory),
    }
}

/// Takes up the open run, and answers.
fn resume<S: Alter>(alloc: Global, desk: &mut Desk<S>) -> Result<Reply, Memory>
    ensures { IsPerformed S.Store (requested PathRequest.Resume) result desk.old desk.new }
{
    match desk.resume() {
        Ok(answer) => answer_reply(alloc, &answer),
        Err(fault) => fault_reply(alloc, fault),
    }
}

/// A record as it is reported, with the entry that ended it.
#[derive(Drop)]
struct Reported {
    view: RecordView,
    ending: Option<Entry>,
}

/// What is reported of the record.
fn read_record<S: Alter>(desk: &Desk<S>, record_no: RecordNo) -> Result<Option<Reported>, Fault>
    ensures ok { IfOk result (λ reported. IsReportedOf desk.now.office record_no reported) }
    ensures err { IfErr result (λ fault. (fault ≡ Fault.Memory) ⊎ IsTrue desk.now.is_poisoned) }
    ensures gone { IsTrue desk.now.is_poisoned → result ≡ Err Fault.Reopen }

    // That a record is not there takes no memory.
    ensures absent { OnErr result
        (desk.now.is_poisoned ≡ false → IsSome (record_view desk.now.office record_no)) }
{
    match desk.record(record_no)? {
        None => Ok(None),
        Some(view) => {
            let ending = desk.entry_of(record_no)?;
            Ok(Some(Reported { view, ending }))
        }
    }
}

/// Reports a record.
fn report_record<S: Alter>(
    alloc: Global,
    desk: &Desk<S>,
    number: Option<u32>,
) -> Result<Reply, Memory>
    ensures { IsRead S.Store (requested (PathRequest.Record number)) result desk.now }
{
    let Some(record_no) = number else {
        return Ok(error_reply(RequestError::Record));
    };
    match read_record(desk, record_no) {
        Ok(None) => Ok(error_reply(RequestError::Record)),
        Ok(Some(reported)) => record_reply(alloc, &reported.view, reported.ending.as_ref()),
        Err(fault) => fault_reply(alloc, fault),
    }
}

/// Reports a content.
fn report_content<S: Alter>(
    alloc: Global,
    desk: &mut Desk<S>,
    number: Option<u32>,
) -> Result<Reply, Memory>
    ensures { IsAnswered S.Store (requested (PathRequest.Content number)) result desk.old desk.new }
{
    let Some(record_no) = number else {
        return Ok(error_reply(RequestError::Content));
    };
    match desk.content(record_no) {
        Ok(content) => Ok(content_reply(content)),
        Err(fault) => fault_reply(alloc, fault),
    }
}

/// Reports what is due on a day.
fn report_due<S: Alter>(alloc: Global, desk: &Desk<S>, day: Option<Day>) -> Result<Reply, Memory>
    ensures { IsRead S.Store (requested (PathRequest.Due day)) result desk.now }
{
    let Some(day) = day else {
        return Ok(error_reply(RequestError::Day));
    };
    match desk.due_rows(day) {
        Ok(rows) => due_reply(alloc, rows),
        Err(fault) => fault_reply(alloc, fault),
    }
}

/// Reports what is overdue on a day, so many days after the due day. Of a bad day and a bad count
/// the day is reported.
fn report_overdue<S: Alter>(
    alloc: Global,
    desk: &Desk<S>,
    day: Option<Day>,
    days: Option<ConfirmDays>,
) -> Result<Reply, Memory>
    ensures { IsRead S.Store (requested (PathRequest.Overdue day days)) result desk.now }
{
    let Some(day) = day else {
        return Ok(error_reply(RequestError::Day));
    };
    let Some(days) = days else {
        return Ok(error_reply(RequestError::Count));
    };
    match desk.overdue_rows(day, days) {
        Ok(rows) => overdue_reply(alloc, rows, days),
        Err(fault) => fault_reply(alloc, fault),
    }
}

/// Reports the certificate of a run.
fn report_certificate<S: Alter>(
    alloc: Global,
    desk: &Desk<S>,
    number: Option<u32>,
) -> Result<Reply, Memory>
    ensures { IsRead S.Store (requested (PathRequest.Certificate number)) result desk.now }
{
    let Some(run) = number else {
        return Ok(error_reply(RequestError::Certificate));
    };
    match desk.certificate(run) {
        Ok(text) => Ok(certificate_reply(text)),
        Err(fault) => fault_reply(alloc, fault),
    }
}

/// Does at the desk what a path asks for, and gives the answer.
fn answer_path<S: Alter>(
    alloc: Global,
    desk: &mut Desk<S>,
    request: PathRequest,
) -> Result<Reply, Memory>
    ensures { IsAnswered S.Store (requested request) result desk.old desk.new }
{
    match request {
        PathRequest::Resume => resume(alloc, desk),
        PathRequest::Record(number) => report_record(alloc, desk, number),
        PathRequest::Content(number) => report_content(alloc, desk, number),
        PathRequest::Due(day) => report_due(alloc, desk, day),
        PathRequest::Overdue(day, days) => report_overdue(alloc, desk, day, days),
        PathRequest::Certificate(number) => report_certificate(alloc, desk, number),
    }
}

/// Does at the desk what a request asks for, and gives the answer. `Memory` comes where memory
/// was refused to read the acts, and then none was done; or for the answer, and what was done is
/// kept then. A failed check, a cut body and a number or day that names nothing are answered without
/// memory.
pub fn answer<S: Alter>(
    alloc: Global,
    desk: &mut Desk<S>,
    kind: &RequestKind,
) -> Result<Reply, Memory>
    ensures { IsAnswered S.Store (request_of_kind kind.now) result desk.old desk.new }
{
    match kind {
        RequestKind::Refused(check) => Ok(check_reply(*check)),
        RequestKind::Cut => Ok(error_reply(RequestError::Body)),
        RequestKind::Acts(body) => perform_body(alloc, desk, body.as_bytes()),
        RequestKind::Serve(request) => answer_path(alloc, desk, *request),
    }
}
