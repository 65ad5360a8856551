//! What a visitor's request asks for is done at the desk as far as it is permitted, and answered.
ghost use Rattle.std.specs.Prelude.{◌≡◌};
ghost use Rattle.office_gate.specs.Answering.{IsAnsweredFor, IsAnsweredPermitted};
ghost use Rattle.office_gate.specs.Visitors.{visitor_of};
ghost use Rattle.office_http.specs.Receiving.{request_of_kind};

use crate::acts::perform_body_for;
use crate::denials::denial_reply;
use crate::lists::{report_due, report_overdue};
use crate::readings::deny;
use office_base::Memory;
use office_desk::Desk;
use office_guard::Keeper;
use office_http::{PathRequest, Reply, RequestKind};
use office_wire::answer;
use sqlite::Alter;
use std::alloc::Global;

/// Performs the acts of a body as far as each is permitted, or serves what else is asked for.
#[tactic(auto, using(crate::proofs::Given::resume_answered, crate::proofs::Given::record_answered, crate::proofs::Given::content_answered, crate::proofs::Given::certificate_answered, crate::proofs::Given::refused_answered, crate::proofs::Given::cut_answered, crate::proofs::Given::read_answered))]
fn perform_or_serve<S: Alter>(
    alloc: Global,
    keeper: &Keeper<'_>,
    desk: &mut Desk<S>,
    kind: &RequestKind,
) -> Result<Reply, Memory>
    ensures { IsAnsweredPermitted S.Store (visitor_of keeper.now) (request_of_kind kind.now) result
        desk.old desk.new }
{
    match kind {
        RequestKind::Acts(body) => perform_body_for(alloc, keeper, desk, body.as_bytes()),
        RequestKind::Refused(_) => answer(alloc, desk, kind),
        RequestKind::Cut => answer(alloc, desk, kind),
        RequestKind::Serve(PathRequest::Due(day)) => report_due(alloc, keeper, desk, *day),
        RequestKind::Serve(PathRequest::Overdue(day, days)) => {
            report_overdue(alloc, keeper, desk, *day, *days)
        }
        RequestKind::Serve(PathRequest::Resume) => answer(alloc, desk, kind),
        RequestKind::Serve(PathRequest::Record(_)) => answer(alloc, desk, kind),
        RequestKind::Serve(PathRequest::Content(_)) => answer(alloc, desk, kind),
        RequestKind::Serve(PathRequest::Certificate(_)) => answer(alloc, desk, kind),
    }
}

/// Does at the desk what a visitor's request asks for, as far as it is permitted to the visitor in
/// the office as it stands, and gives the answer. Acts are performed up to the first that is not
/// permitted in the office after those before it; none is performed if one of them is denied in
/// whatever office. `Memory` comes if memory was refused to read the acts, and then none was
/// performed; or for the answer, and what was done is kept then.
pub fn answer_for<S: Alter>(
    alloc: Global,
    keeper: &Keeper<'_>,
    desk: &mut Desk<S>,
    kind: &RequestKind,
) -> Result<Reply, Memory>
    ensures { IsAnsweredFor S.Store (visitor_of keeper.now) (request_of_kind kind.now) result
        desk.old desk.new }
{
    match deny(keeper, desk.machine(), kind) {
        Some(denial) => denial_reply(alloc, denial),
        None => perform_or_serve(alloc, keeper, desk, kind),
    }
}
