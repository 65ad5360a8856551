//! Whether a visitor may have what a path asks for.
ghost use Rattle.std.specs.Prelude.{◌≡◌};
ghost use Rattle.office_records.specs.Tree.{class_of};
ghost use Rattle.std.specs.Option.{option_copied};
ghost use Rattle.office_gate.specs.Paths.{is_in_transit, lists_denial, path_denial, record_denial, request_denial, whole_denial};
ghost use Rattle.office_gate.specs.Visitors.{visitor_of};
ghost use Rattle.office_http.specs.Receiving.{request_of_kind};
ghost use Rattle.office_rules.specs.State.{Office};

use office_access::{Denial, Power, Reading};
use office_guard::{Keeper, Snapshot};
use office_http::{PathRequest, RequestKind};
use office_machine::Machine;
use office_records::{Code, RecordNo, Status};
use office_tree::Tree;

/// The class of a record; `None` if the record is not there.
fn record_class(tree: &Tree, record_no: RecordNo) -> Option<&Code>
    ensures { option_copied result ≡ class_of tree.now record_no }
{
    if tree.has_record(record_no) {
        Some(tree.class_of(record_no))
    } else {
        None
    }
}

/// Reports whether a run sent the record to an archive, and none ended it.
fn is_in_transit(tree: &Tree, record_no: RecordNo) -> bool
    ensures { result ≡ is_in_transit tree.now record_no }
{
    tree.has_record(record_no) && matches!(tree.status(record_no), Status::Sent | Status::Received)
}

/// Finds why the visitor may not read that of the record, if the visitor may not.
fn deny_record(
    keeper: &Keeper<'_>,
    tree: &Tree,
    reading: Reading,
    number: Option<u32>,
) -> Option<Denial>
    ensures { (s : Office) → s.tree ≡ tree.now
        → result ≡ record_denial (visitor_of keeper.now) s reading number }
{
    match number {
        Some(record_no) => keeper.policy.permit_reading(
            &keeper.name,
            reading,
            record_class(tree, record_no),
            is_in_transit(tree, record_no),
        ),
        None => deny_whole(keeper, reading),
    }
}

/// Finds why the visitor may not read what lies in no class, if the visitor may not.
fn deny_whole(keeper: &Keeper<'_>, reading: Reading) -> Option<Denial>
    ensures { result ≡ whole_denial (visitor_of keeper.now) reading }
{
    keeper
        .policy
        .permit_reading(&keeper.name, reading, None, false)
}

/// Finds why the visitor may read no row of a list, if the visitor has no right to lists.
fn deny_lists(keeper: &Keeper<'_>) -> Option<Denial>
    ensures { result ≡ lists_denial (visitor_of keeper.now) }
{
    match keeper.policy.grants(&keeper.name) {
        Some(grants) => {
            if grants.may_at_all(Power::Read(Reading::Lists)) {
                None
            } else {
                Some(Denial::Right)
            }
        }
        None => Some(Denial::Name),
    }
}

/// Finds why the visitor may not have what the path asks for, if the visitor may not.
fn deny_path(keeper: &Keeper<'_>, machine: &Machine, request: PathRequest) -> Option<Denial>
    ensures { result ≡ path_denial (visitor_of keeper.now) machine.now request }
{
    match request {
        PathRequest::Resume => keeper
            .policy
            .permit_resumption(&Snapshot { machine }, &keeper.name),
        PathRequest::Record(number) => {
            deny_record(keeper, machine.tree(), Reading::Records, number)
        }
        PathRequest::Content(number) => {
            deny_record(keeper, machine.tree(), Reading::Contents, number)
        }
        PathRequest::Due(_) | PathRequest::Overdue(_, _) => deny_lists(keeper),
        PathRequest::Certificate(_) => deny_whole(keeper, Reading::Certificates),
    }
}

/// Finds why the visitor may not have what is requested, if the visitor may not. The acts of a body
/// are asked one by one elsewhere.
pub(crate) fn deny(keeper: &Keeper<'_>, machine: &Machine, kind: &RequestKind) -> Option<Denial>
    ensures { result
        ≡ request_denial (visitor_of keeper.now) machine.now (request_of_kind kind.now) }
{
    match kind {
        RequestKind::Serve(request) => deny_path(keeper, machine, *request),
        _ => None,
    }
}
