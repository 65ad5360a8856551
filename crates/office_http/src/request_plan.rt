//! What is done for the head of a request: the first check that fails, or what it asks for.
ghost use Rattle.std.specs.Prelude.{◌≡◌, ℕ, ◌≤◌, List, length, map, take, codes, All};
ghost use Rattle.httparse.specs.Spans.{header_bytes, span_bytes, IsHeaderWithin, IsRequestWithin};
ghost use Rattle.office_http.specs.Fields.{found_named};
ghost use Rattle.office_http.specs.RequestPlans.{acts_plan, get_plan, has_host, is_head_method, length_plan, plan_of, route_plan, sized_plan, target_plan, IsPlanned, IsSized};

use crate::fields::{Found, find_named};
use crate::method::is_method;
use crate::numbers::{content_length, segment_number};
use crate::path_request::PathRequest;
use crate::paths::{Route, Routes, path_of, path_segment};
use crate::rejection::Rejection;
use http::Method;
use httparse::spans::{HeaderSpan, RequestSpans};
use office_days::{Day, read_confirm_days};

/// What is done for the head of a request.
#[derive(Clone, Copy, PartialEq, Eq, Debug)]
pub enum RequestPlan {
    /// A check fails, and its answer is given.
    Refuse(Rejection),
    /// The acts in a body of that many bytes are performed.
    Acts(u64),
    /// What the path asks for is done.
    Serve(PathRequest),
}

/// What is done for a body of that length.
fn sized_plan(size: Option<u64>) -> RequestPlan
    ensures plan { result ≡ sized_plan size }
    ensures sized { IsSized result }
{
    match size {
        None => RequestPlan::Refuse(Rejection::LengthInvalid),
        Some(size) if size > 1_048_576 => RequestPlan::Refuse(Rejection::ContentTooLarge),
        Some(size) => RequestPlan::Acts(size),
    }
}

/// What is done for acts, by the line that says their length.
fn length_plan(buf: &[u8], headers: &[HeaderSpan]) -> RequestPlan
    requires { All (IsHeaderWithin (length buf.now)) headers.now }
    ensures plan { result
        ≡ length_plan
        (found_named (codes "content-length") (map (header_bytes buf.now) headers.now)) }
    ensures sized { IsSized result }
{
    match find_named(buf, headers, b"content-length") {
        Found::Missing => RequestPlan::Refuse(Rejection::LengthMissing),
        Found::One(value) => sized_plan(content_length(value.of(buf))),
        Found::Many => RequestPlan::Refuse(Rejection::LengthInvalid),
    }
}

/// What is done for acts.
fn acts_plan(buf: &[u8], headers: &[HeaderSpan]) -> RequestPlan
    requires { All (IsHeaderWithin (length buf.now)) headers.now }
    ensures plan { result ≡ acts_plan (map (header_bytes buf.now) headers.now) }
    ensures sized { IsSized result }
{
    match find_named(buf, headers, b"transfer-encoding") {
        Found::Missing => length_plan(buf, headers),
        _ => RequestPlan::Refuse(Rejection::TransferCoding),
    }
}

/// What a GET asks for, or why it is none.
fn get_plan(method: &[u8], request: PathRequest) -> RequestPlan
    ensures { result ≡ get_plan method.now (RequestPlan.Serve request) }
{
    if is_method(method, &Method::GET) {
        RequestPlan::Serve(request)
    } else {
        RequestPlan::Refuse(Rejection::NotGet)
    }
}

/// What is done for a method at a path that names this.
fn route_plan(
    buf: &[u8],
    headers: &[HeaderSpan],
    route: Route,
    path: &str,
    method: &[u8],
) -> RequestPlan
    requires { All (IsHeaderWithin (length buf.now)) headers.now }
    ensures plan { result
        ≡ route_plan route path.now method.now (map (header_bytes buf.now) headers.now) }
    ensures sized { IsSized result }
{
    let segment = path_segment(path, 2);
    match route {
        Route::Acts if is_method(method, &Method::POST) => acts_plan(buf, headers),
        Route::Resume if is_method(method, &Method::POST) => RequestPlan::Serve(
            PathRequest::Resume,
        ),
        Route::Acts | Route::Resume => RequestPlan::Refuse(Rejection::NotPost),
        Route::Record => get_plan(method, PathRequest::Record(segment_number(segment))),
        Route::Content => get_plan(method, PathRequest::Content(segment_number(segment))),
        Route::Due => get_plan(method, PathRequest::Due(Day::read(segment))),
        Route::Overdue => {
            let days = read_confirm_days(path_segment(path, 3)).ok();
            get_plan(method, PathRequest::Overdue(Day::read(segment), days))
        }
        Route::Certificate => get_plan(method, PathRequest::Certificate(segment_number(segment))),
    }
}

/// What is done for a target.
fn target_plan(
    routes: &Routes,
    buf: &[u8],
    headers: &[HeaderSpan],
    target: &[u8],
    method: &[u8],
) -> RequestPlan
    requires { All (IsHeaderWithin (length buf.now)) headers.now }
    ensures plan { result
        ≡ target_plan target.now method.now (map (header_bytes buf.now) headers.now) }
    ensures sized { IsSized result }
{
    let Some(path) = path_of(target) else {
        return RequestPlan::Refuse(Rejection::Path);
    };
    match routes.route_at(path) {
        None => RequestPlan::Refuse(Rejection::Path),
        Some(route) => route_plan(buf, headers, route, path, method),
    }
}

/// Whether a head has the Host line that its version wants.
fn has_host(buf: &[u8], headers: &[HeaderSpan], minor: u8) -> bool
    requires { All (IsHeaderWithin (length buf.now)) headers.now }
    ensures { result
        ≡ has_host minor (found_named (codes "host") (map (header_bytes buf.now) headers.now)) }
{
    if minor == 1 {
        matches!(find_named(buf, headers, b"host"), Found::One(_))
    } else {
        true
    }
}

/// What is done for a head that [`read_head`](crate::read_head) found in the buffer. No memory is
/// asked for.
pub fn plan_in(
    routes: &Routes,
    buf: &[u8],
    head: &RequestSpans,
    headers: &[HeaderSpan],
) -> RequestPlan
    requires { IsRequestWithin buf.now headers.now head.now }
    ensures { IsPlanned buf.now head.now headers.now result }
{
    let headers = &headers[..head.headers];
    if has_host(buf, headers, head.version) {
        target_plan(routes, buf, headers, head.path.of(buf), head.method.of(buf))
    } else {
        RequestPlan::Refuse(Rejection::Host)
    }
}

/// Whether the method of a head is HEAD, so that the head of the answer alone is written.
pub fn is_head_in(buf: &[u8], head: &RequestSpans) -> bool
    requires ordered { head.now.method.start ≤ head.now.method.end }
    requires in_range { head.now.method.end ≤ length buf.now }
    ensures { result ≡ is_head_method (span_bytes buf.now head.now.method) }
{
    is_method(head.method.of(buf), &Method::HEAD)
}
