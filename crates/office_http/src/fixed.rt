//! Replies of fixed bytes, for failed checks and for other errors of a request.
ghost use Rattle.std.specs.Prelude.{◌≡◌};
ghost use Rattle.office_http.specs.Replies.{check_response, error_response, response, Response};
ghost use Rattle.office_http.specs.declared.reply.MediaType.TheVariants.{Json};

use crate::rejection::Rejection;
use crate::reply::{Allow, Body, MediaType, Reply};
use crate::request_error::RequestError;
use crate::status::Status;

/// An answer of fixed bytes.
fn fixed(status: Status, allow: Allow, text: &'static [u8]) -> Reply
    ensures { response result
        ≡ record { status = status; media_type = Json; allow = allow; body = text.entry.now } }
{
    Reply {
        status,
        media_type: MediaType::Json,
        allow,
        body: Body::Fixed(text),
    }
}

/// The answer where a check of the head fails. It takes no memory.
#[tactic(auto, unfolding(crate::specs::Replies::check_response))]
pub fn check_reply(check: Rejection) -> Reply
    ensures { response result ≡ check_response check }
{
    match check {
        Rejection::Host => fixed(Status::BadRequest, Allow::Absent, b"{\"error\":\"host\"}"),
        Rejection::Path => fixed(Status::NotFound, Allow::Absent, b"{\"error\":\"path\"}"),
        Rejection::NotGet => fixed(
            Status::MethodNotAllowed,
            Allow::Get,
            b"{\"error\":\"method\"}",
        ),
        Rejection::NotPost => fixed(
            Status::MethodNotAllowed,
            Allow::Post,
            b"{\"error\":\"method\"}",
        ),
        Rejection::TransferCoding => fixed(
            Status::NotImplemented,
            Allow::Absent,
            b"{\"error\":\"coding\"}",
        ),
        Rejection::LengthMissing => fixed(
            Status::LengthRequired,
            Allow::Absent,
            b"{\"error\":\"length\"}",
        ),
        Rejection::LengthInvalid => fixed(
            Status::BadRequest,
            Allow::Absent,
            b"{\"error\":\"length\"}",
        ),
        Rejection::ContentTooLarge => fixed(
            Status::PayloadTooLarge,
            Allow::Absent,
            b"{\"error\":\"size\"}",
        ),
    }
}

/// The answer where anything else fails. It takes no memory.
#[tactic(auto, unfolding(crate::specs::Replies::error_response))]
pub fn error_reply(error: RequestError) -> Reply
    ensures { response result ≡ error_response error }
{
    match error {
        RequestError::Head => fixed(Status::BadRequest, Allow::Absent, b"{\"error\":\"head\"}"),
        RequestError::Body => fixed(Status::BadRequest, Allow::Absent, b"{\"error\":\"body\"}"),
        RequestError::Json => fixed(Status::BadRequest, Allow::Absent, b"{\"error\":\"json\"}"),
        RequestError::Memory => fixed(
            Status::ServiceUnavailable,
            Allow::Absent,
            b"{\"error\":\"memory\"}",
        ),
        RequestError::Record => fixed(Status::NotFound, Allow::Absent, b"{\"error\":\"record\"}"),
        RequestError::Content => fixed(Status::NotFound, Allow::Absent, b"{\"error\":\"content\"}"),
        RequestError::Certificate => fixed(
            Status::NotFound,
            Allow::Absent,
            b"{\"error\":\"certificate\"}",
        ),
        RequestError::Day => fixed(Status::BadRequest, Allow::Absent, b"{\"error\":\"day\"}"),
        RequestError::Count => fixed(Status::BadRequest, Allow::Absent, b"{\"error\":\"count\"}"),
    }
}
