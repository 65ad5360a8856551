//! The replies to requests that are not in the journal.
ghost use Rattle.std.specs.Prelude.{◌≡◌};
ghost use Rattle.office_http.specs.Replies.{response};
ghost use Rattle.office_noting.specs.Replies.{unasked_response, unnoted_response};

use office_http::{Allow, Body, MediaType, Reply, Status};

/// Reports that the journal took no line for a request, so that nothing was done: status 503 with
/// `{"error":"journal"}`.
#[tactic(auto, unfolding(crate::specs::Replies::unasked_response))]
pub fn unasked_reply() -> Reply
    ensures { response result ≡ unasked_response }
{
    Reply {
        status: Status::ServiceUnavailable,
        media_type: MediaType::Json,
        allow: Allow::Absent,
        body: Body::Fixed(b"{\"error\":\"journal\"}"),
    }
}

/// Reports that the journal took no line for an answer. What was asked for may have been done, and
/// whoever asked has to look: status 503 with `{"error":"unnoted"}`.
#[tactic(auto, unfolding(crate::specs::Replies::unnoted_response))]
pub fn unnoted_reply() -> Reply
    ensures { response result ≡ unnoted_response }
{
    Reply {
        status: Status::ServiceUnavailable,
        media_type: MediaType::Json,
        allow: Allow::Absent,
        body: Body::Fixed(b"{\"error\":\"unnoted\"}"),
    }
}
