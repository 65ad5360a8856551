//! One request of HTTP and the bytes of its answer: what a web client asks of the office, and no
//! more.
//!
//! [`read_head`] reads until the head of a request is whole or there will be none, and [`plan_in`]
//! reports what is done for it: the first check that fails, as a [`Rejection`], or what is asked
//! for: the acts of a body, or a [`PathRequest`]. It looks the path up in [`Routes`], which are made
//! once. [`read_body`] reads the body that a head announces. The answer is a [`Reply`], and
//! [`write_reply`] writes it; [`check_reply`] and [`error_reply`] give the answers whose bytes are
//! fixed. What is asked for is done by others, who know the office: here are heads, fields, paths
//! and lengths alone.
//!
//! [`receive`] reads all of a request from a stream, within its limits: what it asks for is a
//! [`RequestKind`], and the bytes of its acts are an [`ActsBody`], of which no act is looked at yet.
//! [`receive_proxied`] reads what a proxy states about it as well, as [`ProxyLines`].
//! [`DeadlineStream`] is a side of a connection that has [`LONGEST`] seconds for all that is read of
//! it, or written to it.
#![tactic(auto)]

mod acts_body;
mod body;
mod deadline;
mod fields;
mod fixed;
mod head;
mod method;
mod numbers;
mod path_request;
mod paths;
mod proxied_request;
mod proxy_lines;
mod rejection;
mod reply;
mod reply_text;
mod request;
mod request_error;
mod request_plan;
mod status;

pub use acts_body::ActsBody;
pub use body::read_body;
pub use deadline::{DeadlineStream, LONGEST};
pub use fixed::{check_reply, error_reply};
pub use head::{Head, LONGEST_HEAD, MOST_FIELDS, law_of_requests, read_head};
pub use path_request::PathRequest;
pub use paths::Routes;
pub use proxied_request::{Proxied, ProxiedRequest, receive_proxied};
pub use proxy_lines::{FieldValue, ProxyLines};
pub use rejection::Rejection;
pub use reply::{Allow, Body, MediaType, Reply};
pub use reply_text::{law_of_replies, write_reply};
pub use request::{ParsedRequest, ReceiveStop, Received, RequestKind, receive};
pub use request_error::RequestError;
pub use request_plan::{RequestPlan, is_head_in, plan_in};
pub use status::Status;
