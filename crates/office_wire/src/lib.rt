//! The office on the wire: one request of HTTP is read, what it asks for is done at the desk, and
//! the answer is written.
//!
//! [`receive`] of `office_http` reads all of a request and touches no desk; [`answer`] does
//! what it asks for and reads nothing; [`answer_next`] joins them and writes nothing, [`send`]
//! writes the answer and touches no desk, and [`serve_one`] is these two. Acts and answers in JSON
//! are those of `office_json`, heads and the bytes of an answer those of `office_http`.
//! [`serve_session`] serves the connections of a [`ConnectionSource`], one after another.
//! [`serve_all`] serves those that come over TCP, each within its time ([`LONGEST`]), and a
//! [`RequestList`] has requests in memory. What serves many makes its routes once: [`serve_with`],
//! [`serve_each`]. By [`law_of_sessions`] a session is the fold of its requests.
#![tactic(auto)]

mod answers;
mod connection_source;
mod connections;
mod exchange;
mod import_lines;
mod record_import;
mod registers;
mod replies;
mod request_list;
mod sessions;
mod sockets;

pub use answers::answer;
pub use connection_source::ConnectionSource;
pub use connections::{
    Service, Serving, ends_after, failed_by, serve_all, serve_each, serve_session,
};
pub use exchange::{OutgoingReply, answer_next, error_to_send, send, serve_one, serve_with};
pub use office_base::Io;
pub use office_http::{
    ActsBody, LONGEST, ParsedRequest, ReceiveStop, Received, RequestKind, Routes, receive,
};
pub use office_json::{ReadFault, answer_value, read_act};
pub use record_import::{ImportStop, import_records};
pub use registers::{ExportStop, export_due, export_entries, export_overdue};
pub use replies::{acts_reply, bad_act_reply, json_reply, stopped_reply};
pub use request_list::{RequestList, SentAnswer};
pub use sessions::law_of_sessions;
pub use sockets::Sockets;
