//! The office behind a policy and a journal: what a name may do is noted before it is done, and its
//! answer is noted before that goes out.
//!
//! [`answer_noted`] is `office_gate::answer_for` with a [`Book`], a journal and its clock. A list of
//! acts, and a resumption of the open run, get a line `asked` first, with the acts whole and each
//! content by its length and SHA-256. The journal names the settings that decide the request before
//! that: if they are new, by a line `settings`. If one of these lines cannot be written, nothing is
//! done, and status 503 reports it. After the last act comes the line `answered`, and only then the
//! answer is given. What cannot change the office gets no line here.
//!
//! A [`NotingGate`] has the settings in force and a book. [`serve_noted_visits`] serves one connection
//! after another there, each under the settings of its moment, which are read anew.
#![tactic(auto)]

mod answered;
mod arrival;
mod asked;
mod book;
mod exchange;
mod gatekeeper;
pub mod laws;
mod replies;
mod sessions;
mod turn;
mod visit;

pub use arrival::Arrival;
pub use book::{Book, Watch};
pub use exchange::answer_noted_visit;
pub use replies::{unasked_reply, unnoted_reply};
pub use sessions::{NotingGate, serve_noted_visits};
pub use turn::answer_noted;
pub use visit::{Visit, Wanted};
