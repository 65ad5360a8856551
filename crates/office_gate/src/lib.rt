//! The office behind a policy, on the wire: what a request asks for is done for the name that signed
//! in, as far as it is permitted to the name in the office as it then stands.
//!
//! [`answer_for`] is `office_wire::answer` for a visitor: acts are performed by a
//! `office_guard::Keeper`, so that each is judged in the office in which it is then done, and what a
//! path asks for is denied or served. What is denied is answered with status 403 and the reason.
//! [`serve_visit`] reads one request with what a proxy states, the secret that it shares with the
//! office, the name that signed in and the day, as [`Gate::visitor`] reads these, and answers it.
//! [`serve_visits`] serves one connection after another, each under the settings of its moment, which
//! an [`Access`] reads anew. A [`Gatekeeper`] is whoever does that: an `Access` alone, or with a journal.
#![tactic(auto)]

mod access;
mod acts;
mod answers;
mod denials;
mod exchange;
mod gate;
mod gatekeeper;
pub mod laws;
mod lists;
mod readings;
mod secret;
mod sessions;

pub use access::{Access, AccessError, SettingsText};
pub use acts::perform_for;
pub use answers::answer_for;
pub use denials::{denial_reply, denied_reply, token_reply};
pub use exchange::{answer_visit, serve_visit};
pub use gate::Gate;
pub use gatekeeper::Gatekeeper;
pub use secret::secret_in;
pub use sessions::serve_visits;
