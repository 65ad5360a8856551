//! The desk behind a policy: each act is done for a name, and only if it is permitted to the name in
//! the office in which it is then done.
//!
//! A [`Keeper`] is the guard of a name for `Desk::perform_guarded`. The laws say what that call then
//! does: each act that is done was permitted to the name, and the first that is not is not begun.
//! Further laws are about an office whose acts were all done by right, resumed runs included: who is
//! named in it as who confirmed, and as who opened a run, and that two people were needed.
#![tactic(auto)]

mod keeper;
pub mod laws;
mod snapshot;

pub use keeper::Keeper;
pub use snapshot::Snapshot;
