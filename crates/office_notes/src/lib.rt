//! The acts of a request, as the journal notes them.
//!
//! A line of the journal has each act whole, in the JSON that it is read from, but for the content
//! of a record: in its place is its length and its SHA-256, as `{"bytes":3,"sha256":"ba78.."}`.
//! [`acts_text`] writes the acts so. What is noted determines the act but for its content
//! ([`laws`]).
#![tactic(auto)]

mod content;
mod kinds;
pub mod laws;
mod object;
mod part;
mod targets;
mod text;

pub use text::acts_text;
