//! A life of an office that serves requests: from the bytes of HTTP to the two files.
//!
//! A stint opens the office in two files, serves requests one after another, and closes the files;
//! any call of the disk may be the last that succeeds ([`serve_requests`]). It ends with the first
//! request whose response did not go out whole or was a 503. Whatever a crash leaves of the files
//! then stands for the state after all acts of the requests that were answered, and some first acts
//! of that one more. [`live_with_requests`] runs stints over one pair of files, each with acts, a
//! resumption or requests, and each ended by a crash.
#![tactic(auto)]

mod life;
mod reports;
mod serving;
mod stints;

pub use life::live_with_requests;
pub use reports::{Errand, LifeReport, RequestsEnd, RequestsReport};
pub use stints::serve_requests;
