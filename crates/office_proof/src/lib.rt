//! What proves that a disposal run did what it did: its entries, and the text of its certificate.
//!
//! A run writes one **entry** for each record that it takes: what came of the record, under which
//! class and schedule, for which confirmed due day and by whom it was confirmed, and for a skipped
//! record the hold that covered it. When the run closes, its **certificate** lists the entries by
//! record number, and the aggregations that are spent by this run: they are spent as it closes, and
//! it ended a record below them. It ends with the SHA-256 of all bytes above.
//!
//! Not the proofs of this house: the evidence that its user keeps. The types and the definitions
//! are in `office_rules`; here are the line of an entry and the text of a certificate.
//! `office_evidence` writes a certificate that was read by the same [`lines`] and [`words`].
#![tactic(auto)]

mod certificate;
pub mod laws;
pub mod lines;
pub mod words;

pub use certificate::{certificate_text, entry_line, seal};
pub use office_rules::{Entry, Outcome, RunNo, digest_of, read_digest};
