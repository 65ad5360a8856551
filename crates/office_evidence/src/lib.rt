//! What an auditor may rely on: a certificate read from its text, and that it is true.
//!
//! A **certificate** is a text. [`read_certificate`] takes it apart again, exactly: what it gives is
//! the certificate whose text it is, and no other text is one. [`laws`] say that the certificate of
//! a run is true of the history of its office: its lines are, one to one, what the run did.
//!
//! The office writes certificates (`office_proof`) and keeps them. Nothing here is on the way of an
//! act: whoever has a text alone, and not the office, needs no more than this crate.
#![tactic(auto)]

mod forms;
pub mod laws;
mod lines;
mod parsed;
mod reading;
mod words;
mod written;

pub use parsed::{EntryLine, ParsedCertificate, SpentLine};
pub use reading::read_certificate;
