//! What is guaranteed for an office's file, in the words of a court: laws that join those about
//! files (`office_commands`) with those about evidence (`office_evidence`). A call of one does
//! nothing. No program rests on this crate: it stands above all that a guarantee needs, and nothing
//! waits for it.
#![tactic(auto)]

mod reopening;
mod signed_files;
mod true_files;

pub use reopening::law_of_reopening;
pub use signed_files::law_of_signed_files;
pub use true_files::law_of_true_files;
