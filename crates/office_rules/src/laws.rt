//! What the office's definitions promise, as laws that are proved: calls of these do nothing.
pub mod contents;
pub mod disposal_runs;
pub mod lasting_holds;
pub mod refusals;
pub mod repeated_records;
pub mod resumption;
pub mod rows;
pub mod soundness;
pub mod worked;
