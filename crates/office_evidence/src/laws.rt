//! What certificates mean, as laws that are proved: calls of these do nothing.
pub mod texts;
pub mod truth;
