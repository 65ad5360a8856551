//! The settings of an office, and their policy: what they allow each name.
//!
//! [`read_settings`] reads a file of settings, or finds why the file is refused. [`policy_of`] makes
//! the policy of the statements: each name has the rights of each of its roles, within the classes
//! of the role and within those of the name. [`sign_in`] gives a name that signs in its look, by
//! which the policy keeps whoever looks like a name of the settings from the rights of every other
//! name.
#![tactic(auto)]

mod classes;
pub mod laws;
mod limits;
mod names;
mod others;
mod policy;
mod powers;
mod rights;
mod roles;
mod rules;
mod settings;
mod signing_in;

pub use limits::Limits;
pub use policy::policy_of;
pub use settings::{Settings, read_settings};
pub use signing_in::sign_in;
