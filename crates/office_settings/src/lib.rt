//! The settings of an office's access, `/etc/office/NAME.access`.
//!
//! A line is one statement, and what follows `#` is a remark. [`lines_of`] parts a file into its
//! lines, and these into words; [`read_entries`] reads the lines as statements: what a role may do
//! or read, which roles a name has and what it signs, a rule of four eyes, and how the site is
//! served. A file that is wrong is refused for its first wrong line, with a reason ([`Fault`]).
//! `begin` above all statements and `end` below them are marks: no part of a file with both is read.
//!
//! No two names, and no two texts that names sign, look alike ([`look_of`]). Outside are: whether a
//! time zone is known, and whether a text has letters of two scripts.
#![tactic(auto)]

mod addresses;
mod entry;
mod error;
mod file;
mod forms;
mod keywords;
pub mod laws;
mod looks;
mod numbers;
mod parts;
mod roles;
mod source_line;
mod statement;
mod subjects;
mod tokens;
mod wrong;

pub use entry::Entry;
pub use error::SettingsError;
pub use file::read_entries;
pub use looks::{look_of, text_in};
pub use source_line::{SourceLine, lines_of};
pub use statement::{IsLine, RoleLine, SignsLine, Statement};
pub use tokens::tokens_of;
pub use wrong::{Fault, Wrong};
