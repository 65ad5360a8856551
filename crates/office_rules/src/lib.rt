//! The rules of the office: what it has, what each act asks for and does, and the disposal run.
//!
//! The office has the tree with its records, the holds, the runs, the entries, the certificates and
//! its day; the contents of records are beside it. Each of the eighteen **acts** has a table of the
//! conditions for which it is refused, of which the least is answered, and an effect. A **disposal
//! run** goes through the ready records by number, one a step, and closes with its certificate. A
//! run that is stopped and resumed ends as one that never stopped: that is a law of the definitions
//! here.
//!
//! The definitions are in `specs/`, what they promise in [`laws`]. The types are those that acts,
//! answers and rows have; nothing here decides or stores anything.
#![tactic(auto)]

mod act;
mod answer;
mod change;
mod content;
mod content_text;
mod copies;
mod digest;
mod due_row;
mod entry;
mod entry_row;
mod formed_acts;
mod intake;
pub mod laws;
mod outcome;
mod parts;
mod read_fault;
mod record_view;
mod row_source;
mod rows;
mod run;
mod table_row;
mod tables;

pub use act::Act;
pub use answer::{Answer, has_refusal};
pub use change::{Change, Decision};
pub use content::Content;
pub use content_text::{as_part, read_content};
pub use copies::{copy_code, copy_codes, copy_entry, copy_plan, copy_text, copy_texts};
pub use digest::{digest_of, read_digest};
pub use due_row::DueRow;
pub use entry::{Entry, RunNo};
pub use entry_row::EntryRow;
pub use intake::Intake;
pub use outcome::Outcome;
pub use parts::{both, read_code, read_words};
pub use read_fault::ReadFault;
pub use record_view::RecordView;
pub use rows::{RecordRow, RowWrite};
pub use run::Run;
pub use table_row::Row;
pub use tables::Tables;
