//! The office in memory.
//!
//! [`Machine`] decides acts, and makes what it decided, as the rules of the office say. What it
//! decides is a list of row writes, which the store does to its tables. [`Builder`] makes it of the
//! rows of those tables, which it takes in one after another as they are read.
#![tactic(auto)]

mod builder;
mod certificate;
mod decide;
mod disposal;
mod due_list;
mod due_rows;
mod entry_maps;
mod entry_rows;
mod examination;
mod from_tables;
mod hold_decisions;
mod keys;
mod loader;
mod machine;
mod marks;
mod min_refusal;
mod new_record;
mod open_run;
mod parts;
mod readings;
mod reclassification;
mod record_decisions;
mod run_certificate;
mod run_decisions;
mod run_step;
mod selection;
mod tree_decisions;
mod writes;

pub use builder::Builder;
pub use due_rows::DueRows;
pub use entry_rows::EntryRows;
pub use machine::Machine;
pub use office_base::Rebuild;
pub use office_records::{Aggregation, Class, Event, HoldRow, Schedule, Target};
pub use office_rules::{
    Act, Answer, Change, Content, Decision, DueRow, Entry, EntryRow, Intake, RecordRow, RecordView,
    Row, RowWrite, Run, Tables,
};
