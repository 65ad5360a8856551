//! The tree of the office in memory: disposal schedules, classes, aggregations, record heads and
//! their events.
//!
//! It is a tree of the terms in `office_records`, and a reading is what the definitions there say.
//! What the readings ask for is derived and stored beside the rows.
//!
//! Each act on the tree comes as a pair: `check_..` says why it is refused, with the least number,
//! or `None`; `apply_..` asks that its check gives `None` and makes the change, or answers
//! [`Memory`] and leaves the tree as it was. Readings take no memory. Rows that were stored come
//! back by `put_..`, which asks that the tree stays sound, and that what never changes in a row
//! stays.
//!
//! The office goes by `check_..` and `put_..`: it stores the rows that an act writes, and puts the
//! same rows in. `apply_..` is for callers that store nothing, as a plan. Both make one private
//! change: a push of a new row, or an edit of one that is there.
//!
//! A tree is its rows and what is derived from them (`Derived`): a directory of the rows, and
//! what is cached of each record.
#![tactic(auto)]

mod addition_refusals;
mod additions;
mod bits;
mod candidates;
mod change_refusals;
mod changes;
mod child_lists;
mod class_index;
mod class_lists;
mod classification;
mod confirmation;
mod derived;
mod directory;
mod due_days;
mod groups;
mod lookup;
mod new_rows;
mod per_record;
mod record_cache;
mod record_caches;
mod ref_index;
mod renewal;
mod row_edits;
mod row_puts;
mod rows;
mod schedule_numbers;
mod soundness;
mod spent;
mod summary;
mod tree;
mod tree_parts;

pub use office_base::Memory;
pub use office_records::{
    Action, AggNo, Aggregation, Class, Classified, Code, Confirmation, Event, Receipt, Record,
    RecordNo, Review, Schedule, Status, Text, Trigger,
};
pub use row_puts::put_row;
pub use tree::Tree;
