//! The terms of records: what a schedule, a class, an aggregation, a record's head and an event
//! are, and the tree of them as definitions.
//!
//! An aggregation holds records and other aggregations, at most eight deep. Each record has a
//! **class**: its own, else that of the nearest aggregation above it that has one. Its **plan**
//! is its own disposal schedule, else the schedule of its class. The plan's trigger gives the
//! **start day**, and its retention period and calendar offset give the **due day**, on which the
//! record may be disposed of. A trigger may wait for the record's **event**, as the end of a
//! contract: there is no due day before one is recorded.
//!
//! What a hold can be put on, and its columns, are here too: holds themselves are in
//! `office_holds`.
//!
//! Texts, codes and words are read into types that have their form at any time. What the
//! definitions mean is stated as [`laws`]. The tree in memory, which computes all this, is in
//! `office_tree`.
#![tactic(auto)]

mod action;
mod aggregation;
mod class;
mod classified;
mod code;
mod conditions;
mod confirmation;
mod event;
mod formed;
mod head;
mod hold_row;
pub mod laws;
mod schedule;
mod status;
mod target;
mod text;
mod trigger;

pub use action::Action;
pub use aggregation::{AggNo, Aggregation};
pub use class::Class;
pub use classified::Classified;
pub use code::Code;
pub use conditions::first_of;
pub use confirmation::same_action;
pub use event::Event;
pub use formed::{
    well_formed_aggregations, well_formed_classes, well_formed_events, well_formed_records,
    well_formed_schedules,
};
pub use head::{Confirmation, Receipt, Record, RecordNo, Review};
pub use hold_row::HoldRow;
pub use schedule::Schedule;
pub use status::Status;
pub use target::Target;
pub use text::Text;
pub use trigger::Trigger;
