//! Holds: what must not be destroyed, whatever its schedule says.
//!
//! A hold has a code and targets: classes, aggregations and records. It is in force from its
//! placing until it is lifted; a lifted hold and its targets stay on record. A hold in force covers
//! a record where one of its targets is the record, an aggregation that contains it at any height,
//! or the record's class. A record is **held** while at least one hold covers it. A hold blocks
//! destruction, and not the sending of a copy.
//!
//! While a hold is in force it is counted for each of its targets. So ten counts at most show
//! whether a record is held, however many holds there are: that of the record, of each aggregation
//! above it, of which there are up to eight, and of its class.
#![tactic(auto)]

mod change_steps;
mod counted_changes;
mod counts;
mod held_class;
mod hold;
mod hold_acts;
mod hold_refusals;
mod hold_rows;
mod hold_soundness;
mod holds;
pub mod laws;
mod least_hold;
mod numbers;
mod sets;

pub use hold::Hold;
pub use holds::Holds;
pub use office_records::{HoldRow, Target};
