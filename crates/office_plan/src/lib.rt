//! The two commands of the office that need no stored office: the due day of a period, and the due
//! days of a plan file.
//!
//! [`due_to`] reads a unit, a count, an offset and a start day as people write them, and writes the
//! due day. [`plan_to`] reads a plan file, which lists schedules, classes, aggregations, records
//! and their events line by line, and then writes each record's number and due day. Both work over
//! a writer whose bytes a contract can name, and write nothing where what they read is refused.
#![tactic(auto)]

mod due;
mod lines;
mod parts;
mod plan;
mod plan_line;
mod plan_step;
mod plan_words;
mod text;

pub use due::due_to;
pub use office_base::Stop as PlanStop;
pub use plan::plan_to;
