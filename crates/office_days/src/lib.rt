//! When a record is due, and by when it is to be confirmed.
//!
//! A disposal schedule says how long a record is kept: a **period** (7 years, 30 days) that
//! begins on a start day, and a calendar **offset** that moves the end of the period on to the
//! next first of a month, of a quarter, or of one month of the year. An end that is such a first
//! day stays, and so does any end if the offset asks for no such day. What comes out is the **due
//! day**, the first day on which the record may be disposed of.
//!
//! The **deadline** is a count of days after the due day ([`ConfirmDays`]): the last day on which
//! the record is confirmed in time.
//!
//! Days are civil days of the Gregorian calendar, with no clock and no time zone, and contracts
//! see each as its day number, where 1970-01-01 is 0. No call here takes memory, and [`due_day`]
//! and [`deadline`] never refuse.
#![tactic(auto)]

mod confirm_days;
mod date;
mod day;
mod due;
mod last_day;
mod month;
mod offset;
mod offset_day;
mod period;
mod text;
mod unit;

pub use confirm_days::{ConfirmDays, deadline, read_confirm_days};
pub use day::Day;
pub use due::{DueDay, due_day};
pub use last_day::Deadline;
pub use month::Month;
pub use office_base::Refusal;
pub use offset::Offset;
pub use period::Period;
pub use unit::Unit;
