//! The command line of the program `office`: its commands and their operands.
//!
//! [`read_words`] takes the words apart as `clap` does, and gives [`Words`], a command with its
//! operands as they were written. What is wrong with the words is said in the text of `clap`.
//! [`order_of`] then reads the operands of the commands on an office's file, before any file is
//! looked at. [`disk_of`] reads the variable that names the disk.
#![tactic(auto)]

mod command;
mod disk;
mod order;
mod register;
mod service;
mod words;

pub use disk::{Disk, UnknownDisk, disk_of};
pub use order::{Order, order_of};
pub use register::Register;
pub use words::{Words, read_words};
