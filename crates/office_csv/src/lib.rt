//! What comes in and goes out as CSV (RFC 4180): the rows of an import, and the lines of registers.
//!
//! [`import_reader`] reads a text of CSV, [`read_header`] its first line, which names the columns,
//! and [`next_row`] a row after another. [`row_in`] gives the seven fields of a row, and
//! [`read_import_row`] the new record that they ask for, or why they ask for none. Of a register,
//! [`write_due_header`], [`write_overdue_header`] and [`write_entry_header`] write the columns,
//! [`write_due_line`], [`write_overdue_line`] and [`write_entry_line`] a line after another.
#![tactic(auto)]

mod due_register;
mod entry_register;
mod fields;
mod import_row;
mod import_text;
mod overdue_register;

pub use due_register::{write_due_header, write_due_line};
pub use entry_register::{write_entry_header, write_entry_line};
pub use import_row::{ImportRow, read_import_row};
pub use import_text::{RowStop, import_reader, next_row, read_header, row_in};
pub use overdue_register::{write_overdue_header, write_overdue_line};
