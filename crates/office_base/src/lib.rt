//! What all crates of the office share, and what says nothing of records: the refusals, why work
//! stops, bytes in and out, numerals, and rows of tables back to maps and lists.
//!
//! The office refuses an act for one of twenty-one reasons ([`Refusal`]). Work that takes memory
//! stops with [`Memory`] where an allocation is refused, work that reads or writes with [`Io`], and
//! work that does both with [`Stop`].
//!
//! A table by key represents a map, a table by number a list. A table's rows come in the order of
//! its key. They are damaged where that order, or the run of the numbers 1, 2, .., is broken: then
//! there is no map, or no list, of which they are the rows.
#![tactic(auto)]

mod build;
mod entity_number;
mod input;
mod memory;
mod numeral;
mod output;
mod refusal;
mod stop;

pub use build::{Rebuild, follows, ordered, push_keyed, push_numbered};
pub use entity_number::read_entity_number;
pub use input::read_whole;
pub use memory::Memory;
pub use numeral::read_numeral;
pub use output::{Io, is_interrupted, put_bytes, put_parts, write_out};
pub use refusal::Refusal;
pub use stop::Stop;
