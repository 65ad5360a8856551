//! The journal: one line after another, each with the SHA-256 of the line before.
//!
//! A line is one object of JSON that begins with the SHA-256 of the line before and with its own
//! number: `{"before":"76..","line":811,`. The [`Head`] of a journal is the number of its last line
//! and the SHA-256 of that line's bytes. Whoever knows the head knows all lines: none can be changed,
//! cut out, added or moved under the same head, unless two texts have one SHA-256 ([`laws`]).
//!
//! [`check_journal`] reads the bytes of a journal, names the first line that is wrong, and returns
//! the head. It looks at braces and quotes alone: whether a line is good JSON otherwise, and whether
//! it tells the truth, is outside. [`open_journal`] also returns where the whole lines end: what
//! follows is a torn line, which a stop left. A journal of today's gate goes on in this form.
//!
//! A [`Journal`] writes lines behind a head: a request ([`Asked`]) before its first act, its answer
//! ([`Answered`]) before that goes out, and the other lines of a gate, as a refusal ([`Refused`]) or a
//! reading ([`Reading`]). Each may report what precedes it in the file ([`Preceding`]). Texts of JSON
//! are judged by the reader of the crate `json` and written anew, without white space, so that this
//! reader gets from each line what was noted. A line that was not written whole poisons the journal:
//! it must be opened again.
#![tactic(auto)]

mod answered;
mod asked;
mod body;
mod came;
mod check;
mod contents;
mod gate;
mod head;
mod journal;
pub mod laws;
mod line;
mod link;
mod members;
mod nesting;
mod notes;
mod open;
mod preceding;
mod reading;
mod refused;
mod show;
mod text_error;
mod unwritten;
mod vault;
mod wrong;

pub use answered::Answered;
pub use asked::Asked;
pub use body::Body;
pub use came::Came;
pub use check::{Checked, check_journal};
pub use contents::ContentsPlace;
pub use gate::{Begun, Clock, Ended, Settings};
pub use head::Head;
pub use journal::Journal;
pub use line::{Line, head_of};
pub use link::follow;
pub use open::{Opened, open_journal};
pub use preceding::{FileBefore, Preceding};
pub use reading::Reading;
pub use refused::Refused;
pub use unwritten::Unwritten;
pub use vault::{Stored, Upload};
pub use wrong::{Wrong, WrongLine};
