//! A life of an office: the stints in which a program runs over one file, each stopped anywhere.
//!
//! A stint opens the office in two files, does acts or resumes the open run, and closes the files;
//! any call of the disk may be the last that succeeds. The machine then crashes, and the next stint
//! opens what is left. [`live`] runs such a life over any disk that can crash, from no file on, and
//! [`find`] opens the office at its end. Its contract is the headline over files: the office is at
//! the state after the answered acts of all stints, and at most one more act of each.
#![tactic(auto)]

mod closing;
mod finding;
mod fuses;
mod life;
mod opening;
mod reports;
mod stints;
mod work;

pub use closing::close;
pub use finding::{FindStop, find, law_of_openings};
pub use fuses::{Fuses, law_of_honest_disks};
pub use life::{crash, live, live_and_find};
pub use opening::{open, remains_by};
pub use reports::{Remains, Report, StintEnd, Task};
pub use stints::stint;
