//! Who may do what: names, their rights by kind of act and class, what each name signs, and the
//! rules of four eyes.
//!
//! [`Policy::permit`] decides whether a name may do an act in the office as it stands, and if not
//! for which reason, of several the first. `Permits` in `specs/` says what that means, and reads
//! without any code. Nothing here does an act.
#![tactic(auto)]

mod act_kind;
mod alone;
mod class_pattern;
mod denial;
mod eyes;
mod grants;
mod kind;
pub mod laws;
mod office_view;
mod permit;
mod person;
mod policy;
mod power;
mod reading;
mod right;
mod rule;
mod sending;
mod subjects;
mod trace;
mod traces;

pub use class_pattern::ClassPattern;
pub use denial::Denial;
pub use grants::Grants;
pub use kind::Kind;
pub use office_view::OfficeView;
pub use person::{Person, SignIn};
pub use policy::{Policy, are_apart};
pub use power::Power;
pub use reading::Reading;
pub use right::{ClassList, Right};
pub use rule::{Rule, Rules};
