//! The calls of the program, together, for another program or a test that goes by them: its words,
//! its commands over a connection, and its connections. The program itself has nothing that can be
//! named from outside.
#![tactic(auto)]

pub use office_base::Io;
pub use office_command_line::{Order, Words, order_of, read_words};
pub use office_commands::run_on;
pub use office_plan::{PlanStop, due_to, plan_to};
pub use office_wire::{Service, serve_all};
