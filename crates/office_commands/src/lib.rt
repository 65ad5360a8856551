//! The commands on the office in a file: over a connection to it, and from the opening of the file
//! to its closing.
//!
//! `command` runs one. `init` makes the office or opens it, `apply` does the acts of a JSON array,
//! `resume` resumes the open run, `certificate` prints a certificate, `record_import` adds the
//! records of a CSV file, and `export` writes a register. Each ends with an [`Exit`], what the
//! program reports to the caller: the exit status, and the line on standard error. `office_files`
//! runs a command on the office's file, by what the database returned as it opened the file, and
//! closes it; `service` does so for a service, and `gate` for one behind a policy. `next_command` has the law from one command over a
//! file to the next, and `file_history` that of any number of them. `closed_file` says what the
//! file contains without its log. `damage` says what is found where the disk returns something else
//! than was written.
#![tactic(auto)]

mod apply;
mod certificate;
mod closed_file;
mod command;
mod damage;
mod exit;
mod exit_line;
mod export;
mod file_history;
mod gate;
mod init;
mod next_command;
mod office_files;
mod record_import;
mod resume;
mod service;

pub use apply::apply_on;
pub use certificate::certificate_on;
pub use closed_file::law_of_a_closed_file;
pub use command::{report_listening, run_on};
pub use damage::law_of_found_damage;
pub use exit::Exit;
pub use exit_line::report;
pub use file_history::{law_of_each_run, law_of_file_histories};
pub use gate::gate_opened;
pub use init::init_on;
pub use next_command::{law_of_a_killed_command, law_of_each_command, law_of_the_next_command};
pub use office_files::{FilesLeft, Opened, apply_opened, run_opened};
pub use office_wire::Routes;
pub use resume::resume_on;
pub use service::serve_opened;
