//! The command line: what its arguments ask for, what each command reads, writes and reports, and its exit status.
#![tactic(auto)]

mod arguments;
mod check;
mod commands;
mod drive;
mod explain;
mod file_name;
mod laws;
mod line;
mod lint;
mod messages;
mod refusal;
mod refused_line;
mod request;
mod run;
mod saving;
mod show;
mod start;
mod tasks;
mod unread;

pub use commands::command;
pub use laws::{journals_law, resume_law, saved_rows_law};
pub use messages::report_no_arguments;
pub use request::{Request, Scope, Task};
pub use saving::save;
pub use tasks::perform;
