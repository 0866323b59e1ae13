//! Runs files of event lines, each on its own thread, on one master, and writes the master's journal.
#![tactic(auto)]

mod files;
mod journal;
mod lines;
mod run;
mod script;

pub use run::run_drive;
pub use script::{BadLine, Misfit, ScriptFault};
