//! Runs an allocator over a stream of lines. It can also check a journal, audit the agents, explain the next cycle, or
//! return the allocator after the lines, from which a later run resumes.
#![tactic(auto)]

mod answer;
mod audit;
mod checker;
mod device;
mod due;
mod engine;
mod explain;
mod fault;
mod files;
mod journal;
mod laws;
mod open_line;
mod resume;
mod session;

pub use answer::reply_to_parted_line;
pub use audit::run_audit;
pub use device::{Device, write_whole};
pub use engine::{ProgramSorter, run, serve};
pub use explain::run_explain;
pub use fault::RunFault;
pub use files::{FileBytes, SystemFiles, random_key};
pub use journal::{Verdict, verify};
pub use laws::{cut_law, glue_law, line_law, reply_lines_law, verdict_law};
pub use open_line::{OpenLine, line_feed_in};
pub use resume::advance;
pub use session::Session;
