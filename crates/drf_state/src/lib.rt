//! Writes the state of an allocator as text, and reads it back into an allocator that can be resumed.
#![tactic(auto)]

mod clients;
mod digest;
mod epoch;
mod fault;
mod fitting;
mod laws;
mod lined;
mod placing;
mod reader;
mod restoring;
mod text;
mod writer;

pub use epoch::begin_epoch;
pub use fault::{RestoreError, StateError, StateFault};
pub use laws::state_law;
pub use reader::read_state;
pub use restoring::Restoring;
pub use writer::write_state;
