//! The rows of an allocator as a list, and the rule that says when a row may follow others.
#![tactic(auto)]

mod fault;
mod saved;

pub use fault::RowFault;
pub use saved::{Head, SavedRow, StateLine};
