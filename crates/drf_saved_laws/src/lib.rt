//! Theorems about saved rows, proved of the definition alone.
#![tactic(auto)]

mod examples;
mod laws;

pub use examples::{faults_example, state_example};
pub use laws::{epoch_law, resume_law, row_law, saved_law, saved_runs_law};
