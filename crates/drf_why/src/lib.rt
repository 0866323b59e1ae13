//! Runs that explain the next cycle without leaving any client out: for each client on each agent, for one agent, for one client, or in sums.
#![tactic(auto)]

mod explanations;
mod grants;
mod laws;
mod passer;
mod passer_line;
mod pick;
mod places;
mod shares;
mod summary;
mod taking;
mod tally;
mod turn;
mod whom;

pub use explanations::write_each;
pub use laws::{passers_law, summary_law};
pub use summary::write_cycle_summary;
pub use whom::Whom;
