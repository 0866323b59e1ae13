//! Explains the next cycle: what it would offer to each client, and why it would offer nothing.
#![tactic(auto)]

mod finding;
mod gates;
mod laws;
mod line;
mod suppression;

pub use finding::{Finding, Outcome, TurnReported};
pub use gates::Gates;
pub use laws::{
    each_is_reported_law, each_is_untouched_law, explained_example, explained_law, reasons_law,
};
pub use line::{write_explained_line, write_explained_lines};
pub use suppression::suppressed;
