//! The table of offers, by number, and of tasks, by framework and name, with indexes of the holdings on each agent and of each framework.
#![tactic(auto)]

mod by_number;
mod holdings;
mod index;
mod names;
mod offers;
mod tasks;

pub use by_number::InOrder;
pub use holdings::{Holdings, Taken};
pub use tasks::Task;
