//! Shows the content of an allocator to people and programs: its numbers, agents, clients, nodes, weights, limits, offers, tasks, filters and how
//! full its tables are, as aligned tables or as lines of JSON.
#![tactic(auto)]

mod agents;
mod aligned;
mod cells;
mod clients;
mod consumption;
mod filters;
mod form;
mod had;
mod holdings;
mod json;
mod laws;
mod limits;
mod nodes;
mod numbers;
mod shown;
mod stream;
mod tables;
mod text;
mod weights;

pub use form::Form;
pub use laws::show_example;
pub use stream::run_show;
pub use text::show;
