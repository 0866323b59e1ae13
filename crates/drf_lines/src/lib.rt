//! Reads events and the rows of a saved state from lines of JSON, and writes events, replies, errors and rows as such
//! lines.
#![tactic(auto)]

mod agents;
mod amounts;
mod clients;
mod event_line;
mod fault;
mod fraction;
mod frameworks;
mod held;
mod known;
mod last_report;
mod laws;
mod limits;
mod line;
mod member;
mod node;
mod number;
mod object;
mod offers;
mod places;
mod plain;
mod range;
mod reply;
mod report;
mod reservations;
mod resources;
mod state_line;
mod tasks;
mod usual;
mod weights;
mod words;

pub use agents::push_agent_row;
pub use event_line::{push_event, write_event};
pub use fault::{LineError, LineFault};
pub use fraction::write_fraction;
pub use frameworks::push_framework_row;
pub use held::{push_filter_row, push_offer_row, push_task_row};
pub use laws::{held_lines_example, no_state_lines_example, one_line_law, state_lines_example};
pub use limits::push_limit_row;
pub use line::{LineReader, read_event};
pub use reply::{push_fault, push_reply, write_fault, write_reply};
pub use state_line::{push_end, push_head, push_row};
pub use weights::push_weight_row;
