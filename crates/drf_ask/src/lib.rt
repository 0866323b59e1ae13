//! Runs that also answer questions, which are input lines that begin with `?`. An answer is computed from the current
//! state. Questions are not events: they change neither the replies to event lines nor the allocator.
#![tactic(auto)]

mod answer;
mod asking;
mod engine;
mod laws;
mod list;
mod question;
mod table;
mod text;

pub use engine::run_asked;
pub use laws::asked_law;
