//! The allocator as a value: it applies events and returns replies.
#![tactic(auto)]

mod allocator;
mod cluster;
mod cycle;
mod events;
mod refusal;
mod stepped;

pub use allocator::Core;
pub use cycle::explain::Explanations;
pub use stepped::Stepped;
