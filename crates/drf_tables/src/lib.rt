//! The rows of the allocator as tables, with what is derived from them: the free resources of each agent, the cluster's
//! total, and what roles consume. Contracts see the rows, the reserved room, and whether free resources and consumption
//! are known.
#![tactic(auto)]

mod agents;
mod cycle;
mod filters;
mod limits;
mod offers;
mod registry;
mod reservations;
mod roles;
mod room;
mod tables;

pub use drf_holdings::Taken;
pub use drf_rows::Release;
pub use registry::new_name::NewName;
pub use room::is_too_large;
pub use tables::restoring::offers_with;
pub use tables::{Left, Tables};
