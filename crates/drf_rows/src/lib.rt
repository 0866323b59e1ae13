//! The types of events, replies and state, and in `specs/` the definition of what the allocator does.
#![tactic(auto)]

mod copied;
mod event;
mod limits;
mod release;
mod reply;
mod report;
mod roles;
mod rows;
mod shared;
mod table;
mod tasks;
mod worth;

pub use copied::{Copied, copy_all};
pub use event::{Accept, Decline, Event};
pub use limits::{LARGEST_AMOUNT, LATEST_TIMESTAMP, LONGEST_FILTER, Limits};
pub use release::Release;
pub use reply::{OfferLine, Refusal, Reply};
pub use report::{NodeLine, Report};
pub use roles::is_among;
pub use rows::{
    AgentRow, ClientRow, FilterRow, FrameworkRow, LimitRow, OfferRow, Rows, TaskRow, WeightRow,
};
pub use shared::SharedTable;
pub use table::Table;
pub use tasks::{MOST_TASKS, TaskList};
pub use worth::is_worth_an_offer;
