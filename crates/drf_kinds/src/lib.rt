//! Sets as resource values: finite sets of numbers and of labels, which can be joined if they are disjoint.
#![tactic(auto)]

mod interval;
mod items;
mod merge;
mod ranges;
mod sweep;

pub use interval::Interval;
pub use items::Items;
pub use ranges::{Ranges, RangesFault};
