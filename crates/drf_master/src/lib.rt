//! The master: one allocator that many threads call. Its journal is a shuffle of the receipts of its callers.
#![tactic(auto)]

mod book;
mod desk;
mod driving;
mod follower;
mod gate;
mod master;
mod matching;
mod pass;
mod same;

pub use book::{Book, Next};
pub use desk::{Answer, Desk, MasterSorter};
pub use driving::{DriveFault, Driven, Undriven, drive};
pub use gate::{Gate, OpenGate};
pub use master::{CallFault, CloseRefused, Master};
pub use matching::CloseFault;
pub use pass::{Pass, Receipt};
