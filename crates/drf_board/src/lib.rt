//! The board: reports of shares that viewers read without the master's lock. A viewer never sees an older report after a newer one.
#![tactic(auto)]

mod author;
mod board;
mod entry;
mod history;
mod prefix;
mod sheet;
mod shown;
mod slate;
mod viewer;

pub use board::Board;
pub use entry::Entry;
pub use history::Naming;
pub use prefix::Told;
pub use sheet::Sheet;
pub use shown::{Pane, Shows};
pub use slate::Slate;
pub use std::marker::Brand;
pub use viewer::{ViewFault, Viewer};
