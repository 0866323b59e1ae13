//! `TreeSorter`, the sorter that the program uses: a tree of roles with running sums, which is put in order again only where it has
//! changed.
#![tactic(auto)]

mod booked;
mod charge;
mod copied;
mod family;
mod laws;
mod ledger;
mod lines;
mod marks;
mod members;
mod node;
mod order;
mod places;
mod route;
mod sorter;
mod tree;
mod walk;

pub use laws::walk_law;
pub use sorter::TreeSorter;
