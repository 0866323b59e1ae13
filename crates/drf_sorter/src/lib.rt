//! The order of clients: the trait `Sorter`, its simplest implementation, and exact shares.
#![tactic(auto)]

mod candidate;
mod client;
mod examples;
mod key;
mod laws;
mod lines;
mod plain;
mod share;
mod sorter;
mod weights;

pub use client::Client;
pub use examples::{order_of_three_example, share_of_a_role_example};
pub use key::{Holding, Key, KeyCount};
pub use laws::{
    arrival_law, change_law, client_order_law, everyone_is_served_law, lowest_terms_law,
    share_order_law, sibling_law, weight_law,
};
pub use lines::{NodeLines, node_line};
pub use plain::PlainSorter;
pub use share::Share;
pub use sorter::Sorter;
pub use weights::{DEFAULT_WEIGHT, Weights};
