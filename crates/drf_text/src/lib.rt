//! Reads and writes bundles, quantities and weights as text.
#![tactic(auto)]

mod amount;
mod fault;
mod laws;
mod number;
mod piece;
mod read;
mod said;
mod trim;
mod values;
mod write;

pub use fault::TextFault;
pub use laws::{
    bundle_round_trip_law, bundle_text_example, quantities_round_trip_law, quantities_text_example,
    weight_round_trip_law,
};
pub use number::read_weight;
pub use read::{read_bundle, read_quantities};
pub use write::{push_bundle, push_quantities, write_bundle, write_quantities, write_weight};
