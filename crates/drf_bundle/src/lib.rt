//! Bundles of resources with their reservations, and quantities of scalars.
#![tactic(auto)]

mod bundle;
mod laws;
mod merge;
mod names;
mod parts;
mod quantities;
mod resource;
mod union;
mod value;

pub use bundle::Bundle;
pub use laws::{
    adding_law, amounts_law, bundle_join_law, bundle_part_law, bundle_rest_law, bundle_union_law,
    covering_law, lowering_law, quantities_law, setting_law, taking_law, units_law, zeros_law,
};
pub use names::Names;
pub use parts::Parts;
pub use quantities::{Entry, Quantities};
pub use resource::Resource;
pub use value::Value;
