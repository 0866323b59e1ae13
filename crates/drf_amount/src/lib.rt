//! Amounts of resources that can be joined and taken apart, and a pool from which numbered parts of an amount are taken
//! and given back.
#![tactic(auto)]

mod algebra;
mod parts;
mod pool;
mod same;
mod scalar;

pub use algebra::{Algebra, AlgebraFault};
pub use pool::{Pool, PoolFault};
pub use same::is_same;
pub use scalar::Scalar;
