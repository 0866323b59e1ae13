//! Theorems on the content of a sorter: what it holds for given rows, and what its replies then say about these rows.
#![tactic(auto)]

mod laws;

pub use laws::{content_law, put_law, roles_law};
