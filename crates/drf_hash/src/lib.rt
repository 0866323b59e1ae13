//! Hash tables whose keys are names that untrusted users choose, and lists with free slots.
#![tactic(auto)]

mod free_slots;
mod key;
mod name_hasher;

pub use free_slots::close_free_slots;
pub use key::{ByName, ByRole, HashKey};
pub use name_hasher::NameHasher;
