//! Names, labels, roles, and paths of clients and nodes.
#![tactic(auto)]

mod joined;
mod label_text;
mod laws;
mod name;
mod parts;
mod path;
mod role;
mod word;

pub use laws::client_path_law;
pub use name::{Label, Name, NameFault};
pub use parts::Parts;
pub use path::{ClientPath, NodePath};
pub use role::{Role, RoleFault};
