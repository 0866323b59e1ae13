//! Audits agents: the total of each, its free resources, and how many offers and tasks it has, computed by several threads.
#![tactic(auto)]

mod agents;
mod held;
mod line;

pub use agents::{AuditLine, audit};
pub use line::write_audit_line;
