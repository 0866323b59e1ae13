//! The reply to a `report` event.
ghost use Rattle.std.specs.Prelude.{◌≡◌, IfOk};

use crate::shared::SharedTable;
use drf_bundle::Quantities;
use drf_role::NodePath;
use std::alloc::AllocError;

/// What the clients of a node of the role tree hold together. Fractions are in lowest terms; a share of nothing is 0/1.
pub struct NodeLine {
    pub path: NodePath,
    pub held: Quantities,
    /// The dominant share.
    pub share: (u128, u128),
    /// The dominant share divided by the weight of the node.
    pub weighted: (u128, u128),
    /// How many offers the clients of the node have received.
    pub count: u64,
}

impl Drop for NodeLine {
    fn drop(self) {
        let NodeLine {
            path: _path,
            held: _held,
            share: _share,
            weighted: _weighted,
            count: _count,
        } = self;
    }
}

/// The total of all agents, and a line for each node of the registered clients, in the order of their paths.
pub struct Report {
    pub total: Quantities,
    pub nodes: SharedTable<NodeLine>,
}

impl Drop for Report {
    fn drop(self) {
        let Report {
            total: _total,
            nodes: _nodes,
        } = self;
    }
}

impl Report {
    /// Returns an equal report that shares the lines. Fails with `AllocError` if memory runs out.
    pub fn copy(&self) -> Result<Report, AllocError>
        ensures { IfOk result (λ copy. copy ≡ self.now) }
    {
        Ok(Report {
            total: self.total.copy()?,
            nodes: self.nodes.copy()?,
        })
    }
}
