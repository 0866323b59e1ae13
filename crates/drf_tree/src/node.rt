//! What the tree stores for a node: its place and its sums.
ghost use Rattle.std.specs.Prelude.{◌≡◌, [], IfOk};
ghost use Rattle.drf_bundle.specs.Quantities.{amount_of};
ghost use Rattle.drf_role.specs.Text.{Text};
ghost use Rattle.drf_tree.specs.Nodes.{holds_any};

use drf_bundle::Quantities;
use drf_role::{ClientPath, NodePath};
use std::alloc::{AllocError, Global};

/// The place of a node: its path, its parent, and the client that it is.
#[derive(Drop)]
pub(crate) struct Place {
    pub path: NodePath,
    /// The number of the parent.
    pub parent: usize,
    /// The path of the client, if the node is one.
    pub client: Option<ClientPath>,
}

impl Place {
    pub(crate) fn copy(&self) -> Result<Place, AllocError>
        ensures { IfOk result (λ place. place ≡ self.now) }
    {
        Ok(Place {
            path: self.path.copy()?,
            parent: self.parent,
            client: copy_of_client(&self.client)?,
        })
    }
}

fn copy_of_client(client: &Option<ClientPath>) -> Result<Option<ClientPath>, AllocError>
    ensures { IfOk result (λ path. path ≡ client.now) }
{
    match client {
        Some(path) => Ok(Some(path.copy()?)),
        None => Ok(None),
    }
}

/// The sums over the clients at and below a node, and the weight of the node.
#[derive(Drop)]
pub(crate) struct Sum {
    pub held: Quantities,
    /// The number of offers made to them.
    pub count: u64,
    /// The number of clients.
    pub clients: u64,
    /// The number of active clients.
    pub active: u64,
    /// The weight of the node, in thousandths.
    pub weight: u64,
}

impl Sum {
    /// Returns a copy of what the clients hold. If all amounts are 0, the copy has no labels, to save time. The postcondition does not say
    /// so.
    pub(crate) fn copy_held(&self, alloc: Global) -> Result<Quantities, AllocError>
        ensures { IfOk result (λ held. (label : Text) → amount_of held label ≡ amount_of self.now.held label) }
    {
        if !self.holds_any() {
            return Ok(Quantities::empty(alloc));
        }
        self.held.copy()
    }

    /// Returns the sum of no clients.
    pub(crate) fn of_none(alloc: Global, weight: u64) -> Sum
        ensures { result ≡ record { held = []; count = 0; clients = 0; active = 0; weight = weight } }
    {
        Sum {
            held: Quantities::empty(alloc),
            count: 0,
            clients: 0,
            active: 0,
            weight,
        }
    }

    /// Returns whether the clients hold something.
    pub(crate) fn holds_any(&self) -> bool
        ensures { result ≡ holds_any self.now }
    {
        let entries = self.held.entries();
        entries.iter().any(|entry| entry.amount.thousandths() > 0)
    }

    pub(crate) fn copy(&self) -> Result<Sum, AllocError>
        ensures { IfOk result (λ sum. sum ≡ self.now) }
    {
        Ok(Sum {
            held: self.held.copy()?,
            count: self.count,
            clients: self.clients,
            active: self.active,
            weight: self.weight,
        })
    }
}
