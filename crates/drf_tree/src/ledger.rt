//! The clients of a tree by their paths, the total and the weights. Removing a client leaves a free slot, so no other client moves.
ghost use Rattle.std.specs.Prelude.{◌≡◌, ◌*◌, ◌≤◌, ◌++◌, ◌∷◌, [], IfOk, IsOk, IsTrue, OnErr, OnOk, false, length, map, true};
ghost use Rattle.drf_hash.specs.Slots.{IsRegistry};
ghost use Rattle.drf_hash.specs.SlotLaws.{registry-prop};
ghost use Rattle.drf_role.specs.Path.{same_path};
ghost use Rattle.drf_tree.specs.Booked.{client_of, path_of, seen_slot};

mod changes;

use crate::booked::{Booked, leaf_in};
use crate::tree::ROOT;
use drf_bundle::Quantities;
use drf_hash::{HashKey, close_free_slots};
use drf_role::{ClientPath, NodePath, Role};
use drf_sorter::{Client, Weights};
use indexmap::IndexMap;
use std::alloc::{AllocError, Global};

/// The clients in the order in which they were added, the total of the cluster, and the weights of roles. When a client is added and at
/// least half of all slots are free, the free slots are closed first.
pub(crate) struct Ledger {
    slots: Vec<Option<Booked>>,
    // The slot of each client.
    places: IndexMap<ClientPath, usize, HashKey>,
    // The number of slots that are in use.
    live: usize,
    total: Quantities,
    weights: Weights,
    ghost registry: { IsRegistry same_path path_of (map seen_slot slots.items) places.entries live } by { registry-prop same_path path_of (map seen_slot slots.items) places.entries live },
}

impl Drop for Ledger {
    fn drop(self) {
        let Ledger {
            slots: _slots,
            places: _places,
            live: _live,
            total: _total,
            weights: _weights,
        } = self;
    }
}

impl Ledger {
    ghost use Rattle.drf_hash.specs.Slots.{filled, slot_of};
    ghost use Rattle.drf_rows.specs.Held.{weight_of};
    ghost use Rattle.drf_sorter.specs.Content.{empty, has_client, has_weight, with_client, with_weight, without_client};
    ghost use Rattle.drf_tree.specs.Ledger.{ledger_content, rows_in};

    /// Returns a ledger with no clients, an empty total and no weights. Hashes of paths begin with `key`.
    pub(crate) fn new(alloc: Global, key: HashKey) -> Ledger
        ensures { ledger_content result ≡ empty }
    {
        Ledger::with(alloc, key, Quantities::empty(alloc), Weights::new(alloc))
    }

    /// Returns a ledger with no clients, and with this total and these weights.
    fn with(alloc: Global, key: HashKey, total: Quantities, weights: Weights) -> Ledger
        ensures { ledger_content result ≡ record { clients = []; total = total; weights = weights.rows.items } }
    {
        Ledger {
            slots: Vec::new(alloc),
            places: IndexMap::with_hasher(alloc, key),
            live: 0,
            total,
            weights,
        }
    }

    pub(crate) fn alloc(&self) -> Global {
        *self.slots.allocator()
    }

    /// Returns the total of the cluster.
    pub(crate) fn total(&self) -> &Quantities
        ensures { result.now ≡ self.now.total }
    {
        &self.total
    }

    /// Returns the weight of a node, in thousandths.
    pub(crate) fn weight_of(&self, node: &NodePath) -> u64
        ensures { result ≡ weight_of self.now.weights.rows.items node.now }
    {
        self.weights.of(node)
    }

    /// Returns the slot of the client with this path.
    pub(crate) fn row_of(&self, path: &ClientPath) -> Option<usize>
        ensures { result ≡ slot_of same_path path_of path.now (rows_in self.now) }
    {
        match self.places.get(path) {
            Some(place) => Some(*place),
            None => None,
        }
    }

    /// Returns the guess of the node of the client in a slot, or the root if there is none.
    pub(crate) fn leaf_at(&self, row: Option<usize>) -> usize {
        match row {
            Some(row) if row < self.slots.len() => leaf_in(&self.slots[row]),
            _ => ROOT,
        }
    }

    /// Closes the free slots if they are at least half of all slots. When out of memory, nothing changes.
    fn close(&mut self) -> Result<(), AllocError>
        ensures few { OnOk result (length self.new.slots.items ≤ 2 * self.new.live) }
        ensures same { ledger_content self.new ≡ ledger_content self.old }
    {
        if self.live <= self.slots.len() / 2 {
            close_free_slots(&mut self.slots, &mut self.places)?;
        }
        Ok(())
    }

    /// Appends a client. When out of memory, nothing changes.
    fn push(&mut self, booked: Booked) -> Result<(), AllocError>
        requires { has_client (ledger_content self.old) booked.client.path ≡ false }
        ensures ok { OnOk result (ledger_content self.new ≡ record (ledger_content self.old) { clients = filled (rows_in self.old) ++ client_of booked ∷ [] }) }
        ensures err { OnErr result (ledger_content self.new ≡ ledger_content self.old) }
    {
        let key = booked.client.path.copy()?;
        self.slots.reserve(1)?;
        self.places.insert(key, self.slots.len())?;
        self.slots.push_reserved(Some(booked));
        self.live += 1;
        Ok(())
    }

    /// Adds an active client that holds nothing, with a guess of its node. When out of memory, the clients stay the same.
    pub(crate) fn add(&mut self, path: ClientPath, leaf: usize) -> Result<(), AllocError>
        requires { has_client (ledger_content self.old) path ≡ false }
        ensures ok { OnOk result (ledger_content self.new ≡ with_client (ledger_content self.old) path) }
        ensures err { OnErr result (ledger_content self.new ≡ ledger_content self.old) }
    {
        self.close()?;
        let client = Client {
            path,
            active: true,
            held: Quantities::empty(self.alloc()),
            count: 0,
        };
        self.push(Booked { client, leaf })
    }

    /// Removes a client. Returns the guess of its node, or the root.
    pub(crate) fn remove(&mut self, path: &ClientPath) -> usize
        requires { has_client (ledger_content self.old) path.now ≡ true }
        ensures { ledger_content self.new ≡ without_client (ledger_content self.old) path.now }
    {
        let Some(place) = self.places.swap_remove(path) else {
            return ROOT;
        };
        let leaf = leaf_in(&self.slots[place]);
        self.slots[place] = None;
        self.live -= 1;
        leaf
    }

    pub(crate) fn set_total(&mut self, total: Quantities)
        ensures { ledger_content self.new ≡ record (ledger_content self.old) { total = total } }
    {
        self.total = total;
    }

    /// Sets the weight of a role, in thousandths. It allocates, and so can fail, only if the role has no weight yet; then nothing changes.
    pub(crate) fn set_weight(&mut self, role: &Role, weight: u64) -> Result<(), AllocError>
        requires weighs { 1 ≤ weight }
        requires light { weight ≤ 1000000 }
        ensures ok { OnOk result (ledger_content self.new ≡ with_weight (ledger_content self.old) role.now weight) }
        ensures err { OnErr result (ledger_content self.new ≡ ledger_content self.old) }
        ensures replaced { IsTrue (has_weight (ledger_content self.old) role.now) → IsOk result }
    {
        self.weights.set(role, weight)
    }

    /// Returns a copy without free slots.
    pub(crate) fn copy(&self) -> Result<Ledger, AllocError>
        ensures { IfOk result (λ copy. ledger_content copy ≡ ledger_content self.now) }
    {
        let total = self.total.copy()?;
        let weights = self.weights.copy()?;
        let mut copy = Ledger::with(self.alloc(), *self.places.hasher(), total, weights);
        for slot in &self.slots {
            if let Some(booked) = slot {
                copy.push(booked.copy()?)?;
            }
        }
        Ok(copy)
    }
}
