//! Dirty flags of nodes, and the number of keys that were computed.
ghost use Rattle.std.specs.Prelude.{◌≡◌, ◌≤◌, ◌<◌, ◌+◌, ◌-◌, ◌^◌, [], ◌∷◌, ◌++◌, ℕ, false, min, true, IfNone, IfOk, IfSome, OnOk, OnErr, length, slice_index_or, slice_set};
ghost use Rattle.std.specs.String.{string_bytes};
ghost use Rattle.drf_sorter.specs.Keys.{key_by};
ghost use Rattle.drf_tree.specs.Family.{CanKey, key_for};
ghost use Rattle.drf_tree.specs.Marks.{Defers, marked_in};
ghost use Rattle.drf_tree.specs.Nodes.{is_holding};

use crate::node::{Place, Sum};
use drf_bundle::Quantities;
use drf_sorter::{Key, KeyCount};
use std::alloc::{AllocError, Global};
use std::marker::Model;

/// The dirty flag of each node, which is set if the key of the node can be stale, and the number of keys that were computed.
pub(crate) struct Marks {
    /// The dirty flag of each node.
    stale: Vec<bool>,
    /// The nodes to look at: each node whose flag is set, and perhaps nodes whose flag was cleared since.
    waiting: Vec<usize>,
    /// Whether a node is in `waiting`.
    listed: Vec<bool>,
    made: KeyCount,
}

impl Drop for Marks {
    fn drop(self) {
        let Marks {
            stale: _stale,
            waiting: _waiting,
            listed: _listed,
            made: _made,
        } = self;
    }
}

impl Model for Marks {
    ghost use Rattle.std.specs.Vec.{vec_capacity};
    ghost use Rattle.drf_tree.specs.Marks.{Flags, AreWaiting};

    ghost Value = { Flags };

    ghost view = { λ m. record { stale = m.stale.items; made = m.made } };

    ghost invariant = { λ m. AreWaiting m.stale.items m.listed.items m.waiting.items (vec_capacity m.waiting) };
}

impl Marks {
    pub(crate) fn new(alloc: Global) -> Marks
        ensures { result ≡ record { stale = []; made = 0 } }
    {
        Marks {
            stale: Vec::new(alloc),
            waiting: Vec::new(alloc),
            listed: Vec::new(alloc),
            made: KeyCount::new(),
        }
    }

    pub(crate) fn made(&self) -> u64
        ensures { result ≡ self.now.made }
    {
        self.made.made()
    }

    /// Returns the key of a sum and a name. The key is counted.
    pub(crate) fn key(&mut self, total: &Quantities, sum: &Sum, name: String) -> Key
        requires { CanKey total.now sum.now }
        ensures key { key_by result ≡ key_for total.now sum.now (string_bytes name) }
        ensures made { self.new.made ≡ min (self.old.made + 1) (2 ^ 64 - 1) }
        ensures no_less { self.old.made ≤ self.new.made }
        ensures stale { self.new.stale ≡ self.old.stale }
    {
        Key::new(
            &mut self.made,
            total,
            sum.weight,
            &sum.held,
            sum.count,
            name,
        )
    }

    /// Computes a key again from a sum. The key is counted.
    pub(crate) fn renew(&mut self, key: &mut Key, total: &Quantities, sum: &Sum)
        requires { CanKey total.now sum.now }
        ensures key { key_by key.new ≡ key_for total.now sum.now (key_by key.old).name }
        ensures made { self.new.made ≡ min (self.old.made + 1) (2 ^ 64 - 1) }
        ensures no_less { self.old.made ≤ self.new.made }
        ensures stale { self.new.stale ≡ self.old.stale }
    {
        key.renew(&mut self.made, total, sum.weight, &sum.held, sum.count);
    }

    /// Returns whether the dirty flag of a node is set.
    pub(crate) fn is_marked(&self, node: usize) -> bool
        ensures { result ≡ slice_index_or self.now.stale node false }
    {
        match self.stale.get(node) {
            Some(stale) => *stale,
            None => false,
        }
    }

    /// Returns whether so many nodes wait that sorting whole families is faster than moving each node.
    pub(crate) fn are_many(&self) -> bool {
        self.waiting.len() >= self.stale.len() / 4
    }

    /// Adds a node whose flag is not set, and reserves room for it in `waiting`. When out of memory, nothing changes.
    pub(crate) fn push(&mut self) -> Result<(), AllocError>
        ensures ok { OnOk result (self.new ≡ record self.old { stale = self.old.stale ++ false ∷ [] }) }
        ensures err { OnErr result (self.new ≡ self.old) }
    {
        let more = self.stale.len() + 1 - self.waiting.len();
        self.waiting.reserve(more)?;
        self.listed.reserve(1)?;
        self.stale.push(false)?;
        self.listed.push_reserved(false);
        Ok(())
    }

    /// Sets the dirty flag of a node. It never allocates.
    pub(crate) fn mark(&mut self, node: usize)
        requires { node < length self.old.stale }
        ensures flags { self.new ≡ record self.old { stale = slice_set self.old.stale node true } }
        ensures spends { Defers self.old self.new 1 }
    {
        self.stale[node] = true;
        if self.listed[node] {
            return;
        }
        self.listed[node] = true;
        self.waiting.push_reserved(node);
    }

    /// Clears the dirty flag of a node.
    pub(crate) fn forget(&mut self, node: usize)
        requires { node < length self.old.stale }
        ensures flags { self.new ≡ record self.old { stale = slice_set self.old.stale node false } }
        ensures spends { Defers self.old self.new 0 }
    {
        self.stale[node] = false;
    }

    /// Clears the dirty flag of a node for which it is set, and returns the node. Returns `None` if no flag is set.
    pub(crate) fn take(&mut self) -> Option<usize>
        ensures found { IfSome result (λ node. slice_index_or self.old.stale node false ≡ true) }
        ensures taken { IfSome result (λ node. self.new ≡ record self.old { stale = slice_set self.old.stale node false }) }
        ensures none { IfNone result (self.new ≡ self.old) }
        ensures clear { IfNone result (marked_in self.old.stale ≡ 0) }
    {
        while let Some(node) = self.waiting.pop() {
            self.listed[node] = false;
            if self.stale[node] {
                self.stale[node] = false;
                return Some(node);
            }
        }
        None
    }

    /// Sets the dirty flag of each node that holds something. The share of other nodes is 0, whatever the total is.
    pub(crate) fn mark_all(&mut self, places: &[Option<Place>], sums: &[Sum])
        requires places { length self.old.stale ≡ length places.now }
        requires sums { length self.old.stale ≡ length sums.now }
        ensures long { length self.new.stale ≡ length self.old.stale }
        ensures all { (i : ℕ) → is_holding places.now sums.now i ≡ true → slice_index_or self.new.stale i false ≡ true }
        ensures others { (i : ℕ) → is_holding places.now sums.now i ≡ false → slice_index_or self.new.stale i false ≡ slice_index_or self.old.stale i false }
        ensures made { self.new.made ≡ self.old.made }
    {
        for node in 0..places.len() {
            if !self.is_marked(node) && is_holding(places, sums, node) {
                self.mark(node);
            }
        }
    }

    pub(crate) fn copy(&self) -> Result<Marks, AllocError>
        ensures { IfOk result (λ marks. marks ≡ self.now) }
    {
        let alloc = *self.stale.allocator();
        let mut waiting = Vec::from_slice(alloc, self.waiting.as_slice())?;
        waiting.reserve(self.stale.len() - self.waiting.len())?;
        Ok(Marks {
            stale: Vec::from_slice(alloc, self.stale.as_slice())?,
            waiting,
            listed: Vec::from_slice(alloc, self.listed.as_slice())?,
            made: self.made.copy(),
        })
    }
}

/// Returns whether the number is that of a node that holds something.
fn is_holding(places: &[Option<Place>], sums: &[Sum], node: usize) -> bool
    requires place { node < length places.now }
    requires sum { node < length sums.now }
    ensures { result ≡ is_holding places.now sums.now node }
{
    places[node].is_some() && sums[node].holds_any()
}
