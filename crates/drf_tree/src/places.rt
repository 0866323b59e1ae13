//! The places of nodes by number.
ghost use Rattle.std.specs.Prelude.{◌≡◌, ◌≤◌, ◌<◌, ◌++◌, ◌∷◌, [], false, IfOk, None, OnOk, Some, length, option_copied, slice_set};
ghost use Rattle.drf_tree.specs.Nodes.{is_node, place_at};

use crate::node::Place;
use std::alloc::{AllocError, Global};
use std::marker::Model;

/// The place of each node by its number. A number without a place is free. The smallest free number is used first, so that the list does
/// not grow over time.
#[derive(Drop)]
pub(crate) struct Places {
    items: Vec<Option<Place>>,
    /// All numbers below this one are in use.
    first_free: usize,
}

impl Model for Places {
    ghost use Rattle.std.specs.Prelude.{◌-◌, vec_capacity, vec_len};
    ghost use Rattle.drf_tree.specs.Places.{AreTaken, Numbered};

    ghost Value = { Numbered };

    ghost view = { λ p. record { items = p.items.items; room = vec_capacity p.items - vec_len p.items } };

    ghost invariant = { λ p. AreTaken p.items.items p.first_free };
}

impl Places {
    ghost use Rattle.drf_tree.specs.Places.{AreTaken};

    pub(crate) fn new(alloc: Global) -> Places
        ensures { result.items ≡ [] }
    {
        Places {
            items: Vec::new(alloc),
            first_free: 0,
        }
    }

    pub(crate) fn len(&self) -> usize
        ensures { result ≡ length self.now.items }
    {
        self.items.len()
    }

    pub(crate) fn as_slice(&self) -> &[Option<Place>]
        ensures { result.now ≡ self.now.items }
    {
        self.items.as_slice()
    }

    /// Returns the place with this number, if there is one.
    pub(crate) fn get(&self, node: usize) -> Option<&Place>
        ensures { option_copied result ≡ place_at self.now.items node }
    {
        self.items.get(node)?.as_ref()
    }

    /// Reserves room for one more number.
    pub(crate) fn reserve(&mut self) -> Result<(), AllocError>
        ensures same { self.new.items ≡ self.old.items }
        ensures room { OnOk result (0 < self.new.room) }
    {
        Ok(self.items.reserve(1)?)
    }

    /// Adds a free number. Room for it must have been reserved.
    pub(crate) fn push_reserved(&mut self)
        requires { 0 < self.old.room }
        ensures { self.new.items ≡ self.old.items ++ None ∷ [] }
    {
        self.items.push_reserved(None);
    }

    /// Returns the smallest free number other than the root's, or the length of the list if none is free.
    pub(crate) fn free_number(&self) -> usize
        requires { 0 < length self.now.items }
        ensures within { result ≤ length self.now.items }
        ensures free { is_node self.now.items result ≡ false }
        ensures first { AreTaken self.now.items result }
    {
        for node in self.first_free.max(1)..self.items.len() {
            if self.items[node].is_none() {
                return node;
            }
        }
        self.items.len()
    }

    /// Sets the place of a number. All numbers below it must be in use.
    pub(crate) fn put(&mut self, node: usize, place: Place)
        requires there { node < length self.old.items }
        requires first { AreTaken self.old.items node }
        ensures { self.new.items ≡ slice_set self.old.items node (Some place) }
    {
        self.items[node] = Some(place);
        self.first_free = node + 1;
    }

    /// Frees a number.
    pub(crate) fn free(&mut self, node: usize)
        requires { node < length self.old.items }
        ensures { self.new.items ≡ slice_set self.old.items node None }
    {
        self.items[node] = None;
        self.first_free = self.first_free.min(node);
    }

    pub(crate) fn copy(&self) -> Result<Places, AllocError>
        ensures { IfOk result (λ places. places.items ≡ self.now.items) }
    {
        let mut items = Vec::with_capacity(*self.items.allocator(), self.items.len())?;
        for place in &self.items {
            items.push(copy_of_place(place)?)?;
        }
        Ok(Places {
            items,
            first_free: self.first_free,
        })
    }
}

fn copy_of_place(place: &Option<Place>) -> Result<Option<Place>, AllocError>
    ensures { IfOk result (λ copy. copy ≡ place.now) }
{
    match place {
        Some(place) => Ok(Some(place.copy()?)),
        None => Ok(None),
    }
}
