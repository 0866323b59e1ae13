//! A registry of agents or frameworks, in order of registration. Removing one leaves a free slot, so that no other has
//! to move.
ghost use Rattle.std.specs.Prelude.{◌≡◌, ◌*◌, ◌<◌, ◌≤◌, false, [], ◌∷◌, ◌++◌, is_some, length, slice_get, None, Some, OnOk};
ghost use Rattle.std.specs.List.{IsDistinct};
ghost use Rattle.std.specs.Map.{lookup, keys_of, remove_entry};
ghost use Rattle.std.specs.Option.{option_copied};
ghost use Rattle.drf_hash.specs.Slots.{filled};
ghost use Rattle.drf_role.specs.Text.{same_text};

pub(crate) mod free_part;
mod free_slots;
pub(crate) mod members;
pub(crate) mod new_name;
pub(crate) mod settling;

use crate::registry::free_slots::ranked;
use crate::registry::new_name::NewName;
use drf_hash::{ByName, HashKey, close_free_slots};
use drf_role::Name;
use indexmap::IndexMap;
use std::alloc::{AllocError, Global};
use std::marker::Model;

/// Agents or frameworks in order of registration, found by name. Free slots are closed when one is added and at least half of all
/// slots are free, and those of agents also before a cycle goes through all agents.
#[derive(Drop)]
pub(crate) struct Registry<T> {
    pub(crate) slots: Vec<Option<(Name, T)>>,
    // The slot of each name.
    pub(crate) places: ByName<usize>,
    // The number of slots in use.
    pub(crate) live: usize,
}

impl<T> Model for Registry<T> {
    ghost use Rattle.drf_tables.specs.registry.Registered.{Registered};

    ghost Value = { Registered T };

    ghost use Rattle.std.specs.Prelude.{◌-◌, length, min, vec_capacity};
    ghost use Rattle.drf_hash.specs.Slots.{filled, IsRegistry};
    ghost use Rattle.drf_role.specs.Text.{same_text};
    ghost use Rattle.indexmap.specs.IndexMap.{spare};
    ghost use Rattle.drf_tables.specs.registry.Registered.{name_of};

    ghost view = { λ r. record { entries = filled r.slots.items; slots = length r.slots.items; room = min (vec_capacity r.slots - length r.slots.items) (spare r.places) } };

    ghost invariant = { λ r. IsRegistry same_text name_of r.slots.items r.places.entries r.live };
}

impl<T: Drop> Registry<T> {
    /// Returns an empty registry.
    pub(crate) fn new(alloc: Global, key: HashKey) -> Registry<T>
        ensures { result.entries ≡ [] }
    {
        Registry {
            slots: Vec::new(alloc),
            places: IndexMap::with_hasher(alloc, key),
            live: 0,
        }
    }

    /// Returns the memory allocator.
    pub(crate) fn allocator(&self) -> &Global {
        self.slots.allocator()
    }

    /// Returns the key of the hashes of names.
    pub(crate) fn key(&self) -> HashKey {
        *self.places.hasher()
    }

    /// Returns the number of entries.
    pub(crate) fn len(&self) -> usize
        ensures { result ≡ length self.now.entries }
    {
        self.live
    }

    /// Returns whether the name is registered.
    pub(crate) fn has(&self, name: &Name) -> bool
        ensures { result ≡ is_some (lookup (same_text name.now) self.now.entries) }
    {
        self.places.contains_key(name)
    }

    /// Returns the value of a name.
    pub(crate) fn get(&self, name: &Name) -> Option<&T>
        ensures value { option_copied result ≡ lookup (same_text name.now) self.now.entries }
    {
        let Some(place) = self.places.get(name) else {
            return None;
        };
        let Some(entry) = &self.slots[*place] else {
            return None;
        };
        Some(&entry.1)
    }

    /// Returns the entry at a place, by registration.
    pub(crate) fn at(&self, place: usize) -> &(Name, T)
        requires { place < length self.now.entries }
        ensures { slice_get self.now.entries place ≡ Some result.now }
    {
        let slot = ranked(&self.slots, self.live, place);
        self.slots[slot].as_ref().unwrap()
    }

    /// Returns all slots in order, including free ones.
    pub(crate) fn slots(&self) -> &[Option<(Name, T)>]
        ensures entries { filled result.now ≡ self.now.entries }
        ensures apart { IsDistinct same_text (keys_of self.now.entries) }
    {
        &self.slots
    }

    /// Closes the free slots. If memory runs out, no entry changes.
    pub(crate) fn close(&mut self) -> Result<(), AllocError>
        ensures closed { OnOk result (self.new.slots ≡ length self.new.entries) }
        ensures same { self.new.entries ≡ self.old.entries }
    {
        if self.live < self.slots.len() {
            close_free_slots(&mut self.slots, &mut self.places)?;
        }
        Ok(())
    }

    /// Reserves memory for one more entry, so that `add` cannot fail. Afterwards at most half of all slots are free.
    pub(crate) fn reserve(&mut self) -> Result<(), AllocError>
        ensures ok { OnOk result (1 ≤ self.new.room) }
        ensures few { OnOk result (self.new.slots ≤ 2 * length self.new.entries) }
        ensures same { self.new.entries ≡ self.old.entries }
    {
        if self.live <= self.slots.len() / 2 {
            self.close()?;
        }
        self.slots.reserve(1)?;
        self.places.reserve(1)
    }

    /// Adds an entry after the others. It needs no memory.
    pub(crate) fn add(&mut self, name: NewName, added: T)
        requires room { 1 ≤ self.old.room }
        requires new { is_some (lookup (same_text name) self.old.entries) ≡ false }
        ensures { self.new.entries ≡ self.old.entries ++ (name, added) ∷ [] }
    {
        let (key, name) = name.into_two();
        let _ = self.places.insert(key, self.slots.len()).unwrap();
        self.slots.push_reserved(Some((name, added)));
        self.live += 1;
    }

    /// Removes the entry of a name, if there is one.
    pub(crate) fn remove(&mut self, name: &Name)
        ensures { self.new.entries ≡ remove_entry (same_text name.now) self.old.entries }
    {
        let Some(place) = self.places.swap_remove(name) else {
            return;
        };
        self.slots[place] = None;
        self.live -= 1;
    }
}
