//! Removes the free slots from lists of slots.
ghost use Rattle.std.specs.Prelude.{◌≡◌, get_or, map, IfOk, OnErr, OnOk, Some};
ghost use Rattle.drf_hash.specs.Slots.{filled, ranks_of};

use crate::key::HashKey;
use indexmap::IndexMap;
use std::alloc::{AllocError, Global};
use std::hash::Hash;

/// Returns, for each slot, how many slots before it are in use.
fn ranks<X>(alloc: Global, slots: &[Option<X>]) -> Result<Vec<usize>, AllocError>
    ensures { IfOk result (λ ranks. ranks.items ≡ ranks_of 0 slots.now) }
{
    let mut ranks = Vec::with_capacity(alloc, slots.len())?;
    let mut count = 0;
    for slot in slots {
        ranks.push(count)?;
        if slot.is_some() {
            count += 1;
        }
    }
    Ok(ranks)
}

/// Returns the number that a slot has once the free slots are removed, or 0 if there is no such slot.
fn moved(ranks: &[usize], place: usize) -> usize
    ensures { result ≡ get_or ranks.now place 0 }
{
    match ranks.get(place) {
        Some(rank) => *rank,
        None => 0,
    }
}

/// Replaces each slot number of a map by the number that the slot has once the free slots are removed.
fn move_all<K: Eq + Hash>(places: &mut IndexMap<K, usize, HashKey>, ranks: &[usize])
    ensures { places.new.entries ≡ map (λ e. (e.0, get_or ranks.now e.1 0)) places.old.entries }
{
    for at in 0..places.len() {
        let place = moved(ranks, places[at]);
        places[at] = place;
    }
}

/// Removes the free slots. The others keep their order.
fn keep_filled<X: Drop>(slots: &mut Vec<Option<X>>)
    ensures { slots.new.items ≡ map Some (filled slots.old.items) }
{
    slots.retain(|slot| slot.is_some());
}

/// Removes the free slots of a list, and updates the map from keys to slot numbers. If memory runs out, neither changes.
pub fn close_free_slots<K: Eq + Hash, X: Drop>(
    slots: &mut Vec<Option<X>>,
    places: &mut IndexMap<K, usize, HashKey>,
) -> Result<(), AllocError>
    ensures slots { OnOk result (slots.new.items ≡ map Some (filled slots.old.items)) }
    ensures places { OnOk result (places.new.entries ≡ map (λ e. (e.0, get_or (ranks_of 0 slots.old.items) e.1 0)) places.old.entries) }
    ensures slots_stay { OnErr result (slots.new.items ≡ slots.old.items) }
    ensures places_stay { OnErr result (places.new.entries ≡ places.old.entries) }
{
    let ranks = ranks(*slots.allocator(), slots)?;
    move_all(places, &ranks);
    keep_filled(slots);
    Ok(())
}
