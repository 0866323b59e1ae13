//! `Index`, which lists the numbers of the holdings of each agent or framework.
ghost use Rattle.std.specs.Prelude.{◌≡◌, ◌-◌, ℕ, List, [], ◌∷◌, ◌++◌, cond, true, not, filter, length, slice_get, ◌==◌, OnOk, OnErr, option_copied};
ghost use Rattle.std.specs.Option.{option_map_or};
ghost use Rattle.std.specs.VecDeque.{deque_len, deque_items};
ghost use Rattle.drf_role.specs.Text.{Text, same_text};
ghost use Rattle.drf_holdings.specs.Listed.{numbers_in};
ghost use Rattle.drf_holdings.specs.Rising.{IsRising};

use drf_hash::{ByName, HashKey};
use drf_role::Name;
use indexmap::IndexMap;
use std::alloc::{AllocError, Global};
use std::collections::VecDeque;

/// Returns whether a number is the first of the list.
fn is_first(numbers: &VecDeque<u64>, number: u64) -> bool
    ensures { result ≡ true → (rest : List ℕ) × (numbers.now.items ≡ number ∷ rest) }
{
    match numbers.front() {
        Some(first) => *first == number,
        None => false,
    }
}

/// Removes a number from a list of increasing numbers. It mostly is the first; otherwise the shorter part of the list moves.
fn take_out(numbers: &mut VecDeque<u64>, number: u64)
    ensures { IsRising numbers.old.items → numbers.new.items ≡ filter (λ m. not (m == number)) numbers.old.items }
{
    if is_first(numbers, number) {
        let _ = numbers.pop_front();
        return;
    }
    if let Ok(place) = numbers.binary_search(&number) {
        let _ = numbers.remove(place);
    }
}

// The capacity with which a list starts.
const ROOM: usize = 4;

// An empty list with a greater capacity is dropped.
const MOST_KEPT: usize = 16;

/// Returns whether a list is empty, and its capacity is so great that it is dropped.
fn is_spent(numbers: &VecDeque<u64>) -> bool
    ensures { result ≡ true → numbers.now.items ≡ [] }
{
    numbers.is_empty() && MOST_KEPT < numbers.capacity()
}

/// Lists of numbers, by name. A small list that becomes empty is kept, because its name usually gets a number again soon. Before there are
/// more than `most` lists, the empty ones are dropped. Then `most` is set to twice the number of the others, plus 8.
#[derive(Drop)]
pub(crate) struct Index {
    pub(crate) lists: ByName<VecDeque<u64>>,
    most: usize,
}

impl Index {
    /// Returns an index without numbers. The hashes of names begin with `key`.
    pub(crate) fn new(alloc: Global, key: HashKey) -> Index
        ensures { (name : Text) → numbers_in result name ≡ [] }
    {
        Index {
            lists: IndexMap::with_hasher(alloc, key),
            most: 8,
        }
    }

    pub(crate) fn alloc(&self) -> Global {
        *self.lists.allocator()
    }

    /// Returns the key that the hashes of names begin with.
    pub(crate) fn key(&self) -> HashKey {
        *self.lists.hasher()
    }

    /// Returns the numbers of a name, in the order in which they were added. If there are none, returns `None` or an empty list.
    pub(crate) fn list(&self, name: &Name) -> Option<&VecDeque<u64>>
        ensures { option_map_or deque_items (option_copied result) [] ≡ numbers_in self.now name.now }
    {
        self.lists.get(name)
    }

    /// Returns the last of the numbers of a name.
    pub(crate) fn last(&self, name: &Name) -> Option<u64>
        ensures { result ≡ slice_get (numbers_in self.now name.now) (length (numbers_in self.now name.now) - 1) }
    {
        let numbers = self.list(name)?;
        numbers.back().copied()
    }

    /// Drops the empty lists if there are `most` lists.
    fn make_room(&mut self)
        ensures { (n : Text) → numbers_in self.new n ≡ numbers_in self.old n }
    {
        if self.lists.len() < self.most {
            return;
        }
        self.lists.retain(
            |_name: &Name, numbers: &mut VecDeque<u64>| -> bool
                ensures { (result ≡ not (deque_len numbers.old == 0)) × (numbers.new ≡ numbers.old) }
            { !numbers.is_empty() },
        );
        self.most = self.lists.len().saturating_mul(2).saturating_add(8);
    }

    /// Appends a number to those of a name. When out of memory, the numbers of each name stay the same.
    pub(crate) fn add(&mut self, name: &Name, number: u64) -> Result<(), AllocError>
        ensures ok { OnOk result ((n : Text) → numbers_in self.new n ≡ numbers_in self.old n ++ cond (same_text name.now n) (number ∷ []) []) }
        ensures err { OnErr result ((n : Text) → numbers_in self.new n ≡ numbers_in self.old n) }
    {
        if let Some(numbers) = self.lists.get_mut(name) {
            numbers.push_back(number)?;
            return Ok(());
        }
        self.make_room();
        let mut numbers = VecDeque::with_capacity(*self.lists.allocator(), ROOM)?;
        numbers.push_back_reserved(number);
        self.lists.insert(name.copy()?, numbers)?;
        Ok(())
    }

    /// Removes a number from those of a name, which must be increasing. It never allocates.
    pub(crate) fn remove(&mut self, name: &Name, number: u64)
        ensures { IsRising (numbers_in self.old name.now) → (n : Text) → numbers_in self.new n
            ≡ cond (same_text name.now n) (filter (λ m. not (m == number)) (numbers_in self.old n)) (numbers_in self.old n) }
    {
        let Some(numbers) = self.lists.get_mut(name) else {
            return;
        };
        take_out(numbers, number);
        if is_spent(numbers) {
            self.lists.swap_remove(name);
        }
    }
}
