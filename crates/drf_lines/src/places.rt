//! A cache with a fixed number of places: the hash of a text chooses its place, which keeps the last value put there.
ghost use Rattle.std.specs.Prelude.{◌<◌};

use std::alloc::{AllocError, Global};
use std::hash::{FoldHasher, Hasher};
use std::marker::Model;

/// The number of places.
const PLACES: usize = 2048;

/// Returns the place of a text, which its hash chooses.
pub(crate) fn place_of(text: &str) -> usize
    ensures { result < 2048 }
{
    let mut hasher = FoldHasher::default();
    hasher.write(text.as_bytes());
    hasher.finish() as usize % PLACES
}

/// The last value of each place. The list grows when a place is first used.
#[derive(Drop)]
pub(crate) struct Places<T> {
    items: Vec<Option<T>>,
}

impl<T> Model for Places<T> {
    ghost use Rattle.std.specs.Prelude.{⊤, ◌≤◌, length};

    ghost Value = { ⊤ };

    ghost view = { λ _. tt };

    ghost invariant = { λ p. length p.items.items ≤ 2048 };
}

impl<T: Drop> Places<T> {
    /// Creates a cache that is empty.
    pub(crate) fn new(alloc: Global) -> Places<T> {
        Places {
            items: Vec::new(alloc),
        }
    }

    /// Returns the value at a place.
    pub(crate) fn at(&self, place: usize) -> Option<&T> {
        self.items.get(place)?.as_ref()
    }

    /// Puts a value at a place. Fails if there is no memory to grow the list.
    pub(crate) fn put(&mut self, place: usize, read: T) -> Result<(), AllocError>
        requires { place < 2048 }
    {
        while self.items.len() <= place {
            self.items.push(None)?;
        }
        self.items[place] = Some(read);
        Ok(())
    }
}
