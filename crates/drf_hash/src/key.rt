//! The key of the hashes of names.
ghost use Rattle.std.specs.Prelude.{◌≡◌};
ghost use Rattle.std.specs.Hash.FoldHasher as folding;

use crate::name_hasher::NameHasher;
use drf_role::{Name, Role};
use indexmap::IndexMap;
use std::hash::{BuildHasher, FoldHasher, Hasher};

/// The key of the hashes of names: a hasher that has already read the key's bytes. Users who choose names but do not know the key
/// can find few names with equal hashes. The key affects how long a call takes, but never its result.
#[derive(Clone, Copy)]
pub struct HashKey {
    pub start: NameHasher,
}

impl HashKey {
    /// Returns a key that is always the same, for names that nobody chooses in order to slow calls down.
    pub fn known() -> HashKey
        ensures { result.start.fold ≡ folding.initial }
    {
        HashKey::of(FoldHasher::default())
    }

    /// Returns the key of a hasher that has read the key's bytes.
    fn of(fold: FoldHasher) -> HashKey
        ensures { result.start.fold ≡ fold }
    {
        HashKey {
            start: NameHasher { fold },
        }
    }

    /// Returns the key of these bytes, of which at least 16 should be random.
    pub fn from_bytes(bytes: &[u8]) -> HashKey
        ensures { result.start.fold ≡ folding.write folding.initial bytes.now }
    {
        let mut fold = FoldHasher::default();
        fold.write(bytes);
        HashKey::of(fold)
    }
}

impl BuildHasher for HashKey {
    type Hasher = NameHasher;

    ghost build_hasher = { λ key. key.start };

    fn build_hasher(&self) -> NameHasher {
        self.start
    }
}

/// A map from names, ordered by insertion.
pub type ByName<V> = IndexMap<Name, V, HashKey>;

/// A map from roles, ordered by insertion.
pub type ByRole<V> = IndexMap<Role, V, HashKey>;
