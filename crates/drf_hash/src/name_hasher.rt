//! The hasher of names.
ghost use Rattle.std.specs.Prelude.{◌≡◌};
ghost use Rattle.std.specs.Hash.FoldHasher as folding;
ghost use Rattle.drf_hash.specs.Reading.{with_length, read_text};

use std::hash::{FoldHasher, Hasher};

/// The greatest length of a name, in bytes, that `FoldHasher` itself keeps apart from the name's bytes.
const SHORT: usize = 8;

/// The standard library's `FoldHasher`, but the length of a name of more than 8 bytes is read before the name. Otherwise users
/// could choose names of different lengths that collide whatever the key is.
#[derive(Clone, Copy)]
pub struct NameHasher {
    pub fold: FoldHasher,
}

impl NameHasher {
    /// Reads the length of a name, modulo 256, if it is more than 8 bytes.
    fn read_length(&mut self, length: usize)
        ensures { self.new.fold ≡ with_length self.old.fold length }
    {
        if length <= SHORT {
            return;
        }
        self.fold.write(&[(length % 256) as u8]);
    }
}

impl Hasher for NameHasher {
    ghost write = { read_text };

    ghost finish = { λ h. folding.finish h.fold };

    fn finish(&self) -> u64 {
        self.fold.finish()
    }

    fn write(&mut self, bytes: &[u8]) {
        self.read_length(bytes.len());
        self.fold.write(bytes);
    }
}
