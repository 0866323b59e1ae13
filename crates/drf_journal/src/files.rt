//! Files that are read by name.

use crate::fault::RunFault;
use drf_hash::HashKey;
use std::fs;
use std::io::ErrorKind;
use std::random::RandomSource;
use std::rt::Files;

/// A source of files that are read by name.
pub trait FileBytes {
    ghost use Rattle.std.specs.Prelude.{◌≡◌, ℕ, List, IfOk, IfErr};
    ghost use Rattle.drf_journal.specs.Files.{Content, IsFileFault, MayHave, unknown};

    /// What is known of the file with this name.
    ghost known: { Self → List ℕ → Content } = { λ _ _. unknown };

    /// Returns all bytes of a file. Errors: `Read` if it cannot be read, `Memory` if memory ran out.
    fn bytes(&mut self, name: &str) -> Result<Vec<u8>, RunFault>
        ensures whole { IfOk result (λ bytes. MayHave (known self.old name.now) bytes.items) }
        ensures fault { IfErr result (IsFileFault (known self.old name.now)) }
        ensures same { known self.new ≡ known self.old };

    /// Returns the key with which the hashes of names begin in a program that reads these files. The contracts do not mention it.
    fn hash_key(&self) -> HashKey {
        HashKey::known()
    }
}

/// Returns a random key, or the fixed key if the system gives no random bytes. The contracts do not mention it.
pub fn random_key<R: RandomSource>(rt: &R) -> HashKey {
    let mut bytes = [0; 16];
    match rt.fill_bytes(&mut bytes) {
        Ok(()) => HashKey::from_bytes(&bytes),
        Err(_) => HashKey::known(),
    }
}

/// The files of the operating system. Contracts know nothing of their contents.
#[derive(Drop)]
pub struct SystemFiles<'a, R> {
    pub rt: &'a R,
    pub key: HashKey,
}

impl<R: Files + AllocGlobal> FileBytes for SystemFiles<'_, R> {
    fn bytes(&mut self, name: &str) -> Result<Vec<u8>, RunFault> {
        match fs::read(self.rt, name) {
            Ok(bytes) => Ok(bytes),
            Err(error) => match error.kind() {
                ErrorKind::OutOfMemory => Err(RunFault::Memory),
                _ => Err(RunFault::Read),
            },
        }
    }

    fn hash_key(&self) -> HashKey {
        self.key
    }
}
