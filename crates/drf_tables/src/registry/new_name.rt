//! A name that is about to be registered.
ghost use Rattle.std.specs.Prelude.{◌≡◌, IfOk};
ghost use Rattle.drf_role.specs.Name.{IsName};

use drf_role::Name;
use std::alloc::AllocError;
use std::marker::Model;

/// A name that is about to be registered. It is stored twice, as the key of a map and as the name in a slot.
pub struct NewName {
    key: Name,
    name: Name,
}

impl Model for NewName {
    ghost use Rattle.std.specs.Prelude.{List, ℕ};

    ghost Value = { List ℕ };

    ghost view = { λ n. n.name };

    ghost use Rattle.std.specs.Prelude.{◌≡◌};

    ghost invariant = { λ n. n.key ≡ n.name };
}

// Written out, so that the proofs of callers that drop one see one call.
impl Drop for NewName {
    fn drop(self) {
        let NewName {
            key: _key,
            name: _name,
        } = self;
    }
}

impl NewName {
    /// Returns a new name with a copy of it.
    pub(crate) fn of(name: Name) -> Result<NewName, AllocError>
        ensures { IfOk result (λ named. named ≡ name) }
    {
        let key = name.copy()?;
        Ok(NewName { key, name })
    }

    /// Returns the key of the map, and the name for the slot.
    pub(crate) fn into_two(self) -> (Name, Name)
        ensures key { result.0 ≡ self }
        ensures name { result.1 ≡ self }
    {
        let NewName { key, name } = self;
        (key, name)
    }

    /// Proves that the name is valid. It does nothing.
    pub(crate) fn recall(&self)
        ensures { IsName self.now }
    {
        self.name.recall();
    }
}
