//! `Names`, which finds the tasks of a framework by name.
ghost use Rattle.std.specs.Prelude.{◌≡◌, [], ◌∷◌, ◌++◌, ◌&&◌, cond, IfSome, IfNone, OnOk, OnErr};
ghost use Rattle.std.specs.Option.{option_to_list};
ghost use Rattle.drf_role.specs.Text.{Text, same_text};
ghost use Rattle.drf_holdings.specs.Listed.{serials_in, TaskKey};

use drf_hash::{ByName, HashKey};
use drf_role::Name;
use indexmap::IndexMap;
use std::alloc::{AllocError, Global};

/// The serial numbers of tasks, by framework and name. A framework is in the map only while it has a task.
#[derive(Drop)]
pub(crate) struct Names {
    pub(crate) frameworks: ByName<ByName<u64>>,
}

impl Names {
    /// Returns an empty map. The hashes of names begin with `hash_key`.
    pub(crate) fn new(alloc: Global, hash_key: HashKey) -> Names
        ensures { (key : TaskKey) → serials_in result key ≡ [] }
    {
        Names {
            frameworks: IndexMap::with_hasher(alloc, hash_key),
        }
    }

    /// Returns the serial number of the framework's task with this name.
    pub(crate) fn get(&self, framework: &Name, name: &Name) -> Option<u64>
        ensures { option_to_list result ≡ serials_in self.now (framework.now, name.now) }
    {
        let tasks = self.frameworks.get(framework)?;
        tasks.get(name).copied()
    }

    /// Returns the serial number of some task of the framework, or `None` if it has no task.
    pub(crate) fn last(&self, framework: &Name) -> Option<u64>
        ensures some { IfSome result (λ serial. (name : Text) × (serials_in self.now (framework.now, name) ≡ serial ∷ [])) }
        ensures none { IfNone result ((name : Text) → serials_in self.now (framework.now, name) ≡ []) }
    {
        let tasks = self.frameworks.get(framework)?;
        let place = tasks.len().checked_sub(1)?;
        let (_, serial) = tasks.get_index(place)?;
        Some(*serial)
    }

    /// Adds a task of a framework. When out of memory, nothing changes.
    pub(crate) fn add(
        &mut self,
        framework: &Name,
        name: &Name,
        serial: u64,
    ) -> Result<(), AllocError>
        requires { serials_in self.old (framework.now, name.now) ≡ [] }
        ensures ok { OnOk result ((key : TaskKey) → serials_in self.new key
            ≡ serials_in self.old key ++ cond (same_text framework.now key.0 && same_text name.now key.1) (serial ∷ []) []) }
        ensures err { OnErr result ((key : TaskKey) → serials_in self.new key ≡ serials_in self.old key) }
    {
        let name = name.copy()?;
        if let Some(tasks) = self.frameworks.get_mut(framework) {
            tasks.insert(name, serial)?;
            return Ok(());
        }
        let mut tasks = IndexMap::with_hasher(
            *self.frameworks.allocator(),
            *self.frameworks.hasher(),
        );
        tasks.insert(name, serial)?;
        self.frameworks.insert(framework.copy()?, tasks)?;
        Ok(())
    }

    /// Removes the framework's task with this name, and returns its serial number. It never allocates.
    pub(crate) fn take(&mut self, framework: &Name, name: &Name) -> Option<u64>
        ensures found { option_to_list result ≡ serials_in self.old (framework.now, name.now) }
        ensures left { (key : TaskKey) → serials_in self.new key
            ≡ cond (same_text framework.now key.0 && same_text name.now key.1) [] (serials_in self.old key) }
    {
        let tasks = self.frameworks.get_mut(framework)?;
        let serial = tasks.swap_remove(name);
        if tasks.is_empty() {
            self.frameworks.swap_remove(framework);
        }
        serial
    }
}
