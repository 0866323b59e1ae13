//! The position of each client among findings.
ghost use Rattle.std.specs.Prelude.{◌≡◌, Some, None, cond, IfOk, OnOk};
ghost use Rattle.drf_role.specs.Path.{Path, same_path};
ghost use Rattle.drf_why.specs.Pick.{is_of_client};
ghost use Rattle.drf_why.specs.Places.{ArePlacesIn, place_in};

use drf_explain::Finding;
use drf_hash::HashKey;
use drf_role::ClientPath;
use indexmap::IndexMap;
use std::alloc::{AllocError, Global};

/// The index of the first finding of each client among some findings, by the client's path.
#[derive(Drop)]
pub(crate) struct Places {
    pub(crate) by_client: IndexMap<ClientPath, usize, HashKey>,
}

impl Places {
    fn new(alloc: Global, key: HashKey) -> Places
        ensures { (path : Path) → place_in result path ≡ None }
    {
        Places {
            by_client: IndexMap::with_hasher(alloc, key),
        }
    }

    /// Stores an index for a client, and replaces an earlier one.
    fn put(&mut self, client: &ClientPath, place: usize) -> Result<(), AllocError>
        ensures { OnOk result ((path : Path) → place_in self.new path ≡ cond (same_path client.now path) (Some place) (place_in self.old path)) }
    {
        let client = client.copy()?;
        self.by_client.insert(client, place)?;
        Ok(())
    }

    /// Stores an index for the client of a finding, if the finding has a client.
    fn put_finding(&mut self, finding: &Finding, place: usize) -> Result<(), AllocError>
        ensures { OnOk result ((path : Path) → place_in self.new path ≡ cond (is_of_client path finding.now) (Some place) (place_in self.old path)) }
    {
        match finding {
            Finding::Suppressed { client } => self.put(client, place),
            Finding::Tried { client, .. } => self.put(client, place),
            _ => Ok(()),
        }
    }

    /// Returns the indexes of all clients of some findings. Goes from the last finding to the first, so that the first index of a client remains.
    pub(crate) fn of(
        alloc: Global,
        key: HashKey,
        findings: &[Finding],
    ) -> Result<Places, AllocError>
        ensures { IfOk result (ArePlacesIn findings.now) }
    {
        let mut places = Places::new(alloc, key);
        for i in (0..findings.len()).rev() {
            places.put_finding(&findings[i], i)?;
        }
        Ok(places)
    }

    /// Returns the index of a client's first finding, if there is one.
    pub(crate) fn get(&self, client: &ClientPath) -> Option<usize>
        ensures { result ≡ place_in self.now client.now }
    {
        self.by_client.get(client).copied()
    }
}
