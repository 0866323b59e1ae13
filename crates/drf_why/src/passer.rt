//! Which clients pass over a client (`specs/Passers`).
ghost use Rattle.std.specs.Prelude.{◌≡◌, [], fold, map, slice_get, OnOk};
ghost use Rattle.std.specs.List.{flat_map};
ghost use Rattle.std.specs.Map.{lookup};
ghost use Rattle.std.specs.Option.{option_map, option_map_or};
ghost use Rattle.indexmap.specs.IndexMap.{insert_entry};
ghost use Rattle.drf_role.specs.Path.{same_path};
ghost use Rattle.drf_why.specs.Passers.{next_agents, passer_of, taker_in, with_passer};
ghost use Rattle.drf_why.specs.Places.{findings_of};

use crate::taking::taker_in;
use drf_bundle::Bundle;
use drf_explain::Finding;
use drf_hash::HashKey;
use drf_role::ClientPath;
use indexmap::IndexMap;
use std::alloc::{AllocError, Global};
use std::marker::Model;

/// The clients that pass over one client, each once, in the order in which they first do, with the number of agents on which they do. A
/// number does not rise above 2^64 - 1.
#[derive(Drop)]
pub struct Passers {
    by_client: IndexMap<ClientPath, u64, HashKey>,
}

impl Model for Passers {
    ghost use Rattle.std.specs.Prelude.{List, map};
    ghost use Rattle.drf_why.specs.Passers.{Passer, passer_of};

    ghost Value = { List Passer };

    ghost view = { λ p. map passer_of p.by_client.entries };
}

/// Returns the number of agents of a client plus 1, or 1 if the client is not stored.
fn next_agents(by_client: &IndexMap<ClientPath, u64, HashKey>, client: &ClientPath) -> u64
    ensures { result ≡ next_agents (lookup (same_path client.now) by_client.now.entries) }
{
    match by_client.get(client) {
        Some(agents) => agents.saturating_add(1),
        None => 1,
    }
}

/// Adds 1 to the number of agents of a client. Returns an error if memory runs out.
fn count_in(
    by_client: &mut IndexMap<ClientPath, u64, HashKey>,
    client: &ClientPath,
) -> Result<(), AllocError>
    ensures { OnOk result (by_client.new.entries
        ≡ insert_entry same_path by_client.old.entries client.now (next_agents (lookup (same_path client.now) by_client.old.entries))) }
{
    let agents = next_agents(by_client, client);
    let client = client.copy()?;
    by_client.insert(client, agents)?;
    Ok(())
}

impl Passers {
    /// Returns an empty map. Clients are hashed with `key`.
    pub(crate) fn new(alloc: Global, key: HashKey) -> Passers
        ensures { result ≡ [] }
    {
        Passers {
            by_client: IndexMap::with_hasher(alloc, key),
        }
    }

    /// Returns the map from clients to numbers of agents.
    pub(crate) fn entries(&self) -> &IndexMap<ClientPath, u64, HashKey>
        ensures { map passer_of result.now.entries ≡ self.now }
    {
        &self.by_client
    }

    /// Returns the client at an index, and on how many agents it passes the other one over.
    pub fn get(&self, place: usize) -> Option<(&ClientPath, u64)>
        ensures { option_map (λ p. record { client = p.0.now; agents = p.1 }) result ≡ slice_get self.now place }
    {
        match self.by_client.get_index(place) {
            Some((client, agents)) => Some((client, *agents)),
            None => None,
        }
    }

    /// Adds an agent on which that client passes the other one over.
    fn count(&mut self, client: &ClientPath) -> Result<(), AllocError>
        ensures { OnOk result (self.new ≡ with_passer self.old client.now) }
    {
        count_in(&mut self.by_client, client)?;
        Ok(())
    }

    /// Counts the client of a finding, if the finding grants it a part of the bundle.
    fn count_taker(&mut self, finding: &Finding, bundle: &Bundle) -> Result<(), AllocError>
        ensures { OnOk result (self.new ≡ fold with_passer self.old (taker_in bundle.now finding.now)) }
    {
        match taker_in(finding, bundle) {
            Some(client) => self.count(client),
            None => Ok(()),
        }
    }

    /// Counts the clients of those findings that grant a part of the bundle.
    pub(crate) fn count_takers(
        &mut self,
        findings: &[&Finding],
        bundle: &Bundle,
    ) -> Result<(), AllocError>
        ensures { OnOk result (self.new ≡ fold with_passer self.old (flat_map (taker_in bundle.now) (findings_of findings.now))) }
    {
        for finding in findings {
            self.count_taker(finding, bundle)?;
        }
        Ok(())
    }
}
