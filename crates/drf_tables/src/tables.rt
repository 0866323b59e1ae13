//! The tables of the allocator: all rows, found by name, and what is derived from them.
#![tactic(auto, unfolding(crate::specs::Inside::rows_of))]

ghost use Rattle.std.specs.Prelude.{◌≡◌, ◌+◌, ◌<◌, ◌≤◌, ◌^◌, [], ◌∷◌, ◌++◌, true, false, length, map, slice_get, Some, is_some, All, IfOk, OnOk, OnErr};
ghost use Rattle.std.specs.List.{AllByRecursion};
ghost use Rattle.std.specs.Option.{option_map};
ghost use Rattle.drf_role.specs.Role.{IsRole};
ghost use Rattle.drf_role.specs.Text.{Text};
ghost use Rattle.drf_bundle.specs.Quantities.{amount_of};
ghost use Rattle.drf_bundle.specs.Bundle.{quantities_of, rest};
ghost use Rattle.drf_rows.specs.Held.{clients_of, cluster_total};
ghost use Rattle.drf_rows.specs.Cycle.{free_of, is_allocatable};
ghost use Rattle.drf_rows.specs.Step.{opening, live_rows};
ghost use Rattle.drf_rows.specs.Totals.{agent_at};
ghost use Rattle.drf_rows.specs.Members.{has_agent, has_framework, with_agent};
ghost use Rattle.drf_rows.specs.Weights.{has_weight, is_weight, weights_with};
ghost use Rattle.drf_rows.specs.Consistent.{IsConsistent, are_distinct_roles, offers_counted};
ghost use Rattle.drf_rows.specs.declared.limits.TheConstants.{LARGEST_AMOUNT, LATEST_TIMESTAMP};
ghost use Rattle.drf_rows.specs.declared.rows.AgentRow.{AgentRow};
ghost use Rattle.drf_tables.specs.cycle.Drafts.{with_offers, frees_of, frees_after};
ghost use Rattle.drf_tables.specs.limits.Recounting.{CountsAll};

mod copied;
mod listing;
pub(crate) mod restoring;

use crate::cycle::{count_offers, first_number, put_lefts};
use crate::filters::sweep::Sweep;
use crate::limits::recounting::consume_total;
use crate::registry::Registry;
use crate::registry::free_part::FreePart;
use crate::registry::new_name::NewName;
use crate::registry::settling::free_left;
use crate::tables::listing::{agent_rows, framework_rows, weight_rows};
use drf_amount::Algebra;
use drf_bundle::{Bundle, Quantities};
use drf_gates::{Consumption, FilterTable, QuotaLimits};
use drf_hash::{ByRole, HashKey};
use drf_holdings::Holdings;
use drf_role::{Name, Role};
use drf_rows::{ClientRow, OfferRow, Rows, Table};
use indexmap::IndexMap;
use std::alloc::{AllocError, Global};
use std::marker::Model;

/// A registered agent, and its free resources, if they are known.
#[derive(Drop)]
pub(crate) struct Agent {
    pub(crate) total: Bundle,
    pub(crate) active: bool,
    pub(crate) free: Option<FreePart>,
}

/// The free resources that remain on an agent after its turn.
#[derive(Drop)]
pub struct Left {
    /// The place of the agent, by registration.
    pub agent: usize,
    pub free: Bundle,
}

/// The rows of the allocator. Agents and frameworks are found by name.
pub struct Tables {
    pub(crate) agents: Registry<Agent>,
    pub(crate) frameworks: Registry<Vec<ClientRow>>,
    pub(crate) holdings: Holdings,
    pub(crate) filters: FilterTable,
    pub(crate) weights: ByRole<u64>,
    pub(crate) clock: u64,
    pub(crate) next_offer: u64,
    pub(crate) events: u64,
    // The sum of the totals of all agents.
    pub(crate) total: Quantities,
    // The number of clients of all frameworks.
    pub(crate) clients: usize,
    pub(crate) limits: QuotaLimits,
    // What roles consume, if that is known. Otherwise it is computed when it is needed.
    pub(crate) consumption: Option<Consumption>,
    pub(crate) sweep: Sweep,
}

// Written out, so that the proofs of callers that drop the tables see one call, and not the drop of each field.
impl Drop for Tables {
    fn drop(self) {
        let Tables {
            agents: _agents,
            frameworks: _frameworks,
            holdings: _holdings,
            filters: _filters,
            weights: _weights,
            clock: _clock,
            next_offer: _next_offer,
            events: _events,
            total: _total,
            clients: _clients,
            limits: _limits,
            consumption: _consumption,
            sweep: _sweep,
        } = self;
    }
}

impl Model for Tables {
    ghost use Rattle.drf_tables.specs.Stored.{Stored, stored_code};

    ghost Value = { Stored };

    ghost coded = { stored_code };

    ghost use Rattle.std.specs.Prelude.{is_some};
    ghost use Rattle.indexmap.specs.IndexMap.{spare};
    ghost use Rattle.drf_tables.specs.Inside.{rows_in, is_settled, IsWhole};

    ghost view = { λ t. record { rows = rows_in t; room = t.frameworks.room; weight_room = spare t.weights; settled = is_settled t.agents.entries; counted = is_some t.consumption } };

    ghost invariant = { IsWhole };
}

/// Proves that the roles of clients are valid.
fn recall_roles(clients: &[ClientRow])
    ensures { AllByRecursion IsRole (map (λ c. c.role) clients.now) }
{
    for client in clients {
        client.role.recall();
    }
}

impl Tables {
    /// Returns tables without rows. The hashes of names and roles, here and in copies, begin with `key`.
    pub fn new(alloc: Global, key: HashKey) -> Tables
        ensures rows { result.rows ≡ opening }
        ensures settled { result.settled ≡ true }
        ensures counted { result.counted ≡ false }
    {
        Tables {
            agents: Registry::new(alloc, key),
            frameworks: Registry::new(alloc, key),
            holdings: Holdings::new(alloc, key),
            filters: FilterTable::new(alloc, key),
            weights: IndexMap::with_hasher(alloc, key),
            clock: 0,
            next_offer: 1,
            events: 0,
            total: Quantities::empty(alloc),
            clients: 0,
            limits: QuotaLimits::new(alloc, key),
            consumption: None,
            sweep: Sweep::first(),
        }
    }

    /// Proves that the rows are consistent. It does nothing.
    pub fn recall(&self)
        ensures { IsConsistent self.now.rows }
    {
        let _ = &self.clock;
    }

    /// Returns the key of the hashes of names, for other tables of the same names. No contract mentions it.
    pub fn key(&self) -> HashKey {
        self.agents.key()
    }

    /// Returns the greatest timestamp of the accepted events, in milliseconds.
    pub fn clock(&self) -> u64
        ensures { result ≡ self.now.rows.clock }
    {
        self.clock
    }

    /// Returns the number of the next offer.
    pub fn next_offer(&self) -> u64
        ensures { result ≡ self.now.rows.next_offer }
    {
        self.next_offer
    }

    /// Returns the number of accepted events.
    pub fn events(&self) -> u64
        ensures { result ≡ self.now.rows.events }
    {
        self.events
    }

    /// Returns the number of registered agents.
    pub fn agent_count(&self) -> usize
        ensures { result ≡ length self.now.rows.agents }
    {
        self.agents.len()
    }

    /// Returns the number of registered frameworks.
    pub fn framework_count(&self) -> usize
        ensures { result ≡ length self.now.rows.frameworks }
    {
        self.frameworks.len()
    }

    /// Returns the number of clients of all frameworks.
    pub fn client_count(&self) -> usize
        ensures { result ≡ length (clients_of self.now.rows) }
    {
        self.clients
    }

    /// Returns whether the agent is registered.
    pub fn has_agent(&self, name: &Name) -> bool
        ensures { result ≡ has_agent self.now.rows name.now }
    {
        self.agents.has(name)
    }

    /// Returns whether the framework is registered.
    pub fn has_framework(&self, name: &Name) -> bool
        ensures { result ≡ has_framework self.now.rows name.now }
    {
        self.frameworks.has(name)
    }

    /// Returns the number of roles that have a weight.
    pub fn weight_count(&self) -> usize
        ensures { result ≡ length self.now.rows.weights }
    {
        self.weights.len()
    }

    /// Returns whether the role has been given a weight.
    pub fn has_weight(&self, role: &Role) -> bool
        ensures { result ≡ has_weight self.now.rows role.now }
    {
        self.weights.contains_key(role)
    }

    /// Returns the cluster's total: the sum of the totals of all agents, active or not.
    pub fn total(&self) -> &Quantities
        ensures { result.now ≡ cluster_total self.now.rows.agents }
    {
        &self.total
    }

    /// Returns the name of the agent at a place, by registration.
    pub fn agent_name(&self, place: usize) -> &Name
        requires { place < length self.now.rows.agents }
        ensures { (a : AgentRow) → slice_get self.now.rows.agents place ≡ Some a → result.now ≡ a.name }
    {
        &self.agents.at(place).0
    }

    /// Returns whether the agent at a place is active.
    pub fn is_active(&self, place: usize) -> bool
        requires { place < length self.now.rows.agents }
        ensures { (a : AgentRow) → slice_get self.now.rows.agents place ≡ Some a → result ≡ a.active }
    {
        self.agents.at(place).1.active
    }

    /// Returns the free resources of the agent at a place.
    pub fn free(&self, place: usize) -> &Bundle
        requires place { place < length self.now.rows.agents }
        requires settled { self.now.settled ≡ true }
        ensures { (a : AgentRow) → slice_get self.now.rows.agents place ≡ Some a → result.now ≡ free_of self.now.rows a }
    {
        self.agents.at(place).1.free.as_ref().unwrap().bundle()
    }

    /// Returns the free resources of an agent, or `None` if it is not registered.
    pub fn free_on(&self, agent: &Name) -> Result<Option<Bundle>, AllocError>
        ensures { IfOk result (λ free. free ≡ option_map (free_of self.now.rows) (agent_at self.now.rows agent.now)) }
    {
        match self.agents.get(agent) {
            Some(found) => Ok(Some(free_left(agent, found, &self.holdings)?)),
            None => Ok(None),
        }
    }

    /// Returns the resources that are held on an agent: offered, or used by tasks.
    pub fn held_on(&self, agent: &Name) -> Result<Bundle, AllocError>
        requires { has_agent self.now.rows agent.now ≡ true }
        ensures { IfOk result (λ held. (a : AgentRow) → agent_at self.now.rows agent.now ≡ Some a → held ≡ rest a.total (free_of self.now.rows a)) }
    {
        let found = self.agents.get(agent).unwrap();
        let free = free_left(agent, found, &self.holdings)?;
        let held = found.total.rest(&free)?;
        Ok(held)
    }

    /// Returns whether the free resources of the agent at a place are enough for an offer.
    pub fn is_worth_an_offer(&self, place: usize) -> bool
        requires place { place < length self.now.rows.agents }
        requires settled { self.now.settled ≡ true }
        ensures { (a : AgentRow) → slice_get self.now.rows.agents place ≡ Some a → result ≡ is_allocatable (free_of self.now.rows a) }
    {
        self.agents.at(place).1.free.as_ref().unwrap().is_worth()
    }

    /// Sets the clock, in milliseconds.
    pub fn set_clock(&mut self, clock: u64)
        requires { clock ≤ LATEST_TIMESTAMP }
        ensures { self.new.rows ≡ record self.old.rows { clock = clock } }
    {
        self.clock = clock;
    }

    /// Adds one to the number of accepted events.
    pub fn count_event(&mut self)
        requires { self.old.rows.events + 1 < 2 ^ 64 }
        ensures counted { self.new.rows ≡ record self.old.rows { events = self.old.rows.events + 1 } }
        ensures consistent { IsConsistent self.new.rows }
    {
        self.events += 1;
    }

    /// Adds an active agent. If memory runs out, no row changes.
    pub fn add_agent(&mut self, name: Name, total: Bundle) -> Result<(), AllocError>
        requires new { has_agent self.old.rows name ≡ false }
        requires small { (label : Text) → amount_of (quantities_of total) label ≤ LARGEST_AMOUNT }
        requires few { length self.old.rows.agents < 4096 }
        ensures ok { OnOk result (self.new.rows ≡ record self.old.rows { agents = with_agent self.old.rows name total }) }
        ensures err { OnErr result (self.new.rows ≡ self.old.rows) }
        ensures settled { self.new.settled ≡ self.old.settled }
        ensures counted { self.new.counted ≡ self.old.counted }
    {
        let sum = self.total.plus(total.quantities())?;
        let free = total.copy()?;
        let named = NewName::of(name)?;
        self.agents.reserve()?;
        consume_total(&mut self.consumption, &total)?;
        let agent = Agent {
            total,
            active: true,
            free: Some(FreePart::new(free)),
        };
        self.agents.add(named, agent);
        self.total = sum;
        Ok(())
    }

    /// Reserves memory for a framework of this name, so that `add_framework` cannot fail.
    pub fn reserve_framework(&mut self, name: Name) -> Result<NewName, AllocError>
        ensures ok { OnOk result (1 ≤ self.new.room) }
        ensures named { IfOk result (λ named. named ≡ name) }
        ensures same { self.new.rows ≡ self.old.rows }
        ensures settled { self.new.settled ≡ self.old.settled }
        ensures counted { self.new.counted ≡ self.old.counted }
    {
        let named = NewName::of(name)?;
        self.frameworks.reserve()?;
        Ok(named)
    }

    /// Adds a framework with its clients. The counts of all clients together have to be below the next offer number. It needs no
    /// memory.
    pub fn add_framework(&mut self, name: NewName, clients: Table<ClientRow>)
        requires room { 1 ≤ self.old.room }
        requires new { has_framework self.old.rows name ≡ false }
        requires roles { are_distinct_roles (map (λ c. c.role) clients) ≡ true }
        requires counted { offers_counted (self.old.rows.frameworks ++ record { name = name; clients = clients } ∷ []) < self.old.rows.next_offer }
        requires few { length (clients_of self.old.rows) + length clients < 2 ^ 64 }
        ensures rows { self.new.rows ≡ record self.old.rows { frameworks = self.old.rows.frameworks ++ record { name = name; clients = clients } ∷ [] } }
        ensures settled { self.new.settled ≡ self.old.settled }
        ensures counted { self.new.counted ≡ self.old.counted }
    {
        name.recall();
        recall_roles(clients.as_slice());
        self.clients += clients.len();
        self.frameworks.add(name, clients.into_vec());
    }

    /// Reserves memory for the weight of one more role, so that `set_weight` cannot fail.
    pub fn reserve_weight(&mut self) -> Result<(), AllocError>
        ensures ok { OnOk result (1 ≤ self.new.weight_room) }
        ensures same { self.new.rows ≡ self.old.rows }
        ensures settled { self.new.settled ≡ self.old.settled }
        ensures counted { self.new.counted ≡ self.old.counted }
    {
        self.weights.reserve(1)
    }

    /// Sets the weight of a role, in thousandths. It needs no memory.
    pub fn set_weight(&mut self, role: Role, weight: u64)
        requires room { 1 ≤ self.old.weight_room }
        requires right { is_weight weight ≡ true }
        ensures rows { self.new.rows ≡ record self.old.rows { weights = weights_with self.old.rows.weights role weight } }
        ensures settled { self.new.settled ≡ self.old.settled }
        ensures counted { self.new.counted ≡ self.old.counted }
    {
        role.recall();
        let _ = self.weights.insert(role, weight).unwrap();
    }

    /// Adds the offers of a cycle after the others, counts each for its client, and sets the free resources that remain on the
    /// agents. `consumption` is what roles consume with these offers; if it is `None`, consumption becomes unknown. If memory
    /// runs out, no row and no offer changes.
    pub fn commit(
        &mut self,
        offers: &mut Vec<OfferRow>,
        lefts: Vec<Left>,
        consumption: Option<Consumption>,
    ) -> Result<(), AllocError>
        requires settled { self.old.settled ≡ true }
        requires consistent { IsConsistent (with_offers self.old.rows offers.old.items) }
        requires left { frees_after (frees_of self.old.rows) lefts.items ≡ frees_of (with_offers self.old.rows offers.old.items) }
        requires places { All (λ left. left.agent < length self.old.rows.agents) lefts.items }
        requires fits { (with_offers self.old.rows offers.old.items).next_offer < 2 ^ 64 }
        requires consumption { CountsAll (with_offers self.old.rows offers.old.items) consumption }
        ensures ok { OnOk result (self.new.rows ≡ with_offers self.old.rows offers.old.items) }
        ensures settled { OnOk result (self.new.settled ≡ true) }
        ensures moved { OnOk result (offers.new.items ≡ []) }
        ensures counted { OnOk result (self.new.counted ≡ is_some consumption) }
        ensures err { OnErr result ((self.new.rows ≡ self.old.rows) × (offers.new.items ≡ offers.old.items)) }
    {
        let made = offers.len();
        let first = first_number(offers, self.next_offer);
        self.holdings.append(offers)?;
        count_offers(&mut self.frameworks, self.holdings.offers_from(first));
        put_lefts(&mut self.agents, lefts);
        self.next_offer += made as u64;
        self.consumption = consumption;
        Ok(())
    }

    /// Returns a copy of the rows, without expired filters.
    pub fn rows(&self) -> Result<Rows, AllocError>
        ensures { IfOk result (λ rows. rows ≡ live_rows self.now.rows) }
    {
        let alloc = *self.agents.allocator();
        Ok(Rows {
            agents: agent_rows(alloc, &self.agents)?,
            frameworks: framework_rows(alloc, &self.frameworks)?,
            offers: self.holdings.copy_offers(alloc)?,
            tasks: self.holdings.copy_tasks(alloc)?,
            weights: weight_rows(alloc, &self.weights)?,
            limits: self.limits.rows()?,
            filters: self.filters.copy_in_force(self.clock)?,
            clock: self.clock,
            next_offer: self.next_offer,
            events: self.events,
        })
    }
}
