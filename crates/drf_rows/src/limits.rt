//! The capacities of the allocator, and the greatest numbers that events can have.
ghost use Rattle.std.specs.Prelude.{◌≡◌, ◌↔◌, IsTrue};
ghost use Rattle.std.specs.Option.{SomeIff};
ghost use Rattle.drf_rows.specs.LimitNumbers.{LimitNumbers, ceilings, IsWithin, IsWithinCeilings};

use std::marker::Model;

/// The greatest timestamp of an event, in milliseconds.
pub const LATEST_TIMESTAMP: u64 = 1 << 62;

/// The longest time for which a filter is in force, in milliseconds: 365 days.
pub const LONGEST_FILTER: u64 = 31_536_000_000;

/// The greatest amount of a scalar on one agent, over all its reservations, in thousandths.
pub const LARGEST_AMOUNT: u64 = (1 << 40) - 1;

/// The capacities: how many agents, clients, filters in force and so on the allocator can have. Each number is from 1
/// to its greatest value, which `Limits::full` returns.
#[derive(Clone, Copy)]
pub struct Limits {
    agents: u64,
    frameworks: u64,
    roles: u64,
    clients: u64,
    filters: u64,
    weights: u64,
    limits: u64,
    scalar_names: u64,
    events: u64,
}

impl Model for Limits {
    ghost use Rattle.drf_rows.specs.LimitNumbers.{LimitNumbers, IsWithinCeilings};

    ghost Value = { LimitNumbers };

    ghost use Rattle.drf_rows.specs.Limits.{numbers_of, fields_of};

    ghost view = { numbers_of };

    ghost invariant = { λ l. IsWithinCeilings (numbers_of l) };

    ghost inverse = { fields_of };
}

/// Returns whether the number is from 1 to `ceiling`.
fn is_within(n: u64, ceiling: u64) -> bool
    ensures { IsTrue result ↔ IsWithin n ceiling }
{
    1 <= n && n <= ceiling
}

impl Limits {
    /// Returns the greatest capacities.
    pub fn full() -> Limits
        ensures { result ≡ ceilings }
    {
        Limits {
            agents: 4096,
            frameworks: 1024,
            roles: 8,
            clients: 4096,
            filters: 65536,
            weights: 4096,
            limits: 4096,
            scalar_names: 32,
            events: 4294967295,
        }
    }

    /// Returns these capacities, or `None` if a number is not from 1 to its greatest value. They are the greatest
    /// numbers of agents, frameworks, roles of one framework, clients, filters in force, roles with a weight, roles
    /// with a limit, names of scalars over all agents, and accepted events.
    pub fn new(
        agents: u64,
        frameworks: u64,
        roles: u64,
        clients: u64,
        filters: u64,
        weights: u64,
        limits: u64,
        scalar_names: u64,
        events: u64,
    ) -> Option<Limits>
        ensures { let numbers : LimitNumbers = record {
          agents = agents;
          frameworks = frameworks;
          roles = roles;
          clients = clients;
          filters = filters;
          weights = weights;
          limits = limits;
          scalar_names = scalar_names;
          events = events;
        } in SomeIff result (IsWithinCeilings numbers) numbers }
    {
        let full = Limits::full();
        let is_right = is_within(agents, full.agents)
            && is_within(frameworks, full.frameworks)
            && is_within(roles, full.roles)
            && is_within(clients, full.clients)
            && is_within(filters, full.filters)
            && is_within(weights, full.weights)
            && is_within(limits, full.limits)
            && is_within(scalar_names, full.scalar_names)
            && is_within(events, full.events);
        if !is_right {
            return None;
        }
        Some(Limits {
            agents,
            frameworks,
            roles,
            clients,
            filters,
            weights,
            limits,
            scalar_names,
            events,
        })
    }

    /// Returns how many agents can be registered.
    pub fn agents(&self) -> u64
        ensures value { result ≡ self.now.agents }
        ensures within { IsWithinCeilings self.now }
    {
        self.agents
    }

    /// Returns how many frameworks can be registered.
    pub fn frameworks(&self) -> u64
        ensures value { result ≡ self.now.frameworks }
        ensures within { IsWithinCeilings self.now }
    {
        self.frameworks
    }

    /// Returns how many roles a framework can have.
    pub fn roles(&self) -> u64
        ensures value { result ≡ self.now.roles }
        ensures within { IsWithinCeilings self.now }
    {
        self.roles
    }

    /// Returns how many clients all frameworks can have together.
    pub fn clients(&self) -> u64
        ensures value { result ≡ self.now.clients }
        ensures within { IsWithinCeilings self.now }
    {
        self.clients
    }

    /// Returns how many filters can be in force.
    pub fn filters(&self) -> u64
        ensures value { result ≡ self.now.filters }
        ensures within { IsWithinCeilings self.now }
    {
        self.filters
    }

    /// Returns how many roles can have a weight.
    pub fn weights(&self) -> u64
        ensures value { result ≡ self.now.weights }
        ensures within { IsWithinCeilings self.now }
    {
        self.weights
    }

    /// Returns how many roles can have a quota limit.
    pub fn limits(&self) -> u64
        ensures value { result ≡ self.now.limits }
        ensures within { IsWithinCeilings self.now }
    {
        self.limits
    }

    /// Returns how many names of scalars there can be over all agents.
    pub fn scalar_names(&self) -> u64
        ensures value { result ≡ self.now.scalar_names }
        ensures within { IsWithinCeilings self.now }
    {
        self.scalar_names
    }

    /// Returns how many events can be accepted.
    pub fn events(&self) -> u64
        ensures value { result ≡ self.now.events }
        ensures within { IsWithinCeilings self.now }
    {
        self.events
    }
}
