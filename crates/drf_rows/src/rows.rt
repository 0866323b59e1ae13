//! The state of the allocator as tables of rows.
ghost use Rattle.std.specs.Prelude.{◌≡◌, IfOk};

use crate::copied::Copied;
use crate::table::Table;
use drf_amount::Algebra;
use drf_bundle::{Bundle, Quantities};
use drf_role::{Name, Role};
use std::alloc::AllocError;

/// A registered agent with its total.
#[derive(Drop)]
pub struct AgentRow {
    pub name: Name,
    pub total: Bundle,
    pub active: bool,
}

/// A client of a framework. `count` is the number of offers that it has received since it registered.
#[derive(Drop)]
pub struct ClientRow {
    pub role: Role,
    pub count: u64,
    pub suppressed: bool,
}

/// A registered framework.
#[derive(Drop)]
pub struct FrameworkRow {
    pub name: Name,
    pub clients: Table<ClientRow>,
}

/// An outstanding offer.
#[derive(Drop)]
pub struct OfferRow {
    pub number: u64,
    pub agent: Name,
    pub framework: Name,
    pub role: Role,
    pub bundle: Bundle,
}

/// A running task. Task names are per framework: two frameworks can use the same name.
#[derive(Drop)]
pub struct TaskRow {
    pub name: Name,
    pub agent: Name,
    pub framework: Name,
    pub role: Role,
    pub bundle: Bundle,
}

/// The weight of a role, in thousandths.
#[derive(Drop)]
pub struct WeightRow {
    pub role: Role,
    pub weight: u64,
}

/// The quota limit of a role: the most that it can consume of each scalar named, in thousandths.
#[derive(Drop)]
pub struct LimitRow {
    pub role: Role,
    pub limit: Quantities,
}

/// A filter of a client on an agent: until the timestamp `until`, in milliseconds, nothing that the bundle covers is
/// offered.
#[derive(Drop)]
pub struct FilterRow {
    pub framework: Name,
    pub role: Role,
    pub agent: Name,
    pub bundle: Bundle,
    pub until: u64,
}

/// The state of the allocator. `clock` is a timestamp in milliseconds, `next_offer` is the number of the next offer,
/// and `events` is the number of accepted events.
pub struct Rows {
    pub agents: Table<AgentRow>,
    pub frameworks: Table<FrameworkRow>,
    pub offers: Table<OfferRow>,
    pub tasks: Table<TaskRow>,
    pub weights: Table<WeightRow>,
    pub limits: Table<LimitRow>,
    pub filters: Table<FilterRow>,
    pub clock: u64,
    pub next_offer: u64,
    pub events: u64,
}

// Written out, so that a caller's proof about dropping a state deals with one call, and not with the drop of each
// table.
impl Drop for Rows {
    fn drop(self) {
        let Rows {
            agents: _agents,
            frameworks: _frameworks,
            offers: _offers,
            tasks: _tasks,
            weights: _weights,
            limits: _limits,
            filters: _filters,
            clock: _clock,
            next_offer: _next_offer,
            events: _events,
        } = self;
    }
}

impl Copied for AgentRow {
    fn copy(&self) -> Result<AgentRow, AllocError> {
        Ok(AgentRow {
            name: self.name.copy()?,
            total: self.total.copy()?,
            active: self.active,
        })
    }
}

impl Copied for ClientRow {
    fn copy(&self) -> Result<ClientRow, AllocError> {
        Ok(ClientRow {
            role: self.role.copy()?,
            count: self.count,
            suppressed: self.suppressed,
        })
    }
}

impl Copied for FrameworkRow {
    fn copy(&self) -> Result<FrameworkRow, AllocError> {
        Ok(FrameworkRow {
            name: self.name.copy()?,
            clients: self.clients.copy()?,
        })
    }
}

impl Copied for OfferRow {
    fn copy(&self) -> Result<OfferRow, AllocError> {
        Ok(OfferRow {
            number: self.number,
            agent: self.agent.copy()?,
            framework: self.framework.copy()?,
            role: self.role.copy()?,
            bundle: self.bundle.copy()?,
        })
    }
}

impl Copied for TaskRow {
    fn copy(&self) -> Result<TaskRow, AllocError> {
        Ok(TaskRow {
            name: self.name.copy()?,
            agent: self.agent.copy()?,
            framework: self.framework.copy()?,
            role: self.role.copy()?,
            bundle: self.bundle.copy()?,
        })
    }
}

impl Copied for WeightRow {
    fn copy(&self) -> Result<WeightRow, AllocError> {
        Ok(WeightRow {
            role: self.role.copy()?,
            weight: self.weight,
        })
    }
}

impl Copied for LimitRow {
    fn copy(&self) -> Result<LimitRow, AllocError> {
        Ok(LimitRow {
            role: self.role.copy()?,
            limit: self.limit.copy()?,
        })
    }
}

impl Copied for FilterRow {
    fn copy(&self) -> Result<FilterRow, AllocError> {
        Ok(FilterRow {
            framework: self.framework.copy()?,
            role: self.role.copy()?,
            agent: self.agent.copy()?,
            bundle: self.bundle.copy()?,
            until: self.until,
        })
    }
}

impl Rows {
    /// Returns an equal state, or `AllocError` if memory runs out.
    pub fn copy(&self) -> Result<Rows, AllocError>
        ensures { IfOk result (λ copy. copy ≡ self.now) }
    {
        Ok(Rows {
            agents: self.agents.copy()?,
            frameworks: self.frameworks.copy()?,
            offers: self.offers.copy()?,
            tasks: self.tasks.copy()?,
            weights: self.weights.copy()?,
            limits: self.limits.copy()?,
            filters: self.filters.copy()?,
            clock: self.clock,
            next_offer: self.next_offer,
            events: self.events,
        })
    }
}
