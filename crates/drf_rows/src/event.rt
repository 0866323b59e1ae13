//! Events: what callers report to the allocator or ask of it.
ghost use Rattle.std.specs.Prelude.{◌≡◌, IfOk};

use crate::table::Table;
use crate::tasks::TaskList;
use drf_amount::Algebra;
use drf_bundle::{Bundle, Quantities};
use drf_role::{Name, Role};
use std::alloc::AllocError;

/// A framework accepts an offer at the timestamp `at`: it starts tasks with parts of the offer, and refuses the rest
/// for `refuse_ms` milliseconds.
#[derive(Drop)]
pub struct Accept {
    pub framework: Name,
    pub offer: u64,
    pub tasks: TaskList,
    pub at: u64,
    pub refuse_ms: u64,
}

/// A framework declines an offer at the timestamp `at`, and refuses it for `refuse_ms` milliseconds.
#[derive(Drop)]
pub struct Decline {
    pub framework: Name,
    pub offer: u64,
    pub at: u64,
    pub refuse_ms: u64,
}

impl Accept {
    /// Returns an equal event, or `AllocError` if memory runs out.
    pub fn copy(&self) -> Result<Accept, AllocError>
        ensures { IfOk result (λ copy. copy ≡ self.now) }
    {
        Ok(Accept {
            framework: self.framework.copy()?,
            offer: self.offer,
            tasks: self.tasks.copy()?,
            at: self.at,
            refuse_ms: self.refuse_ms,
        })
    }
}

impl Decline {
    /// Returns an equal event, or `AllocError` if memory runs out.
    pub fn copy(&self) -> Result<Decline, AllocError>
        ensures { IfOk result (λ copy. copy ≡ self.now) }
    {
        Ok(Decline {
            framework: self.framework.copy()?,
            offer: self.offer,
            at: self.at,
            refuse_ms: self.refuse_ms,
        })
    }
}

/// An event, which the allocator accepts or refuses as a whole. Timestamps and durations are in milliseconds. A
/// `refuse_ms` above 365 days counts as 365 days; with 0 no filter is set.
#[derive(Drop)]
pub enum Event {
    /// An agent registers with all its resources.
    AddAgent {
        agent: Name,
        total: Bundle,
    },
    /// An agent is removed, with all offers and tasks on it.
    RemoveAgent {
        agent: Name,
    },
    /// An agent becomes active: its free resources are offered again.
    ActivateAgent {
        agent: Name,
    },
    /// An agent becomes inactive: its offers are rescinded and no new ones are made. Its tasks continue.
    DeactivateAgent {
        agent: Name,
    },
    /// An agent gets a new total. Its offers and tasks stay.
    SetAgent {
        agent: Name,
        total: Bundle,
    },
    /// A framework registers in its roles.
    AddFramework {
        framework: Name,
        roles: Table<Role>,
    },
    /// A framework gets a new list of roles. Clients whose roles stay are unchanged. The framework must hold nothing in
    /// a role that it leaves; its filters there are removed.
    SetFramework {
        framework: Name,
        roles: Table<Role>,
    },
    /// A framework is removed. Everything that it held becomes free.
    RemoveFramework {
        framework: Name,
    },
    /// A framework accepts an offer: it starts all of the tasks, or none. The rest becomes free. While the filter
    /// lasts, the client is not offered anything on this agent that the rest covers.
    Accept(Accept),
    /// A framework declines an offer. While the filter lasts, the client is not offered anything on this agent that the
    /// offer covers.
    Decline(Decline),
    /// An offer is rescinded.
    Rescind {
        offer: u64,
    },
    /// A task finishes. What it used becomes free.
    Finish {
        framework: Name,
        task: Name,
    },
    /// A client is suppressed: it gets no offers until it revives.
    Suppress {
        framework: Name,
        role: Role,
    },
    /// A client revives: it gets offers again, and its filters are removed.
    Revive {
        framework: Name,
        role: Role,
    },
    /// Free unreserved resources of an agent are reserved for a role. `resources` must not name reservations.
    Reserve {
        agent: Name,
        role: Role,
        resources: Bundle,
    },
    /// Free resources of an agent that are reserved for exactly this role become unreserved. `resources` must not name
    /// reservations.
    Unreserve {
        agent: Name,
        role: Role,
        resources: Bundle,
    },
    /// A role gets a weight, in thousandths.
    SetWeight {
        role: Role,
        weight: u64,
    },
    /// A role gets a quota limit: the most that it can consume of each scalar named. An empty limit removes the limit.
    SetLimit {
        role: Role,
        limit: Quantities,
    },
    /// The allocator offers the free resources of all active agents. `at` is a timestamp.
    Cycle {
        at: u64,
    },
    /// The allocator reports the cluster's total, and what each node of the role tree holds.
    Report,
}

impl Event {
    /// Returns an equal event, or `AllocError` if memory runs out.
    pub fn copy(&self) -> Result<Event, AllocError>
        ensures { IfOk result (λ copy. copy ≡ self.now) }
    {
        match self {
            Event::AddAgent { agent, total } => Ok(Event::AddAgent {
                agent: agent.copy()?,
                total: total.copy()?,
            }),
            Event::RemoveAgent { agent } => Ok(Event::RemoveAgent {
                agent: agent.copy()?,
            }),
            Event::ActivateAgent { agent } => Ok(Event::ActivateAgent {
                agent: agent.copy()?,
            }),
            Event::DeactivateAgent { agent } => Ok(Event::DeactivateAgent {
                agent: agent.copy()?,
            }),
            Event::SetAgent { agent, total } => Ok(Event::SetAgent {
                agent: agent.copy()?,
                total: total.copy()?,
            }),
            Event::AddFramework { framework, roles } => Ok(Event::AddFramework {
                framework: framework.copy()?,
                roles: roles.copy()?,
            }),
            Event::SetFramework { framework, roles } => Ok(Event::SetFramework {
                framework: framework.copy()?,
                roles: roles.copy()?,
            }),
            Event::RemoveFramework { framework } => Ok(Event::RemoveFramework {
                framework: framework.copy()?,
            }),
            Event::Accept(accept) => Ok(Event::Accept(accept.copy()?)),
            Event::Decline(decline) => Ok(Event::Decline(decline.copy()?)),
            Event::Rescind { offer } => Ok(Event::Rescind { offer: *offer }),
            Event::Finish { framework, task } => Ok(Event::Finish {
                framework: framework.copy()?,
                task: task.copy()?,
            }),
            Event::Suppress { framework, role } => Ok(Event::Suppress {
                framework: framework.copy()?,
                role: role.copy()?,
            }),
            Event::Revive { framework, role } => Ok(Event::Revive {
                framework: framework.copy()?,
                role: role.copy()?,
            }),
            Event::Reserve {
                agent,
                role,
                resources,
            } => Ok(Event::Reserve {
                agent: agent.copy()?,
                role: role.copy()?,
                resources: resources.copy()?,
            }),
            Event::Unreserve {
                agent,
                role,
                resources,
            } => Ok(Event::Unreserve {
                agent: agent.copy()?,
                role: role.copy()?,
                resources: resources.copy()?,
            }),
            Event::SetWeight { role, weight } => Ok(Event::SetWeight {
                role: role.copy()?,
                weight: *weight,
            }),
            Event::SetLimit { role, limit } => Ok(Event::SetLimit {
                role: role.copy()?,
                limit: limit.copy()?,
            }),
            Event::Cycle { at } => Ok(Event::Cycle { at: *at }),
            Event::Report => Ok(Event::Report),
        }
    }
}
