//! The types of an explanation.

use drf_bundle::Bundle;
use drf_role::{ClientPath, Name, Role};

/// The outcome of trying a client on an agent.
#[derive(Drop)]
pub enum Outcome {
    /// It is offered this bundle.
    Grant(Bundle),
    /// Its filters cover what it could have there, until this timestamp in milliseconds.
    HeldBack { until: u64 },
    /// The limit of this role leaves too little of the scalar that makes its part large enough for an offer.
    OverLimit { role: Role },
    /// What its role can use of the free resources is too small for an offer.
    BelowThreshold,
    /// Everything that was free has been granted.
    NothingLeft,
    /// Everything that is free is reserved for other roles.
    ReservedForOthers,
}

/// One line of an explanation.
#[derive(Drop)]
pub enum Finding {
    /// The client is suppressed.
    Suppressed {
        client: ClientPath,
    },
    /// The agent is inactive.
    Inactive {
        agent: Name,
    },
    /// Everything that the agent has is offered or used by tasks.
    NothingFree {
        agent: Name,
    },
    /// The client is tried on the agent.
    Tried {
        agent: Name,
        client: ClientPath,
        outcome: Outcome,
    },
    /// The remaining free resources of the agent are too small for an offer, so this number of clients is not tried.
    Left {
        agent: Name,
        left: Bundle,
        clients: u64,
    },
}

/// The findings of an agent's turn.
#[derive(Drop)]
pub struct TurnReported {
    /// The outcome of each client when it is tried, or a finding about the agent.
    pub reported: Vec<Finding>,
    /// The outcome of each client if it were tried first; empty if no client is tried.
    pub untouched: Vec<Finding>,
}
