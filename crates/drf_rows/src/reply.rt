//! Replies to events.
ghost use Rattle.std.specs.Prelude.{◌≡◌, IfOk};

use crate::report::Report;
use crate::shared::SharedTable;
use drf_bundle::Bundle;
use drf_role::{Name, Role};
use std::alloc::AllocError;

/// Why an event was refused. A refused event changes nothing.
#[derive(Clone, Copy, PartialEq, Eq)]
pub enum Refusal {
    /// As many events were accepted as the capacity allows.
    HistoryFull,
    /// The timestamp is greater than 2^62 milliseconds.
    BadMoment,
    /// No agent with this name is registered.
    UnknownAgent,
    /// An agent with this name is already registered.
    KnownAgent,
    /// No framework with this name is registered.
    UnknownFramework,
    /// A framework with this name is already registered.
    KnownFramework,
    /// No offer with this number is outstanding.
    UnknownOffer,
    /// The offer was made to another framework.
    NotYours,
    /// The framework has no task with this name.
    UnknownTask,
    /// The framework already has a task with this name, or the event names a task twice.
    KnownTask,
    /// The framework is not registered in the role.
    NotInRole,
    /// The role is `*`, for which there are no limits and no reservations.
    DefaultRole,
    /// The list of roles or the resources are empty, or a task uses nothing.
    Empty,
    /// The resources to be reserved or unreserved name a reservation.
    NotUnreserved,
    /// The offer does not cover the tasks, the agent's free resources do not cover those to be reserved or unreserved,
    /// or a new total does not cover everything held on the agent.
    NotCovered,
    /// With this reservation, the role or a role above it would consume more than its limit.
    OverLimit,
    /// The weight is not from 1 to 1,000,000 thousandths.
    BadWeight,
    /// The agent would have more than 2^40 - 1 thousandths of a scalar, over all its reservations.
    TooLarge,
    /// A capacity would be exceeded: of agents, names of scalars, frameworks, roles of a framework, clients, filters in
    /// force, weights, limits, or scalars named by one limit.
    TooMany,
    /// The framework holds an offer or a task in a role that it would leave.
    RoleInUse,
}

impl Refusal {
    ghost use Rattle.drf_rows.specs.Refusal.{refusal_number, refusal_name};

    /// Returns the number of the refusal in replies, from 1 to 20.
    pub fn number(self) -> u64
        ensures { result ≡ refusal_number self }
    {
        match self {
            Refusal::HistoryFull => 1,
            Refusal::BadMoment => 2,
            Refusal::UnknownAgent => 3,
            Refusal::KnownAgent => 4,
            Refusal::UnknownFramework => 5,
            Refusal::KnownFramework => 6,
            Refusal::UnknownOffer => 7,
            Refusal::NotYours => 8,
            Refusal::UnknownTask => 9,
            Refusal::KnownTask => 10,
            Refusal::NotInRole => 11,
            Refusal::DefaultRole => 12,
            Refusal::Empty => 13,
            Refusal::NotUnreserved => 14,
            Refusal::NotCovered => 15,
            Refusal::OverLimit => 16,
            Refusal::BadWeight => 17,
            Refusal::TooLarge => 18,
            Refusal::TooMany => 19,
            Refusal::RoleInUse => 20,
        }
    }

    /// Returns the name of the refusal in replies.
    pub fn name(self) -> &'static str
        ensures { result.now ≡ refusal_name self }
    {
        match self {
            Refusal::HistoryFull => "HistoryFull",
            Refusal::BadMoment => "BadMoment",
            Refusal::UnknownAgent => "UnknownAgent",
            Refusal::KnownAgent => "KnownAgent",
            Refusal::UnknownFramework => "UnknownFramework",
            Refusal::KnownFramework => "KnownFramework",
            Refusal::UnknownOffer => "UnknownOffer",
            Refusal::NotYours => "NotYours",
            Refusal::UnknownTask => "UnknownTask",
            Refusal::KnownTask => "KnownTask",
            Refusal::NotInRole => "NotInRole",
            Refusal::DefaultRole => "DefaultRole",
            Refusal::Empty => "Empty",
            Refusal::NotUnreserved => "NotUnreserved",
            Refusal::NotCovered => "NotCovered",
            Refusal::OverLimit => "OverLimit",
            Refusal::BadWeight => "BadWeight",
            Refusal::TooLarge => "TooLarge",
            Refusal::TooMany => "TooMany",
            Refusal::RoleInUse => "RoleInUse",
        }
    }
}

/// An offer, as a reply lists it.
#[derive(Drop)]
pub struct OfferLine {
    pub number: u64,
    pub agent: Name,
    pub framework: Name,
    pub role: Role,
    pub resources: Bundle,
}

/// The reply to an event.
#[derive(Drop)]
pub enum Reply {
    /// The event was accepted.
    Done,
    /// A cycle was accepted, and made these offers.
    Offers(SharedTable<OfferLine>),
    /// A `report` event was accepted; this is its report.
    Report(Report),
    /// The event was refused, and changed nothing.
    Refused(Refusal),
}

impl Reply {
    /// Returns an equal reply that shares its lists. Fails with `AllocError` if memory runs out.
    pub fn copy(&self) -> Result<Reply, AllocError>
        ensures { IfOk result (λ copy. copy ≡ self.now) }
    {
        match self {
            Reply::Done => Ok(Reply::Done),
            Reply::Offers(offers) => Ok(Reply::Offers(offers.copy()?)),
            Reply::Report(report) => Ok(Reply::Report(report.copy()?)),
            Reply::Refused(refusal) => Ok(Reply::Refused(*refusal)),
        }
    }
}
