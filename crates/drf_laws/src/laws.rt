//! Theorems about accepted events, turns and runs. The functions do nothing: their contracts are proved about the
//! definition and the type of events.

ghost use Rattle.std.specs.List.{AllByRecursion};
ghost use Rattle.drf_role.specs.Role.{IsRole};
ghost use Rattle.drf_laws.specs.BoundLaws.{RunsStayWithinLimits};
ghost use Rattle.drf_laws.specs.EventLaws.{NoCaseHolds, LiveRowsDecide, AcceptsCanStart, EventsKeepConsistent, EventsKeepCounts};
ghost use Rattle.drf_laws.specs.FilterLaws.{DeclinedSetsFilter, AcceptedSetsFilter, SomeRestIsLeft, DeclinedIsHeldBack, LeftIsHeldBack};
ghost use Rattle.drf_laws.specs.KeptLaws.{KeptNumbersAreSmall, KeptTotalsAreSmall, FiltersEndEarly, LiveRowsAreConsistent, ClockMayMove};
ghost use Rattle.drf_laws.specs.KnownLaws.{PathsIdentifyClients, MembersIdentifyNodes, StrangersHoldNothing, HeldIsNotFree};
ghost use Rattle.drf_laws.specs.RunLaws.{IsGiven, StepsStayConsistent, RunsStayConsistent, AllRowsStayConsistent, RunsFromOpeningAreConsistent, NothingIsGrantedTwice, RunsFromOpeningKeepLimits, ConsistentRunsKeepLimits};
ghost use Rattle.drf_laws.specs.TurnLaws.{ServedAreRegistered, ServedAreFew, GrantsArePart, CyclesMakeFewOffers, OtherAgentsStayFree};

use drf_role::Role;
use drf_rows::Event;

/// Proves what is true for an accepted event. No refusal case holds. In any other state with the same current state the
/// event is accepted too, and makes the same offers. An accept has an offer that covers its tasks. A consistent state is
/// consistent after the event, and agents, frameworks, clients, weights, accepted events and offer numbers stay within
/// their bounds.
pub fn event_law()
    ensures cases { NoCaseHolds }
    ensures live { LiveRowsDecide }
    ensures starts { AcceptsCanStart }
    ensures consistent { EventsKeepConsistent }
    ensures counts { EventsKeepCounts }
{}

/// Proves that a turn tries only registered clients, at most as many as there are, grants parts of the free resources of
/// its agent, and leaves the free resources of other agents. So a cycle makes at most as many offers as there are active
/// agents, times the number of clients.
pub fn turns_law()
    ensures registered { ServedAreRegistered }
    ensures few { ServedAreFew }
    ensures parts { GrantsArePart }
    ensures offers { CyclesMakeFewOffers }
    ensures others { OtherAgentsStayFree }
{}

/// Proves that different clients have different paths, that a sorted list of nodes is determined by its members, that a
/// client of an unregistered framework holds no scalar, and that a total covers everything held on an agent exactly if
/// it covers everything that is not free there.
pub fn known_law()
    ensures clients { PathsIdentifyClients }
    ensures nodes { MembersIdentifyNodes }
    ensures strangers { StrangersHoldNothing }
    ensures held { HeldIsNotFree }
{}

/// Proves bounds on offer numbers, totals and the ends of filters in consistent states, and that a state stays
/// consistent when expired filters are removed or the clock moves.
pub fn kept_law()
    ensures numbers { KeptNumbersAreSmall }
    ensures totals { KeptTotalsAreSmall }
    ensures filters { FiltersEndEarly }
    ensures live { LiveRowsAreConsistent }
    ensures clock { ClockMayMove }
{}

/// Proves how accepting and declining set filters. A decline sets a filter with the whole offer, and an accept one with
/// the rest of the offer, if there is any; with `refuse_ms` 0 they set none. The filter belongs to the client of the
/// offer, on the agent of the offer, and ends `refuse_ms` after the event, or after 365 days if that is sooner. From
/// then on, while no other event changes a filter and until the filter ends, the client is not offered what the filter
/// covers on this agent, and nothing else is withheld that was not withheld before.
pub fn set_filters_law()
    ensures declined { DeclinedSetsFilter }
    ensures accepted { AcceptedSetsFilter }
    ensures rest { SomeRestIsLeft }
    ensures held_back { DeclinedIsHeldBack }
    ensures left { LeftIsHeldBack }
{}

/// Proves that the roles are valid, from the invariant of `Role`.
fn recall_roles(roles: &[Role])
    ensures { AllByRecursion IsRole roles.now }
{
    for role in roles {
        role.recall();
    }
}

/// Proves that the bundles, names and roles in an event are valid, from the invariants of their types: the resources of
/// each event, the name and roles of a framework that registers or changes its roles, and the role whose weight or
/// limit is set. Resources are only reserved for, and unreserved from, a valid role.
pub fn given_law(event: &Event)
    ensures { IsGiven event.now }
{
    match event {
        Event::AddAgent { agent: _, total } | Event::SetAgent { agent: _, total } => total.recall(),
        Event::AddFramework { framework, roles } => {
            framework.recall();
            recall_roles(roles.as_slice());
        }
        Event::SetFramework {
            framework: _,
            roles,
        } => recall_roles(roles.as_slice()),
        Event::SetWeight { role, weight: _ } | Event::SetLimit { role, limit: _ } => role.recall(),
        Event::Accept(accept) => {
            let _ = accept.tasks.as_slice();
        }
        Event::Reserve {
            agent: _,
            role,
            resources,
        }
        | Event::Unreserve {
            agent: _,
            role,
            resources,
        } => {
            role.recall();
            resources.recall();
        }
        _ => {}
    }
}

/// Proves that each event and each run keep a consistent state consistent, with or without expired filters. So in every
/// run from the start the state is consistent, and no resources are granted twice.
pub fn consistent_runs_law()
    ensures step { StepsStayConsistent }
    ensures run { RunsStayConsistent }
    ensures rows { AllRowsStayConsistent }
    ensures opening { RunsFromOpeningAreConsistent }
    ensures start { NothingIsGrantedTwice }
{}

/// Proves that during events that add no agent, change no total and set no limit, the consumption of a role does not
/// rise above its limit, or above what it was before: from every consistent state, and from every state that a run from
/// the start reaches.
pub fn kept_limits_law()
    ensures start { RunsFromOpeningKeepLimits }
    ensures consistent { ConsistentRunsKeepLimits }
{}

/// Proves that in every run from the start the tables stay within the capacities: agents, frameworks, the roles of
/// each, clients, filters in force, weights and limits of roles, names of scalars over all agents and in each limit,
/// and accepted events.
pub fn bounded_runs_law()
    ensures { RunsStayWithinLimits }
{}
