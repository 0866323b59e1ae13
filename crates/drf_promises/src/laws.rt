//! Promises in an operator's terms. The functions do nothing: their contracts are proved about the definition alone.

ghost use Rattle.drf_promises.specs.Apart.{NothingHeldIsApart, RunsStayApart};
ghost use Rattle.drf_promises.specs.Sharing.{EqualAgentsAreShared, FairShares, SharingIncentive};
ghost use Rattle.drf_promises.specs.Cycles.{AllIsHandedOut, CyclesLeaveNothing, NobodyIsPassed, NothingIsExplained, OffersGoToTheFirst, SecondCyclesAreIdle};
ghost use Rattle.drf_promises.specs.Frameworks.{EachStandsAsItself, MoreFrameworksGainNothing, OneMoreStandsAlike};
ghost use Rattle.drf_promises.specs.Overtaken.{NobodyOvertakes};
ghost use Rattle.drf_promises.specs.Passes.{PassesAreFew};
ghost use Rattle.drf_promises.specs.Runs.{OffersStand, ReservedIsItsRoles, TasksStand};
ghost use Rattle.drf_promises.specs.Siblings.{MoreIsLater, OfferIsLater, OneOfferApart, SumsDecide, WeightIsNotLater};
ghost use Rattle.drf_promises.specs.Waiting.{EverybodyIsOffered};

/// Proves that after a cycle no active client would be granted anything on any active agent, and that a second cycle at
/// the same time changes nothing. If nothing is reserved, limited or filtered, the cycle offers everything that is
/// large enough to be offered.
pub fn leaves_nothing_law()
    ensures nothing { CyclesLeaveNothing }
    ensures idle { SecondCyclesAreIdle }
    ensures all { AllIsHandedOut }
{}

/// Proves that an explanation directly after a cycle reports no grant.
pub fn explained_law()
    ensures { NothingIsExplained }
{}

/// Proves that when a client is tried in a turn, the clients tried before it would be granted nothing more. So each
/// offer goes to the first client in the order of the turn that would be granted anything.
pub fn order_law()
    ensures passed { NobodyIsPassed }
    ensures first { OffersGoToTheFirst }
{}

/// Proves that offers and tasks stay as they are until an event that ends them: nothing is taken from a running task,
/// and no offer is withdrawn in favour of another client.
pub fn offers_stay_law()
    ensures offers { OffersStand }
    ensures tasks { TasksStand }
{}

/// Proves that in no run from the start does a client hold resources that are reserved for another role than its own or
/// one above it.
pub fn reserved_law()
    ensures { ReservedIsItsRoles }
{}

/// Proves that if a node comes before a sibling and is made an offer, its weighted share exceeds the sibling's by at
/// most the share of this offer.
pub fn one_offer_apart_law()
    ensures { OneOfferApart }
{}

/// Proves that only sums decide which of two siblings comes first: what all clients of the sibling hold together, and
/// how many offers they received. So a role gains nothing by having more frameworks.
pub fn sums_law()
    ensures { SumsDecide }
{}

/// Proves the same for runs. If two clusters differ only in how many frameworks each role has, and in which of them has
/// what, each role is made the same offers in both, event by event. New frameworks must register in roles that are
/// already active. The run must have no filters, and no framework must be removed, change its roles, be suppressed or
/// revive.
pub fn more_frameworks_law()
    ensures itself { EachStandsAsItself }
    ensures more { OneMoreStandsAlike }
    ensures runs { MoreFrameworksGainNothing }
{}

/// Proves that a client that holds more is served later. If one client comes before another, this stays so until a node
/// that only the first is under holds more or has received more offers, or one that only the other is under less (with
/// equal totals and weights). So an offer never moves its client before one that it was after, and a greater weight of
/// its role never moves a client back. In runs of cycles, reports, accepts of whole offers and activations of agents, a
/// client keeps its place before another as long as the nodes that only the first is under get nothing.
pub fn more_is_later_law()
    ensures more { MoreIsLater }
    ensures offer { OfferIsLater }
    ensures weight { WeightIsNotLater }
    ensures runs { NobodyOvertakes }
{}

/// Proves that no role and no client is ahead of an active sibling by more than the largest agent, whatever the
/// weights: from a state in which nothing is held, in runs of cycles, reports, accepts of whole offers and activations
/// of agents, if nothing is reserved, limited or filtered.
pub fn one_agent_apart_law()
    ensures start { NothingHeldIsApart }
    ensures runs { RunsStayApart }
{}

/// Proves that each active node has its part by weight of what its parent has, less one agent for each sibling. So one
/// cycle in an empty open cluster gives each top-level role its part of the whole. With m equal agents, the weight w,
/// the sum W of all weights and n siblings, that is at least w/W of m - n agents.
pub fn sharing_incentive_law()
    ensures part { SharingIncentive }
    ensures cycle { FairShares }
    ensures equal { EqualAgentsAreShared }
{}

/// Proves a bound on waiting: if one agent is active, nothing is reserved, limited or filtered, and each client
/// declines with a filter that lasts for all the cycles, then every active client is offered the free resources within
/// as many cycles as there are active clients, whatever the tree and the shares.
pub fn everybody_is_offered_law()
    ensures { EverybodyIsOffered }
{}

/// Proves that a node that holds nothing is not passed over for ever. A top-level role, or a framework among the
/// frameworks of one role, is passed over in at most as many turns as the others still have offers to get until each
/// has received one more than it, whatever the weights.
pub fn passes_are_few_law()
    ensures { PassesAreFew }
{}
