//! Theorems about the order of clients, steps, filters, reports, weights and roles. The functions do nothing: their
//! contracts are proved about the definition alone.

ghost use Rattle.drf_row_laws.specs.Laws.{NoneBeforeItself, AtMostOneBefore, OneServingOrder, TooLittleIsNotGranted, FirstIsGrantedAll, CasesRise, LeastIsReported, RefusedChangesNothing, AcceptedIsCounted, RunsGoOn, LiveRowsReply, LiveRowsGoOn, LiveRowsRun, HeldIsReported, CountIsReported, TotalIsReported, AmountsAreAboveZero, SharesAreLowest, NodesRise, NodesBeginPaths};
ghost use Rattle.drf_row_laws.specs.LifeLaws.{AcceptedStartsTasks, DeclinedAtOnceIsUndone, FinishedIsGivenBack, FiltersGoWithTheirOwner, OtherFiltersStay, SuppressionIsItsClients, SuppressedIsNotOffered, FilteredIsNotOffered, NumbersAreNew, OtherAgentsStay, OtherFrameworksStay, OtherHoldingsStay, EndedIsGone, RemovedIsGone, ActivityIsItsAgents, CycleOnlyOffers};
ghost use Rattle.drf_laws.specs.RoleChangeLaws.{ListedRolesAreSet, OtherClientsStayRegistered, SameRolesChangeNothing, TakenAgainIsNew};
ghost use Rattle.drf_row_laws.specs.WeightLaws.{RoleHasItsWeight, OthersKeepTheirWeight, EachHasOneRow, NoRoleHasTwoRows};

/// Proves that clients can be served in one order only, whatever they hold.
pub fn serving_order_law()
    ensures irreflexive { NoneBeforeItself }
    ensures asymmetric { AtMostOneBefore }
    ensures unique { OneServingOrder }
{}

/// Proves that a turn offers nothing if too little is free on its agent, and that if the first client is granted all
/// free resources, the turn offers it these and offers the others nothing.
pub fn turn_law()
    ensures little { TooLittleIsNotGranted }
    ensures enough { FirstIsGrantedAll }
{}

/// Proves that a step either refuses the event, with the least number of the cases that hold, and changes nothing, or
/// has the effect of the event and counts it; and that a run of two lists of events is the run of the first, followed
/// by the run of the second.
pub fn step_law()
    ensures rising { CasesRise }
    ensures least { LeastIsReported }
    ensures refused { RefusedChangesNothing }
    ensures accepted { AcceptedIsCounted }
    ensures runs { RunsGoOn }
{}

/// Proves that expired filters change no reply, and nothing in the later current states.
pub fn live_rows_law()
    ensures reply { LiveRowsReply }
    ensures go_on { LiveRowsGoOn }
    ensures run { LiveRowsRun }
{}

/// Proves what an offer or a task leaves in the state when it ends. An offer that is declined at once without a filter
/// leaves only counts, the next offer number and the clock. An offer that is accepted leaves its tasks, in order, each
/// with its part; the clock moves, one filter of the client can be added, and nothing else changes. A task that
/// finishes is removed alone, and exactly what it used becomes free. A filter is removed with its agent, with its
/// framework and when its client revives; all other filters stay.
pub fn life_law()
    ensures accepted { AcceptedStartsTasks }
    ensures declined { DeclinedAtOnceIsUndone }
    ensures finished { FinishedIsGivenBack }
    ensures filters { FiltersGoWithTheirOwner }
    ensures others { OtherFiltersStay }
{}

/// Proves that an event changes nothing that it is not about. All agents and frameworks other than the event's stay as
/// they are, and what is removed is gone. Offers and tasks that an accepted event does not end stay as they are, and
/// those that it ends are gone (for the tasks that an accept adds, see `life_law`). Activating, deactivating,
/// suppressing and reviving change only this one property of a row. A cycle adds offers, raises the count of each
/// client by the number of its new offers, moves the clock and the next offer number, and changes nothing else.
pub fn others_law()
    ensures agents { OtherAgentsStay }
    ensures frameworks { OtherFrameworksStay }
    ensures holdings { OtherHoldingsStay }
    ensures ended { EndedIsGone }
    ensures removed { RemovedIsGone }
    ensures activity { ActivityIsItsAgents }
    ensures suppression { SuppressionIsItsClients }
    ensures cycle { CycleOnlyOffers }
{}

/// Proves that a cycle offers nothing to a suppressed client and nothing that a filter in force covers, and that no
/// number is given to two offers.
pub fn offers_law()
    ensures suppressed { SuppressedIsNotOffered }
    ensures filtered { FilteredIsNotOffered }
    ensures numbers { NumbersAreNew }
{}

/// Proves what a report has: the cluster's total, and for each node what its clients hold, their number of offers and
/// their shares. The nodes are the prefixes of the paths of clients, in order; amounts are greater than 0; shares are
/// in lowest terms.
pub fn report_law()
    ensures total { TotalIsReported }
    ensures held { HeldIsReported }
    ensures above_zero { AmountsAreAboveZero }
    ensures count { CountIsReported }
    ensures lowest { SharesAreLowest }
    ensures order { NodesRise }
    ensures nodes { NodesBeginPaths }
{}

/// Proves that setting a weight changes the weight of its role and of no other. If the state is consistent, each role
/// keeps at most one row, and in no run from the start does a role have two.
pub fn set_weight_law()
    ensures set { RoleHasItsWeight }
    ensures others { OthersKeepTheirWeight }
    ensures one_row { EachHasOneRow }
    ensures run { NoRoleHasTwoRows }
{}

/// Proves that after a framework's roles are set, it is registered in exactly the listed roles, and the clients of
/// other frameworks are the same. If the state is consistent, a list of the roles that it has already, in any order,
/// changes nothing. A role that is left and then taken again is active, with count 0 and without filters.
pub fn set_framework_law()
    ensures listed { ListedRolesAreSet }
    ensures others { OtherClientsStayRegistered }
    ensures same { SameRolesChangeNothing }
    ensures again { TakenAgainIsNew }
{}
