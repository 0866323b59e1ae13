//! Theorems about quota limits and reservations. The functions do nothing: their contracts are proved about the
//! definition alone.

ghost use Rattle.drf_row_laws.specs.QuotaLaws.{GrantKeepsLimits, CycleKeepsLimits, SpentLimitLeavesNothing, ConsumptionIsPartOfTotal};
ghost use Rattle.drf_row_laws.specs.ReservationLaws.{ReservedIsGivenBack, ReservingKeepsLimits, MovedIsConsumed, ChangedAgentKeepsAll};
ghost use Rattle.drf_row_laws.specs.EntitlementLaws.{EntitledByUnits};
ghost use Rattle.drf_laws.specs.ConsumptionLaws.{RolesAboveConsumeMore, RestIsConsumedNoLonger, ConsumptionIsSmall};
ghost use Rattle.drf_laws.specs.MovingLaws.{MovedOnly, ReservedCanBeGivenBack, GivenBackCanBeReserved, WithinLimitsItIsAdmitted, RefusedWouldPass, LimitsRefuseNothingElse};
ghost use Rattle.drf_laws.specs.HeldForLaws.{ReservedIsHeldByItsRole};
ghost use Rattle.drf_laws.specs.KeptLimitLaws.{ChangedAgentIsConsumed, RunsKeepLimits};
ghost use Rattle.drf_row_laws.specs.LimitLaws.{RoleHasItsLimit, OthersKeepTheirLimit, LimitTakesNothing};

/// Proves that an offer of at most the entitlement takes neither its role nor a role above it over a limit, so that no
/// cycle does. If at least the limit is consumed, no headroom is left. No role consumes more than the cluster's total.
pub fn limits_law()
    ensures kept { GrantKeepsLimits }
    ensures cycle { CycleKeepsLimits }
    ensures spent { SpentLimitLeavesNothing }
    ensures part { ConsumptionIsPartOfTotal }
{}

/// Proves what a client can have of a free bundle: everything reserved for its role or a role above it, no other
/// reserved resources, and all unreserved resources except what the headroom cuts from scalars. So only clients of a
/// role and of the roles below it hold resources reserved for it.
pub fn entitlement_law()
    ensures units { EntitledByUnits }
    ensures held { ReservedIsHeldByItsRole }
{}

/// Proves that setting a limit changes the limit of its role and nothing else: holdings above the limit stay.
pub fn set_limit_law()
    ensures set { RoleHasItsLimit }
    ensures others { OthersKeepTheirLimit }
    ensures nothing { LimitTakesNothing }
{}

/// Proves that a role consumes at least what each role below it consumes, that consumption is less than 2^52
/// thousandths, and that of an accepted offer only the tasks are consumed.
pub fn consumption_law()
    ensures above { RolesAboveConsumeMore }
    ensures rest { RestIsConsumedNoLonger }
    ensures small { ConsumptionIsSmall }
{}

/// Proves that reserving and unreserving change the reservation of this part of one agent and nothing else. A
/// reservation can be undone at once; an unreservation can be undone if the limits admit it.
pub fn moving_law()
    ensures only { MovedOnly }
    ensures back { ReservedCanBeGivenBack }
    ensures again { GivenBackCanBeReserved }
    ensures admitted { WithinLimitsItIsAdmitted }
{}

/// Proves that limits refuse nothing except reservations with which a role would consume more than its limit, and,
/// through their capacity, limits themselves.
pub fn limit_refusals_law()
    ensures passed { RefusedWouldPass }
    ensures nothing { LimitsRefuseNothingElse }
{}

/// Proves that reserved resources count as consumed by their role and the roles above it, that reserving takes none of
/// these over a limit, and that reserving and then unreserving restores the state.
pub fn reservations_law()
    ensures back { ReservedIsGivenBack }
    ensures kept { ReservingKeepsLimits }
    ensures consumed { MovedIsConsumed }
{}

/// Proves that setting the total of an agent keeps everything held there and changes nothing else in the state. What
/// the new total has reserved is consumed in place of what the old one had.
pub fn set_agent_law()
    ensures kept { ChangedAgentKeepsAll }
    ensures consumed { ChangedAgentIsConsumed }
{}

/// Proves that during events that add no agent, change no total and set no limit, the consumption of a role does not
/// rise above its limit, or above what it was before.
pub fn limited_runs_law()
    ensures { RunsKeepLimits }
{}
