//! Theorems about filters. The function does nothing; its contract is the theorem.
ghost use Rattle.drf_gates.specs.filters.Laws.{SpentHoldNothing, LessIsHeldBack, HeldBackIsRefused};

/// Proves that expired filters hold nothing back, and that a filter in force holds back, from its client on its agent, exactly the bundles
/// whose units it covers.
pub fn filters_law()
    ensures spent { SpentHoldNothing }
    ensures less { LessIsHeldBack }
    ensures refused { HeldBackIsRefused }
{}
