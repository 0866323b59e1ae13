//! Theorems about amounts by label and about the units of bundles. The functions do nothing: each contract is a
//! theorem.
ghost use Rattle.drf_bundle.specs.laws.Laws.{SetsOneAmount, NamesOneLabel, SettingKeepsOrder, AmountsAdd, SumNamesBoth, AddingKeepsOrder, SumHasNoZeros, AddingCommutes, AddingAssociates, AmountsFall, NamesStay, LoweringKeepsOrder, ZerosCountNothing, NoZerosAreLeft, CoversByAmounts, KnownByAmounts};
ghost use Rattle.drf_bundle.specs.Taken.{TakenAndLeftJoin, OnlyTheRestJoins};
ghost use Rattle.drf_bundle.specs.laws.UnitLaws.{KnownByUnits, JoinHasUnitsOfBoth, StocksAdd, CoversByUnits, RestHasTheOthers, RestIsBundle, RestAndPartJoin, QuantitiesSumScalars, QuantitiesHaveNoZeros, QuantitiesAdd, PartIsCovered, ClippedIsCovered, MovedIsBundle, MovedKeepsStocks, UnionIsBundle, UnionHasUnits};

/// Proves what `set` does: it sets one amount, names its label, and keeps the order.
pub fn setting_law()
    ensures amount { SetsOneAmount }
    ensures names { NamesOneLabel }
    ensures in_order { SettingKeepsOrder }
{}

/// Proves what adding two lists does: amounts add, all labels of both are named, and the order is kept.
pub fn adding_law()
    ensures amounts { AmountsAdd }
    ensures names { SumNamesBoth }
    ensures in_order { AddingKeepsOrder }
    ensures no_zeros { SumHasNoZeros }
    ensures commutes { AddingCommutes }
    ensures associates { AddingAssociates }
{}

/// Proves what subtracting a list from another does: amounts fall, labels stay, and the order is kept.
pub fn lowering_law()
    ensures amounts { AmountsFall }
    ensures names { NamesStay }
    ensures in_order { LoweringKeepsOrder }
{}

/// Proves that removing labels with the amount 0 changes no amount and leaves no zeros.
pub fn zeros_law()
    ensures amounts { ZerosCountNothing }
    ensures no_zeros { NoZerosAreLeft }
{}

/// Proves that a list covers another exactly if each of its amounts is at least the other's.
pub fn covering_law()
    ensures { CoversByAmounts }
{}

/// Proves that two lists without zeros are equal if their amounts are.
pub fn amounts_law()
    ensures { KnownByAmounts }
{}

/// Proves that two bundles are equal if their units are.
pub fn units_law()
    ensures { KnownByUnits }
{}

/// Proves that a bundle is the join of two others exactly if it has the units of both, and that the join has the stocks of
/// both.
pub fn bundle_join_law()
    ensures units { JoinHasUnitsOfBoth }
    ensures stocks { StocksAdd }
{}

/// Proves that a bundle covers another exactly if it has at least its units, and that the rest is a bundle, has the
/// other units, and joins with the part to the whole.
pub fn bundle_rest_law()
    ensures covers { CoversByUnits }
    ensures units { RestHasTheOthers }
    ensures bundle { RestIsBundle }
    ensures whole { RestAndPartJoin }
{}

/// Proves that quantities are the scalars summed over reservations, have no zeros, and add when bundles are joined.
pub fn quantities_law()
    ensures amounts { QuantitiesSumScalars }
    ensures no_zeros { QuantitiesHaveNoZeros }
    ensures joined { QuantitiesAdd }
{}

/// Proves that the part for a role, the bundle cut to limits, and the relabelled bundle are valid bundles; the first
/// two are covered by the original, and the last has the same stocks.
pub fn bundle_part_law()
    ensures part { PartIsCovered }
    ensures clipped { ClippedIsCovered }
    ensures moved { MovedIsBundle }
    ensures stocks { MovedKeepsStocks }
{}

/// Proves that uniting a resource with a bundle makes a bundle, and which units it has.
pub fn bundle_union_law()
    ensures bundle { UnionIsBundle }
    ensures units { UnionHasUnits }
{}

/// Proves that the rest of a bundle after parts are taken from it joins with them to the whole, and that nothing
/// else does.
pub fn taking_law()
    ensures joins { TakenAndLeftJoin }
    ensures only { OnlyTheRestJoins }
{}
