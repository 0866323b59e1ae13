//! Theorems about shares and about the order of clients. The functions do nothing; their contracts are proved from the definitions alone.
ghost use Rattle.std.specs.Prelude.{◌≡◌, ◌≤◌, true, false, not};
ghost use Rattle.std.specs.Ordering.{is_lt, is_eq};
ghost use Rattle.drf_role.specs.Path.{Path, begins_with};
ghost use Rattle.drf_rows.specs.Share.{Standing, is_less, is_same, stands_before};
ghost use Rattle.drf_sorter.specs.laws.Laws.{ArrivalDoesNotMatter, ClientsHaveDefaultWeight, HeavierHasLess, LesserNameFirst, LowestIsFound, NothingIsZero, OneLowestForm, ProductsFit, SameLowestForm, SuppressedCounts, UndoneChargeChangesNothing};
ghost use Rattle.drf_sorter.specs.Served.{EachBeforeAllLater, EachHasItsTurn, EachIsServedOnce};
ghost use Rattle.drf_sorter.specs.Share.{fraction_of, share_cmp, share_eq};
ghost use Rattle.drf_sorter.specs.declared.share.Share.{Share};

/// Proves that the order of shares is the order of their fractions, and that shares are equal if their fractions are equal. The cross
/// products that are compared have at most 124 bits.
pub fn share_order_law()
    ensures less { (a b : Share) → is_lt (share_cmp a b) ≡ is_less (fraction_of a) (fraction_of b) }
    ensures same { (a b : Share) → share_eq a b ≡ is_same (fraction_of a) (fraction_of b) }
    ensures tied { (a b : Share) → share_eq a b ≡ is_eq (share_cmp a b) }
    ensures products { ProductsFit }
{}

/// Proves that each fraction has exactly one form in lowest terms, and that equal fractions have the same.
pub fn lowest_terms_law()
    ensures found { LowestIsFound }
    ensures one { OneLowestForm }
    ensures same { SameLowestForm }
    ensures nothing { NothingIsZero }
{}

/// Proves that at most one of two clients comes before the other, and exactly one if neither path is a prefix of the other. If every node
/// has a weight, the order is also transitive.
pub fn client_order_law()
    ensures asymmetric { (s : Standing) (a b : Path) →
        stands_before s a b ≡ true → stands_before s b a ≡ false }
    ensures total { (s : Standing) (a b : Path) →
        begins_with a b ≡ false → begins_with b a ≡ false → stands_before s b a ≡ not (stands_before s a b) }
    ensures transitive { (s : Standing) → ((node : Path) → 1 ≤ s.weight node) →
        (a b c : Path) → stands_before s a b ≡ true → stands_before s b c ≡ true → stands_before s a c ≡ true }
{}

/// Proves that the definition's order of clients has each client once, and that each comes before all later ones, if every node has a
/// weight. So each active client is tried in an agent's turn.
pub fn everyone_is_served_law()
    ensures each_once { EachIsServedOnce }
    ensures in_order { EachBeforeAllLater }
    ensures turn { EachHasItsTurn }
{}

/// Proves that of two siblings that differ only in their names, the one whose name is less comes first.
pub fn sibling_law()
    ensures { LesserNameFirst }
{}

/// Proves that a greater weight means a smaller weighted share, for a role that holds something of the total, and that in consistent rows
/// only roles have weights.
pub fn weight_law()
    ensures heavier { HeavierHasLess }
    ensures roles_alone { ClientsHaveDefaultWeight }
{}

/// Proves that undoing a charge restores the content, and that suppressed clients still count in shares.
pub fn change_law()
    ensures undone { UndoneChargeChangesNothing }
    ensures suppressed { SuppressedCounts }
{}

/// Proves that the order in which clients are added does not affect the order in which they are served.
pub fn arrival_law()
    ensures { ArrivalDoesNotMatter }
{}
