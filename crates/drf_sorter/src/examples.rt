//! Examples of orders and shares, which are computed from the definitions.
#![tactic(auto, unfolding(crate::specs::Content::standing_in, drf_rows::specs::Share::is_ahead, drf_rows::specs::Share::common_divisor))]

ghost use Rattle.std.specs.Prelude.{◌≡◌, [], ◌∷◌, false, IsTrue};
ghost use Rattle.drf_rows.specs.Share.{is_serving_order, lowest_terms, share_of, weighted_share_of};
ghost use Rattle.drf_sorter.specs.Content.{has_node, standing_in};
ghost use Rattle.drf_sorter.specs.examples.Examples.{client_of_eng, client_of_eng_mark, client_of_eng_web, client_of_ops, dev, eng, eng_has_half_weight, four_charges, ops_gave_back, three_charges, two_clients};

/// Proves the orders of three clients that share 8 cpus along the tree of roles.
pub fn order_of_three_example()
    ensures three { IsTrue (is_serving_order (standing_in three_charges) (client_of_ops ∷ client_of_eng ∷ client_of_eng_web ∷ [])) }
    ensures four { IsTrue (is_serving_order (standing_in four_charges) (client_of_eng ∷ client_of_eng_web ∷ client_of_ops ∷ [])) }
    ensures light { IsTrue (is_serving_order (standing_in eng_has_half_weight) (client_of_ops ∷ client_of_eng ∷ client_of_eng_web ∷ [])) }
    ensures given_back { IsTrue (is_serving_order (standing_in ops_gave_back) (client_of_ops ∷ client_of_eng ∷ client_of_eng_web ∷ [])) }
    ensures nothing_held { IsTrue (is_serving_order (standing_in two_clients) (client_of_eng_mark ∷ client_of_eng ∷ [])) }
{}

/// Proves that the share of a role is the share of all clients below it, in an example.
pub fn share_of_a_role_example()
    ensures share { lowest_terms (share_of (standing_in four_charges) eng) ≡ record { part = 3; whole = 8 } }
    ensures weighted { lowest_terms (weighted_share_of (standing_in four_charges) eng) ≡ record { part = 3; whole = 8 } }
    ensures light { lowest_terms (weighted_share_of (standing_in eng_has_half_weight) eng) ≡ record { part = 3; whole = 4 } }
    ensures count { (standing_in four_charges).count eng ≡ 2 }
    ensures unknown { has_node four_charges dev ≡ false }
{}
