//! Computed runs. The functions do nothing.
#![tactic(auto, unfolding(drf_rows::specs::Share::is_ahead, drf_rows::specs::Held::standing_of, drf_rows::specs::Cycle::free_of, drf_rows::specs::Cycle::with_offer, drf_rows::specs::Cycle::turn, drf_rows::specs::Cycle::cycle, drf_rows::specs::Share::common_divisor, drf_rows::specs::Report::report_of, drf_rows::specs::Step::refusal_of, drf_rows::specs::Step::effect, drf_rows::specs::Step::rows_after, drf_rows::specs::Step::reply_to))]

ghost use Rattle.std.specs.Prelude.{◌≡◌, [], ◌∷◌, codes};
ghost use Rattle.drf_rows.specs.LimitNumbers.{ceilings};
ghost use Rattle.drf_rows.specs.Step.{opening, replies_to};
ghost use Rattle.drf_worked.specs.Examples.{one_cycle, two_cycles, two_cycles_replies, two_frameworks, two_frameworks_replies, replies_with, not_offered, offered_whole, refused_as_too_large, one_agent, two_agents, two_events, two_names, three_names, names_kept, names_kept_replies, one_framework, one_client, two_registrations, one_role, roles_listed, reserved_for_eng, reserved_for_eng_replies, cpus, cpus_for, mem, gpus};
ghost use Rattle.drf_worked.specs.OrderExamples.{served, offered, half_at_work, close_shares, equal_shares, weighted_shares, shares_of, first_agent, second_agent, idle_agent, role_tree, more_for_ops, half_weight_of_eng, nothing_held};
ghost use Rattle.drf_rows.specs.Report.{report_of};
ghost use Rattle.drf_worked.specs.ReportExamples.{tree_at_work, tree_report, one_weighted, weighted_report, nothing_there, nothing_report, reserved_held, reserved_report, two_reports, two_reports_replies};
ghost use Rattle.drf_worked.specs.LifeExamples.{a_task, a_task_replies, two_tasks, two_tasks_replies, a_filter, a_filter_replies, a_clock, a_clock_replies, a_year, a_year_replies, one_filter, two_filters, two_filters_replies, taking_part, taking_part_replies, refused, refused_replies};
ghost use Rattle.drf_worked.specs.FilterExamples.{whose_filter, whose_filter_replies, a_rest, a_rest_replies, a_later_decline, a_later_decline_replies, at_the_limit, at_the_limit_replies, two_roles, two_roles_replies, one_role_revives, one_role_revives_replies, who_leaves, who_leaves_replies};
ghost use Rattle.drf_worked.specs.RoleExamples.{roles_change, roles_change_replies, five_roles, frameworks_after, five_roles_rows};
ghost use Rattle.drf_worked.specs.WeightExamples.{bounds, bounds_replies, replaced, weights_after, replaced_rows, one_weight, one_weight_replies, replies_by_weight, third_to};

use drf_rows::{Refusal, Reply};

/// Proves runs in which offered resources are not offered again, and each offer changes which client is served first.
pub fn cycles_example()
    ensures two_cycles { replies_to ceilings opening two_cycles ≡ two_cycles_replies }
    ensures two_frameworks { replies_to ceilings opening two_frameworks ≡ two_frameworks_replies }
{}

/// Proves a run in which reserved resources are offered to their role and the roles below it, and to no other.
pub fn reservations_example()
    ensures { replies_to ceilings opening reserved_for_eng ≡ reserved_for_eng_replies }
{}

/// Proves that an offer has at least 0.01 `cpus` or 32 `mem`.
pub fn least_offer_example()
    ensures below { replies_with (cpus 9 ∷ mem 31999 ∷ []) ≡ not_offered }
    ensures others { replies_with (gpus 8000 ∷ []) ≡ not_offered }
    ensures nothing { replies_with [] ≡ not_offered }
    ensures cpus { replies_with (cpus 10 ∷ []) ≡ offered_whole (cpus 10 ∷ []) }
    ensures reserved { replies_with (cpus 6 ∷ cpus_for (codes "a") 4 ∷ []) ≡ offered_whole (cpus 6 ∷ cpus_for (codes "a") 4 ∷ []) }
    ensures mem { replies_with (mem 32000 ∷ []) ≡ offered_whole (mem 32000 ∷ []) }
{}

/// Proves a run in which an inactive agent has no turn, and a suppressed client is not tried.
pub fn inactive_example()
    ensures offered { offered half_at_work ≡ (codes "n2", codes "fb") ∷ [] }
{}

/// Proves runs at the capacities. The greatest amount of a scalar on one agent is accepted, and one thousandth more is
/// refused. Small capacities for agents, names of scalars, frameworks, clients, roles and events refuse one more. The
/// names of inactive agents count. A role that is listed twice is one role and one client.
pub fn limits_example()
    ensures largest { replies_with (cpus 1099511627775 ∷ []) ≡ offered_whole (cpus 1099511627775 ∷ []) }
    ensures too_large { replies_with (cpus 1099511627776 ∷ []) ≡ refused_as_too_large }
    ensures reserved { replies_with (cpus 1099511627775 ∷ cpus_for (codes "eng") 1 ∷ []) ≡ refused_as_too_large }
    ensures agents { replies_to one_agent opening two_agents ≡ Reply.Done ∷ Reply.Refused Refusal.TooMany ∷ [] }
    ensures names { replies_to two_names opening three_names ≡ Reply.Done ∷ Reply.Refused Refusal.TooMany ∷ Reply.Done ∷ [] }
    ensures names_kept { replies_to two_names opening names_kept ≡ names_kept_replies }
    ensures frameworks { replies_to one_framework opening two_registrations ≡ Reply.Done ∷ Reply.Refused Refusal.TooMany ∷ [] }
    ensures clients { replies_to one_client opening two_registrations ≡ Reply.Done ∷ Reply.Refused Refusal.TooMany ∷ [] }
    ensures roles { replies_to one_role opening roles_listed ≡ Reply.Done ∷ Reply.Refused Refusal.TooMany ∷ [] }
    ensures clients_listed { replies_to one_client opening roles_listed ≡ Reply.Done ∷ Reply.Refused Refusal.TooMany ∷ [] }
    ensures events { replies_to two_events opening one_cycle ≡ Reply.Done ∷ Reply.Done ∷ Reply.Refused Refusal.HistoryFull ∷ [] }
{}

/// Proves runs in which clients are ordered by exact fractions, then by counts, then by names, from the top of the tree
/// of roles down.
pub fn order_example()
    ensures close { served close_shares ≡ codes "fb" ∷ codes "fa" ∷ [] }
    ensures equal { served equal_shares ≡ codes "fb" ∷ codes "fa" ∷ [] }
    ensures weighted { served weighted_shares ≡ codes "fa" ∷ codes "fb" ∷ [] }
    ensures one_agent { served (shares_of (first_agent ∷ [])) ≡ codes "fa" ∷ codes "fb" ∷ [] }
    ensures two_agents { served (shares_of (first_agent ∷ second_agent ∷ [])) ≡ codes "fb" ∷ codes "fa" ∷ [] }
    ensures idle { served (shares_of (first_agent ∷ idle_agent ∷ [])) ≡ codes "fb" ∷ codes "fa" ∷ [] }
    ensures tree { served (role_tree 1 [] []) ≡ codes "f3" ∷ codes "f1" ∷ codes "f2" ∷ [] }
    ensures more_for_one { served (role_tree 2 more_for_ops []) ≡ codes "f1" ∷ codes "f2" ∷ codes "f3" ∷ [] }
    ensures light { served (role_tree 2 more_for_ops half_weight_of_eng) ≡ codes "f3" ∷ codes "f1" ∷ codes "f2" ∷ [] }
    ensures below { served nothing_held ≡ codes "f2" ∷ codes "f1" ∷ [] }
{}

/// Proves runs with weights. They are from 0.001 to 1000; a row that is replaced keeps its place; and if two roles hold
/// the same, the one with the greater weight is served first.
pub fn weights_example()
    ensures bounds { replies_to ceilings opening bounds ≡ bounds_replies }
    ensures replaced { weights_after replaced ≡ replaced_rows }
    ensures one_row { replies_to one_weight opening replaced ≡ one_weight_replies }
    ensures weight_of_one { replies_by_weight 1000 ≡ third_to (codes "fa") (codes "a") }
    ensures heavier { replies_by_weight 1001 ≡ third_to (codes "fb") (codes "b") }
{}

/// Proves reports. What a role holds includes what the roles below it hold; only roles have weights; suppressed clients
/// are reported; and scalars count over all reservations.
pub fn report_example()
    ensures tree { report_of tree_at_work ≡ tree_report }
    ensures weighted { report_of one_weighted ≡ weighted_report }
    ensures nothing { report_of nothing_there ≡ nothing_report }
    ensures reserved { report_of reserved_held ≡ reserved_report }
    ensures events { replies_to ceilings opening two_reports ≡ two_reports_replies }
{}

/// Proves runs with tasks and filters. An accept starts all of its tasks or none. What a task used is offered again
/// after it has finished, and declined resources after their filter has expired, which is at most 365 days after the
/// clock. One filter more than the capacity is refused.
pub fn life_example()
    ensures task { replies_to ceilings opening a_task ≡ a_task_replies }
    ensures several { replies_to ceilings opening two_tasks ≡ two_tasks_replies }
    ensures filter { replies_to ceilings opening a_filter ≡ a_filter_replies }
    ensures clock { replies_to ceilings opening a_clock ≡ a_clock_replies }
    ensures year { replies_to ceilings opening a_year ≡ a_year_replies }
    ensures limit { replies_to one_filter opening two_filters ≡ two_filters_replies }
{}

/// Proves runs in which a deactivated agent is not offered, a suppressed client is offered nothing, a client that
/// revives is offered what it declined, and removed agents and frameworks are no longer reported. Each refusal from
/// `BadMoment` to `NotCovered`, except `KnownAgent`, occurs.
pub fn taking_part_example()
    ensures part { replies_to ceilings opening taking_part ≡ taking_part_replies }
    ensures refused { replies_to ceilings opening refused ≡ refused_replies }
{}

/// Proves runs with filters. A filter keeps what it covers from its own client on its own agent only, from its event
/// until its end. An accept or a decline that sets no filter is not refused because of the capacity for filters. The
/// greatest timestamp is accepted.
pub fn filters_example()
    ensures whose { replies_to ceilings opening whose_filter ≡ whose_filter_replies }
    ensures rest { replies_to ceilings opening a_rest ≡ a_rest_replies }
    ensures later { replies_to ceilings opening a_later_decline ≡ a_later_decline_replies }
    ensures limit { replies_to one_filter opening at_the_limit ≡ at_the_limit_replies }
{}

/// Proves runs in which reviving, removing and deactivating leave other clients and agents unchanged.
pub fn others_example()
    ensures roles { replies_to ceilings opening two_roles ≡ two_roles_replies }
    ensures frameworks { replies_to ceilings opening one_role_revives ≡ one_role_revives_replies }
    ensures left { replies_to ceilings opening who_leaves ≡ who_leaves_replies }
{}

/// Proves runs in which a framework's roles change. It is offered what is reserved for a new role, cannot leave a role
/// in use, and a role that is taken again has no filters and the count 0. Roles that stay come first, then the new ones
/// in the order of the list.
pub fn role_changes_example()
    ensures change { replies_to ceilings opening roles_change ≡ roles_change_replies }
    ensures order { frameworks_after five_roles ≡ five_roles_rows }
{}
