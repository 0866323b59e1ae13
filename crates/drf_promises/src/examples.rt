//! Runs that are computed from the definition: one for each promise, and one for each expectation that fails. The
//! functions do nothing.
#![tactic(auto, unfolding(drf_rows::specs::Share::is_ahead, drf_rows::specs::Held::standing_of, drf_rows::specs::Cycle::free_of, drf_rows::specs::Cycle::with_offer, drf_rows::specs::Cycle::turn, drf_rows::specs::Cycle::cycle, drf_rows::specs::Step::refusal_of, drf_rows::specs::Step::effect, drf_rows::specs::Step::rows_after, drf_rows::specs::Step::reply_to, drf_explain::specs::Explained::explained))]

ghost use Rattle.std.specs.Prelude.{◌≡◌, ◌∷◌, [], codes, true};
ghost use Rattle.drf_rows.specs.Client.{path_of};
ghost use Rattle.drf_rows.specs.Held.{held_by};
ghost use Rattle.drf_rows.specs.LimitNumbers.{ceilings};
ghost use Rattle.drf_rows.specs.Share.{is_same};
ghost use Rattle.drf_rows.specs.Step.{opening};
ghost use Rattle.drf_rows.specs.declared.event.Event.TheVariants.{Cycle};
ghost use Rattle.drf_explain.specs.Explained.{explained};
ghost use Rattle.drf_explain.specs.declared.finding.Finding.TheVariants.{Tried};
ghost use Rattle.drf_explain.specs.declared.finding.Outcome.TheVariants.{OverLimit};
ghost use Rattle.drf_promises.specs.Frameworks.{offers_to_roles};
ghost use Rattle.drf_promises.specs.Passes.{lead_of, passes_in};
ghost use Rattle.drf_promises.specs.Sharing.{share_at};
ghost use Rattle.drf_promises.specs.examples.PromiseExamples.{a, alone, among, arrived, b, colleague, cut, declined, declined_by_each, declined_in_role, fa, fb, fc, grown, in_turn, its_task, large, little_used, modest, offered_to, one, one_more, reserved, rows_of, running, shared, six, small, small_agent, unlike, waiting, weighed};

/// Proves one run for each promise. Free resources that a cycle leaves are explained by a limit; a task keeps running;
/// reserved resources go to their role; an agent that each client declines is offered to each; a role that holds
/// nothing is passed over once; five equal agents are shared 3 to 2; one more framework in a role changes nothing in
/// how six agents are shared between roles; and a client that gets nothing while another one does is not overtaken.
pub fn promises_example()
    ensures left { explained (rows_of cut) 0 ≡ Tried (codes "n1") (path_of (record { role = a; framework = fa })) (OverLimit a) ∷ [] }
    ensures running { (rows_of running).tasks ≡ its_task ∷ [] }
    ensures reserved { offered_to reserved ≡ fa ∷ [] }
    ensures each { declined_by_each (0 ∷ 1000 ∷ []) ≡ fa ∷ fb ∷ [] }
    ensures passed { passes_in ceilings b (rows_of alone) (Cycle 0 ∷ Cycle 0 ∷ []) ≡ 1 }
    ensures lead { lead_of (rows_of alone) [] (codes "b") (codes "a" ∷ []) ≡ 1 }
    ensures shared { offered_to shared ≡ fa ∷ fb ∷ fa ∷ fb ∷ fa ∷ [] }
    ensures more { offers_to_roles ceilings opening (six colleague) ≡ offers_to_roles ceilings opening (six []) }
    ensures not_overtaken { offered_to waiting ≡ fa ∷ fb ∷ fc ∷ [] }
{}

/// Proves runs in which an expectation fails that is not promised. Shares as they are within a turn do not decide; of
/// two clients, only one gets the only agent; a team gains by splitting into two roles; a framework that takes less
/// than it is offered loses the rest; a framework that declines without a filter is offered the same again; a framework
/// can get less with a greater weight, or with one framework less to share with; a framework that uses little of what
/// it accepted can get more than one agent more than its sibling; a role is offered what one of its frameworks
/// declined, if it has another framework; one more agent can leave a framework with less; two frameworks with equal
/// shares can have room for different numbers of tasks; and the order in which agents register changes who gets what.
pub fn not_promised_example()
    ensures in_turn { offered_to in_turn ≡ fa ∷ fb ∷ [] }
    ensures one { offered_to one ≡ fa ∷ [] }
    ensures six { offered_to (six []) ≡ fa ∷ fb ∷ fa ∷ fb ∷ fa ∷ fb ∷ [] }
    ensures split { offered_to (six one_more) ≡ fa ∷ fb ∷ fc ∷ fa ∷ fb ∷ fc ∷ [] }
    ensures modest { offered_to modest ≡ fa ∷ fb ∷ [] }
    ensures declined { offered_to declined ≡ fa ∷ fb ∷ fb ∷ fb ∷ fa ∷ [] }
    ensures light { held_by (rows_of (weighed 1000)) a (codes "mem") ≡ 160000 }
    ensures heavy { held_by (rows_of (weighed 2000)) a (codes "mem") ≡ 64000 }
    ensures three { held_by (rows_of (among one_more)) a (codes "mem") ≡ 160000 }
    ensures two { held_by (rows_of (among [])) a (codes "mem") ≡ 96000 }
    ensures used { held_by (rows_of little_used) a (codes "cpus") ≡ 3 }
    ensures kept { held_by (rows_of little_used) b (codes "cpus") ≡ 2000 }
    ensures lone { offered_to (declined_in_role []) ≡ fa ∷ fb ∷ fa ∷ [] }
    ensures two_of_role { offered_to (declined_in_role colleague) ≡ fa ∷ fb ∷ fc ∷ [] }
    ensures three_agents { held_by (rows_of (grown [])) a (codes "cpus") ≡ 12000 }
    ensures four_agents { held_by (rows_of (grown small_agent)) a (codes "cpus") ≡ 5000 }
    ensures same_shares { is_same (share_at (rows_of unlike) a) (share_at (rows_of unlike) b) ≡ true }
    ensures three_tasks { held_by (rows_of unlike) a (codes "cpus") ≡ 3000 }
    ensures one_task { held_by (rows_of unlike) b (codes "cpus") ≡ 1000 }
    ensures large_first { held_by (rows_of (arrived large small)) a (codes "cpus") ≡ 4000 }
    ensures small_first { held_by (rows_of (arrived small large)) a (codes "cpus") ≡ 1000 }
{}
