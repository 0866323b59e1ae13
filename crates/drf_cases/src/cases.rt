//! Computed runs in which every refusal case of every event occurs, and a theorem about what events leave unchanged.
#![tactic(auto, unfolding(drf_rows::specs::Share::is_ahead, drf_rows::specs::Held::standing_of, drf_rows::specs::Cycle::free_of, drf_rows::specs::Cycle::with_offer, drf_rows::specs::Cycle::turn, drf_rows::specs::Cycle::cycle, drf_rows::specs::Step::refusal_of, drf_rows::specs::Step::effect, drf_rows::specs::Step::rows_after, drf_rows::specs::Step::reply_to))]

ghost use Rattle.std.specs.Prelude.{◌≡◌, [], ◌∷◌, codes};
ghost use Rattle.drf_worked.specs.Examples.{mem, not_offered, offered_whole, replies_with};
ghost use Rattle.drf_worked.specs.OrderExamples.{served};
ghost use Rattle.drf_cases.specs.AgentCases.{agents_dialogue};
ghost use Rattle.drf_cases.specs.FrameworkCases.{frameworks_dialogue, set_framework_dialogue};
ghost use Rattle.drf_cases.specs.FullCases.{FullRefusesAll, full_dialogue, one_event};
ghost use Rattle.drf_cases.specs.OfferCases.{offers_dialogue};
ghost use Rattle.drf_cases.specs.RefusalCases.{refusals_documented, refusals_dialogue};
ghost use Rattle.drf_cases.specs.RoleCases.{reservations_dialogue, roles_dialogue};
ghost use Rattle.drf_cases.specs.ServedCases.{mem_for, one_counted, one_idle, one_suppressed};
ghost use Rattle.drf_cases.specs.Dialogue.{IsRun, few};
ghost use Rattle.drf_cases.specs.Untouched.{ClockStands, FiltersStand, LimitsStand, NumberStands, WeightsStand};

/// Proves a run with the refusals about agents: unknown, already registered, too large, too many agents, too many names
/// of scalars, and a total below the held resources. An active agent can be activated, and an inactive one deactivated.
pub fn agents_cases()
    ensures { IsRun few agents_dialogue }
{}

/// Proves a run with the refusals about frameworks and clients: unknown, already registered, without roles, too many
/// roles, frameworks or clients, and not in the role. A suppressed client can be suppressed, and one that is not can
/// revive.
pub fn frameworks_cases()
    ensures { IsRun few frameworks_dialogue }
{}

/// Proves a run with the refusals when a framework's roles change: an unknown framework, no roles, too many roles or
/// clients, and leaving a role with an offer or a task.
pub fn set_framework_cases()
    ensures { IsRun few set_framework_dialogue }
{}

/// Proves a run with the refusals about offers, tasks and cycles: a timestamp too late, unknown frameworks, offers and
/// tasks, another framework's offer, task names in use, empty tasks, tasks beyond the offer, and one filter too many.
pub fn offers_cases()
    ensures { IsRun few offers_dialogue }
{}

/// Proves a run with the refusals about reservations: an unknown agent, the role `*`, nothing, resources that are
/// reserved already or not free, and a limit that would be exceeded. Inactive agents can have reservations.
pub fn reservations_cases()
    ensures { IsRun few reservations_dialogue }
{}

/// Proves a run with the refusals about weights and limits: out of range, the role `*`, too many rows, and too many
/// names.
pub fn roles_cases()
    ensures { IsRun few roles_dialogue }
{}

/// Proves that every event is refused with `HistoryFull` if the history is full.
pub fn full_cases()
    ensures all { FullRefusesAll }
    ensures run { IsRun one_event full_dialogue }
{}

/// Proves what counts for the order of clients. What suppressed clients hold, and the offers that they received, count
/// for the nodes above them; so do the resources held on inactive agents. Reserved resources count for the least size of an
/// offer, but only to clients that can use them.
pub fn fairness_cases()
    ensures suppressed { served one_suppressed ≡ codes "f3" ∷ codes "f2" ∷ [] }
    ensures counted { served one_counted ≡ codes "f3" ∷ codes "f2" ∷ [] }
    ensures idle { served one_idle ≡ codes "f3" ∷ codes "f2" ∷ [] }
    ensures reserved { replies_with (mem 16000 ∷ mem_for (codes "a") 16000 ∷ []) ≡ offered_whole (mem 16000 ∷ mem_for (codes "a") 16000 ∷ []) }
    ensures for_others { replies_with (mem 16000 ∷ mem_for (codes "b") 16000 ∷ []) ≡ not_offered }
{}

/// Proves that the number and name of each refusal are those in the documents.
pub fn refusals_cases()
    ensures { refusals_dialogue ≡ refusals_documented }
{}

/// Proves what events leave unchanged. Weights and limits stay until they are set. Filters stay except in an accept or
/// a decline (which can add one), a revive, a change of roles, and the removal of an agent or a framework. The clock
/// stays until an event with a timestamp, and the next offer number until a cycle.
pub fn untouched_law()
    ensures weights { WeightsStand }
    ensures limits { LimitsStand }
    ensures filters { FiltersStand }
    ensures clock { ClockStands }
    ensures number { NumberStands }
{}
