//! A small cluster for which the definition is computed. The function does nothing; its contract is proved of the definition alone.
#![tactic(auto, unfolding(drf_rows::specs::Share::is_ahead, drf_rows::specs::Held::standing_of, drf_rows::specs::Cycle::free_of, drf_rows::specs::Cycle::with_offer, drf_rows::specs::Cycle::turn, drf_rows::specs::Cycle::cycle, drf_rows::specs::Share::common_divisor, drf_rows::specs::Step::refusal_of, drf_rows::specs::Step::effect, drf_rows::specs::Step::rows_after))]

ghost use Rattle.std.specs.Prelude.{◌≡◌};
ghost use Rattle.drf_rows.specs.LimitNumbers.{ceilings};
ghost use Rattle.drf_show.specs.Aligned.{table_text};
ghost use Rattle.drf_show.specs.Shown.{agent_lines, client_lines, filter_lines, limit_lines, table_lines};
ghost use Rattle.drf_show.specs.ShownExamples.{small_agents, small_clients, small_filters, small_limits, small_rows, small_tables, two_by_three, two_by_three_text};

/// Proves the lines of a cluster in which a suppressed client runs a task under a limit and has declined the rest, and another client has an
/// offer; and one aligned table.
pub fn show_example()
    ensures agents { agent_lines small_rows ≡ small_agents }
    ensures clients { client_lines small_rows ≡ small_clients }
    ensures limits { limit_lines small_rows ≡ small_limits }
    ensures filters { filter_lines small_rows ≡ small_filters }
    ensures tables { table_lines ceilings small_rows ≡ small_tables }
    ensures aligned { table_text two_by_three ≡ two_by_three_text }
{}
