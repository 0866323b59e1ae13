//! Computed runs with limits and reservations. The functions do nothing.
#![tactic(auto, unfolding(drf_rows::specs::Share::is_ahead, drf_rows::specs::Held::standing_of, drf_rows::specs::Cycle::free_of, drf_rows::specs::Cycle::with_offer, drf_rows::specs::Cycle::turn, drf_rows::specs::Cycle::cycle, drf_rows::specs::Share::common_divisor, drf_rows::specs::Report::report_of, drf_rows::specs::Step::refusal_of, drf_rows::specs::Step::effect, drf_rows::specs::Step::rows_after, drf_rows::specs::Step::reply_to))]

ghost use Rattle.std.specs.Prelude.{◌≡◌};
ghost use Rattle.drf_rows.specs.LimitNumbers.{ceilings};
ghost use Rattle.drf_rows.specs.Step.{opening, replies_to};
ghost use Rattle.drf_worked.specs.QuotaExamples.{no_cpus, no_cpus_replies, limit_in_cycle, limit_in_cycle_replies, reserved_below, reserved_below_replies, two_limits, two_limits_replies, cut_and_declined, cut_and_declined_replies, beyond_limit, beyond_limit_replies, moved_twice, moved_twice_replies, other_totals, other_totals_replies, limits_refused, limits_refused_replies, one_limit, more_limits, more_limits_replies};
ghost use Rattle.drf_worked.specs.PortExamples.{PortsAreNotLimited, SomePortsAreReserved, NoPortIsShared, SomePortIsShared};

/// Proves runs with limits. A grant counts against the limit of its role for the next grant in the same cycle, and
/// other roles are not restricted by it. The least of the limits of a role and of the roles above it decides. Lowering
/// a limit takes nothing away. A cut offer that was declined is not made again as long as the client would get no more.
pub fn limited_example()
    ensures none { replies_to ceilings opening no_cpus ≡ no_cpus_replies }
    ensures cycle { replies_to ceilings opening limit_in_cycle ≡ limit_in_cycle_replies }
    ensures two { replies_to ceilings opening two_limits ≡ two_limits_replies }
    ensures declined { replies_to ceilings opening cut_and_declined ≡ cut_and_declined_replies }
{}

/// Proves runs in which reserved resources count against the limits of their role and of the roles above it, and only
/// free resources can be reserved.
pub fn reserved_example()
    ensures below { replies_to ceilings opening reserved_below ≡ reserved_below_replies }
    ensures twice { replies_to ceilings opening moved_twice ≡ moved_twice_replies }
{}

/// Proves runs in which an agent's total changes while resources are held there; limits do not refuse this.
pub fn other_totals_example()
    ensures totals { replies_to ceilings opening other_totals ≡ other_totals_replies }
    ensures beyond { replies_to ceilings opening beyond_limit ≡ beyond_limit_replies }
{}

/// Proves runs with each refusal of reserving, unreserving and setting a limit. Replacing or removing a limit needs no
/// additional row.
pub fn limits_refused_example()
    ensures refused { replies_to ceilings opening limits_refused ≡ limits_refused_replies }
    ensures many { replies_to one_limit opening more_limits ≡ more_limits_replies }
{}

/// Proves for all numbers of ports that limits do not cut them, that reserved ones are offered only to their role, and
/// that no two tasks of an offer share one.
pub fn ports_example()
    ensures limited { PortsAreNotLimited }
    ensures reserved { SomePortsAreReserved }
    ensures shared { NoPortIsShared }
    ensures four { SomePortIsShared }
{}
