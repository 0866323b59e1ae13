//! Theorems about the definition, and an example that is computed from it. The functions do nothing; their contracts are proved of the
//! definition alone.
#![tactic(auto, unfolding(drf_rows::specs::Share::is_ahead, drf_rows::specs::Held::standing_of, drf_rows::specs::Cycle::free_of, drf_rows::specs::Cycle::with_offer, drf_rows::specs::Cycle::turn, drf_rows::specs::Cycle::cycle, drf_rows::specs::Share::common_divisor, drf_rows::specs::Report::report_of, drf_rows::specs::Step::refusal_of, drf_rows::specs::Step::effect, drf_rows::specs::Step::rows_after, crate::specs::Explained::explained, crate::specs::Each::each_by_agent, crate::specs::Each::turns_by_agent))]

ghost use Rattle.std.specs.Prelude.{◌≡◌, ◌∷◌, []};
ghost use Rattle.drf_worked.specs.Examples.{cpus, mem};
ghost use Rattle.drf_explain.specs.Explained.{explained};
ghost use Rattle.drf_explain.specs.Each.{each_reported};
ghost use Rattle.drf_explain.specs.EachLaws.{EachGrantIsAnOffer, EachIsReportedAtItsTimestamp, EachIsReportedOnce, EachIsUntouched, ExplainedIsCut, LiveRowsAreReported, LiveTurnsAreReported, TurnsAreReported, UntouchedIsReported};
ghost use Rattle.drf_explain.specs.ExplainedExamples.{nobody_left_out, nothing_rows, nothing_reported};
ghost use Rattle.drf_explain.specs.ExplainedLaws.{GrantsAreOffers, LiveRowsAreExplained};
ghost use Rattle.drf_explain.specs.ReasonLaws.{BelowThresholdIsTooLittle, GrantIsGranted, HeldBackIsHeldUntil, NothingLeftIsNotExplained, NothingLeftIsNothing, OverLimitIsOverLimit, ReservedIsForOthers};
ghost use Rattle.drf_explain.specs.declared.finding.Outcome.TheVariants.{Grant, HeldBack};

/// Proves that the grants of an explanation are the offers of the definition's cycle, in order, and that expired filters change no line.
/// `NothingLeft` does not occur in such an explanation.
pub fn explained_law()
    ensures grants { GrantsAreOffers }
    ensures live { LiveRowsAreExplained }
    ensures some { NothingLeftIsNotExplained }
{}

/// Proves that a complete explanation lists each client of the turn exactly once, in order, on each active agent with free resources, with its
/// outcome at that point of the cycle. Its grants are the cycle's offers. The shorter explanation is this one, cut off on each agent where
/// too little is left for an offer; there, the remaining clients would have `BelowThreshold`, `NothingLeft` or `ReservedForOthers`. Expired
/// filters change no line.
pub fn each_is_reported_law()
    ensures once { EachIsReportedOnce }
    ensures timestamp { EachIsReportedAtItsTimestamp }
    ensures grants { EachGrantIsAnOffer }
    ensures cut { ExplainedIsCut }
    ensures live { LiveRowsAreReported }
{}

/// Proves that `turns_by_agent` has, besides the findings of each agent, the outcome of each client of the turn if it were tried first, after the
/// turns of the agents before. The two outcomes are the same if no client before it is granted anything on the agent. Expired filters change
/// nothing.
pub fn each_is_untouched_law()
    ensures reported { TurnsAreReported }
    ensures untouched { EachIsUntouched }
    ensures same { UntouchedIsReported }
    ensures live { LiveTurnsAreReported }
{}

/// Proves what each outcome means. A grant is what the cycle grants. A bundle that is held back is granted from its timestamp on, and not before.
/// A role over its limit has the tightest of the limits that cut the client's part below the size of an offer. Otherwise, what the client's
/// role can use is too small, or something is free and all of it is reserved for roles that are neither the client's nor above it.
/// `NothingLeft` is the outcome exactly if nothing is free.
pub fn reasons_law()
    ensures granted { GrantIsGranted }
    ensures held_back { HeldBackIsHeldUntil }
    ensures over_limit { OverLimitIsOverLimit }
    ensures below_threshold { BelowThresholdIsTooLittle }
    ensures reserved { ReservedIsForOthers }
    ensures nothing_left { NothingLeftIsNothing }
{}

/// Proves the explanations of a cluster in which each reason occurs once: before and after a filter has expired, and for each client.
pub fn explained_example()
    ensures before { explained nothing_rows 4999 ≡ nothing_reported (HeldBack 5000) }
    ensures after { explained nothing_rows 5000 ≡ nothing_reported (Grant (cpus 4000 ∷ mem 1024000 ∷ [])) }
    ensures each { each_reported nothing_rows 4999 ≡ nobody_left_out (HeldBack 5000) }
{}
