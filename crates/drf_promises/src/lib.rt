//! What an operator can rely on over whole cycles and runs, as theorems about the definition. See docs/PROMISES.md.
#![tactic(auto)]

mod examples;
mod laws;

pub use examples::{not_promised_example, promises_example};
pub use laws::{
    everybody_is_offered_law, explained_law, leaves_nothing_law, more_frameworks_law,
    more_is_later_law, offers_stay_law, one_agent_apart_law, one_offer_apart_law, order_law,
    passes_are_few_law, reserved_law, sharing_incentive_law, sums_law,
};
