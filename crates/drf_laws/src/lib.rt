//! Theorems about events, turns, limits and runs of the definition. Each is the contract of a function that does
//! nothing.
#![tactic(auto)]

mod definition;
mod laws;
mod limits;

pub use definition::{
    life_law, live_rows_law, offers_law, others_law, report_law, serving_order_law,
    set_framework_law, set_weight_law, step_law, turn_law,
};
pub use laws::{
    bounded_runs_law, consistent_runs_law, event_law, given_law, kept_law, kept_limits_law,
    known_law, set_filters_law, turns_law,
};
pub use limits::{
    consumption_law, entitlement_law, limit_refusals_law, limited_runs_law, limits_law, moving_law,
    reservations_law, set_agent_law, set_limit_law,
};
