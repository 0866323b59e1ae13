//! Computed runs of the definition that show when each event is refused and what it does. The functions do nothing:
//! their contracts are computed from the definition.
#![tactic(auto)]

mod cases;
mod limited;
mod runs;

pub use cases::{
    agents_cases, fairness_cases, frameworks_cases, full_cases, offers_cases, refusals_cases,
    reservations_cases, roles_cases, set_framework_cases, untouched_law,
};
pub use limited::{
    limited_example, limits_refused_example, other_totals_example, ports_example, reserved_example,
};
pub use runs::{
    cycles_example, filters_example, inactive_example, least_offer_example, life_example,
    limits_example, order_example, others_example, report_example, reservations_example,
    role_changes_example, taking_part_example, weights_example,
};
