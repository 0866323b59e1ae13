//! Computes what roles consume from the rows.
#![tactic(auto)]

ghost use Rattle.std.specs.Prelude.{◌≡◌, ◌+◌, ◌<◌, ◌^◌, [], ◌∷◌, Bool, map, OnOk};
ghost use Rattle.drf_hash.specs.Slots.{filled};
ghost use Rattle.drf_role.specs.Text.{Text};
ghost use Rattle.drf_role.specs.Path.{Path};
ghost use Rattle.drf_rows.specs.Holdings.{holding_of_offer, holding_of_task};
ghost use Rattle.drf_rows.specs.Quota.{held_unreserved, reserved_for};
ghost use Rattle.drf_gates.specs.quota.Allowance.{IsRaisedBy, used_where};
ghost use Rattle.drf_holdings.specs.Listed.{task_row};
ghost use Rattle.drf_tables.specs.Inside.{agent_row};

use crate::registry::Registry;
use crate::tables::Agent;
use drf_gates::Consumption;
use drf_holdings::{InOrder, Task};
use drf_role::Name;
use drf_rows::OfferRow;
use std::alloc::AllocError;

/// Adds what roles consume by offers.
pub(crate) fn consume_offers(
    consumption: &mut Consumption,
    offers: InOrder<'_, OfferRow>,
) -> Result<(), AllocError>
    requires { (test : Path → Bool) (label : Text)
        → used_where test consumption.old label + held_unreserved test (map holding_of_offer offers) label < 2 ^ 64 }
    ensures { OnOk result (IsRaisedBy consumption.old consumption.new (λ test label. held_unreserved test (map holding_of_offer offers.entry) label)) }
{
    for offer in offers {
        consumption.consume_unreserved(&offer.role, &offer.bundle)?;
    }
    Ok(())
}

/// Adds what roles consume by tasks.
pub(crate) fn consume_tasks(
    consumption: &mut Consumption,
    tasks: InOrder<'_, Task>,
) -> Result<(), AllocError>
    requires { (test : Path → Bool) (label : Text)
        → used_where test consumption.old label + held_unreserved test (map holding_of_task (map task_row tasks)) label < 2 ^ 64 }
    ensures { OnOk result (IsRaisedBy consumption.old consumption.new (λ test label. held_unreserved test (map holding_of_task (map task_row tasks.entry)) label)) }
{
    for task in tasks {
        consumption.consume_unreserved(&task.row.role, &task.row.bundle)?;
    }
    Ok(())
}

/// Adds what the agent in a slot has reserved for roles, if there is one.
fn consume_slot(
    consumption: &mut Consumption,
    slot: &Option<(Name, Agent)>,
) -> Result<(), AllocError>
    requires { (test : Path → Bool) (label : Text)
        → used_where test consumption.old label + reserved_for test (map agent_row (filled (slot.now ∷ []))) label < 2 ^ 64 }
    ensures { OnOk result (IsRaisedBy consumption.old consumption.new (λ test label. reserved_for test (map agent_row (filled (slot.now ∷ []))) label)) }
{
    match slot {
        Some(entry) => consumption.consume_reserved(&entry.1.total),
        None => Ok(()),
    }
}

/// Adds what all agents have reserved for roles.
pub(crate) fn consume_totals(
    consumption: &mut Consumption,
    agents: &Registry<Agent>,
) -> Result<(), AllocError>
    requires { (test : Path → Bool) (label : Text)
        → used_where test consumption.old label + reserved_for test (map agent_row agents.now.entries) label < 2 ^ 64 }
    ensures { OnOk result (IsRaisedBy consumption.old consumption.new (λ test label. reserved_for test (map agent_row agents.now.entries) label)) }
{
    for slot in agents.slots() {
        consume_slot(consumption, slot)?;
    }
    Ok(())
}
