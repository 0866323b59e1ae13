//! Computes the free resources of agents where they are not known.
ghost use Rattle.std.specs.Prelude.{◌≡◌, ◌+◌, ◌<◌, map, length, true, IfOk, OnOk};
ghost use Rattle.std.specs.List.{AllByRecursion};
ghost use Rattle.drf_bundle.specs.Taken.{rest_of_all};
ghost use Rattle.drf_rows.specs.Holdings.{parts_on};
ghost use Rattle.drf_holdings.specs.Stored.{holdings_in};
ghost use Rattle.drf_tables.specs.Inside.{agent_row, is_settled, IsKnown};
ghost use Rattle.drf_tables.specs.registry.Changing.{are_settled};

use crate::registry::Registry;
use crate::registry::free_part::FreePart;
use crate::tables::Agent;
use drf_amount::Algebra;
use drf_bundle::Bundle;
use drf_holdings::Holdings;
use drf_role::Name;
use std::alloc::AllocError;

/// Returns the free resources of an agent. If they are not known, they are computed from the offers and tasks there.
pub(crate) fn free_left(
    name: &Name,
    agent: &Agent,
    holdings: &Holdings,
) -> Result<Bundle, AllocError>
    requires { IsKnown (holdings_in holdings.now) (name.now, agent.now) }
    ensures { IfOk result (λ free. free ≡ rest_of_all agent.now.total (parts_on name.now (holdings_in holdings.now))) }
{
    match &agent.free {
        Some(known) => known.bundle().copy(),
        None => holdings.left_on(name, &agent.total),
    }
}

/// Computes the free resources of the agent at a place, if they are not known.
fn settle_at(
    agents: &mut Registry<Agent>,
    place: usize,
    holdings: &Holdings,
) -> Result<(), AllocError>
    requires place { place < length agents.old.entries }
    requires known { AllByRecursion (IsKnown (holdings_in holdings.now)) agents.old.entries }
    requires settled { are_settled place agents.old.entries ≡ true }
    ensures rows { map agent_row agents.new.entries ≡ map agent_row agents.old.entries }
    ensures known { AllByRecursion (IsKnown (holdings_in holdings.now)) agents.new.entries }
    ensures settled { OnOk result (are_settled (place + 1) agents.new.entries ≡ true) }
    ensures number { length agents.new.entries ≡ length agents.old.entries }
{
    let entry = agents.at(place);
    if entry.1.free.is_some() {
        return Ok(());
    }
    let free = holdings.left_on(&entry.0, &entry.1.total)?;
    agents.set_free_at(place, FreePart::new(free));
    Ok(())
}

/// Closes the free slots of agents, and computes the free resources of each agent where they are not known.
pub(crate) fn settle_all(
    agents: &mut Registry<Agent>,
    holdings: &Holdings,
) -> Result<(), AllocError>
    requires { AllByRecursion (IsKnown (holdings_in holdings.now)) agents.old.entries }
    ensures rows { map agent_row agents.new.entries ≡ map agent_row agents.old.entries }
    ensures known { AllByRecursion (IsKnown (holdings_in holdings.now)) agents.new.entries }
    ensures settled { OnOk result (is_settled agents.new.entries ≡ true) }
{
    agents.close()?;
    for place in 0..agents.len() {
        settle_at(agents, place, holdings)?;
    }
    Ok(())
}
