//! Copies of the tables as rows.
#![tactic(auto)]

ghost use Rattle.std.specs.Prelude.{◌≡◌, [], ◌∷◌, ◌++◌, map, IfOk, OnOk};
ghost use Rattle.drf_hash.specs.Slots.{filled};
ghost use Rattle.drf_tables.specs.Inside.{agent_row, framework_rows, weight_rows};

use crate::registry::Registry;
use crate::tables::Agent;
use drf_amount::Algebra;
use drf_hash::ByRole;
use drf_role::Name;
use drf_rows::{AgentRow, ClientRow, FrameworkRow, Table, WeightRow, copy_all};
use std::alloc::{AllocError, Global};

/// Appends the row of the agent in a slot, if there is one.
fn push_row(rows: &mut Vec<AgentRow>, slot: &Option<(Name, Agent)>) -> Result<(), AllocError>
    ensures { OnOk result (rows.new.items ≡ rows.old.items ++ map agent_row (filled (slot.now ∷ []))) }
{
    let Some(entry) = slot else {
        return Ok(());
    };
    rows.push(AgentRow {
        name: entry.0.copy()?,
        total: entry.1.total.copy()?,
        active: entry.1.active,
    })?;
    Ok(())
}

/// Returns the rows of the agents.
pub(crate) fn agent_rows(
    alloc: Global,
    agents: &Registry<Agent>,
) -> Result<Table<AgentRow>, AllocError>
    ensures { IfOk result (λ rows. rows ≡ map agent_row agents.now.entries) }
{
    let mut rows = Vec::with_capacity(alloc, agents.len())?;
    for slot in agents.slots() {
        push_row(&mut rows, slot)?;
    }
    Ok(Table::from_vec(rows))
}

/// Appends the row of the framework in a slot, if there is one.
fn push_framework(
    rows: &mut Vec<FrameworkRow>,
    slot: &Option<(Name, Vec<ClientRow>)>,
) -> Result<(), AllocError>
    ensures { OnOk result (rows.new.items ≡ rows.old.items ++ framework_rows (filled (slot.now ∷ []))) }
{
    let Some(entry) = slot else {
        return Ok(());
    };
    let clients = copy_all(*rows.allocator(), &entry.1)?;
    let name = entry.0.copy()?;
    rows.push(FrameworkRow { name, clients })?;
    Ok(())
}

/// Returns the rows of the frameworks, with their clients.
pub(crate) fn framework_rows(
    alloc: Global,
    frameworks: &Registry<Vec<ClientRow>>,
) -> Result<Table<FrameworkRow>, AllocError>
    ensures { IfOk result (λ rows. rows ≡ framework_rows frameworks.now.entries) }
{
    let mut rows = Vec::with_capacity(alloc, frameworks.len())?;
    for slot in frameworks.slots() {
        push_framework(&mut rows, slot)?;
    }
    Ok(Table::from_vec(rows))
}

/// Returns the rows of the weights.
pub(crate) fn weight_rows(
    alloc: Global,
    weights: &ByRole<u64>,
) -> Result<Table<WeightRow>, AllocError>
    ensures { IfOk result (λ rows. rows ≡ weight_rows weights.now.entries) }
{
    let mut rows = Vec::with_capacity(alloc, weights.len())?;
    for (role, weight) in weights {
        rows.push(WeightRow {
            role: role.copy()?,
            weight: *weight,
        })?;
    }
    Ok(Table::from_vec(rows))
}
