//! Tests whether an agent would exceed a capacity.
ghost use Rattle.std.specs.Prelude.{◌≡◌, [], ◌∷◌, ◌++◌};
ghost use Rattle.drf_rows.specs.LimitNumbers.{LimitNumbers};
ghost use Rattle.drf_rows.specs.Step.{is_too_large, too_many_agents};
ghost use Rattle.drf_rows.specs.declared.rows.AgentRow.{AgentRow};

use crate::tables::Tables;
use drf_bundle::Bundle;
use drf_rows::{LARGEST_AMOUNT, Limits};

/// Returns whether a scalar of a total is above the largest amount.
pub fn is_too_large(total: &Bundle) -> bool
    ensures { result ≡ is_too_large total.now }
{
    total
        .quantities()
        .entries()
        .iter()
        .any(|entry| LARGEST_AMOUNT < entry.amount.thousandths())
}

impl Tables {
    /// Returns whether one more agent with this total would exceed the capacity of agents or of scalar names.
    pub fn too_many_agents(&self, limits: &Limits, total: &Bundle) -> bool
        ensures { (agent : AgentRow) → agent.total ≡ total.now → result ≡ too_many_agents limits.now (self.now.rows.agents ++ agent ∷ []) }
    {
        let names = self.total().count_with(total.quantities());
        limits.agents() <= self.agent_count() as u64 || limits.scalar_names() < names
    }
}
