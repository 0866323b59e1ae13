//! Changes of agents and frameworks: they are made active or inactive, suppressed or revived, or removed.
#![tactic(auto, unfolding(crate::specs::Inside::rows_of))]

ghost use Rattle.std.specs.Prelude.{◌≡◌, true, false, find, filter, not, Some, IfOk};
ghost use Rattle.drf_role.specs.Text.{same_text};
ghost use Rattle.drf_rows.specs.Releases.{without_ended, all_on, all_of};
ghost use Rattle.drf_rows.specs.Held.{cluster_total};
ghost use Rattle.drf_rows.specs.Members.{has_framework, with_activity, with_suppression, revived, agent_removed, framework_removed};
ghost use Rattle.drf_rows.specs.Step.{is_in_role};
ghost use Rattle.drf_rows.specs.declared.rows.FrameworkRow.{FrameworkRow};

use crate::limits::recounting::release_agent;
use crate::registry::members::{has_role, suppress, take_framework};
use crate::tables::Tables;
use drf_bundle::Quantities;
use drf_role::{Name, Role};
use drf_rows::ClientRow;
use std::alloc::AllocError;

impl Tables {
    /// Returns the clients of a framework.
    pub fn clients(&self, framework: &Name) -> &[ClientRow]
        requires { has_framework self.now.rows framework.now ≡ true }
        ensures { (f : FrameworkRow) → find (λ f. same_text f.name framework.now) self.now.rows.frameworks ≡ Some f → result.now ≡ f.clients }
    {
        self.frameworks.get(framework).unwrap().as_slice()
    }

    /// Returns whether the framework is registered in the role.
    pub fn is_in_role(&self, framework: &Name, role: &Role) -> bool
        ensures { result ≡ is_in_role self.now.rows framework.now role.now }
    {
        let Some(clients) = self.frameworks.get(framework) else {
            return false;
        };
        has_role(clients, role)
    }

    /// Makes an agent active or inactive.
    pub fn set_active(&mut self, agent: &Name, active: bool)
        ensures rows { self.new.rows ≡ record self.old.rows { agents = with_activity self.old.rows agent.now active } }
        ensures settled { self.new.settled ≡ self.old.settled }
        ensures counted { self.new.counted ≡ self.old.counted }
    {
        self.agents.set_active(agent, active);
    }

    /// Suppresses a client.
    pub fn suppress(&mut self, framework: &Name, role: &Role)
        ensures { self.new.rows ≡ record self.old.rows { frameworks = with_suppression self.old.rows (record { role = role.now; framework = framework.now }) true } }
    {
        suppress(&mut self.frameworks, framework, role, true);
    }

    /// Revives a client, and removes its filters.
    pub fn revive(&mut self, framework: &Name, role: &Role)
        ensures { self.new.rows ≡ revived self.old.rows (record { role = role.now; framework = framework.now }) }
    {
        suppress(&mut self.frameworks, framework, role, false);
        self.filters.revive(role, framework);
    }

    /// Returns the sum of the totals of all agents but one.
    pub fn total_without(&self, agent: &Name) -> Result<Quantities, AllocError>
        ensures { IfOk result (λ total. total ≡ cluster_total (filter (λ a. not (same_text a.name agent.now)) self.now.rows.agents)) }
    {
        let mut total = self.total.copy()?;
        let Some(leaving) = self.agents.get(agent) else {
            return Ok(total);
        };
        total.lower(leaving.total.quantities());
        total.remove_zeros();
        Ok(total)
    }

    /// Removes an agent on which nothing is held, and the filters on it. `total` is the sum of the totals of the others.
    pub fn remove_agent(&mut self, agent: &Name, total: Quantities)
        requires nothing { without_ended self.old.rows (all_on agent.now) ≡ self.old.rows }
        requires total { total ≡ cluster_total (filter (λ a. not (same_text a.name agent.now)) self.old.rows.agents) }
        ensures rows { self.new.rows ≡ agent_removed self.old.rows agent.now }
        ensures counted { self.new.counted ≡ self.old.counted }
    {
        release_agent(&mut self.consumption, &self.agents, agent);
        self.agents.remove(agent);
        self.filters.drop_agent(agent);
        self.total = total;
    }

    /// Removes a framework that holds nothing, and its filters.
    pub fn remove_framework(&mut self, framework: &Name)
        requires nothing { without_ended self.old.rows (all_of framework.now) ≡ self.old.rows }
        ensures { self.new.rows ≡ framework_removed self.old.rows framework.now }
    {
        self.clients -= take_framework(&mut self.frameworks, framework);
        self.filters.drop_framework(framework);
    }
}
