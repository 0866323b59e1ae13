//! Quota limits, what roles consume, and changes of agents' totals.
#![tactic(auto, unfolding(crate::specs::Inside::rows_of))]

ghost use Rattle.std.specs.Prelude.{◌≡◌, ◌≢◌, ◌↔◌, ◌≤◌, [], IsTrue, true, false, length, filter, not, is_some, option_copied, OnOk, OnErr};
ghost use Rattle.drf_role.specs.Text.{same_text};
ghost use Rattle.drf_bundle.specs.Bundle.{is_default, quantities_of};
ghost use Rattle.drf_bundle.specs.Quantities.{plus};
ghost use Rattle.drf_rows.specs.Held.{cluster_total};
ghost use Rattle.drf_rows.specs.Quota.{admits, has_limit, limits_with};
ghost use Rattle.drf_rows.specs.Totals.{with_total, with_other_total, exchanged};
ghost use Rattle.drf_gates.specs.quota.Allowance.{quota_under};
ghost use Rattle.drf_tables.specs.registry.Changing.{CanExchangeOn, CanHaveTotal};
ghost use Rattle.drf_tables.specs.limits.Recounting.{CountsAll};

mod consuming;
pub(crate) mod recounting;

use crate::limits::consuming::{consume_offers, consume_tasks, consume_totals};
use crate::limits::recounting::{
    consume_total, follow_limit, recount_total, release_agent, release_total,
};
use crate::tables::Tables;
use drf_bundle::{Bundle, Quantities};
use drf_gates::{Consumption, Quota};
use drf_role::{Name, Role};
use std::alloc::AllocError;

impl Tables {
    /// Returns whether any role has a limit.
    pub fn has_limits(&self) -> bool
        ensures { IsTrue result ↔ (self.now.rows.limits ≢ []) }
    {
        !self.limits.is_empty()
    }

    /// Returns whether the role has a limit.
    pub fn has_limit(&self, role: &Role) -> bool
        ensures { result ≡ has_limit self.now.rows role.now }
    {
        self.limits.get(role).is_some()
    }

    /// Returns the number of roles that have a limit.
    pub fn limit_count(&self) -> usize
        ensures { result ≡ length self.now.rows.limits }
    {
        self.limits.len()
    }

    /// Returns the limits together with what roles consume, if that is known. `consumption` can be the tables' own or one that
    /// was borrowed.
    pub fn quota_under<'a>(&'a self, consumption: Option<&'a Consumption>) -> Option<Quota<'a>>
        ensures { result ≡ quota_under self.now.rows.limits (option_copied consumption.entry) }
    {
        match consumption {
            Some(consumption) => Some(Quota::new(&self.limits, consumption)),
            None => None,
        }
    }

    /// Returns whether a role can consume this much more without exceeding its limit or that of a role above it.
    pub fn admits(&self, role: &Role, amounts: &Quantities) -> bool
        requires { self.now.rows.limits ≢ [] → self.now.counted ≡ true }
        ensures { result ≡ admits self.now.rows role.now amounts.now }
    {
        match self.quota_under(self.consumption.as_ref()) {
            Some(quota) => quota.admits(role, amounts),
            None => true,
        }
    }

    /// Sets the limit of a role, or removes it if `limit` is empty. If memory runs out, no row changes.
    pub fn set_limit(&mut self, role: Role, limit: Quantities) -> Result<(), AllocError>
        requires { is_default role ≡ false }
        ensures ok { OnOk result (self.new.rows ≡ record self.old.rows { limits = limits_with self.old.rows.limits role limit }) }
        ensures err { OnErr result (self.new.rows ≡ self.old.rows) }
        ensures settled { self.new.settled ≡ self.old.settled }
        ensures counted { self.new.counted ≡ self.old.counted }
    {
        role.recall();
        self.limits.set(&role, limit)?;
        follow_limit(&mut self.consumption, &self.limits, &role);
        Ok(())
    }

    /// Computes what roles consume, if any role has a limit and it is not known. If memory runs out, nothing changes.
    pub fn count_consumption(&mut self) -> Result<(), AllocError>
        requires { length self.old.rows.agents ≤ 4096 }
        ensures counted { OnOk result (self.new.rows.limits ≢ [] → self.new.counted ≡ true) }
        ensures same { self.new.rows ≡ self.old.rows }
        ensures settled { self.new.settled ≡ self.old.settled }
    {
        if self.consumption.is_some() || self.limits.is_empty() {
            return Ok(());
        }
        let mut consumption = Consumption::new(*self.agents.allocator(), &self.limits);
        consume_offers(&mut consumption, self.holdings.offers())?;
        consume_tasks(&mut consumption, self.holdings.tasks())?;
        consume_totals(&mut consumption, &self.agents)?;
        self.consumption = Some(consumption);
        Ok(())
    }

    /// Moves what roles consume, if that is known, to a cycle, which adds its offers. It is not copied: if it does not return
    /// with the offers, it is computed again.
    pub fn lend_consumption(&mut self) -> Option<Consumption>
        ensures value { CountsAll self.old.rows result }
        ensures counted { is_some result ≡ self.old.counted }
        ensures same { self.new.rows ≡ self.old.rows }
        ensures settled { self.new.settled ≡ self.old.settled }
    {
        self.consumption.take()
    }

    /// Replaces a free part of an agent's total by another part. If memory runs out, no row changes.
    pub fn exchange(&mut self, agent: &Name, old: &Bundle, new: &Bundle) -> Result<(), AllocError>
        requires { CanExchangeOn self.old.rows agent.now old.now new.now }
        ensures ok { OnOk result (self.new.rows ≡ record self.old.rows { agents = with_total self.old.rows agent.now (exchanged old.now new.now) }) }
        ensures err { OnErr result (self.new.rows ≡ self.old.rows) }
        ensures counted { self.new.counted ≡ self.old.counted }
    {
        consume_total(&mut self.consumption, new)?;
        match self.agents.exchange(agent, old, new) {
            Ok(()) => {
                release_total(&mut self.consumption, old);
                Ok(())
            }
            Err(error) => {
                release_total(&mut self.consumption, new);
                Err(error)
            }
        }
    }

    /// Replaces the total of an agent. `sum` is the cluster's total with it. It cannot fail: if memory runs out, consumption or
    /// the free resources of the agent become unknown.
    pub fn set_total(&mut self, agent: &Name, total: Bundle, sum: Quantities)
        requires right { CanHaveTotal self.old.rows agent.now total }
        requires sum { sum ≡ plus (cluster_total (filter (λ a. not (same_text a.name agent.now)) self.old.rows.agents)) (quantities_of total) }
        ensures { self.new.rows ≡ record self.old.rows { agents = with_other_total self.old.rows agent.now total } }
    {
        release_agent(&mut self.consumption, &self.agents, agent);
        recount_total(&mut self.consumption, &total);
        self.agents.set_total(agent, total);
        self.total = sum;
    }
}
