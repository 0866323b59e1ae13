//! The effects of events of agents.
ghost use Rattle.std.specs.Prelude.{◌≡◌, None, OnOk, OnErr};
ghost use Rattle.drf_rows.specs.Step.{refusal_of, effect};
ghost use Rattle.drf_rows.specs.declared.event.Event.TheVariants.{AddAgent, RemoveAgent, ActivateAgent, DeactivateAgent, SetAgent};
ghost use Rattle.drf_laws.specs.Kept.{IsKept};
ghost use Rattle.drf_sorter.specs.Work.{Defers, DefersOnOk};
ghost use Rattle.drf_core.specs.Working.{all_nodes, allowed, nodes_of, touched};

use crate::cluster::Cluster;
use drf_bundle::Bundle;
use drf_role::Name;
use drf_rows::Limits;
use drf_sorter::Sorter;
use drf_tables::Release;
use std::alloc::AllocError;

impl<S: Sorter> Cluster<S> {
    /// Adds an active agent with this total. If memory runs out, no row changes.
    pub(crate) fn add_agent(
        &mut self,
        limits: &Limits,
        agent: Name,
        total: Bundle,
    ) -> Result<(), AllocError>
        requires kept { IsKept limits.now self.old.rows }
        requires welcome { refusal_of limits.now self.old.rows (AddAgent agent total) ≡ None }
        ensures ok { OnOk result (self.new.rows ≡ effect self.old.rows (AddAgent agent total)) }
        ensures err { OnErr result (self.new.rows ≡ self.old.rows) }
        ensures spends { DefersOnOk S.COUNTED result self.old.work self.new.work (all_nodes self.old.rows) }
    {
        let sum = self.tables.total().plus(total.quantities())?;
        self.tables.add_agent(agent, total)?;
        self.sorter.set_total(sum);
        Ok(())
    }

    /// Removes an agent, and ends all offers and tasks on it. If memory runs out, no row changes.
    pub(crate) fn remove_agent(&mut self, agent: &Name) -> Result<(), AllocError>
        ensures ok { OnOk result (self.new.rows ≡ effect self.old.rows (RemoveAgent agent.now)) }
        ensures err { OnErr result (self.new.rows ≡ self.old.rows) }
        ensures spends { DefersOnOk S.COUNTED result self.old.work self.new.work (allowed self.old.rows (RemoveAgent agent.now)) }
    {
        let total = self.tables.total_without(agent)?;
        let sum = total.copy()?;
        self.end(Release::AllOn(agent));
        self.tables.remove_agent(agent, total);
        self.sorter.set_total(sum);
        Ok(())
    }

    /// Activates an agent, so that cycles offer its free resources.
    pub(crate) fn activate_agent(&mut self, agent: &Name)
        ensures rows { self.new.rows ≡ effect self.old.rows (ActivateAgent agent.now) }
        ensures work { self.new.work ≡ self.old.work }
    {
        self.tables.set_active(agent, true);
    }

    /// Deactivates an agent, and ends the offers of its resources.
    pub(crate) fn deactivate_agent(&mut self, agent: &Name)
        ensures rows { self.new.rows ≡ effect self.old.rows (DeactivateAgent agent.now) }
        ensures spends { Defers S.COUNTED self.old.work self.new.work (nodes_of (touched self.old.rows (DeactivateAgent agent.now))) }
    {
        self.end(Release::OffersOn(agent));
        self.tables.set_active(agent, false);
    }

    /// Replaces the total of an agent. Its offers and tasks stay. If memory runs out, no row changes.
    pub(crate) fn set_agent(
        &mut self,
        limits: &Limits,
        agent: &Name,
        total: Bundle,
    ) -> Result<(), AllocError>
        requires kept { IsKept limits.now self.old.rows }
        requires welcome { refusal_of limits.now self.old.rows (SetAgent agent.now total) ≡ None }
        ensures ok { OnOk result (self.new.rows ≡ effect self.old.rows (SetAgent agent.now total)) }
        ensures err { OnErr result (self.new.rows ≡ self.old.rows) }
        ensures spends { DefersOnOk S.COUNTED result self.old.work self.new.work (all_nodes self.old.rows) }
    {
        let others = self.tables.total_without(agent)?;
        let sum = others.plus(total.quantities())?;
        let copy = sum.copy()?;
        self.tables.set_total(agent, total, sum);
        self.sorter.set_total(copy);
        Ok(())
    }
}
