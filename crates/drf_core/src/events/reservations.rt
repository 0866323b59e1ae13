//! The effects of `reserve` and `unreserve`.
ghost use Rattle.std.specs.Prelude.{◌≡◌, None, IfOk, OnOk, OnErr, IsTrue};
ghost use Rattle.drf_bundle.specs.Bundle.{is_unreserved, relabel};
ghost use Rattle.drf_rows.specs.Consistent.{IsConsistent};
ghost use Rattle.drf_row_laws.specs.ReservationLaws.{IsAsked};
ghost use Rattle.drf_rows.specs.Step.{refusal_of, effect};
ghost use Rattle.drf_rows.specs.declared.event.Event.TheVariants.{Reserve, Unreserve};

use crate::cluster::Cluster;
use drf_bundle::Bundle;
use drf_role::{Name, Role};
use drf_rows::Limits;
use drf_sorter::Sorter;
use std::alloc::AllocError;

/// Returns a copy of unreserved resources that is reserved for a role.
fn reserved(role: &Role, resources: &Bundle) -> Result<Bundle, AllocError>
    requires { IsTrue (is_unreserved resources.now) }
    ensures asked { IsAsked role.now resources.now }
    ensures moved { IfOk result (λ moved. moved ≡ relabel role.now resources.now) }
{
    role.recall();
    resources.recall();
    resources.relabel(role)
}

impl<S: Sorter> Cluster<S> {
    /// Reserves free, unreserved resources of an agent for a role. If memory runs out, no row changes.
    pub(crate) fn reserve(
        &mut self,
        limits: &Limits,
        agent: &Name,
        role: &Role,
        resources: &Bundle,
    ) -> Result<(), AllocError>
        requires consistent { IsConsistent self.old.rows }
        requires welcome { refusal_of limits.now self.old.rows (Reserve agent.now role.now resources.now) ≡ None }
        ensures ok { OnOk result (self.new.rows ≡ effect self.old.rows (Reserve agent.now role.now resources.now)) }
        ensures err { OnErr result (self.new.rows ≡ self.old.rows) }
        ensures work { self.new.work ≡ self.old.work }
    {
        let moved = reserved(role, resources)?;
        self.tables.exchange(agent, resources, &moved)?;
        Ok(())
    }

    /// Makes free resources of an agent that are reserved for a role unreserved. If memory runs out, no row changes.
    pub(crate) fn unreserve(
        &mut self,
        limits: &Limits,
        agent: &Name,
        role: &Role,
        resources: &Bundle,
    ) -> Result<(), AllocError>
        requires consistent { IsConsistent self.old.rows }
        requires welcome { refusal_of limits.now self.old.rows (Unreserve agent.now role.now resources.now) ≡ None }
        ensures ok { OnOk result (self.new.rows ≡ effect self.old.rows (Unreserve agent.now role.now resources.now)) }
        ensures err { OnErr result (self.new.rows ≡ self.old.rows) }
        ensures work { self.new.work ≡ self.old.work }
    {
        let moved = reserved(role, resources)?;
        self.tables.exchange(agent, &moved, resources)?;
        Ok(())
    }
}
