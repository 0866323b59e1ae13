//! The effects of accepted events.
ghost use Rattle.std.specs.Prelude.{◌≡◌, false, None, IfOk, OnOk, OnErr};
ghost use Rattle.drf_rows.specs.Step.{refusal_of, effect, answer};
ghost use Rattle.drf_rows.specs.declared.event.Event.TheVariants.{SetWeight, SetLimit};
ghost use Rattle.drf_laws.specs.Kept.{IsKept};
ghost use Rattle.drf_sorter.specs.Work.{DefersOnOk, SpendsOnOk};
ghost use Rattle.drf_core.specs.Working.{allowed, may_make_keys};
ghost use Rattle.drf_core.specs.events.Answered.{has_answer};
ghost use Rattle.drf_core.specs.Copies.{copies_if};

mod agents;
mod frameworks;
mod offers;
mod release;
mod report;
mod reservations;

use crate::cluster::Cluster;
use crate::stepped::Stepped;
use drf_bundle::Quantities;
use drf_role::Role;
use drf_rows::{Event, Limits, Reply};
use drf_sorter::Sorter;
use std::alloc::{AllocError, Global};

impl<S: Sorter> Cluster<S> {
    /// Sets the weight of a role, in thousandths. If memory runs out, no row changes.
    fn set_weight(&mut self, limits: &Limits, role: Role, weight: u64) -> Result<(), AllocError>
        requires { refusal_of limits.now self.old.rows (SetWeight role weight) ≡ None }
        ensures ok { OnOk result (self.new.rows ≡ effect self.old.rows (SetWeight role weight)) }
        ensures spends { DefersOnOk S.COUNTED result self.old.work self.new.work 1 }
        ensures err { OnErr result (self.new.rows ≡ self.old.rows) }
    {
        self.tables.reserve_weight()?;
        self.sorter.set_weight(&role, weight)?;
        self.tables.set_weight(role, weight);
        Ok(())
    }

    /// Sets the quota limit of a role, or removes it if `limit` is empty. If memory runs out, no row changes.
    fn set_limit(
        &mut self,
        limits: &Limits,
        role: Role,
        limit: Quantities,
    ) -> Result<(), AllocError>
        requires { refusal_of limits.now self.old.rows (SetLimit role limit) ≡ None }
        ensures ok { OnOk result (self.new.rows ≡ effect self.old.rows (SetLimit role limit)) }
        ensures err { OnErr result (self.new.rows ≡ self.old.rows) }
        ensures work { self.new.work ≡ self.old.work }
    {
        self.tables.set_limit(role, limit)?;
        Ok(())
    }

    /// Applies an accepted event whose reply is `Done`. If memory runs out, no row changes.
    fn change(&mut self, alloc: Global, limits: &Limits, event: Event) -> Result<(), AllocError>
        requires kept { IsKept limits.now self.old.rows }
        requires welcome { refusal_of limits.now self.old.rows event ≡ None }
        requires plain { has_answer event ≡ false }
        ensures ok { OnOk result (self.new.rows ≡ effect self.old.rows event) }
        ensures spends { SpendsOnOk S.COUNTED result self.old.work self.new.work (allowed self.old.rows event) }
        ensures keys { may_make_keys event ≡ false → self.new.work.made ≡ self.old.work.made }
        ensures err { OnErr result (self.new.rows ≡ self.old.rows) }
    {
        match event {
            Event::AddAgent { agent, total } => self.add_agent(limits, agent, total),
            Event::RemoveAgent { agent } => self.remove_agent(&agent),
            Event::ActivateAgent { agent } => Ok(self.activate_agent(&agent)),
            Event::DeactivateAgent { agent } => Ok(self.deactivate_agent(&agent)),
            Event::SetAgent { agent, total } => self.set_agent(limits, &agent, total),
            Event::AddFramework { framework, roles } => {
                self.add_framework(alloc, limits, framework, roles)
            }
            Event::SetFramework { framework, roles } => {
                self.set_framework(alloc, limits, &framework, roles.as_slice())
            }
            Event::RemoveFramework { framework } => {
                self.remove_framework(alloc, limits, &framework)
            }
            Event::Accept(event) => self.accept(event),
            Event::Decline(event) => self.decline(&event),
            Event::Rescind { offer } => Ok(self.rescind(offer)),
            Event::Finish { framework, task } => Ok(self.finish(&framework, &task)),
            Event::Suppress { framework, role } => self.suppress(alloc, &framework, &role),
            Event::Revive { framework, role } => self.revive(alloc, &framework, &role),
            Event::Reserve {
                agent,
                role,
                resources,
            } => self.reserve(limits, &agent, &role, &resources),
            Event::Unreserve {
                agent,
                role,
                resources,
            } => self.unreserve(limits, &agent, &role, &resources),
            Event::SetWeight { role, weight } => self.set_weight(limits, role, weight),
            Event::SetLimit { role, limit } => self.set_limit(limits, role, limit),
            Event::Cycle { at: _ } => unreachable!(),
            Event::Report => unreachable!(),
        }
    }

    /// Applies an accepted event, and returns its reply, with copies if `copied` is set. The copies are made before anything
    /// changes. If memory runs out, no row changes.
    pub(crate) fn apply(
        &mut self,
        alloc: Global,
        limits: &Limits,
        event: Event,
        copied: bool,
    ) -> Result<Stepped, AllocError>
        requires kept { IsKept limits.now self.old.rows }
        requires welcome { refusal_of limits.now self.old.rows event ≡ None }
        ensures reply { IfOk result (λ stepped. stepped.reply ≡ answer self.old.rows (effect self.old.rows event) event) }
        ensures copies { IfOk result (λ stepped. stepped.copies ≡ copies_if copied stepped.reply) }
        ensures ok { OnOk result (self.new.rows ≡ effect self.old.rows event) }
        ensures spends { SpendsOnOk S.COUNTED result self.old.work self.new.work (allowed self.old.rows event) }
        ensures keys { may_make_keys event ≡ false → self.new.work.made ≡ self.old.work.made }
        ensures err { OnErr result (self.new.rows ≡ self.old.rows) }
    {
        match event {
            Event::Cycle { at } => self.cycle(alloc, limits, at, copied),
            Event::Report => Stepped::of(Reply::Report(self.report()?), copied),
            plain => {
                self.change(alloc, limits, plain)?;
                Ok(Stepped::done(copied))
            }
        }
    }
}
