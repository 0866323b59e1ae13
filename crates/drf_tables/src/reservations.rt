//! Changes of agents' totals: a free part is exchanged for another, or the total is replaced.
ghost use Rattle.std.specs.Prelude.{◌≡◌, ◌⊎◌, List, map, true, false, None, Some, OnOk, OnErr, IfOk};
ghost use Rattle.std.specs.List.{AllByRecursion};
ghost use Rattle.std.specs.Option.{option_map};
ghost use Rattle.drf_role.specs.Text.{same_text};
ghost use Rattle.drf_bundle.specs.Bundle.{rest};
ghost use Rattle.drf_bundle.specs.declared.resource.Resource.{Resource};
ghost use Rattle.drf_rows.specs.Totals.{CanExchange, exchanged};
ghost use Rattle.drf_tables.specs.registry.Changing.{CanExchangeAt, HasOther, changed, other_free, with_exchanged, with_other};

use crate::registry::Registry;
use crate::registry::free_part::FreePart;
use crate::tables::Agent;
use drf_amount::{Algebra, is_same};
use drf_bundle::Bundle;
use drf_role::Name;
use std::alloc::AllocError;

/// Returns the bundle with one of its parts replaced by another part.
fn exchanged(whole: &Bundle, old: &Bundle, new: &Bundle) -> Result<Bundle, AllocError>
    requires { CanExchange whole.now old.now new.now }
    ensures { IfOk result (λ both. both ≡ exchanged old.now new.now whole.now) }
{
    let both = whole.exchange(old, new)?;
    Ok(both)
}

/// Returns a part of a whole with the same replacement. If the part is the whole, the results share memory.
fn exchanged_part(
    part: &Bundle,
    whole: &Bundle,
    exchanged_whole: &Bundle,
    old: &Bundle,
    new: &Bundle,
) -> Result<Bundle, AllocError>
    requires can { CanExchange part.now old.now new.now }
    requires whole { exchanged_whole.now ≡ exchanged old.now new.now whole.now }
    ensures { IfOk result (λ both. both ≡ exchanged old.now new.now part.now) }
{
    if is_same(part, whole) {
        return Ok(exchanged_whole.copy()?);
    }
    exchanged(part, old, new)
}

/// Returns the free resources of an agent with the same replacement, if they are known.
fn exchanged_free(
    free: &Option<FreePart>,
    total: &Bundle,
    exchanged_total: &Bundle,
    old: &Bundle,
    new: &Bundle,
) -> Result<Option<FreePart>, AllocError>
    requires can { (known : List Resource) → free.now ≡ Some known → CanExchange known old.now new.now }
    requires total { exchanged_total.now ≡ exchanged old.now new.now total.now }
    ensures { IfOk result (λ both. both ≡ option_map (exchanged old.now new.now) free.now) }
{
    match free {
        Some(known) => {
            let both = exchanged_part(known.bundle(), total, exchanged_total, old, new)?;
            Ok(Some(FreePart::new(both)))
        }
        None => Ok(None),
    }
}

/// Returns an agent with a part replaced, both in its total and in its free resources.
fn exchanged_agent(agent: &Agent, old: &Bundle, new: &Bundle) -> Result<Agent, AllocError>
    requires { CanExchangeAt old.now new.now agent.now }
    ensures { IfOk result (λ after. after ≡ with_exchanged old.now new.now agent.now) }
{
    let total = exchanged(&agent.total, old, new)?;
    let free = exchanged_free(&agent.free, &agent.total, &total, old, new)?;
    Ok(Agent {
        total,
        active: agent.active,
        free,
    })
}

/// Returns the free part of another total if the held resources stay the same. If nothing is held, the result shares memory with
/// the total.
fn left_of_other(total: &Bundle, old: &Bundle, free: &Bundle) -> Result<Bundle, AllocError>
    ensures { IfOk result (λ left. left ≡ rest total.now (rest old.now free.now)) }
{
    old.recall();
    if is_same(old, free) {
        return Ok(total.copy()?);
    }
    let held = old.rest(free)?;
    total.rest(&held)
}

/// Returns the free part of another total, or `None` if the old free part is not known or memory runs out.
fn other_free(total: &Bundle, old: &Bundle, free: &Option<FreePart>) -> Option<FreePart>
    ensures { (result ≡ other_free total.now old.now free.now) ⊎ (result ≡ None) }
{
    match left_of_other(total, old, free.as_ref()?.bundle()) {
        Ok(left) => Some(FreePart::new(left)),
        Err(_) => None,
    }
}

/// Returns an agent with another total. If memory runs out, its free resources become unknown.
fn other_agent(agent: &Agent, total: Bundle) -> Agent
    ensures { (result ≡ with_other true total agent.now) ⊎ (result ≡ with_other false total agent.now) }
{
    let free = other_free(&total, &agent.total, &agent.free);
    Agent {
        total,
        active: agent.active,
        free,
    }
}

/// Replaces the agent in a slot, if there is one, and keeps its name.
fn put(slot: &mut Option<(Name, Agent)>, agent: Agent)
    ensures { slot.new ≡ option_map (λ e. (e.0, agent)) slot.old }
{
    if let Some(entry) = slot {
        entry.1 = agent;
    }
}

impl Registry<Agent> {
    /// Replaces a free part of an agent, both in its total and in its free resources. If memory runs out, nothing changes.
    pub(crate) fn exchange(
        &mut self,
        name: &Name,
        old: &Bundle,
        new: &Bundle,
    ) -> Result<(), AllocError>
        requires { AllByRecursion (λ e. same_text e.0 name.now ≡ true → CanExchangeAt old.now new.now e.1) self.old.entries }
        ensures ok { OnOk result (self.new.entries ≡ map (changed name.now (with_exchanged old.now new.now)) self.old.entries) }
        ensures err { OnErr result (self.new.entries ≡ self.old.entries) }
    {
        let Some(place) = self.places.get(name) else {
            return Ok(());
        };
        let place = *place;
        let Some(entry) = &self.slots[place] else {
            return Ok(());
        };
        let agent = exchanged_agent(&entry.1, old, new)?;
        put(&mut self.slots[place], agent);
        Ok(())
    }

    /// Replaces the total of an agent. If memory runs out, its free resources become unknown.
    pub(crate) fn set_total(&mut self, name: &Name, total: Bundle)
        ensures { HasOther name.now total self.old.entries self.new.entries }
    {
        let Some(place) = self.places.get(name) else {
            return;
        };
        let place = *place;
        let Some(entry) = &self.slots[place] else {
            return;
        };
        let agent = other_agent(&entry.1, total);
        put(&mut self.slots[place], agent);
    }
}
