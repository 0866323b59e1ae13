//! Changes of agents and frameworks that are found by name.
ghost use Rattle.std.specs.Prelude.{◌≡◌, ◌+◌, ◌<◌, ◌⊎◌, None, Some, filter, length, map, not, true, if◌then◌else◌};
ghost use Rattle.std.specs.Map.{lookup};
ghost use Rattle.std.specs.Option.{option_map, option_map_or};
ghost use Rattle.std.specs.List.{list_any};
ghost use Rattle.drf_role.specs.Path.{same_path};
ghost use Rattle.drf_role.specs.Text.{same_text};
ghost use Rattle.drf_rows.specs.Consistent.{are_distinct};
ghost use Rattle.drf_rows.specs.Client.{Client};
ghost use Rattle.drf_rows.specs.Members.{suppressed_at, suppressed_in};
ghost use Rattle.drf_rows.specs.declared.rows.ClientRow.{ClientRow};
ghost use Rattle.drf_tables.specs.registry.Changing.{changed, joined_free, with_active, with_each, CanGiveBack, CanTakeBack, HasFreed};
ghost use Rattle.drf_tables.specs.registry.Registered.{with_free_at};
ghost use Rattle.drf_tables.specs.cycle.Counting.{count_clients};
ghost use Rattle.drf_tables.specs.Inside.{framework_rows};
ghost use Rattle.drf_tables.specs.declared.tables.Agent.{Agent};

use crate::registry::Registry;
use crate::registry::free_part::FreePart;
use crate::registry::free_slots::ranked;
use crate::tables::Agent;
use drf_amount::Algebra;
use drf_bundle::Bundle;
use drf_role::{Name, Role};
use drf_rows::ClientRow;

/// Sets the free resources of the agent in a slot, if there is one.
fn put_free(slot: &mut Option<(Name, Agent)>, free: Option<FreePart>)
    ensures { slot.new ≡ option_map (λ e. (e.0, record e.1 { free = free })) slot.old }
{
    if let Some(entry) = slot {
        entry.1.free = free;
    }
}

/// Returns the free resources together with a released part, or `None` if they are not known or memory runs out.
fn freed(free: &Option<FreePart>, part: &Bundle) -> Option<FreePart>
    requires { CanTakeBack part.now free.now }
    ensures { (result ≡ joined_free free.now part.now) ⊎ (result ≡ None) }
{
    let both = free.as_ref()?.bundle().joined(part).ok()?;
    Some(FreePart::new(both))
}

/// Makes the agent in a slot active or inactive, if there is one.
fn put_active(slot: &mut Option<(Name, Agent)>, active: bool)
    ensures { slot.new ≡ option_map (λ e. (e.0, with_active active e.1)) slot.old }
{
    if let Some(entry) = slot {
        entry.1.active = active;
    }
}

impl Registry<Agent> {
    /// Sets the free resources of the agent at a place, by registration.
    pub(crate) fn set_free_at(&mut self, place: usize, free: FreePart)
        requires { place < length self.old.entries }
        ensures { self.new.entries ≡ with_free_at self.old.entries place free }
    {
        let slot = ranked(&self.slots, self.live, place);
        put_free(&mut self.slots[slot], Some(free));
    }

    /// Adds a released part to the free resources of an agent. If memory runs out, they become unknown.
    pub(crate) fn give_back(&mut self, name: &Name, part: &Bundle)
        requires { CanGiveBack name.now part.now self.old.entries }
        ensures { HasFreed name.now part.now self.old.entries self.new.entries }
    {
        let Some(place) = self.places.get(name) else {
            return;
        };
        let place = *place;
        let Some(entry) = &self.slots[place] else {
            return;
        };
        let free = freed(&entry.1.free, part);
        put_free(&mut self.slots[place], free);
    }

    /// Makes an agent active or inactive.
    pub(crate) fn set_active(&mut self, name: &Name, active: bool)
        ensures { self.new.entries ≡ map (changed name.now (with_active active)) self.old.entries }
    {
        let Some(place) = self.places.get(name) else {
            return;
        };
        put_active(&mut self.slots[*place], active);
    }

    /// Sets the free resources of an agent, or makes them unknown.
    pub(crate) fn set_free(&mut self, name: &Name, free: Option<FreePart>)
        ensures { (change : Agent → Agent) (a : Agent) → lookup (same_text name.now) self.old.entries ≡ Some a → change a ≡ record a { free = free }
            → self.new.entries ≡ map (changed name.now change) self.old.entries }
    {
        let Some(place) = self.places.get(name) else {
            return;
        };
        put_free(&mut self.slots[*place], free);
    }
}

/// Suppresses or revives the client of a role among the clients of a framework.
fn suppress_at(clients: &mut [ClientRow], role: &Role, suppressed: bool)
    ensures { clients.new ≡ map (λ (c : ClientRow). if same_path c.role role.now then record c { suppressed = suppressed } else c) clients.old }
{
    for client in clients.iter_mut() {
        if client.role == *role {
            client.suppressed = suppressed;
        }
    }
}

/// Suppresses or revives the client of a role in the framework of a slot, if there is one.
fn suppress_in(slot: &mut Option<(Name, Vec<ClientRow>)>, role: &Role, suppressed: bool)
    ensures { (client : Client) → client.role ≡ role.now
        → slot.new ≡ option_map (λ e. (e.0, with_each (suppressed_at client suppressed) e.1)) slot.old }
{
    if let Some(entry) = slot {
        suppress_at(&mut entry.1, role, suppressed);
    }
}

/// Suppresses or revives a client. Its filters do not change.
pub(crate) fn suppress(
    frameworks: &mut Registry<Vec<ClientRow>>,
    framework: &Name,
    role: &Role,
    suppressed: bool,
)
    ensures { framework_rows frameworks.new.entries
        ≡ map (suppressed_in (record { role = role.now; framework = framework.now }) suppressed) (framework_rows frameworks.old.entries) }
{
    if let Some(place) = frameworks.places.get(framework) {
        suppress_in(&mut frameworks.slots[*place], role, suppressed);
    }
}

/// Replaces the clients of the framework in a slot, if there is one.
fn put_clients_in(slot: &mut Option<(Name, Vec<ClientRow>)>, clients: Vec<ClientRow>)
    ensures { slot.new ≡ option_map (λ e. (e.0, clients)) slot.old }
{
    if let Some(entry) = slot {
        entry.1 = clients;
    }
}

/// Replaces the clients of a framework, if it is registered.
pub(crate) fn put_clients(
    frameworks: &mut Registry<Vec<ClientRow>>,
    framework: &Name,
    clients: Vec<ClientRow>,
)
    ensures { frameworks.new.entries ≡ map (changed framework.now (λ _. clients)) frameworks.old.entries }
{
    if let Some(place) = frameworks.places.get(framework) {
        put_clients_in(&mut frameworks.slots[*place], clients);
    }
}

/// Returns the number of clients of a framework, or 0 if it is not registered.
pub(crate) fn count_clients(frameworks: &Registry<Vec<ClientRow>>, framework: &Name) -> usize
    ensures { result ≡ option_map_or (λ v. length v.items) (lookup (same_text framework.now) frameworks.now.entries) 0 }
{
    match frameworks.get(framework) {
        Some(clients) => clients.len(),
        None => 0,
    }
}

/// Removes a framework, and returns how many clients it had.
pub(crate) fn take_framework(frameworks: &mut Registry<Vec<ClientRow>>, framework: &Name) -> usize
    requires { are_distinct (map (λ f. f.name) (framework_rows frameworks.old.entries)) ≡ true }
    ensures rows { framework_rows frameworks.new.entries
        ≡ filter (λ f. not (same_text f.name framework.now)) (framework_rows frameworks.old.entries) }
    ensures clients { count_clients (framework_rows frameworks.old.entries) ≡ count_clients (framework_rows frameworks.new.entries) + result }
{
    let Some(clients) = frameworks.get(framework) else {
        return 0;
    };
    let count = clients.len();
    frameworks.remove(framework);
    count
}

/// Returns whether one of the clients has the role.
pub(crate) fn has_role(clients: &[ClientRow], role: &Role) -> bool
    ensures { result ≡ list_any (λ c. same_path c.role role.now) clients.now }
{
    clients.iter().any(|client| client.role == *role)
}
