//! The changes that the offers of a cycle make: the counts of their clients, and the free resources of the agents.
ghost use Rattle.std.specs.Prelude.{◌≡◌, ◌<◌, Some, map, length, All};
ghost use Rattle.std.specs.Global.{Vec};
ghost use Rattle.std.specs.Option.{option_map};
ghost use Rattle.drf_role.specs.Text.{Text};
ghost use Rattle.drf_rows.specs.Cycle.{counted};
ghost use Rattle.drf_rows.specs.Holdings.{holding_of_offer};
ghost use Rattle.drf_rows.specs.declared.rows.ClientRow.{ClientRow};
ghost use Rattle.drf_tables.specs.cycle.Counting.{counting, counting_all, first_number, CanCount, CanCountAll};
ghost use Rattle.drf_tables.specs.Inside.{agent_row, framework_rows, frees_in, known_after};
ghost use Rattle.drf_tables.specs.registry.Changing.{with_each};

use crate::registry::Registry;
use crate::registry::free_part::FreePart;
use crate::tables::{Agent, Left};
use drf_holdings::InOrder;
use drf_role::Name;
use drf_rows::{ClientRow, OfferRow};

/// Adds one to the count of the offer's client, among the clients of its framework.
fn count_at(clients: &mut [ClientRow], offer: &OfferRow)
    requires { CanCount 1 clients.old }
    ensures { clients.new ≡ map (counted (holding_of_offer offer.now).client) clients.old }
{
    for client in clients.iter_mut() {
        if client.role == offer.role {
            client.count += 1;
        }
    }
}

/// Adds one to the count of the offer's client, if the slot has its framework.
fn count_in(slot: &mut Option<(Name, Vec<ClientRow>)>, offer: &OfferRow)
    requires { (e : Text × Vec ClientRow) → slot.old ≡ Some e → CanCount 1 e.1.items }
    ensures { slot.new ≡ option_map (λ e. (e.0, with_each (counted (holding_of_offer offer.now).client) e.1)) slot.old }
{
    if let Some(entry) = slot {
        count_at(&mut entry.1, offer);
    }
}

/// Adds one to the count of the offer's client.
fn count_offer(frameworks: &mut Registry<Vec<ClientRow>>, offer: &OfferRow)
    requires { CanCountAll 1 (framework_rows frameworks.old.entries) }
    ensures { framework_rows frameworks.new.entries ≡ counting (framework_rows frameworks.old.entries) offer.now }
{
    if let Some(place) = frameworks.places.get(&offer.framework) {
        count_in(&mut frameworks.slots[*place], offer);
    }
}

/// Returns the number of the first offer, or `next` if there is none.
pub(crate) fn first_number(offers: &[OfferRow], next: u64) -> u64
    ensures { result ≡ first_number offers.now next }
{
    match offers.first() {
        Some(offer) => offer.number,
        None => next,
    }
}

/// Adds one to the count of the client of each offer.
pub(crate) fn count_offers(frameworks: &mut Registry<Vec<ClientRow>>, offers: InOrder<'_, OfferRow>)
    requires { CanCountAll (length offers) (framework_rows frameworks.old.entries) }
    ensures { framework_rows frameworks.new.entries ≡ counting_all (framework_rows frameworks.old.entries) offers.entry }
{
    for offer in offers {
        count_offer(frameworks, offer);
    }
}

/// Sets the free resources of agents to those that remained after their turns.
pub(crate) fn put_lefts(agents: &mut Registry<Agent>, lefts: Vec<Left>)
    requires { All (λ left. left.agent < length agents.old.entries) lefts.items }
    ensures rows { map agent_row agents.new.entries ≡ map agent_row agents.old.entries }
    ensures free { frees_in agents.new.entries ≡ known_after (frees_in agents.old.entries) lefts.items }
{
    for left in lefts {
        agents.set_free_at(left.agent, FreePart::new(left.free));
    }
}
