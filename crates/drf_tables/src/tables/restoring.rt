//! Restoring a saved state: the tables begin with the numbers of the state, and then its rows are added one by one. The
//! rows of a table are added after those of the tables that it depends on.
#![tactic(auto, unfolding(crate::specs::Inside::rows_of))]

ghost use Rattle.std.specs.Prelude.{◌≡◌, ◌+◌, ◌^◌, ◌<◌, ◌≤◌, [], ◌∷◌, ◌++◌, true, false, length, sum_by, nat_lt, IfOk, IfNone, IfSome, OnOk, OnErr};
ghost use Rattle.std.specs.List.{list_all};
ghost use Rattle.std.specs.Option.{option_map};
ghost use Rattle.drf_bundle.specs.Bundle.{rest};
ghost use Rattle.drf_rows.specs.Consistent.{IsConsistent};
ghost use Rattle.drf_rows.specs.declared.limits.TheConstants.{LATEST_TIMESTAMP};
ghost use Rattle.drf_saved.specs.Saved.{begun, is_usable, no_filters, no_frameworks, no_limits, no_offers, no_tasks, no_weights};

use crate::registry::free_part::FreePart;
use crate::tables::Tables;
use drf_amount::Algebra;
use drf_bundle::Bundle;
use drf_hash::HashKey;
use drf_role::{Name, Role};
use drf_rows::{ClientRow, OfferRow, TaskRow};
use drf_saved::Head;
use std::alloc::{AllocError, Global};

/// Returns the free resources without one more part, if they are known.
fn left_with(free: &Option<FreePart>, part: &Bundle) -> Result<Option<FreePart>, AllocError>
    ensures { IfOk result (λ left. left ≡ option_map (λ known. rest known part.now) free.now) }
{
    match free {
        Some(known) => Ok(Some(FreePart::new(known.bundle().rest(part)?))),
        None => Ok(None),
    }
}

/// Returns a number of offers plus the counts of clients, or `None` if the sum does not fit in 64 bits.
pub fn offers_with(offers: u64, clients: &[ClientRow]) -> Option<u64>
    ensures some { IfSome result (λ sum. sum ≡ offers + sum_by (λ c. c.count) clients.now) }
    ensures none { IfNone result (2 ^ 64 ≤ offers + sum_by (λ c. c.count) clients.now) }
{
    let mut sum = offers;
    for client in clients {
        sum = sum.checked_add(client.count)?;
    }
    Some(sum)
}

impl Tables {
    /// Returns tables with the numbers of a saved state, and without rows.
    pub fn begin(alloc: Global, key: HashKey, head: Head) -> Tables
        requires early { head.clock ≤ LATEST_TIMESTAMP }
        requires numbered { 1 ≤ head.next_offer }
        ensures rows { result.rows ≡ begun head }
        ensures settled { result.settled ≡ true }
        ensures counted { result.counted ≡ false }
    {
        let mut tables = Tables::new(alloc, key);
        tables.clock = head.clock;
        tables.next_offer = head.next_offer;
        tables.events = head.events;
        tables
    }

    /// Adds a saved offer after the others, and takes its resources from the free ones of its agent. Consumption must not be
    /// known yet. If memory runs out, no row changes.
    pub fn put_offer(&mut self, offer: OfferRow) -> Result<(), AllocError>
        requires uncounted { self.old.counted ≡ false }
        requires consistent { IsConsistent (record self.old.rows { offers = self.old.rows.offers ++ offer ∷ [] }) }
        ensures ok { OnOk result (self.new.rows ≡ record self.old.rows { offers = self.old.rows.offers ++ offer ∷ [] }) }
        ensures err { OnErr result (self.new.rows ≡ self.old.rows) }
        ensures settled { self.new.settled ≡ self.old.settled }
        ensures counted { self.new.counted ≡ self.old.counted }
    {
        let agent = self.agents.get(&offer.agent).unwrap();
        let left = left_with(&agent.free, &offer.bundle)?;
        let name = offer.agent.copy()?;
        let mut offers = Vec::new(*self.agents.allocator());
        offers.push(offer)?;
        self.holdings.append(&mut offers)?;
        self.agents.set_free(&name, left);
        Ok(())
    }

    /// Adds a saved task after the others, and takes its resources from the free ones of its agent. Consumption must not be known
    /// yet. If memory runs out, no row changes.
    pub fn put_task(&mut self, task: TaskRow) -> Result<(), AllocError>
        requires uncounted { self.old.counted ≡ false }
        requires consistent { IsConsistent (record self.old.rows { tasks = self.old.rows.tasks ++ task ∷ [] }) }
        ensures ok { OnOk result (self.new.rows ≡ record self.old.rows { tasks = self.old.rows.tasks ++ task ∷ [] }) }
        ensures err { OnErr result (self.new.rows ≡ self.old.rows) }
        ensures settled { self.new.settled ≡ self.old.settled }
        ensures counted { self.new.counted ≡ self.old.counted }
    {
        let agent = self.agents.get(&task.agent).unwrap();
        let left = left_with(&agent.free, &task.bundle)?;
        let name = task.agent.copy()?;
        self.holdings.put_task(task)?;
        self.agents.set_free(&name, left);
        Ok(())
    }

    /// Returns whether the free resources of an agent that are unreserved or reserved for the role, or for a role above it, cover
    /// a bundle.
    pub fn is_usable(&self, agent: &Name, role: &Role, bundle: &Bundle) -> Result<bool, AllocError>
        requires { self.now.settled ≡ true }
        ensures { IfOk result (λ usable. usable ≡ is_usable self.now.rows agent.now role.now bundle.now) }
    {
        let Some(found) = self.agents.get(agent) else {
            return Ok(false);
        };
        let free = found.free.as_ref().unwrap().bundle();
        let part = free.part_for(role)?;
        Ok(part.covers(bundle))
    }

    /// Returns whether the numbers of all offers are below `number`.
    pub fn are_offers_below(&self, number: u64) -> bool
        ensures { result ≡ list_all (λ o. nat_lt o.number number) self.now.rows.offers }
    {
        self.holdings.offers_from(number).next().is_none()
    }

    /// Returns the number of filters, including expired ones.
    pub fn filter_count(&self) -> usize
        ensures { result ≡ length self.now.rows.filters }
    {
        self.filters.len()
    }

    /// Returns whether there are no filters.
    pub fn has_no_filters(&self) -> bool
        ensures { result ≡ no_filters self.now.rows }
    {
        self.filters.len() == 0
    }

    /// Returns whether there are no tasks, and no rows in the tables that are restored later.
    pub fn has_no_tasks(&self) -> bool
        ensures { result ≡ no_tasks self.now.rows }
    {
        (self.holdings.task_count() == 0) & self.has_no_filters()
    }

    /// Returns whether there are no offers, and no rows in the tables that are restored later.
    pub fn has_no_offers(&self) -> bool
        ensures { result ≡ no_offers self.now.rows }
    {
        (self.holdings.offer_count() == 0) & self.has_no_tasks()
    }

    /// Returns whether no role has a limit, and there are no rows in the tables that are restored later.
    pub fn has_no_limits(&self) -> bool
        ensures { result ≡ no_limits self.now.rows }
    {
        (self.limit_count() == 0) & self.has_no_offers()
    }

    /// Returns whether no role has a weight, and there are no rows in the tables that are restored later.
    pub fn has_no_weights(&self) -> bool
        ensures { result ≡ no_weights self.now.rows }
    {
        (self.weight_count() == 0) & self.has_no_limits()
    }

    /// Returns whether there are no frameworks, and no rows in the tables that are restored later.
    pub fn has_no_frameworks(&self) -> bool
        ensures { result ≡ no_frameworks self.now.rows }
    {
        (self.framework_count() == 0) & self.has_no_weights()
    }
}
