//! The filters that declines and accepts set.
#![tactic(auto, unfolding(crate::specs::Inside::rows_of))]

ghost use Rattle.std.specs.Prelude.{◌≡◌, ◌≤◌, ◌&&◌, ◌++◌, ◌∷◌, [], true, not, nat_le, nat_lt, length, Some, IfOk, OnOk, OnErr};
ghost use Rattle.drf_rows.specs.Consistent.{IsConsistent, IsFilter};
ghost use Rattle.drf_rows.specs.Cycle.{at_timestamp};
ghost use Rattle.drf_rows.specs.Filters.{is_held_back, number_in_force};
ghost use Rattle.drf_rows.specs.Offers.{filter_of, filters_with, has_offer, is_empty, offer_at, filtered_until, filters_all};
ghost use Rattle.drf_rows.specs.Step.{live_rows};
ghost use Rattle.drf_rows.specs.declared.limits.TheConstants.{LATEST_TIMESTAMP};
ghost use Rattle.drf_rows.specs.declared.rows.OfferRow.{OfferRow};
ghost use Rattle.drf_tables.specs.offers.Ended.{filter_if};

pub(crate) mod sweep;

use crate::filters::sweep::Sweep;
use crate::tables::Tables;
use drf_amount::Algebra;
use drf_bundle::Bundle;
use drf_role::{Name, Role};
use drf_rows::{Decline, FilterRow, LONGEST_FILTER, OfferRow};
use std::alloc::AllocError;

/// Returns a filter of a bundle for the client of an offer on its agent. It expires `refuse_ms` milliseconds after the timestamp,
/// but at most 365 days after it.
fn filter_row(
    offer: &OfferRow,
    bundle: &Bundle,
    timestamp: u64,
    refuse_ms: u64,
) -> Result<FilterRow, AllocError>
    requires { timestamp ≤ LATEST_TIMESTAMP }
    ensures { IfOk result (λ row. row ≡ filter_of offer.now bundle.now (filtered_until timestamp refuse_ms)) }
{
    Ok(FilterRow {
        framework: offer.framework.copy()?,
        role: offer.role.copy()?,
        agent: offer.agent.copy()?,
        bundle: bundle.copy()?,
        until: timestamp + refuse_ms.min(LONGEST_FILTER),
    })
}

/// Returns the filter of the rest of an accepted offer, or `None` if the rest is empty or `refuse_ms` is 0.
pub(crate) fn filter_rest(
    offer: &OfferRow,
    rest: &Bundle,
    timestamp: u64,
    refuse_ms: u64,
) -> Result<Option<FilterRow>, AllocError>
    requires { timestamp ≤ LATEST_TIMESTAMP }
    ensures { IfOk result (λ filter. filter ≡ filter_if (nat_lt 0 refuse_ms && not (is_empty rest.now)) (filter_of offer.now rest.now (filtered_until timestamp refuse_ms))) }
{
    if refuse_ms == 0 {
        return Ok(None);
    }
    if rest.is_empty() {
        return Ok(None);
    }
    Ok(Some(filter_row(offer, rest, timestamp, refuse_ms)?))
}

/// Adds a filter of all resources of an offer, unless `refuse_ms` is 0. If memory runs out, no row changes.
fn filter_offer(
    tables: &mut Tables,
    number: u64,
    timestamp: u64,
    refuse_ms: u64,
) -> Result<(), AllocError>
    requires consistent { IsConsistent tables.old.rows }
    requires offer { has_offer tables.old.rows number ≡ true }
    requires early { timestamp ≤ LATEST_TIMESTAMP }
    ensures ok { OnOk result ((o : OfferRow) → offer_at tables.old.rows number ≡ Some o
        → tables.new.rows ≡ record tables.old.rows { filters = filters_with (record tables.old.rows { clock = timestamp }) (filters_all refuse_ms) o o.bundle refuse_ms }) }
    ensures err { OnErr result (tables.new.rows ≡ tables.old.rows) }
{
    if refuse_ms == 0 {
        return Ok(());
    }
    let offer = tables.offer(number).unwrap();
    let filter = filter_row(offer, &offer.bundle, timestamp, refuse_ms)?;
    tables.add_filter(filter)
}

impl Tables {
    /// Returns whether at least `number` filters are in force at a timestamp, in milliseconds. Filters are read only if there are
    /// so many.
    pub fn are_in_force(&self, number: u64, timestamp: u64) -> bool
        ensures { result ≡ nat_le number (number_in_force timestamp self.now.rows.filters) }
    {
        number <= self.filters.len() as u64 && number <= self.filters.in_force(timestamp)
    }

    /// Returns whether a filter in force covers the bundle for the client on the agent.
    pub fn is_held_back(&self, role: &Role, framework: &Name, agent: &Name, bundle: &Bundle) -> bool
        ensures { result ≡ is_held_back self.now.rows.filters self.now.rows.clock (record { role = role.now; framework = framework.now }) agent.now bundle.now }
    {
        self.filters
            .holds_back(role, framework, agent, bundle, self.clock)
    }

    /// Adds a filter after the others. If memory runs out, no row changes.
    pub fn add_filter(&mut self, filter: FilterRow) -> Result<(), AllocError>
        requires { IsFilter self.old.rows.agents self.old.rows.frameworks filter }
        ensures ok { OnOk result (self.new.rows ≡ record self.old.rows { filters = self.old.rows.filters ++ filter ∷ [] }) }
        ensures err { OnErr result (self.new.rows ≡ self.old.rows) }
        ensures settled { self.new.settled ≡ self.old.settled }
        ensures counted { self.new.counted ≡ self.old.counted }
    {
        self.filters.add(filter)
    }

    /// Sets the clock, and adds a filter of a declined offer, unless `refuse_ms` is 0. The offer itself stays. If memory runs
    /// out, no row changes.
    pub fn filter_declined(&mut self, decline: &Decline) -> Result<(), AllocError>
        requires offer { has_offer self.old.rows decline.now.offer ≡ true }
        requires early { decline.now.at ≤ LATEST_TIMESTAMP }
        ensures ok { OnOk result ((o : OfferRow) → offer_at self.old.rows decline.now.offer ≡ Some o
            → self.new.rows ≡ record (at_timestamp self.old.rows decline.now.at) { filters = filters_with (at_timestamp self.old.rows decline.now.at) (filters_all decline.now.refuse_ms) o o.bundle decline.now.refuse_ms }) }
        ensures err { OnErr result (self.new.rows ≡ self.old.rows) }
    {
        let timestamp = self.clock.max(decline.at);
        filter_offer(self, decline.offer, timestamp, decline.refuse_ms)?;
        self.set_clock(timestamp);
        Ok(())
    }

    /// Removes expired filters if there are many filters. If 65,536 or more are left, all of them are in force.
    pub fn forget_spent(&mut self)
        ensures live { live_rows self.new.rows ≡ live_rows self.old.rows }
        ensures others { self.new.rows ≡ record self.old.rows { filters = self.new.rows.filters } }
        ensures consistent { IsConsistent self.new.rows }
        ensures swept { 65536 ≤ length self.new.rows.filters → number_in_force self.new.rows.clock self.new.rows.filters ≡ length self.new.rows.filters }
    {
        if !self.sweep.is_due(self.filters.len()) {
            return;
        }
        self.filters.drop_spent(self.clock);
        self.sweep = Sweep::behind(self.filters.len());
    }
}
