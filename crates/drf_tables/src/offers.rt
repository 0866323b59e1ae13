//! Ends offers and tasks, and turns accepted offers into tasks.
#![tactic(auto, unfolding(crate::specs::Inside::rows_of))]

ghost use Rattle.std.specs.Prelude.{◌≡◌, ◌≤◌, ◌++◌, ◌∷◌, [], true, Some, IfOk, OnOk, OnErr, IfSome, IfNone, option_copied};
ghost use Rattle.std.specs.List.{AllByRecursion};
ghost use Rattle.std.specs.Option.{option_map_or};
ghost use Rattle.drf_bundle.specs.Bundle.{IsBundle};
ghost use Rattle.drf_rows.specs.Consistent.{IsConsistent, IsFilter};
ghost use Rattle.drf_rows.specs.Cycle.{at_timestamp};
ghost use Rattle.drf_rows.specs.Releases.{without_ended};
ghost use Rattle.drf_rows.specs.Offers.{CanAccept, left_of_offer, offer_accepted, offer_at, has_task};
ghost use Rattle.drf_rows.specs.Tasks.{uses};
ghost use Rattle.drf_rows.specs.declared.limits.TheConstants.{LATEST_TIMESTAMP};
ghost use Rattle.drf_rows.specs.declared.rows.FilterRow.{FilterRow};
ghost use Rattle.drf_rows.specs.declared.rows.OfferRow.{OfferRow};
ghost use Rattle.drf_rows.specs.Ended.{release_of};
ghost use Rattle.drf_tables.specs.offers.Ended.{HasEnded, rest_taken, with_accepted};

use crate::filters::filter_rest;
use crate::limits::recounting::release_held;
use crate::registry::settling::settle_all;
use crate::tables::Tables;
use drf_bundle::Bundle;
use drf_gates::FilterTable;
use drf_holdings::Taken;
use drf_role::Name;
use drf_rows::{Accept, FilterRow, OfferRow, Release, TaskList};
use std::alloc::AllocError;

/// Adds a filter, if there is one. If memory runs out, nothing changes.
fn add_if(filters: &mut FilterTable, filter: Option<FilterRow>) -> Result<(), AllocError>
    ensures ok { OnOk result (filters.new ≡ filters.old ++ option_map_or (λ f. f ∷ []) filter []) }
    ensures err { OnErr result (filters.new ≡ filters.old) }
{
    match filter {
        Some(row) => filters.add(row),
        None => Ok(()),
    }
}

impl Tables {
    /// Returns the offer of a number, if it exists.
    pub fn offer(&self, number: u64) -> Option<&OfferRow>
        ensures { option_copied result ≡ offer_at self.now.rows number }
    {
        self.holdings.offer(number)
    }

    /// Returns whether the framework has a task of this name.
    pub fn has_task(&self, framework: &Name, name: &Name) -> bool
        ensures { result ≡ has_task self.now.rows framework.now name.now }
    {
        self.holdings.has_task(framework, name)
    }

    /// Computes the free resources of agents where they are not known. If memory runs out, no row changes.
    pub fn settle(&mut self) -> Result<(), AllocError>
        ensures settled { OnOk result (self.new.settled ≡ true) }
        ensures same { self.new.rows ≡ self.old.rows }
    {
        settle_all(&mut self.agents, &self.holdings)
    }

    /// Removes one offer or task that `release` selects, and returns what it held, or `None` if there is none. It cannot fail: if
    /// memory runs out, the free resources of the agent become unknown.
    pub fn end(&mut self, release: Release) -> Option<Taken>
        ensures some { IfSome result (HasEnded self.old.rows self.new.rows (release_of release.entry)) }
        ensures none { IfNone result ((self.new.rows ≡ self.old.rows) × (without_ended self.old.rows (release_of release.entry) ≡ self.old.rows)) }
        ensures consistent { IsConsistent self.new.rows }
        ensures counted { self.new.counted ≡ self.old.counted }
    {
        let taken = self.holdings.take(release)?;
        self.agents.give_back(&taken.agent, &taken.bundle);
        release_held(&mut self.consumption, &taken.role, &taken.bundle);
        Some(taken)
    }

    /// Replaces an offer by tasks that use parts of it, sets the clock, and adds a filter, if there is one. Returns the rest of
    /// the offer, which becomes free. If memory runs out, no row changes.
    fn start(
        &mut self,
        number: u64,
        tasks: TaskList,
        rest: Bundle,
        filter: Option<FilterRow>,
        timestamp: u64,
    ) -> Result<Taken, AllocError>
        requires bundles { AllByRecursion IsBundle (uses tasks) }
        requires can { CanAccept self.old.rows number tasks }
        requires filter { (f : FilterRow) → filter ≡ Some f → IsFilter self.old.rows.agents self.old.rows.frameworks f }
        requires rest { (o : OfferRow) → offer_at self.old.rows number ≡ Some o → rest ≡ left_of_offer o tasks }
        requires early { timestamp ≤ LATEST_TIMESTAMP }
        ensures ok { OnOk result ((o : OfferRow) → offer_at self.old.rows number ≡ Some o
            → self.new.rows ≡ record (with_accepted self.old.rows o tasks filter) { clock = timestamp }) }
        ensures taken { IfOk result (λ taken. (o : OfferRow) → offer_at self.old.rows number ≡ Some o → taken ≡ rest_taken o tasks) }
        ensures err { OnErr result (self.new.rows ≡ self.old.rows) }
        ensures counted { self.new.counted ≡ self.old.counted }
    {
        let filters = self.filters.len();
        add_if(&mut self.filters, filter)?;
        match self.holdings.start(number, tasks) {
            Ok(offer) => {
                self.agents.give_back(&offer.agent, &rest);
                release_held(&mut self.consumption, &offer.role, &rest);
                self.clock = timestamp;
                Ok(Taken {
                    agent: offer.agent,
                    role: offer.role,
                    framework: offer.framework,
                    bundle: rest,
                })
            }
            Err(error) => {
                self.filters.truncate(filters);
                Err(error)
            }
        }
    }

    /// Replaces an offer by tasks that use parts of it, sets the clock, and filters the rest for `refuse_ms` milliseconds.
    /// Returns the rest, which becomes free. If memory runs out, no row changes.
    pub fn accept(&mut self, accept: Accept) -> Result<Taken, AllocError>
        requires can { CanAccept self.old.rows accept.offer accept.tasks }
        requires early { accept.at ≤ LATEST_TIMESTAMP }
        ensures bundles { OnOk result (AllByRecursion IsBundle (uses accept.tasks)) }
        ensures ok { OnOk result ((o : OfferRow) → offer_at self.old.rows accept.offer ≡ Some o
            → self.new.rows ≡ offer_accepted (at_timestamp self.old.rows accept.at) o accept.tasks accept.refuse_ms) }
        ensures taken { IfOk result (λ taken. (o : OfferRow) → offer_at self.old.rows accept.offer ≡ Some o → taken ≡ rest_taken o accept.tasks) }
        ensures err { OnErr result (self.new.rows ≡ self.old.rows) }
        ensures counted { self.new.counted ≡ self.old.counted }
    {
        // Only the contract of this call says that the tasks use bundles.
        let _ = accept.tasks.as_slice();
        let timestamp = self.clock.max(accept.at);
        let offer = self.offer(accept.offer).unwrap();
        let rest = accept.tasks.rest_of(&offer.bundle)?;
        let filter = filter_rest(offer, &rest, timestamp, accept.refuse_ms)?;
        let taken = self.start(accept.offer, accept.tasks, rest, filter, timestamp)?;
        Ok(taken)
    }
}
