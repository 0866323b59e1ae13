//! The rows of an allocator, and a sorter that holds what they say, with its clients in any order.
ghost use Rattle.std.specs.Prelude.{◌≡◌, ◌+◌, ◌<◌, ◌≤◌, ◌^◌, None, length, IfOk, OnErr};
ghost use Rattle.drf_rows.specs.Consistent.{IsConsistent};
ghost use Rattle.drf_rows.specs.Step.{opening, live_rows, refusal_of};
ghost use Rattle.drf_content.specs.Content.{content_of};
ghost use Rattle.drf_sorter.specs.Content.{IsSame};
ghost use Rattle.drf_laws.specs.Kept.{AreFew};
ghost use Rattle.drf_core.specs.Keeping.{IsStanding};
ghost use Rattle.drf_core.specs.refusal.Cases.{early_refusal_of};

use crate::refusal::{refusal, refuse_early};
use drf_hash::HashKey;
use drf_rows::{Event, Limits, Refusal, Rows};
use drf_sorter::Sorter;
use drf_tables::Tables;
use std::alloc::{AllocError, Global};
use std::marker::Model;

/// The rows of an allocator as tables, and a sorter that holds what they say.
#[derive(Drop)]
pub(crate) struct Cluster<S: Sorter> {
    pub(crate) tables: Tables,
    pub(crate) sorter: S,
}

impl<S: Sorter> Model for Cluster<S> {
    ghost use Rattle.std.specs.Prelude.{◌≡◌};
    ghost use Rattle.drf_core.specs.Cluster.{ClusterState, cluster_code};

    ghost Value = { ClusterState };

    ghost coded = { cluster_code };

    ghost use Rattle.drf_sorter.specs.Content.{IsSame};
    ghost use Rattle.drf_content.specs.Content.{content_of};

    ghost view = { λ c. record { rows = c.tables.rows; counted = c.tables.counted; work = S.work c.sorter } };

    ghost invariant = { λ c. IsSame (S.content c.sorter) (content_of c.tables.rows) };
}

impl<S: Sorter> Cluster<S> {
    /// Returns a cluster without rows.
    pub(crate) fn open(alloc: Global, key: HashKey) -> Result<Cluster<S>, AllocError>
        ensures rows { IfOk result (λ cluster. cluster.rows ≡ opening) }
        ensures work { IfOk result (λ cluster. cluster.work ≡ record { made = 0; marked = 0 }) }
    {
        Ok(Cluster {
            tables: Tables::new(alloc, key),
            sorter: S::open(alloc, key)?,
        })
    }

    /// Returns a separate cluster with the same rows.
    pub(crate) fn copy(&self) -> Result<Cluster<S>, AllocError>
        ensures rows { IfOk result (λ cluster. cluster.rows ≡ self.now.rows) }
        ensures work { IfOk result (λ cluster. cluster.work ≡ self.now.work) }
    {
        Ok(Cluster {
            tables: self.tables.copy()?,
            sorter: self.sorter.copy()?,
        })
    }

    /// Returns the early refusal of an event, if there is one. It needs no memory.
    pub(crate) fn early_refusal(&self, limits: &Limits, event: &Event) -> Option<Refusal>
        requires { AreFew limits.now self.now.rows }
        ensures { result ≡ early_refusal_of limits.now self.now.rows event.now }
    {
        refuse_early(limits, &self.tables, event)
    }

    /// Returns why an event is refused, if it is. If there are many filters, expired ones are removed first; no other row
    /// changes.
    pub(crate) fn refusal(
        &mut self,
        limits: &Limits,
        event: &Event,
    ) -> Result<Option<Refusal>, AllocError>
        requires { IsStanding limits.now self.old.rows }
        ensures standing { IsStanding limits.now self.new.rows }
        ensures live { live_rows self.new.rows ≡ live_rows self.old.rows }
        ensures filters { length self.new.rows.filters ≤ 65536 }
        ensures value { IfOk result (λ refusal. refusal ≡ refusal_of limits.now self.new.rows event.now) }
        ensures early { OnErr result (early_refusal_of limits.now self.old.rows event.now ≡ None) }
        ensures work { self.new.work ≡ self.old.work }
    {
        self.tables.forget_spent();
        refusal(limits, &mut self.tables, event)
    }

    /// Adds one to the number of accepted events.
    pub(crate) fn count_event(&mut self)
        requires { self.old.rows.events + 1 < 2 ^ 64 }
        ensures counted { self.new.rows ≡ record self.old.rows { events = self.old.rows.events + 1 } }
        ensures consistent { IsConsistent self.new.rows }
        ensures work { self.new.work ≡ self.old.work }
    {
        self.tables.count_event();
    }

    /// Returns the key of the hashes of names.
    pub(crate) fn key(&self) -> HashKey {
        self.tables.key()
    }

    /// Returns the sorter, from which the order of the clients and the counted work can be read.
    pub(crate) fn sorter(&self) -> &S
        ensures content { IsSame (S.content result.now) (content_of self.now.rows) }
        ensures work { S.work result.now ≡ self.now.work }
    {
        &self.sorter
    }

    /// Returns the current state: the rows without expired filters.
    pub(crate) fn rows(&self) -> Result<Rows, AllocError>
        ensures { IfOk result (λ rows. rows ≡ live_rows self.now.rows) }
    {
        self.tables.rows()
    }
}
