//! The filters of declined offers, and of the rest of accepted ones.
ghost use Rattle.std.specs.Prelude.{◌≡◌, [], ◌∷◌, ◌++◌, length, take, IfOk, OnOk, OnErr};
ghost use Rattle.drf_rows.specs.Filters.{is_held_back, in_force, number_in_force, filters_without_client, filters_without_agent, filters_without_framework};
ghost use Rattle.drf_rows.specs.Roles.{filters_without_left};
ghost use Rattle.drf_hash.specs.Slots.{filled};

pub(crate) mod index;
mod row;
pub(crate) mod slots;

use crate::filters::row::{copy_slot_in_force, keep_filled, number_in_force, soonest};
use crate::filters::slots::Slots;
use drf_bundle::Bundle;
use drf_hash::HashKey;
use drf_role::{Name, Role};
use drf_rows::{Copied, FilterRow, Table};
use std::alloc::{AllocError, Global};
use std::marker::Model;

/// The filters, in the order in which they were added. Contracts see their list. What leaves does so without memory.
#[derive(Drop)]
pub struct FilterTable {
    slots: Slots,
    // No filter ends before this moment, in milliseconds.
    soonest: u64,
}

impl Model for FilterTable {
    ghost use Rattle.std.specs.Prelude.{List};
    ghost use Rattle.drf_rows.specs.declared.rows.FilterRow.{FilterRow};

    ghost Value = { List FilterRow };

    ghost use Rattle.std.specs.Coded.{coded_list};
    ghost use Rattle.drf_rows.specs.contracts.rows.FilterRow as filter_row;

    ghost coded = { coded_list filter_row.the_row.coded };

    ghost use Rattle.drf_gates.specs.filters.Slots.{filters_in, IsFilterTable};

    ghost view = { λ t. filters_in t.slots };

    ghost invariant = { λ t. IsFilterTable t.slots t.soonest };
}

impl FilterTable {
    /// A table with no filters, which are found by hashes that begin with a key.
    pub fn new(alloc: Global, key: HashKey) -> FilterTable
        ensures { result ≡ [] }
    {
        FilterTable {
            slots: Slots::new(alloc, key.start),
            soonest: u64::MAX,
        }
    }

    /// How many filters stand, in force or not.
    pub fn len(&self) -> usize
        ensures { result ≡ length self.now }
    {
        self.slots.live
    }

    /// Adds a filter behind those that are there. An `Err` changes nothing.
    pub fn add(&mut self, row: FilterRow) -> Result<(), AllocError>
        ensures ok { OnOk result (self.new ≡ self.old ++ row ∷ []) }
        ensures err { OnErr result (self.new ≡ self.old) }
    {
        let until = row.until;
        self.slots.add(row)?;
        self.soonest = self.soonest.min(until);
        Ok(())
    }

    /// Adds a copy of a filter, if there is one.
    fn add_slot(&mut self, slot: &Option<FilterRow>) -> Result<(), AllocError>
        ensures { OnOk result (self.new ≡ self.old ++ filled (slot.now ∷ [])) }
    {
        match slot {
            Some(row) => self.add(row.copy()?),
            None => Ok(()),
        }
    }

    /// Keeps the first filters, as many as `number`.
    pub fn truncate(&mut self, number: usize)
        ensures { self.new ≡ take number self.old }
    {
        keep_filled(&mut self.slots.rows);
        self.slots.rows.truncate(number);
        self.slots.find_again();
    }

    /// Whether a filter of the client on the agent that is in force at `now`, in milliseconds, covers the bundle. Looks at
    /// their chain alone.
    pub fn holds_back(
        &self,
        role: &Role,
        framework: &Name,
        agent: &Name,
        bundle: &Bundle,
        now: u64,
    ) -> bool
        ensures { result ≡ is_held_back self.now now (record { role = role.now; framework = framework.now }) agent.now bundle.now }
    {
        self.slots.hold_back(role, framework, agent, bundle, now)
    }

    /// How many filters are in force at `now`, in milliseconds.
    pub fn in_force(&self, now: u64) -> u64
        ensures { result ≡ number_in_force now self.now }
    {
        if now < self.soonest {
            return self.slots.live as u64;
        }
        number_in_force(&self.slots.rows, now)
    }

    /// Drops the filters that are not in force at `now`, in milliseconds.
    pub fn drop_spent(&mut self, now: u64)
        ensures { self.new ≡ in_force now self.old }
    {
        if now < self.soonest {
            return;
        }
        self.slots.drop_spent(now);
        self.soonest = soonest(&self.slots.rows);
    }

    /// Drops the filters of a client, on whatever agent. Filters of others are looked at only where they share a bucket.
    pub fn revive(&mut self, role: &Role, framework: &Name)
        ensures { self.new ≡ filters_without_client (record { role = role.now; framework = framework.now }) self.old }
    {
        self.slots.drop_client(role, framework);
    }

    /// Drops the filters on an agent.
    pub fn drop_agent(&mut self, agent: &Name)
        ensures { self.new ≡ filters_without_agent agent.now self.old }
    {
        self.slots.drop_agent(agent);
    }

    /// Drops the filters of a framework in all its roles.
    pub fn drop_framework(&mut self, framework: &Name)
        ensures { self.new ≡ filters_without_framework framework.now self.old }
    {
        self.slots.drop_framework(framework);
    }

    /// Drops the filters of a framework in roles that are not among these. It never allocates.
    pub fn drop_left(&mut self, framework: &Name, roles: &[Role])
        ensures { self.new ≡ filters_without_left framework.now roles.now self.old }
    {
        self.slots.drop_left(framework, roles);
    }

    /// The filters in force at `now`, in milliseconds, copied.
    pub fn copy_in_force(&self, now: u64) -> Result<Table<FilterRow>, AllocError>
        ensures { IfOk result (λ rows. rows ≡ in_force now self.now) }
    {
        let mut rows = Vec::new(*self.slots.rows.allocator());
        for slot in &self.slots.rows {
            copy_slot_in_force(&mut rows, slot, now)?;
        }
        Ok(Table::from_vec(rows))
    }

    /// A table of its own with the same filters.
    pub fn copy(&self) -> Result<FilterTable, AllocError>
        ensures { IfOk result (λ table. table ≡ self.now) }
    {
        // All hashes begin with the key.
        let key = HashKey {
            start: self.slots.clients.start,
        };
        let mut copy = FilterTable::new(*self.slots.rows.allocator(), key);
        for slot in &self.slots.rows {
            copy.add_slot(slot)?;
        }
        Ok(copy)
    }
}
