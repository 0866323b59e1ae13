//! Filters in the order in which they were added, with gaps where some were taken out.
ghost use Rattle.std.specs.Prelude.{◌≡◌, ◌<◌, [], ◌∷◌, ◌++◌, None, length, set, OnOk, OnErr};
ghost use Rattle.drf_rows.specs.Filters.{is_held_back, in_force, filters_without_client, filters_without_agent, filters_without_framework};
ghost use Rattle.drf_rows.specs.Roles.{filters_without_left};
ghost use Rattle.drf_gates.specs.filters.Slots.{filters_in, AreMarked, AreTidy, IsSlots, IsClosed};

use crate::filters::index::{Index, Key, client_hash, pair_hash};
use crate::filters::row::{
    is_slot_of_client, is_slot_of_framework, is_slot_of_left, is_slot_on_agent, is_slot_spent,
    keep_filled, slot_holds_back,
};
use drf_bundle::Bundle;
use drf_hash::NameHasher;
use drf_role::{Name, Role};
use drf_rows::FilterRow;
use std::alloc::{AllocError, Global};

/// Where all filters are looked at, fewer than so many leave their chains one by one; else the chains are made anew.
const FEW: usize = 8;

/// Filters, found by their client, and by client and agent. Where a quarter of all are gaps, they are closed when filters
/// need room or leave, but for a `revive`.
#[derive(Drop)]
pub(crate) struct Slots {
    pub(crate) rows: Vec<Option<FilterRow>>,
    pub(crate) pairs: Index,
    pub(crate) clients: Index,
    // How many are no gaps.
    pub(crate) live: usize,
}

impl Slots {
    /// No filters.
    pub(crate) fn new(alloc: Global, start: NameHasher) -> Slots
        ensures slots { IsSlots result }
        ensures none { filters_in result ≡ [] }
    {
        let rows = Vec::new(alloc);
        let pairs = Index::new(alloc, start);
        let clients = Index::new(alloc, start);
        Slots {
            rows,
            pairs,
            clients,
            live: 0,
        }
    }

    /// Finds the filters that are left, among which are no gaps.
    pub(crate) fn find_again(&mut self)
        requires { IsClosed self.old }
        ensures slots { IsSlots self.new }
        ensures same { filters_in self.new ≡ filters_in self.old }
    {
        self.pairs.rebuild_if_less(Key::ClientAndAgent, &self.rows);
        self.clients.rebuild_if_less(Key::Client, &self.rows);
        self.live = self.rows.len();
    }

    /// Closes the gaps where a quarter of all are gaps.
    fn close_free_slots_if_many(&mut self)
        requires { IsSlots self.old }
        ensures slots { IsSlots self.new }
        ensures same { filters_in self.new ≡ filters_in self.old }
    {
        if self.live < self.rows.len() / 4 * 3 {
            keep_filled(&mut self.rows);
            self.find_again();
        }
    }

    /// Closes many gaps where one more filter needs more buckets.
    fn close_free_slots_if_full(&mut self)
        requires { IsSlots self.old }
        ensures slots { IsSlots self.new }
        ensures same { filters_in self.new ≡ filters_in self.old }
    {
        if self.clients.is_full() {
            self.close_free_slots_if_many();
        }
    }

    /// Adds a filter behind those that are there. An `Err` changes none.
    pub(crate) fn add(&mut self, row: FilterRow) -> Result<(), AllocError>
        requires { IsSlots self.old }
        ensures slots { IsSlots self.new }
        ensures ok { OnOk result (filters_in self.new ≡ filters_in self.old ++ row ∷ []) }
        ensures err { OnErr result (filters_in self.new ≡ filters_in self.old) }
    {
        self.close_free_slots_if_full();
        self.rows.reserve(1)?;
        self.pairs.make_room()?;
        self.clients.make_room()?;
        self.pairs.push(Key::ClientAndAgent, &row);
        self.clients.push(Key::Client, &row);
        self.rows.push_reserved(Some(row));
        self.live += 1;
        Ok(())
    }

    /// Takes out what is at a place, and out of its chains.
    fn take_out(&mut self, place: usize)
        requires slots { IsSlots self.old }
        requires within { place < length self.old.rows.items }
        ensures slots { IsSlots self.new }
        ensures rows { self.new.rows.items ≡ set self.old.rows.items place None }
        ensures heads { length self.new.clients.heads.items ≡ length self.old.clients.heads.items }
        ensures start { self.new.clients.start ≡ self.old.clients.start }
    {
        if self.rows[place].take().is_some() {
            self.pairs.unlink(place);
            self.clients.unlink(place);
            self.live -= 1;
        }
    }

    /// Takes out what is at a place, and leaves chains that led to it cut.
    fn cut_out(&mut self, place: usize)
        requires marked { AreMarked self.old }
        requires within { place < length self.old.rows.items }
        ensures marked { AreMarked self.new }
        ensures rows { self.new.rows.items ≡ set self.old.rows.items place None }
    {
        if self.rows[place].take().is_some() {
            self.pairs.part(place);
            self.clients.part(place);
            self.live -= 1;
        }
    }

    /// Takes out what is at a place: out of its chains, while few left so. Says how many more may.
    fn leave(&mut self, place: usize, few: usize) -> usize
        requires marked { AreMarked self.old }
        requires within { place < length self.old.rows.items }
        requires tidy { 0 < few → AreTidy self.old }
        ensures marked { AreMarked self.new }
        ensures rows { self.new.rows.items ≡ set self.old.rows.items place None }
        ensures tidy { 0 < result → AreTidy self.new }
    {
        if few == 0 {
            self.cut_out(place);
            return 0;
        }
        self.take_out(place);
        few - 1
    }

    /// Chains the filters that are left anew, if no more may leave one by one.
    fn chain_if_many(&mut self, few: usize)
        requires marked { AreMarked self.old }
        requires tidy { 0 < few → AreTidy self.old }
        ensures slots { IsSlots self.new }
        ensures same { filters_in self.new ≡ filters_in self.old }
    {
        if few > 0 {
            return;
        }
        self.pairs.chain_all();
        self.clients.chain_all();
    }

    /// Takes the filters of a client out, on whatever agent. Looks at the chains in which they are.
    pub(crate) fn drop_client(&mut self, role: &Role, framework: &Name)
        requires { IsSlots self.old }
        ensures slots { IsSlots self.new }
        ensures others { filters_in self.new ≡ filters_without_client (record { role = role.now; framework = framework.now }) (filters_in self.old) }
    {
        if self.rows.is_empty() {
            return;
        }
        let mut after = self
            .clients
            .last(client_hash(self.clients.start, role, framework));
        while after > 0 {
            let place = after - 1;
            after = self.clients.link(place).before;
            if is_slot_of_client(&self.rows[place], role, framework) {
                self.take_out(place);
            }
        }
    }

    /// Takes the filters on an agent out.
    pub(crate) fn drop_agent(&mut self, agent: &Name)
        requires { IsSlots self.old }
        ensures slots { IsSlots self.new }
        ensures others { filters_in self.new ≡ filters_without_agent agent.now (filters_in self.old) }
    {
        let mut few = FEW;
        for place in 0..self.rows.len() {
            if is_slot_on_agent(&self.rows[place], agent) {
                few = self.leave(place, few);
            }
        }
        self.chain_if_many(few);
        self.close_free_slots_if_many();
    }

    /// Takes the filters of a framework out in all its roles.
    pub(crate) fn drop_framework(&mut self, framework: &Name)
        requires { IsSlots self.old }
        ensures slots { IsSlots self.new }
        ensures others { filters_in self.new ≡ filters_without_framework framework.now (filters_in self.old) }
    {
        let mut few = FEW;
        for place in 0..self.rows.len() {
            if is_slot_of_framework(&self.rows[place], framework) {
                few = self.leave(place, few);
            }
        }
        self.chain_if_many(few);
        self.close_free_slots_if_many();
    }

    /// Takes out the filters of a framework in roles that are not among these.
    pub(crate) fn drop_left(&mut self, framework: &Name, roles: &[Role])
        requires { IsSlots self.old }
        ensures slots { IsSlots self.new }
        ensures others { filters_in self.new ≡ filters_without_left framework.now roles.now (filters_in self.old) }
    {
        let mut few = FEW;
        for place in 0..self.rows.len() {
            if is_slot_of_left(&self.rows[place], framework, roles) {
                few = self.leave(place, few);
            }
        }
        self.chain_if_many(few);
        self.close_free_slots_if_many();
    }

    /// Takes the filters out that are not in force at `now`, in milliseconds.
    pub(crate) fn drop_spent(&mut self, now: u64)
        requires { IsSlots self.old }
        ensures slots { IsSlots self.new }
        ensures others { filters_in self.new ≡ in_force now (filters_in self.old) }
    {
        let mut few = FEW;
        for place in 0..self.rows.len() {
            if is_slot_spent(&self.rows[place], now) {
                few = self.leave(place, few);
            }
        }
        self.chain_if_many(few);
        self.close_free_slots_if_many();
    }

    /// Whether a filter of the client on the agent that is in force at `now`, in milliseconds, covers the bundle. Looks at
    /// their chain alone.
    pub(crate) fn hold_back(
        &self,
        role: &Role,
        framework: &Name,
        agent: &Name,
        bundle: &Bundle,
        now: u64,
    ) -> bool
        requires { IsSlots self.now }
        ensures { result ≡ is_held_back (filters_in self.now) now (record { role = role.now; framework = framework.now }) agent.now bundle.now }
    {
        if self.rows.is_empty() {
            return false;
        }
        let hash = pair_hash(self.pairs.start, role, framework, agent);
        let mut after = self.pairs.last(hash);
        while after > 0 {
            let place = after - 1;
            let link = self.pairs.link(place);
            if link.mark == hash
                && slot_holds_back(&self.rows[place], role, framework, agent, bundle, now)
            {
                return true;
            }
            after = link.before;
        }
        false
    }
}
