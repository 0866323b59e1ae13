//! `OfferTable`, the outstanding offers in order of number.
ghost use Rattle.std.specs.Prelude.{◌≡◌, ◌==◌, ◌+◌, ◌≤◌, List, [], ◌∷◌, ◌++◌, map, find, filter, flat_map, not, nat_lt, take, reverse, length, vec_len, vec_capacity, IfOk, OnOk, OnErr, MatchOption, option_copied};
ghost use Rattle.drf_bundle.specs.Taken.{rest_of_all};
ghost use Rattle.drf_rows.specs.Holdings.{holding_of_offer, parts_on};
ghost use Rattle.drf_rows.specs.declared.rows.OfferRow.{OfferRow};
ghost use Rattle.drf_holdings.specs.Listed.{offer_number, offer_on, offer_of, bundles_at, AreOffersListed, AreOffersKept};
ghost use Rattle.drf_holdings.specs.Rising.{IsRising};
ghost use Rattle.drf_holdings.specs.Taking.{IsTaken, HasNone};

use crate::by_number::{ByNumber, InOrder, Numbered};
use crate::index::Index;
use drf_amount::Algebra;
use drf_bundle::Bundle;
use drf_hash::HashKey;
use drf_role::Name;
use drf_rows::{Copied, OfferRow, Table};
use std::alloc::{AllocError, AllocFailed, Global};
use std::collections::VecDeque;
use std::marker::Model;

/// The numbers of offers, by agent and by framework.
#[derive(Drop)]
pub(crate) struct OfferIndex {
    pub(crate) agents: Index,
    pub(crate) frameworks: Index,
}

impl OfferIndex {
    /// Returns an index without offers. The hashes of names begin with `key`.
    fn new(alloc: Global, key: HashKey) -> OfferIndex
        ensures { AreOffersListed result [] }
    {
        OfferIndex {
            agents: Index::new(alloc, key),
            frameworks: Index::new(alloc, key),
        }
    }

    /// Adds an offer after the others. When out of memory, nothing changes.
    fn add(&mut self, offer: &OfferRow) -> Result<(), AllocError>
        ensures ok { OnOk result ((offers : List OfferRow) → AreOffersListed self.old offers → AreOffersListed self.new (offers ++ offer.now ∷ [])) }
        ensures err { OnErr result ((offers : List OfferRow) → IsRising (map offer_number (offers ++ offer.now ∷ []))
            → AreOffersListed self.old offers → AreOffersListed self.new offers) }
    {
        self.agents.add(&offer.agent, offer.number)?;
        match self.frameworks.add(&offer.framework, offer.number) {
            Ok(()) => Ok(()),
            Err(error) => {
                self.agents.remove(&offer.agent, offer.number);
                Err(error)
            }
        }
    }

    /// Removes an offer.
    fn remove(&mut self, offer: &OfferRow)
        ensures { (before after : List OfferRow) → IsRising (map offer_number (before ++ offer.now ∷ after))
            → AreOffersListed self.old (before ++ offer.now ∷ after) → AreOffersListed self.new (before ++ after) }
    {
        self.agents.remove(&offer.agent, offer.number);
        self.frameworks.remove(&offer.framework, offer.number);
    }

    /// Removes some offers, which are the last ones.
    fn remove_all(&mut self, offers: &[OfferRow])
        ensures { (before : List OfferRow) → AreOffersKept self.old (before ++ offers.now) → AreOffersListed self.new before }
    {
        for offer in offers {
            self.remove(offer);
        }
    }

    /// Adds all of these offers after the others. When out of memory, those that were added are removed again, and nothing changes.
    fn add_all(&mut self, offers: &[OfferRow]) -> Result<(), AllocError>
        ensures ok { OnOk result ((before : List OfferRow) → AreOffersListed self.old before → AreOffersListed self.new (before ++ offers.now)) }
        ensures err { OnErr result ((before : List OfferRow) → IsRising (map offer_number (before ++ offers.now))
            → AreOffersListed self.old before → AreOffersListed self.new before) }
    {
        for (place, offer) in offers.iter().enumerate() {
            if let Err(error) = self.add(offer) {
                self.remove_all(&offers[..place]);
                return Err(error);
            }
        }
        Ok(())
    }
}

impl Numbered for OfferRow {
    ghost use Rattle.drf_holdings.specs.Listed.{offer_number};

    ghost number = { offer_number };

    fn number(&self) -> u64 {
        self.number
    }
}

/// Moves offers to the end of `rows`, the last one first. When out of memory, the remaining offers stay where they are.
fn move_some(rows: &mut ByNumber<OfferRow>, offers: &mut Vec<OfferRow>) -> Result<(), AllocError>
    requires { IsRising (map offer_number (rows.old ++ reverse offers.old.items)) }
    ensures all { rows.new ++ reverse offers.new.items ≡ rows.old ++ reverse offers.old.items }
    ensures prefix { (moved : List OfferRow) × (rows.new ≡ rows.old ++ moved) }
    ensures moved { OnOk result (offers.new.items ≡ []) }
    ensures room { vec_capacity offers.new ≡ vec_capacity offers.old }
{
    while let Some(offer) = offers.pop() {
        if let Err(failed) = rows.push(offer) {
            let AllocFailed { value } = failed;
            offers.push_reserved(value);
            return Err(AllocError);
        }
    }
    Ok(())
}

/// Moves the last offers of `rows` back, until `count` are left. It never allocates.
fn move_back(rows: &mut ByNumber<OfferRow>, offers: &mut Vec<OfferRow>, count: usize)
    requires within { count ≤ length rows.old }
    requires room { vec_len offers.old + length rows.old ≤ vec_capacity offers.old + count }
    ensures rows { rows.new ≡ take count rows.old }
    ensures all { rows.new ++ reverse offers.new.items ≡ rows.old ++ reverse offers.old.items }
{
    while count < rows.len() {
        let Some(offer) = rows.pop() else {
            return;
        };
        offers.push_reserved(offer);
    }
}

/// Moves all of these offers to the end of `rows`. When out of memory, neither list changes.
fn move_all(rows: &mut ByNumber<OfferRow>, offers: &mut Vec<OfferRow>) -> Result<(), AllocError>
    requires { IsRising (map offer_number (rows.old ++ offers.old.items)) }
    ensures ok { OnOk result (rows.new ≡ rows.old ++ offers.old.items) }
    ensures moved { OnOk result (offers.new.items ≡ []) }
    ensures err { OnErr result ((rows.new ≡ rows.old) × (offers.new.items ≡ offers.old.items)) }
{
    let count = rows.len();
    offers.reverse();
    match move_some(rows, offers) {
        Ok(()) => Ok(()),
        Err(error) => {
            move_back(rows, offers, count);
            offers.reverse();
            Err(error)
        }
    }
}

/// Offers with increasing numbers, and an index of them. Contracts see their list. Removing an offer never allocates.
#[derive(Drop)]
pub(crate) struct OfferTable {
    rows: ByNumber<OfferRow>,
    index: OfferIndex,
}

impl Model for OfferTable {
    ghost use Rattle.std.specs.Prelude.{List};
    ghost use Rattle.drf_rows.specs.declared.rows.OfferRow.{OfferRow};

    ghost Value = { List OfferRow };

    ghost use Rattle.std.specs.Coded.{coded_list};
    ghost use Rattle.drf_rows.specs.contracts.rows.OfferRow as offer_row;

    ghost coded = { coded_list offer_row.the_row.coded };

    ghost view = { λ t. t.rows };

    ghost use Rattle.drf_holdings.specs.Listed.{AreOffersKept};

    ghost invariant = { λ t. AreOffersKept t.index t.rows };
}

impl OfferTable {
    /// Returns a table without offers. The hashes of names begin with `key`.
    pub(crate) fn new(alloc: Global, key: HashKey) -> OfferTable
        ensures { result ≡ [] }
    {
        OfferTable {
            rows: ByNumber::new(alloc),
            index: OfferIndex::new(alloc, key),
        }
    }

    /// Returns the number of offers.
    pub(crate) fn len(&self) -> usize
        ensures { result ≡ length self.now }
    {
        self.rows.len()
    }

    /// Returns an iterator over the offers, in order of number.
    pub(crate) fn rows(&self) -> InOrder<'_, OfferRow>
        ensures { result ≡ self.now }
    {
        self.rows.values()
    }

    /// Returns an iterator over the offers whose numbers are at least this one, in order of number.
    pub(crate) fn from(&self, number: u64) -> InOrder<'_, OfferRow>
        ensures { result ≡ filter (λ o. not (nat_lt o.number number)) self.now }
    {
        self.rows.from(number)
    }

    /// Returns copies of the offers, in order of number.
    pub(crate) fn copies(&self, alloc: Global) -> Result<Table<OfferRow>, AllocError>
        ensures { IfOk result (λ rows. rows ≡ self.now) }
    {
        let mut copies = Vec::with_capacity(alloc, self.rows.len())?;
        for offer in self.rows() {
            copies.push(offer.copy()?)?;
        }
        Ok(Table::from_vec(copies))
    }

    /// Returns a copy of the table.
    pub(crate) fn copy(&self) -> Result<OfferTable, AllocError>
        ensures { IfOk result (λ copy. copy ≡ self.now) }
    {
        let alloc = self.index.agents.alloc();
        let mut rows = ByNumber::new(alloc);
        let mut index = OfferIndex::new(alloc, self.index.agents.key());
        for offer in self.rows() {
            let row = offer.copy()?;
            index.add(&row)?;
            rows.push(row)?;
        }
        Ok(OfferTable { rows, index })
    }

    /// Returns the offer with this number.
    pub(crate) fn get(&self, number: u64) -> Option<&OfferRow>
        ensures { option_copied result ≡ find (λ o. o.number == number) self.now }
    {
        self.rows.get(number)
    }

    /// Returns a bundle without the resources of the offers with these numbers.
    fn less(&self, whole: Bundle, numbers: &VecDeque<u64>) -> Result<Bundle, AllocError>
        ensures { IfOk result (λ left. left ≡ rest_of_all whole (flat_map (bundles_at offer_number (λ o. o.bundle) self.now) numbers.now.items)) }
    {
        let mut left = whole;
        for number in numbers {
            let Some(offer) = self.get(*number) else {
                continue;
            };
            left = left.rest(&offer.bundle)?;
        }
        Ok(left)
    }

    /// Returns a bundle without the resources of the offers on an agent.
    pub(crate) fn left_of(&self, whole: &Bundle, agent: &Name) -> Result<Bundle, AllocError>
        ensures { IfOk result (λ left. left ≡ rest_of_all whole.now (parts_on agent.now (map holding_of_offer self.now))) }
    {
        let whole = whole.copy()?;
        match self.index.agents.list(agent) {
            Some(numbers) => self.less(whole, numbers),
            None => Ok(whole),
        }
    }

    /// Removes the offer with this number, and returns it.
    pub(crate) fn take(&mut self, number: u64) -> Option<OfferRow>
        ensures found { result ≡ find (λ o. o.number == number) self.old }
        ensures taken { MatchOption result
            (HasNone (λ o. o.number == number) self.old self.new)
            (IsTaken (λ o. o.number == number) self.old self.new) }
    {
        let offer = self.rows.take(number)?;
        self.index.remove(&offer);
        Some(offer)
    }

    /// Removes the last offer on an agent, and returns it.
    pub(crate) fn take_on(&mut self, agent: &Name) -> Option<OfferRow>
        ensures { MatchOption result
            (HasNone (offer_on agent.now) self.old self.new)
            (IsTaken (offer_on agent.now) self.old self.new) }
    {
        let number = self.index.agents.last(agent)?;
        self.take(number)
    }

    /// Removes the last offer of a framework, and returns it.
    pub(crate) fn take_of(&mut self, framework: &Name) -> Option<OfferRow>
        ensures { MatchOption result
            (HasNone (offer_of framework.now) self.old self.new)
            (IsTaken (offer_of framework.now) self.old self.new) }
    {
        let number = self.index.frameworks.last(framework)?;
        self.take(number)
    }

    /// Moves all of these offers to the end of the table. When out of memory, neither list changes.
    pub(crate) fn append(&mut self, offers: &mut Vec<OfferRow>) -> Result<(), AllocError>
        requires { IsRising (map offer_number (self.old ++ offers.old.items)) }
        ensures ok { OnOk result (self.new ≡ self.old ++ offers.old.items) }
        ensures moved { OnOk result (offers.new.items ≡ []) }
        ensures err { OnErr result ((self.new ≡ self.old) × (offers.new.items ≡ offers.old.items)) }
    {
        self.index.add_all(offers)?;
        if let Err(error) = move_all(&mut self.rows, offers) {
            self.index.remove_all(offers);
            return Err(error);
        }
        Ok(())
    }
}
