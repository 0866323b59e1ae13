//! Checks that the receipts of passes fit a journal.
ghost use Rattle.std.specs.Prelude.{◌≡◌, ◌<◌, ◌≤◌, ◌↔◌, ◌++◌, ◌∷◌, [], true, false, cond, IsTrue, List, length, All, Some, None, slice_get, slice_set, IfOk, IfErr, OnOk};
ghost use Rattle.drf_master.specs.Matching.{IsShuffle, IsFault, count, receipts_of};
ghost use Rattle.drf_master.specs.Tallies.{IsTally, marked, least_above, lesser};
ghost use Rattle.drf_master.specs.declared.matching.CloseFault.TheVariants.{Memory};
ghost use Rattle.drf_master.specs.declared.pass.Receipt.{Receipt};

use crate::pass::{Pass, Receipt};
use crate::same::Same;
use drf_board::Entry;
use std::alloc::{AllocError, Global};

/// Why passes do not fit a journal. If several errors apply, the first of this list is returned, with the smallest place; but `Memory` can come
/// before `Mismatch`.
#[derive(Clone, Copy, Debug, PartialEq, Eq)]
pub enum CloseFault {
    /// A pass has another key than the master.
    Stranger,
    /// The passes hold fewer receipts than the journal has entries.
    Missing,
    /// A receipt for this place differs from the journal's entry, is out of order in its pass, or two receipts are for this place.
    Mismatch(u64),
    /// Memory ran out during the comparison.
    Memory,
}

impl From<AllocError> for CloseFault {
    ghost from_gives = { λ _ gives. gives ≡ Memory };

    fn from(_error: AllocError) -> CloseFault {
        CloseFault::Memory
    }
}

/// The places of the receipts examined so far, and the smallest place at which something is wrong.
#[derive(Drop)]
struct Tally {
    named: Vec<bool>,
    wrong: Option<u64>,
}

// Returns whether the passes hold fewer than `wanted` receipts.
fn lack(passes: &[Pass], wanted: usize) -> bool
    ensures { IsTrue result ↔ (count (receipts_of passes.now) < wanted) }
{
    let mut left = wanted;
    for pass in passes {
        left = left.saturating_sub(pass.receipts().len());
    }
    left > 0
}

// Returns whether a receipt equals the journal's entry at its place.
fn is_entry(journal: &[Entry], receipt: &Receipt) -> bool
    ensures { IsTrue result ↔ (slice_get journal.now receipt.now.place ≡ Some receipt.now.entry) }
{
    match journal.get(receipt.place as usize) {
        Some(entry) => entry.same(&receipt.entry),
        None => false,
    }
}

// Returns whether a place is greater than the one before it, if there is one.
fn is_above(before: Option<u64>, place: u64) -> bool
    ensures { IsTrue result ↔ (least_above before ≤ place) }
{
    match before {
        Some(before) => before < place,
        None => true,
    }
}

// Returns whether a receipt equals the journal's entry at its place, and its place is greater than that of the receipt before it in its pass.
fn is_journals(journal: &[Entry], before: Option<u64>, receipt: &Receipt) -> bool
    ensures { IsTrue result ↔ ((least_above before ≤ receipt.now.place) × (slice_get journal.now receipt.now.place ≡ Some receipt.now.entry)) }
{
    is_above(before, receipt.place) && is_entry(journal, receipt)
}

impl Tally {
    // Returns a tally before any receipt is examined.
    fn new(alloc: Global, places: usize) -> Result<Tally, AllocError>
        ensures places { IfOk result (λ tally. length tally.named.items ≡ places) }
        ensures named { IfOk result (λ tally. All (λ mark. mark ≡ false) tally.named.items) }
        ensures wrong { IfOk result (λ tally. tally.wrong ≡ None) }
    {
        let mut named = Vec::with_capacity(alloc, places)?;
        named.resize(places, false)?;
        Ok(Tally { named, wrong: None })
    }

    // Returns whether one of the receipts examined so far has this place.
    fn is_named(&self, place: u64) -> bool
        ensures { result ≡ marked self.now.named.items place }
    {
        match self.named.get(place as usize) {
            Some(mark) => *mark,
            None => false,
        }
    }

    // Examines a receipt. A place that another receipt has is wrong, even if this receipt equals the journal's entry.
    fn take(&mut self, place: u64, is_journals: bool)
        ensures named { self.new.named.items ≡ slice_set self.old.named.items place true }
        ensures wrong { self.new.wrong ≡ cond is_journals (cond (marked self.old.named.items place) (Some (lesser self.old.wrong place)) self.old.wrong) (Some (lesser self.old.wrong place)) }
    {
        if !is_journals || self.is_named(place) {
            let least = match self.wrong {
                Some(wrong) => if wrong <= place { wrong } else { place },
                None => place,
            };
            self.wrong = Some(least);
        }
        if let Some(mark) = self.named.get_mut(place as usize) {
            *mark = true;
        }
    }

    // Examines the receipts of one more pass.
    fn take_all(&mut self, journal: &[Entry], receipts: &[Receipt])
        ensures { (lists : List (List Receipt)) → IsTally journal.now lists self.old.named.items self.old.wrong → IsTally journal.now (lists ++ receipts.now ∷ []) self.new.named.items self.new.wrong }
    {
        let mut before = None;
        for receipt in receipts {
            let is_journals = is_journals(journal, before, receipt);
            self.take(receipt.place, is_journals);
            before = Some(receipt.place);
        }
    }
}

/// Checks that a journal is a shuffle of the receipts of these passes, as described at `Book::matches`.
pub fn matches(alloc: Global, journal: &[Entry], passes: &[Pass]) -> Result<(), CloseFault>
    ensures ok { OnOk result (IsShuffle journal.now (receipts_of passes.now)) }
    ensures err { IfErr result (IsFault journal.now (receipts_of passes.now)) }
    ensures exact { IsShuffle journal.now (receipts_of passes.now) → IfErr result (λ fault. fault ≡ Memory) }
{
    if lack(passes, journal.len()) {
        return Err(CloseFault::Missing);
    }
    let mut tally = Tally::new(alloc, journal.len())?;
    for pass in passes {
        tally.take_all(journal, pass.receipts());
    }
    match tally.wrong {
        None => Ok(()),
        Some(place) => Err(CloseFault::Mismatch(place)),
    }
}
