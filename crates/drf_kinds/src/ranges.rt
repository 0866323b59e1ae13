//! Finite sets of numbers.
ghost use Rattle.std.specs.Prelude.{◌≡◌, ◌↔◌, ◌<◌, ◌≤◌, ◌^◌, ℕ, All, Any, IsTrue, IsErrOf, IfOk, map};
ghost use Rattle.std.specs.List.Sorted.{IsNonDecreasingBy, IsPermutation};
ghost use Rattle.std.specs.FinSet as set;
ghost use Rattle.drf_kinds.specs.Sets.{set_join, set_refusal, is_kept};
ghost use Rattle.drf_kinds.specs.Intervals.{IsNumberSet, AreMaximal, members, is_in, interval_of};
ghost use Rattle.drf_kinds.specs.NumberSetLaws.{number_set_laws};
ghost use Rattle.drf_kinds.specs.declared.ranges.RangesFault.TheVariants.{Memory};

use crate::interval::{Interval, Intervals};
use crate::sweep::{combined, meets};
use drf_amount::{Algebra, AlgebraFault};
use std::alloc::{AllocError, Global};
use std::marker::Model;
use thiserror::Error;

/// Why pairs of numbers do not make a set.
#[derive(Clone, Copy, Debug, PartialEq, Eq, Error)]
pub enum RangesFault {
    /// The first number of a pair is greater than the second.
    #[error("the first end of a range is the greater")]
    Backwards,
    #[error("out of memory")]
    Memory,
}

impl From<AllocError> for RangesFault {
    ghost from_gives = { λ _ fault. fault ≡ Memory };

    fn from(_error: AllocError) -> RangesFault {
        RangesFault::Memory
    }
}

/// A finite set of numbers below 2^32, such as ports.
pub struct Ranges {
    // Each interval is maximal: neither the number before it nor the one after it is in the set.
    intervals: Intervals,
}

impl Model for Ranges {
    ghost use Rattle.std.specs.Ordering.{nat_cmp};
    ghost use Rattle.std.specs.FinSet as set;
    ghost use Rattle.std.specs.Coded.{coded_ℕ};
    ghost use Rattle.drf_kinds.specs.Intervals.{members, AreIntervalsOfSet};

    ghost Value = { set.FinSet nat_cmp };

    ghost coded = { set.code coded_ℕ };

    ghost view = { λ r. members r.intervals.items };

    ghost invariant = { λ r. AreIntervalsOfSet r.intervals.items };
}

// Written out, so that a caller's proof about dropping a set deals with one call, and not with where its intervals are
// stored.
impl Drop for Ranges {
    fn drop(self) {
        let Ranges {
            intervals: _intervals,
        } = self;
    }
}

/// Returns the intervals of the pairs.
fn intervals_of(alloc: Global, pairs: &[(u32, u32)]) -> Result<Intervals, AllocError>
    ensures { IfOk result (λ v. v.items ≡ map interval_of pairs.now) }
{
    pairs
        .iter()
        .map(|&(first, last)| Interval { first, last })
        .collect(alloc)
}

/// Returns the intervals of the pairs, ordered by their first numbers.
fn sorted(alloc: Global, pairs: &[(u32, u32)]) -> Result<Intervals, AllocError>
    ensures intervals { IfOk result (λ v. IsPermutation (map interval_of pairs.now) v.items) }
    ensures sorted { IfOk result (λ v. IsNonDecreasingBy (λ i. i.first) v.items) }
{
    let mut intervals = intervals_of(alloc, pairs)?;
    intervals.sort_unstable_by_key(|interval| interval.first);
    Ok(intervals)
}

/// Returns the maximal intervals that cover the same numbers as `intervals`, which are ordered by their first numbers.
fn merged(alloc: Global, intervals: &[Interval]) -> Result<Intervals, AllocError>
    requires sorted { IsNonDecreasingBy (λ i. i.first) intervals.now }
    requires ordered { All (λ i. i.first ≤ i.last) intervals.now }
    ensures maximal { IfOk result (λ v. AreMaximal v.items) }
    ensures members { IfOk result (λ v. (n : ℕ) → is_in v.items n ≡ is_in intervals.now n) }
{
    let mut merged = Intervals::new(alloc);
    if intervals.is_empty() {
        return Ok(merged);
    }
    let mut start = intervals[0].first;
    let mut end = intervals[0].last;
    for &Interval { first, last } in &intervals[1..] {
        if first <= end.saturating_add(1) {
            end = end.max(last);
        } else {
            merged.push(Interval {
                first: start,
                last: end,
            })?;
            start = first;
            end = last;
        }
    }
    merged.push(Interval {
        first: start,
        last: end,
    })?;
    Ok(merged)
}

impl Ranges {
    /// Returns the set with these maximal intervals.
    fn new(intervals: Intervals) -> Ranges
        requires { AreMaximal intervals.items }
        ensures { result ≡ members intervals.items }
    {
        Ranges { intervals }
    }

    /// Returns the numbers of both sets if `united`, and otherwise those that are only in this one.
    fn combined(&self, other: &Ranges, united: bool) -> Result<Ranges, AllocError>
        ensures { IfOk result (λ found. (n : ℕ) → set.contains found n ≡ is_kept united (set.contains self.now n) (set.contains other.now n)) }
    {
        let alloc = *self.intervals.allocator();
        Ok(Ranges::new(combined(alloc, &self.intervals, &other.intervals, united)?))
    }

    /// Returns the set of the numbers of all pairs, each from its first number to its second, both included. Fails with
    /// `Backwards` if the first number of a pair is greater than the second, and with `Memory` if memory runs out;
    /// `Backwards` is tested first.
    pub fn from_pairs(alloc: Global, pairs: &[(u32, u32)]) -> Result<Ranges, RangesFault>
        ensures members { IfOk result (λ ranges. (n : ℕ) → IsTrue (set.contains ranges n) ↔ Any (λ pair. (pair.0 ≤ n) × (n ≤ pair.1)) pairs.now) }
        ensures backwards { IsErrOf result RangesFault.Backwards ↔ Any (λ pair. pair.1 < pair.0) pairs.now }
        ensures memory { IsErrOf result RangesFault.Memory → All (λ pair. pair.0 ≤ pair.1) pairs.now }
    {
        if pairs.iter().any(|&(first, last)| last < first) {
            return Err(RangesFault::Backwards);
        }
        let intervals = sorted(alloc, pairs)?;
        Ok(Ranges::new(merged(alloc, &intervals)?))
    }

    /// Returns the numbers of both sets, which can share members.
    pub fn unite(&self, other: &Ranges) -> Result<Ranges, AllocError>
        ensures { IfOk result (λ found. found ≡ set.union self.now other.now) }
    {
        self.combined(other, true)
    }

    /// Returns the numbers of this set that are not in the other one, which need not be a subset.
    pub fn difference(&self, other: &Ranges) -> Result<Ranges, AllocError>
        ensures { IfOk result (λ found. found ≡ set.difference self.now other.now) }
    {
        self.combined(other, false)
    }

    /// Returns the maximal intervals in ascending order: between two of them there is a number that is not in the set.
    pub fn intervals(&self) -> &[Interval]
        ensures maximal { AreMaximal result.now }
        ensures value { members result.now ≡ self.now }
        ensures members { (n : ℕ) → set.contains self.now n ≡ is_in result.now n }
    {
        self.intervals.as_slice()
    }

    /// Returns whether `number` is a member, by binary search.
    pub fn contains(&self, number: u32) -> bool
        ensures { result ≡ set.contains self.now number }
    {
        let place = self
            .intervals
            .partition_point(|interval| interval.last < number);
        match self.intervals.get(place) {
            Some(interval) => interval.first <= number,
            None => false,
        }
    }
}

impl Algebra for Ranges {
    ghost is_given = { IsNumberSet };

    ghost empty = { set.empty };

    ghost join = { set_join };

    ghost refusal = { set_refusal };

    ghost amount = { set.len };

    ghost laws = { number_set_laws };

    fn empty(alloc: Global) -> Ranges {
        Ranges::new(Intervals::new(alloc))
    }

    fn is_empty(&self) -> bool {
        self.intervals.is_empty()
    }

    fn disjoint(&self, other: &Ranges) -> bool {
        !meets(&self.intervals, &other.intervals, true)
    }

    fn try_join(&self, other: &Ranges) -> Result<Ranges, AlgebraFault> {
        if !self.disjoint(other) {
            return Err(AlgebraFault::Overlap);
        }
        Ok(self.unite(other)?)
    }

    fn covers(&self, part: &Ranges) -> bool {
        !meets(&part.intervals, &self.intervals, false)
    }

    fn try_minus(&self, part: &Ranges) -> Result<Ranges, AlgebraFault> {
        if !self.covers(part) {
            return Err(AlgebraFault::NotCovered);
        }
        Ok(self.difference(part)?)
    }

    /// Returns how many numbers the set has.
    fn amount(&self) -> u128
        ensures given { IsNumberSet self.now }
        ensures amount { result ≡ set.len self.now }
        ensures small { result < 2 ^ 64 }
    {
        let mut amount = 0;
        for interval in self.intervals.as_slice() {
            amount += u128::from(interval.last - interval.first) + 1;
        }
        amount
    }

    fn copy(&self) -> Result<Ranges, AllocError> {
        let alloc = *self.intervals.allocator();
        Ok(Ranges::new(Intervals::from_slice(alloc, &self.intervals)?))
    }
}
