//! Operations that walk through two sets of numbers, side by side. A set is seen as its edges, the places where it
//! begins and ends: the first number of each interval, and the number after its last one.
ghost use Rattle.std.specs.Prelude.{◌≡◌, ◌≢◌, ℕ, false, min, IsTrue, IfOk, IfSome, IfNone};
ghost use Rattle.std.specs.Bool.{OnTrue, OnFalse};
ghost use Rattle.drf_kinds.specs.Intervals.{AreMaximal, is_in};
ghost use Rattle.drf_kinds.specs.Sweep.{next_place, passed, steps_of};
ghost use Rattle.drf_kinds.specs.Sets.{is_met, is_kept};

use crate::interval::{Interval, Intervals};
use std::alloc::{AllocError, Global};
use std::marker::Model;

/// A value greater than every edge of a set of numbers below 2^32.
const NOWHERE: u64 = 1 << 33;

/// The edges of a set that are still to come, and whether the numbers before the next edge are in the set.
#[derive(Drop)]
struct Edges<'a> {
    intervals: &'a [Interval],
    inside: bool,
}

impl<'a> Model for Edges<'a> {
    ghost use Rattle.drf_kinds.specs.Sweep.{Steps, steps_of};

    ghost Value = { Steps };

    ghost view = { λ e. steps_of e.inside e.intervals.now };
}

impl<'a> Edges<'a> {
    /// Returns all edges of the set with these intervals.
    fn new(intervals: &'a [Interval]) -> Edges<'a>
        ensures { result ≡ steps_of false intervals.now }
    {
        Edges {
            intervals,
            inside: false,
        }
    }

    /// Returns whether the numbers before the next edge are in the set.
    fn is_inside(&self) -> bool
        ensures { result ≡ self.now.inside }
    {
        self.inside
    }

    /// Returns the next edge, or `NOWHERE` if there is none.
    fn next(&self) -> u64
        ensures { result ≡ next_place self.now.places }
    {
        match self.intervals.first() {
            None => NOWHERE,
            Some(interval) if self.inside => u64::from(interval.last) + 1,
            Some(interval) => u64::from(interval.first),
        }
    }

    /// Moves past `place` if it is the next edge.
    fn pass(&mut self, place: u64)
        requires { place ≢ NOWHERE }
        ensures { self.new ≡ passed place self.old }
    {
        if self.next() != place {
            return;
        }
        if let [_, rest @ ..] = self.intervals {
            if self.inside {
                self.intervals = rest;
            }
            self.inside = !self.inside;
        }
    }
}

/// Moves past the next edge of the two sets, and returns it, or `None` if there is none.
fn pass_both(left: &mut Edges, right: &mut Edges) -> Option<u64>
    ensures place { IfSome result (λ place. place ≡ min (next_place left.old.places) (next_place right.old.places)) }
    ensures some { IfSome result (λ place. place ≢ NOWHERE) }
    ensures left { IfSome result (λ place. left.new ≡ passed place left.old) }
    ensures right { IfSome result (λ place. right.new ≡ passed place right.old) }
    ensures none { IfNone result (min (next_place left.old.places) (next_place right.old.places) ≡ NOWHERE) }
    ensures left_stays { IfNone result (left.new ≡ left.old) }
    ensures right_stays { IfNone result (right.new ≡ right.old) }
{
    let place = left.next().min(right.next());
    if place == NOWHERE {
        return None;
    }
    left.pass(place);
    right.pass(place);
    Some(place)
}

/// Returns whether some number of the left set is in the right one (`inside`), or is not in it (otherwise).
pub fn meets(left: &[Interval], right: &[Interval], inside: bool) -> bool
    requires left { AreMaximal left.now }
    requires right { AreMaximal right.now }
    ensures found { OnTrue result ((n : ℕ) × IsTrue (is_met inside (is_in left.now n) (is_in right.now n))) }
    ensures none { OnFalse result ((n : ℕ) → is_met inside (is_in left.now n) (is_in right.now n) ≡ false) }
{
    let mut left = Edges::new(left);
    let mut right = Edges::new(right);
    while let Some(_place) = pass_both(&mut left, &mut right) {
        if left.is_inside() && right.is_inside() == inside {
            return true;
        }
    }
    false
}

/// Returns whether a number is kept, given whether it is in each of the two sets.
fn is_kept(united: bool, left: bool, right: bool) -> bool
    ensures { result ≡ is_kept united left right }
{
    if united {
        left || right
    } else {
        left && !right
    }
}

/// Returns the numbers of both sets if `united`, and otherwise those that are only in the left one, as maximal
/// intervals.
pub fn combined(
    alloc: Global,
    left: &[Interval],
    right: &[Interval],
    united: bool,
) -> Result<Intervals, AllocError>
    requires left { AreMaximal left.now }
    requires right { AreMaximal right.now }
    ensures maximal { IfOk result (λ found. AreMaximal found.items) }
    ensures members { IfOk result (λ found. (n : ℕ) → is_in found.items n ≡ is_kept united (is_in left.now n) (is_in right.now n)) }
{
    let mut left = Edges::new(left);
    let mut right = Edges::new(right);
    let mut found = Intervals::new(alloc);
    let mut start = 0;
    let mut inside = false;
    while let Some(place) = pass_both(&mut left, &mut right) {
        let was_inside = inside;
        inside = is_kept(united, left.is_inside(), right.is_inside());
        if inside == was_inside {
            continue;
        }
        if inside {
            start = place;
        } else {
            found.push(Interval {
                first: start as u32,
                last: (place - 1) as u32,
            })?;
        }
    }
    Ok(found)
}
