//! `ByNumber`, a list of things in order of their numbers. Removing a thing leaves a free slot. A thing is first looked for at the position
//! that its number suggests, counted from the last slot, and then by bisection. The free slots are closed when there are many more of them
//! than things, so that the list stays in proportion to its content.
ghost use Rattle.std.specs.Prelude.{◌≡◌, ◌==◌, ◌<◌, ◌≤◌, ◌^◌, ℕ, [], ◌∷◌, ◌++◌, map, find, filter, not, nat_lt, length, take, drop, None, IfSome, IfNone, IfErr, OnOk, OnErr, MatchOption, option_copied};
ghost use Rattle.std.specs.Iterator.{YieldsFirstRef, item_count};
ghost use Rattle.std.specs.List.{AllByRecursion};
ghost use Rattle.std.specs.Option.{option_to_list};
ghost use Rattle.drf_holdings.specs.ByNumber.{slot_number, things_in, IsPlaceOf, KeepsOrder};
ghost use Rattle.drf_holdings.specs.Rising.{IsRising, AreOthers};
ghost use Rattle.drf_holdings.specs.Taking.{IsTaken, HasNone};

use std::alloc::{AllocFailed, Global};
use std::marker::Model;

/// A thing with a number of its own.
pub(crate) trait Numbered: Sized + Drop {
    ghost number: { Self → ℕ };

    fn number(&self) -> u64
        ensures { result ≡ number self.now };
}

/// A slot: a number, and the thing with this number, or nothing if it was removed.
#[derive(Drop)]
pub(crate) struct Slot<T> {
    number: u64,
    thing: Option<T>,
}

impl<T> Slot<T> {
    fn into_thing(self) -> Option<T>
        ensures { result ≡ self.thing }
    {
        self.thing
    }

    /// Removes the thing from the slot, and returns it.
    fn empty(&mut self) -> Option<T>
        ensures thing { result ≡ self.old.thing }
        ensures free_slot { self.new ≡ record { number = self.old.number; thing = None } }
    {
        self.thing.take()
    }
}

/// Returns the position of a number, if the numbers from it to the last one are consecutive.
fn place_before_last<T>(slots: &[Slot<T>], number: u64) -> Option<usize>
    ensures { IfSome result (IsPlaceOf number slots.now) }
{
    let last = slots.len().checked_sub(1)?;
    let behind = slots[last].number.checked_sub(number)?;
    let place = last.checked_sub(behind as usize)?;
    if slots[place].number == number {
        Some(place)
    } else {
        None
    }
}

/// Returns how many slots have numbers below this one. The numbers must be increasing.
fn count_below<T>(slots: &[Slot<T>], number: u64) -> usize
    requires { IsRising (map slot_number slots.now) }
    ensures within { result ≤ length slots.now }
    ensures below { AllByRecursion (λ s. s.number < number) (take result slots.now) }
    ensures rest { AllByRecursion (λ s. number ≤ s.number) (drop result slots.now) }
{
    match slots.last() {
        Some(last) if number <= last.number => slots.partition_point(|slot| slot.number < number),
        _ => slots.len(),
    }
}

/// Returns the position of a number. The numbers must be increasing.
fn place_of<T>(slots: &[Slot<T>], number: u64) -> Option<usize>
    requires { IsRising (map slot_number slots.now) }
    ensures { MatchOption result (AreOthers slot_number number slots.now) (IsPlaceOf number slots.now) }
{
    if let Some(place) = place_before_last(slots, number) {
        return Some(place);
    }
    let place = count_below(slots, number);
    let slot = slots.get(place)?;
    if slot.number == number {
        Some(place)
    } else {
        None
    }
}

/// Removes the last thing and the free slots after it, and returns the thing.
fn pop_thing<T: Drop>(slots: &mut Vec<Slot<T>>) -> Option<T>
    ensures things { things_in slots.old.items ≡ things_in slots.new.items ++ option_to_list result }
    ensures order { KeepsOrder slots.old.items slots.new.items }
    ensures none { IfNone result (things_in slots.new.items ≡ []) }
{
    while let Some(slot) = slots.pop() {
        if let Some(thing) = slot.into_thing() {
            return Some(thing);
        }
    }
    None
}

// So many more free slots than things are always tolerated.
const FEW: usize = 16;

/// Closes the free slots if there are over `FEW` more of them than things.
fn close_up_if_many<T: Drop>(slots: &mut Vec<Slot<T>>, count: usize)
    ensures things { things_in slots.new.items ≡ things_in slots.old.items }
    ensures order { KeepsOrder slots.old.items slots.new.items }
{
    if count.saturating_mul(2).saturating_add(FEW) < slots.len() {
        slots.retain(|slot| slot.thing.is_some());
    }
}

/// Things with increasing numbers. Contracts see their list.
#[derive(Drop)]
pub(crate) struct ByNumber<T: Numbered> {
    slots: Vec<Slot<T>>,
    // The number of slots that are in use.
    count: usize,
}

impl<T: Numbered> Model for ByNumber<T> {
    ghost use Rattle.std.specs.Prelude.{List};
    ghost use Rattle.drf_holdings.specs.ByNumber.{things_in, IsByNumber};

    ghost Value = { List T };

    ghost view = { λ b. things_in b.slots.items };

    ghost invariant = { λ b. IsByNumber T.number b.slots.items b.count };
}

impl<T: Numbered> ByNumber<T> {
    /// Returns an empty list.
    pub(crate) fn new(alloc: Global) -> ByNumber<T>
        ensures { result ≡ [] }
    {
        ByNumber {
            slots: Vec::new(alloc),
            count: 0,
        }
    }

    pub(crate) fn len(&self) -> usize
        ensures len { result ≡ length self.now }
        ensures fits { result < 2 ^ 63 }
    {
        self.count
    }

    /// Returns an iterator over the things, in order of number.
    pub(crate) fn values(&self) -> InOrder<'_, T>
        ensures rest { result ≡ self.now }
        ensures fits { length self.now < 2 ^ 63 }
    {
        InOrder { slots: &self.slots }
    }

    /// Returns an iterator over the things whose numbers are at least this one, in order of number.
    pub(crate) fn from(&self, number: u64) -> InOrder<'_, T>
        ensures { result ≡ filter (λ x. not (nat_lt (T.number x) number)) self.now }
    {
        let place = count_below(&self.slots, number);
        InOrder {
            slots: &self.slots[place..],
        }
    }

    /// Returns the thing with this number.
    pub(crate) fn get(&self, number: u64) -> Option<&T>
        ensures { option_copied result ≡ find (λ x. T.number x == number) self.now }
    {
        let place = place_of(&self.slots, number)?;
        self.slots[place].thing.as_ref()
    }

    /// Removes the thing with this number, and returns it. It never allocates.
    pub(crate) fn take(&mut self, number: u64) -> Option<T>
        ensures found { result ≡ find (λ x. T.number x == number) self.old }
        ensures taken { MatchOption result
            (HasNone (λ x. T.number x == number) self.old self.new)
            (IsTaken (λ x. T.number x == number) self.old self.new) }
    {
        let place = place_of(&self.slots, number)?;
        let thing = self.slots[place].empty()?;
        self.count -= 1;
        close_up_if_many(&mut self.slots, self.count);
        Some(thing)
    }

    /// Removes the last thing, and returns it. It never allocates.
    pub(crate) fn pop(&mut self) -> Option<T>
        ensures items { self.old ≡ self.new ++ option_to_list result }
        ensures none { IfNone result ((self.old ≡ []) × (self.new ≡ [])) }
    {
        let last = pop_thing(&mut self.slots)?;
        self.count -= 1;
        Some(last)
    }

    /// Appends a thing, whose number must be greater than all others. When out of memory, returns it in the error; then nothing changes.
    pub(crate) fn push(&mut self, last: T) -> Result<(), AllocFailed<T>>
        requires { IsRising (map T.number (self.old ++ last ∷ [])) }
        ensures ok { OnOk result (self.new ≡ self.old ++ last ∷ []) }
        ensures back { IfErr result (λ failed. failed.value ≡ last) }
        ensures err { OnErr result (self.new ≡ self.old) }
    {
        let number = last.number();
        // The slots from here on are free.
        let place = count_below(&self.slots, number);
        self.slots.truncate(place);
        if self.slots.reserve(1).is_err() {
            return Err(AllocFailed { value: last });
        }
        self.slots.push_reserved(Slot {
            number,
            thing: Some(last),
        });
        self.count += 1;
        Ok(())
    }
}

/// An iterator over the things of a list, in order of number. Contracts see those that are still to come.
#[derive(Drop)]
pub struct InOrder<'a, T> {
    slots: &'a [Slot<T>],
}

impl<'a, T> Model for InOrder<'a, T> {
    ghost use Rattle.std.specs.Prelude.{List};
    ghost use Rattle.drf_holdings.specs.ByNumber.{things_in};

    ghost Value = { List T };

    ghost view = { λ r. things_in r.slots.now };
}

impl<'a, T> Iterator for InOrder<'a, T> {
    type Item = &'a T;

    ghost next_gives = { YieldsFirstRef (λ rest. rest) };

    ghost remaining = { item_count (λ rest. rest) };

    fn next(&mut self) -> Option<&'a T> {
        while let Some((slot, rest)) = self.slots.split_first() {
            self.slots = rest;
            if let Some(thing) = &slot.thing {
                return Some(thing);
            }
        }
        None
    }
}
