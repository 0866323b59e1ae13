//! Quantities: amounts of scalars by label.
ghost use Rattle.std.specs.Prelude.{◌≡◌, ℕ, List, [], length, ◌^◌, ◌<◌, IsTrue, ◌+◌, ◌≤◌, ◌&&◌, nat_lt, nat_le, if◌then◌else◌, IfOk, IfErr, OnOk, OnErr, IsOk, IfSome, IfNone, false};
ghost use Rattle.std.specs.List.{insert, position};
ghost use Rattle.drf_bundle.specs.Quantities.{HasNoZeros, amount_of, is_named, known_amount, names_all, is_in_order, with_amount, plus, minus, covers, without_zeros, names_of};
ghost use Rattle.drf_bundle.specs.KeyPlaces.{IsAt, IsFreeSlotFor};
ghost use Rattle.drf_role.specs.Text.{same_text};

use crate::names::Names;
use drf_amount::Scalar;
use drf_role::Label;
use std::alloc::{AllocError, Global};
use std::marker::Model;

/// Up to this many entries are searched one by one.
const FEW: usize = 8;

/// The amount of one scalar.
#[derive(Drop)]
pub struct Entry {
    pub label: Label,
    pub amount: Scalar,
}

impl Entry {
    /// Returns an equal entry. Fails with `AllocError` if memory runs out.
    fn copy(&self) -> Result<Entry, AllocError>
        ensures { IfOk result (λ entry. entry ≡ self.now) }
    {
        Ok(Entry {
            label: self.label.copy()?,
            amount: self.amount,
        })
    }
}

// Inserts an entry at a place. Entries are mostly added in order, and at the end none has to be moved.
fn put_at(entries: &mut Vec<Entry>, at: usize, entry: Entry) -> Result<(), AllocError>
    requires { at ≤ length entries.old.items }
    ensures ok { OnOk result (entries.new.items ≡ insert entries.old.items at entry) }
    ensures err { OnErr result (entries.new.items ≡ entries.old.items) }
{
    if at == entries.len() {
        return Ok(entries.push(entry)?);
    }
    Ok(entries.insert(at, entry)?)
}

/// Amounts of scalars by label, in thousandths. A label can be named with the amount 0.
pub struct Quantities {
    entries: Vec<Entry>,
}

impl Model for Quantities {
    ghost use Rattle.std.specs.Prelude.{List, IsTrue};
    ghost use Rattle.drf_bundle.specs.declared.quantities.Entry.{Entry};

    ghost Value = { List Entry };

    ghost use Rattle.drf_bundle.specs.Quantities.{is_in_order};

    ghost view = { λ q. q.entries.items };

    ghost invariant = { λ q. IsTrue (is_in_order q.entries.items) };
}

// Written out, so that a caller's proof about dropping quantities deals with one call.
impl Drop for Quantities {
    fn drop(self) {
        let Quantities { entries: _entries } = self;
    }
}

impl Quantities {
    /// Returns quantities that name no label.
    pub fn empty(alloc: Global) -> Quantities
        ensures { result ≡ [] }
    {
        Quantities {
            entries: Vec::new(alloc),
        }
    }

    /// Returns the thousandths of the label with the given text, or 0 if it is not named.
    pub fn get(&self, label: &str) -> u64
        ensures { result ≡ amount_of self.now label.now }
    {
        match self.place_of_text(label) {
            Ok(at) => {
                let entry = &self.entries[at];
                entry.amount.thousandths()
            }
            Err(_) => 0,
        }
    }

    /// Returns the thousandths of a label, or 0 if it is not named.
    pub fn amount_of(&self, label: &Label) -> u64
        ensures { result ≡ amount_of self.now label.now }
    {
        self.amount_near(label, &mut 0)
    }

    /// Returns the thousandths of the label with the given text, or `None` if it is not named.
    pub fn known_amount(&self, label: &str) -> Option<u64>
        ensures { result ≡ known_amount self.now label.now }
    {
        match self.place_of_text(label) {
            Ok(at) => {
                let entry = &self.entries[at];
                Some(entry.amount.thousandths())
            }
            Err(_) => None,
        }
    }

    /// Returns the thousandths of a label, or `None` if it is not named.
    pub fn known_amount_of(&self, label: &Label) -> Option<u64>
        ensures { result ≡ known_amount self.now label.now }
    {
        let at = self.place_if_named(label, 0)?;
        let entry = &self.entries[at];
        Some(entry.amount.thousandths())
    }

    // Returns the thousandths of a label, which is probably at `place`; sets `place` to the place after it.
    fn amount_near(&self, label: &Label, place: &mut usize) -> u64
        ensures { result ≡ amount_of self.now label.now }
    {
        match self.place_if_named(label, *place) {
            Some(at) => {
                *place = at.saturating_add(1);
                let entry = &self.entries[at];
                entry.amount.thousandths()
            }
            None => 0,
        }
    }

    /// Returns whether the label is named, even if its amount is 0.
    pub fn is_named(&self, label: &str) -> bool
        ensures { result ≡ is_named self.now label.now }
    {
        self.place_of_text(label).is_ok()
    }

    // Returns whether a label is named, which is probably at `place`; sets `place` to the place after it.
    fn is_named_near(&self, label: &Label, place: &mut usize) -> bool
        ensures { result ≡ is_named self.now label.now }
    {
        match self.place_if_named(label, *place) {
            Some(at) => {
                *place = at.saturating_add(1);
                true
            }
            None => false,
        }
    }

    /// Returns the labels with their amounts, in byte order of the labels.
    pub fn entries(&self) -> &[Entry]
        ensures value { result.now ≡ self.now }
        ensures in_order { IsTrue (is_in_order self.now) }
    {
        self.entries.as_slice()
    }

    /// Proves that the labels are in order. It does nothing.
    pub fn recall(&self)
        ensures { IsTrue (is_in_order self.now) }
    {
        let _ = self.entries();
    }

    /// Returns the labels in byte order, also those with the amount 0.
    pub fn names(&self) -> Names<'_>
        ensures { result ≡ names_of self.now }
    {
        Names::new(self.entries())
    }

    /// Sets the amount of a label, and names the label if it was not named. Fails with `AllocError` if memory runs out,
    /// and never for a named label; then nothing changes.
    pub fn set(&mut self, label: Label, thousandths: u64) -> Result<(), AllocError>
        ensures ok { OnOk result (self.new ≡ with_amount self.old label thousandths) }
        ensures err { OnErr result (self.new ≡ self.old) }
        ensures named { IsTrue (is_named self.old label) → IsOk result }
    {
        let amount = Scalar::new(thousandths);
        match self.place_among(&label) {
            Ok(at) => {
                let entry = &mut self.entries[at];
                entry.amount = amount;
                Ok(())
            }
            Err(at) => Ok(self.entries.insert(at, Entry { label, amount })?),
        }
    }

    /// Adds to the amount of a label, and names it if it was not named. The label is probably at the hint or just after
    /// it.
    pub(crate) fn add(
        &mut self,
        label: &Label,
        thousandths: u64,
        hint: usize,
    ) -> Result<(), AllocError>
        requires { amount_of self.old label.now + thousandths < 2 ^ 64 }
        ensures ok { OnOk result (self.new ≡ with_amount self.old label.now (amount_of self.old label.now + thousandths)) }
        ensures err { OnErr result (self.new ≡ self.old) }
    {
        match self.place_of_label(label, hint) {
            Ok(at) => {
                let entry = &mut self.entries[at];
                let sum = entry.amount.thousandths() + thousandths;
                entry.amount = Scalar::new(sum);
                Ok(())
            }
            Err(at) => self.name_at(at, label, thousandths),
        }
    }

    /// Adds to the amount of a label, and names it if it was not named. Returns whether this was done: it fails if the
    /// sum would be 2^64 or more, or if memory runs out, and then nothing changes. The contract does not say that for a
    /// new label running out of memory is the only reason.
    pub fn add_to(&mut self, label: &Label, thousandths: u64) -> bool
        ensures ok { IsTrue result → self.new ≡ with_amount self.old label.now (amount_of self.old label.now + thousandths) }
        ensures not { result ≡ false → self.new ≡ self.old }
        ensures named { IsTrue (is_named self.old label.now) → result ≡ nat_lt (amount_of self.old label.now + thousandths) (2 ^ 64) }
    {
        match self.place_among(label) {
            Ok(at) => self.add_at(at, thousandths),
            Err(at) => self.name_at(at, label, thousandths).is_ok(),
        }
    }

    /// Adds to the amount of a label if it is named and the sum is below 2^64, and returns whether this was done. It
    /// allocates nothing.
    pub fn add_to_named(&mut self, label: &Label, thousandths: u64) -> bool
        ensures ok { IsTrue result → self.new ≡ with_amount self.old label.now (amount_of self.old label.now + thousandths) }
        ensures not { result ≡ false → self.new ≡ self.old }
        ensures result { result ≡ (is_named self.old label.now && nat_lt (amount_of self.old label.now + thousandths) (2 ^ 64)) }
    {
        match self.place_elsewhere(label, 0) {
            Some(at) => self.add_at(at, thousandths),
            None => false,
        }
    }

    // Adds to the amount at a place if the sum is below 2^64, and returns whether this was done.
    fn add_at(&mut self, at: usize, thousandths: u64) -> bool
        requires { at < length self.old }
        ensures ok { (label : List ℕ) → IsAt self.old label at → IsTrue result → self.new ≡ with_amount self.old label (amount_of self.old label + thousandths) }
        ensures not { result ≡ false → self.new ≡ self.old }
        ensures result { (label : List ℕ) → IsAt self.old label at → result ≡ nat_lt (amount_of self.old label + thousandths) (2 ^ 64) }
    {
        let entry = &mut self.entries[at];
        let Some(sum) = entry.amount.thousandths().checked_add(thousandths) else {
            return false;
        };
        entry.amount = Scalar::new(sum);
        true
    }

    // Inserts a label with its amount at the place where it belongs.
    fn name_at(&mut self, at: usize, label: &Label, thousandths: u64) -> Result<(), AllocError>
        requires { IsFreeSlotFor self.old label.now at }
        ensures ok { OnOk result (self.new ≡ with_amount self.old label.now thousandths) }
        ensures err { OnErr result (self.new ≡ self.old) }
    {
        let label = label.copy()?;
        let amount = Scalar::new(thousandths);
        Ok(put_at(&mut self.entries, at, Entry { label, amount })?)
    }

    /// Returns equal quantities. Fails with `AllocError` if memory runs out.
    pub fn copy(&self) -> Result<Quantities, AllocError>
        ensures { IfOk result (λ q. q ≡ self.now) }
    {
        let mut entries = Vec::with_capacity(self.alloc(), self.entries.len())?;
        for entry in &self.entries {
            entries.push(entry.copy()?)?;
        }
        Ok(Quantities { entries })
    }

    /// Returns the sum of both amounts for each label.
    pub fn plus(&self, other: &Quantities) -> Result<Quantities, AllocError>
        requires { (label : List ℕ) → amount_of self.now label + amount_of other.now label < 2 ^ 64 }
        ensures { IfOk result (λ q. q ≡ plus self.now other.now) }
    {
        let mut sum = self.copy()?;
        for (i, entry) in other.entries().iter().enumerate() {
            sum.add(&entry.label, entry.amount.thousandths(), i)?;
        }
        Ok(sum)
    }

    /// Returns whether these quantities name each label that the other ones name.
    pub fn names_all(&self, other: &Quantities) -> bool
        ensures { result ≡ names_all self.now other.now }
    {
        let mut place = 0;
        for entry in other.entries() {
            if !self.is_named_near(&entry.label, &mut place) {
                return false;
            }
        }
        true
    }

    /// Adds the amounts of `other`, whose labels must all be named here. It allocates nothing.
    pub fn raise(&mut self, other: &Quantities)
        requires named { IsTrue (names_all self.old other.now) }
        requires fits { (label : List ℕ) → amount_of self.old label + amount_of other.now label < 2 ^ 64 }
        ensures { self.new ≡ plus self.old other.now }
    {
        let mut place = 0;
        for entry in other.entries() {
            self.raise_one(&entry.label, entry.amount.thousandths(), &mut place);
        }
    }

    // Adds to the amount of a named label, which is probably at `place`; sets `place` to the place after it.
    fn raise_one(&mut self, label: &Label, thousandths: u64, place: &mut usize)
        requires named { IsTrue (is_named self.old label.now) }
        requires fits { amount_of self.old label.now + thousandths < 2 ^ 64 }
        ensures { self.new ≡ with_amount self.old label.now (amount_of self.old label.now + thousandths) }
    {
        let Some(at) = self.place_if_named(label, *place) else {
            return;
        };
        *place = at.saturating_add(1);
        let entry = &mut self.entries[at];
        let sum = entry.amount.thousandths() + thousandths;
        entry.amount = Scalar::new(sum);
    }

    /// Returns how many labels the two name together. It allocates nothing.
    pub fn count_with(&self, other: &Quantities) -> u64
        ensures { result ≡ length (plus self.now other.now) }
    {
        let mut count = self.entries().len() as u64;
        let mut place = 0;
        for entry in other.entries() {
            if !self.is_named_near(&entry.label, &mut place) {
                count += 1;
            }
        }
        count
    }

    /// Subtracts the amounts of `other`. A label whose amount becomes 0 stays named.
    pub fn lower(&mut self, other: &Quantities)
        requires { IsTrue (covers self.old other.now) }
        ensures { self.new ≡ minus self.old other.now }
    {
        let mut place = 0;
        for entry in self.entries.iter_mut() {
            let part = other.amount_near(&entry.label, &mut place);
            entry.amount = Scalar::new(entry.amount.thousandths() - part);
        }
    }

    /// Subtracts thousandths from the amount of a label. It allocates nothing.
    pub fn reduce(&mut self, label: &Label, thousandths: u64)
        requires { thousandths ≤ amount_of self.old label.now }
        ensures { (other : List ℕ) → amount_of self.new other + (if same_text label.now other then thousandths else 0) ≡ amount_of self.old other }
    {
        let _ = self.take_from(label, thousandths);
    }

    /// Subtracts thousandths from the amount of a label if it has that many, and returns whether this was done. It
    /// allocates nothing. The contract does not say that the label stays named.
    pub fn take_from(&mut self, label: &Label, thousandths: u64) -> bool
        ensures ok { IsTrue result
            → (other : List ℕ) → amount_of self.new other + (if same_text label.now other then thousandths else 0) ≡ amount_of self.old other }
        ensures not { result ≡ false → self.new ≡ self.old }
        ensures result { result ≡ nat_le thousandths (amount_of self.old label.now) }
    {
        let Some(at) = self.place_elsewhere(label, 0) else {
            return thousandths == 0;
        };
        let entry = &mut self.entries[at];
        let Some(left) = entry.amount.thousandths().checked_sub(thousandths) else {
            return false;
        };
        entry.amount = Scalar::new(left);
        true
    }

    /// Returns the allocator.
    pub(crate) fn alloc(&self) -> Global {
        *self.entries.allocator()
    }

    /// Removes the labels whose amount is 0.
    pub fn remove_zeros(&mut self)
        ensures value { self.new ≡ without_zeros self.old }
        ensures none { HasNoZeros self.new }
    {
        self.entries.retain(|entry| entry.amount.thousandths() > 0);
    }

    // Returns whether the label with the given text is at this place.
    fn text_is_at(&self, label: &str, at: usize) -> bool
        ensures { IsTrue result → IsAt self.now label.now at }
    {
        match self.entries.get(at) {
            Some(entry) => entry.label.text() == label,
            None => false,
        }
    }

    // Returns whether the label is at this place.
    fn label_is_at(&self, label: &Label, at: usize) -> bool
        ensures { IsTrue result → IsAt self.now label.now at }
    {
        match self.entries.get(at) {
            Some(entry) => entry.label == *label,
            None => false,
        }
    }

    // Returns the place of the label if it is named. The hint is tried first.
    fn place_if_named(&self, label: &Label, hint: usize) -> Option<usize>
        ensures found { IfSome result (IsAt self.now label.now) }
        ensures none { IfNone result (is_named self.now label.now ≡ false) }
    {
        if self.label_is_at(label, hint) {
            return Some(hint);
        }
        self.place_elsewhere(label, hint)
    }

    // Returns the same if the label is not at the hint. A few entries are searched one by one, because comparing labels
    // for equality is cheap; in a longer list the hint and the next place are tried first.
    fn place_elsewhere(&self, label: &Label, hint: usize) -> Option<usize>
        ensures found { IfSome result (IsAt self.now label.now) }
        ensures none { IfNone result (is_named self.now label.now ≡ false) }
    {
        if self.entries.len() > FEW {
            return self.place_of_label(label, hint).ok();
        }
        self.first_place(label)
    }

    // Returns the first place of the label, by a search from the beginning.
    fn first_place(&self, label: &Label) -> Option<usize>
        ensures { result ≡ position (λ e. same_text e.label label.now) self.now }
    {
        self.entries.iter().position(|entry| entry.label == *label)
    }

    // Returns the place of the label (`Ok`), or where it would be inserted (`Err`). A few entries are searched one by
    // one first.
    fn place_among(&self, label: &Label) -> Result<usize, usize>
        ensures found { IfOk result (IsAt self.now label.now) }
        ensures absent { IfErr result (IsFreeSlotFor self.now label.now) }
    {
        if self.entries.len() <= FEW {
            if let Some(at) = self.first_place(label) {
                return Ok(at);
            }
        }
        self.place_by_order(label.text())
    }

    // Returns the place of the label (`Ok`), or where it would be inserted (`Err`). The hint and the next place are
    // tried first.
    fn place_of_label(&self, label: &Label, hint: usize) -> Result<usize, usize>
        ensures found { IfOk result (IsAt self.now label.now) }
        ensures absent { IfErr result (IsFreeSlotFor self.now label.now) }
    {
        if self.label_is_at(label, hint) {
            return Ok(hint);
        }
        let next = hint.saturating_add(1);
        if self.label_is_at(label, next) {
            return Ok(next);
        }
        self.place_by_order(label.text())
    }

    // Returns the place of the label with the given text (`Ok`), or where it would be inserted (`Err`). The first three
    // places are tried first.
    fn place_of_text(&self, label: &str) -> Result<usize, usize>
        ensures found { IfOk result (IsAt self.now label.now) }
        ensures absent { IfErr result (IsFreeSlotFor self.now label.now) }
    {
        if self.text_is_at(label, 0) {
            return Ok(0);
        }
        if self.text_is_at(label, 1) {
            return Ok(1);
        }
        if self.text_is_at(label, 2) {
            return Ok(2);
        }
        self.place_by_order(label)
    }

    // Returns the place of the label with the given text (`Ok`), or where it would be inserted (`Err`). The end is tried
    // first, because entries are mostly added in order.
    fn place_by_order(&self, label: &str) -> Result<usize, usize>
        ensures found { IfOk result (IsAt self.now label.now) }
        ensures absent { IfErr result (IsFreeSlotFor self.now label.now) }
    {
        if self.comes_last(label) {
            return Err(self.entries.len());
        }
        self.search(label)
    }

    // Returns whether the label would come after all others.
    fn comes_last(&self, label: &str) -> bool
        ensures { IsTrue result → IsFreeSlotFor self.now label.now (length self.now) }
    {
        match self.entries.last() {
            Some(entry) => entry.label.text() < label,
            None => true,
        }
    }

    /// Returns the place of the label with the given text (`Ok`), or where it would be inserted (`Err`), by binary search.
    fn search(&self, label: &str) -> Result<usize, usize>
        ensures found { IfOk result (IsAt self.now label.now) }
        ensures absent { IfErr result (IsFreeSlotFor self.now label.now) }
    {
        self.entries
            .binary_search_by(|entry| entry.label.text().cmp(label))
    }
}
