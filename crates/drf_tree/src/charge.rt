//! Adding and subtracting what a client holds, on each node from its leaf up.
ghost use Rattle.std.specs.Prelude.{true, ◌≡◌, ◌⊎◌, Some, OnOk, length};
ghost use Rattle.drf_bundle.specs.Quantities.{amount_of, is_named, names_all};
ghost use Rattle.drf_role.specs.Path.{Path};
ghost use Rattle.drf_role.specs.Text.{Text, same_text};
ghost use Rattle.drf_sorter.specs.Content.{Content, charged, has_client, with_change};
ghost use Rattle.drf_tree.specs.Changes.{CanLowerAt, HasRoomFor, IsLowerable, IsShapeOf, NamesFew, NamesFewOnWay, OnWay, lowered};
ghost use Rattle.drf_tree.specs.Marks.{Defers};
ghost use Rattle.drf_tree.specs.Nodes.{client_at, is_live, path_at};
ghost use Rattle.drf_tree.specs.Tree.{IsTreeOf};

use crate::tree::{ROOT, Tree};
use drf_bundle::Quantities;
use drf_role::Label;
use std::alloc::AllocError;

impl Tree {
    /// Adds an entry for each label of these amounts, with the amount 0 if it is new, to each node from this one up. No amount changes.
    /// When out of memory, some of the nodes can have the new entries.
    pub(crate) fn name_labels(
        &mut self,
        leaf: usize,
        quantities: &Quantities,
    ) -> Result<(), AllocError>
        requires shape { IsShapeOf self.old }
        requires live { is_live self.old.places.items leaf ≡ true }
        ensures tree { (content : Content) → IsTreeOf content self.old → IsTreeOf content self.new }
        ensures named { OnOk result (OnWay self.new leaf (λ s. names_all s.held quantities.now ≡ true)) }
        ensures few { OnOk result (NamesFewOnWay self.old self.new leaf quantities.now) }
        ensures places { self.new.places ≡ self.old.places }
        ensures families { self.new.families ≡ self.old.families }
        ensures marks { self.new.marks ≡ self.old.marks }
    {
        let mut node = leaf;
        while node != ROOT {
            name_all(&mut self.sums[node].held, quantities)?;
            node = self.parent(node);
        }
        Ok(())
    }

    /// Adds these amounts and a number of offers to each node from this one up. Each of them must have an entry for each label.
    pub(crate) fn charge(&mut self, leaf: usize, quantities: &Quantities, offers: u64)
        requires shape { IsShapeOf self.old }
        requires room { HasRoomFor self.old leaf quantities.now offers }
        requires named { OnWay self.old leaf (λ s. names_all s.held quantities.now ≡ true) }
        ensures tree { (content : Content) (path : Path) → IsTreeOf content self.old → client_at self.old.places.items leaf ≡ Some path → has_client content path ≡ true → IsTreeOf (with_change content path (charged quantities.now offers)) self.new }
        ensures places { self.new.places ≡ self.old.places }
        ensures families { self.new.families ≡ self.old.families }
        ensures spends { Defers self.old.marks self.new.marks (length (path_at self.old.places.items leaf)) }
    {
        quantities.recall();
        let mut node = leaf;
        while node != ROOT {
            let sum = &mut self.sums[node];
            sum.held.raise(quantities);
            sum.count += offers;
            self.marks.mark(node);
            node = self.parent(node);
        }
    }

    /// Subtracts these amounts and a number of offers from each node from this one up.
    pub(crate) fn lower(&mut self, leaf: usize, quantities: &Quantities, offers: u64)
        requires shape { IsShapeOf self.old }
        requires lowerable { IsLowerable self.old leaf quantities.now offers }
        ensures tree { (content : Content) (path : Path) → IsTreeOf content self.old → client_at self.old.places.items leaf ≡ Some path → has_client content path ≡ true → CanLowerAt content path quantities.now offers → IsTreeOf (with_change content path (lowered quantities.now offers)) self.new }
        ensures places { self.new.places ≡ self.old.places }
        ensures families { self.new.families ≡ self.old.families }
        ensures spends { Defers self.old.marks self.new.marks (length (path_at self.old.places.items leaf)) }
    {
        quantities.recall();
        let mut node = leaf;
        while node != ROOT {
            let sum = &mut self.sums[node];
            sum.held.lower(quantities);
            sum.count -= offers;
            self.marks.mark(node);
            node = self.parent(node);
        }
    }
}

/// Adds an entry for each label of the other amounts, with the amount 0 if it is new. No amount changes, even when out of memory. If a
/// label is new, the entries whose amount is 0 are dropped first, so that the labels do not accumulate over time.
fn name_all(held: &mut Quantities, others: &Quantities) -> Result<(), AllocError>
    ensures same { (label : Text) → amount_of held.new label ≡ amount_of held.old label }
    ensures named { OnOk result (names_all held.new others.now ≡ true) }
    ensures few { NamesFew others.now held.old held.new }
{
    if held.names_all(others) {
        return Ok(());
    }
    held.recall();
    held.remove_zeros();
    name_each(held, others)
}

/// Adds an entry for each label of the other amounts, with the amount 0 if it is new.
fn name_each(held: &mut Quantities, others: &Quantities) -> Result<(), AllocError>
    ensures same { (label : Text) → amount_of held.new label ≡ amount_of held.old label }
    ensures named { OnOk result (names_all held.new others.now ≡ true) }
    ensures few { (label : Text) → is_named held.new label ≡ true → (is_named held.old label ≡ true) ⊎ (is_named others.now label ≡ true) }
{
    for entry in others.entries() {
        name(held, &entry.label)?;
    }
    Ok(())
}

/// Adds an entry for a label, with the amount 0 if it is new.
fn name(held: &mut Quantities, label: &Label) -> Result<(), AllocError>
    ensures same { (other : Text) → amount_of held.new other ≡ amount_of held.old other }
    ensures named { OnOk result (is_named held.new label.now ≡ true) }
    ensures stay { (other : Text) → is_named held.old other ≡ true → is_named held.new other ≡ true }
    ensures few { (other : Text) → is_named held.new other ≡ true → (is_named held.old other ≡ true) ⊎ (same_text label.now other ≡ true) }
{
    if held.is_named(label.text()) {
        return Ok(());
    }
    held.set(label.copy()?, 0)?;
    Ok(())
}
