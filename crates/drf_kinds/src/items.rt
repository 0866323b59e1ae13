//! Finite sets of labels.
ghost use Rattle.std.specs.Prelude.{◌≡◌, ◌<◌, ◌^◌, ℕ, List, All, IfOk};
ghost use Rattle.std.specs.FinSet as set;
ghost use Rattle.drf_kinds.specs.Sets.{set_join, set_refusal, is_kept};
ghost use Rattle.drf_kinds.specs.Names.{IsLabelSet, AreAscending, is_named};
ghost use Rattle.drf_kinds.specs.TextSetLaws.{text_set_laws};
ghost use Rattle.drf_role.specs.Name.{IsLabel};

use crate::merge::{combined, copies, meets};
use drf_amount::{Algebra, AlgebraFault};
use drf_role::Label;
use std::alloc::{AllocError, Global};
use std::marker::Model;

/// A finite set of labels, such as disks.
pub struct Items {
    // In byte order, without repetitions.
    names: Vec<Label>,
}

impl Model for Items {
    ghost use Rattle.std.specs.Prelude.{ℕ};
    ghost use Rattle.std.specs.FinSet as set;
    ghost use Rattle.std.specs.Coded.{coded_ℕ, coded_list};
    ghost use Rattle.drf_kinds.specs.Names.{text_cmp, AreNamesOfSet};

    ghost Value = { set.FinSet text_cmp };

    ghost coded = { set.code (coded_list coded_ℕ) };

    ghost view = { λ i. set.from_list i.names.items };

    ghost invariant = { λ i. AreNamesOfSet i.names.items };
}

// Written out, so that a caller's proof about dropping a set deals with one call, and not with its labels.
impl Drop for Items {
    fn drop(self) {
        let Items { names: _names } = self;
    }
}

/// Proves that each of them is a valid label, from the invariant of `Label`.
fn recall(labels: &[Label])
    ensures { All IsLabel labels.now }
{
    for label in labels {
        label.recall();
    }
}

impl Items {
    /// Returns the set of the labels. A label that occurs twice counts once. Fails with `AllocError` if memory runs
    /// out.
    pub fn from_names(_alloc: Global, names: Vec<Label>) -> Result<Items, AllocError>
        ensures { IfOk result (λ items. items ≡ set.from_list names.items) }
    {
        recall(&names);
        let mut names = names;
        names.sort()?;
        names.dedup();
        Ok(Items { names })
    }

    /// Returns the labels, in byte order.
    pub fn names(&self) -> &[Label]
        ensures ascending { AreAscending result.now }
        ensures labels { All IsLabel result.now }
        ensures value { set.from_list result.now ≡ self.now }
        ensures members { (text : List ℕ) → set.contains self.now text ≡ is_named result.now text }
    {
        self.names.as_slice()
    }

    /// Returns whether `name` is a member, by binary search.
    pub fn contains(&self, name: &str) -> bool
        ensures { result ≡ set.contains self.now name.now }
    {
        self.names
            .binary_search_by(|label| label.text().cmp(name))
            .is_ok()
    }

    /// Returns the labels of both sets if `united`, and otherwise those that are only in this one.
    fn combined(&self, other: &Items, united: bool) -> Result<Items, AllocError>
        ensures { IfOk result (λ found. (text : List ℕ) → set.contains found text ≡ is_kept united (set.contains self.now text) (set.contains other.now text)) }
    {
        let alloc = *self.names.allocator();
        Ok(Items {
            names: combined(alloc, &self.names, &other.names, united)?,
        })
    }

    /// Returns the labels of both sets, which can share members.
    pub fn unite(&self, other: &Items) -> Result<Items, AllocError>
        ensures { IfOk result (λ found. found ≡ set.union self.now other.now) }
    {
        self.combined(other, true)
    }

    /// Returns the labels of this set that are not in the other one, which need not be a subset.
    pub fn difference(&self, other: &Items) -> Result<Items, AllocError>
        ensures { IfOk result (λ found. found ≡ set.difference self.now other.now) }
    {
        self.combined(other, false)
    }
}

impl Algebra for Items {
    ghost is_given = { IsLabelSet };

    ghost empty = { set.empty };

    ghost join = { set_join };

    ghost refusal = { set_refusal };

    ghost amount = { set.len };

    ghost laws = { text_set_laws };

    fn empty(alloc: Global) -> Items {
        Items {
            names: Vec::new(alloc),
        }
    }

    fn is_empty(&self) -> bool {
        self.names.is_empty()
    }

    fn disjoint(&self, other: &Items) -> bool {
        !meets(&self.names, &other.names, true)
    }

    fn try_join(&self, other: &Items) -> Result<Items, AlgebraFault> {
        if !self.disjoint(other) {
            return Err(AlgebraFault::Overlap);
        }
        Ok(self.unite(other)?)
    }

    fn covers(&self, part: &Items) -> bool {
        !meets(&part.names, &self.names, false)
    }

    fn try_minus(&self, part: &Items) -> Result<Items, AlgebraFault> {
        if !self.covers(part) {
            return Err(AlgebraFault::NotCovered);
        }
        Ok(self.difference(part)?)
    }

    /// Returns the number of labels.
    fn amount(&self) -> u128
        ensures given { IsLabelSet self.now }
        ensures amount { result ≡ set.len self.now }
        ensures small { result < 2 ^ 64 }
    {
        self.names.len() as u128
    }

    fn copy(&self) -> Result<Items, AllocError> {
        Ok(Items {
            names: copies(*self.names.allocator(), &self.names)?,
        })
    }
}
