//! The children of a node, in the order of their keys.
ghost use Rattle.std.specs.Prelude.{◌≡◌, ◌≢◌, ◌==◌, ◌≤◌, ◌<◌, ◌+◌, ◌-◌, ◌^◌, ℕ, [], false, true, map, not, min, IfOk, IsTrue, OnOk, OnErr, drop, length, slice_get, slice_index_or, slice_set, take};
ghost use Rattle.std.specs.List.{AllByRecursion, IsDistinct, list_all, position};
ghost use Rattle.std.specs.List.Sorted.{IsPermutation};
ghost use Rattle.std.specs.String.{string_bytes};
ghost use Rattle.drf_role.specs.Text.{same_text};
ghost use Rattle.drf_sorter.specs.Keys.{key_by};
ghost use Rattle.drf_tree.specs.Family.{AreCopies, AreFresh, CanKey, CanKeyAt, IsKeyed, IsWith, are_sorted, child_name, has_child, is_before, key_for, known, is_same, numbers_of, without_place};
ghost use Rattle.drf_tree.specs.Marks.{Spends};

use crate::marks::Marks;
use crate::node::Sum;
use drf_bundle::Quantities;
use drf_sorter::Key;
use std::alloc::{AllocError, Global};

/// Returns whether the last bytes of two texts differ. Numbered names, which are common, mostly differ there.
fn end_apart(name: &[u8], other: &[u8]) -> bool
    ensures { IsTrue result → name.now ≢ other.now }
{
    match (name.last(), other.last()) {
        (Some(byte), Some(its)) => byte != its,
        _ => false,
    }
}

/// A child of a node, with the key that was last computed for it.
#[derive(Drop, PartialEq, Eq, PartialOrd, Ord)]
pub(crate) struct Child {
    key: Key,
    /// The number of the child's node.
    pub node: usize,
}

impl Child {
    /// Returns a child with a key that is computed from its sum. The key is counted.
    pub(crate) fn new(
        marks: &mut Marks,
        node: usize,
        name: String,
        total: &Quantities,
        sum: &Sum,
    ) -> Child
        requires { CanKey total.now sum.now }
        ensures node { result.node ≡ node }
        ensures key { key_by result.key ≡ key_for total.now sum.now (string_bytes name) }
        ensures made { marks.new.made ≡ min (marks.old.made + 1) (2 ^ 64 - 1) }
        ensures no_less { marks.old.made ≤ marks.new.made }
        ensures stale { marks.new.stale ≡ marks.old.stale }
    {
        Child {
            key: marks.key(total, sum, name),
            node,
        }
    }

    pub(crate) fn name(&self) -> &str
        ensures { result.now ≡ child_name self.now }
    {
        self.key.name()
    }

    fn has_name(&self, name: &str) -> bool
        ensures { result ≡ same_text name.now (child_name self.now) }
    {
        let own = self.name();
        !end_apart(name.as_bytes(), own.as_bytes()) && name == own
    }

    /// Computes the key again if its dirty flag is set, and clears the flag.
    fn renew_if_marked(&mut self, marks: &mut Marks, total: &Quantities, sums: &[Sum])
        requires key { CanKeyAt total.now sums.now self.old.node }
        requires marks { length marks.old.stale ≡ length sums.now }
        ensures known { known self.new ≡ known self.old }
        ensures stale { marks.new.stale ≡ slice_set marks.old.stale self.old.node false }
        ensures renewed { slice_index_or marks.old.stale self.old.node false ≡ true → IsKeyed total.now sums.now self.new }
        ensures kept { slice_index_or marks.old.stale self.old.node false ≡ false → self.new ≡ self.old }
        ensures counted { slice_index_or marks.old.stale self.old.node false ≡ true → marks.new.made ≡ min (marks.old.made + 1) (2 ^ 64 - 1) }
        ensures spends { Spends marks.old marks.new 0 }
    {
        let node = self.node;
        let was_marked = marks.is_marked(node);
        marks.forget(node);
        if was_marked {
            marks.renew(&mut self.key, total, &sums[node]);
        }
    }
}

/// Siblings in the order of their keys. Keys can be stale.
#[derive(Drop)]
pub(crate) struct Family {
    children: Vec<Child>,
    ghost sorted: { IsTrue (are_sorted children.items) },
}

impl Family {
    ghost use Rattle.drf_tree.specs.Family.{IsRenewed, IsGone};

    pub(crate) fn new(alloc: Global) -> Family
        ensures { result.children.items ≡ [] }
    {
        Family {
            children: Vec::new(alloc),
        }
    }

    pub(crate) fn children(&self) -> &[Child]
        ensures { result.now ≡ self.now.children.items }
    {
        self.children.as_slice()
    }

    /// Returns the node of the child at a position in the order.
    pub(crate) fn child(&self, place: usize) -> Option<usize>
        ensures { result ≡ slice_get (numbers_of self.now.children.items) place }
    {
        let child = self.children.get(place)?;
        Some(child.node)
    }

    /// Inserts a child at the position that its key determines. When out of memory, nothing changes.
    pub(crate) fn insert(&mut self, child: Child) -> Result<(), AllocError>
        ensures ok { OnOk result (IsWith child self.old.children.items self.new.children.items) }
        ensures err { OnErr result (self.new.children.items ≡ self.old.children.items) }
    {
        let place = place_for(&self.children, &child.key);
        Ok(self.children.insert(place, child)?)
    }

    /// Removes the child with this node.
    pub(crate) fn remove(&mut self, node: usize)
        requires { has_child node self.old.children.items ≡ true }
        ensures { IsGone node self.old.children.items self.new.children.items }
    {
        let place = place_of(&self.children, node).unwrap();
        self.children.remove(place);
    }

    /// Computes the key of a child again from its sum, and moves the child to its position.
    pub(crate) fn renew(&mut self, marks: &mut Marks, node: usize, total: &Quantities, sum: &Sum)
        requires known { has_child node self.old.children.items ≡ true }
        requires key { CanKey total.now sum.now }
        ensures renewed { IsRenewed node total.now sum.now self.old.children.items self.new.children.items }
        ensures made { marks.new.made ≡ min (marks.old.made + 1) (2 ^ 64 - 1) }
        ensures no_less { marks.old.made ≤ marks.new.made }
        ensures stale { marks.new.stale ≡ marks.old.stale }
    {
        let at = place_of(&self.children, node).unwrap();
        marks.renew(&mut self.children[at].key, total, sum);
        turn_to_place(&mut self.children, at);
    }

    /// Computes each key again whose dirty flag is set, clears these flags, and sorts the children.
    pub(crate) fn renew_all(&mut self, marks: &mut Marks, total: &Quantities, sums: &[Sum])
        requires once { IsDistinct is_same (numbers_of self.old.children.items) }
        requires keys { AllByRecursion (λ c. CanKeyAt total.now sums.now c.node) self.old.children.items }
        requires marked { length marks.old.stale ≡ length sums.now }
        ensures same { IsPermutation (map known self.old.children.items) (map known self.new.children.items) }
        ensures renewed { AreFresh total.now sums.now marks.old.stale self.old.children.items self.new.children.items }
        ensures others { (i : ℕ) → has_child i self.old.children.items ≡ false → slice_index_or marks.new.stale i false ≡ slice_index_or marks.old.stale i false }
        ensures down { (i : ℕ) → slice_index_or marks.new.stale i false ≡ true → slice_index_or marks.old.stale i false ≡ true }
        ensures long { length marks.new.stale ≡ length marks.old.stale }
        ensures spends { Spends marks.old marks.new 0 }
    {
        renew_keys(&mut self.children, marks, total, sums);
        sort(&mut self.children);
    }

    pub(crate) fn copy(&self) -> Result<Family, AllocError>
        ensures { IfOk result (λ f. AreCopies self.now.children.items f.children.items) }
    {
        let alloc = *self.children.allocator();
        let mut children = Vec::with_capacity(alloc, self.children.len())?;
        for child in &self.children {
            let key = child.key.copy()?;
            children.push(Child {
                key,
                node: child.node,
            })?;
        }
        Ok(Family { children })
    }
}

/// Computes each key again whose dirty flag is set, and clears these flags. The order of the children stays the same.
fn renew_keys(children: &mut [Child], marks: &mut Marks, total: &Quantities, sums: &[Sum])
    requires once { IsDistinct is_same (numbers_of children.old) }
    requires keys { AllByRecursion (λ c. CanKeyAt total.now sums.now c.node) children.old }
    requires marked { length marks.old.stale ≡ length sums.now }
    ensures same { map known children.new ≡ map known children.old }
    ensures renewed { AreFresh total.now sums.now marks.old.stale children.old children.new }
    ensures others { (i : ℕ) → has_child i children.old ≡ false → slice_index_or marks.new.stale i false ≡ slice_index_or marks.old.stale i false }
    ensures down { (i : ℕ) → slice_index_or marks.new.stale i false ≡ true → slice_index_or marks.old.stale i false ≡ true }
    ensures long { length marks.new.stale ≡ length marks.old.stale }
    ensures spends { Spends marks.old marks.new 0 }
{
    for child in children.iter_mut() {
        child.renew_if_marked(marks, total, sums);
    }
}

/// Sorts the children by their keys. Most families have at most one child and need no sorting.
fn sort(children: &mut Vec<Child>)
    ensures same { IsPermutation children.old.items children.new.items }
    ensures sorted { IsTrue (are_sorted children.new.items) }
{
    if children.len() > 1 {
        children.sort_unstable();
    }
}

/// Returns how many of the other children, which are sorted, come before the child at a position.
fn rank_of(children: &[Child], at: usize) -> usize
    requires within { at < length children.now }
    requires sorted { IsTrue (are_sorted (without_place at children.now)) }
    ensures bound { result < length children.now }
    ensures before { (d : Child) → list_all (λ c. is_before c.key (slice_index_or children.now at d).key) (take result (without_place at children.now)) ≡ true }
    ensures after { (d : Child) → list_all (λ c. not (is_before c.key (slice_index_or children.now at d).key)) (drop result (without_place at children.now)) ≡ true }
{
    let key = &children[at].key;
    let prefix = place_for(&children[..at], key);
    if prefix < at {
        return prefix;
    }
    at + place_for(&children[at + 1..], key)
}

/// Moves the child at a position, whose key has changed, to its place among the others, which are sorted.
fn turn_to_place(children: &mut [Child], at: usize)
    requires within { at < length children.old }
    requires sorted { IsTrue (are_sorted (without_place at children.old)) }
    ensures sorted { IsTrue (are_sorted children.new) }
    ensures put { (d : Child) → IsWith (slice_index_or children.old at d) (without_place at children.old) children.new }
{
    let place = rank_of(children, at);
    if place < at {
        children[place..at + 1].rotate_right(1);
    } else {
        children[at..place + 1].rotate_left(1);
    }
}

/// Returns how many children have keys less than this one.
fn place_for(children: &[Child], key: &Key) -> usize
    requires { IsTrue (are_sorted children.now) }
    ensures bound { result ≤ length children.now }
    ensures before { list_all (λ c. is_before c.key key.now) (take result children.now) ≡ true }
    ensures after { list_all (λ c. not (is_before c.key key.now)) (drop result children.now) ≡ true }
{
    children.partition_point(|other| other.key < *key)
}

/// Returns the position of the child with this name.
pub(crate) fn place_named(children: &[Child], name: &str) -> Option<usize>
    ensures { result ≡ position (λ c. same_text name.now (child_name c)) children.now }
{
    children.iter().position(|child| child.has_name(name))
}

/// Returns the position of the child with this node.
fn place_of(children: &[Child], node: usize) -> Option<usize>
    ensures { result ≡ position (λ c. c.node == node) children.now }
{
    children.iter().position(|child| child.node == node)
}
