//! Adding clients to the tree, removing them, and changing whether they are active.
ghost use Rattle.std.specs.Prelude.{◌≡◌, ◌≢◌, ◌≤◌, ◌+◌, ◌<◌, ◌^◌, ℕ, Some, IfOk, IfSome, OnErr, OnOk, false, length, take, true};
ghost use Rattle.drf_role.specs.Path.{IsClientPath, Path};
ghost use Rattle.drf_sorter.specs.Content.{Content, activated, has_client, has_node, with_change, with_client, without_client};
ghost use Rattle.drf_tree.specs.Ledger.{ledger_content};
ghost use Rattle.drf_tree.specs.Changes.{IsLeast, IsOneLonger, IsShapeOf, OnWay};
ghost use Rattle.drf_tree.specs.Marks.{Defers, Spends};
ghost use Rattle.drf_tree.specs.Nodes.{client_at, is_live, is_node, path_at, place_at};
ghost use Rattle.drf_tree.specs.Tidy.{IsOneMore, IsTidy, IsTidyBut};
ghost use Rattle.drf_tree.specs.Tree.{IsTotalFree, IsTreeOf};

use crate::ledger::Ledger;
use crate::node::Sum;
use crate::tree::{ROOT, Tree};
use drf_role::ClientPath;
use std::alloc::AllocError;
use std::mem;

impl Tree {
    /// Returns the node of a client, and adds it and the nodes above it if they are missing. When out of memory, the nodes that were added
    /// are removed again.
    pub(crate) fn grow(&mut self, path: &ClientPath, ledger: &Ledger) -> Result<usize, AllocError>
        requires tree { IsTreeOf (ledger_content ledger.now) self.old }
        ensures tree { IsTreeOf (ledger_content ledger.now) self.new }
        ensures free { IsTotalFree (ledger_content ledger.now) self.old → IsTotalFree (ledger_content ledger.now) self.new }
        ensures live { IfOk result (λ leaf. is_live self.new.places.items leaf ≡ true) }
        ensures client { IfOk result (λ leaf. client_at self.new.places.items leaf ≡ Some path.now) }
        ensures grown { OnOk result (IsTidy (ledger_content ledger.now) self.old.places.items → IsTidyBut path.now (ledger_content ledger.now) self.new.places.items) }
        ensures left { OnErr result (IsTidy (ledger_content ledger.now) self.old.places.items → IsTidy (ledger_content ledger.now) self.new.places.items) }
        ensures spends { Spends self.old.marks self.new.marks (length path.now) }
    {
        let mut node = ROOT;
        for i in 0..path.len() {
            match self.step(node, path, i, ledger) {
                Ok(child) => node = child,
                Err(error) => {
                    self.prune(node);
                    return Err(error);
                }
            }
        }
        Ok(node)
    }

    /// Returns the node of the first `i + 1` parts of a path, below `node`, which is that of the first `i`. Adds it if it is missing.
    fn step(
        &mut self,
        node: usize,
        path: &ClientPath,
        i: usize,
        ledger: &Ledger,
    ) -> Result<usize, AllocError>
        requires tree { IsTreeOf (ledger_content ledger.now) self.old }
        requires right { IsClientPath path.now }
        requires within { i < length path.now }
        requires there { is_node self.old.places.items node ≡ true }
        requires above { path_at self.old.places.items node ≡ take i path.now }
        ensures tree { IsTreeOf (ledger_content ledger.now) self.new }
        ensures free { IsTotalFree (ledger_content ledger.now) self.old → IsTotalFree (ledger_content ledger.now) self.new }
        ensures path { IfOk result (λ child. path_at self.new.places.items child ≡ take (i + 1) path.now) }
        ensures live { IfOk result (λ child. is_live self.new.places.items child ≡ true) }
        ensures one { OnOk result (IsOneMore (take (i + 1) path.now) self.old.places.items self.new.places.items) }
        ensures err { OnErr result ((i : ℕ) → place_at self.new.places.items i ≡ place_at self.old.places.items i) }
        ensures spends { Spends self.old.marks self.new.marks 1 }
    {
        if let Some(child) = self.child(node, path.part(i)) {
            return Ok(child);
        }
        self.sprout_for(node, path, i + 1, ledger)
    }

    /// Adds the node of the first `len` parts of a path below `parent`, which is that of one part less. Returns its number.
    fn sprout_for(
        &mut self,
        parent: usize,
        path: &ClientPath,
        len: usize,
        ledger: &Ledger,
    ) -> Result<usize, AllocError>
        requires tree { IsTreeOf (ledger_content ledger.now) self.old }
        requires right { IsClientPath path.now }
        requires some { 1 ≤ len }
        requires within { len ≤ length path.now }
        requires parent { is_node self.old.places.items parent ≡ true }
        requires longer { IsOneLonger (path_at self.old.places.items parent) (take len path.now) }
        requires missing { (i : ℕ) → is_live self.old.places.items i ≡ true → path_at self.old.places.items i ≢ take len path.now }
        requires nobody { has_node (ledger_content ledger.now) (take len path.now) ≡ false }
        ensures tree { IsTreeOf (ledger_content ledger.now) self.new }
        ensures free { IsTotalFree (ledger_content ledger.now) self.old → IsTotalFree (ledger_content ledger.now) self.new }
        ensures path { IfOk result (λ node. path_at self.new.places.items node ≡ take len path.now) }
        ensures live { IfOk result (λ node. is_live self.new.places.items node ≡ true) }
        ensures one { OnOk result (IsOneMore (take len path.now) self.old.places.items self.new.places.items) }
        ensures err { OnErr result ((i : ℕ) → place_at self.new.places.items i ≡ place_at self.old.places.items i) }
        ensures spends { Spends self.old.marks self.new.marks 1 }
    {
        let node = path.node(len)?;
        let client = client_of(path, len)?;
        let weight = ledger.weight_of(&node);
        self.sprout(parent, node, client, weight)
    }

    /// Counts one more client, which is active, at each node from this one up.
    pub(crate) fn admit(&mut self, leaf: usize)
        requires shape { IsShapeOf self.old }
        requires live { is_live self.old.places.items leaf ≡ true }
        requires fits { OnWay self.old leaf (λ s. (s.clients + 1 < 2 ^ 64) × (s.active + 1 < 2 ^ 64)) }
        ensures tree { (content : Content) (path : Path) → IsTreeOf content self.old → client_at self.old.places.items leaf ≡ Some path → has_client content path ≡ false → IsTreeOf (with_client content path) self.new }
        ensures places { self.new.places ≡ self.old.places }
        ensures families { self.new.families ≡ self.old.families }
        ensures marks { self.new.marks ≡ self.old.marks }
    {
        let mut node = leaf;
        while node != ROOT {
            let sum = &mut self.sums[node];
            sum.clients += 1;
            sum.active += 1;
            node = self.parent(node);
        }
    }

    /// Removes the client at this node: what it holds, its offers and itself are subtracted from each node above. The node stays.
    pub(crate) fn dismiss(&mut self, leaf: usize)
        requires shape { IsShapeOf self.old }
        requires live { is_live self.old.places.items leaf ≡ true }
        requires least { IsLeast self.old leaf }
        ensures tree { (content : Content) (path : Path) → IsTreeOf content self.old → client_at self.old.places.items leaf ≡ Some path → has_client content path ≡ true → IsTreeOf (without_client content path) self.new }
        ensures places { self.new.places ≡ self.old.places }
        ensures families { self.new.families ≡ self.old.families }
        ensures spends { Defers self.old.marks self.new.marks (length (path_at self.old.places.items leaf)) }
    {
        let nothing = Sum::of_none(self.alloc(), self.sums[leaf].weight);
        let gone = mem::replace(&mut self.sums[leaf], nothing);
        gone.held.recall();
        self.marks.mark(leaf);
        let mut node = self.parent(leaf);
        while node != ROOT {
            let sum = &mut self.sums[node];
            sum.held.lower(&gone.held);
            sum.count -= gone.count;
            sum.clients -= gone.clients;
            sum.active -= gone.active;
            self.marks.mark(node);
            node = self.parent(node);
        }
    }

    /// Records at each node from this one up that the client at this node is active, or that it is suppressed.
    pub(crate) fn set_active(&mut self, leaf: usize, active: bool)
        requires shape { IsShapeOf self.old }
        requires live { is_live self.old.places.items leaf ≡ true }
        requires least { IsLeast self.old leaf }
        requires fits { OnWay self.old leaf (λ s. s.active + 1 < 2 ^ 64) }
        ensures tree { (content : Content) (path : Path) → IsTreeOf content self.old → client_at self.old.places.items leaf ≡ Some path → has_client content path ≡ true → IsTreeOf (with_change content path (activated active)) self.new }
        ensures places { self.new.places ≡ self.old.places }
        ensures families { self.new.families ≡ self.old.families }
        ensures marks { self.new.marks ≡ self.old.marks }
    {
        let now = u64::from(active);
        let before = self.sums[leaf].active;
        let mut node = leaf;
        while node != ROOT {
            let sum = &mut self.sums[node];
            sum.active = sum.active - before + now;
            node = self.parent(node);
        }
    }

    /// Removes this node and the nodes above it, as long as they have neither clients nor children.
    pub(crate) fn prune(&mut self, leaf: usize)
        requires shape { IsShapeOf self.old }
        requires node { is_node self.old.places.items leaf ≡ true }
        ensures shape { IsShapeOf self.new }
        ensures tree { (content : Content) → IsTreeOf content self.old → IsTreeOf content self.new }
        ensures tidy { (content : Content) → IsTreeOf content self.old → IsTidyBut (path_at self.old.places.items leaf) content self.old.places.items → IsTidy content self.new.places.items }
        ensures spends { Defers self.old.marks self.new.marks 0 }
    {
        let mut node = leaf;
        while node != ROOT && self.is_bare(node) {
            let parent = self.parent(node);
            self.wither(node);
            node = parent;
        }
    }
}

/// Returns a copy of the path if `len` is its full length, and `None` if it is less.
fn client_of(path: &ClientPath, len: usize) -> Result<Option<ClientPath>, AllocError>
    requires { len ≤ length path.now }
    ensures client { IfOk result (λ client. IsClientPath (take len path.now) → client ≡ Some (take len path.now)) }
    ensures only { IfOk result (λ client. IfSome client (λ c. (c ≡ take len path.now) × IsClientPath (take len path.now))) }
{
    if len < path.len() {
        return Ok(None);
    }
    Ok(Some(path.copy()?))
}
