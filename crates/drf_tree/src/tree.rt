//! The tree: numbered nodes in parallel lists, which are their places, sums, families and dirty flags.
ghost use Rattle.std.specs.Prelude.{◌≡◌, ◌≢◌, ◌<◌, ◌+◌, ◌-◌, ◌++◌, ◌∷◌, [], ℕ, false, true, IfOk, IfSome, IsSome, List, None, OnErr, OnOk, Some, length, map, max, option_copied, slice_get, slice_set};
ghost use Rattle.std.specs.List.{list_any};
ghost use Rattle.drf_bundle.specs.declared.quantities.Entry.{Entry};
ghost use Rattle.drf_role.specs.Path.{IsClientPath, IsNodePath};
ghost use Rattle.drf_role.specs.Text.{same_text};
ghost use Rattle.drf_rows.specs.Held.{weight_of};
ghost use Rattle.drf_sorter.specs.Content.{Content, empty, has_node, standing_in, with_weight};
ghost use Rattle.drf_sorter.specs.Keys.{key_by};
ghost use Rattle.drf_sorter.specs.Served.{Weighs};
ghost use Rattle.drf_tree.specs.Changes.{IsKeyOfNothing, IsSameTree, IsOneLonger, IsShapeOf, IsVacant, is_bare_at};
ghost use Rattle.drf_tree.specs.Family.{child_name};
ghost use Rattle.drf_tree.specs.Marks.{Defers, Spends, work_of};
ghost use Rattle.drf_tree.specs.Nodes.{children_at, client_at, is_live, is_node, parent_at, path_at, place_at};
ghost use Rattle.drf_tree.specs.Places.{AreTaken};
ghost use Rattle.drf_tree.specs.Tidy.{IsOneMore, IsTidy};
ghost use Rattle.drf_tree.specs.Tree.{IsTreeOf};

use crate::family::{Child, Family, place_named};
use crate::marks::Marks;
use crate::node::{Place, Sum};
use crate::places::Places;
use crate::route::Route;
use drf_bundle::Quantities;
use drf_role::{ClientPath, NodePath};
use drf_sorter::DEFAULT_WEIGHT;
use std::alloc::{AllocError, Global};

/// The number of the root, the parent of the nodes with one part. The root has a family, but does not count as a node.
pub(crate) const ROOT: usize = 0;

/// The tree of nodes, by number. A number without a place is free.
pub(crate) struct Tree {
    pub places: Places,
    pub sums: Vec<Sum>,
    pub families: Vec<Family>,
    pub marks: Marks,
}

impl Drop for Tree {
    fn drop(self) {
        let Tree {
            places: _places,
            sums: _sums,
            families: _families,
            marks: _marks,
        } = self;
    }
}

impl Tree {
    /// Returns a tree with only the root.
    pub(crate) fn open(alloc: Global) -> Result<Tree, AllocError>
        ensures tree { IfOk result (IsTreeOf empty) }
        ensures tidy { IfOk result (λ tree. IsTidy empty tree.places.items) }
        ensures work { IfOk result (λ tree. work_of tree.marks ≡ record { made = 0; marked = 0 }) }
    {
        let mut tree = Tree {
            places: Places::new(alloc),
            sums: Vec::new(alloc),
            families: Vec::new(alloc),
            marks: Marks::new(alloc),
        };
        tree.push()?;
        Ok(tree)
    }

    pub(crate) fn alloc(&self) -> Global {
        *self.sums.allocator()
    }

    /// Returns the number of keys that were computed.
    pub(crate) fn keys_made(&self) -> u64
        ensures { result ≡ self.now.marks.made }
    {
        self.marks.made()
    }

    /// Returns the sums over the clients of a node.
    pub(crate) fn sum(&self, node: usize) -> &Sum
        requires { node < length self.now.sums.items }
        ensures { slice_get self.now.sums.items node ≡ Some result.now }
    {
        &self.sums[node]
    }

    /// Sets the dirty flag of each node that holds something, because the total changes.
    pub(crate) fn mark_all(&mut self)
        requires shape { IsShapeOf self.old }
        ensures tree { (content : Content) (total : List Entry) → Weighs (standing_in content) → IsTreeOf content self.old → IsTreeOf (record content { total = total }) self.new }
        ensures made { self.new.marks.made ≡ self.old.marks.made }
        ensures places { self.new.places ≡ self.old.places }
        ensures families { self.new.families ≡ self.old.families }
    {
        self.marks.mark_all(self.places.as_slice(), &self.sums);
    }

    /// Sets the weight of a node, in thousandths.
    pub(crate) fn weigh(&mut self, node: usize, weight: u64)
        requires shape { IsShapeOf self.old }
        requires live { is_live self.old.places.items node ≡ true }
        ensures tree { (content : Content) → IsTreeOf content self.old → IsTreeOf (with_weight content (path_at self.old.places.items node) weight) self.new }
        ensures places { self.new.places ≡ self.old.places }
        ensures families { self.new.families ≡ self.old.families }
        ensures spends { Defers self.old.marks self.new.marks 1 }
    {
        let sum = &mut self.sums[node];
        sum.weight = weight;
        self.marks.mark(node);
    }

    /// Adds a free number. When out of memory, no list that contracts see changes.
    fn push(&mut self) -> Result<(), AllocError>
        ensures places { OnOk result (self.new.places.items ≡ self.old.places.items ++ None ∷ []) }
        ensures families { (i : ℕ) → children_at self.new.families.items i ≡ children_at self.old.families.items i }
        ensures families_long { OnOk result (length self.new.families.items ≡ length self.old.families.items + 1) }
        ensures marks { OnOk result (self.new.marks ≡ record self.old.marks { stale = self.old.marks.stale ++ false ∷ [] }) }
        ensures sums { OnOk result (self.new.sums.items ≡ self.old.sums.items ++ record { held = []; count = 0; clients = 0; active = 0; weight = 0 } ∷ []) }
        ensures err { OnErr result (IsSameTree self.old self.new) }
    {
        let alloc = self.alloc();
        self.places.reserve()?;
        self.sums.reserve(1)?;
        self.families.reserve(1)?;
        self.marks.push()?;
        self.sums.push_reserved(Sum::of_none(alloc, 0));
        self.families.push_reserved(Family::new(alloc));
        self.places.push_reserved();
        Ok(())
    }

    /// Returns the smallest free number. Adds a number if none is free.
    pub(crate) fn vacant(&mut self) -> Result<usize, AllocError>
        requires shape { IsShapeOf self.old }
        ensures shape { IsShapeOf self.new }
        ensures free { IfOk result (λ node. IsVacant self.new node) }
        ensures first { IfOk result (λ node. AreTaken self.new.places.items node) }
        ensures long { IfOk result (λ node. length self.new.places.items ≡ max (length self.old.places.items) (node + 1)) }
        ensures places { (i : ℕ) → place_at self.new.places.items i ≡ place_at self.old.places.items i }
        ensures families { (i : ℕ) → children_at self.new.families.items i ≡ children_at self.old.families.items i }
        ensures tree { (content : Content) → IsTreeOf content self.old → IsTreeOf content self.new }
        ensures work { work_of self.new.marks ≡ work_of self.old.marks }
    {
        let free = self.places.free_number();
        if free == self.places.len() {
            self.push()?;
        }
        Ok(free)
    }

    /// Returns the place of a node, or `None` if the number is free.
    pub(crate) fn place(&self, node: usize) -> Option<&Place>
        ensures { option_copied result ≡ place_at self.now.places.items node }
    {
        self.places.get(node)
    }

    /// Returns the number of a node's parent, or the root if the number is free.
    pub(crate) fn parent(&self, node: usize) -> usize
        ensures { result ≡ parent_at self.now.places.items node }
    {
        match self.place(node) {
            Some(place) => place.parent,
            None => ROOT,
        }
    }

    /// Returns the child with this name.
    pub(crate) fn child(&self, node: usize, name: &str) -> Option<usize>
        requires shape { IsShapeOf self.now }
        requires node { is_node self.now.places.items node ≡ true }
        ensures found { IfSome result (λ child. (is_live self.now.places.items child ≡ true) × (path_at self.now.places.items child ≡ path_at self.now.places.items node ++ name.now ∷ [])) }
        ensures missing { result ≡ None → list_any (same_text name.now) (map child_name (children_at self.now.families.items node)) ≡ false }
    {
        let family = self.families[node].children();
        let place = place_named(family, name)?;
        Some(family[place].node)
    }

    /// Returns the node that a route leads to, if there is one.
    pub(crate) fn find<R: Route>(&self, route: &R) -> Option<usize>
        requires { IsShapeOf self.now }
        ensures found { IfSome result (λ node. (is_node self.now.places.items node ≡ true) × (path_at self.now.places.items node ≡ R.parts route.now)) }
        ensures live { IfSome result (λ node. is_live self.now.places.items node ≡ true) }
        ensures every { (content : Content) → IsTreeOf content self.now → has_node content (R.parts route.now) ≡ true → IsSome result }
        ensures missing { result ≡ None → (i : ℕ) → is_live self.now.places.items i ≡ true → path_at self.now.places.items i ≢ R.parts route.now }
    {
        let mut node = ROOT;
        for i in 0..route.len() {
            node = self.child(node, route.part(i))?;
        }
        Some(node)
    }

    /// Returns the node of a client: `known` if that is its node, and otherwise the node that its path leads to.
    pub(crate) fn leaf(&self, known: usize, path: &ClientPath) -> Option<usize>
        requires { IsShapeOf self.now }
        ensures at { IfSome result (λ node. path_at self.now.places.items node ≡ path.now) }
        ensures live { IfSome result (λ node. is_live self.now.places.items node ≡ true) }
        ensures every { (content : Content) → IsTreeOf content self.now → has_node content path.now ≡ true → IsSome result }
    {
        if self.is_client(known, path) {
            return Some(known);
        }
        self.find(path)
    }

    /// Returns the path of the client that a node is, if it is one.
    pub(crate) fn client(&self, node: usize) -> Option<&ClientPath>
        ensures { option_copied result ≡ client_at self.now.places.items node }
    {
        self.place(node)?.client.as_ref()
    }

    /// Returns whether a node is this client.
    fn is_client(&self, node: usize, path: &ClientPath) -> bool
        ensures { result ≡ true → client_at self.now.places.items node ≡ Some path.now }
    {
        match self.client(node) {
            Some(client) => *client == *path,
            None => false,
        }
    }

    /// Adds a node without clients below `parent`, with its key, and returns its number. When out of memory, the nodes stay the same.
    pub(crate) fn sprout(
        &mut self,
        parent: usize,
        path: NodePath,
        client: Option<ClientPath>,
        weight: u64,
    ) -> Result<usize, AllocError>
        requires shape { IsShapeOf self.old }
        requires parent { is_node self.old.places.items parent ≡ true }
        requires path { IsOneLonger (path_at self.old.places.items parent) path }
        requires right { IsNodePath path }
        requires missing { (i : ℕ) → is_live self.old.places.items i ≡ true → path_at self.old.places.items i ≢ path }
        requires client { IsClientPath path → client ≡ Some path }
        requires other { IfSome client (λ c. (c ≡ path) × IsClientPath path) }
        ensures tree { (content : Content) → IsTreeOf content self.old → weight ≡ weight_of content.weights path → has_node content path ≡ false → IsTreeOf content self.new }
        ensures path { IfOk result (λ node. path_at self.new.places.items node ≡ path) }
        ensures live { IfOk result (λ node. is_live self.new.places.items node ≡ true) }
        ensures one { OnOk result (IsOneMore path self.old.places.items self.new.places.items) }
        ensures err { OnErr result ((i : ℕ) → place_at self.new.places.items i ≡ place_at self.old.places.items i) }
        ensures spends { Spends self.old.marks self.new.marks 1 }
    {
        let node = self.vacant()?;
        let child = self.first_child(node, &path)?;
        self.families[parent].insert(child)?;
        self.sums[node] = Sum::of_none(self.alloc(), weight);
        let place = Place {
            path,
            parent,
            client,
        };
        self.places.put(node, place);
        Ok(node)
    }

    /// Returns a child that holds nothing. Its key depends neither on the total nor on the weight.
    fn first_child(&mut self, node: usize, path: &NodePath) -> Result<Child, AllocError>
        ensures node { IfOk result (λ child. child.node ≡ node) }
        ensures key { IfOk result (λ child. IsKeyOfNothing path.now (key_by child.key)) }
        ensures places { self.new.places ≡ self.old.places }
        ensures sums { self.new.sums ≡ self.old.sums }
        ensures families { self.new.families ≡ self.old.families }
        ensures stale { self.new.marks.stale ≡ self.old.marks.stale }
        ensures spends { Spends self.old.marks self.new.marks 1 }
    {
        let alloc = self.alloc();
        let name = String::from_str(alloc, path.part(path.len() - 1))?;
        let nothing = Quantities::empty(alloc);
        let none = Sum::of_none(alloc, DEFAULT_WEIGHT);
        Ok(Child::new(&mut self.marks, node, name, &nothing, &none))
    }

    /// Returns whether a node has neither clients nor children.
    pub(crate) fn is_bare(&self, node: usize) -> bool
        requires shape { IsShapeOf self.now }
        requires node { is_live self.now.places.items node ≡ true }
        ensures { result ≡ is_bare_at self.now node }
    {
        self.sums[node].clients == 0 && self.families[node].children().is_empty()
    }

    /// Removes a node that has neither clients nor children. Its number becomes free.
    pub(crate) fn wither(&mut self, node: usize)
        requires shape { IsShapeOf self.old }
        requires node { is_live self.old.places.items node ≡ true }
        requires bare { is_bare_at self.old node ≡ true }
        ensures shape { IsShapeOf self.new }
        ensures tree { (content : Content) → IsTreeOf content self.old → IsTreeOf content self.new }
        ensures places { self.new.places.items ≡ slice_set self.old.places.items node None }
        ensures spends { Defers self.old.marks self.new.marks 0 }
    {
        let parent = self.parent(node);
        self.families[parent].remove(node);
        self.marks.forget(node);
        self.places.free(node);
    }
}
