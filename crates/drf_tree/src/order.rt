//! Computing stale keys, and putting their nodes into order.
ghost use Rattle.std.specs.Prelude.{◌≡◌, ◌<◌, ◌≤◌, ◌+◌, ◌-◌, ◌^◌, length, min, true};
ghost use Rattle.drf_sorter.specs.Content.{IsSound};
ghost use Rattle.drf_tree.specs.Ledger.{ledger_content};
ghost use Rattle.drf_tree.specs.Marks.{Spends, marked_in};
ghost use Rattle.drf_tree.specs.Nodes.{is_live};
ghost use Rattle.drf_tree.specs.Tree.{IsTreeOf, IsTreeBut};

use crate::ledger::Ledger;
use crate::tree::Tree;

impl Tree {
    /// Computes the key of each dirty node again, and moves the node to its position among its siblings. No node is dirty afterwards.
    pub(crate) fn repair(&mut self, ledger: &Ledger)
        requires sound { IsSound (ledger_content ledger.now) }
        requires tree { IsTreeOf (ledger_content ledger.now) self.old }
        ensures tree { IsTreeOf (ledger_content ledger.now) self.new }
        ensures places { self.new.places ≡ self.old.places }
        ensures repaired { marked_in self.new.marks.stale ≡ 0 }
        ensures spends { Spends self.old.marks self.new.marks 0 }
    {
        if self.marks.are_many() {
            self.renew_all(ledger);
        }
        while let Some(node) = self.marks.take() {
            self.renew(node, ledger);
        }
    }

    /// Computes the keys of dirty nodes again, and sorts the families, one family after another.
    fn renew_all(&mut self, ledger: &Ledger)
        requires sound { IsSound (ledger_content ledger.now) }
        requires tree { IsTreeOf (ledger_content ledger.now) self.old }
        ensures tree { IsTreeOf (ledger_content ledger.now) self.new }
        ensures places { self.new.places ≡ self.old.places }
        ensures spends { Spends self.old.marks self.new.marks 0 }
    {
        for node in 0..self.families.len() {
            self.renew_family(node, ledger);
        }
    }

    /// Computes the keys of the dirty children of a node again, and sorts the children.
    fn renew_family(&mut self, node: usize, ledger: &Ledger)
        requires sound { IsSound (ledger_content ledger.now) }
        requires tree { IsTreeOf (ledger_content ledger.now) self.old }
        requires there { node < length self.old.families.items }
        ensures tree { IsTreeOf (ledger_content ledger.now) self.new }
        ensures places { self.new.places ≡ self.old.places }
        ensures long { length self.new.families.items ≡ length self.old.families.items }
        ensures spends { Spends self.old.marks self.new.marks 0 }
    {
        let family = &mut self.families[node];
        family.renew_all(&mut self.marks, ledger.total(), &self.sums);
    }

    /// Computes the key of a node again, and moves the node to its position among its siblings.
    fn renew(&mut self, node: usize, ledger: &Ledger)
        requires sound { IsSound (ledger_content ledger.now) }
        requires live { is_live self.old.places.items node ≡ true }
        requires tree { IsTreeBut node (ledger_content ledger.now) self.old }
        ensures tree { IsTreeOf (ledger_content ledger.now) self.new }
        ensures places { self.new.places ≡ self.old.places }
        ensures sums { self.new.sums ≡ self.old.sums }
        ensures made { self.new.marks.made ≡ min (self.old.marks.made + 1) (2 ^ 64 - 1) }
        ensures no_less { self.old.marks.made ≤ self.new.marks.made }
        ensures stale { self.new.marks.stale ≡ self.old.marks.stale }
    {
        let parent = self.parent(node);
        let family = &mut self.families[parent];
        family.renew(&mut self.marks, node, ledger.total(), &self.sums[node]);
    }
}
