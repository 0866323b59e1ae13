//! The lines of a report, one for each node that has clients.
ghost use Rattle.std.specs.Prelude.{◌≡◌, ◌≤◌, true, IfOk, OnOk, length};
ghost use Rattle.std.specs.List.{AllByRecursion};
ghost use Rattle.drf_role.specs.Path.{Path};
ghost use Rattle.drf_sorter.specs.Content.{IsSound, has_node};
ghost use Rattle.drf_sorter.specs.Lines.{AreLinesOf, IsLineOf, has_line};
ghost use Rattle.drf_tree.specs.Ledger.{ledger_content};
ghost use Rattle.drf_tree.specs.Nodes.{is_live, path_at};
ghost use Rattle.drf_tree.specs.Tree.{IsTreeOf};
ghost use Rattle.drf_tree.specs.Lines.{AreListed, HasEach};

use crate::ledger::Ledger;
use crate::tree::{ROOT, Tree};
use drf_rows::NodeLine;
use drf_sorter::{NodeLines, node_line};
use std::alloc::{AllocError, Global};

/// A node that is still to be visited, with its name, by which it is ordered among its siblings.
#[derive(Drop)]
struct Waiting<'a> {
    name: &'a str,
    node: usize,
}

impl Tree {
    /// Returns a line for each node that has clients, in order of path. It fails only when out of memory.
    pub(crate) fn lines(&self, ledger: &Ledger) -> Result<Vec<NodeLine>, AllocError>
        requires sound { IsSound (ledger_content ledger.now) }
        requires tree { IsTreeOf (ledger_content ledger.now) self.now }
        ensures { IfOk result (λ lines. AreLinesOf (ledger_content ledger.now) lines.items) }
    {
        let mut lines = NodeLines::with_capacity(self.alloc(), self.line_count())?;
        let order = self.in_order_of_path()?;
        for node in &order {
            self.put_line(&mut lines, *node, ledger)?;
        }
        Ok(lines.into_vec())
    }

    /// Returns the number of nodes with clients, which is the capacity that the list of lines starts with.
    fn line_count(&self) -> usize
        ensures { result ≤ length self.now.sums.items }
    {
        self.sums.iter().filter(|sum| sum.clients > 0).count()
    }

    /// Returns all node numbers: first the nodes of the tree, depth first and by name, then all other numbers. This order only makes
    /// appending lines fast; `NodeLines::put` keeps them in order of path in any case.
    fn in_order_of_path(&self) -> Result<Vec<usize>, AllocError>
        ensures { IfOk result (λ order. HasEach (length self.now.places.items) order.items) }
    {
        let mut order = self.downwards()?;
        let is_listed = listed(self.alloc(), &order, self.places.len())?;
        for node in 0..self.places.len() {
            if !is_listed[node] {
                order.push(node)?;
            }
        }
        Ok(order)
    }

    /// Returns the numbers of the nodes depth first, siblings in order of name.
    fn downwards(&self) -> Result<Vec<usize>, AllocError> {
        let mut order = Vec::with_capacity(self.alloc(), self.places.len())?;
        let mut waiting = Vec::new(self.alloc());
        waiting.push(Waiting {
            name: "",
            node: ROOT,
        })?;
        for _ in 0..self.places.len() {
            let Some(Waiting { node, .. }) = waiting.pop() else {
                break;
            };
            order.push(node)?;
            self.push_children(&mut waiting, node)?;
        }
        Ok(order)
    }

    /// Pushes the children of a node onto the stack of nodes to visit, in descending order of name, so that the first is visited first.
    fn push_children<'a>(
        &'a self,
        waiting: &mut Vec<Waiting<'a>>,
        node: usize,
    ) -> Result<(), AllocError> {
        let Some(family) = self.families.get(node) else {
            return Ok(());
        };
        let first = waiting.len();
        for child in family.children() {
            let name = child.name();
            let place = first + waiting[first..].partition_point(|other| other.name > name);
            let node = child.node;
            if place == waiting.len() {
                waiting.push(Waiting { name, node })?;
            } else {
                waiting.insert(place, Waiting { name, node })?;
            }
        }
        Ok(())
    }

    /// Adds the line of the node with this number, if there is such a node and it has clients.
    fn put_line(
        &self,
        lines: &mut NodeLines,
        node: usize,
        ledger: &Ledger,
    ) -> Result<(), AllocError>
        requires sound { IsSound (ledger_content ledger.now) }
        requires tree { IsTreeOf (ledger_content ledger.now) self.now }
        requires each { AllByRecursion (IsLineOf (ledger_content ledger.now)) lines.old }
        ensures each { OnOk result (AllByRecursion (IsLineOf (ledger_content ledger.now)) lines.new) }
        ensures stay { OnOk result ((path : Path) → has_line lines.old path ≡ true → has_line lines.new path ≡ true) }
        ensures put { OnOk result (is_live self.now.places.items node ≡ true → has_node (ledger_content ledger.now) (path_at self.now.places.items node) ≡ true
            → has_line lines.new (path_at self.now.places.items node) ≡ true) }
    {
        let Some(place) = self.place(node) else {
            return Ok(());
        };
        let sum = self.sum(node);
        if sum.clients == 0 {
            return Ok(());
        }
        let path = place.path.copy()?;
        let held = sum.copy_held(self.alloc())?;
        lines.put(node_line(ledger.total(), sum.weight, path, held, sum.count))
    }
}

/// Returns, for each number below `len`, whether it is in the list.
fn listed(alloc: Global, numbers: &[usize], len: usize) -> Result<Vec<bool>, AllocError>
    ensures long { IfOk result (λ flags. length flags.items ≡ len) }
    ensures listed { IfOk result (λ flags. AreListed flags.items numbers.now) }
{
    let mut flags = vec![in alloc; false; len]?;
    for number in numbers {
        if *number < len {
            flags[*number] = true;
        }
    }
    Ok(flags)
}
