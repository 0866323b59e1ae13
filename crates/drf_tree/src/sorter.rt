//! `TreeSorter`, an implementation of `Sorter` with a ledger, a tree and a walk.
use crate::ledger::Ledger;
use crate::tree::Tree;
use crate::walk::Walk;
use drf_bundle::Quantities;
use drf_hash::HashKey;
use drf_role::{ClientPath, NodePath, Role};
use drf_rows::NodeLine;
use drf_sorter::{DEFAULT_WEIGHT, Share, Sorter};
use std::alloc::{AllocError, Global};
use std::marker::Model;

/// A sorter with its clients in a ledger and their order in a tree. After a change of a client, at most one key for each node on its path
/// must be computed again.
#[derive(Drop)]
pub struct TreeSorter {
    ledger: Ledger,
    tree: Tree,
    walk: Walk,
    /// If set, the tree is valid for any total, because each node whose key depends on the total is dirty.
    is_total_free: bool,
}

impl Model for TreeSorter {
    ghost use Rattle.drf_tree.specs.Ledger.{ledger_content};
    ghost use Rattle.drf_tree.specs.Marks.{work_of};
    ghost use Rattle.drf_tree.specs.Queue.{frames_queue};
    ghost use Rattle.drf_tree.specs.Sorter.{AreInStep, Sorted, sorted_code};

    ghost Value = { Sorted };

    ghost coded = { sorted_code };

    ghost view = { λ s. record {
      ledger = s.ledger;
      queue = frames_queue (ledger_content s.ledger) s.tree s.walk.frames.items;
      work = work_of s.tree.marks;
    } };

    ghost invariant = { λ s. AreInStep s.ledger s.tree s.walk s.is_total_free };
}

impl Sorter for TreeSorter {
    ghost use Rattle.std.specs.Prelude.{true};
    ghost use Rattle.drf_tree.specs.Ledger.{ledger_content};

    ghost content = { λ s. ledger_content s.ledger };

    ghost queue = { λ s. s.queue };

    ghost work = { λ s. s.work };

    ghost COUNTED = { true };

    const COUNTED: bool = true;

    fn open(alloc: Global, key: HashKey) -> Result<Self, AllocError> {
        Ok(TreeSorter {
            ledger: Ledger::new(alloc, key),
            tree: Tree::open(alloc)?,
            walk: Walk::open(alloc)?,
            is_total_free: false,
        })
    }

    fn alloc(&self) -> Global {
        self.ledger.alloc()
    }

    fn add(&mut self, path: ClientPath) -> Result<(), AllocError> {
        self.walk.stop();
        let node = self.tree.grow(&path, &self.ledger)?;
        if let Err(error) = self.ledger.add(path, node) {
            self.tree.prune(node);
            return Err(error);
        }
        self.tree.admit(node);
        Ok(())
    }

    fn remove(&mut self, path: &ClientPath) {
        self.walk.stop();
        let known = self.ledger.remove(path);
        let Some(node) = self.tree.leaf(known, path) else {
            return;
        };
        self.tree.dismiss(node);
        self.tree.prune(node);
    }

    fn set_active(&mut self, path: &ClientPath, active: bool) {
        self.walk.stop();
        let row = self.ledger.row_of(path);
        let known = self.ledger.leaf_at(row);
        self.ledger.set_active_at(row, path, active);
        let Some(node) = self.tree.leaf(known, path) else {
            return;
        };
        self.tree.set_active(node, active);
    }

    fn charge(
        &mut self,
        path: &ClientPath,
        quantities: &Quantities,
        offers: u64,
    ) -> Result<(), AllocError> {
        let row = self.ledger.row_of(path);
        let known = self.ledger.leaf_at(row);
        let Some(node) = self.tree.leaf(known, path) else {
            return Ok(());
        };
        self.is_total_free = false;
        self.tree.name_labels(node, quantities)?;
        self.ledger.charge_at(row, path, quantities, offers)?;
        self.tree.charge(node, quantities, offers);
        Ok(())
    }

    fn undo_charge(&mut self, path: &ClientPath, quantities: &Quantities) {
        let row = self.ledger.row_of(path);
        let known = self.ledger.leaf_at(row);
        self.ledger.undo_charge_at(row, path, quantities);
        let Some(node) = self.tree.leaf(known, path) else {
            return;
        };
        self.is_total_free = false;
        self.tree.lower(node, quantities, 1);
    }

    fn refund(&mut self, path: &ClientPath, quantities: &Quantities) {
        let row = self.ledger.row_of(path);
        let known = self.ledger.leaf_at(row);
        self.ledger.refund_at(row, path, quantities);
        let Some(node) = self.tree.leaf(known, path) else {
            return;
        };
        self.tree.lower(node, quantities, 0);
    }

    fn set_total(&mut self, total: Quantities) {
        self.ledger.set_total(total);
        if self.is_total_free {
            return;
        }
        self.tree.mark_all();
        self.is_total_free = true;
    }

    fn set_weight(&mut self, role: &Role, weight: u64) -> Result<(), AllocError> {
        self.ledger.set_weight(role, weight)?;
        let Some(node) = self.tree.find(role) else {
            return Ok(());
        };
        self.tree.weigh(node, weight);
        Ok(())
    }

    fn fix_order(&mut self) -> Result<(), AllocError> {
        self.is_total_free = false;
        self.tree.repair(&self.ledger);
        self.walk.start(&self.tree);
        Ok(())
    }

    fn first(&self) -> Option<&ClientPath> {
        self.walk.first(&self.tree)
    }

    fn pass(&mut self) {
        self.walk.pass(&self.tree);
    }

    fn pass_prefix(&mut self, len: usize) {
        self.walk.pass_prefix(&self.tree, len);
    }

    fn keys_made(&self) -> u64 {
        self.tree.keys_made()
    }

    fn share(&self, node: &NodePath) -> Option<(Share, Share, u64)> {
        let sum = self.tree.sum(self.tree.find(node)?);
        if sum.clients == 0 {
            return None;
        }
        let share = Share::of(self.ledger.total(), DEFAULT_WEIGHT, &sum.held);
        let weighted = Share::of(self.ledger.total(), sum.weight, &sum.held);
        Some((share, weighted, sum.count))
    }

    fn lines(&self) -> Result<Vec<NodeLine>, AllocError> {
        self.tree.lines(&self.ledger)
    }

    fn copy(&self) -> Result<Self, AllocError> {
        Ok(TreeSorter {
            ledger: self.ledger.copy()?,
            tree: self.tree.copy()?,
            walk: self.walk.copy()?,
            is_total_free: false,
        })
    }
}
