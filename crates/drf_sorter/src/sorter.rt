//! The trait `Sorter`: the clients, and the order in which they are served.
ghost use Rattle.std.specs.Prelude.{◌≡◌, ◌≤◌, ◌+◌, ◌↔◌, Bool, List, false, true, length, drop, slice_get, IfOk, IfSome, IsOk, IsSome, IsTrue, OnOk, OnErr, option_copied};
ghost use Rattle.std.specs.List.{AllByRecursion};
ghost use Rattle.drf_role.specs.Path.{IsClientPath, Path};
ghost use Rattle.drf_sorter.specs.Passed.{IsPassedPrefix};
ghost use Rattle.drf_sorter.specs.Work.{Work, Defers, IsRepaired, OwesAtMost, Spends};
ghost use Rattle.drf_sorter.specs.Content.{Content, IsSound, IsOrderOf, HasChargeAt, HasNodes, HoldsAt, activated, charged, discharged, empty, has_client, has_node, has_weight, refunded, with_change, with_client, with_weight, without_client};
ghost use Rattle.drf_sorter.specs.Lines.{AreLinesOf};
ghost use Rattle.drf_sorter.specs.Share.{IsShareOf};

use crate::share::Share;
use drf_bundle::Quantities;
use drf_hash::HashKey;
use drf_role::{ClientPath, NodePath, Role};
use drf_rows::NodeLine;
use std::alloc::{AllocError, Global};

/// Clients, and the order in which they are served. From the top of the role tree down, the sibling with the least weighted dominant share
/// comes first; ties are broken by fewer offers, and then by name. This is the hierarchical sorter of Mesos. A failed call leaves the
/// content unchanged. A call without a `Result` never allocates.
pub trait Sorter: Sized + Drop {
    /// The content of the sorter.
    ghost content: { Self → Content };

    /// The clients of the last order that are still to be served.
    ghost queue: { Self → List Path };

    /// The number of keys that were computed, and the number of nodes whose key can be stale.
    ghost work: { Self → Work };

    ghost COUNTED: { Bool };

    /// Whether the bounds on the number of keys are proved for this sorter.
    const COUNTED: bool;

    /// Returns an empty sorter. If it finds clients by hashes, these begin with `key`, also in its copies.
    fn open(alloc: Global, key: HashKey) -> Result<Self, AllocError>
        ensures empty { IfOk result (λ sorter. content sorter ≡ empty) }
        ensures work { IfOk result (λ sorter. work sorter ≡ record { made = 0; marked = 0 }) };

    /// Returns the allocator that the sorter was opened with.
    fn alloc(&self) -> Global;

    /// Adds an active client that holds nothing. It fails only when out of memory.
    fn add(&mut self, path: ClientPath) -> Result<(), AllocError>
        requires { has_client (content self.old) path ≡ false }
        ensures ok { OnOk result (content self.new ≡ with_client (content self.old) path) }
        ensures err { OnErr result (content self.new ≡ content self.old) }
        ensures spends { Spends COUNTED (work self.old) (work self.new) (length path) };

    /// Removes a client, with all that it holds.
    fn remove(&mut self, path: &ClientPath)
        requires { has_client (content self.old) path.now ≡ true }
        ensures content { content self.new ≡ without_client (content self.old) path.now }
        ensures spends { Defers COUNTED (work self.old) (work self.new) (length path.now) };

    /// Activates or suppresses a client. It counts in shares in either case.
    fn set_active(&mut self, path: &ClientPath, active: bool)
        requires { has_client (content self.old) path.now ≡ true }
        ensures content { content self.new ≡ with_change (content self.old) path.now (activated active) }
        ensures spends { Defers COUNTED (work self.old) (work self.new) 0 };

    /// Adds these quantities and a number of offers to a client. A cycle adds one offer at a time. When a saved state is restored, quantities are
    /// added without an offer, and counts of offers without quantities. It fails only when out of memory.
    fn charge(
        &mut self,
        path: &ClientPath,
        quantities: &Quantities,
        offers: u64,
    ) -> Result<(), AllocError>
        requires known { has_client (content self.old) path.now ≡ true }
        requires sound { IsSound (with_change (content self.old) path.now (charged quantities.now offers)) }
        ensures ok { OnOk result (content self.new ≡ with_change (content self.old) path.now (charged quantities.now offers)) }
        ensures err { OnErr result (content self.new ≡ content self.old) }
        ensures queue { queue self.new ≡ queue self.old }
        ensures spends { Defers COUNTED (work self.old) (work self.new) (length path.now) };

    /// Undoes a charge of one offer.
    fn undo_charge(&mut self, path: &ClientPath, quantities: &Quantities)
        requires known { has_client (content self.old) path.now ≡ true }
        requires charged { HasChargeAt (content self.old) path.now quantities.now }
        ensures content { content self.new ≡ with_change (content self.old) path.now (discharged quantities.now) }
        ensures queue { queue self.new ≡ queue self.old }
        ensures spends { Defers COUNTED (work self.old) (work self.new) (length path.now) };

    /// Takes these quantities from a client. Its count of offers stays the same.
    fn refund(&mut self, path: &ClientPath, quantities: &Quantities)
        requires known { has_client (content self.old) path.now ≡ true }
        requires held { HoldsAt (content self.old) path.now quantities.now }
        ensures content { content self.new ≡ with_change (content self.old) path.now (refunded quantities.now) }
        ensures queue { queue self.new ≡ queue self.old }
        ensures spends { Defers COUNTED (work self.old) (work self.new) (length path.now) };

    /// Sets the total of the cluster. Afterwards at most as many keys are stale as there are nodes.
    fn set_total(&mut self, total: Quantities)
        ensures content { content self.new ≡ record (content self.old) { total = total } }
        ensures made { (work self.new).made ≡ (work self.old).made }
        ensures stale { (nodes : List Path) → HasNodes (content self.old) nodes → OwesAtMost COUNTED (work self.new) (length nodes) };

    /// Sets the weight of a role, in thousandths. It allocates, and so can fail, only if the role has no weight yet.
    fn set_weight(&mut self, role: &Role, weight: u64) -> Result<(), AllocError>
        requires weighs { 1 ≤ weight }
        requires light { weight ≤ 1000000 }
        ensures ok { OnOk result (content self.new ≡ with_weight (content self.old) role.now weight) }
        ensures err { OnErr result (content self.new ≡ content self.old) }
        ensures replaced { IsTrue (has_weight (content self.old) role.now) → IsOk result }
        ensures spends { Defers COUNTED (work self.old) (work self.new) 1 };

    /// Puts the active clients into the definition's order. `first`, `pass` and `pass_prefix` walk along this order, whatever is charged in
    /// the meantime. It fails only when out of memory.
    fn fix_order(&mut self) -> Result<(), AllocError>
        requires { IsSound (content self.old) }
        ensures order { OnOk result (IsOrderOf (content self.old) (queue self.new)) }
        ensures right { OnOk result (AllByRecursion IsClientPath (queue self.new)) }
        ensures same { content self.new ≡ content self.old }
        ensures spends { Spends COUNTED (work self.old) (work self.new) 0 }
        ensures repaired { OnOk result (IsRepaired COUNTED (work self.new)) };

    /// Returns the current client, which is to be served next.
    fn first(&self) -> Option<&ClientPath>
        ensures { option_copied result ≡ slice_get (queue self.now) 0 };

    /// Moves to the next client.
    fn pass(&mut self)
        ensures queue { queue self.new ≡ drop 1 (queue self.old) }
        ensures content { content self.new ≡ content self.old }
        ensures work { work self.new ≡ work self.old };

    /// Moves past the current client and, if the sorter can, past the clients right after it whose paths have the same first `len` parts.
    fn pass_prefix(&mut self, len: usize)
        ensures queue { IsPassedPrefix len (queue self.old) (queue self.new) }
        ensures content { content self.new ≡ content self.old }
        ensures work { work self.new ≡ work self.old }
    {
        let _ = len;
        self.pass();
    }

    /// Returns the active clients, in the order in which they are to be served. It fails only when out of memory.
    fn order(&mut self) -> Result<Vec<ClientPath>, AllocError>
        requires { IsSound (content self.old) }
        ensures order { IfOk result (λ paths. IsOrderOf (content self.old) paths.items) }
        ensures same { content self.new ≡ content self.old }
        ensures spends { Spends COUNTED (work self.old) (work self.new) 0 }
        ensures repaired { OnOk result (IsRepaired COUNTED (work self.new)) }
    {
        self.fix_order()?;
        let mut paths = Vec::new(self.alloc());
        while let Some(client) = self.first() {
            paths.push(client.copy()?)?;
            self.pass();
        }
        Ok(paths)
    }

    /// Returns the number of keys that were computed so far. It never exceeds 2^64 - 1.
    fn keys_made(&self) -> u64
        ensures { result ≡ (work self.now).made };

    /// Returns the dominant share of a node, its weighted share, and the number of offers made to its clients. Returns `None` if the node
    /// has no clients.
    fn share(&self, node: &NodePath) -> Option<(Share, Share, u64)>
        requires { IsSound (content self.now) }
        ensures known { IsSome result ↔ IsTrue (has_node (content self.now) node.now) }
        ensures share { IfSome result (IsShareOf (content self.now) node.now) };

    /// Returns a line for each node that has clients, in order of path: what they hold, the shares, and the number of offers. It fails only
    /// when out of memory.
    fn lines(&self) -> Result<Vec<NodeLine>, AllocError>
        requires { IsSound (content self.now) }
        ensures { IfOk result (λ lines. AreLinesOf (content self.now) lines.items) };

    /// Returns a copy with the same content.
    fn copy(&self) -> Result<Self, AllocError>
        ensures content { IfOk result (λ sorter. content sorter ≡ content self.now) }
        ensures work { IfOk result (λ sorter. work sorter ≡ work self.now) };
}
