//! `Client`, a client with what it holds, and `NodeClients`, the clients at and below a node.
ghost use Rattle.std.specs.Prelude.{◌≡◌, ◌+◌, ◌<◌, ◌^◌, false, IfOk, OnOk, OnErr};
ghost use Rattle.std.specs.List.{list_any};
ghost use Rattle.drf_bundle.specs.Quantities.{HasNoZeros, amount_of, names_all};
ghost use Rattle.drf_role.specs.Path.{begins_with};
ghost use Rattle.drf_role.specs.Text.{Text};

use crate::key::Holding;
use drf_bundle::Quantities;
use drf_role::{ClientPath, Label, NodePath};
use std::alloc::{AllocError, Global};

/// A client, with what it holds and the number of offers made to it.
#[derive(Drop)]
pub struct Client {
    pub path: ClientPath,
    pub active: bool,
    pub held: Quantities,
    pub count: u64,
}

impl Client {
    ghost use Rattle.drf_sorter.specs.Content.{HasCharge, Holds, charged, discharged, refunded};
    ghost use Rattle.drf_sorter.specs.Plain.{ranked};

    pub fn copy(&self) -> Result<Client, AllocError>
        ensures { IfOk result (λ client. client ≡ self.now) }
    {
        Ok(Client {
            path: self.path.copy()?,
            active: self.active,
            held: self.held.copy()?,
            count: self.count,
        })
    }

    /// Adds these quantities and a number of offers to the client. If a label is new, the labels with the amount 0 are dropped. When out of
    /// memory, nothing changes.
    pub fn charge(&mut self, quantities: &Quantities, offers: u64) -> Result<(), AllocError>
        requires held { (label : Text) → amount_of self.old.held label + amount_of quantities.now label < 2 ^ 64 }
        requires count { self.old.count + offers < 2 ^ 64 }
        ensures ok { OnOk result (ranked self.new ≡ charged quantities.now offers (ranked self.old)) }
        ensures few { OnOk result (names_all self.old.held quantities.now ≡ false → HasNoZeros self.new.held) }
        ensures err { OnErr result (self.new ≡ self.old) }
        ensures path { self.new.path ≡ self.old.path }
    {
        raise(&mut self.held, quantities)?;
        self.count += offers;
        Ok(())
    }

    /// Undoes a charge of one offer.
    pub fn undo_charge(&mut self, quantities: &Quantities)
        requires { HasCharge quantities.now (ranked self.old) }
        ensures client { ranked self.new ≡ discharged quantities.now (ranked self.old) }
        ensures path { self.new.path ≡ self.old.path }
    {
        quantities.recall();
        self.held.lower(quantities);
        self.count -= 1;
    }

    /// Takes these quantities from the client. Its count of offers stays the same.
    pub fn refund(&mut self, quantities: &Quantities)
        requires { Holds quantities.now (ranked self.old) }
        ensures client { ranked self.new ≡ refunded quantities.now (ranked self.old) }
        ensures path { self.new.path ≡ self.old.path }
    {
        quantities.recall();
        self.held.lower(quantities);
    }
}

/// Adds amounts to the held resources. If all their labels are there already, it does not allocate. Otherwise the labels with the amount 0 are
/// dropped, so that labels do not accumulate over time. When out of memory, nothing changes.
fn raise(held: &mut Quantities, more: &Quantities) -> Result<(), AllocError>
    requires { (label : Text) → amount_of held.old label + amount_of more.now label < 2 ^ 64 }
    ensures ok { OnOk result ((label : Text) → amount_of held.new label ≡ amount_of held.old label + amount_of more.now label) }
    ensures few { OnOk result (names_all held.old more.now ≡ false → HasNoZeros held.new) }
    ensures err { OnErr result (held.new ≡ held.old) }
{
    more.recall();
    if held.names_all(more) {
        held.raise(more);
        return Ok(());
    }
    let mut sum = held.plus(more)?;
    sum.recall();
    sum.remove_zeros();
    *held = sum;
    Ok(())
}

/// Returns whether the path begins with the parts of the node.
fn begins_with(path: &ClientPath, node: &NodePath) -> bool
    ensures { result ≡ begins_with path.now node.now }
{
    if path.len() < node.len() {
        return false;
    }
    for i in 0..node.len() {
        if path.part(i) != node.part(i) {
            return false;
        }
    }
    true
}

/// The clients of a node, as those in a list whose paths begin with the node's.
#[derive(Clone, Copy)]
pub struct NodeClients<'a> {
    pub clients: &'a [Client],
    pub node: &'a NodePath,
}

impl<'a> NodeClients<'a> {
    ghost use Rattle.drf_sorter.specs.Plain.{count_by, held_by};

    /// Returns whether the node has a client.
    pub fn has_some(&self) -> bool
        ensures { result ≡ list_any (λ c. begins_with c.path self.now.node.now) self.now.clients.now }
    {
        self.clients
            .iter()
            .any(|client| begins_with(&client.path, self.node))
    }

    /// Returns the number of offers made to them.
    pub fn count(&self) -> u64
        requires { count_by self.now.clients.now self.now.node.now < 2 ^ 64 }
        ensures { result ≡ count_by self.now.clients.now self.now.node.now }
    {
        let mut count = 0;
        for client in self.clients {
            if begins_with(&client.path, self.node) {
                count += client.count;
            }
        }
        count
    }

    /// Returns what they hold together. It fails only when out of memory.
    pub fn held(&self, alloc: Global) -> Result<Quantities, AllocError>
        requires { (label : Text) → held_by self.now.clients.now self.now.node.now label < 2 ^ 64 }
        ensures { IfOk result (λ held. (label : Text) → amount_of held label ≡ held_by self.now.clients.now self.now.node.now label) }
    {
        let mut held = Quantities::empty(alloc);
        for client in self.clients {
            if begins_with(&client.path, self.node) {
                client.held.recall();
                held = held.plus(&client.held)?;
            }
        }
        Ok(held)
    }
}

impl<'a> Holding for NodeClients<'a> {
    ghost use Rattle.drf_sorter.specs.Plain.{held_by};

    ghost held = { λ clients. held_by clients.clients.now clients.node.now };

    fn amount(&self, label: &Label, _place: &mut usize) -> u64 {
        let mut held = 0;
        for client in self.clients {
            if begins_with(&client.path, self.node) {
                held += client.held.amount_of(label);
            }
        }
        held
    }
}
