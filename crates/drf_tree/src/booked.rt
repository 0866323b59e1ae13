//! The slots of the ledger: a client with a guess of its tree node, and the changes of the client in a slot.
ghost use Rattle.std.specs.Prelude.{◌≡◌, ◌+◌, ◌<◌, ◌^◌, IfOk, IfSome, OnErr, OnOk};
ghost use Rattle.std.specs.Option.{option_map};
ghost use Rattle.drf_bundle.specs.Quantities.{amount_of};
ghost use Rattle.drf_role.specs.Text.{Text};
ghost use Rattle.drf_sorter.specs.Content.{HasCharge, Holds, activated, charged, discharged, refunded};
ghost use Rattle.drf_tree.specs.Booked.{client_of, seen_slot};

use crate::tree::ROOT;
use drf_bundle::Quantities;
use drf_sorter::Client;
use std::alloc::AllocError;

/// A client, with a guess of the number of its node in the tree. No contract depends on the guess.
#[derive(Drop)]
pub(crate) struct Booked {
    pub client: Client,
    pub leaf: usize,
}

impl Booked {
    pub(crate) fn copy(&self) -> Result<Booked, AllocError>
        ensures { IfOk result (λ copy. client_of copy ≡ client_of self.now) }
    {
        Ok(Booked {
            client: self.client.copy()?,
            leaf: self.leaf,
        })
    }
}

/// Returns the guess of the node of the client in a slot, or the root if the slot is free.
pub(crate) fn leaf_in(slot: &Option<Booked>) -> usize {
    match slot {
        Some(booked) => booked.leaf,
        None => ROOT,
    }
}

/// Activates or suppresses the client in a slot, if there is one.
pub(crate) fn activate(slot: &mut Option<Booked>, active: bool)
    ensures { seen_slot slot.new ≡ option_map (activated active) (seen_slot slot.old) }
{
    if let Some(booked) = slot {
        booked.client.active = active;
    }
}

/// Adds these quantities and a number of offers to the client in a slot, if there is one. When out of memory, nothing changes.
pub(crate) fn charge(
    slot: &mut Option<Booked>,
    quantities: &Quantities,
    offers: u64,
) -> Result<(), AllocError>
    requires held { IfSome (seen_slot slot.old) (λ c. (label : Text) → c.held label + amount_of quantities.now label < 2 ^ 64) }
    requires count { IfSome (seen_slot slot.old) (λ c. c.count + offers < 2 ^ 64) }
    ensures ok { OnOk result (seen_slot slot.new ≡ option_map (charged quantities.now offers) (seen_slot slot.old)) }
    ensures err { OnErr result (slot.new ≡ slot.old) }
{
    if let Some(booked) = slot {
        booked.client.charge(quantities, offers)?;
    }
    Ok(())
}

/// Undoes a charge of one offer to the client in a slot, if there is one.
pub(crate) fn undo_charge(slot: &mut Option<Booked>, quantities: &Quantities)
    requires { IfSome (seen_slot slot.old) (HasCharge quantities.now) }
    ensures { seen_slot slot.new ≡ option_map (discharged quantities.now) (seen_slot slot.old) }
{
    if let Some(booked) = slot {
        booked.client.undo_charge(quantities);
    }
}

/// Takes these quantities from the client in a slot, if there is one. Its count of offers stays the same.
pub(crate) fn refund(slot: &mut Option<Booked>, quantities: &Quantities)
    requires { IfSome (seen_slot slot.old) (Holds quantities.now) }
    ensures { seen_slot slot.new ≡ option_map (refunded quantities.now) (seen_slot slot.old) }
{
    if let Some(booked) = slot {
        booked.client.refund(quantities);
    }
}
