//! Changes of a client whose slot is known. The caller looks the slot up once.
ghost use Rattle.std.specs.Prelude.{◌≡◌, OnErr, OnOk, true};
ghost use Rattle.drf_hash.specs.Slots.{slot_of};
ghost use Rattle.drf_role.specs.Path.{same_path};
ghost use Rattle.drf_sorter.specs.Content.{HasChargeAt, HoldsAt, IsSound, activated, charged, discharged, has_client, refunded, with_change};
ghost use Rattle.drf_tree.specs.Booked.{path_of};
ghost use Rattle.drf_tree.specs.Ledger.{ledger_content, rows_in};

use crate::booked::{activate, charge, refund, undo_charge};
use crate::ledger::Ledger;
use drf_bundle::Quantities;
use drf_role::ClientPath;
use std::alloc::AllocError;

impl Ledger {
    /// Activates or suppresses the client in a slot.
    pub(crate) fn set_active_at(&mut self, row: Option<usize>, path: &ClientPath, active: bool)
        requires row { row ≡ slot_of same_path path_of path.now (rows_in self.old) }
        requires known { has_client (ledger_content self.old) path.now ≡ true }
        ensures { ledger_content self.new ≡ with_change (ledger_content self.old) path.now (activated active) }
    {
        if let Some(at) = row {
            activate(&mut self.slots[at], active);
        }
    }

    /// Adds these quantities and a number of offers to the client in a slot. When out of memory, nothing changes.
    pub(crate) fn charge_at(
        &mut self,
        row: Option<usize>,
        path: &ClientPath,
        quantities: &Quantities,
        offers: u64,
    ) -> Result<(), AllocError>
        requires row { row ≡ slot_of same_path path_of path.now (rows_in self.old) }
        requires known { has_client (ledger_content self.old) path.now ≡ true }
        requires sound { IsSound (with_change (ledger_content self.old) path.now (charged quantities.now offers)) }
        ensures ok { OnOk result (ledger_content self.new ≡ with_change (ledger_content self.old) path.now (charged quantities.now offers)) }
        ensures err { OnErr result (ledger_content self.new ≡ ledger_content self.old) }
    {
        if let Some(at) = row {
            charge(&mut self.slots[at], quantities, offers)?;
        }
        Ok(())
    }

    /// Undoes a charge of one offer to the client in a slot.
    pub(crate) fn undo_charge_at(
        &mut self,
        row: Option<usize>,
        path: &ClientPath,
        quantities: &Quantities,
    )
        requires row { row ≡ slot_of same_path path_of path.now (rows_in self.old) }
        requires known { has_client (ledger_content self.old) path.now ≡ true }
        requires charged { HasChargeAt (ledger_content self.old) path.now quantities.now }
        ensures { ledger_content self.new ≡ with_change (ledger_content self.old) path.now (discharged quantities.now) }
    {
        if let Some(at) = row {
            undo_charge(&mut self.slots[at], quantities);
        }
    }

    /// Takes these quantities from the client in a slot. Its count of offers stays the same.
    pub(crate) fn refund_at(
        &mut self,
        row: Option<usize>,
        path: &ClientPath,
        quantities: &Quantities,
    )
        requires row { row ≡ slot_of same_path path_of path.now (rows_in self.old) }
        requires known { has_client (ledger_content self.old) path.now ≡ true }
        requires held { HoldsAt (ledger_content self.old) path.now quantities.now }
        ensures { ledger_content self.new ≡ with_change (ledger_content self.old) path.now (refunded quantities.now) }
    {
        if let Some(at) = row {
            refund(&mut self.slots[at], quantities);
        }
    }
}
