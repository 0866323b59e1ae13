//! Passes and receipts: what a caller of a master has.
ghost use Rattle.std.specs.Prelude.{◌≡◌, ◌<◌, ◌≤◌, [], OnOk};
ghost use Rattle.drf_master.specs.Receipts.{IsSamePass, Keeps};

use drf_board::Entry;
use std::alloc::{AllocError, Global};
use std::marker::Model;

/// The record of one call: its place in the journal, counted from 0, and its event with the reply.
#[derive(Drop)]
pub struct Receipt {
    pub place: u64,
    pub entry: Entry,
}

/// The right to call a master, with a receipt for each call that was made with it.
#[derive(Drop)]
pub struct Pass {
    key: u64,
    receipts: Vec<Receipt>,
}

impl Model for Pass {
    ghost use Rattle.std.specs.Prelude.{◌-◌, vec_len, vec_capacity};
    ghost use Rattle.drf_master.specs.Receipts.{Held, held_code};

    ghost Value = { Held };

    ghost coded = { held_code };

    ghost view = { λ p. record { key = p.key; receipts = p.receipts.items; room = vec_capacity p.receipts - vec_len p.receipts } };
}

impl Pass {
    /// Returns a pass of the master with this key, without receipts.
    pub(crate) fn new(alloc: Global, key: u64) -> Pass
        ensures key { result.key ≡ key }
        ensures empty { result.receipts ≡ [] }
    {
        Pass {
            key,
            receipts: Vec::new(alloc),
        }
    }

    /// Returns the key of its master.
    pub fn key(&self) -> u64
        ensures { result ≡ self.now.key }
    {
        self.key
    }

    /// Returns the receipts, in the order of the calls.
    pub fn receipts(&self) -> &[Receipt]
        ensures { result.now ≡ self.now.receipts }
    {
        self.receipts.as_slice()
    }

    /// Makes room for `calls` more receipts. It fails only if memory runs out; the receipts are unchanged.
    pub(crate) fn reserve(&mut self, calls: usize) -> Result<(), AllocError>
        ensures same { IsSamePass self.old self.new }
        ensures room { OnOk result (calls ≤ self.new.room) }
    {
        self.receipts.reserve(calls)
    }

    /// Adds a receipt. Allocates nothing.
    pub(crate) fn keep(&mut self, receipt: Receipt)
        requires room { 0 < self.old.room }
        ensures { Keeps self.old self.new receipt.place receipt.entry }
    {
        self.receipts.push_reserved(receipt);
    }
}
