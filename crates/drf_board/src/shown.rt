//! Panes: the values that a board shows to its viewers through `left_right`.
ghost use Rattle.std.specs.Prelude.{◌≡◌, IfOk};
ghost use Rattle.drf_board.specs.Sheets.{IsSheet};

use crate::history::Naming;
use crate::prefix::Prefix;
use crate::sheet::Sheet;
use left_right::Absorb;
use std::alloc::{AllocError, Global};
use std::marker::Model;
use std::sync::{Arc, OnceLock};

/// A sheet with the list that it is the sheet of. Contracts see it as that list.
#[derive(Drop)]
pub struct Shown<K: Naming> {
    sheet: Sheet,
    prefix: Prefix<K>,
}

impl<K: Naming> Model for Shown<K> {
    ghost use Rattle.std.specs.Prelude.{List};
    ghost use Rattle.drf_board.specs.Sheets.{IsSheet};
    ghost use Rattle.drf_board.specs.Boards.{entries_code};
    ghost use Rattle.drf_board.specs.declared.entry.Entry.{Entry};

    ghost Value = { List Entry };

    ghost coded = { entries_code };

    ghost view = { λ s. s.prefix };

    ghost invariant = { λ s. IsSheet K.slate.limits K.start s.prefix s.sheet };
}

impl<K: Naming> Shown<K> {
    /// Returns a sheet with its list.
    pub fn new(sheet: Sheet, prefix: Prefix<K>) -> Shown<K>
        requires { IsSheet K.slate.limits K.start prefix sheet }
        ensures { result ≡ prefix }
    {
        Shown { sheet, prefix }
    }

    /// Returns the list.
    pub fn prefix(&self) -> &Prefix<K>
        ensures { result.now ≡ self.now }
    {
        &self.prefix
    }

    /// Returns a copy of the sheet. It fails only if memory runs out.
    pub fn sheet(&self) -> Result<Sheet, AllocError>
        ensures { IfOk result (λ sheet. IsSheet K.slate.limits K.start self.now sheet) }
    {
        self.sheet.copy()
    }
}

/// A place for a sheet that is written once. Both copies that `left_right` keeps are panes, and so are its operations.
#[derive(Drop)]
pub struct Pane<K: Naming> {
    slot: Arc<OnceLock<Shown<K>>, Global>,
}

impl<K: Naming> Pane<K> {
    /// Creates an empty pane, and returns two handles to it. It fails only if memory runs out.
    pub(crate) fn pair(alloc: Global) -> Result<(Pane<K>, Pane<K>), AllocError> {
        let slot = Arc::new(alloc, OnceLock::new())?;
        let other = Arc::try_clone(&slot)?;
        Ok((Pane { slot }, Pane { slot: other }))
    }

    /// Writes the pane if it is still empty.
    pub(crate) fn fill(&self, shown: Shown<K>) {
        let _ = self.slot.try_set(shown);
    }

    /// Returns what was written, if anything.
    pub(crate) fn get(&self) -> Option<&Shown<K>> {
        self.slot.get()
    }
}

impl<K: Naming> Absorb<Pane<K>> for Pane<K> {
    // The type of a pane says which board its list belongs to, so the contracts need not say that both copies agree.
    type State = ();

    ghost state = { λ p. tt };

    ghost applied = { λ s o. tt };

    ghost never_fails = { Unit {0} };

    // Shows the pane of the operation.
    fn absorb_first(&mut self, operation: &Pane<K>, _other: &Pane<K>) -> Result<(), AllocError> {
        // If the pane already has 2^63 owners, the older pane stays. `Viewer::read` notices this.
        if let Ok(slot) = Arc::try_clone(&operation.slot) {
            self.slot = slot;
        }
        Ok(())
    }

    // Shows the pane of the operation.
    fn absorb_second(&mut self, operation: Pane<K>, _other: &Pane<K>) -> Result<(), Pane<K>> {
        *self = operation;
        Ok(())
    }
}

/// What `left_right` requires of both copies. Types that hold a board use this name as their bound, so that they need not name the traits of
/// `left_right`.
pub trait Shows: Absorb<Self, State = ()> + Drop + Sized {}

impl<K: Naming> Shows for Pane<K> {}
