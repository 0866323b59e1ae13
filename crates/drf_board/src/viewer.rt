//! Viewers, which read the sheets of a board without the publisher's lock.
ghost use Rattle.std.specs.Prelude.{◌≡◌, ◌⊎◌, IfOk, OnErr};
ghost use mathlib.Core.List.{IsPrefix};
ghost use Rattle.drf_board.specs.declared.viewer.ViewFault.TheVariants.{Memory};
ghost use Rattle.drf_board.specs.History.{IsLegal};
ghost use Rattle.drf_board.specs.Sheets.{IsSheet};

use crate::history::Naming;
use crate::prefix::{Prefix, Told};
use crate::sheet::Sheet;
use crate::shown::Pane;
use left_right::ReadHandle;
use std::alloc::AllocError;
use std::marker::Model;

/// Why a viewer could not read a sheet. The viewer is unchanged.
#[derive(Clone, Copy, PartialEq, Eq)]
pub enum ViewFault {
    /// The board is gone (the contracts do not say this).
    Closed,
    /// Memory ran out while the sheet was copied.
    Memory,
}

impl From<AllocError> for ViewFault {
    ghost from_gives = { λ _ fault. fault ≡ Memory };

    fn from(_error: AllocError) -> ViewFault {
        ViewFault::Memory
    }
}

/// Reads the sheets of a board without the publisher's lock. Contracts see it as the longest list that it saw or learnt.
#[derive(Drop)]
pub struct Viewer<K: Naming> {
    handle: ReadHandle<Pane<K>>,
    prefix: Prefix<K>,
}

impl<K: Naming> Model for Viewer<K> {
    ghost use Rattle.std.specs.Prelude.{List};
    ghost use Rattle.drf_board.specs.Boards.{entries_code};
    ghost use Rattle.drf_board.specs.declared.entry.Entry.{Entry};

    ghost Value = { List Entry };

    ghost coded = { entries_code };

    ghost view = { λ v. v.prefix };
}

// Returns the sheet of a pane and its list, or `Closed` if it is empty or its list is older than `known`.
fn see<K: Naming>(pane: &Pane<K>, known: &Prefix<K>) -> Result<(Sheet, Prefix<K>), ViewFault>
    ensures later { IfOk result (λ r. IsPrefix known.now r.1) }
    ensures sheet { IfOk result (λ r. IsSheet K.slate.limits K.start r.1 r.0) }
{
    let Some(shown) = pane.get() else {
        return Err(ViewFault::Closed);
    };
    let prefix = shown.prefix();
    if !known.begins(prefix) {
        return Err(ViewFault::Closed);
    }
    let sheet = shown.sheet()?;
    Ok((sheet, prefix.again()))
}

impl<K: Naming> Viewer<K> {
    /// Creates a viewer that has seen this prefix.
    pub(crate) fn new(handle: ReadHandle<Pane<K>>, prefix: Prefix<K>) -> Viewer<K>
        ensures { result ≡ prefix }
    {
        Viewer { handle, prefix }
    }

    /// Returns the longest list that it saw or learnt.
    pub(crate) fn prefix(&self) -> &Prefix<K>
        ensures { result.now ≡ self.now }
    {
        &self.prefix
    }

    /// Returns the sheet of a legal list that begins with everything this viewer saw or learnt before, so it never reads an older sheet after a newer
    /// one. This list is a prefix of the board's own list (`Board::recall_viewer`). Does not wait. Errors: `Memory` if the sheet cannot be copied;
    /// `Closed` if the board is gone. `Closed` would also be returned for a sheet older than the last one, or for none, but `publish` does not leave
    /// such a pane.
    pub fn read(&mut self) -> Result<Sheet, ViewFault>
        ensures later { IsPrefix self.old self.new }
        ensures legal { IsLegal K.slate.limits K.start self.new }
        ensures sheet { IfOk result (λ sheet. IsSheet K.slate.limits K.start self.new sheet) }
        ensures err { OnErr result (self.new ≡ self.old) }
    {
        self.prefix.recall();
        let seen = match self.handle.enter() {
            Some(guard) => see(&guard, &self.prefix),
            None => Err(ViewFault::Closed),
        };
        let (sheet, prefix) = seen?;
        prefix.recall();
        self.prefix = prefix;
        Ok(sheet)
    }

    /// Makes this viewer continue from a list that a call returned: each sheet that it reads later includes this list. So if one viewer learns the
    /// lists of two callers, both are prefixes of one history. Allocates nothing and does not wait.
    pub fn learn(&mut self, told: &Told<K>)
        ensures later { IsPrefix self.old self.new }
        ensures told { IsPrefix told.now self.new }
        ensures own { (self.new ≡ self.old) ⊎ (self.new ≡ told.now) }
    {
        let prefix = told.prefix();
        if self.prefix.begins(prefix) {
            self.prefix = prefix.again();
        }
    }
}
