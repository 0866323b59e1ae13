//! Restores an allocator row by row.
ghost use Rattle.std.specs.Prelude.{◌≡◌, IfOk, MatchResult};
ghost use Rattle.drf_rows.specs.Step.{live_rows};
ghost use Rattle.drf_saved.specs.Saved.{head_fault, row_fault};
ghost use Rattle.drf_saved_laws.specs.SavedLaws.{IsSaveable};
ghost use Rattle.drf_state.specs.Restored.{IsBegunWith, IsPut, IsReported};

use crate::fault::RestoreError;
use crate::fitting::{head_fault, row_fault};
use crate::placing::Parts;
use drf_core::Core;
use drf_hash::HashKey;
use drf_rows::Limits;
use drf_saved::{Head, SavedRow};
use drf_sorter::Sorter;
use std::alloc::{AllocError, Global};
use std::marker::Model;

/// An allocator that is being restored: each row is added after the rows on which it depends.
#[derive(Drop)]
pub struct Restoring<S: Sorter> {
    alloc: Global,
    limits: Limits,
    parts: Parts<S>,
}

impl<S: Sorter> Model for Restoring<S> {
    ghost use Rattle.drf_core.specs.Machine.{Engine, engine_code};
    ghost use Rattle.drf_state.specs.Restored.{IsRestored};

    ghost Value = { Engine };

    ghost coded = { engine_code };

    ghost view = { λ r. record { limits = r.limits; rows = r.parts.tables.rows; work = S.work r.parts.sorter } };

    ghost invariant = { λ r. IsRestored r.limits r.parts.tables (S.content r.parts.sorter) r.parts.counted };
}

impl<S: Sorter> Restoring<S> {
    /// Creates an allocator with the numbers of a head and no rows. The hashes of names begin with `key`, so someone
    /// who chooses names, but does not know the key, cannot slow the allocator down. Fails with the first error of the
    /// head.
    pub fn begin(
        alloc: Global,
        limits: Limits,
        key: HashKey,
        head: Head,
    ) -> Result<Restoring<S>, RestoreError>
        ensures { MatchResult result (IsBegunWith limits head) (IsReported (head_fault limits head)) }
    {
        // The contract of this call says that the capacities are within their upper bounds.
        let _ = limits.agents();
        if let Some(fault) = head_fault(&limits, head) {
            return Err(RestoreError::Fault(fault));
        }
        Ok(Restoring {
            alloc,
            limits,
            parts: Parts::begin(alloc, key, head)?,
        })
    }

    /// Adds a row, which must be allowed after the rows before it. Fails with the first error of the row, or with
    /// `Memory` if memory runs out.
    pub fn put(self, row: SavedRow) -> Result<Restoring<S>, RestoreError>
        ensures { MatchResult result (IsPut self row) (IsReported (row_fault self.limits self.rows row)) }
    {
        let Restoring {
            alloc,
            limits,
            mut parts,
        } = self;
        row.recall();
        if let Some(fault) = row_fault(&limits, &parts.tables, parts.counted, &row)? {
            return Err(RestoreError::Fault(fault));
        }
        parts.put(alloc, row)?;
        Ok(Restoring {
            alloc,
            limits,
            parts,
        })
    }

    /// Returns the allocator with the restored rows.
    pub fn end(self) -> Result<Core<S>, AllocError>
        ensures limits { IfOk result (λ core. core.limits ≡ self.limits) }
        ensures rows { IfOk result (λ core. core.rows ≡ self.rows) }
        ensures work { IfOk result (λ core. core.work ≡ self.work) }
        ensures live { IfOk result (λ core. live_rows core.rows ≡ core.rows) }
        ensures saveable { IfOk result (λ core. IsSaveable core.limits core.rows) }
    {
        let Restoring {
            alloc,
            limits,
            parts: Parts { tables, sorter, .. },
        } = self;
        let core = Core::assemble(alloc, limits, tables, sorter)?;
        Ok(core)
    }
}
