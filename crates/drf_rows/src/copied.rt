//! Copies that can fail for lack of memory.
ghost use Rattle.std.specs.Prelude.{◌≡◌, IfOk};

use crate::table::Table;
use drf_role::Role;
use std::alloc::{AllocError, Global};

/// Types with a copy that fails if memory runs out (`Clone` cannot fail).
pub trait Copied: Sized + Drop {
    /// Returns an equal value, or `AllocError` if memory runs out.
    fn copy(&self) -> Result<Self, AllocError>
        ensures { IfOk result (λ copy. copy ≡ self.now) };
}

impl Copied for Role {
    fn copy(&self) -> Result<Role, AllocError> {
        self.copy()
    }
}

/// Returns copies of the rows, in the same order. Fails with `AllocError` if memory runs out.
pub fn copy_all<T: Copied>(alloc: Global, rows: &[T]) -> Result<Table<T>, AllocError>
    ensures { IfOk result (λ copies. copies ≡ rows.now) }
{
    let mut copies = Vec::with_capacity(alloc, rows.len())?;
    for row in rows {
        copies.push(row.copy()?)?;
    }
    Ok(Table::from_vec(copies))
}

impl<T: Copied> Table<T> {
    /// Returns an equal table, or `AllocError` if memory runs out.
    pub fn copy(&self) -> Result<Table<T>, AllocError>
        ensures { IfOk result (λ copy. copy ≡ self.now) }
    {
        copy_all(self.alloc(), self.as_slice())
    }
}
