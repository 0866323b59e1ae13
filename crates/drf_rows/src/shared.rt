//! A list of rows that a reply and its copies share.
ghost use Rattle.std.specs.Prelude.{◌≡◌, [], length, IfOk, IsOk};

use crate::table::Table;
use std::alloc::AllocError;
use std::marker::Model;
use std::sync::Arc;

/// A list of rows that all copies share. An empty list takes no memory.
pub struct SharedTable<T> {
    rows: Option<Arc<Table<T>>>,
}

impl<T> Model for SharedTable<T> {
    ghost use Rattle.std.specs.Prelude.{List, []};
    ghost use Rattle.std.specs.Option.{option_map_or};
    ghost use Rattle.std.specs.Arc.{arc_value};

    ghost Value = { List T };

    ghost view = { λ t. option_map_or (λ rows. arc_value rows) t.rows [] };
}

// Written out, so that a caller's proof about dropping a reply deals with one call.
impl<T: Drop> Drop for SharedTable<T> {
    fn drop(self) {
        let SharedTable { rows: _rows } = self;
    }
}

impl<T> SharedTable<T> {
    /// Returns the empty list.
    pub fn empty() -> SharedTable<T>
        ensures { result ≡ [] }
    {
        SharedTable { rows: None }
    }

    /// Returns the rows, in order.
    pub fn as_slice(&self) -> &[T]
        ensures { result.now ≡ self.now }
    {
        match &self.rows {
            Some(rows) => rows.as_slice(),
            None => &[],
        }
    }

    /// Returns the number of rows.
    pub fn len(&self) -> usize
        ensures { result ≡ length self.now }
    {
        self.as_slice().len()
    }
}

impl<T: Drop> SharedTable<T> {
    /// Returns a shared list of the rows. Fails with `AllocError` if memory runs out, and never for an empty list.
    pub fn from_vec(rows: Vec<T>) -> Result<SharedTable<T>, AllocError>
        ensures rows { IfOk result (λ table. table ≡ rows.items) }
        ensures none { rows.items ≡ [] → IsOk result }
    {
        if rows.is_empty() {
            return Ok(SharedTable::empty());
        }
        let alloc = *rows.allocator();
        Ok(SharedTable {
            rows: Some(Arc::new(alloc, Table::from_vec(rows))?),
        })
    }

    /// Returns a copy that shares the rows. It allocates nothing, and fails only if there would be 2^63 owners.
    pub fn copy(&self) -> Result<SharedTable<T>, AllocError>
        ensures { IfOk result (λ copy. copy ≡ self.now) }
    {
        match &self.rows {
            Some(rows) => Ok(SharedTable {
                rows: Some(Arc::try_clone(rows)?),
            }),
            None => Ok(SharedTable::empty()),
        }
    }
}
