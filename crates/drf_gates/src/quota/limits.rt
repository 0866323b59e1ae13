//! `QuotaLimits`, the table of the limits of roles.
ghost use Rattle.std.specs.Prelude.{◌≡◌, ◌≤◌, ◌↔◌, [], length, take, IsTrue, IfOk, IsOk, OnOk, OnErr};
ghost use Rattle.std.specs.Option.{option_copied, option_map, option_to_list};
ghost use Rattle.drf_role.specs.Path.{same_path};
ghost use Rattle.indexmap.specs.IndexMap.{insert_entry};
ghost use Rattle.drf_rows.specs.Quota.{limit_of, limits_with};
ghost use Rattle.drf_gates.specs.quota.Prefix.{limits_at};
ghost use Rattle.drf_gates.specs.quota.Allowance.{limit_row, limit_rows};

use crate::quota::prefixes::limit_above;
use drf_bundle::Quantities;
use drf_hash::{ByRole, HashKey};
use drf_role::Role;
use drf_rows::{LimitRow, Table};
use indexmap::IndexMap;
use std::alloc::{AllocError, Global};
use std::marker::Model;

/// The limits of roles, in the order in which the roles got a limit. Contracts see the rows.
#[derive(Drop)]
pub struct QuotaLimits {
    limits: ByRole<Quantities>,
}

impl Model for QuotaLimits {
    ghost use Rattle.std.specs.Prelude.{◌≡◌, List, [], None};
    ghost use Rattle.std.specs.Coded.{coded_list};
    ghost use Rattle.std.specs.Map.{lookup};
    ghost use Rattle.drf_role.specs.Path.{same_path};
    ghost use Rattle.drf_rows.specs.contracts.rows.LimitRow as limit_row;
    ghost use Rattle.drf_rows.specs.declared.rows.LimitRow.{LimitRow};
    ghost use Rattle.drf_gates.specs.quota.Allowance.{limit_rows};

    ghost Value = { List LimitRow };

    ghost coded = { coded_list limit_row.the_row.coded };

    ghost view = { λ q. limit_rows q.limits.entries };

    // The empty path is not a role and has no limit.
    ghost invariant = { λ q. lookup (same_path []) q.limits.entries ≡ None };
}

/// Sets the limit of a role: replaces the old one, or appends it. When out of memory, nothing changes.
fn put_limit(
    limits: &mut ByRole<Quantities>,
    role: &Role,
    limit: Quantities,
) -> Result<(), AllocError>
    ensures ok { OnOk result (limits.new.entries ≡ insert_entry same_path limits.old.entries role.now limit) }
    ensures err { OnErr result (limits.new.entries ≡ limits.old.entries) }
{
    let role = role.copy()?;
    limits.insert(role, limit)?;
    Ok(())
}

/// Returns a copy of the limits, in the same order.
fn copy_limits(limits: &ByRole<Quantities>) -> Result<ByRole<Quantities>, AllocError>
    ensures { IfOk result (λ copy. copy.entries ≡ limits.now.entries) }
{
    let mut copy = IndexMap::with_capacity_and_hasher(
        *limits.allocator(),
        limits.len(),
        *limits.hasher(),
    )?;
    for (role, limit) in limits {
        put_limit(&mut copy, role, limit.copy()?)?;
    }
    Ok(copy)
}

impl QuotaLimits {
    /// Returns a table without limits. The hashes of roles begin with `key`.
    pub fn new(alloc: Global, key: HashKey) -> QuotaLimits
        ensures { result ≡ [] }
    {
        QuotaLimits {
            limits: IndexMap::with_hasher(alloc, key),
        }
    }

    /// Returns a copy of the table, in the same order.
    pub fn copy(&self) -> Result<QuotaLimits, AllocError>
        ensures { IfOk result (λ copy. copy ≡ self.now) }
    {
        let limits = copy_limits(&self.limits)?;
        Ok(QuotaLimits { limits })
    }

    /// Reminds the prover that the empty path has no limit. It does nothing.
    pub(crate) fn recall(&self)
        ensures { limits_at [] self.now ≡ [] }
    {
        let _ = &self.limits;
    }

    /// Returns the number of roles with a limit.
    pub fn len(&self) -> usize
        ensures { result ≡ length self.now }
    {
        self.limits.len()
    }

    /// Returns whether no role has a limit.
    pub fn is_empty(&self) -> bool
        ensures { IsTrue result ↔ (self.now ≡ []) }
    {
        self.limits.is_empty()
    }

    /// Returns the roles with their limits.
    pub(crate) fn entries(&self) -> &ByRole<Quantities> {
        &self.limits
    }

    /// Returns the limits as rows. It fails only when out of memory.
    pub fn rows(&self) -> Result<Table<LimitRow>, AllocError>
        ensures { IfOk result (λ rows. rows ≡ self.now) }
    {
        let mut rows = Vec::with_capacity(*self.limits.allocator(), self.limits.len())?;
        for (role, limit) in &self.limits {
            rows.push(LimitRow {
                role: role.copy()?,
                limit: limit.copy()?,
            })?;
        }
        Ok(Table::from_vec(rows))
    }

    /// Returns the limit of a role, if it has one.
    pub fn get(&self, role: &Role) -> Option<&Quantities>
        ensures { option_copied result ≡ limit_of self.now role.now }
    {
        self.limits.get(role)
    }

    /// Returns the limit of the role's first `len` parts, with its position and its role, if there is one.
    pub(crate) fn above(&self, role: &Role, len: usize) -> Option<(usize, &Role, &Quantities)>
        requires { len ≤ length role.now }
        ensures { limits_at (take len role.now) self.now ≡ option_to_list (option_map (λ f. limit_row (f.1.now, f.2.now)) result) }
    {
        limit_above(&self.limits, role, len)
    }

    /// Sets the limit of a role. A limit without scalars removes the role's limit, which never allocates. When out of memory, nothing
    /// changes.
    pub fn set(&mut self, role: &Role, limit: Quantities) -> Result<(), AllocError>
        ensures ok { OnOk result (self.new ≡ limits_with self.old role.now limit) }
        ensures err { OnErr result (self.new ≡ self.old) }
        ensures none { limit ≡ [] → IsOk result }
    {
        role.recall();
        if limit.entries().is_empty() {
            self.limits.shift_remove(role);
            return Ok(());
        }
        put_limit(&mut self.limits, role, limit)
    }
}
