//! `Consumption`: what roles consume (Mesos: quota consumption).
ghost use Rattle.std.specs.Prelude.{◌≡◌, ◌+◌, ◌^◌, ◌<◌, ◌≤◌, true, [], IfOk, OnErr, OnOk};
ghost use Rattle.drf_role.specs.Text.{Text};
ghost use Rattle.drf_role.specs.Path.{Path};
ghost use Rattle.drf_role.specs.Role.{IsRole};
ghost use Rattle.drf_bundle.specs.Quantities.{amount_of};
ghost use Rattle.drf_rows.specs.Quota.{consumption, is_within};
ghost use Rattle.drf_rows.specs.declared.rows.Rows.{Rows};
ghost use Rattle.drf_gates.specs.quota.Allowance.{AreRaised, IsConsumptionOf, IsSame, used_at, used_by};

use crate::quota::limits::QuotaLimits;
use crate::quota::totals::{
    Total, copy_totals, drop_total, keep_total, kept, kept_at, lower_totals, raise_totals,
    totals_of,
};
use crate::quota::usage::{copy_used, lower, raise, used_at};
use drf_bundle::Quantities;
use drf_hash::ByRole;
use drf_role::Role;
use indexmap::IndexMap;
use std::alloc::{AllocError, Global};
use std::marker::Model;

/// What each role consumes, in thousandths. Contracts see what a role consumes itself, without the roles below it.
pub struct Consumption {
    pub(crate) used: ByRole<Quantities>,
    // What roles with a limit consume together with the roles below them. A total that is missing or unknown is computed when it is needed.
    // Totals have the same positions as their limits until a limit is removed.
    pub(crate) totals: ByRole<Total>,
}

// Written out, so that a proof about a function that drops this type sees one call, and not the drop of each table.
impl Drop for Consumption {
    fn drop(self) {
        let Consumption {
            used: _used,
            totals: _totals,
        } = self;
    }
}

impl Model for Consumption {
    ghost use Rattle.std.specs.Prelude.{List};
    ghost use Rattle.drf_gates.specs.quota.Allowance.{Usage, usage_code};
    ghost use Rattle.drf_gates.specs.quota.Totals.{IsCounted};

    ghost Value = { List Usage };

    ghost coded = { usage_code };

    ghost view = { λ c. c.used.entries };

    ghost invariant = { λ c. IsCounted c.used.entries c.totals.entries };
}

impl Consumption {
    /// Returns a table in which nothing is consumed, with totals for the roles that have a limit.
    pub fn new(alloc: Global, limits: &QuotaLimits) -> Consumption
        ensures { result ≡ [] }
    {
        let used = IndexMap::with_hasher(alloc, *limits.entries().hasher());
        let totals = totals_of(limits, &used);
        Consumption { used, totals }
    }

    /// Returns a copy.
    pub fn copy(&self) -> Result<Consumption, AllocError>
        ensures { IfOk result (IsSame self.now) }
    {
        let used = copy_used(&self.used)?;
        let totals = copy_totals(&self.totals, *self.used.allocator());
        Ok(Consumption { used, totals })
    }

    /// Stores or drops the total of a role, after its limit was set or removed. Contracts see no change.
    pub fn follow(&mut self, limits: &QuotaLimits, role: &Role)
        ensures { self.new ≡ self.old }
    {
        if limits.get(role).is_some() {
            keep_total(&mut self.totals, &self.used, role);
        } else {
            drop_total(&mut self.totals, role);
        }
    }

    /// Returns what a role and the roles below it consume of a scalar, in thousandths.
    pub fn amount(&self, role: &Role, label: &str) -> u64
        ensures value { result ≡ used_at self.now role.now label.now }
        ensures of_rows { (rows : Rows) → IsConsumptionOf rows self.now → result ≡ consumption rows role.now label.now }
    {
        role.recall();
        match kept(&self.totals, role, label) {
            Some(amount) => amount,
            None => used_at(&self.used, role, label),
        }
    }

    /// Returns the same as `amount`. The total of the role is first looked for at `place`, the position of its limit.
    pub(crate) fn amount_at(&self, place: usize, role: &Role, label: &str) -> u64
        ensures { result ≡ used_at self.now role.now label.now }
    {
        match kept_at(&self.totals, place, role, label) {
            Some(amount) => amount,
            None => self.amount(role, label),
        }
    }

    /// Adds amounts to what a role and the roles above it consume. When out of memory, nothing changes.
    pub fn consume(&mut self, role: &Role, amounts: &Quantities) -> Result<(), AllocError>
        requires { (outer : Path) (label : Text) → IsRole outer → is_within outer role.now ≡ true
            → used_at self.old outer label + amount_of amounts.now label < 2 ^ 64 }
        ensures ok { OnOk result (AreRaised self.old self.new role.now amounts.now) }
        ensures err { OnErr result (self.new ≡ self.old) }
    {
        role.recall();
        raise(&mut self.used, role, amounts)?;
        raise_totals(&mut self.totals, role, amounts);
        Ok(())
    }

    /// Subtracts amounts from what a role and the roles above it consume. They can be at most what the role consumes itself.
    pub fn release(&mut self, role: &Role, amounts: &Quantities)
        requires { (label : Text) → amount_of amounts.now label ≤ used_by self.old role.now label }
        ensures { AreRaised self.new self.old role.now amounts.now }
    {
        lower(&mut self.used, role, amounts);
        lower_totals(&mut self.totals, role, amounts);
    }
}
