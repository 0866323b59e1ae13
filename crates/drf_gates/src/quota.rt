//! `Quota`: how much more roles can consume under their quota limits (as in Mesos).
ghost use Rattle.std.specs.Prelude.{◌≡◌, ◌≢◌, ℕ, ◌+◌, ◌-◌, ◌<◌, ◌≤◌, ◌↔◌, true, nat_le, IsTrue, filter, length, take, None, false, OnOk, IfOk, IfSome, []};
ghost use Rattle.std.specs.List.{list_all};
ghost use Rattle.std.specs.Option.{option_map_or};
ghost use Rattle.drf_role.specs.Text.{Text};
ghost use Rattle.drf_role.specs.Path.{Path};
ghost use Rattle.drf_bundle.specs.Quantities.{known_amount};
ghost use Rattle.drf_rows.specs.Quota.{binds, headroom_under, headrooms, stays_within, admits_under, consumption, headroom_at, headroom, admits};
ghost use Rattle.drf_rows.specs.declared.rows.Rows.{Rows};
ghost use Rattle.drf_gates.specs.quota.Prefix.{IsFirstShort, prefix_leaves, prefix_passes, least_at, limits_at};
ghost use Rattle.drf_gates.specs.quota.Allowance.{IsAllowanceOf, lessened, limit_row, lesser, used_at};

mod consumed;
pub(crate) mod consumption;
pub(crate) mod limits;
mod prefixes;
pub(crate) mod totals;
mod usage;

use crate::quota::consumption::Consumption;
use crate::quota::limits::QuotaLimits;
use drf_bundle::{Entry, Quantities};
use drf_role::Role;
use std::alloc::AllocError;
use std::marker::Model;

/// The limits of roles and what each role consumes, both borrowed. All amounts are in thousandths.
#[derive(Drop)]
pub struct Quota<'a> {
    limits: &'a QuotaLimits,
    consumption: &'a Consumption,
}

impl<'a> Model for Quota<'a> {
    ghost use Rattle.drf_gates.specs.quota.Allowance.{Allowance, allowance_code};

    ghost Value = { Allowance };

    ghost coded = { allowance_code };

    ghost view = { λ q. record { limits = q.limits.now; used = q.consumption.now } };
}

/// Returns the lesser of the two numbers, or `number` if the other is not known.
fn lesser(known: Option<u64>, number: u64) -> u64
    ensures { result ≡ lesser known number }
{
    match known {
        None => number,
        Some(other) => other.min(number),
    }
}

impl<'a> Quota<'a> {
    pub fn new(limits: &'a QuotaLimits, consumption: &'a Consumption) -> Quota<'a>
        ensures { result ≡ record { limits = limits.now; used = consumption.now } }
    {
        Quota {
            limits,
            consumption,
        }
    }

    /// Returns whether any role has a limit.
    pub fn has_limits(&self) -> bool
        ensures { IsTrue result ↔ (self.now.limits ≢ []) }
    {
        !self.limits.is_empty()
    }

    /// Returns what a role and the roles below it consume of a scalar, in thousandths.
    pub fn consumption(&self, role: &Role, label: &str) -> u64
        ensures value { result ≡ used_at self.now.used role.now label.now }
        ensures of_rows { (rows : Rows) → IsAllowanceOf rows self.now → result ≡ consumption rows role.now label.now }
    {
        self.consumption.amount(role, label)
    }

    /// Returns the headroom of a role for a scalar, in thousandths: the least that its limit and those of the roles above it leave. Returns
    /// `None` if no limit names the scalar.
    pub fn headroom_at(&self, role: &Role, label: &str) -> Option<u64>
        ensures value { result ≡ headroom_under self.now.limits (used_at self.now.used) role.now label.now }
        ensures of_rows { (rows : Rows) → IsAllowanceOf rows self.now → result ≡ headroom_at rows role.now label.now }
    {
        self.limits.recall();
        let mut least = None;
        let prefixes = role.len() + 1;
        for len in 1..prefixes {
            least = self.prefix_room(role, len, label, least);
        }
        least
    }

    /// Returns the lesser of `known` and of what the limit of the role's first `len` parts leaves of a scalar. Returns `known` if there is
    /// no such limit.
    fn prefix_room(&self, role: &Role, len: usize, label: &str, known: Option<u64>) -> Option<u64>
        requires { len ≤ length role.now }
        ensures { result ≡ least_at known (used_at self.now.used) (limits_at (take len role.now) self.now.limits) label.now }
    {
        let Some((place, limited, limit)) = self.limits.above(role, len) else {
            return known;
        };
        let Some(most) = limit.known_amount(label) else {
            return known;
        };
        Some(lesser(known, self.room(place, limited, label, most)))
    }

    /// Returns the rest of a scalar under a limit of `most`, in thousandths. `place` is the position of the limit.
    fn room(&self, place: usize, limited: &Role, label: &str, most: u64) -> u64
        ensures { result ≡ most - used_at self.now.used limited.now label.now }
    {
        most.saturating_sub(self.consumption.amount_at(place, limited, label))
    }

    /// Returns the number of parts of the first role, from the top of the tree down to this one, whose limit leaves less than `least` of a
    /// scalar, in thousandths. Returns `None` if there is none. The headroom of every role that begins with these parts is less than
    /// `least`, too.
    pub fn short_prefix(&self, role: &Role, label: &str, least: u64) -> Option<usize>
        ensures within { IfSome result (λ len. len ≤ length role.now) }
        ensures first { IfSome result (IsFirstShort (used_at self.now.used) role.now label.now least self.now.limits) }
        ensures none { result ≡ None → (len : ℕ) → len ≤ length role.now
            → prefix_leaves (used_at self.now.used) role.now label.now least len self.now.limits ≡ true }
        ensures short { IfSome result (λ len. (rows : Rows) (other : Path) → IsAllowanceOf rows self.now → take len other ≡ take len role.now
            → option_map_or (nat_le least) (headroom_at rows other label.now) true ≡ false) }
        ensures enough { result ≡ None → (rows : Rows) → IsAllowanceOf rows self.now
            → option_map_or (nat_le least) (headroom_at rows role.now label.now) true ≡ true }
    {
        self.limits.recall();
        let prefixes = role.len() + 1;
        for len in 1..prefixes {
            if !self.prefix_leaves(role, len, label, least) {
                return Some(len);
            }
        }
        None
    }

    /// Returns whether the limit of the role's first `len` parts, if there is one, leaves at least `least` of a scalar.
    fn prefix_leaves(&self, role: &Role, len: usize, label: &str, least: u64) -> bool
        requires { len ≤ length role.now }
        ensures { result ≡ prefix_leaves (used_at self.now.used) role.now label.now least len self.now.limits }
    {
        let Some((place, limited, limit)) = self.limits.above(role, len) else {
            return true;
        };
        match limit.known_amount(label) {
            Some(most) => least <= self.room(place, limited, label, most),
            None => true,
        }
    }

    /// Lowers `room` to what the limit of a role leaves of each scalar that the limit names, or adds the scalar. `place` is the position of
    /// the limit.
    fn add_headroom(
        &self,
        place: usize,
        limited: &Role,
        limit: &Quantities,
        room: &mut Quantities,
    ) -> Result<(), AllocError>
        ensures { OnOk result ((label : Text) → known_amount room.new label
            ≡ lessened (used_at self.now.used) (limit_row (limited.now, limit.now)) (known_amount room.old label) label) }
    {
        for entry in limit.entries() {
            let label = entry.label.text();
            let used = self.consumption.amount_at(place, limited, label);
            let left = entry.amount.thousandths().saturating_sub(used);
            let least = lesser(room.known_amount_of(&entry.label), left);
            room.set(entry.label.copy()?, least)?;
        }
        Ok(())
    }

    /// Lowers `room` to what the limit of the role's first `len` parts leaves of each scalar, if there is such a limit.
    fn add_prefix(&self, role: &Role, len: usize, room: &mut Quantities) -> Result<(), AllocError>
        requires { len ≤ length role.now }
        ensures { OnOk result ((label : Text) → known_amount room.new label
            ≡ least_at (known_amount room.old label) (used_at self.now.used) (limits_at (take len role.now) self.now.limits) label) }
    {
        let Some((place, limited, limit)) = self.limits.above(role, len) else {
            return Ok(());
        };
        self.add_headroom(place, limited, limit, room)
    }

    /// Returns the headroom of a role, in thousandths, for each scalar that its limit or a limit of a role above it names. It fails only
    /// when out of memory.
    pub fn headroom(&self, role: &Role) -> Result<Quantities, AllocError>
        ensures value { IfOk result (λ room. room ≡ headrooms self.now.limits (used_at self.now.used) role.now) }
        ensures of_rows { IfOk result (λ room. (rows : Rows) → IsAllowanceOf rows self.now → room ≡ headroom rows role.now) }
    {
        self.limits.recall();
        let mut room = Quantities::empty(*self.limits.entries().allocator());
        let prefixes = role.len() + 1;
        for len in 1..prefixes {
            self.add_prefix(role, len, &mut room)?;
        }
        room.recall();
        Ok(room)
    }

    /// Returns whether a role can consume `more` of a scalar under its limit of `most`. `place` is the position of the limit.
    fn stays_within(&self, place: usize, limited: &Role, more: &Entry, most: u64) -> bool
        ensures { result ≡ nat_le (used_at self.now.used limited.now more.now.label + more.now.amount) most }
    {
        let used = self
            .consumption
            .amount_at(place, limited, more.label.text());
        used <= most && more.amount.thousandths() <= most - used
    }

    /// Returns whether `more` of a scalar fits under the limit of the role's first `len` parts, if there is one.
    fn prefix_admits(&self, role: &Role, len: usize, more: &Entry) -> bool
        requires { len ≤ length role.now }
        ensures { result ≡ prefix_passes (stays_within (used_at self.now.used) more.now) role.now more.now.label len self.now.limits }
    {
        let Some((place, limited, limit)) = self.limits.above(role, len) else {
            return true;
        };
        match limit.known_amount(more.label.text()) {
            Some(most) => self.stays_within(place, limited, more, most),
            None => true,
        }
    }

    /// Returns whether a role can consume `more` of a scalar.
    fn admits_one(&self, role: &Role, more: &Entry) -> bool
        ensures { result
            ≡ list_all (stays_within (used_at self.now.used) more.now) (filter (binds role.now more.now.label) self.now.limits) }
    {
        self.limits.recall();
        let prefixes = role.len() + 1;
        for len in 1..prefixes {
            if !self.prefix_admits(role, len, more) {
                return false;
            }
        }
        true
    }

    /// Returns whether a role can consume these amounts more without exceeding its limit or that of a role above it. Amounts are in
    /// thousandths.
    pub fn admits(&self, role: &Role, amounts: &Quantities) -> bool
        ensures value { result ≡ admits_under self.now.limits (used_at self.now.used) role.now amounts.now }
        ensures of_rows { (rows : Rows) → IsAllowanceOf rows self.now → result ≡ admits rows role.now amounts.now }
    {
        for more in amounts.entries() {
            if !self.admits_one(role, more) {
                return false;
            }
        }
        true
    }
}
