//! Stored totals: what each role with a limit consumes together with the roles below it. Without a stored total, the sum goes over all
//! roles that consume something. If memory runs out, a total becomes unknown until it is computed again.
ghost use Rattle.std.specs.Prelude.{◌≡◌, ◌+◌, ◌≤◌, List, IsTrue, IfSome, length, take};
ghost use Rattle.drf_role.specs.Text.{Text};
ghost use Rattle.drf_bundle.specs.Quantities.{amount_of};
ghost use Rattle.drf_rows.specs.Quota.{is_within};
ghost use Rattle.drf_gates.specs.quota.Allowance.{Usage, AreRaised, counted, one_entry, used_at};
ghost use Rattle.drf_gates.specs.quota.Totals.{IsExact, AreExact, AreCarried};

use crate::quota::limits::QuotaLimits;
use crate::quota::prefixes::first_parts;
use drf_bundle::{Entry, Quantities};
use drf_hash::ByRole;
use drf_role::{Label, Role};
use drf_rows::Limits;
use indexmap::IndexMap;
use std::alloc::{AllocError, Global};

/// What a role consumes together with the roles below it. If `is_known` is not set, the amounts are wrong.
#[derive(Drop)]
pub(crate) struct Total {
    is_known: bool,
    amounts: Quantities,
}

/// Drops the labels with the amount 0 if this label is new.
fn make_room(sum: &mut Quantities, label: &str)
    ensures { (other : Text) → amount_of sum.new other ≡ amount_of sum.old other }
{
    if !sum.is_named(label) {
        sum.recall();
        sum.remove_zeros();
    }
}

/// Adds to the amount of a label. Returns whether it succeeded; it fails when out of memory, or if the sum would be 2^64 or more.
fn add_entry(sum: &mut Quantities, more: &Entry) -> bool
    ensures { IsTrue result → (label : Text)
        → amount_of sum.new label ≡ amount_of sum.old label + amount_of (one_entry more.now.label more.now.amount) label }
{
    let thousandths = more.amount.thousandths();
    if sum.add_to_named(&more.label, thousandths) {
        return true;
    }
    make_room(sum, more.label.text());
    sum.add_to(&more.label, thousandths)
}

/// Adds amounts, label by label. Returns whether it succeeded; otherwise some labels can be added already.
fn add(sum: &mut Quantities, more: &Quantities) -> bool
    ensures { IsTrue result → (label : Text) → amount_of sum.new label ≡ amount_of sum.old label + amount_of more.now label }
{
    for entry in more.entries() {
        if !add_entry(sum, entry) {
            return false;
        }
    }
    true
}

/// Adds the amounts to the sum if `role` is `outer` or below it. Returns whether it succeeded.
fn add_within(sum: &mut Quantities, outer: &Role, role: &Role, amounts: &Quantities) -> bool
    ensures { IsTrue result → (label : Text)
        → amount_of sum.new label ≡ amount_of sum.old label + counted (is_within outer.now) role.now amounts.now label }
{
    !role.is_within(outer) || add(sum, amounts)
}

/// Subtracts from the amount of a label, if that is enough. Returns whether it succeeded. It never allocates.
fn take_entry(sum: &mut Quantities, label: &Label, thousandths: u64) -> bool
    ensures { IsTrue result → (other : Text)
        → amount_of sum.new other + amount_of (one_entry label.now thousandths) other ≡ amount_of sum.old other }
{
    sum.take_from(label, thousandths)
}

/// Subtracts amounts, label by label. Returns whether it succeeded; otherwise some labels can be lowered already. It never allocates.
fn take(sum: &mut Quantities, less: &Quantities) -> bool
    ensures { IsTrue result → (label : Text) → amount_of sum.new label + amount_of less.now label ≡ amount_of sum.old label }
{
    for entry in less.entries() {
        if !take_entry(sum, &entry.label, entry.amount.thousandths()) {
            return false;
        }
    }
    true
}

/// Adds amounts to a total. If that fails, the total becomes unknown.
fn raise_total(total: &mut Total, amounts: &Quantities)
    ensures known { IsTrue total.new.is_known → IsTrue total.old.is_known }
    ensures sums { IsTrue total.new.is_known → (label : Text)
        → amount_of total.new.amounts label ≡ amount_of total.old.amounts label + amount_of amounts.now label }
{
    if total.is_known {
        total.is_known = add(&mut total.amounts, amounts);
    }
}

/// Subtracts amounts from a total. If that fails, the total becomes unknown.
fn lower_total(total: &mut Total, amounts: &Quantities)
    ensures known { IsTrue total.new.is_known → IsTrue total.old.is_known }
    ensures sums { IsTrue total.new.is_known → (label : Text)
        → amount_of total.new.amounts label + amount_of amounts.now label ≡ amount_of total.old.amounts label }
{
    if total.is_known {
        total.is_known = take(&mut total.amounts, amounts);
    }
}

/// Subtracts from the amount of one label of a total. If that fails, the total becomes unknown.
fn reduce_total(total: &mut Total, label: &Label, thousandths: u64)
    ensures known { IsTrue total.new.is_known → IsTrue total.old.is_known }
    ensures sums { IsTrue total.new.is_known → (other : Text)
        → amount_of total.new.amounts other + amount_of (one_entry label.now thousandths) other ≡ amount_of total.old.amounts other }
{
    if total.is_known {
        total.is_known = take_entry(&mut total.amounts, label, thousandths);
    }
}

/// Adds amounts to the total of the role's first `len` parts, if it is stored.
fn raise_prefix(totals: &mut ByRole<Total>, role: &Role, len: usize, amounts: &Quantities)
    requires { len ≤ length role.now }
    ensures { (old new : List Usage) → AreRaised old new role.now amounts.now
        → AreCarried old new role.now len totals.old.entries → AreCarried old new role.now (len + 1) totals.new.entries }
{
    let Some(total) = totals.get_mut(first_parts(role, len)) else {
        return;
    };
    raise_total(total, amounts);
}

/// Subtracts amounts from the total of the role's first `len` parts, if it is stored.
fn lower_prefix(totals: &mut ByRole<Total>, role: &Role, len: usize, amounts: &Quantities)
    requires { len ≤ length role.now }
    ensures { (old new : List Usage) → AreRaised new old role.now amounts.now
        → AreCarried old new role.now len totals.old.entries → AreCarried old new role.now (len + 1) totals.new.entries }
{
    let Some(total) = totals.get_mut(first_parts(role, len)) else {
        return;
    };
    lower_total(total, amounts);
}

/// Subtracts from the amount of one label of the total of the role's first `len` parts, if it is stored.
fn reduce_prefix(
    totals: &mut ByRole<Total>,
    role: &Role,
    len: usize,
    label: &Label,
    thousandths: u64,
)
    requires { len ≤ length role.now }
    ensures { (old new : List Usage) → AreRaised new old role.now (one_entry label.now thousandths)
        → AreCarried old new role.now len totals.old.entries → AreCarried old new role.now (len + 1) totals.new.entries }
{
    let Some(total) = totals.get_mut(first_parts(role, len)) else {
        return;
    };
    reduce_total(total, label, thousandths);
}

/// Adds amounts to the stored totals of a role and of the roles above it.
pub(crate) fn raise_totals(totals: &mut ByRole<Total>, role: &Role, amounts: &Quantities)
    ensures { (old new : List Usage) → AreRaised old new role.now amounts.now → AreExact old totals.old.entries → AreExact new totals.new.entries }
{
    let prefixes = role.len() + 1;
    for len in 1..prefixes {
        raise_prefix(totals, role, len, amounts);
    }
}

/// Subtracts amounts from the stored totals of a role and of the roles above it. It never allocates.
pub(crate) fn lower_totals(totals: &mut ByRole<Total>, role: &Role, amounts: &Quantities)
    ensures { (old new : List Usage) → AreRaised new old role.now amounts.now → AreExact old totals.old.entries → AreExact new totals.new.entries }
{
    let prefixes = role.len() + 1;
    for len in 1..prefixes {
        lower_prefix(totals, role, len, amounts);
    }
}

/// Subtracts from the amount of one label in the stored totals of a role and of the roles above it. It never allocates.
pub(crate) fn reduce_totals(
    totals: &mut ByRole<Total>,
    role: &Role,
    label: &Label,
    thousandths: u64,
)
    ensures { (old new : List Usage) → AreRaised new old role.now (one_entry label.now thousandths)
        → AreExact old totals.old.entries → AreExact new totals.new.entries }
{
    let prefixes = role.len() + 1;
    for len in 1..prefixes {
        reduce_prefix(totals, role, len, label, thousandths);
    }
}

/// Returns what a role and the roles below it consume of a scalar, in thousandths, if the total is stored and known.
pub(crate) fn kept(totals: &ByRole<Total>, role: &Role, label: &str) -> Option<u64>
    ensures { IfSome result (λ amount. (used : List Usage) → AreExact used totals.now.entries → amount ≡ used_at used role.now label.now) }
{
    role.recall();
    let total = totals.get(role)?;
    if !total.is_known {
        return None;
    }
    Some(total.amounts.get(label))
}

/// Returns the same as `kept`, if the total of the role is at this position.
pub(crate) fn kept_at(totals: &ByRole<Total>, place: usize, role: &Role, label: &str) -> Option<u64>
    ensures { IfSome result (λ amount. (used : List Usage) → AreExact used totals.now.entries → amount ≡ used_at used role.now label.now) }
{
    role.recall();
    let (outer, total) = totals.get_index(place)?;
    if !total.is_known || outer != role {
        return None;
    }
    Some(total.amounts.get(label))
}

/// Returns whether the total of a role is stored and known.
fn is_kept(totals: &ByRole<Total>, role: &Role) -> bool {
    match totals.get(role) {
        Some(total) => total.is_known,
        None => false,
    }
}

/// Removes the total of a role.
pub(crate) fn drop_total(totals: &mut ByRole<Total>, role: &Role)
    ensures { (used : List Usage) → AreExact used totals.old.entries → AreExact used totals.new.entries }
{
    totals.swap_remove(role);
}

/// Adds to a sum what a role and the roles below it consume. Returns whether it succeeded.
fn add_used(sum: &mut Quantities, outer: &Role, used: &ByRole<Quantities>) -> bool
    ensures { IsTrue result → (label : Text)
        → amount_of sum.new label ≡ amount_of sum.old label + used_at used.now.entries outer.now label }
{
    for (role, amounts) in used {
        if !add_within(sum, outer, role, amounts) {
            return false;
        }
    }
    true
}

/// Stores the total of a role: replaces the old one, or appends it. No more totals are stored than roles can have limits.
fn put_total(totals: &mut ByRole<Total>, role: &Role, total: Total) -> Result<(), AllocError>
    ensures { (used : List Usage) → IsExact used role.now total → AreExact used totals.old.entries → AreExact used totals.new.entries }
{
    let role = role.copy()?;
    totals.insert(role, total)?;
    totals.truncate(Limits::full().limits() as usize);
    Ok(())
}

/// Stores the total of a role, unless it is stored and known already. When out of memory, it can be left out, or stored as unknown.
pub(crate) fn keep_total(totals: &mut ByRole<Total>, used: &ByRole<Quantities>, role: &Role)
    ensures { AreExact used.now.entries totals.old.entries → AreExact used.now.entries totals.new.entries }
{
    if is_kept(totals, role) {
        return;
    }
    let mut amounts = Quantities::empty(*totals.allocator());
    let is_known = add_used(&mut amounts, role, used);
    let _ = put_total(totals, role, Total { is_known, amounts });
}

/// Returns the totals of the roles that have a limit. When out of memory, some are left out or unknown.
pub(crate) fn totals_of(limits: &QuotaLimits, used: &ByRole<Quantities>) -> ByRole<Total>
    ensures { AreExact used.now.entries result.entries }
{
    let mut totals = IndexMap::with_hasher(*used.allocator(), *used.hasher());
    for (role, _) in limits.entries() {
        keep_total(&mut totals, used, role);
    }
    totals
}

/// Appends a copy of a total. When out of memory, it is left out.
fn copy_total(copy: &mut ByRole<Total>, role: &Role, total: &Total)
    ensures { (used : List Usage) → IsExact used role.now total.now → AreExact used copy.old.entries → AreExact used copy.new.entries }
{
    let Ok(amounts) = total.amounts.copy() else {
        return;
    };
    let copied = Total {
        is_known: total.is_known,
        amounts,
    };
    let _ = put_total(copy, role, copied);
}

/// Returns copies of the totals. When out of memory, some are left out.
pub(crate) fn copy_totals(totals: &ByRole<Total>, alloc: Global) -> ByRole<Total>
    ensures { (used : List Usage) → AreExact used totals.now.entries → AreExact used result.entries }
{
    let mut copy = IndexMap::with_hasher(alloc, *totals.hasher());
    let _ = copy.reserve(totals.len());
    for (role, total) in totals {
        copy_total(&mut copy, role, total);
    }
    copy
}
