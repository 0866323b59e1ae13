//! What each role consumes itself, without the roles below it.
ghost use Rattle.std.specs.Prelude.{◌≡◌, ◌+◌, ◌^◌, ◌<◌, ◌≤◌, ◌↔◌, Bool, false, [], IsTrue, IfOk, OnOk, OnErr};
ghost use Rattle.drf_role.specs.Text.{Text};
ghost use Rattle.drf_role.specs.Path.{Path};
ghost use Rattle.drf_bundle.specs.Quantities.{amount_of};
ghost use Rattle.drf_rows.specs.Quota.{is_within};
ghost use Rattle.drf_gates.specs.quota.Allowance.{AreRaised, AreSome, IsBounded, IsSomething, counted, one_entry, used_at, used_by, used_where, row_of};

use drf_bundle::Quantities;
use drf_hash::ByRole;
use drf_role::{Label, Role};
use indexmap::IndexMap;
use std::alloc::AllocError;

/// Returns the amount of a scalar, in thousandths, if `role` is `outer` or below it, and 0 otherwise.
fn counted(outer: &Role, role: &Role, amounts: &Quantities, label: &str) -> u64
    ensures { result ≡ counted (is_within outer.now) role.now amounts.now label.now }
{
    if role.is_within(outer) {
        amounts.get(label)
    } else {
        0
    }
}

/// Returns what a role and the roles below it consume of a scalar, in thousandths.
pub(crate) fn used_at(used: &ByRole<Quantities>, outer: &Role, label: &str) -> u64
    requires { used_at used.now.entries outer.now label.now < 2 ^ 64 }
    ensures { result ≡ used_at used.now.entries outer.now label.now }
{
    let mut sum = 0;
    for (role, amounts) in used {
        sum += counted(outer, role, amounts, label);
    }
    sum
}

/// Returns what a role consumes itself, plus these amounts.
fn row_with(
    used: &ByRole<Quantities>,
    role: &Role,
    amounts: &Quantities,
) -> Result<Quantities, AllocError>
    requires { (label : Text) → amount_of (row_of used.now.entries role.now) label + amount_of amounts.now label < 2 ^ 64 }
    ensures { IfOk result (λ sum. (label : Text) → amount_of sum label ≡ amount_of (row_of used.now.entries role.now) label + amount_of amounts.now label) }
{
    amounts.recall();
    match used.get(role) {
        Some(row) => row.plus(amounts),
        None => amounts.copy(),
    }
}

/// Adds amounts to the row of a role, if the row has all their labels. Returns whether it did. It never allocates.
fn raise_row(row: &mut Quantities, amounts: &Quantities) -> bool
    requires { (label : Text) → amount_of row.old label + amount_of amounts.now label < 2 ^ 64 }
    ensures done { IsTrue result → (label : Text) → amount_of row.new label ≡ amount_of row.old label + amount_of amounts.now label }
    ensures not { result ≡ false → row.new ≡ row.old }
    ensures some { IsSomething row.old → IsSomething row.new }
{
    if !row.names_all(amounts) {
        return false;
    }
    amounts.recall();
    row.raise(amounts);
    true
}

/// Returns whether one of the amounts is greater than 0.
fn is_something(amounts: &Quantities) -> bool
    ensures some { IsTrue result → IsSomething amounts.now }
    ensures none { result ≡ false → (label : Text) → amount_of amounts.now label ≡ 0 }
{
    amounts
        .entries()
        .iter()
        .any(|entry| entry.amount.thousandths() > 0)
}

/// Adds amounts to what a role consumes, if its row has all their labels. Returns whether it did. It never allocates.
fn raise_there(used: &mut ByRole<Quantities>, role: &Role, amounts: &Quantities) -> bool
    requires { (label : Text) → used_by used.old.entries role.now label + amount_of amounts.now label < 2 ^ 64 }
    ensures done { IsTrue result → AreRaised used.old.entries used.new.entries role.now amounts.now }
    ensures not { result ≡ false → used.new.entries ≡ used.old.entries }
    ensures some { AreSome used.old.entries → AreSome used.new.entries }
{
    let Some(row) = used.get_mut(role) else {
        return false;
    };
    raise_row(row, amounts)
}

/// Adds amounts to what a role consumes. When out of memory, nothing changes.
pub(crate) fn raise(
    used: &mut ByRole<Quantities>,
    role: &Role,
    amounts: &Quantities,
) -> Result<(), AllocError>
    requires { (label : Text) → used_by used.old.entries role.now label + amount_of amounts.now label < 2 ^ 64 }
    ensures ok { OnOk result (AreRaised used.old.entries used.new.entries role.now amounts.now) }
    ensures err { OnErr result (used.new.entries ≡ used.old.entries) }
    ensures some { AreSome used.old.entries → AreSome used.new.entries }
{
    if raise_there(used, role, amounts) || !is_something(amounts) {
        return Ok(());
    }
    let sum = row_with(used, role, amounts)?;
    let role = role.copy()?;
    used.insert(role, sum)?;
    Ok(())
}

/// Drops the labels with the amount 0. Returns whether the row is empty then.
fn prune(row: &mut Quantities) -> bool
    ensures same { (label : Text) → amount_of row.new label ≡ amount_of row.old label }
    ensures empty { IsTrue result ↔ (row.new ≡ []) }
    ensures some { result ≡ false → IsSomething row.new }
{
    row.recall();
    row.remove_zeros();
    row.entries().is_empty()
}

/// Subtracts amounts. Returns whether the row is empty then.
fn lower_row(row: &mut Quantities, amounts: &Quantities) -> bool
    requires { (label : Text) → amount_of amounts.now label ≤ amount_of row.old label }
    ensures left { (label : Text) → amount_of row.new label + amount_of amounts.now label ≡ amount_of row.old label }
    ensures empty { IsTrue result ↔ (row.new ≡ []) }
    ensures some { result ≡ false → IsSomething row.new }
{
    amounts.recall();
    row.lower(amounts);
    prune(row)
}

/// Subtracts from the amount of one label. Returns whether the row is empty then.
fn reduce_row(row: &mut Quantities, label: &Label, thousandths: u64) -> bool
    requires { thousandths ≤ amount_of row.old label.now }
    ensures left { (other : Text) → amount_of row.new other + amount_of (one_entry label.now thousandths) other ≡ amount_of row.old other }
    ensures empty { IsTrue result ↔ (row.new ≡ []) }
    ensures some { result ≡ false → IsSomething row.new }
{
    row.reduce(label, thousandths);
    prune(row)
}

/// Subtracts amounts from what a role consumes. A role that then consumes nothing is removed. It never allocates.
pub(crate) fn lower(used: &mut ByRole<Quantities>, role: &Role, amounts: &Quantities)
    requires { (label : Text) → amount_of amounts.now label ≤ used_by used.old.entries role.now label }
    ensures lowered { AreRaised used.new.entries used.old.entries role.now amounts.now }
    ensures some { AreSome used.old.entries → AreSome used.new.entries }
{
    let Some(row) = used.get_mut(role) else {
        return;
    };
    if lower_row(row, amounts) {
        used.swap_remove(role);
    }
}

/// Subtracts from what a role consumes of one scalar. A role that then consumes nothing is removed. It never allocates.
pub(crate) fn reduce(used: &mut ByRole<Quantities>, role: &Role, label: &Label, thousandths: u64)
    requires { thousandths ≤ used_by used.old.entries role.now label.now }
    ensures lowered { AreRaised used.new.entries used.old.entries role.now (one_entry label.now thousandths) }
    ensures some { AreSome used.old.entries → AreSome used.new.entries }
{
    let Some(row) = used.get_mut(role) else {
        return;
    };
    if reduce_row(row, label, thousandths) {
        used.swap_remove(role);
    }
}

/// Returns a copy of what each role consumes.
pub(crate) fn copy_used(used: &ByRole<Quantities>) -> Result<ByRole<Quantities>, AllocError>
    requires { IsBounded used.now.entries }
    ensures same { IfOk result (λ copy. (test : Path → Bool) (label : Text)
        → used_where test copy.entries label ≡ used_where test used.now.entries label) }
    ensures some { IfOk result (λ copy. AreSome copy.entries) }
{
    let mut copy = IndexMap::with_capacity_and_hasher(
        *used.allocator(),
        used.len(),
        *used.hasher(),
    )?;
    for (role, amounts) in used {
        role.recall();
        raise(&mut copy, role, amounts)?;
    }
    Ok(copy)
}
