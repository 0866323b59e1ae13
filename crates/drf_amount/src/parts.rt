//! Operations on several amounts, and on the numbered parts of a pool.
ghost use Rattle.std.specs.Prelude.{◌≡◌, ℕ, ◌+◌, ◌-◌, ◌≤◌, ◌^◌, ◌++◌, length, take, Some, All, IfOk, IfErr, OnOk, OnErr};
ghost use Rattle.std.specs.Map.{keys_of};
ghost use Rattle.drf_amount.specs.Pool.{NumbersRise, joined_all, numbered};
ghost use Rattle.drf_amount.specs.PoolCalls.{IsJoinAllFault};

use super::algebra::{Algebra, AlgebraFault};
use std::alloc::{AllocError, Global};
use std::collections::BTreeMap;

/// Returns the join of all amounts, from the left.
pub fn join_all<A: Algebra>(alloc: Global, amounts: &[A]) -> Result<A, AlgebraFault>
    ensures given { OnOk result (All A.is_given amounts.now) }
    ensures joined { IfOk result (λ whole. joined_all A.join A.empty amounts.now ≡ Some whole) }
    ensures fault { IfErr result (IsJoinAllFault A.join A.refusal A.empty amounts.now) }
{
    let mut whole = A::empty(alloc);
    for amount in amounts {
        whole = whole.try_join(amount)?;
    }
    Ok(whole)
}

// Appends copies of the amounts under the numbers from `first` on. If memory runs out, some of them were appended.
fn put_some<A: Algebra>(
    alloc: Global,
    parts: &mut BTreeMap<u64, A>,
    first: u64,
    amounts: &[A],
) -> Result<Vec<u64>, AllocError>
    requires room { first + length amounts.now ≤ 2 ^ 64 - 1 }
    requires rise { NumbersRise 0 parts.old.entries first }
    ensures numbers { IfOk result (λ numbers. numbers.items ≡ keys_of (numbered first amounts.now)) }
    ensures put { OnOk result (parts.new.entries ≡ parts.old.entries ++ numbered first amounts.now) }
    ensures before { take (length parts.old.entries) parts.new.entries ≡ parts.old.entries }
{
    let mut numbers = Vec::with_capacity(alloc, amounts.len())?;
    let mut number = first;
    for amount in amounts {
        parts.insert(number, amount.copy()?)?;
        numbers.push(number)?;
        number += 1;
    }
    Ok(numbers)
}

// Removes the last parts, until `count` are left. It allocates nothing.
fn truncate<A: Algebra>(parts: &mut BTreeMap<u64, A>, count: usize)
    requires { count ≤ length parts.old.entries }
    ensures { parts.new.entries ≡ take count parts.old.entries }
{
    while count < parts.len() {
        parts.pop_last();
    }
}

/// Appends copies of the amounts under the numbers from `first` on, and returns these numbers. On an error no part is
/// appended.
pub fn put_all<A: Algebra>(
    alloc: Global,
    parts: &mut BTreeMap<u64, A>,
    first: u64,
    amounts: &[A],
) -> Result<Vec<u64>, AllocError>
    requires room { first + length amounts.now ≤ 2 ^ 64 - 1 }
    requires rise { NumbersRise 0 parts.old.entries first }
    ensures numbers { IfOk result (λ numbers. numbers.items ≡ keys_of (numbered first amounts.now)) }
    ensures put { OnOk result (parts.new.entries ≡ parts.old.entries ++ numbered first amounts.now) }
    ensures err { OnErr result (parts.new.entries ≡ parts.old.entries) }
{
    let count = parts.len();
    let put = put_some(alloc, parts, first, amounts);
    if put.is_err() {
        truncate(parts, count);
    }
    put
}

/// Returns copies of the parts. Fails with `AllocError` if memory runs out.
pub fn copy_parts<A: Algebra>(
    alloc: Global,
    parts: &BTreeMap<u64, A>,
) -> Result<BTreeMap<u64, A>, AllocError>
    requires { (next : ℕ) × NumbersRise 0 parts.now.entries next }
    ensures { IfOk result (λ copy. copy.entries ≡ parts.now.entries) }
{
    let mut copy = BTreeMap::new(alloc);
    for (number, part) in parts {
        copy.insert(*number, part.copy()?)?;
    }
    Ok(copy)
}
