//! A pool: an amount from which numbered parts are taken and given back.
ghost use Rattle.std.specs.Prelude.{◌≡◌, [], All, IsSome, IfOk, IfErr, OnOk, OnErr};
ghost use Rattle.std.specs.Option.{option_copied};
ghost use Rattle.drf_amount.specs.Pool.{pool_of, IsPool, part_at};
ghost use Rattle.drf_amount.specs.PoolCalls.{pool_fault, Takes, GivesBack, Shrinks, Splits, Replaces, IsTakeFault, IsGiveBackFault, IsShrinkFault, IsSplitFault, IsReplaceFault};
ghost use Rattle.drf_amount.specs.declared.pool.PoolFault.{PoolFault};
ghost use Rattle.drf_amount.specs.declared.pool.PoolFault.TheVariants.{Memory};

use super::algebra::{Algebra, AlgebraFault};
use super::parts::{copy_parts, join_all, put_all};
use std::alloc::{AllocError, AllocFailed, Global};
use std::collections::BTreeMap;
use std::marker::Model;
use thiserror::Error;

/// Why a pool refused a call. A refused call changes nothing. If several reasons apply, the first in this order is
/// returned; where `Memory` can come earlier, the method says so.
#[derive(Clone, Copy, Debug, PartialEq, Eq, Error)]
pub enum PoolFault {
    /// No part with this number is taken.
    #[error("no part has this number")]
    UnknownPart,
    /// There is less than is to be taken.
    #[error("there is less than is to be taken")]
    NotCovered,
    /// A name would have values of two kinds.
    #[error("a name has two kinds")]
    Kind,
    /// The amounts share a member.
    #[error("a member stands in both")]
    Overlap,
    /// A scalar would exceed 2^64 - 1 thousandths.
    #[error("a scalar is too large")]
    TooLarge,
    /// The number of the next part would be 2^64 - 1.
    #[error("no number is left")]
    Full,
    #[error("out of memory")]
    Memory,
}

impl From<AlgebraFault> for PoolFault {
    ghost from_gives = { λ fault gives. gives ≡ pool_fault fault };

    fn from(fault: AlgebraFault) -> PoolFault {
        match fault {
            AlgebraFault::Kind => PoolFault::Kind,
            AlgebraFault::Overlap => PoolFault::Overlap,
            AlgebraFault::TooLarge => PoolFault::TooLarge,
            AlgebraFault::NotCovered => PoolFault::NotCovered,
            AlgebraFault::Memory => PoolFault::Memory,
        }
    }
}

impl From<AllocError> for PoolFault {
    ghost from_gives = { λ _ gives. gives ≡ Memory };

    fn from(_error: AllocError) -> PoolFault {
        PoolFault::Memory
    }
}

impl<T: Drop> From<AllocFailed<T>> for PoolFault {
    ghost from_gives = { λ _ gives. gives ≡ Memory };

    fn from(_error: AllocFailed<T>) -> PoolFault {
        PoolFault::Memory
    }
}

/// An amount, of which numbered parts are taken and the rest is free.
#[derive(Drop)]
pub struct Pool<A: Algebra> {
    alloc: Global,
    total: A,
    free: A,
    parts: BTreeMap<u64, A>,
    next: u64,
}

impl<A: Algebra> Model for Pool<A> {
    ghost use Rattle.drf_amount.specs.Pool.{PoolContent, pool_of, IsPool};

    ghost Value = { PoolContent A };

    ghost view = { λ pool. pool_of pool.total pool.free pool.parts.entries pool.next };

    ghost invariant = { λ pool.
        IsPool A.is_given A.join (pool_of pool.total pool.free pool.parts.entries pool.next) };
}

impl<A: Algebra> Pool<A> {
    /// Returns a pool in which all of `total` is free. Fails with `AllocError` if memory runs out.
    pub fn new(alloc: Global, total: A) -> Result<Self, AllocError>
        ensures { IfOk result (λ pool. pool ≡ pool_of total total [] 0) }
    {
        Ok(Pool {
            alloc,
            free: total.copy()?,
            total,
            parts: BTreeMap::new(alloc),
            next: 0,
        })
    }

    /// Returns the whole amount, free and taken.
    pub fn total(&self) -> &A
        ensures value { result.now ≡ self.now.total }
        ensures pool { IsPool A.is_given A.join self.now }
    {
        &self.total
    }

    /// Returns the free amount.
    pub fn free(&self) -> &A
        ensures { result.now ≡ self.now.free }
    {
        &self.free
    }

    /// Returns the taken part with this number.
    pub fn part(&self, number: u64) -> Option<&A>
        ensures { option_copied result ≡ part_at self.now.parts number }
    {
        self.parts.get(&number)
    }

    /// Takes `wanted` from the free amount, and returns the number of the new part. Numbers begin at 0 and are never
    /// used twice. Errors: `NotCovered`, `Full`, `Memory`.
    pub fn take(&mut self, wanted: &A) -> Result<u64, PoolFault>
        ensures given { A.is_given wanted.now }
        ensures ok { IfOk result (Takes A.is_given A.join self.old self.new wanted.now) }
        ensures fault { IfErr result (IsTakeFault A.is_given A.join self.old wanted.now) }
        ensures err { OnErr result (self.new ≡ self.old) }
    {
        // `Full` is tested before memory can run out, and after `NotCovered`.
        if self.next == u64::MAX && self.free.covers(wanted) {
            return Err(PoolFault::Full);
        }
        let rest = self.free.try_minus(wanted)?;
        let part = wanted.copy()?;
        let number = self.next;
        self.parts.insert(number, part)?;
        self.free = rest;
        self.next += 1;
        Ok(number)
    }

    /// Frees the part with this number, and returns it. Errors: `UnknownPart`, `Memory`.
    pub fn give_back(&mut self, number: u64) -> Result<A, PoolFault>
        ensures ok { IfOk result (GivesBack A.is_given A.join self.old self.new number) }
        ensures fault { IfErr result (IsGiveBackFault self.old number) }
        ensures err { OnErr result (self.new ≡ self.old) }
    {
        let Some(part) = self.parts.get(&number) else {
            return Err(PoolFault::UnknownPart);
        };
        let joined = self.free.try_join(part)?;
        let part = self.parts.remove(&number).unwrap();
        self.free = joined;
        Ok(part)
    }

    /// Replaces the part with this number by `smaller`, and frees the rest of it. Errors: `UnknownPart`, `NotCovered`,
    /// `Memory`.
    pub fn shrink(&mut self, number: u64, smaller: &A) -> Result<(), PoolFault>
        ensures given { IsSome (part_at self.old.parts number) → A.is_given smaller.now }
        ensures ok { OnOk result (Shrinks A.is_given A.join self.old self.new number smaller.now) }
        ensures fault { IfErr result (IsShrinkFault A.is_given A.join self.old number smaller.now) }
        ensures err { OnErr result (self.new ≡ self.old) }
    {
        let Some(part) = self.parts.get(&number) else {
            return Err(PoolFault::UnknownPart);
        };
        let freed = part.try_minus(smaller)?;
        let free = self.free.try_join(&freed)?;
        let kept = smaller.copy()?;
        self.parts.insert(number, kept)?;
        self.free = free;
        Ok(())
    }

    /// Replaces the part with this number by several parts under new numbers, in order, and frees the rest of it.
    /// Returns the new numbers. Errors: `UnknownPart`; `Kind`, `Overlap` or `TooLarge` if a part has no join with those
    /// before it (from the left); `NotCovered`; `Full`; and `Memory`, which can come before all of these except
    /// `UnknownPart`.
    pub fn split(&mut self, number: u64, parts: &[A]) -> Result<Vec<u64>, PoolFault>
        ensures given { OnOk result (All A.is_given parts.now) }
        ensures ok { IfOk result (λ numbers.
            Splits A.is_given A.join A.empty self.old self.new number parts.now numbers.items) }
        ensures fault { IfErr result
            (IsSplitFault A.is_given A.join A.refusal A.empty self.old number parts.now) }
        ensures err { OnErr result (self.new ≡ self.old) }
    {
        let Some(part) = self.parts.get(&number) else {
            return Err(PoolFault::UnknownPart);
        };
        let wanted = join_all(self.alloc, parts)?;
        let rest = part.try_minus(&wanted)?;
        let free = self.free.try_join(&rest)?;
        let Some(next) = self.next.checked_add(parts.len() as u64) else {
            return Err(PoolFault::Full);
        };
        let numbers = put_all(self.alloc, &mut self.parts, self.next, parts)?;
        self.parts.remove(&number);
        self.free = free;
        self.next = next;
        Ok(numbers)
    }

    /// Replaces `old` by `new`, in the total and in the free amount. Errors: `NotCovered`; `Kind`, `Overlap` or
    /// `TooLarge` if `new` has no join with the rest of the total; and `Memory`, which can come before these.
    pub fn replace_free(&mut self, old: &A, new: &A) -> Result<(), PoolFault>
        ensures given { A.is_given old.now }
        ensures new_given { OnOk result (A.is_given new.now) }
        ensures ok { OnOk result (Replaces A.is_given A.join self.old self.new old.now new.now) }
        ensures fault { IfErr result
            (IsReplaceFault A.is_given A.join A.refusal self.old old.now new.now) }
        ensures err { OnErr result (self.new ≡ self.old) }
    {
        let free_rest = self.free.try_minus(old)?;
        let total = self.total.try_minus(old)?.try_join(new)?;
        let free_joined = free_rest.try_join(new)?;
        self.total = total;
        self.free = free_joined;
        Ok(())
    }

    /// Returns a pool with equal content. Fails with `AllocError` if memory runs out.
    pub fn copy(&self) -> Result<Pool<A>, AllocError>
        ensures { IfOk result (λ copy. copy ≡ self.now) }
    {
        Ok(Pool {
            alloc: self.alloc,
            total: self.total.copy()?,
            free: self.free.copy()?,
            parts: copy_parts(self.alloc, &self.parts)?,
            next: self.next,
        })
    }
}
