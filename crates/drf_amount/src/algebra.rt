//! The trait of amounts that can be joined and taken apart.
ghost use Rattle.std.specs.Prelude.{◌≡◌, ℕ, ◌↔◌, Option, IsTrue, IsSome, IfOk, IfErr};
ghost use Rattle.drf_amount.specs.Algebra.{AlgebraLaws, Covers, IsRest, IsJoinFault, IsMinusFault};
ghost use Rattle.drf_amount.specs.declared.algebra.AlgebraFault.{AlgebraFault};
ghost use Rattle.drf_amount.specs.declared.algebra.AlgebraFault.TheVariants.{Memory};

use std::alloc::{AllocError, Global};
use thiserror::Error;

/// Why two amounts have no join, or why one cannot be taken from the other. If several reasons apply, the first in this
/// order is returned; `Memory` only if no other applies.
#[derive(Clone, Copy, Debug, PartialEq, Eq, Error)]
pub enum AlgebraFault {
    /// A name would have values of two kinds.
    #[error("a name has two kinds")]
    Kind,
    /// The two amounts share a member.
    #[error("a member stands in both")]
    Overlap,
    /// A scalar would exceed 2^64 - 1 thousandths.
    #[error("a scalar is too large")]
    TooLarge,
    /// The amount does not cover what is to be taken.
    #[error("there is less than is to be taken")]
    NotCovered,
    #[error("out of memory")]
    Memory,
}

impl From<AllocError> for AlgebraFault {
    ghost from_gives = { λ _ fault. fault ≡ Memory };

    fn from(_error: AllocError) -> AlgebraFault {
        AlgebraFault::Memory
    }
}

/// Amounts of resources, as in Mesos: the join of two scalars is their sum, and the join of two ranges or sets is their
/// union. There is no join if the sum would be too large, or if a member is in both. Methods that do not return a
/// `Result` allocate nothing.
pub trait Algebra: Sized + Drop {
    /// What is true of each value of the type. The theorems below assume it.
    ghost is_given: { Self → Type 0 };

    /// The amount whose join with any other is that other.
    ghost empty: { Self };

    /// The join of two values, if they have one.
    ghost join: { Self → Self → Option Self };

    /// Why two values have no join: the first reason that applies.
    ghost refusal: { Self → Self → Option AlgebraFault };

    /// The size of a value: the sum over all its parts.
    ghost amount: { Self → ℕ };

    /// Returns the empty amount, and allocates nothing. It keeps `alloc` for amounts that are joined to it.
    fn empty(alloc: Global) -> Self
        ensures { result ≡ empty };

    /// Returns whether this is the empty amount.
    fn is_empty(&self) -> bool
        ensures given { is_given self.now }
        ensures is_empty { IsTrue result ↔ (self.now ≡ empty) };

    /// Returns whether the two amounts have a join.
    fn disjoint(&self, other: &Self) -> bool
        ensures given { is_given self.now × is_given other.now }
        ensures disjoint { IsTrue result ↔ IsSome (join self.now other.now) };

    /// Returns the join. Fails with `Kind`, `Overlap` or `TooLarge` if there is none, and with `Memory` if memory runs
    /// out.
    fn try_join(&self, other: &Self) -> Result<Self, AlgebraFault>
        ensures given { is_given self.now × is_given other.now }
        ensures joined { IfOk result (λ whole. join self.now other.now ≡ Some whole) }
        ensures fault { IfErr result (IsJoinFault (refusal self.now other.now)) };

    /// Returns whether this amount is the join of `part` and some other amount.
    fn covers(&self, part: &Self) -> bool
        ensures given { is_given self.now × is_given part.now }
        ensures covers { IsTrue result ↔ Covers is_given join self.now part.now };

    /// Returns the amount whose join with `part` is this one. Fails with `NotCovered` if there is none, and with
    /// `Memory` if memory runs out.
    fn try_minus(&self, part: &Self) -> Result<Self, AlgebraFault>
        ensures given { is_given self.now × is_given part.now }
        ensures rest { IfOk result (IsRest is_given join self.now part.now) }
        ensures fault { IfErr result (IsMinusFault (Covers is_given join self.now part.now)) };

    /// Returns the size: the sum of all thousandths of scalars and all members of sets.
    fn amount(&self) -> u128
        ensures given { is_given self.now }
        ensures amount { result ≡ amount self.now };

    /// Returns an equal amount. Fails with `AllocError` if memory runs out.
    fn copy(&self) -> Result<Self, AllocError>
        ensures given { is_given self.now }
        ensures same { IfOk result (λ copy. copy ≡ self.now) };

    /// Joining is commutative, associative and cancellative where it is defined, and sizes add up.
    ghost laws: { AlgebraLaws is_given empty join refusal amount };
}
