//! Scalars: numbers of thousandths.
ghost use Rattle.std.specs.Prelude.{◌≡◌, ◌+◌, ◌<◌, Some, IfOk, IfErr};
ghost use Rattle.drf_amount.specs.declared.algebra.AlgebraFault.TheVariants.{NotCovered};
ghost use Rattle.drf_amount.specs.Scalar.{IsScalar, scalar_join, scalar_refusal};
ghost use Rattle.drf_amount.specs.ScalarLaws.{scalar_laws};

use super::algebra::{Algebra, AlgebraFault};
use std::alloc::{AllocError, Global};
use std::marker::Model;

/// An amount of one scalar resource, in thousandths of its unit. Mesos keeps scalars to three decimals.
#[derive(Clone, Copy, PartialEq, Eq, PartialOrd, Ord, Hash)]
pub struct Scalar(u64);

impl Model for Scalar {
    ghost use Rattle.std.specs.Prelude.{ℕ};
    ghost use Rattle.drf_amount.specs.Scalar.{IsScalar};

    ghost Value = { ℕ };

    ghost view = { λ scalar. scalar.0 };

    ghost invariant = { λ scalar. IsScalar scalar.0 };

    ghost inverse = { λ thousandths. record { 0 = thousandths } };
}

impl Scalar {
    /// Returns the scalar of so many thousandths.
    pub fn new(thousandths: u64) -> Self
        ensures { result ≡ thousandths }
    {
        Scalar(thousandths)
    }

    /// Returns the thousandths.
    pub fn thousandths(self) -> u64
        ensures { result ≡ self }
    {
        let Scalar(thousandths) = self;
        thousandths
    }
}

impl Algebra for Scalar {
    ghost is_given = { IsScalar };

    ghost empty = { 0 };

    ghost join = { scalar_join };

    ghost refusal = { scalar_refusal };

    ghost amount = { λ thousandths. thousandths };

    ghost laws = { scalar_laws };

    fn empty(_alloc: Global) -> Scalar {
        Scalar(0)
    }

    fn is_empty(&self) -> bool {
        self.0 == 0
    }

    fn disjoint(&self, other: &Scalar) -> bool {
        self.0.checked_add(other.0).is_some()
    }

    fn try_join(&self, other: &Scalar) -> Result<Scalar, AlgebraFault>
        ensures given { IsScalar self.now × IsScalar other.now }
        ensures joined { IfOk result (λ whole. scalar_join self.now other.now ≡ Some whole) }
        ensures fault { IfErr result (λ fault. scalar_refusal self.now other.now ≡ Some fault) }
    {
        match self.0.checked_add(other.0) {
            Some(sum) => Ok(Scalar(sum)),
            None => Err(AlgebraFault::TooLarge),
        }
    }

    fn covers(&self, part: &Scalar) -> bool {
        part.0 <= self.0
    }

    fn try_minus(&self, part: &Scalar) -> Result<Scalar, AlgebraFault>
        ensures given { IsScalar self.now × IsScalar part.now }
        ensures rest { IfOk result (λ rest. rest + part.now ≡ self.now) }
        ensures fault { IfErr result (λ fault. (fault ≡ NotCovered) × (self.now < part.now)) }
    {
        match self.0.checked_sub(part.0) {
            Some(rest) => Ok(Scalar(rest)),
            None => Err(AlgebraFault::NotCovered),
        }
    }

    fn amount(&self) -> u128 {
        u128::from(self.0)
    }

    fn copy(&self) -> Result<Scalar, AllocError>
        ensures given { IsScalar self.now }
        ensures same { result ≡ Ok self.now }
    {
        Ok(Scalar(self.0))
    }
}
