//! The value of a resource: thousandths, a set of numbers or a set of labels.
ghost use Rattle.std.specs.Prelude.{◌≡◌, ◌+◌, ◌<◌, ◌^◌, IsTrue, ◌↔◌, IfOk};
ghost use Rattle.drf_bundle.specs.Value.{Thousandths, units_in, IsGiven, amount_in, clash_in, united, less, has_all_of};

use drf_amount::{Algebra, Scalar};
use drf_kinds::{Items, Ranges};
use std::alloc::AllocError;

/// The value of a resource.
#[derive(Drop)]
pub enum Value {
    /// A scalar in thousandths, such as `cpus`.
    Scalar(Scalar),
    /// A set of numbers below 2^32, such as `ports`.
    Ranges(Ranges),
    /// A set of labels, such as disks.
    Items(Items),
}

/// The ways in which two values of one name can clash.
#[derive(Clone, Copy)]
pub enum Clash {
    /// The values are of different kinds.
    Kinds,
    /// A member is in both values.
    Members,
    /// One of the other two.
    Either,
}

impl Value {
    /// Returns whether the value is 0 or an empty set.
    pub fn is_empty(&self) -> bool
        ensures given { IsGiven self.now }
        ensures is_empty { IsTrue result ↔ (amount_in self.now ≡ 0) }
    {
        match self {
            Value::Scalar(scalar) => scalar.is_empty(),
            Value::Ranges(ranges) => ranges.is_empty(),
            Value::Items(items) => items.is_empty(),
        }
    }

    /// Returns the thousandths of a scalar, or the number of members of a set.
    pub fn amount(&self) -> u128
        ensures amount { result ≡ amount_in self.now }
        ensures small { result < 2 ^ 64 }
    {
        match self {
            Value::Scalar(scalar) => scalar.amount(),
            Value::Ranges(ranges) => ranges.amount(),
            Value::Items(items) => items.amount(),
        }
    }

    /// Returns the thousandths of a scalar, and 0 for a set.
    pub(crate) fn thousandths(&self) -> u64
        ensures { result ≡ units_in self.now Thousandths }
    {
        match self {
            Value::Scalar(scalar) => scalar.thousandths(),
            Value::Ranges(_) => 0,
            Value::Items(_) => 0,
        }
    }

    /// Returns an equal value. Fails with `AllocError` if memory runs out.
    pub fn copy(&self) -> Result<Value, AllocError>
        ensures { IfOk result (λ value. value ≡ self.now) }
    {
        Ok(match self {
            Value::Scalar(scalar) => Value::Scalar(scalar.copy()?),
            Value::Ranges(ranges) => Value::Ranges(ranges.copy()?),
            Value::Items(items) => Value::Items(items.copy()?),
        })
    }

    /// Returns whether the two values clash in this way.
    pub(crate) fn clashes_with(&self, other: &Value, clash: Clash) -> bool
        ensures { result ≡ clash_in clash self.now other.now }
    {
        match (self, other) {
            (Value::Scalar(_), Value::Scalar(_)) => false,
            (Value::Ranges(ranges), Value::Ranges(others)) => match clash {
                Clash::Kinds => false,
                Clash::Members | Clash::Either => !ranges.disjoint(others),
            },
            (Value::Items(items), Value::Items(others)) => match clash {
                Clash::Kinds => false,
                Clash::Members | Clash::Either => !items.disjoint(others),
            },
            _ => match clash {
                Clash::Kinds | Clash::Either => true,
                Clash::Members => false,
            },
        }
    }

    /// Returns whether `part` is of the same kind, and every unit of it is in this value.
    pub(crate) fn covers(&self, part: &Value) -> bool
        ensures { result ≡ has_all_of self.now part.now }
    {
        match (self, part) {
            (Value::Scalar(scalar), Value::Scalar(part)) => scalar.covers(part),
            (Value::Ranges(ranges), Value::Ranges(part)) => ranges.covers(part),
            (Value::Items(items), Value::Items(part)) => items.covers(part),
            _ => false,
        }
    }

    /// Returns the sum of two scalars, or the union of two sets, which can share members.
    pub(crate) fn unite(&self, other: &Value) -> Result<Value, AllocError>
        requires { units_in self.now Thousandths + units_in other.now Thousandths < 2 ^ 64 }
        ensures { IfOk result (λ value. value ≡ united self.now other.now) }
    {
        match (self, other) {
            (Value::Scalar(scalar), Value::Scalar(other)) => {
                let sum = scalar.thousandths() + other.thousandths();
                Ok(Value::Scalar(Scalar::new(sum)))
            }
            (Value::Ranges(ranges), Value::Ranges(others)) => ranges
                .unite(others)
                .map(Value::Ranges),
            (Value::Items(items), Value::Items(others)) => items.unite(others).map(Value::Items),
            _ => self.copy(),
        }
    }

    /// Returns the rest without `part`, which this value need not cover.
    pub(crate) fn minus(&self, part: &Value) -> Result<Value, AllocError>
        ensures { IfOk result (λ value. value ≡ less self.now part.now) }
    {
        match (self, part) {
            (Value::Scalar(scalar), Value::Scalar(part)) => {
                let left = scalar.thousandths().saturating_sub(part.thousandths());
                Ok(Value::Scalar(Scalar::new(left)))
            }
            (Value::Ranges(ranges), Value::Ranges(part)) => ranges
                .difference(part)
                .map(Value::Ranges),
            (Value::Items(items), Value::Items(part)) => items.difference(part).map(Value::Items),
            _ => self.copy(),
        }
    }
}
