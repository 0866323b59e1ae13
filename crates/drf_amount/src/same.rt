//! Equality of amounts.
ghost use Rattle.std.specs.Prelude.{◌≡◌, ◌↔◌, IsTrue};

use super::algebra::Algebra;

/// Returns whether two amounts are equal: they have the same size, and one covers the other.
pub fn is_same<A: Algebra>(amount: &A, other: &A) -> bool
    ensures { IsTrue result ↔ (amount.now ≡ other.now) }
{
    let is_size = amount.amount() == other.amount();
    is_size && amount.covers(other)
}
