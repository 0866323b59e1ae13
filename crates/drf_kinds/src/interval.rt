//! Intervals of numbers.
use smallvec::SmallVec;

/// The numbers from `first` to `last`, both included.
#[derive(Clone, Copy, Default, PartialEq, Eq)]
pub struct Interval {
    pub first: u32,
    pub last: u32,
}

/// Intervals in order. Most sets have one or two, which need no memory of their own.
pub(crate) type Intervals = SmallVec<Interval, 2>;
