//! The errors of reading a state.
ghost use Rattle.std.specs.Prelude.{◌≡◌};
ghost use Rattle.drf_state.specs.Fault.{state_fault_number, state_fault_name};

use drf_lines::{LineError, LineFault};
use drf_saved::RowFault;
use std::alloc::{AllocError, AllocFailed};

/// Why a line is not allowed at its place in a state.
#[derive(Clone, Copy, PartialEq, Eq)]
pub enum StateFault {
    /// It is not a line of a state.
    Line(LineFault),
    /// It is not in normal form: its content would be written differently.
    NotWritten,
    /// Its row, or its head, is not allowed after the lines before it.
    Row(RowFault),
    /// It is a last line, but its number of lines or its digest differs from those of the lines before it, or it is not
    /// in normal form.
    BadEnd,
}

impl StateFault {
    /// Returns the number with which the error is reported.
    pub fn number(self) -> u64
        ensures { result ≡ state_fault_number self }
    {
        match self {
            StateFault::Line(fault) => fault.number(),
            StateFault::NotWritten => 35,
            StateFault::Row(fault) => fault.number(),
            StateFault::BadEnd => 39,
        }
    }

    /// Returns the name with which the error is reported.
    pub fn name(self) -> &'static str
        ensures { result.now ≡ state_fault_name self }
    {
        match self {
            StateFault::Line(fault) => fault.name(),
            StateFault::NotWritten => "NotWritten",
            StateFault::Row(fault) => fault.name(),
            StateFault::BadEnd => "BadEnd",
        }
    }
}

/// Why a state was not read.
#[derive(Clone, Copy, PartialEq, Eq)]
pub enum StateError {
    /// The number of the first wrong line, which counts from 1, and its first error.
    Line { number: u64, fault: StateFault },
    /// Memory ran out.
    Memory,
}

impl From<AllocError> for StateError {
    ghost use Rattle.drf_state.specs.declared.fault.StateError.TheVariants.{Memory};

    ghost from_gives = { λ _ error. error ≡ Memory };

    fn from(_: AllocError) -> StateError {
        StateError::Memory
    }
}

impl<T: Drop> From<AllocFailed<T>> for StateError {
    ghost use Rattle.drf_state.specs.declared.fault.StateError.TheVariants.{Memory};

    ghost from_gives = { λ _ error. error ≡ Memory };

    fn from(_: AllocFailed<T>) -> StateError {
        StateError::Memory
    }
}

/// Why a row was not added, or a head not accepted.
#[derive(Clone, Copy, PartialEq, Eq)]
pub enum RestoreError {
    /// The first check that fails.
    Fault(RowFault),
    /// Memory ran out.
    Memory,
}

impl From<AllocError> for RestoreError {
    ghost use Rattle.drf_state.specs.declared.fault.RestoreError.TheVariants.{Memory};

    ghost from_gives = { λ _ error. error ≡ Memory };

    fn from(_: AllocError) -> RestoreError {
        RestoreError::Memory
    }
}

impl<T: Drop> From<AllocFailed<T>> for RestoreError {
    ghost use Rattle.drf_state.specs.declared.fault.RestoreError.TheVariants.{Memory};

    ghost from_gives = { λ _ error. error ≡ Memory };

    fn from(_: AllocFailed<T>) -> RestoreError {
        RestoreError::Memory
    }
}

/// Why a line was not taken.
#[derive(Clone, Copy, PartialEq, Eq)]
pub(crate) enum LineStop {
    /// Its first error.
    Fault(StateFault),
    /// Memory ran out.
    Memory,
}

impl From<AllocError> for LineStop {
    ghost use Rattle.drf_state.specs.declared.fault.LineStop.TheVariants.{Memory};

    ghost from_gives = { λ _ stop. stop ≡ Memory };

    fn from(_: AllocError) -> LineStop {
        LineStop::Memory
    }
}

impl From<LineError> for LineStop {
    ghost use Rattle.drf_state.specs.Fault.{stop_of_line};

    ghost from_gives = { λ error stop. stop ≡ stop_of_line error };

    fn from(error: LineError) -> LineStop {
        match error {
            LineError::Fault(fault) => LineStop::Fault(StateFault::Line(fault)),
            LineError::Memory => LineStop::Memory,
        }
    }
}

impl From<RestoreError> for LineStop {
    ghost use Rattle.drf_state.specs.Fault.{stop_of_row};

    ghost from_gives = { λ error stop. stop ≡ stop_of_row error };

    fn from(error: RestoreError) -> LineStop {
        match error {
            RestoreError::Fault(fault) => LineStop::Fault(StateFault::Row(fault)),
            RestoreError::Memory => LineStop::Memory,
        }
    }
}
