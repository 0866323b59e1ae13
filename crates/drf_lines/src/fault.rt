//! The errors of lines.
ghost use Rattle.std.specs.Prelude.{◌≡◌};

use drf_role::{NameFault, RoleFault};
use std::alloc::{AllocError, AllocFailed};
use std::error::Error;
use std::fmt;

/// Why a line is not an event.
#[derive(Clone, Copy, Debug, PartialEq, Eq)]
pub enum LineFault {
    /// It has more than 65,536 bytes.
    LineTooLong,
    NotJson,
    BadShape,
    BadText,
}

impl LineFault {
    ghost use Rattle.drf_lines.specs.Fault.{fault_number, fault_name};

    /// Returns the number with which the error is reported.
    pub fn number(self) -> u64
        ensures { result ≡ fault_number self }
    {
        match self {
            LineFault::LineTooLong => 34,
            LineFault::NotJson => 31,
            LineFault::BadShape => 32,
            LineFault::BadText => 33,
        }
    }

    /// Returns the name with which the error is reported.
    pub fn name(self) -> &'static str
        ensures { result.now ≡ fault_name self }
    {
        match self {
            LineFault::LineTooLong => "LineTooLong",
            LineFault::NotJson => "NotJson",
            LineFault::BadShape => "BadShape",
            LineFault::BadText => "BadText",
        }
    }
}

// Written out, because no contract describes a derived message.
impl fmt::Display for LineFault {
    ghost use Rattle.std.specs.Prelude.{Some};
    ghost use Rattle.drf_lines.specs.Fault.{fault_text};

    ghost output = { λ fault. Some (fault_text fault) };

    fn fmt<W: fmt::Write>(&self, f: &mut fmt::Formatter<W>) -> fmt::Result {
        match self {
            LineFault::LineTooLong => f.write_str("too long"),
            LineFault::NotJson => f.write_str("not JSON"),
            LineFault::BadShape => f.write_str("not the shape of an event"),
            LineFault::BadText => f.write_str("a text is not what its key asks for"),
        }
    }
}

impl Error for LineFault {}

/// Why no event was read from a line: it is not an event, or memory ran out.
#[derive(Clone, Copy, Debug, PartialEq, Eq)]
pub enum LineError {
    Fault(LineFault),
    Memory,
}

impl fmt::Display for LineError {
    ghost use Rattle.std.specs.Prelude.{Some};
    ghost use Rattle.drf_lines.specs.Fault.{error_text};

    ghost output = { λ error. Some (error_text error) };

    fn fmt<W: fmt::Write>(&self, f: &mut fmt::Formatter<W>) -> fmt::Result {
        match self {
            LineError::Fault(fault) => fault.fmt(f),
            LineError::Memory => f.write_str("out of memory"),
        }
    }
}

impl Error for LineError {}

impl From<LineFault> for LineError {
    ghost use Rattle.drf_lines.specs.declared.fault.LineError.TheVariants.{Fault};

    ghost from_gives = { λ fault error. error ≡ Fault fault };

    fn from(fault: LineFault) -> LineError {
        LineError::Fault(fault)
    }
}

impl From<AllocError> for LineError {
    ghost use Rattle.drf_lines.specs.declared.fault.LineError.TheVariants.{Memory};

    ghost from_gives = { λ _ error. error ≡ Memory };

    fn from(_: AllocError) -> LineError {
        LineError::Memory
    }
}

impl<T: Drop> From<AllocFailed<T>> for LineError {
    ghost use Rattle.drf_lines.specs.declared.fault.LineError.TheVariants.{Memory};

    ghost from_gives = { λ _ error. error ≡ Memory };

    fn from(_: AllocFailed<T>) -> LineError {
        LineError::Memory
    }
}

impl From<NameFault> for LineError {
    ghost use Rattle.drf_lines.specs.Fault.{name_error};

    ghost from_gives = { λ fault error. error ≡ name_error fault };

    fn from(fault: NameFault) -> LineError {
        match fault {
            NameFault::BadName => LineError::Fault(LineFault::BadText),
            NameFault::Memory => LineError::Memory,
        }
    }
}

impl From<RoleFault> for LineError {
    ghost use Rattle.drf_lines.specs.Fault.{role_error};

    ghost from_gives = { λ fault error. error ≡ role_error fault };

    fn from(fault: RoleFault) -> LineError {
        match fault {
            RoleFault::BadRole => LineError::Fault(LineFault::BadText),
            RoleFault::Memory => LineError::Memory,
        }
    }
}
