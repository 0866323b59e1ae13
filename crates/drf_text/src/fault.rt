//! The errors that occur when resources are read from text.
ghost use Rattle.std.specs.Prelude.{◌≡◌};
ghost use Rattle.drf_text.specs.declared.fault.TextFault.TheVariants.{Memory};

use drf_amount::AlgebraFault;
use drf_kinds::RangesFault;
use drf_role::{NameFault, RoleFault};
use std::alloc::{AllocError, AllocFailed};
use thiserror::Error;

/// The error of reading bundles, quantities or weights. If a piece has several errors, the one that is listed first
/// here is returned. `Memory` may be returned instead of any error except those in the form and the name of the first
/// piece.
#[derive(Clone, Copy, Debug, PartialEq, Eq, Error)]
pub enum TextFault {
    /// A `:`, a bracket or a `-` is missing, or is where none is allowed.
    #[error("not a list of resources")]
    Syntax,
    #[error("not a name")]
    BadName,
    #[error("not a role")]
    BadRole,
    #[error("not a number")]
    BadNumber,
    /// A name is used with two kinds.
    #[error("a name has two kinds")]
    Kind,
    /// A member is under two reservations of the same name.
    #[error("a member stands under two reservations")]
    Overlap,
    /// The scalars of a name add up to more than 2^64 - 1 thousandths.
    #[error("a scalar is too large")]
    TooLarge,
    #[error("out of memory")]
    Memory,
}

impl From<AllocError> for TextFault {
    ghost from_gives = { λ _ fault. fault ≡ Memory };

    fn from(_error: AllocError) -> TextFault {
        TextFault::Memory
    }
}

impl<T: Drop> From<AllocFailed<T>> for TextFault {
    ghost from_gives = { λ _ fault. fault ≡ Memory };

    fn from(_error: AllocFailed<T>) -> TextFault {
        TextFault::Memory
    }
}

impl From<NameFault> for TextFault {
    ghost use Rattle.drf_text.specs.Faults.{fault_of_name};

    ghost from_gives = { λ refused fault. fault ≡ fault_of_name refused };

    fn from(refused: NameFault) -> TextFault {
        match refused {
            NameFault::BadName => TextFault::BadName,
            NameFault::Memory => TextFault::Memory,
        }
    }
}

impl From<RoleFault> for TextFault {
    ghost use Rattle.drf_text.specs.Faults.{fault_of_role};

    ghost from_gives = { λ refused fault. fault ≡ fault_of_role refused };

    fn from(refused: RoleFault) -> TextFault {
        match refused {
            RoleFault::BadRole => TextFault::BadRole,
            RoleFault::Memory => TextFault::Memory,
        }
    }
}

impl From<RangesFault> for TextFault {
    ghost use Rattle.drf_text.specs.Faults.{fault_of_ranges};

    ghost from_gives = { λ refused fault. fault ≡ fault_of_ranges refused };

    fn from(refused: RangesFault) -> TextFault {
        match refused {
            RangesFault::Backwards => TextFault::BadNumber,
            RangesFault::Memory => TextFault::Memory,
        }
    }
}

/// Converts the error of a union. Unions never return `NotCovered`.
impl From<AlgebraFault> for TextFault {
    ghost use Rattle.drf_text.specs.Meaning.{text_fault_of};

    ghost from_gives = { λ refused fault. fault ≡ text_fault_of refused };

    fn from(refused: AlgebraFault) -> TextFault {
        match refused {
            AlgebraFault::Kind => TextFault::Kind,
            AlgebraFault::Overlap => TextFault::Overlap,
            AlgebraFault::TooLarge => TextFault::TooLarge,
            AlgebraFault::NotCovered | AlgebraFault::Memory => TextFault::Memory,
        }
    }
}
