//! Why a row may not follow others in a saved state.
ghost use Rattle.std.specs.Prelude.{◌≡◌};
ghost use Rattle.drf_saved.specs.Fault.{row_fault_number, row_fault_name};

use drf_rows::Refusal;

/// Why a row may not follow others, or why numbers may not be the head.
#[derive(Clone, Copy, PartialEq, Eq)]
pub enum RowFault {
    /// An event that added the row would be refused for this reason.
    Refused(Refusal),
    /// A row of a later table comes before it.
    OutOfOrder,
    /// A role occurs twice among the clients of a framework, among the weights or among the limits.
    KnownRole,
    /// The number of an offer, a count or the end of a filter contradicts the numbers before it.
    BadNumber,
}

impl RowFault {
    /// Returns the number of the error, as it is written.
    pub fn number(self) -> u64
        ensures { result ≡ row_fault_number self }
    {
        match self {
            RowFault::Refused(refusal) => refusal.number(),
            RowFault::OutOfOrder => 36,
            RowFault::KnownRole => 37,
            RowFault::BadNumber => 38,
        }
    }

    /// Returns the name of the error, as it is written.
    pub fn name(self) -> &'static str
        ensures { result.now ≡ row_fault_name self }
    {
        match self {
            RowFault::Refused(refusal) => refusal.name(),
            RowFault::OutOfOrder => "OutOfOrder",
            RowFault::KnownRole => "KnownRole",
            RowFault::BadNumber => "BadNumber",
        }
    }
}
