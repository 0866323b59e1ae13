//! Sheets: the reports that a board publishes.
ghost use Rattle.std.specs.Prelude.{◌≡◌, IfOk};

use drf_rows::Report;
use std::alloc::AllocError;

/// What a viewer reads: the number of entries of the history, refused events included, and the report of shares after the last one. Events that led
/// to the rows with which the history begins are not counted.
#[derive(Drop)]
pub struct Sheet {
    pub events: u64,
    pub report: Report,
}

impl Sheet {
    /// Returns a copy. It fails only if memory runs out.
    pub fn copy(&self) -> Result<Sheet, AllocError>
        ensures { IfOk result (λ copy. copy ≡ self.now) }
    {
        Ok(Sheet {
            events: self.events,
            report: self.report.copy()?,
        })
    }
}
