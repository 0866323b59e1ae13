//! The reply to `report`.
ghost use Rattle.std.specs.Prelude.{◌≡◌, ◌<◌, ◌≤◌, ◌^◌, length, IfOk};
ghost use Rattle.drf_rows.specs.Consistent.{IsConsistent};
ghost use Rattle.drf_rows.specs.Report.{report_of};

use crate::cluster::Cluster;
use drf_rows::{Report, SharedTable};
use drf_sorter::Sorter;
use std::alloc::AllocError;

impl<S: Sorter> Cluster<S> {
    /// Returns the cluster's total, and what each node holds, with its shares and its count.
    pub(crate) fn report(&self) -> Result<Report, AllocError>
        requires consistent { IsConsistent self.now.rows }
        requires few_agents { length self.now.rows.agents ≤ 4096 }
        requires few_offers { self.now.rows.next_offer < 2 ^ 64 }
        ensures { IfOk result (λ report. report ≡ report_of self.now.rows) }
    {
        let mut total = self.tables.total().copy()?;
        total.remove_zeros();
        Ok(Report {
            total,
            nodes: SharedTable::from_vec(self.sorter.lines()?)?,
        })
    }
}
