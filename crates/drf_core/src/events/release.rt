//! Release of resources: offers and tasks end.
ghost use Rattle.std.specs.Prelude.{◌≡◌, ◌≤◌, IsTrue};
ghost use Rattle.drf_rows.specs.Consistent.{IsConsistent};
ghost use Rattle.drf_rows.specs.Releases.{without_ended};
ghost use Rattle.drf_rows.specs.declared.rows.Rows.{Rows};
ghost use Rattle.drf_tables.specs.offers.Ended.{left_to_end};
ghost use Rattle.drf_rows.specs.Ended.{release_of};
ghost use Rattle.drf_sorter.specs.Work.{Defers};
ghost use Rattle.drf_core.specs.Working.{losers, nodes_of};

use crate::cluster::Cluster;
use drf_role::ClientPath;
use drf_sorter::Sorter;
use drf_tables::Release;

/// Returns whether at most one offer or task can end: the offer of a number, or a task of a name.
fn is_one(release: Release) -> bool
    ensures { IsTrue result → (rows : Rows) → IsConsistent rows → left_to_end rows (release_of release.entry) ≤ 1 }
{
    match release {
        Release::Offer(_) => true,
        Release::Task { .. } => true,
        Release::OffersOn(_) => false,
        Release::AllOn(_) => false,
        Release::AllOf(_) => false,
    }
}

impl<S: Sorter> Cluster<S> {
    /// Ends all offers and tasks that `release` selects, one after the other, and refunds them to the sorter. It needs no memory.
    pub(crate) fn end(&mut self, release: Release)
        ensures rows { self.new.rows ≡ without_ended self.old.rows (release_of release.entry) }
        ensures spends { Defers S.COUNTED self.old.work self.new.work (nodes_of (losers self.old.rows (release_of release.entry))) }
    {
        // The rows are consistent, so at most one offer has a given number, and at most one task of a framework has a given name.
        self.tables.recall();
        while let Some(taken) = self.tables.end(release) {
            let client = ClientPath::from_parts(taken.role, taken.framework);
            self.sorter.refund(&client, taken.bundle.quantities());
            if is_one(release) {
                return;
            }
        }
    }
}
