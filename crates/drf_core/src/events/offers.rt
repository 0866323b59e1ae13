//! The effects of events of offers and tasks.
ghost use Rattle.std.specs.Prelude.{◌≡◌, ◌≤◌, true, OnOk, OnErr};
ghost use Rattle.drf_rows.specs.Consistent.{IsConsistent};
ghost use Rattle.drf_rows.specs.Offers.{CanAccept, has_offer};
ghost use Rattle.drf_rows.specs.Step.{effect};
ghost use Rattle.drf_rows.specs.declared.event.Event.TheVariants as event;
ghost use Rattle.drf_rows.specs.declared.limits.TheConstants.{LATEST_TIMESTAMP};
ghost use Rattle.drf_rows.specs.Releases.{one_offer, one_task};
ghost use Rattle.drf_sorter.specs.Work.{Defers, DefersOnOk};
ghost use Rattle.drf_core.specs.Working.{losers, nodes_of};

use crate::cluster::Cluster;
use drf_role::{ClientPath, Name};
use drf_rows::{Accept, Decline};
use drf_sorter::Sorter;
use drf_tables::Release;
use std::alloc::AllocError;

impl<S: Sorter> Cluster<S> {
    /// Ends an offer, and starts tasks with parts of it. The rest becomes free, and is filtered for `refuse_ms` milliseconds. If
    /// memory runs out, no row changes.
    pub(crate) fn accept(&mut self, accept: Accept) -> Result<(), AllocError>
        requires consistent { IsConsistent self.old.rows }
        requires can { CanAccept self.old.rows accept.offer accept.tasks }
        requires early { accept.at ≤ LATEST_TIMESTAMP }
        ensures ok { OnOk result (self.new.rows ≡ effect self.old.rows (event.Accept accept)) }
        ensures err { OnErr result (self.new.rows ≡ self.old.rows) }
        ensures spends { DefersOnOk S.COUNTED result self.old.work self.new.work (nodes_of (losers self.old.rows (one_offer accept.offer))) }
    {
        let taken = self.tables.accept(accept)?;
        let client = ClientPath::from_parts(taken.role, taken.framework);
        self.sorter.refund(&client, taken.bundle.quantities());
        Ok(())
    }

    /// Ends an offer, and filters its resources for `refuse_ms` milliseconds. If memory runs out, no row changes.
    pub(crate) fn decline(&mut self, decline: &Decline) -> Result<(), AllocError>
        requires consistent { IsConsistent self.old.rows }
        requires offer { has_offer self.old.rows decline.now.offer ≡ true }
        requires early { decline.now.at ≤ LATEST_TIMESTAMP }
        ensures ok { OnOk result (self.new.rows ≡ effect self.old.rows (event.Decline decline.now)) }
        ensures err { OnErr result (self.new.rows ≡ self.old.rows) }
        ensures spends { DefersOnOk S.COUNTED result self.old.work self.new.work (nodes_of (losers self.old.rows (one_offer decline.now.offer))) }
    {
        self.tables.filter_declined(decline)?;
        self.end(Release::Offer(decline.offer));
        Ok(())
    }

    /// Ends an offer. No filter is set.
    pub(crate) fn rescind(&mut self, number: u64)
        ensures rows { self.new.rows ≡ effect self.old.rows (event.Rescind number) }
        ensures spends { Defers S.COUNTED self.old.work self.new.work (nodes_of (losers self.old.rows (one_offer number))) }
    {
        self.end(Release::Offer(number));
    }

    /// Ends a task.
    pub(crate) fn finish(&mut self, framework: &Name, task: &Name)
        ensures rows { self.new.rows ≡ effect self.old.rows (event.Finish framework.now task.now) }
        ensures spends { Defers S.COUNTED self.old.work self.new.work (nodes_of (losers self.old.rows (one_task framework.now task.now))) }
    {
        let release = Release::Task {
            framework,
            name: task,
        };
        self.end(release);
    }
}
