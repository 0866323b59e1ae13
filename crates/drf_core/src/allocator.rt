//! The public type `Core`: an allocator that takes events and returns replies.
ghost use Rattle.std.specs.Prelude.{◌≡◌, ◌≤◌, ◌++◌, ◌-◌, false, None, length, vec_len, vec_capacity, IfOk, IfSome, OnOk, OnErr};
ghost use Rattle.drf_sorter.specs.Work.{SpendsOnOk};
ghost use Rattle.drf_core.specs.Working.{allowance, allowance_of_all, may_make_keys};
ghost use Rattle.drf_core.specs.Copies.{copies_if};
ghost use Rattle.drf_core.specs.Machine.{IsOpened, IsSafe, IsSame, IsAfter, IsAfterAll, HasStopped};

use crate::cluster::Cluster;
use crate::cycle::explain::Explanations;
use crate::stepped::Stepped;
use drf_explain::Finding;
use drf_hash::HashKey;
use drf_laws::given_law;
use drf_rows::{Event, Limits, Reply, Report, Rows};
use drf_sorter::Sorter;
use drf_tables::Tables;
use std::alloc::{AllocError, Global};
use std::marker::Model;

/// An allocator: its capacities, its rows, and a sorter. Any type that implements `Sorter` can be used.
pub struct Core<S: Sorter> {
    alloc: Global,
    limits: Limits,
    // On the heap, so that moving an allocator moves only a pointer.
    cluster: Box<Cluster<S>>,
}

// Written out, so that the proofs of callers that drop an allocator see one call, and not the drop of each field.
impl<S: Sorter> Drop for Core<S> {
    fn drop(self) {
        let Core {
            alloc: _alloc,
            limits: _limits,
            cluster: _cluster,
        } = self;
    }
}

impl<S: Sorter> Model for Core<S> {
    ghost use Rattle.drf_core.specs.Copies.{copies_if};
    ghost use Rattle.drf_core.specs.Machine.{Engine, engine_code};

    ghost Value = { Engine };

    ghost coded = { engine_code };

    ghost use Rattle.drf_core.specs.Keeping.{IsStanding};

    ghost view = { λ c. record { limits = c.limits; rows = c.cluster.value.rows; work = c.cluster.value.work } };

    ghost invariant = { λ c. IsStanding c.limits c.cluster.value.rows };
}

impl<S: Sorter> Core<S> {
    ghost use Rattle.std.specs.List.{list_any};
    ghost use Rattle.drf_rows.specs.Step.{live_rows, refusal_of, reply_to, replies_to};
    ghost use Rattle.drf_core.specs.refusal.Cases.{early_refusal_of};
    ghost use Rattle.drf_rows.specs.Report.{report_of};
    ghost use Rattle.drf_sorter.specs.Content.{IsSame as HoldsTheSame};
    ghost use Rattle.drf_content.specs.Content.{content_of};
    ghost use Rattle.drf_explain.specs.Each.{turns_by_agent};
    ghost use Rattle.drf_explain.specs.Explained.{explained};
    ghost use Rattle.drf_core.specs.Keeping.{IsStanding};
    ghost use Rattle.drf_saved_laws.specs.SavedLaws.{IsSaveable};
    ghost use Rattle.drf_rows.specs.declared.limits.TheConstants.{LATEST_TIMESTAMP};

    /// Returns an allocator without rows. Its hash key is always the same: use `open_keyed` if untrusted users choose names.
    pub fn open(alloc: Global, limits: Limits) -> Result<Core<S>, AllocError>
        ensures { IfOk result (IsOpened limits) }
    {
        Core::open_keyed(alloc, limits, HashKey::known())
    }

    /// Returns an allocator without rows, whose hashes of names begin with `key`. Users who choose names should not know the key.
    pub fn open_keyed(alloc: Global, limits: Limits, key: HashKey) -> Result<Core<S>, AllocError>
        ensures { IfOk result (IsOpened limits) }
    {
        // The contract of this call says that the capacities are within their maximums.
        let _ = limits.agents();
        Ok(Core {
            alloc,
            limits,
            cluster: Box::new(alloc, Cluster::open(alloc, key)?)?,
        })
    }

    /// Returns an allocator of these tables and this sorter. The sorter must hold what the rows say, and it must be possible to
    /// save the rows.
    pub fn assemble(
        alloc: Global,
        limits: Limits,
        tables: Tables,
        sorter: S,
    ) -> Result<Core<S>, AllocError>
        requires content { HoldsTheSame (S.content sorter) (content_of tables.rows) }
        requires standing { IsStanding limits tables.rows }
        ensures limits { IfOk result (λ core. core.limits ≡ limits) }
        ensures rows { IfOk result (λ core. core.rows ≡ tables.rows) }
        ensures work { IfOk result (λ core. core.work ≡ S.work sorter) }
    {
        Ok(Core {
            alloc,
            limits,
            cluster: Box::new(alloc, Cluster { tables, sorter })?,
        })
    }

    /// Applies an event and returns the reply. A refused event changes nothing; its reply is `Refused`.
    ///
    /// If memory runs out, the call returns an error, and neither the current state nor the clock changes. Then no early refusal
    /// applies: only `reserve`, `unreserve` and `set_agent` have refusals that can need memory. However the call ends, nothing is
    /// granted twice, and at most 65,537 filters are stored, including expired ones.
    ///
    /// If the call succeeds and the sorter counts its work, the event adds at most one key to this work for each node on the
    /// paths of the clients that it touches, and one for `set_weight`. `add_agent`, `remove_agent` and `set_agent` add at most
    /// one more for each node of a report. Only `cycle`, `add_framework` and `set_framework` events that are not refused compute
    /// keys.
    pub fn step(&mut self, event: Event) -> Result<Reply, AllocError>
        ensures reply { IfOk result (λ reply. reply ≡ reply_to self.old.limits self.old.rows event) }
        ensures ok { OnOk result (IsAfter self.old self.new event) }
        ensures err { OnErr result (IsSame self.old self.new) }
        ensures not_refused { OnErr result (early_refusal_of self.old.limits self.old.rows event ≡ None) }
        ensures safe { IsSafe (live_rows self.new.rows) }
        ensures spends { SpendsOnOk S.COUNTED result self.old.work self.new.work (allowance self.old.limits self.old.rows event) }
        ensures keys { may_make_keys event ≡ false → self.new.work.made ≡ self.old.work.made }
        ensures refused { IfSome (refusal_of self.old.limits self.old.rows event) (λ refusal. self.new.work.made ≡ self.old.work.made) }
        ensures filters { length self.new.rows.filters ≤ 65537 }
    {
        let Stepped {
            reply,
            copies: _copies,
        } = self.step_copied(event, false)?;
        Ok(reply)
    }

    /// Like `step`, but also returns two copies of the reply if `copied` is set. The copies are made before anything changes, so
    /// a caller that keeps a journal and receipts needs no memory after the step.
    pub fn step_copied(&mut self, event: Event, copied: bool) -> Result<Stepped, AllocError>
        ensures reply { IfOk result (λ stepped. stepped.reply ≡ reply_to self.old.limits self.old.rows event) }
        ensures copies { IfOk result (λ stepped. stepped.copies ≡ copies_if copied stepped.reply) }
        ensures ok { OnOk result (IsAfter self.old self.new event) }
        ensures err { OnErr result (IsSame self.old self.new) }
        ensures not_refused { OnErr result (early_refusal_of self.old.limits self.old.rows event ≡ None) }
        ensures safe { IsSafe (live_rows self.new.rows) }
        ensures spends { SpendsOnOk S.COUNTED result self.old.work self.new.work (allowance self.old.limits self.old.rows event) }
        ensures keys { may_make_keys event ≡ false → self.new.work.made ≡ self.old.work.made }
        ensures refused { IfSome (refusal_of self.old.limits self.old.rows event) (λ refusal. self.new.work.made ≡ self.old.work.made) }
        ensures filters { length self.new.rows.filters ≤ 65537 }
    {
        given_law(&event);
        let cluster = &mut *self.cluster;
        if let Some(refusal) = cluster.refusal(&self.limits, &event)? {
            return Ok(Stepped::refused(refusal, copied));
        }
        let stepped = cluster.apply(self.alloc, &self.limits, event, copied)?;
        cluster.count_event();
        Ok(stepped)
    }

    /// Proves that nothing is granted twice in the current state.
    fn prove_safe(&self)
        ensures { IsSafe (live_rows self.now.rows) }
    {
        let _ = self.limits.agents();
    }

    /// Like `step`, but borrows the event. An event that is refused early is not copied, so it needs no memory.
    fn step_borrowed(&mut self, event: &Event) -> Result<Reply, AllocError>
        ensures reply { IfOk result (λ reply. reply ≡ reply_to self.old.limits self.old.rows event.now) }
        ensures ok { OnOk result (IsAfter self.old self.new event.now) }
        ensures err { OnErr result (IsSame self.old self.new) }
        ensures not_refused { OnErr result (early_refusal_of self.old.limits self.old.rows event.now ≡ None) }
        ensures safe { IsSafe (live_rows self.new.rows) }
        ensures spends { SpendsOnOk S.COUNTED result self.old.work self.new.work (allowance self.old.limits self.old.rows event.now) }
        ensures keys { may_make_keys event.now ≡ false → self.new.work.made ≡ self.old.work.made }
    {
        self.prove_safe();
        if let Some(refusal) = self.cluster.early_refusal(&self.limits, event) {
            return Ok(Reply::Refused(refusal));
        }
        let event = event.copy()?;
        self.step(event)
    }

    /// Applies events in order, and appends their replies to `replies`.
    ///
    /// An error means that memory ran out. Then exactly the events whose replies were appended have been applied; and if there
    /// was room for one more reply, no early refusal applies to the next event. If the call succeeds and the sorter counts its
    /// work, the events add at most as many keys as `step` allows for each. However the call ends, nothing is granted twice, and
    /// keys are computed only if `cycle`, `add_framework` or `set_framework` is among the events.
    pub fn run(&mut self, events: &[Event], replies: &mut Vec<Reply>) -> Result<(), AllocError>
        ensures ok { OnOk result (IsAfterAll self.old self.new events.now) }
        ensures replies { OnOk result (replies.new.items ≡ replies.old.items ++ replies_to self.old.limits self.old.rows events.now) }
        ensures stopped { OnErr result (HasStopped self.old self.new events.now replies.old.items replies.new.items (vec_capacity replies.new - vec_len replies.new)) }
        ensures capacity { vec_capacity replies.old ≤ vec_capacity replies.new }
        ensures safe { IsSafe (live_rows self.new.rows) }
        ensures spends { SpendsOnOk S.COUNTED result self.old.work self.new.work (allowance_of_all self.old.limits self.old.rows events.now) }
        ensures keys { list_any may_make_keys events.now ≡ false → self.new.work.made ≡ self.old.work.made }
    {
        self.prove_safe();
        for event in events {
            replies.reserve(1)?;
            let reply = self.step_borrowed(event)?;
            replies.push_reserved(reply);
        }
        Ok(())
    }

    /// Returns the sorter, from which the order of the clients and the counted work can be read.
    pub fn sorter(&self) -> &S
        ensures content { HoldsTheSame (S.content result.now) (content_of self.now.rows) }
        ensures work { S.work result.now ≡ self.now.work }
    {
        self.cluster.sorter()
    }

    /// Returns the cluster's total, and what each node holds, with its shares and its count.
    pub fn report(&self) -> Result<Report, AllocError>
        ensures { IfOk result (λ report. report ≡ report_of self.now.rows) }
    {
        self.cluster.report()
    }

    /// Returns what a cycle at a timestamp (in milliseconds) would offer to each client, or why it would offer nothing. A
    /// timestamp before the clock counts as the clock, so 0 means the current time of the allocator.
    pub fn explain(&self, at: u64) -> Result<Vec<Finding>, AllocError>
        requires { at ≤ LATEST_TIMESTAMP }
        ensures { IfOk result (λ findings. findings.items ≡ explained (live_rows self.now.rows) at) }
    {
        self.cluster.explain(self.alloc, &self.limits, at)
    }

    /// Returns an explanation like that of `explain`, but agent by agent and with an outcome for each client that is not
    /// suppressed: on each active agent with free resources, clients are tried even if too little is left for an offer.
    /// Suppressed clients are not reported. It needs memory for a copy of the state and for the findings of one agent.
    pub fn explanations(&self, at: u64) -> Result<Explanations<S>, AllocError>
        requires { at ≤ LATEST_TIMESTAMP }
        ensures { IfOk result (λ explanations. explanations ≡ turns_by_agent (live_rows self.now.rows) at) }
    {
        self.cluster.explanations(self.alloc, &self.limits, at)
    }

    /// Returns the key of the hashes of names, for other tables of the same names. No contract mentions it.
    pub fn key(&self) -> HashKey {
        self.cluster.key()
    }

    /// Returns a separate allocator with the same rows and capacities.
    pub fn copy(&self) -> Result<Core<S>, AllocError>
        ensures { IfOk result (λ core. core ≡ self.now) }
    {
        Ok(Core {
            alloc: self.alloc,
            limits: self.limits,
            cluster: Box::new(self.alloc, self.cluster.copy()?)?,
        })
    }

    /// Returns the current state: the rows without expired filters. It is consistent, nothing is granted twice, and it can be
    /// saved.
    pub fn rows(&self) -> Result<Rows, AllocError>
        ensures rows { IfOk result (λ rows. rows ≡ live_rows self.now.rows) }
        ensures safe { IfOk result IsSafe }
        ensures saveable { IfOk result (IsSaveable self.now.limits) }
    {
        self.cluster.rows()
    }
}
