//! `Holdings`, the offers and tasks of all clients, and the release of their resources.
ghost use Rattle.std.specs.Prelude.{◌≡◌, ◌==◌, [], ◌∷◌, ◌++◌, Some, true, false, length, map, find, filter, not, nat_lt, IfOk, OnOk, OnErr, MatchOption, option_copied};
ghost use Rattle.std.specs.List.{list_any};
ghost use Rattle.drf_bundle.specs.Taken.{rest_of_all};
ghost use Rattle.drf_rows.specs.Releases.{ends_offer, ends_task, is_task};
ghost use Rattle.drf_rows.specs.Holdings.{parts_on};
ghost use Rattle.drf_rows.specs.Offers.{task_of, AreNew};
ghost use Rattle.drf_rows.specs.declared.rows.OfferRow.{OfferRow};
ghost use Rattle.drf_rows.specs.Ended.{release_of};
ghost use Rattle.drf_holdings.specs.Listed.{offer_number, task_row};
ghost use Rattle.drf_holdings.specs.Rising.{IsRising};
ghost use Rattle.drf_holdings.specs.Stored.{HasTaken, HasStarted, holdings_in};
ghost use Rattle.drf_holdings.specs.Taking.{IsTaken, HasNone};

use crate::by_number::InOrder;
use crate::offers::OfferTable;
use crate::tasks::{Task, TaskTable};
use drf_bundle::Bundle;
use drf_hash::HashKey;
use drf_role::{Name, Role};
use drf_rows::{OfferRow, Release, Table, TaskList, TaskRow};
use std::alloc::{AllocError, Global};
use std::marker::Model;

/// An offer or a task that was removed.
#[derive(Drop)]
pub struct Taken {
    pub agent: Name,
    pub role: Role,
    pub framework: Name,
    pub bundle: Bundle,
}

/// Removes an offer that the ending selects, and returns it. Returns `None` if there is none.
fn take_offer(offers: &mut OfferTable, release: Release) -> Option<OfferRow>
    ensures { MatchOption result
        (HasNone (ends_offer (release_of release.entry)) offers.old offers.new)
        (IsTaken (ends_offer (release_of release.entry)) offers.old offers.new) }
{
    match release {
        Release::Offer(number) => offers.take(number),
        Release::Task { .. } => None,
        Release::OffersOn(agent) => offers.take_on(agent),
        Release::AllOn(agent) => offers.take_on(agent),
        Release::AllOf(framework) => offers.take_of(framework),
    }
}

/// Removes a task that the ending selects, and returns it. Returns `None` if there is none.
fn take_task(tasks: &mut TaskTable, release: Release) -> Option<TaskRow>
    ensures { MatchOption result
        (HasNone (ends_task (release_of release.entry)) tasks.old tasks.new)
        (IsTaken (ends_task (release_of release.entry)) tasks.old tasks.new) }
{
    match release {
        Release::Offer(_) => None,
        Release::Task { framework, name } => tasks.take_named(framework, name),
        Release::OffersOn(_) => None,
        Release::AllOn(agent) => tasks.take_on(agent),
        Release::AllOf(framework) => tasks.take_of(framework),
    }
}

/// Returns the tasks that are started with parts of an offer, in the given order.
fn task_rows(offer: &OfferRow, tasks: Vec<(Name, Bundle)>) -> Result<Vec<TaskRow>, AllocError>
    ensures { IfOk result (λ rows. rows.items ≡ map (task_of offer.now) tasks.items) }
{
    let mut rows = Vec::with_capacity(*tasks.allocator(), tasks.len())?;
    for (name, bundle) in tasks {
        rows.push(TaskRow {
            name,
            agent: offer.agent.copy()?,
            framework: offer.framework.copy()?,
            role: offer.role.copy()?,
            bundle,
        })?;
    }
    Ok(rows)
}

/// The offers and tasks of all clients. Contracts see their lists. Removing a holding never allocates. Apart from searches by number, a
/// call looks only at the holdings that it is about, except when it closes free slots or numbers all tasks again. This is not proved.
#[derive(Drop)]
pub struct Holdings {
    offers: OfferTable,
    tasks: TaskTable,
}

impl Model for Holdings {
    ghost use Rattle.drf_holdings.specs.Stored.{OffersAndTasks, offers_and_tasks_code};

    ghost Value = { OffersAndTasks };

    ghost coded = { offers_and_tasks_code };

    ghost view = { λ h. record { offers = h.offers; tasks = h.tasks } };
}

impl Holdings {
    /// Returns a table without offers and tasks. The hashes of names begin with `key`.
    pub fn new(alloc: Global, key: HashKey) -> Holdings
        ensures offers { result.offers ≡ [] }
        ensures tasks { result.tasks ≡ [] }
    {
        Holdings {
            offers: OfferTable::new(alloc, key),
            tasks: TaskTable::new(alloc, key),
        }
    }

    /// Returns the number of offers.
    pub fn offer_count(&self) -> usize
        ensures { result ≡ length self.now.offers }
    {
        self.offers.len()
    }

    /// Returns the number of tasks.
    pub fn task_count(&self) -> usize
        ensures { result ≡ length self.now.tasks }
    {
        self.tasks.len()
    }

    /// Returns an iterator over the offers, in order of number.
    pub fn offers(&self) -> InOrder<'_, OfferRow>
        ensures { result ≡ self.now.offers }
    {
        self.offers.rows()
    }

    /// Returns an iterator over the offers whose numbers are at least this one, in order of number.
    pub fn offers_from(&self, number: u64) -> InOrder<'_, OfferRow>
        ensures { result ≡ filter (λ o. not (nat_lt o.number number)) self.now.offers }
    {
        self.offers.from(number)
    }

    /// Returns an iterator over the tasks, in the order in which they were started.
    pub fn tasks(&self) -> InOrder<'_, Task>
        ensures { map task_row result ≡ self.now.tasks }
    {
        self.tasks.tasks()
    }

    /// Returns copies of the offers, in order of number.
    pub fn copy_offers(&self, alloc: Global) -> Result<Table<OfferRow>, AllocError>
        ensures { IfOk result (λ rows. rows ≡ self.now.offers) }
    {
        self.offers.copies(alloc)
    }

    /// Returns copies of the tasks, in the order in which they were started.
    pub fn copy_tasks(&self, alloc: Global) -> Result<Table<TaskRow>, AllocError>
        ensures { IfOk result (λ rows. rows ≡ self.now.tasks) }
    {
        self.tasks.copies(alloc)
    }

    pub fn copy(&self) -> Result<Holdings, AllocError>
        ensures { IfOk result (λ copy. copy ≡ self.now) }
    {
        Ok(Holdings {
            offers: self.offers.copy()?,
            tasks: self.tasks.copy()?,
        })
    }

    /// Returns the offer with this number.
    pub fn offer(&self, number: u64) -> Option<&OfferRow>
        ensures { option_copied result ≡ find (λ o. o.number == number) self.now.offers }
    {
        self.offers.get(number)
    }

    /// Returns whether the framework has a task with this name.
    pub fn has_task(&self, framework: &Name, name: &Name) -> bool
        ensures { result ≡ list_any (is_task framework.now name.now) self.now.tasks }
    {
        self.tasks.has(framework, name)
    }

    /// Returns `total` without the resources held on the agent. It fails only when out of memory.
    pub fn left_on(&self, agent: &Name, total: &Bundle) -> Result<Bundle, AllocError>
        ensures { IfOk result (λ left. left ≡ rest_of_all total.now (parts_on agent.now (holdings_in self.now))) }
    {
        self.tasks
            .left_of(self.offers.left_of(total, agent)?, agent)
    }

    /// Removes an offer or a task that the ending selects, and returns it. Returns `None` if there is none. It never allocates.
    pub fn take(&mut self, release: Release) -> Option<Taken>
        ensures { HasTaken (release_of release.entry) self.old self.new result }
    {
        if let Some(offer) = take_offer(&mut self.offers, release) {
            return Some(Taken {
                agent: offer.agent,
                role: offer.role,
                framework: offer.framework,
                bundle: offer.bundle,
            });
        }
        let task = take_task(&mut self.tasks, release)?;
        Some(Taken {
            agent: task.agent,
            role: task.role,
            framework: task.framework,
            bundle: task.bundle,
        })
    }

    /// Moves all of these offers to the end of the list of offers. When out of memory, neither list changes.
    pub fn append(&mut self, offers: &mut Vec<OfferRow>) -> Result<(), AllocError>
        requires { IsRising (map offer_number (self.old.offers ++ offers.old.items)) }
        ensures ok { OnOk result (self.new.offers ≡ self.old.offers ++ offers.old.items) }
        ensures moved { OnOk result (offers.new.items ≡ []) }
        ensures tasks { self.new.tasks ≡ self.old.tasks }
        ensures err { OnErr result ((self.new ≡ self.old) × (offers.new.items ≡ offers.old.items)) }
    {
        self.offers.append(offers)
    }

    /// Appends a task. When out of memory, nothing changes.
    pub fn put_task(&mut self, task: TaskRow) -> Result<(), AllocError>
        requires { list_any (is_task task.framework task.name) self.old.tasks ≡ false }
        ensures ok { OnOk result (self.new.tasks ≡ self.old.tasks ++ task ∷ []) }
        ensures offers { self.new.offers ≡ self.old.offers }
        ensures err { OnErr result (self.new ≡ self.old) }
    {
        self.tasks.push(task)
    }

    /// Replaces an offer by tasks that are started with parts of it, and returns the offer. When out of memory, nothing changes.
    pub fn start(&mut self, number: u64, tasks: TaskList) -> Result<OfferRow, AllocError>
        requires there { list_any (λ o. o.number == number) self.old.offers ≡ true }
        requires new { (o : OfferRow) → find (λ p. p.number == number) self.old.offers ≡ Some o
            → AreNew self.old.tasks (map (task_of o) tasks) }
        ensures ok { IfOk result (HasStarted number tasks self.old self.new) }
        ensures err { OnErr result (self.new ≡ self.old) }
    {
        let offer = self.offers.get(number).unwrap();
        let rows = task_rows(offer, tasks.into_vec())?;
        self.tasks.append(rows)?;
        Ok(self.offers.take(number).unwrap())
    }
}
