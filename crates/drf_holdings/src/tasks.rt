//! `TaskTable`, the tasks in the order in which they were started.
ghost use Rattle.std.specs.Prelude.{◌≡◌, ◌==◌, ◌+◌, ◌^◌, ℕ, List, [], ◌∷◌, ◌++◌, map, flat_map, take, length, ◌<◌, ◌-◌, false, IfOk, OnOk, OnErr, MatchOption};
ghost use Rattle.std.specs.List.{list_any};
ghost use Rattle.drf_bundle.specs.Taken.{rest_of_all};
ghost use Rattle.drf_role.specs.Text.{same_text};
ghost use Rattle.drf_rows.specs.Holdings.{holding_of_task, parts_on};
ghost use Rattle.drf_rows.specs.Offers.{AreNew};
ghost use Rattle.drf_rows.specs.Releases.{is_task};
ghost use Rattle.drf_holdings.specs.Listed.{task_serial, task_row, serials_in, bundles_at, AreTasksListed, AreTasksKept};
ghost use Rattle.drf_holdings.specs.Rising.{IsRising};
ghost use Rattle.drf_holdings.specs.Taking.{IsTaken, HasNone};
ghost use Rattle.drf_holdings.specs.declared.tasks.Task.{Task};

use crate::by_number::{ByNumber, InOrder, Numbered};
use crate::index::Index;
use crate::names::Names;
use drf_amount::Algebra;
use drf_bundle::Bundle;
use drf_hash::HashKey;
use drf_role::Name;
use drf_rows::{Copied, Table, TaskRow};
use std::alloc::{AllocError, Global};
use std::collections::VecDeque;
use std::marker::Model;

/// A task, and its serial number, which increases with each task that is started.
#[derive(Drop)]
pub struct Task {
    pub row: TaskRow,
    pub(crate) serial: u64,
}

/// The serial numbers of tasks, by agent, and by framework and name.
#[derive(Drop)]
pub(crate) struct TaskIndex {
    pub(crate) agents: Index,
    pub(crate) names: Names,
}

impl TaskIndex {
    /// Returns an index without tasks. The hashes of names begin with `key`.
    fn new(alloc: Global, key: HashKey) -> TaskIndex
        ensures { AreTasksListed result [] }
    {
        TaskIndex {
            agents: Index::new(alloc, key),
            names: Names::new(alloc, key),
        }
    }

    /// Adds a task after the others. When out of memory, nothing changes.
    fn add(&mut self, task: &Task) -> Result<(), AllocError>
        requires { serials_in self.old.names (task.now.row.framework, task.now.row.name) ≡ [] }
        ensures ok { OnOk result ((tasks : List Task) → AreTasksListed self.old tasks → AreTasksListed self.new (tasks ++ task.now ∷ [])) }
        ensures err { OnErr result ((tasks : List Task) → AreTasksListed self.old tasks → AreTasksListed self.new tasks) }
    {
        self.names
            .add(&task.row.framework, &task.row.name, task.serial)?;
        match self.agents.add(&task.row.agent, task.serial) {
            Ok(()) => Ok(()),
            Err(error) => {
                let _ = self.names.take(&task.row.framework, &task.row.name);
                Err(error)
            }
        }
    }

    /// Removes a task.
    fn remove(&mut self, task: &Task)
        ensures { (before after : List Task) → IsRising (map task_serial (before ++ task.now ∷ after))
            → AreTasksListed self.old (before ++ task.now ∷ after) → AreTasksListed self.new (before ++ after) }
    {
        self.agents.remove(&task.row.agent, task.serial);
        let _ = self.names.take(&task.row.framework, &task.row.name);
    }
}

impl Numbered for Task {
    ghost use Rattle.drf_holdings.specs.Listed.{task_serial};

    ghost number = { task_serial };

    fn number(&self) -> u64 {
        self.serial
    }
}

/// Returns a bundle without the resources of the tasks with these serial numbers.
fn less_tasks(
    whole: Bundle,
    tasks: &ByNumber<Task>,
    serials: &VecDeque<u64>,
) -> Result<Bundle, AllocError>
    ensures { IfOk result (λ left. left ≡ rest_of_all whole (flat_map (bundles_at task_serial (λ t. t.row.bundle) tasks.now) serials.now.items)) }
{
    let mut left = whole;
    for serial in serials {
        let Some(task) = tasks.get(*serial) else {
            continue;
        };
        left = left.rest(&task.row.bundle)?;
    }
    Ok(left)
}

/// Removes the task with this serial number, and returns it.
fn take_task(tasks: &mut ByNumber<Task>, index: &mut TaskIndex, serial: u64) -> Option<Task>
    ensures taken { MatchOption result
        (HasNone (λ t. t.serial == serial) tasks.old tasks.new)
        (IsTaken (λ t. t.serial == serial) tasks.old tasks.new) }
    ensures kept { (next : ℕ) → AreTasksKept index.old tasks.old next → AreTasksKept index.new tasks.new next }
{
    let task = tasks.take(serial)?;
    index.remove(&task);
    Some(task)
}

/// Appends a task, with this serial number. When out of memory, nothing changes.
fn put_task(
    tasks: &mut ByNumber<Task>,
    index: &mut TaskIndex,
    serial: u64,
    row: TaskRow,
) -> Result<(), AllocError>
    requires kept { AreTasksKept index.old tasks.old serial }
    requires new { list_any (is_task row.framework row.name) (map task_row tasks.old) ≡ false }
    ensures ok { OnOk result (map task_row tasks.new ≡ map task_row tasks.old ++ row ∷ []) }
    ensures kept { OnOk result (AreTasksKept index.new tasks.new (serial + 1)) }
    ensures err { OnErr result ((tasks.new ≡ tasks.old) × AreTasksKept index.new tasks.new serial) }
{
    let task = Task { row, serial };
    index.add(&task)?;
    match tasks.push(task) {
        Ok(()) => Ok(()),
        Err(failed) => {
            index.remove(&failed.value);
            Err(AllocError::from(failed))
        }
    }
}

/// Returns the same tasks and an index of them, with the serial numbers 0, 1, and so on.
fn renumbered(
    alloc: Global,
    key: HashKey,
    tasks: &ByNumber<Task>,
) -> Result<(ByNumber<Task>, TaskIndex), AllocError>
    requires { AreNew [] (map task_row tasks.now) }
    ensures rows { IfOk result (λ made. map task_row made.0 ≡ map task_row tasks.now) }
    ensures kept { IfOk result (λ made. AreTasksKept made.1 made.0 (length made.0)) }
{
    let mut copy = ByNumber::new(alloc);
    let mut index = TaskIndex::new(alloc, key);
    let mut serial = 0;
    for task in tasks.values() {
        put_task(&mut copy, &mut index, serial, task.row.copy()?)?;
        serial += 1;
    }
    Ok((copy, index))
}

/// Returns a serial number that is greater than those of the tasks and less than `u64::MAX`. If there is none, all tasks are numbered
/// again. When out of memory, nothing changes.
fn next_serial(
    tasks: &mut ByNumber<Task>,
    index: &mut TaskIndex,
    next: u64,
) -> Result<u64, AllocError>
    requires { AreTasksKept index.old tasks.old next }
    ensures ok { IfOk result (λ serial. (serial < 2 ^ 64 - 1) × AreTasksKept index.new tasks.new serial) }
    ensures rows { map task_row tasks.new ≡ map task_row tasks.old }
    ensures err { OnErr result (AreTasksKept index.new tasks.new next) }
{
    if next < u64::MAX {
        return Ok(next);
    }
    let (copy, names) = renumbered(index.agents.alloc(), index.agents.key(), tasks)?;
    *tasks = copy;
    *index = names;
    Ok(tasks.len() as u64)
}

/// Tasks, whose names are distinct within a framework, and an index of them. Contracts see the list of their rows. Removing a task never
/// allocates.
#[derive(Drop)]
pub(crate) struct TaskTable {
    tasks: ByNumber<Task>,
    index: TaskIndex,
    // A serial number that is greater than those of the tasks.
    next: u64,
}

impl Model for TaskTable {
    ghost use Rattle.std.specs.Prelude.{List, map};
    ghost use Rattle.drf_rows.specs.declared.rows.TaskRow.{TaskRow};

    ghost Value = { List TaskRow };

    ghost use Rattle.std.specs.Coded.{coded_list};
    ghost use Rattle.drf_rows.specs.contracts.rows.TaskRow as task_row;

    ghost coded = { coded_list task_row.the_row.coded };

    ghost use Rattle.drf_holdings.specs.Listed.{task_row as row_of, AreTasksKept};

    ghost view = { λ t. map row_of t.tasks };

    ghost invariant = { λ t. AreTasksKept t.index t.tasks t.next };
}

impl TaskTable {
    /// Returns a table without tasks. The hashes of names begin with `key`.
    pub(crate) fn new(alloc: Global, key: HashKey) -> TaskTable
        ensures { result ≡ [] }
    {
        TaskTable {
            tasks: ByNumber::new(alloc),
            index: TaskIndex::new(alloc, key),
            next: 0,
        }
    }

    /// Returns the number of tasks.
    pub(crate) fn len(&self) -> usize
        ensures { result ≡ length self.now }
    {
        self.tasks.len()
    }

    /// Returns an iterator over the tasks, in the order in which they were started.
    pub(crate) fn tasks(&self) -> InOrder<'_, Task>
        ensures { map task_row result ≡ self.now }
    {
        self.tasks.values()
    }

    /// Returns copies of the tasks, in the order in which they were started.
    pub(crate) fn copies(&self, alloc: Global) -> Result<Table<TaskRow>, AllocError>
        ensures { IfOk result (λ rows. rows ≡ self.now) }
    {
        let mut copies = Vec::with_capacity(alloc, self.tasks.len())?;
        for task in self.tasks() {
            copies.push(task.row.copy()?)?;
        }
        Ok(Table::from_vec(copies))
    }

    /// Returns a copy of the table.
    pub(crate) fn copy(&self) -> Result<TaskTable, AllocError>
        ensures { IfOk result (λ copy. copy ≡ self.now) }
    {
        let (tasks, index) = renumbered(
            self.index.agents.alloc(),
            self.index.agents.key(),
            &self.tasks,
        )?;
        let next = tasks.len() as u64;
        Ok(TaskTable { tasks, index, next })
    }

    /// Returns whether the framework has a task with this name.
    pub(crate) fn has(&self, framework: &Name, name: &Name) -> bool
        ensures { result ≡ list_any (is_task framework.now name.now) self.now }
    {
        self.index.names.get(framework, name).is_some()
    }

    /// Returns a bundle without the resources of the tasks on an agent.
    pub(crate) fn left_of(&self, whole: Bundle, agent: &Name) -> Result<Bundle, AllocError>
        ensures { IfOk result (λ left. left ≡ rest_of_all whole (parts_on agent.now (map holding_of_task self.now))) }
    {
        match self.index.agents.list(agent) {
            Some(serials) => less_tasks(whole, &self.tasks, serials),
            None => Ok(whole),
        }
    }

    /// Appends a task. When out of memory, nothing changes.
    pub(crate) fn push(&mut self, row: TaskRow) -> Result<(), AllocError>
        requires { list_any (is_task row.framework row.name) self.old ≡ false }
        ensures ok { OnOk result (self.new ≡ self.old ++ row ∷ []) }
        ensures err { OnErr result (self.new ≡ self.old) }
    {
        let serial = next_serial(&mut self.tasks, &mut self.index, self.next)?;
        self.next = serial;
        put_task(&mut self.tasks, &mut self.index, serial, row)?;
        self.next = serial + 1;
        Ok(())
    }

    /// Removes the last task.
    fn pop(&mut self)
        ensures prefix { (count : ℕ) → count < length self.old → take count self.new ≡ take count self.old }
        ensures fewer { length self.new ≡ length self.old - 1 }
    {
        if let Some(task) = self.tasks.pop() {
            self.index.remove(&task);
        }
    }

    /// Removes the last tasks, until `count` are left.
    fn truncate(&mut self, count: usize)
        ensures { self.new ≡ take count self.old }
    {
        while count < self.tasks.len() {
            self.pop();
        }
    }

    /// Appends all of these tasks. When out of memory, those that were appended are removed again, and nothing changes.
    pub(crate) fn append(&mut self, rows: Vec<TaskRow>) -> Result<(), AllocError>
        requires { AreNew self.old rows.items }
        ensures ok { OnOk result (self.new ≡ self.old ++ rows.items) }
        ensures err { OnErr result (self.new ≡ self.old) }
    {
        let count = self.tasks.len();
        for row in rows {
            if let Err(error) = self.push(row) {
                self.truncate(count);
                return Err(error);
            }
        }
        Ok(())
    }

    /// Removes a task on an agent, and returns it.
    pub(crate) fn take_on(&mut self, agent: &Name) -> Option<TaskRow>
        ensures { MatchOption result
            (HasNone (λ t. same_text t.agent agent.now) self.old self.new)
            (IsTaken (λ t. same_text t.agent agent.now) self.old self.new) }
    {
        let serial = self.index.agents.last(agent)?;
        let task = take_task(&mut self.tasks, &mut self.index, serial)?;
        Some(task.row)
    }

    /// Removes a task of a framework, and returns it.
    pub(crate) fn take_of(&mut self, framework: &Name) -> Option<TaskRow>
        ensures { MatchOption result
            (HasNone (λ t. same_text t.framework framework.now) self.old self.new)
            (IsTaken (λ t. same_text t.framework framework.now) self.old self.new) }
    {
        let serial = self.index.names.last(framework)?;
        let task = take_task(&mut self.tasks, &mut self.index, serial)?;
        Some(task.row)
    }

    /// Removes the framework's task with this name, and returns it.
    pub(crate) fn take_named(&mut self, framework: &Name, name: &Name) -> Option<TaskRow>
        ensures { MatchOption result
            (HasNone (is_task framework.now name.now) self.old self.new)
            (IsTaken (is_task framework.now name.now) self.old self.new) }
    {
        let serial = self.index.names.take(framework, name)?;
        let task = self.tasks.take(serial)?;
        self.index.agents.remove(&task.row.agent, task.serial);
        Some(task.row)
    }
}
