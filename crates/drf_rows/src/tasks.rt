//! The list of tasks that an accept starts with parts of one offer.
ghost use Rattle.std.specs.Prelude.{◌≡◌, ◌≤◌, length, true, not, is_some, IfOk};
ghost use Rattle.std.specs.List.{list_all, list_any, AllByRecursion};
ghost use Rattle.std.specs.Option.{SomeIff};
ghost use Rattle.drf_role.specs.Text.{same_text};
ghost use Rattle.drf_bundle.specs.Bundle.{IsBundle, covers, join, key_of, units};
ghost use Rattle.drf_bundle.specs.Taken.{rest_of_all};
ghost use Rattle.drf_bundle.specs.Value.{Thousandths, units_in};
ghost use Rattle.drf_rows.specs.Consistent.{are_distinct};
ghost use Rattle.drf_rows.specs.Offers.{is_empty};
ghost use Rattle.drf_rows.specs.TaskLaws.{are_apart, is_enough};
ghost use Rattle.drf_rows.specs.Tasks.{IsTaskList, names_of, uses, covers_all};

use drf_amount::Algebra;
use drf_bundle::{Bundle, Resource, Value};
use drf_role::Name;
use std::alloc::{AllocError, Global};
use std::marker::Model;

/// The greatest number of tasks that one accept can start.
pub const MOST_TASKS: usize = 16;

/// The tasks that an accept starts: 1 to 16, each with its name and the part of the offer that it uses.
#[derive(Drop)]
pub struct TaskList {
    tasks: Vec<(Name, Bundle)>,
}

impl Model for TaskList {
    ghost use Rattle.std.specs.Prelude.{List};
    ghost use Rattle.drf_rows.specs.Tasks.{Start, IsTaskList};

    ghost Value = { List Start };

    ghost use Rattle.std.specs.Coded.{coded×, coded_ℕ, coded_list};
    ghost use Rattle.drf_bundle.specs.contracts.resource.Resource as resource;

    ghost coded = { coded_list (coded× (coded_list coded_ℕ) (coded_list resource.the_row.coded)) };

    ghost view = { λ l. l.tasks.items };

    ghost invariant = { λ l. IsTaskList l.tasks.items };
}

/// Proves that the parts that tasks use are valid bundles, from the invariant of `Bundle`.
fn recall(tasks: &[(Name, Bundle)])
    ensures { AllByRecursion IsBundle (uses tasks.now) }
{
    for task in tasks {
        task.1.recall();
    }
}

/// Returns whether no task has this name.
fn is_new(name: &Name, tasks: &[(Name, Bundle)]) -> bool
    ensures { result ≡ list_all (λ s. not (same_text name.now s.0)) tasks.now }
{
    for task in tasks {
        if *name == task.0 {
            return false;
        }
    }
    true
}

/// Returns whether all names differ.
fn are_distinct(tasks: &[(Name, Bundle)]) -> bool
    ensures { result ≡ are_distinct (names_of tasks.now) }
{
    let Some((first, others)) = tasks.split_first() else {
        return true;
    };
    is_new(&first.0, others) & are_distinct(others)
}

/// Returns whether a bundle is empty.
fn is_empty(bundle: &Bundle) -> bool
    ensures { result ≡ is_empty bundle.now }
{
    bundle.is_empty()
}

/// Returns whether some task uses nothing.
fn has_empty(tasks: &[(Name, Bundle)]) -> bool
    ensures { result ≡ list_any (λ s. is_empty s.1) tasks.now }
{
    for task in tasks {
        if is_empty(&task.1) {
            return true;
        }
    }
    false
}

/// Returns whether `whole` covers `part`.
fn covers(whole: &Bundle, part: &Bundle) -> bool
    ensures { result ≡ covers whole.now part.now }
{
    whole.covers(part)
}

/// Returns whether `whole` covers the part of each task on its own.
fn covers_each(whole: &Bundle, tasks: &[(Name, Bundle)]) -> bool
    ensures { result ≡ list_all (λ s. covers whole.now s.1) tasks.now }
{
    for task in tasks {
        if !covers(whole, &task.1) {
            return false;
        }
    }
    true
}

/// Returns whether two bundles have a join.
fn have_join(part: &Bundle, other: &Bundle) -> bool
    ensures { result ≡ is_some (join part.now other.now) }
{
    part.disjoint(other)
}

/// Returns whether `part` has a join with the part of each task.
fn is_apart(part: &Bundle, tasks: &[(Name, Bundle)]) -> bool
    ensures { result ≡ list_all (λ s. is_some (join part.now s.1)) tasks.now }
{
    for task in tasks {
        if !have_join(part, &task.1) {
            return false;
        }
    }
    true
}

/// Returns whether the parts of any two tasks have a join.
fn are_apart(tasks: &[(Name, Bundle)]) -> bool
    ensures { result ≡ are_apart (uses tasks.now) }
{
    let Some((first, others)) = tasks.split_first() else {
        return true;
    };
    is_apart(&first.1, others) & are_apart(others)
}

/// Returns the thousandths of a scalar, and 0 for any other value.
fn thousandths(value: &Value) -> u64
    ensures { result ≡ units_in value.now Thousandths }
{
    match value {
        Value::Scalar(scalar) => scalar.thousandths(),
        Value::Ranges(_) => 0,
        Value::Items(_) => 0,
    }
}

/// Returns the thousandths that a bundle has of a scalar, under the name and reservation of `resource`.
fn scalar_in(bundle: &Bundle, resource: &Resource) -> u64
    ensures { result ≡ units bundle.now (key_of resource.now) Thousandths }
{
    bundle.recall();
    match bundle.get(&resource.label, &resource.role) {
        Some(value) => thousandths(value),
        None => 0,
    }
}

/// Returns whether `whole` has enough of one scalar for all tasks together.
fn is_enough(whole: &Bundle, tasks: &[(Name, Bundle)], resource: &Resource) -> bool
    ensures { result ≡ is_enough whole.now (uses tasks.now) resource.now }
{
    let mut left = scalar_in(whole, resource);
    for task in tasks {
        let Some(rest) = left.checked_sub(scalar_in(&task.1, resource)) else {
            return false;
        };
        left = rest;
    }
    true
}

/// Returns whether `whole` has enough of each of these scalars for all tasks together.
fn has_enough(whole: &Bundle, tasks: &[(Name, Bundle)], resources: &[Resource]) -> bool
    ensures { result ≡ list_all (is_enough whole.now (uses tasks.now)) resources.now }
{
    for resource in resources {
        if !is_enough(whole, tasks, resource) {
            return false;
        }
    }
    true
}

impl TaskList {
    /// Returns the list of these tasks, or `None` if they are not 1 to 16. It allocates nothing.
    pub fn new(tasks: Vec<(Name, Bundle)>) -> Option<TaskList>
        ensures { SomeIff result ((1 ≤ length tasks.items) × (length tasks.items ≤ 16)) tasks.items }
    {
        recall(&tasks);
        if tasks.is_empty() || MOST_TASKS < tasks.len() {
            return None;
        }
        Some(TaskList { tasks })
    }

    /// Returns the tasks, in order.
    pub fn as_slice(&self) -> &[(Name, Bundle)]
        ensures value { result.now ≡ self.now }
        ensures right { IsTaskList self.now }
    {
        self.tasks.as_slice()
    }

    /// Returns the tasks, in order, in their `Vec`.
    pub fn into_vec(self) -> Vec<(Name, Bundle)>
        ensures value { result.items ≡ self }
        ensures right { IsTaskList self }
    {
        let TaskList { tasks } = self;
        tasks
    }

    /// Returns an equal list, or `AllocError` if memory runs out.
    pub fn copy(&self) -> Result<TaskList, AllocError>
        ensures { IfOk result (λ copy. copy ≡ self.now) }
    {
        let mut tasks = Vec::with_capacity(*self.tasks.allocator(), self.tasks.len())?;
        for task in &self.tasks {
            tasks.push((task.0.copy()?, task.1.copy()?))?;
        }
        Ok(TaskList { tasks })
    }

    /// Returns whether some task uses nothing.
    pub fn has_empty(&self) -> bool
        ensures { result ≡ list_any is_empty (uses self.now) }
    {
        has_empty(&self.tasks)
    }

    /// Returns whether all tasks have different names.
    pub fn are_distinct(&self) -> bool
        ensures { result ≡ are_distinct (names_of self.now) }
    {
        are_distinct(&self.tasks)
    }

    /// Returns whether the parts of all tasks have a join and `whole` covers it. It allocates nothing: it tests that
    /// each part is covered, that each two parts have a join, and that there is enough of each scalar for all.
    pub fn are_covered_by(&self, whole: &Bundle) -> bool
        ensures { result ≡ covers_all whole.now (uses self.now) }
    {
        let tasks = self.tasks.as_slice();
        covers_each(whole, tasks) & are_apart(tasks) & has_enough(whole, tasks, whole.entries())
    }

    /// Returns whether anything is left of `whole` besides the parts of the tasks. It allocates nothing.
    pub fn leave_any_of(&self, whole: &Bundle) -> bool
        requires { covers_all whole.now (uses self.now) ≡ true }
        ensures { result ≡ not (is_empty (rest_of_all whole.now (uses self.now))) }
    {
        let mut left = whole.amount();
        for task in &self.tasks {
            left = left.saturating_sub(task.1.amount());
        }
        0 < left
    }

    /// Returns the rest of `whole` without the parts of the tasks. Fails with `AllocError` if memory runs out.
    pub fn rest_of(&self, whole: &Bundle) -> Result<Bundle, AllocError>
        ensures { IfOk result (λ rest. rest ≡ rest_of_all whole.now (uses self.now)) }
    {
        whole.rest_of_all(&self.tasks)
    }
}
