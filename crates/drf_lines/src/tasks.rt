//! Reads and writes the tasks of an accept: one under the keys `task` and `use`, or 1 to 16 in an array.
ghost use Rattle.std.specs.Prelude.{◌≡◌, ◌∷◌, ◌++◌, [], map, codes, true, Ok, OnOk};
ghost use Rattle.json.specs.Print.{escape};
ghost use Rattle.serde_json.specs.Data.{string, array, member, no_members};
ghost use Rattle.serde_json.specs.View.{items_of};
ghost use Rattle.serde_json.specs.Written.{compact_text, members_text};
ghost use Rattle.drf_text.specs.Written.{bundle_text};
ghost use Rattle.drf_lines.specs.Fault.{IsFoundAs, IsReadAs, IsReadOf};
ghost use Rattle.drf_lines.specs.LineValue.{line_view};
ghost use Rattle.drf_lines.specs.TaskTexts.{each_in, task_text, is_few, if_few, one_text, several_texts, task_texts, start_in, starts_in, start_text, task_value};
ghost use Rattle.drf_lines.specs.Written.{AppendsText};

use crate::fault::{LineError, LineFault};
use crate::member::{put_bundle, put_byte, put_comma, put_name};
use crate::object::{LineValue, find, keys, keys_besides, text_at, values_at};
use crate::words::{KnownWords, read_name};
use drf_bundle::Bundle;
use drf_role::Name;
use drf_rows::{MOST_TASKS, Table, TaskList};
use std::alloc::{AllocError, Global};

/// The name of a task and the resources that it uses, as the texts that were in the line.
#[derive(Clone, Copy)]
pub struct TaskText<'a> {
    name: &'a str,
    used: &'a str,
}

/// Reads the texts of a task from an object that has only the two keys.
#[tactic(auto, unfolding(crate::specs::TaskTexts::task_text))]
fn task_text<'a>(value: &LineValue<'a>) -> Result<TaskText<'a>, LineError>
    ensures { IsReadAs (λ text. (text.name.now, text.used.now)) result (task_text (line_view value.now)) }
{
    keys(value, 2)?;
    let name = text_at(value, "task")?;
    let used = text_at(value, "use")?;
    Ok(TaskText { name, used })
}

/// Reads the texts of the tasks from objects.
fn each_text<'a>(alloc: Global, values: &[LineValue<'a>]) -> Result<Table<TaskText<'a>>, LineError>
    ensures { IsReadAs (map (λ text. (text.name.now, text.used.now))) result (each_in task_text (map line_view values.now)) }
{
    let mut texts = Vec::with_capacity(alloc, values.len())?;
    for value in values {
        texts.push(task_text(value)?)?;
    }
    Ok(Table::from_vec(texts))
}

/// Returns whether the number of tasks is from 1 to 16.
fn is_few(count: usize) -> bool
    ensures { result ≡ is_few count }
{
    (1 <= count) & (count <= MOST_TASKS)
}

/// Returns the values if there are 1 to 16 of them, and otherwise fails with `BadShape`.
#[tactic(auto, unfolding(crate::specs::TaskTexts::if_few))]
fn if_few<'v, 'a>(values: &'v [LineValue<'a>]) -> Result<&'v [LineValue<'a>], LineFault>
    ensures { IsFoundAs (λ values. map line_view values.now) result (if_few (map line_view values.now)) }
{
    if !is_few(values.len()) {
        return Err(LineFault::BadShape);
    }
    Ok(values)
}

/// Reads the texts of the task of an accept that has no array of tasks.
#[tactic(auto, unfolding(crate::specs::TaskTexts::one_text))]
fn one_text<'a>(alloc: Global, value: &LineValue<'a>) -> Result<Table<TaskText<'a>>, LineError>
    ensures { IsReadAs (map (λ text. (text.name.now, text.used.now))) result (one_text (line_view value.now)) }
{
    keys_besides(value, "refuse_ms", 6)?;
    let name = text_at(value, "task")?;
    let used = text_at(value, "use")?;
    let mut texts = Vec::new(alloc);
    texts.push(TaskText { name, used })?;
    Ok(Table::from_vec(texts))
}

/// Reads the texts of the tasks of an accept that has an array of tasks.
#[tactic(auto, unfolding(crate::specs::TaskTexts::several_texts))]
fn several_texts<'a>(alloc: Global, value: &LineValue<'a>) -> Result<Table<TaskText<'a>>, LineError>
    ensures { IsReadAs (map (λ text. (text.name.now, text.used.now))) result (several_texts (line_view value.now)) }
{
    keys_besides(value, "refuse_ms", 5)?;
    let values = values_at(value, "tasks")?;
    let values = if_few(values)?;
    each_text(alloc, values)
}

/// Reads the texts of the tasks of an accept, and checks all keys of the accept.
#[tactic(auto, unfolding(crate::specs::TaskTexts::task_texts))]
pub fn task_texts<'a>(
    alloc: Global,
    value: &LineValue<'a>,
) -> Result<Table<TaskText<'a>>, LineError>
    ensures { IsReadAs (map (λ text. (text.name.now, text.used.now))) result (task_texts (line_view value.now)) }
{
    if find(value, "tasks").is_some() {
        return several_texts(alloc, value);
    }
    one_text(alloc, value)
}

/// Reads the name of a task and the resources that it uses.
#[tactic(auto, unfolding(crate::specs::TaskTexts::start_in))]
fn read_start(known: &mut KnownWords, text: &TaskText) -> Result<(Name, Bundle), LineError>
    ensures { IsReadOf result (start_in (text.now.name.now, text.now.used.now)) }
{
    let name = read_name(known.alloc, text.name)?;
    let used = known.bundle(text.used)?;
    Ok((name, used))
}

fn read_starts(
    known: &mut KnownWords,
    texts: &[TaskText],
) -> Result<Table<(Name, Bundle)>, LineError>
    ensures { IsReadOf result (each_in start_in (map (λ text. (text.name.now, text.used.now)) texts.now)) }
{
    let mut starts = Vec::with_capacity(known.alloc, texts.len())?;
    for text in texts {
        starts.push(read_start(known, text)?)?;
    }
    Ok(Table::from_vec(starts))
}

/// Returns the tasks as a `TaskList`. There are 1 to 16, because their number was checked before.
#[tactic(auto, unfolding(crate::specs::TaskTexts::if_few))]
fn task_list(tasks: Table<(Name, Bundle)>) -> Result<TaskList, LineFault>
    ensures { IsFoundAs (λ tasks. tasks) result (if_few tasks) }
{
    TaskList::new(tasks.into_vec()).ok_or(LineFault::BadShape)
}

/// Reads the tasks of an accept.
#[tactic(auto, unfolding(crate::specs::TaskTexts::starts_in))]
pub fn read_tasks(known: &mut KnownWords, texts: &[TaskText]) -> Result<TaskList, LineError>
    ensures { IsReadOf result (starts_in (map (λ text. (text.name.now, text.used.now)) texts.now)) }
{
    let starts = read_starts(known, texts)?;
    let tasks = task_list(starts)?;
    Ok(tasks)
}

/// Appends `before`, which ends with the opening quote of the name, then the task and the closing brace.
pub fn put_start(
    line: &mut Vec<u8>,
    text: &mut String,
    before: &str,
    task: &(Name, Bundle),
) -> Result<(), AllocError>
    ensures appends { AppendsText result line.old.items line.new.items (before.now ++ ((escape task.now.0 ++ 34 ∷ []) ++ members_text true (member (codes "use") (string (bundle_text task.now.1)) no_members))) }
    ensures read { OnOk result (start_in (start_text task.now) ≡ Ok task.now) }
{
    put_name(line, before, &task.0)?;
    put_bundle(line, text, ",\"use\":\"", &task.1)?;
    put_byte(line, b'}')
}

/// Appends the tasks as an array of objects, in their order.
pub fn put_task_list(
    line: &mut Vec<u8>,
    text: &mut String,
    tasks: &[(Name, Bundle)],
) -> Result<(), AllocError>
    ensures appends { AppendsText result line.old.items line.new.items (compact_text (array (items_of (map task_value tasks.now)))) }
    ensures read { OnOk result (each_in start_in (map start_text tasks.now) ≡ Ok tasks.now) }
{
    put_byte(line, b'[')?;
    for (i, task) in tasks.iter().enumerate() {
        put_comma(line, i)?;
        put_start(line, text, "{\"task\":\"", task)?;
    }
    put_byte(line, b']')
}
