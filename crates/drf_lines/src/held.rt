//! Reads and writes the rows of what a client has on an agent: offers, tasks and filters.
ghost use Rattle.std.specs.Prelude.{◌≡◌, Ok, OnOk};
ghost use Rattle.drf_saved.specs.declared.saved.SavedRow.TheVariants.{Offer, Task, Filter};
ghost use Rattle.drf_saved.specs.declared.saved.StateLine.TheVariants.{Row};
ghost use Rattle.drf_lines.specs.Fault.{IsFoundAs, IsReadOf};
ghost use Rattle.drf_lines.specs.HeldRows.{owner_text, owner_in, offer_row, task_row, filter_row};
ghost use Rattle.drf_lines.specs.LineValue.{line_view};
ghost use Rattle.drf_lines.specs.StateLine.{row_line};
ghost use Rattle.drf_lines.specs.StateMeaning.{state_line_meaning};
ghost use Rattle.drf_lines.specs.Written.{AppendsText};

use crate::fault::{LineError, LineFault};
use crate::member::{put, put_bundle, put_byte, put_name, put_number, put_role};
use crate::object::{LineValue, keys, number_at, text_at};
use crate::words::{KnownWords, read_name};
use drf_role::{Name, Role};
use drf_rows::{FilterRow, OfferRow, TaskRow};
use std::alloc::AllocError;

/// The agent, framework and role of a row, as the texts that were in the line.
#[derive(Clone, Copy)]
struct OwnerText<'a> {
    agent: &'a str,
    framework: &'a str,
    role: &'a str,
}

#[tactic(auto, unfolding(crate::specs::HeldRows::owner_text))]
fn owner_text<'a>(value: &LineValue<'a>) -> Result<OwnerText<'a>, LineFault>
    ensures { IsFoundAs (λ owner. (owner.agent.now, owner.framework.now, owner.role.now)) result (owner_text (line_view value.now)) }
{
    let agent = text_at(value, "agent")?;
    let framework = text_at(value, "framework")?;
    let role = text_at(value, "role")?;
    Ok(OwnerText {
        agent,
        framework,
        role,
    })
}

#[tactic(auto, unfolding(crate::specs::HeldRows::owner_in))]
fn read_owner(known: &mut KnownWords, owner: &OwnerText) -> Result<(Name, Name, Role), LineError>
    ensures { IsReadOf result (owner_in (owner.now.agent.now, owner.now.framework.now, owner.now.role.now)) }
{
    Ok((
        known.name(owner.agent)?,
        known.name(owner.framework)?,
        known.role(owner.role)?,
    ))
}

/// Reads the row of an offer.
#[tactic(auto, unfolding(crate::specs::HeldRows::offer_row))]
pub fn read_offer_row(known: &mut KnownWords, value: &LineValue<'_>) -> Result<OfferRow, LineError>
    ensures { IsReadOf result (offer_row (line_view value.now)) }
{
    keys(value, 6)?;
    let owner = owner_text(value)?;
    let number = number_at(value, "offer")?;
    let resources = text_at(value, "resources")?;
    let (agent, framework, role) = read_owner(known, &owner)?;
    Ok(OfferRow {
        number,
        agent,
        framework,
        role,
        bundle: known.bundle(resources)?,
    })
}

/// Reads the row of a task.
#[tactic(auto, unfolding(crate::specs::HeldRows::task_row))]
pub fn read_task_row(known: &mut KnownWords, value: &LineValue<'_>) -> Result<TaskRow, LineError>
    ensures { IsReadOf result (task_row (line_view value.now)) }
{
    keys(value, 6)?;
    let owner = owner_text(value)?;
    let task = text_at(value, "task")?;
    let used = text_at(value, "use")?;
    let (agent, framework, role) = read_owner(known, &owner)?;
    Ok(TaskRow {
        name: read_name(known.alloc, task)?,
        agent,
        framework,
        role,
        bundle: known.bundle(used)?,
    })
}

/// Reads the row of a filter.
#[tactic(auto, unfolding(crate::specs::HeldRows::filter_row))]
pub fn read_filter_row(
    known: &mut KnownWords,
    value: &LineValue<'_>,
) -> Result<FilterRow, LineError>
    ensures { IsReadOf result (filter_row (line_view value.now)) }
{
    keys(value, 6)?;
    let owner = owner_text(value)?;
    let resources = text_at(value, "resources")?;
    let until = number_at(value, "until")?;
    let (agent, framework, role) = read_owner(known, &owner)?;
    Ok(FilterRow {
        framework,
        role,
        agent,
        bundle: known.bundle(resources)?,
        until,
    })
}

/// Appends the line of an offer's row, as `push_row` does.
pub fn push_offer_row(text: &mut Vec<u8>, row: &OfferRow) -> Result<(), AllocError>
    ensures appends { AppendsText result text.old.items text.new.items (row_line (Offer row.now)) }
    ensures read { OnOk result (state_line_meaning (row_line (Offer row.now)) ≡ Ok (Row (Offer row.now))) }
{
    let mut between = String::new(*text.allocator());
    put_name(text, "{\"agent\":\"", &row.agent)?;
    put_name(text, ",\"framework\":\"", &row.framework)?;
    put_number(text, ",\"offer\":", row.number)?;
    put_bundle(text, &mut between, ",\"resources\":\"", &row.bundle)?;
    put_role(text, ",\"role\":\"", &row.role)?;
    put(text, ",\"row\":\"offer\"}")
}

/// Appends the line of a task's row, as `push_row` does.
pub fn push_task_row(text: &mut Vec<u8>, row: &TaskRow) -> Result<(), AllocError>
    ensures appends { AppendsText result text.old.items text.new.items (row_line (Task row.now)) }
    ensures read { OnOk result (state_line_meaning (row_line (Task row.now)) ≡ Ok (Row (Task row.now))) }
{
    let mut between = String::new(*text.allocator());
    put_name(text, "{\"agent\":\"", &row.agent)?;
    put_name(text, ",\"framework\":\"", &row.framework)?;
    put_role(text, ",\"role\":\"", &row.role)?;
    put_name(text, ",\"row\":\"task\",\"task\":\"", &row.name)?;
    put_bundle(text, &mut between, ",\"use\":\"", &row.bundle)?;
    put_byte(text, b'}')
}

/// Appends the line of a filter's row, as `push_row` does.
pub fn push_filter_row(text: &mut Vec<u8>, row: &FilterRow) -> Result<(), AllocError>
    ensures appends { AppendsText result text.old.items text.new.items (row_line (Filter row.now)) }
    ensures read { OnOk result (state_line_meaning (row_line (Filter row.now)) ≡ Ok (Row (Filter row.now))) }
{
    let mut between = String::new(*text.allocator());
    put_name(text, "{\"agent\":\"", &row.agent)?;
    put_name(text, ",\"framework\":\"", &row.framework)?;
    put_bundle(text, &mut between, ",\"resources\":\"", &row.bundle)?;
    put_role(text, ",\"role\":\"", &row.role)?;
    put_number(text, ",\"row\":\"filter\",\"until\":", row.until)?;
    put_byte(text, b'}')
}
