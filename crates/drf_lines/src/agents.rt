//! Reads and writes the events of agents and the rows of agents.
ghost use Rattle.std.specs.Prelude.{◌≡◌, Ok, OnOk};
ghost use Rattle.serde_json.specs.Written.{compact_text};
ghost use Rattle.drf_text.specs.Written.{bundle_text};
ghost use Rattle.drf_saved.specs.declared.saved.SavedRow.TheVariants.{Agent};
ghost use Rattle.drf_saved.specs.declared.saved.StateLine.TheVariants.{Row};
ghost use Rattle.drf_lines.specs.AgentEvents.{its_total, of_total, agent_of, of_agent};
ghost use Rattle.drf_lines.specs.AgentRows.{agent_row};
ghost use Rattle.drf_lines.specs.Fault.{IsReadOf};
ghost use Rattle.drf_lines.specs.LineValue.{line_view};
ghost use Rattle.drf_lines.specs.Resources.{bundle_in};
ghost use Rattle.drf_lines.specs.StateLine.{row_line};
ghost use Rattle.drf_lines.specs.StateMeaning.{state_line_meaning};
ghost use Rattle.drf_lines.specs.Words.{name_in};
ghost use Rattle.drf_lines.specs.Written.{AppendsText};

use crate::fault::LineError;
use crate::member::{put_boolean, put_bundle, put_byte, put_name, put_text};
use crate::object::{LineValue, boolean_at, keys, text_at};
use crate::words::KnownWords;
use drf_bundle::Bundle;
use drf_role::Name;
use drf_rows::AgentRow;
use std::alloc::AllocError;

/// Reads the agent and the total of an event that has no other keys.
#[tactic(auto, unfolding(crate::specs::AgentEvents::its_total))]
pub fn read_its_total(
    known: &mut KnownWords,
    value: &LineValue<'_>,
) -> Result<(Name, Bundle), LineError>
    ensures { IsReadOf result (its_total (line_view value.now)) }
{
    keys(value, 3)?;
    let agent = text_at(value, "agent")?;
    let total = text_at(value, "total")?;
    Ok((known.name(agent)?, known.bundle(total)?))
}

/// Appends an event that consists of an agent and its total.
pub fn put_of_total(
    line: &mut Vec<u8>,
    event: &str,
    agent: &Name,
    total: &Bundle,
) -> Result<(), AllocError>
    ensures appends { AppendsText result line.old.items line.new.items (compact_text (of_total event.now agent.now total.now)) }
    ensures read { OnOk result ((name_in agent.now ≡ Ok agent.now) × (bundle_in (bundle_text total.now) ≡ Ok total.now)) }
{
    let mut text = String::new(*line.allocator());
    put_name(line, "{\"agent\":\"", agent)?;
    put_text(line, ",\"event\":\"", event)?;
    put_bundle(line, &mut text, ",\"total\":\"", total)?;
    put_byte(line, b'}')
}

/// Reads the agent of an event that has no other key.
#[tactic(auto, unfolding(crate::specs::AgentEvents::agent_of))]
pub fn read_its_agent(known: &mut KnownWords, value: &LineValue<'_>) -> Result<Name, LineError>
    ensures { IsReadOf result (agent_of (line_view value.now)) }
{
    keys(value, 2)?;
    let agent = text_at(value, "agent")?;
    known.name(agent)
}

/// Appends an event that consists of an agent only.
pub fn put_of_agent(line: &mut Vec<u8>, event: &str, agent: &Name) -> Result<(), AllocError>
    ensures appends { AppendsText result line.old.items line.new.items (compact_text (of_agent event.now agent.now)) }
    ensures read { OnOk result (name_in agent.now ≡ Ok agent.now) }
{
    put_name(line, "{\"agent\":\"", agent)?;
    put_text(line, ",\"event\":\"", event)?;
    put_byte(line, b'}')
}

/// Reads the row of an agent.
#[tactic(auto, unfolding(crate::specs::AgentRows::agent_row))]
pub fn read_agent_row(known: &mut KnownWords, value: &LineValue<'_>) -> Result<AgentRow, LineError>
    ensures { IsReadOf result (agent_row (line_view value.now)) }
{
    keys(value, 4)?;
    let active = boolean_at(value, "active")?;
    let agent = text_at(value, "agent")?;
    let total = text_at(value, "total")?;
    Ok(AgentRow {
        name: known.name(agent)?,
        total: known.bundle(total)?,
        active,
    })
}

/// Appends the line of an agent's row, as `push_row` does.
pub fn push_agent_row(text: &mut Vec<u8>, row: &AgentRow) -> Result<(), AllocError>
    ensures appends { AppendsText result text.old.items text.new.items (row_line (Agent row.now)) }
    ensures read { OnOk result (state_line_meaning (row_line (Agent row.now)) ≡ Ok (Row (Agent row.now))) }
{
    let mut between = String::new(*text.allocator());
    put_boolean(text, "{\"active\":", row.active)?;
    put_name(text, ",\"agent\":\"", &row.name)?;
    put_bundle(
        text,
        &mut between,
        ",\"row\":\"agent\",\"total\":\"",
        &row.total,
    )?;
    put_byte(text, b'}')
}
