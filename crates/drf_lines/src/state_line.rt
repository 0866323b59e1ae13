//! Reads and writes the lines of a state.
ghost use Rattle.std.specs.Prelude.{◌≡◌, Ok, OnOk};
ghost use Rattle.drf_saved.specs.declared.saved.StateLine.TheVariants.{Row, End};
ghost use Rattle.drf_lines.specs.Fault.{IsReadOf};
ghost use Rattle.drf_lines.specs.LineValue.{line_view};
ghost use Rattle.drf_lines.specs.StateLine.{head_line, row_line, end_line};
ghost use Rattle.drf_lines.specs.StateMeaning.{head_in, end_in, state_line_in, state_line_meaning};
ghost use Rattle.drf_lines.specs.Written.{AppendsText};

use crate::agents::{push_agent_row, read_agent_row};
use crate::fault::{LineError, LineFault};
use crate::frameworks::{push_framework_row, read_framework_row};
use crate::held::{
    push_filter_row, push_offer_row, push_task_row, read_filter_row, read_offer_row, read_task_row,
};
use crate::limits::{push_limit_row, read_its_limit};
use crate::member::{put, put_byte, put_number, put_text};
use crate::object::{LineValue, keys, number_at, text_at};
use crate::weights::{push_weight_row, read_its_weight};
use crate::words::KnownWords;
use drf_rows::{LimitRow, WeightRow};
use drf_saved::{Head, SavedRow, StateLine};
use std::alloc::AllocError;

/// Reads the head of a state: its clock, the next offer number and the number of accepted events.
#[tactic(auto, unfolding(crate::specs::StateMeaning::head_in))]
fn read_head(value: &LineValue<'_>) -> Result<Head, LineError>
    ensures { IsReadOf result (head_in (line_view value.now)) }
{
    keys(value, 4)?;
    let clock = number_at(value, "clock")?;
    let events = number_at(value, "events")?;
    let next_offer = number_at(value, "next_offer")?;
    Ok(Head {
        clock,
        next_offer,
        events,
    })
}

/// Reads the end of a state. The number of lines and the digest must be there, but are not returned.
#[tactic(auto, unfolding(crate::specs::StateMeaning::end_in))]
fn read_end(value: &LineValue<'_>) -> Result<StateLine, LineError>
    ensures { IsReadOf result (end_in (line_view value.now)) }
{
    keys(value, 3)?;
    number_at(value, "rows")?;
    text_at(value, "sha256")?;
    Ok(StateLine::End)
}

/// Reads the head, a row or the end of a state.
#[tactic(auto, unfolding(crate::specs::StateMeaning::state_line_in))]
pub fn read_state_object(
    known: &mut KnownWords,
    value: &LineValue<'_>,
) -> Result<StateLine, LineError>
    ensures { IsReadOf result (state_line_in (line_view value.now)) }
{
    let row = match text_at(value, "row")? {
        "state" => return Ok(StateLine::Head(read_head(value)?)),
        "agent" => SavedRow::Agent(read_agent_row(known, value)?),
        "framework" => SavedRow::Framework(read_framework_row(known, value)?),
        "weight" => {
            let (role, weight) = read_its_weight(known, value)?;
            SavedRow::Weight(WeightRow { role, weight })
        }
        "limit" => {
            let (role, limit) = read_its_limit(known, value)?;
            SavedRow::Limit(LimitRow { role, limit })
        }
        "offer" => SavedRow::Offer(read_offer_row(known, value)?),
        "task" => SavedRow::Task(read_task_row(known, value)?),
        "filter" => SavedRow::Filter(read_filter_row(known, value)?),
        "end" => return read_end(value),
        _ => return Err(LineError::Fault(LineFault::BadShape)),
    };
    Ok(StateLine::Row(row))
}

/// Appends the first line of a state, as `push_row` does.
pub fn push_head(text: &mut Vec<u8>, head: &Head) -> Result<(), AllocError>
    ensures appends { AppendsText result text.old.items text.new.items (head_line head.now) }
    ensures read { OnOk result (state_line_meaning (head_line head.now) ≡ Ok (StateLine.Head head.now)) }
{
    put_number(text, "{\"clock\":", head.clock)?;
    put_number(text, ",\"events\":", head.events)?;
    put_number(text, ",\"next_offer\":", head.next_offer)?;
    put(text, ",\"row\":\"state\"}")
}

/// Appends the line of a row, without a line feed: compact JSON with its keys in byte order. Reading the line gives
/// this row. If memory runs out, a part of the line may have been appended.
pub fn push_row(text: &mut Vec<u8>, row: &SavedRow) -> Result<(), AllocError>
    ensures appends { AppendsText result text.old.items text.new.items (row_line row.now) }
    ensures read { OnOk result (state_line_meaning (row_line row.now) ≡ Ok (Row row.now)) }
{
    match row {
        SavedRow::Agent(agent) => push_agent_row(text, agent),
        SavedRow::Framework(framework) => push_framework_row(text, framework),
        SavedRow::Weight(weight) => push_weight_row(text, weight),
        SavedRow::Limit(limit) => push_limit_row(text, limit),
        SavedRow::Offer(offer) => push_offer_row(text, offer),
        SavedRow::Task(task) => push_task_row(text, task),
        SavedRow::Filter(filter) => push_filter_row(text, filter),
    }
}

/// Appends the last line of a state, as `push_row` does: the number of lines before it, and the digest of their bytes.
pub fn push_end(text: &mut Vec<u8>, rows: u64, sha256: &str) -> Result<(), AllocError>
    ensures appends { AppendsText result text.old.items text.new.items (end_line rows sha256.now) }
    ensures read { OnOk result (state_line_meaning (end_line rows sha256.now) ≡ Ok End) }
{
    put_number(text, "{\"row\":\"end\",\"rows\":", rows)?;
    put_text(text, ",\"sha256\":\"", sha256)?;
    put_byte(text, b'}')
}
