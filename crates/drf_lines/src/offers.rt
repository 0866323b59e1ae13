//! Reads and writes the events `accept`, `decline`, `rescind` and `finish`.
ghost use Rattle.std.specs.Prelude.{◌≡◌, ◌<◌, ◌^◌, ◌++◌, map, true, Ok, OnOk, codes, decimal};
ghost use Rattle.serde_json.specs.Written.{compact_text, members_text};
ghost use Rattle.drf_rows.specs.declared.event.Event.TheVariants.{Rescind, Finish};
ghost use Rattle.drf_lines.specs.Fault.{IsReadOf};
ghost use Rattle.drf_lines.specs.LineValue.{line_view};
ghost use Rattle.drf_lines.specs.TaskTexts.{each_in, start_in, start_text, several_members, tasks_members};
ghost use Rattle.drf_lines.specs.Spelled.{IsSpelled};
ghost use Rattle.drf_lines.specs.Written.{AppendsMembers, AppendsText};
ghost use Rattle.drf_lines.specs.OfferEvents.{refusal_member, offer_members, accept_event, accept_value, decline_event, decline_value, rescind_event, rescind_value, finish_event, finish_value};

use crate::fault::LineError;
use crate::member::{put, put_byte, put_name, put_number};
use crate::object::{LineValue, keys, keys_besides, number_at, number_or, text_at};
use crate::tasks::{put_start, put_task_list, read_tasks, task_texts};
use crate::words::{KnownWords, read_name};
use drf_bundle::Bundle;
use drf_role::Name;
use drf_rows::{Accept, Decline, Event};
use std::alloc::AllocError;

/// The default of `refuse_ms`, in milliseconds.
const USUAL_REFUSAL: u64 = 5000;

/// Reads an accept.
#[tactic(auto, unfolding(crate::specs::OfferEvents::accept_event))]
pub fn read_accept(known: &mut KnownWords, value: &LineValue<'_>) -> Result<Event, LineError>
    ensures { IsReadOf result (accept_event (line_view value.now)) }
{
    let tasks = task_texts(known.alloc, value)?;
    let framework = text_at(value, "framework")?;
    let offer = number_at(value, "offer")?;
    let at = number_at(value, "at")?;
    let refuse_ms = number_or(value, "refuse_ms", USUAL_REFUSAL)?;
    Ok(Event::Accept(Accept {
        framework: known.name(framework)?,
        offer,
        tasks: read_tasks(known, tasks.as_slice())?,
        at,
        refuse_ms,
    }))
}

/// Reads a decline.
#[tactic(auto, unfolding(crate::specs::OfferEvents::decline_event))]
pub fn read_decline(known: &mut KnownWords, value: &LineValue<'_>) -> Result<Event, LineError>
    ensures { IsReadOf result (decline_event (line_view value.now)) }
{
    keys_besides(value, "refuse_ms", 4)?;
    let framework = text_at(value, "framework")?;
    let offer = number_at(value, "offer")?;
    let at = number_at(value, "at")?;
    let refuse_ms = number_or(value, "refuse_ms", USUAL_REFUSAL)?;
    Ok(Event::Decline(Decline {
        framework: known.name(framework)?,
        offer,
        at,
        refuse_ms,
    }))
}

/// Reads a rescind.
#[tactic(auto, unfolding(crate::specs::OfferEvents::rescind_event))]
pub fn read_rescind(value: &LineValue<'_>) -> Result<Event, LineError>
    ensures { IsReadOf result (rescind_event (line_view value.now)) }
{
    keys(value, 2)?;
    let offer = number_at(value, "offer")?;
    Ok(Event::Rescind { offer })
}

/// Reads a finish.
#[tactic(auto, unfolding(crate::specs::OfferEvents::finish_event))]
pub fn read_finish(known: &mut KnownWords, value: &LineValue<'_>) -> Result<Event, LineError>
    ensures { IsReadOf result (finish_event (line_view value.now)) }
{
    keys(value, 3)?;
    let framework = text_at(value, "framework")?;
    let task = text_at(value, "task")?;
    Ok(Event::Finish {
        framework: known.name(framework)?,
        task: read_name(known.alloc, task)?,
    })
}

/// Appends `refuse_ms`, unless it is the default.
fn put_refusal(line: &mut Vec<u8>, refuse_ms: u64) -> Result<(), AllocError>
    ensures { AppendsMembers result line.old.items line.new.items (refusal_member refuse_ms) }
{
    if refuse_ms == USUAL_REFUSAL {
        return Ok(());
    }
    put_number(line, ",\"refuse_ms\":", refuse_ms)
}

/// Appends the opening brace and the timestamp `at`, in milliseconds.
fn put_timestamp(line: &mut Vec<u8>, at: u64) -> Result<(), AllocError>
    ensures appends { AppendsText result line.old.items line.new.items (codes "{\"at\":" ++ decimal at) }
    ensures small { at < 2 ^ 64 }
{
    put_number(line, "{\"at\":", at)
}

/// Appends the number of the offer, and `refuse_ms` unless it is the default.
fn put_answered(line: &mut Vec<u8>, offer: u64, refuse_ms: u64) -> Result<(), AllocError>
    ensures appends { AppendsMembers result line.old.items line.new.items (offer_members offer refuse_ms) }
    ensures small { (offer < 2 ^ 64) × (refuse_ms < 2 ^ 64) }
{
    put_number(line, ",\"offer\":", offer)?;
    put_refusal(line, refuse_ms)
}

/// Appends the tasks as an array, and the closing brace.
fn put_several(
    line: &mut Vec<u8>,
    text: &mut String,
    tasks: &[(Name, Bundle)],
) -> Result<(), AllocError>
    ensures appends { AppendsText result line.old.items line.new.items (members_text true (several_members tasks.now)) }
    ensures read { OnOk result (each_in start_in (map start_text tasks.now) ≡ Ok tasks.now) }
{
    put(line, ",\"tasks\":")?;
    put_task_list(line, text, tasks)?;
    put_byte(line, b'}')
}

/// Appends the tasks of an accept and the closing brace. A single task has its own keys instead of an array.
fn put_tasks(
    line: &mut Vec<u8>,
    text: &mut String,
    tasks: &[(Name, Bundle)],
) -> Result<(), AllocError>
    ensures appends { AppendsText result line.old.items line.new.items (members_text true (tasks_members tasks.now)) }
    ensures read { OnOk result (each_in start_in (map start_text tasks.now) ≡ Ok tasks.now) }
{
    match tasks {
        [task] => put_start(line, text, ",\"task\":\"", task),
        _ => put_several(line, text, tasks),
    }
}

/// Appends an accept.
pub fn put_accept(line: &mut Vec<u8>, accept: &Accept) -> Result<(), AllocError>
    ensures appends { AppendsText result line.old.items line.new.items (compact_text (accept_value accept.now)) }
    ensures read { OnOk result (IsSpelled (Event.Accept accept.now)) }
{
    let Accept {
        framework,
        offer,
        at,
        refuse_ms,
        tasks,
    } = accept;
    let mut text = String::new(*line.allocator());
    put_timestamp(line, *at)?;
    put_name(line, ",\"event\":\"accept\",\"framework\":\"", framework)?;
    put_answered(line, *offer, *refuse_ms)?;
    put_tasks(line, &mut text, tasks.as_slice())
}

/// Appends a decline.
pub fn put_decline(line: &mut Vec<u8>, decline: &Decline) -> Result<(), AllocError>
    ensures appends { AppendsText result line.old.items line.new.items (compact_text (decline_value decline.now)) }
    ensures read { OnOk result (IsSpelled (Event.Decline decline.now)) }
{
    let Decline {
        framework,
        offer,
        at,
        refuse_ms,
    } = decline;
    put_timestamp(line, *at)?;
    put_name(line, ",\"event\":\"decline\",\"framework\":\"", framework)?;
    put_answered(line, *offer, *refuse_ms)?;
    put_byte(line, b'}')
}

/// Appends a rescind.
pub fn put_rescind(line: &mut Vec<u8>, offer: u64) -> Result<(), AllocError>
    ensures appends { AppendsText result line.old.items line.new.items (compact_text (rescind_value offer)) }
    ensures read { OnOk result (IsSpelled (Rescind offer)) }
{
    put_number(line, "{\"event\":\"rescind\",\"offer\":", offer)?;
    put_byte(line, b'}')
}

/// Appends a finish.
pub fn put_finish(line: &mut Vec<u8>, framework: &Name, task: &Name) -> Result<(), AllocError>
    ensures appends { AppendsText result line.old.items line.new.items (compact_text (finish_value framework.now task.now)) }
    ensures read { OnOk result (IsSpelled (Finish framework.now task.now)) }
{
    put_name(line, "{\"event\":\"finish\",\"framework\":\"", framework)?;
    put_name(line, ",\"task\":\"", task)?;
    put_byte(line, b'}')
}
