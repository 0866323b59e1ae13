//! Writes the line of an event.
ghost use Rattle.std.specs.Prelude.{◌≡◌, ◌≤◌, length, Ok, IfOk, OnOk};
ghost use Rattle.serde_json.specs.Written.{compact_text};
ghost use Rattle.drf_rows.specs.declared.event.Event.TheVariants.{Cycle, Report};
ghost use Rattle.drf_lines.specs.EventLine.{cycle_value, report_request, event_line};
ghost use Rattle.drf_lines.specs.Meaning.{meaning_of};
ghost use Rattle.drf_lines.specs.Spelled.{IsSpelled};
ghost use Rattle.drf_lines.specs.Written.{AppendsText};

use crate::agents::{put_of_agent, put_of_total};
use crate::frameworks::{put_of_client, put_of_framework, put_of_roles};
use crate::limits::put_set_limit;
use crate::member::{put, put_number};
use crate::offers::{put_accept, put_decline, put_finish, put_rescind};
use crate::reservations::put_of_reservation;
use crate::weights::put_set_weight;
use drf_rows::Event;
use std::alloc::{AllocError, Global};

fn put_cycle(line: &mut Vec<u8>, at: u64) -> Result<(), AllocError>
    ensures appends { AppendsText result line.old.items line.new.items (compact_text (cycle_value at)) }
    ensures read { OnOk result (IsSpelled (Cycle at)) }
{
    put_number(line, "{\"at\":", at)?;
    put(line, ",\"event\":\"cycle\"}")
}

fn put_report_request(line: &mut Vec<u8>) -> Result<(), AllocError>
    ensures appends { AppendsText result line.old.items line.new.items (compact_text report_request) }
    ensures read { OnOk result (IsSpelled Report) }
{
    put(line, "{\"event\":\"report\"}")
}

/// Appends the line of an event, without a line feed: compact JSON with its keys in byte order. If memory runs out, a
/// part of the line may have been appended.
#[tactic(auto, unfolding(crate::specs::EventLine::event_line))]
pub fn push_event(text: &mut Vec<u8>, event: &Event) -> Result<(), AllocError>
    ensures appends { AppendsText result text.old.items text.new.items (event_line event.now) }
    ensures read { OnOk result (IsSpelled event.now) }
{
    match event {
        Event::AddAgent { agent, total } => put_of_total(text, "add_agent", agent, total),
        Event::RemoveAgent { agent } => put_of_agent(text, "remove_agent", agent),
        Event::ActivateAgent { agent } => put_of_agent(text, "activate_agent", agent),
        Event::DeactivateAgent { agent } => put_of_agent(text, "deactivate_agent", agent),
        Event::SetAgent { agent, total } => put_of_total(text, "set_agent", agent, total),
        Event::AddFramework { framework, roles } => {
            put_of_roles(text, "add_framework", framework, roles.as_slice())
        }
        Event::SetFramework { framework, roles } => {
            put_of_roles(text, "set_framework", framework, roles.as_slice())
        }
        Event::RemoveFramework { framework } => {
            put_of_framework(text, "remove_framework", framework)
        }
        Event::Accept(accept) => put_accept(text, accept),
        Event::Decline(decline) => put_decline(text, decline),
        Event::Rescind { offer } => put_rescind(text, *offer),
        Event::Finish { framework, task } => put_finish(text, framework, task),
        Event::Suppress { framework, role } => put_of_client(text, "suppress", framework, role),
        Event::Revive { framework, role } => put_of_client(text, "revive", framework, role),
        Event::Reserve {
            agent,
            role,
            resources,
        } => put_of_reservation(text, "reserve", agent, role, resources),
        Event::Unreserve {
            agent,
            role,
            resources,
        } => put_of_reservation(text, "unreserve", agent, role, resources),
        Event::SetWeight { role, weight } => put_set_weight(text, role, *weight),
        Event::SetLimit { role, limit } => put_set_limit(text, role, limit),
        Event::Cycle { at } => put_cycle(text, *at),
        Event::Report => put_report_request(text),
    }
}

/// Returns the line of an event, without a line feed. Reading the line gives the event, if the line has at most 65,536
/// bytes.
pub fn write_event(alloc: Global, event: &Event) -> Result<Vec<u8>, AllocError>
    ensures line { IfOk result (λ line. line.items ≡ event_line event.now) }
    ensures read { IfOk result (λ line. length line.items ≤ 65536 → meaning_of line.items ≡ Ok event.now) }
{
    let mut line = Vec::new(alloc);
    push_event(&mut line, event)?;
    Ok(line)
}
