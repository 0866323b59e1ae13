//! Reads and writes the events `reserve` and `unreserve`.
ghost use Rattle.std.specs.Prelude.{◌≡◌, Ok, OnOk};
ghost use Rattle.serde_json.specs.Written.{compact_text};
ghost use Rattle.drf_role.specs.Parts.{text_of};
ghost use Rattle.drf_text.specs.Written.{bundle_text};
ghost use Rattle.drf_lines.specs.Fault.{IsReadOf};
ghost use Rattle.drf_lines.specs.LineValue.{line_view};
ghost use Rattle.drf_lines.specs.ReservationEvents.{its_reservation, of_reservation};
ghost use Rattle.drf_lines.specs.Resources.{bundle_in};
ghost use Rattle.drf_lines.specs.Words.{name_in, role_in};
ghost use Rattle.drf_lines.specs.Written.{AppendsText};

use crate::fault::LineError;
use crate::member::{put_bundle, put_byte, put_name, put_role, put_text};
use crate::object::{LineValue, keys, text_at};
use crate::words::KnownWords;
use drf_bundle::Bundle;
use drf_role::{Name, Role};
use std::alloc::AllocError;

/// Reads the agent, the role and the resources of an event that has no other keys.
#[tactic(auto, unfolding(crate::specs::ReservationEvents::its_reservation))]
pub fn read_its_reservation(
    known: &mut KnownWords,
    value: &LineValue<'_>,
) -> Result<(Name, Role, Bundle), LineError>
    ensures { IsReadOf result (its_reservation (line_view value.now)) }
{
    keys(value, 4)?;
    let agent = text_at(value, "agent")?;
    let role = text_at(value, "role")?;
    let resources = text_at(value, "resources")?;
    Ok((
        known.name(agent)?,
        known.role(role)?,
        known.bundle(resources)?,
    ))
}

/// Appends an event that consists of an agent, a role and resources.
pub fn put_of_reservation(
    line: &mut Vec<u8>,
    event: &str,
    agent: &Name,
    role: &Role,
    resources: &Bundle,
) -> Result<(), AllocError>
    ensures appends { AppendsText result line.old.items line.new.items (compact_text (of_reservation event.now agent.now role.now resources.now)) }
    ensures read { OnOk result ((name_in agent.now ≡ Ok agent.now) × (role_in (text_of role.now) ≡ Ok role.now) × (bundle_in (bundle_text resources.now) ≡ Ok resources.now)) }
{
    let mut text = String::new(*line.allocator());
    put_name(line, "{\"agent\":\"", agent)?;
    put_text(line, ",\"event\":\"", event)?;
    put_bundle(line, &mut text, ",\"resources\":\"", resources)?;
    put_role(line, ",\"role\":\"", role)?;
    put_byte(line, b'}')
}
