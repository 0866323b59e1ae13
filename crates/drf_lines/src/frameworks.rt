//! Reads and writes the events of frameworks and of their clients, and the rows of frameworks.
ghost use Rattle.std.specs.Prelude.{◌≡◌, map, Ok, OnOk};
ghost use Rattle.serde_json.specs.Data.{array};
ghost use Rattle.serde_json.specs.View.{items_of};
ghost use Rattle.serde_json.specs.Written.{compact_text};
ghost use Rattle.drf_role.specs.Parts.{text_of};
ghost use Rattle.drf_saved.specs.declared.saved.SavedRow.TheVariants.{Framework};
ghost use Rattle.drf_saved.specs.declared.saved.StateLine.TheVariants.{Row};
ghost use Rattle.drf_lines.specs.Fault.{IsReadOf};
ghost use Rattle.drf_lines.specs.LineValue.{line_view};
ghost use Rattle.drf_lines.specs.FrameworkEvents.{its_roles, role_value, of_roles, framework_of, of_framework, its_client, of_client};
ghost use Rattle.drf_lines.specs.FrameworkRows.{framework_row};
ghost use Rattle.drf_lines.specs.StateLine.{row_line};
ghost use Rattle.drf_lines.specs.StateMeaning.{state_line_meaning};
ghost use Rattle.drf_lines.specs.Words.{name_in, role_in, roles_in};
ghost use Rattle.drf_lines.specs.Written.{AppendsText};

use crate::clients::{client_texts, put_client_list, read_clients};
use crate::fault::LineError;
use crate::member::{put, put_byte, put_comma, put_name, put_role, put_text};
use crate::object::{LineValue, keys, text_at, texts_at, values_at};
use crate::words::KnownWords;
use drf_role::{Name, Role};
use drf_rows::{FrameworkRow, Table};
use std::alloc::AllocError;

/// Reads the roles of a framework. A role that is listed more than once is kept each time.
fn read_roles(known: &mut KnownWords, texts: &[&str]) -> Result<Table<Role>, LineError>
    ensures { IsReadOf result (roles_in (map (λ text. text.now) texts.now)) }
{
    let mut roles = Vec::with_capacity(known.alloc, texts.len())?;
    for text in texts {
        let role = known.role(text)?;
        roles.push(role)?;
    }
    Ok(Table::from_vec(roles))
}

/// Reads the framework and the roles of an event that has no other keys.
#[tactic(auto, unfolding(crate::specs::FrameworkEvents::its_roles))]
pub fn read_its_roles(
    known: &mut KnownWords,
    value: &LineValue<'_>,
) -> Result<(Name, Table<Role>), LineError>
    ensures { IsReadOf result (its_roles (line_view value.now)) }
{
    keys(value, 3)?;
    let framework = text_at(value, "framework")?;
    let roles = texts_at(known.alloc, value, "roles")?;
    Ok((known.name(framework)?, read_roles(known, &roles)?))
}

/// Appends the roles as an array of strings, in their order and with duplicates.
fn put_role_list(line: &mut Vec<u8>, roles: &[Role]) -> Result<(), AllocError>
    ensures appends { AppendsText result line.old.items line.new.items (compact_text (array (items_of (map role_value roles.now)))) }
    ensures read { OnOk result (roles_in (map text_of roles.now) ≡ Ok roles.now) }
{
    put_byte(line, b'[')?;
    for (i, role) in roles.iter().enumerate() {
        put_comma(line, i)?;
        put_role(line, "\"", role)?;
    }
    put_byte(line, b']')
}

/// Appends an event that consists of a framework and its roles.
pub fn put_of_roles(
    line: &mut Vec<u8>,
    event: &str,
    framework: &Name,
    roles: &[Role],
) -> Result<(), AllocError>
    ensures appends { AppendsText result line.old.items line.new.items (compact_text (of_roles event.now framework.now roles.now)) }
    ensures read { OnOk result ((name_in framework.now ≡ Ok framework.now) × (roles_in (map text_of roles.now) ≡ Ok roles.now)) }
{
    put_text(line, "{\"event\":\"", event)?;
    put_name(line, ",\"framework\":\"", framework)?;
    put(line, ",\"roles\":")?;
    put_role_list(line, roles)?;
    put_byte(line, b'}')
}

/// Reads the framework of an event that has no other key.
#[tactic(auto, unfolding(crate::specs::FrameworkEvents::framework_of))]
pub fn read_its_framework(known: &mut KnownWords, value: &LineValue<'_>) -> Result<Name, LineError>
    ensures { IsReadOf result (framework_of (line_view value.now)) }
{
    keys(value, 2)?;
    let framework = text_at(value, "framework")?;
    known.name(framework)
}

/// Appends an event that consists of a framework only.
pub fn put_of_framework(line: &mut Vec<u8>, event: &str, framework: &Name) -> Result<(), AllocError>
    ensures appends { AppendsText result line.old.items line.new.items (compact_text (of_framework event.now framework.now)) }
    ensures read { OnOk result (name_in framework.now ≡ Ok framework.now) }
{
    put_text(line, "{\"event\":\"", event)?;
    put_name(line, ",\"framework\":\"", framework)?;
    put_byte(line, b'}')
}

/// Reads the framework and the role of an event that has no other keys.
#[tactic(auto, unfolding(crate::specs::FrameworkEvents::its_client))]
pub fn read_its_client(
    known: &mut KnownWords,
    value: &LineValue<'_>,
) -> Result<(Name, Role), LineError>
    ensures { IsReadOf result (its_client (line_view value.now)) }
{
    keys(value, 3)?;
    let framework = text_at(value, "framework")?;
    let role = text_at(value, "role")?;
    Ok((known.name(framework)?, known.role(role)?))
}

/// Appends an event that consists of a framework and one of its roles.
pub fn put_of_client(
    line: &mut Vec<u8>,
    event: &str,
    framework: &Name,
    role: &Role,
) -> Result<(), AllocError>
    ensures appends { AppendsText result line.old.items line.new.items (compact_text (of_client event.now framework.now role.now)) }
    ensures read { OnOk result ((name_in framework.now ≡ Ok framework.now) × (role_in (text_of role.now) ≡ Ok role.now)) }
{
    put_text(line, "{\"event\":\"", event)?;
    put_name(line, ",\"framework\":\"", framework)?;
    put_role(line, ",\"role\":\"", role)?;
    put_byte(line, b'}')
}

/// Reads the row of a framework.
#[tactic(auto, unfolding(crate::specs::FrameworkRows::framework_row))]
pub fn read_framework_row(
    known: &mut KnownWords,
    value: &LineValue<'_>,
) -> Result<FrameworkRow, LineError>
    ensures { IsReadOf result (framework_row (line_view value.now)) }
{
    keys(value, 3)?;
    let clients = client_texts(known.alloc, values_at(value, "clients")?)?;
    let framework = text_at(value, "framework")?;
    Ok(FrameworkRow {
        name: known.name(framework)?,
        clients: read_clients(known, clients.as_slice())?,
    })
}

/// Appends the line of a framework's row, as `push_row` does.
pub fn push_framework_row(text: &mut Vec<u8>, row: &FrameworkRow) -> Result<(), AllocError>
    ensures appends { AppendsText result text.old.items text.new.items (row_line (Framework row.now)) }
    ensures read { OnOk result (state_line_meaning (row_line (Framework row.now)) ≡ Ok (Row (Framework row.now))) }
{
    put(text, "{\"clients\":")?;
    put_client_list(text, row.clients.as_slice())?;
    put_name(text, ",\"framework\":\"", &row.name)?;
    put(text, ",\"row\":\"framework\"}")
}
