//! Reads and writes the clients in the row of a framework.
ghost use Rattle.std.specs.Prelude.{map, All, OnOk};
ghost use Rattle.serde_json.specs.Data.{array};
ghost use Rattle.serde_json.specs.View.{items_of};
ghost use Rattle.serde_json.specs.Written.{compact_text};
ghost use Rattle.drf_lines.specs.Fault.{IsReadAs, IsReadOf};
ghost use Rattle.drf_lines.specs.FrameworkRows.{client_text, client_in, client_value, IsClientRead};
ghost use Rattle.drf_lines.specs.LineValue.{line_view};
ghost use Rattle.drf_lines.specs.TaskTexts.{each_in};
ghost use Rattle.drf_lines.specs.Written.{AppendsText};

use crate::fault::LineError;
use crate::member::{put_boolean, put_byte, put_comma, put_number, put_role};
use crate::object::{LineValue, boolean_at, keys, number_at, text_at};
use crate::words::KnownWords;
use drf_rows::{ClientRow, Table};
use std::alloc::{AllocError, Global};

/// A client whose role is still the text that was in the line.
#[derive(Clone, Copy)]
pub struct ClientText<'a> {
    role: &'a str,
    count: u64,
    suppressed: bool,
}

/// Reads a client, with its role as text, from an object that has only the three keys.
#[tactic(auto, unfolding(crate::specs::FrameworkRows::client_text))]
fn client_text<'a>(value: &LineValue<'a>) -> Result<ClientText<'a>, LineError>
    ensures { IsReadAs (λ client. (client.role.now, client.count, client.suppressed)) result (client_text (line_view value.now)) }
{
    keys(value, 3)?;
    let count = number_at(value, "count")?;
    let role = text_at(value, "role")?;
    let suppressed = boolean_at(value, "suppressed")?;
    Ok(ClientText {
        role,
        count,
        suppressed,
    })
}

/// Reads the clients, with their roles as texts, from objects.
pub fn client_texts<'a>(
    alloc: Global,
    values: &[LineValue<'a>],
) -> Result<Table<ClientText<'a>>, LineError>
    ensures { IsReadAs (map (λ client. (client.role.now, client.count, client.suppressed))) result (each_in client_text (map line_view values.now)) }
{
    let mut clients = Vec::with_capacity(alloc, values.len())?;
    for value in values {
        clients.push(client_text(value)?)?;
    }
    Ok(Table::from_vec(clients))
}

/// Reads the role of a client.
#[tactic(auto, unfolding(crate::specs::FrameworkRows::client_in))]
fn read_client(known: &mut KnownWords, client: &ClientText) -> Result<ClientRow, LineError>
    ensures { IsReadOf result (client_in (client.now.role.now, client.now.count, client.now.suppressed)) }
{
    Ok(ClientRow {
        role: known.role(client.role)?,
        count: client.count,
        suppressed: client.suppressed,
    })
}

/// Reads the roles of the clients of a framework.
pub fn read_clients(
    known: &mut KnownWords,
    texts: &[ClientText],
) -> Result<Table<ClientRow>, LineError>
    ensures { IsReadOf result (each_in client_in (map (λ client. (client.role.now, client.count, client.suppressed)) texts.now)) }
{
    let mut clients = Vec::with_capacity(known.alloc, texts.len())?;
    for text in texts {
        clients.push(read_client(known, text)?)?;
    }
    Ok(Table::from_vec(clients))
}

fn put_client(line: &mut Vec<u8>, client: &ClientRow) -> Result<(), AllocError>
    ensures appends { AppendsText result line.old.items line.new.items (compact_text (client_value client.now)) }
    ensures read { OnOk result (IsClientRead client.now) }
{
    put_number(line, "{\"count\":", client.count)?;
    put_role(line, ",\"role\":\"", &client.role)?;
    put_boolean(line, ",\"suppressed\":", client.suppressed)?;
    put_byte(line, b'}')
}

/// Appends the clients as an array of objects, in their order.
pub fn put_client_list(line: &mut Vec<u8>, clients: &[ClientRow]) -> Result<(), AllocError>
    ensures appends { AppendsText result line.old.items line.new.items (compact_text (array (items_of (map client_value clients.now)))) }
    ensures read { OnOk result (All IsClientRead clients.now) }
{
    put_byte(line, b'[')?;
    for (i, client) in clients.iter().enumerate() {
        put_comma(line, i)?;
        put_client(line, client)?;
    }
    put_byte(line, b']')
}
