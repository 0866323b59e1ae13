//! The subject of an explanation, by the names that a user gives.
ghost use Rattle.std.specs.Prelude.{◌≡◌, Some, None, if◌then◌else◌, IfOk};
ghost use Rattle.std.specs.List.{list_any};
ghost use Rattle.drf_role.specs.Text.{same_text};
ghost use Rattle.drf_role.specs.Path.{client_path, same_path};
ghost use Rattle.drf_role.specs.Parts.{parts_of};
ghost use Rattle.drf_rows.specs.Client.{path_of};
ghost use Rattle.drf_rows.specs.Members.{has_framework};
ghost use Rattle.drf_why.specs.declared.pick.Pick.TheVariants.{Agent, Client};
ghost use Rattle.serde_json.specs.View.{view};
ghost use Rattle.drf_why.specs.Asked.{absent_text, client_named, has_client, no_agent_value, no_client_value, pick_of, why_no_client};

use crate::pick::Pick;
use drf_role::{ClientPath, Name, Role};
use drf_rows::{AgentRow, FrameworkRow, Rows};
use serde_json::{Value, json};
use std::alloc::{AllocError, Global};

/// The subject of an explanation.
#[derive(Clone, Copy)]
pub enum Whom<'a> {
    /// All clients on all agents.
    All,
    /// All clients on the agent of that name.
    Agent(&'a str),
    /// The client of that framework in that role on all agents, and on each agent the grants before it.
    Client { framework: &'a str, role: &'a str },
}

fn is_named(name: &Name, text: &str) -> bool
    ensures { result ≡ same_text name.now text.now }
{
    name.text() == text
}

fn is_of_role(role: &Role, text: &str) -> bool
    ensures { result ≡ same_path role.now (parts_of text.now) }
{
    role.text() == text
}

/// Returns the selection of the agent of that name, if it is registered.
fn pick_agent(agents: &[AgentRow], name: &str) -> Result<Option<Pick>, AllocError>
    ensures { IfOk result (λ pick. pick ≡ (if list_any (λ a. same_text a.name name.now) agents.now then Some (Agent name.now) else None)) }
{
    for agent in agents {
        if is_named(&agent.name, name) {
            let name = agent.name.copy()?;
            return Ok(Some(Pick::Agent(name)));
        }
    }
    Ok(None)
}

/// Returns the selection of a framework's client in that role, if the framework has the role.
fn pick_in_role(
    alloc: Global,
    framework: &FrameworkRow,
    role: &str,
) -> Result<Option<Pick>, AllocError>
    ensures { IfOk result (λ pick. pick ≡ (if list_any (λ c. same_path c.role (parts_of role.now)) framework.now.clients
        then Some (Client (client_path (parts_of role.now) framework.now.name)) else None)) }
{
    let clients = framework.clients.as_slice();
    for client in clients {
        if is_of_role(&client.role, role) {
            let path = ClientPath::new(alloc, &client.role, &framework.name)?;
            return Ok(Some(Pick::Client(path)));
        }
    }
    Ok(None)
}

/// Returns the selection of the client in that role, if the row is that of the framework of that name and has the role.
fn pick_in_row(
    alloc: Global,
    row: &FrameworkRow,
    framework: &str,
    role: &str,
) -> Result<Option<Pick>, AllocError>
    ensures { IfOk result (λ pick. pick ≡ (if has_client framework.now role.now row.now
        then Some (Client (path_of (client_named framework.now role.now))) else None)) }
{
    if is_named(&row.name, framework) {
        let pick = pick_in_role(alloc, row, role)?;
        return Ok(pick);
    }
    Ok(None)
}

/// Returns the selection of the client of that framework in that role, if it is registered.
fn pick_client(
    alloc: Global,
    frameworks: &[FrameworkRow],
    framework: &str,
    role: &str,
) -> Result<Option<Pick>, AllocError>
    ensures { IfOk result (λ pick. pick ≡ (if list_any (has_client framework.now role.now) frameworks.now
        then Some (Client (path_of (client_named framework.now role.now))) else None)) }
{
    for row in frameworks {
        let pick = pick_in_row(alloc, row, framework, role)?;
        if pick.is_some() {
            return Ok(pick);
        }
    }
    Ok(None)
}

/// Returns the selection of a subject, if it is registered.
pub(crate) fn pick_of(
    alloc: Global,
    rows: &Rows,
    whom: Whom<'_>,
) -> Result<Option<Pick>, AllocError>
    ensures { IfOk result (λ pick. pick ≡ pick_of rows.now whom.entry) }
{
    match whom {
        Whom::All => Ok(Some(Pick::All)),
        Whom::Agent(name) => pick_agent(rows.agents.as_slice(), name),
        Whom::Client { framework, role } => {
            pick_client(alloc, rows.frameworks.as_slice(), framework, role)
        }
    }
}

fn has_framework(rows: &Rows, framework: &str) -> bool
    ensures { result ≡ has_framework rows.now framework.now }
{
    let frameworks = rows.frameworks.as_slice();
    frameworks.iter().any(|row| is_named(&row.name, framework))
}

/// Returns why a client is not registered: `NotInRole` if the framework is registered, otherwise `UnknownFramework`.
fn why_no_client(rows: &Rows, framework: &str) -> &'static str
    ensures { result.now ≡ why_no_client rows.now framework.now }
{
    if has_framework(rows, framework) {
        "NotInRole"
    } else {
        "UnknownFramework"
    }
}

fn no_agent_value(alloc: Global, agent: &str) -> Result<Value, AllocError>
    ensures { IfOk result (λ value. view value ≡ no_agent_value agent.now) }
{
    json!(in alloc; {"agent": agent, "why": "UnknownAgent"})
}

fn no_client_value(
    alloc: Global,
    framework: &str,
    role: &str,
    why: &str,
) -> Result<Value, AllocError>
    ensures { IfOk result (λ value. view value ≡ no_client_value framework.now role.now why.now) }
{
    json!(in alloc; {"framework": framework, "role": role, "why": why})
}

/// Returns the line that says that the subject is not registered.
pub(crate) fn absent_text(alloc: Global, rows: &Rows, whom: Whom<'_>) -> Result<Vec<u8>, AllocError>
    ensures { IfOk result (λ text. text.items ≡ absent_text rows.now whom.entry) }
{
    let value = match whom {
        Whom::All => return Ok(Vec::new(alloc)),
        Whom::Agent(name) => no_agent_value(alloc, name)?,
        Whom::Client { framework, role } => {
            no_client_value(alloc, framework, role, why_no_client(rows, framework))?
        }
    };
    let mut text = value.to_vec(alloc)?;
    text.push(b'\n')?;
    Ok(text)
}
