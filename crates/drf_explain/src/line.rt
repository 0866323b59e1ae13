//! Writes the lines of an explanation.
ghost use Rattle.std.specs.Prelude.{◌≡◌, ◌++◌, IfOk, OnOk, OnErr};
ghost use Rattle.serde_json.specs.View.{view};
ghost use Rattle.drf_explain.specs.ExplainedText.{grant_value, held_back_value, over_limit_value, tried_why, tried_value, suppressed_value, agent_value, left_value, finding_value, finding_text, explained_text};

use crate::finding::{Finding, Outcome};
use drf_bundle::Bundle;
use drf_role::{ClientPath, Name, NodePath, Role};
use drf_text::write_bundle;
use serde_json::{Value, json};
use std::alloc::{AllocError, Global};

/// Returns the whole path of a client as a node path.
fn whole_path(client: &ClientPath) -> Result<NodePath, AllocError>
    ensures { IfOk result (λ node. node ≡ client.now) }
{
    client.node(client.len())
}

fn grant_value(
    alloc: Global,
    agent: &Name,
    client: &ClientPath,
    bundle: &Bundle,
) -> Result<Value, AllocError>
    ensures { IfOk result (λ value. view value ≡ grant_value agent.now client.now bundle.now) }
{
    let agent = agent.text();
    let client = whole_path(client)?;
    let grant = write_bundle(alloc, bundle)?;
    json!(in alloc; {"agent": agent, "client": (client.text()), "grant": (grant.as_str())})
}

fn held_back_value(
    alloc: Global,
    agent: &Name,
    client: &ClientPath,
    until: u64,
) -> Result<Value, AllocError>
    ensures { IfOk result (λ value. view value ≡ held_back_value agent.now client.now until) }
{
    let agent = agent.text();
    let client = whole_path(client)?;
    json!(in alloc; {"agent": agent, "client": (client.text()), "until": until, "why": "HeldBack"})
}

fn over_limit_value(
    alloc: Global,
    agent: &Name,
    client: &ClientPath,
    role: &Role,
) -> Result<Value, AllocError>
    ensures { IfOk result (λ value. view value ≡ over_limit_value agent.now client.now role.now) }
{
    let agent = agent.text();
    let client = whole_path(client)?;
    let role = role.text();
    json!(in alloc; {"agent": agent, "client": (client.text()), "role": role, "why": "OverLimit"})
}

fn tried_why(
    alloc: Global,
    agent: &Name,
    client: &ClientPath,
    why: &str,
) -> Result<Value, AllocError>
    ensures { IfOk result (λ value. view value ≡ tried_why agent.now client.now why.now) }
{
    let agent = agent.text();
    let client = whole_path(client)?;
    json!(in alloc; {"agent": agent, "client": (client.text()), "why": why})
}

fn tried_value(
    alloc: Global,
    agent: &Name,
    client: &ClientPath,
    outcome: &Outcome,
) -> Result<Value, AllocError>
    ensures { IfOk result (λ value. view value ≡ tried_value agent.now client.now outcome.now) }
{
    match outcome {
        Outcome::Grant(bundle) => grant_value(alloc, agent, client, bundle),
        Outcome::HeldBack { until } => held_back_value(alloc, agent, client, *until),
        Outcome::OverLimit { role } => over_limit_value(alloc, agent, client, role),
        Outcome::BelowThreshold => tried_why(alloc, agent, client, "BelowThreshold"),
        Outcome::NothingLeft => tried_why(alloc, agent, client, "NothingLeft"),
        Outcome::ReservedForOthers => tried_why(alloc, agent, client, "ReservedForOthers"),
    }
}

fn suppressed_value(alloc: Global, client: &ClientPath) -> Result<Value, AllocError>
    ensures { IfOk result (λ value. view value ≡ suppressed_value client.now) }
{
    let client = whole_path(client)?;
    json!(in alloc; {"client": (client.text()), "why": "Suppressed"})
}

fn agent_value(alloc: Global, agent: &Name, why: &str) -> Result<Value, AllocError>
    ensures { IfOk result (λ value. view value ≡ agent_value agent.now why.now) }
{
    let agent = agent.text();
    json!(in alloc; {"agent": agent, "why": why})
}

fn left_value(alloc: Global, agent: &Name, left: &Bundle, clients: u64) -> Result<Value, AllocError>
    ensures { IfOk result (λ value. view value ≡ left_value agent.now left.now clients) }
{
    let agent = agent.text();
    let left = write_bundle(alloc, left)?;
    json!(in alloc; {"agent": agent, "clients": clients, "left": (left.as_str())})
}

fn finding_value(alloc: Global, finding: &Finding) -> Result<Value, AllocError>
    ensures { IfOk result (λ value. view value ≡ finding_value finding.now) }
{
    match finding {
        Finding::Suppressed { client } => suppressed_value(alloc, client),
        Finding::Inactive { agent } => agent_value(alloc, agent, "Inactive"),
        Finding::NothingFree { agent } => agent_value(alloc, agent, "NothingFree"),
        Finding::Tried {
            agent,
            client,
            outcome,
        } => tried_value(alloc, agent, client, outcome),
        Finding::Left {
            agent,
            left,
            clients,
        } => left_value(alloc, agent, left, *clients),
    }
}

fn line_text(alloc: Global, finding: &Finding) -> Result<Vec<u8>, AllocError>
    ensures { IfOk result (λ text. text.items ≡ finding_text finding.now) }
{
    let value = finding_value(alloc, finding)?;
    let mut text = value.to_vec(alloc)?;
    text.push(b'\n')?;
    Ok(text)
}

/// Appends the line of a finding: compact JSON, with keys in byte order. If memory runs out, the text is unchanged.
pub fn write_explained_line(
    alloc: Global,
    finding: &Finding,
    text: &mut Vec<u8>,
) -> Result<(), AllocError>
    ensures ok { OnOk result (text.new.items ≡ text.old.items ++ finding_text finding.now) }
    ensures err { OnErr result (text.new.items ≡ text.old.items) }
{
    let reported = line_text(alloc, finding)?;
    text.extend_from_slice(&reported)
}

/// Returns the lines of all findings.
pub fn write_explained_lines(alloc: Global, findings: &[Finding]) -> Result<Vec<u8>, AllocError>
    ensures { IfOk result (λ text. text.items ≡ explained_text findings.now) }
{
    let mut text = Vec::new(alloc);
    for finding in findings {
        write_explained_line(alloc, finding, &mut text)?;
    }
    Ok(text)
}
