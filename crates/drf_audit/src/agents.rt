//! The audit of the agents.
ghost use Rattle.std.specs.Prelude.{◌≡◌, map, IfOk};
ghost use Rattle.drf_bundle.specs.Taken.{rest_of_all};
ghost use Rattle.drf_audit.specs.Audit.{line_with, line_of};
ghost use Rattle.drf_audit.specs.Held.{parts_in, parts_of};

use crate::held::Held;
use drf_amount::Algebra;
use drf_bundle::Bundle;
use drf_hash::HashKey;
use drf_role::Name;
use drf_rows::{AgentRow, Rows};
use rayon::prelude::*;
use std::alloc::{AllocError, Global};
use std::thread::Threads;

/// An agent with its total, its free resources, and the number `out` of offers and tasks on it.
#[derive(Drop)]
pub struct AuditLine {
    pub agent: Name,
    pub total: Bundle,
    pub free: Bundle,
    pub out: u64,
}

/// Returns a bundle without its parts.
fn left_of(whole: &Bundle, parts: &[&Bundle]) -> Result<Bundle, AllocError>
    ensures { IfOk result (λ left. left ≡ rest_of_all whole.now (parts_of parts.now)) }
{
    let mut left = whole.copy()?;
    for part in parts {
        left = left.rest(part)?;
    }
    Ok(left)
}

/// Returns the line of an agent on which these bundles are held.
fn line_with(agent: &AgentRow, parts: &[&Bundle]) -> Result<AuditLine, AllocError>
    ensures { IfOk result (λ line. line ≡ line_with agent.now (parts_of parts.now)) }
{
    Ok(AuditLine {
        agent: agent.name.copy()?,
        total: agent.total.copy()?,
        free: left_of(&agent.total, parts)?,
        out: parts.len() as u64,
    })
}

/// Returns the line of an agent, given the bundles that are held on all agents.
fn agent_line(held: &Held, agent: &AgentRow) -> Result<AuditLine, AllocError>
    ensures { IfOk result (λ line. line ≡ line_with agent.now (parts_in held.now agent.now.name)) }
{
    match held.by_agent.get(&agent.name) {
        Some(parts) => line_with(agent, parts),
        None => line_with(agent, &[]),
    }
}

/// Returns a line for each agent, in order of registration. Agents are found by hashes that begin with `key`. Returns an error if memory runs out.
pub fn audit(
    rt: &(impl Threads + Sync),
    alloc: Global,
    key: HashKey,
    rows: &Rows,
) -> Result<Vec<AuditLine>, AllocError>
    ensures { IfOk result (λ lines. lines.items ≡ map (line_of rows.now) rows.now.agents) }
{
    let held = Held::of(alloc, key, rows)?;
    rows.agents
        .as_slice()
        .par_iter()
        .map(
            |agent: &AgentRow| -> Result<AuditLine, AllocError>
                ensures { IfOk result (λ line. line ≡ line_with agent.now (parts_in held.entry agent.now.name)) }
            { agent_line(&held, agent) },
        )
        .collect::<Result<Vec<AuditLine>, AllocError>>(rt, alloc)?
}
