//! The table of the agents.
ghost use Rattle.std.specs.Prelude.{◌≡◌, IfOk};
ghost use Rattle.serde_json.specs.View.{view};
ghost use Rattle.drf_audit.specs.Audit.{line_of};
ghost use Rattle.drf_rows.specs.declared.rows.Rows.{Rows};
ghost use Rattle.drf_show.specs.Shown.{agent_line, agent_lines};
ghost use Rattle.drf_show.specs.ShownText.{agent_value};

use crate::cells::Row;
use crate::json::push_value;
use crate::shown::Shown;
use drf_amount::Algebra;
use drf_audit::{AuditLine, audit};
use drf_bundle::Bundle;
use drf_hash::HashKey;
use drf_role::Name;
use drf_rows::{AgentRow, Rows};
use drf_text::write_bundle;
use serde_json::{Value, json};
use std::alloc::{AllocError, Global};
use std::thread::Threads;

/// An agent with its total, its held and its free resources, and the number `out` of offers and tasks on it.
#[derive(Drop)]
pub(crate) struct AgentLine {
    pub(crate) agent: Name,
    pub(crate) active: bool,
    pub(crate) out: u64,
    pub(crate) total: Bundle,
    pub(crate) held: Bundle,
    pub(crate) free: Bundle,
}

/// Returns the line of an agent, given its audit.
fn agent_line(agent: &AgentRow, audited: &AuditLine) -> Result<AgentLine, AllocError>
    ensures { IfOk result (λ line. (rows : Rows) → audited.now ≡ line_of rows agent.now → line ≡ agent_line rows agent.now) }
{
    Ok(AgentLine {
        agent: agent.name.copy()?,
        active: agent.active,
        out: audited.out,
        total: agent.total.copy()?,
        held: agent.total.rest(&audited.free)?,
        free: audited.free.copy()?,
    })
}

/// Returns a line for each agent, in order of registration.
pub(crate) fn agent_lines(
    rt: &(impl Threads + Sync),
    alloc: Global,
    key: HashKey,
    rows: &Rows,
) -> Result<Vec<AgentLine>, AllocError>
    ensures { IfOk result (λ lines. lines.items ≡ agent_lines rows.now) }
{
    let audited = audit(rt, alloc, key, rows)?;
    let agents = rows.agents.as_slice();
    let mut lines = Vec::with_capacity(alloc, agents.len())?;
    for (place, line) in audited.iter().enumerate() {
        lines.push(agent_line(&agents[place], line)?)?;
    }
    Ok(lines)
}

fn agent_value(alloc: Global, line: &AgentLine) -> Result<Value, AllocError>
    ensures { IfOk result (λ value. view value ≡ agent_value line.now) }
{
    let active = line.active;
    let agent = line.agent.text();
    let out = line.out;
    let free = write_bundle(alloc, &line.free)?;
    let held = write_bundle(alloc, &line.held)?;
    let total = write_bundle(alloc, &line.total)?;
    json!(in alloc; {"active": active, "agent": agent, "free": (free.as_str()), "held": (held.as_str()), "out": out, "row": "agent", "total": (total.as_str())})
}

impl Shown for AgentLine {
    ghost use Rattle.drf_show.specs.ShownText.{agent_heads, agent_shown};

    ghost heads = { agent_heads };

    ghost shown = { agent_shown };

    fn heads(alloc: Global) -> Result<Row, AllocError> {
        let mut row = Row::new(alloc);
        row.put("AGENT")?;
        row.put("ACTIVE")?;
        row.put("OUT")?;
        row.put("TOTAL")?;
        row.put("HELD")?;
        row.put("FREE")?;
        Ok(row)
    }

    fn row(&self, alloc: Global) -> Result<Row, AllocError> {
        let mut row = Row::new(alloc);
        row.put_name(&self.agent)?;
        row.put_flag(self.active)?;
        row.put_number(self.out)?;
        row.put_bundle(&self.total)?;
        row.put_bundle(&self.held)?;
        row.put_bundle(&self.free)?;
        Ok(row)
    }

    fn push_line(&self, alloc: Global, text: &mut Vec<u8>) -> Result<(), AllocError> {
        let value = agent_value(alloc, self)?;
        push_value(alloc, &value, text)
    }
}
