//! The table of the filters.
ghost use Rattle.std.specs.Prelude.{◌≡◌, map, IfOk};
ghost use Rattle.serde_json.specs.View.{view};
ghost use Rattle.drf_show.specs.Shown.{filter_line};
ghost use Rattle.drf_show.specs.ShownText.{filter_value};

use crate::cells::Row;
use crate::json::push_value;
use crate::shown::Shown;
use drf_amount::Algebra;
use drf_bundle::Bundle;
use drf_role::{Name, Role};
use drf_rows::FilterRow;
use drf_text::write_bundle;
use serde_json::{Value, json};
use std::alloc::{AllocError, Global};

/// A filter of a client on an agent, with its end and the time that is left until then, both in milliseconds.
#[derive(Drop)]
pub(crate) struct FilterLine {
    pub(crate) framework: Name,
    pub(crate) role: Role,
    pub(crate) agent: Name,
    pub(crate) left: u64,
    pub(crate) until: u64,
    pub(crate) resources: Bundle,
}

fn filter_line(clock: u64, filter: &FilterRow) -> Result<FilterLine, AllocError>
    ensures { IfOk result (λ line. line ≡ filter_line clock filter.now) }
{
    Ok(FilterLine {
        framework: filter.framework.copy()?,
        role: filter.role.copy()?,
        agent: filter.agent.copy()?,
        left: filter.until.saturating_sub(clock),
        until: filter.until,
        resources: filter.bundle.copy()?,
    })
}

/// Returns a line for each filter. `clock` is in milliseconds.
pub(crate) fn filter_lines(
    alloc: Global,
    clock: u64,
    filters: &[FilterRow],
) -> Result<Vec<FilterLine>, AllocError>
    ensures { IfOk result (λ lines. lines.items ≡ map (filter_line clock) filters.now) }
{
    let mut lines = Vec::with_capacity(alloc, filters.len())?;
    for filter in filters {
        lines.push(filter_line(clock, filter)?)?;
    }
    Ok(lines)
}

fn filter_value(alloc: Global, line: &FilterLine) -> Result<Value, AllocError>
    ensures { IfOk result (λ value. view value ≡ filter_value line.now) }
{
    let agent = line.agent.text();
    let framework = line.framework.text();
    let left = line.left;
    let resources = write_bundle(alloc, &line.resources)?;
    let role = line.role.text();
    let until = line.until;
    json!(in alloc; {"agent": agent, "framework": framework, "left": left, "resources": (resources.as_str()), "role": role, "row": "filter", "until": until})
}

impl Shown for FilterLine {
    ghost use Rattle.drf_show.specs.ShownText.{filter_heads, filter_shown};

    ghost heads = { filter_heads };

    ghost shown = { filter_shown };

    fn heads(alloc: Global) -> Result<Row, AllocError> {
        let mut row = Row::new(alloc);
        row.put("FRAMEWORK")?;
        row.put("ROLE")?;
        row.put("AGENT")?;
        row.put("LEFT")?;
        row.put("UNTIL")?;
        row.put("REFUSED")?;
        Ok(row)
    }

    fn row(&self, alloc: Global) -> Result<Row, AllocError> {
        let mut row = Row::new(alloc);
        row.put_name(&self.framework)?;
        row.put_role(&self.role)?;
        row.put_name(&self.agent)?;
        row.put_number(self.left)?;
        row.put_number(self.until)?;
        row.put_bundle(&self.resources)?;
        Ok(row)
    }

    fn push_line(&self, alloc: Global, text: &mut Vec<u8>) -> Result<(), AllocError> {
        let value = filter_value(alloc, self)?;
        push_value(alloc, &value, text)
    }
}
