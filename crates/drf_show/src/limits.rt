//! The table of the limits of roles, with what is consumed.
ghost use Rattle.std.specs.Prelude.{◌≡◌, IfOk};
ghost use Rattle.serde_json.specs.View.{view};
ghost use Rattle.drf_show.specs.ShownText.{limit_value};

use crate::cells::Row;
use crate::json::push_value;
use crate::shown::Shown;
use drf_bundle::Quantities;
use drf_role::Role;
use drf_text::write_quantities;
use serde_json::{Value, json};
use std::alloc::{AllocError, Global};

/// The limit of a role, and what it consumes of each scalar that the limit names, in thousandths.
#[derive(Drop)]
pub(crate) struct LimitLine {
    pub(crate) role: Role,
    pub(crate) limit: Quantities,
    pub(crate) consumed: Quantities,
}

fn limit_value(alloc: Global, line: &LimitLine) -> Result<Value, AllocError>
    ensures { IfOk result (λ value. view value ≡ limit_value line.now) }
{
    let consumed = write_quantities(alloc, &line.consumed)?;
    let limit = write_quantities(alloc, &line.limit)?;
    let role = line.role.text();
    json!(in alloc; {"consumed": (consumed.as_str()), "limit": (limit.as_str()), "role": role, "row": "limit"})
}

impl Shown for LimitLine {
    ghost use Rattle.drf_show.specs.ShownText.{limit_heads, limit_shown};

    ghost heads = { limit_heads };

    ghost shown = { limit_shown };

    fn heads(alloc: Global) -> Result<Row, AllocError> {
        let mut row = Row::new(alloc);
        row.put("ROLE")?;
        row.put("LIMIT")?;
        row.put("CONSUMED")?;
        Ok(row)
    }

    fn row(&self, alloc: Global) -> Result<Row, AllocError> {
        let mut row = Row::new(alloc);
        row.put_role(&self.role)?;
        row.put_quantities(&self.limit)?;
        row.put_quantities(&self.consumed)?;
        Ok(row)
    }

    fn push_line(&self, alloc: Global, text: &mut Vec<u8>) -> Result<(), AllocError> {
        let value = limit_value(alloc, self)?;
        push_value(alloc, &value, text)
    }
}
