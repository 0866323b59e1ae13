//! The table of the nodes of the tree of roles, as in a report.
ghost use Rattle.std.specs.Prelude.{◌≡◌, IfOk};
ghost use Rattle.serde_json.specs.View.{view};
ghost use Rattle.drf_show.specs.ShownText.{node_value};

use crate::cells::Row;
use crate::json::push_value;
use crate::shown::Shown;
use drf_lines::write_fraction;
use drf_rows::NodeLine;
use drf_text::write_quantities;
use serde_json::{Value, json};
use std::alloc::{AllocError, Global};

fn node_value(alloc: Global, line: &NodeLine) -> Result<Value, AllocError>
    ensures { IfOk result (λ value. view value ≡ node_value line.now) }
{
    let count = line.count;
    let held = write_quantities(alloc, &line.held)?;
    let path = line.path.text();
    let share = write_fraction(alloc, line.share)?;
    let weighted = write_fraction(alloc, line.weighted)?;
    json!(in alloc; {"count": count, "held": (held.as_str()), "path": path, "row": "node", "share": (share.as_str()), "weighted": (weighted.as_str())})
}

impl Shown for NodeLine {
    ghost use Rattle.drf_show.specs.ShownText.{node_heads, node_shown};

    ghost heads = { node_heads };

    ghost shown = { node_shown };

    fn heads(alloc: Global) -> Result<Row, AllocError> {
        let mut row = Row::new(alloc);
        row.put("NODE")?;
        row.put("COUNT")?;
        row.put("SHARE")?;
        row.put("WEIGHTED")?;
        row.put("HELD")?;
        Ok(row)
    }

    fn row(&self, alloc: Global) -> Result<Row, AllocError> {
        let mut row = Row::new(alloc);
        row.put(self.path.text())?;
        row.put_number(self.count)?;
        row.put_fraction(self.share)?;
        row.put_fraction(self.weighted)?;
        row.put_quantities(&self.held)?;
        Ok(row)
    }

    fn push_line(&self, alloc: Global, text: &mut Vec<u8>) -> Result<(), AllocError> {
        let value = node_value(alloc, self)?;
        push_value(alloc, &value, text)
    }
}
