//! The table that says how full the tables are.
ghost use Rattle.std.specs.Prelude.{◌≡◌, ◌<◌, ◌^◌, ◌∷◌, ◌++◌, [], length, IfOk, OnOk};
ghost use Rattle.serde_json.specs.View.{view};
ghost use Rattle.drf_bundle.specs.Quantities.{without_zeros};
ghost use Rattle.drf_rows.specs.Held.{clients_in, clients_of, cluster_total};
ghost use Rattle.drf_show.specs.Shown.{table_line, table_lines};
ghost use Rattle.drf_show.specs.ShownText.{table_name, table_value};

use crate::cells::Row;
use crate::json::push_value;
use crate::shown::Shown;
use drf_rows::{FrameworkRow, Limits, Rows};
use serde_json::{Value, json};
use std::alloc::{AllocError, Global};

/// A table that has a capacity.
#[derive(Clone, Copy)]
pub(crate) enum CountedTable {
    Agents,
    ScalarNames,
    Frameworks,
    Clients,
    Weights,
    Limits,
    Filters,
    Events,
}

impl CountedTable {
    /// Returns the name of the table.
    fn name(self) -> &'static str
        ensures { result.now ≡ table_name self }
    {
        match self {
            CountedTable::Agents => "agents",
            CountedTable::ScalarNames => "scalar names",
            CountedTable::Frameworks => "frameworks",
            CountedTable::Clients => "clients",
            CountedTable::Weights => "weights",
            CountedTable::Limits => "limits",
            CountedTable::Filters => "filters",
            CountedTable::Events => "events",
        }
    }
}

/// A table, the number of its rows, and its capacity.
#[derive(Clone, Copy)]
pub(crate) struct TableLine {
    pub(crate) table: CountedTable,
    pub(crate) rows: u64,
    pub(crate) limit: u64,
}

/// Returns the number of clients.
fn count_clients(frameworks: &[FrameworkRow]) -> u64
    requires { length (clients_in frameworks.now) < 2 ^ 64 }
    ensures { result ≡ length (clients_in frameworks.now) }
{
    let mut count = 0;
    for framework in frameworks {
        count += framework.clients.len() as u64;
    }
    count
}

/// Appends the line of a table.
fn push_count(
    lines: &mut Vec<TableLine>,
    table: CountedTable,
    rows: u64,
    limit: u64,
) -> Result<(), AllocError>
    ensures { OnOk result (lines.new.items ≡ lines.old.items ++ table_line table rows limit ∷ []) }
{
    lines.push(TableLine { table, rows, limit })?;
    Ok(())
}

/// Returns a line for each table. `scalar_names` is the number of names of scalars that agents have.
pub(crate) fn table_lines(
    alloc: Global,
    limits: &Limits,
    rows: &Rows,
    scalar_names: u64,
) -> Result<Vec<TableLine>, AllocError>
    requires names { scalar_names ≡ length (without_zeros (cluster_total rows.now.agents)) }
    requires clients { length (clients_of rows.now) < 2 ^ 64 }
    ensures { IfOk result (λ lines. lines.items ≡ table_lines limits.now rows.now) }
{
    use CountedTable::{
        Agents, Clients, Events, Filters, Frameworks, Limits, ScalarNames, Weights,
    };
    let agents = rows.agents.len() as u64;
    let frameworks = rows.frameworks.len() as u64;
    let clients = count_clients(rows.frameworks.as_slice());
    let weights = rows.weights.len() as u64;
    let limited = rows.limits.len() as u64;
    let filters = rows.filters.len() as u64;
    let mut lines = Vec::new(alloc);
    push_count(&mut lines, Agents, agents, limits.agents())?;
    push_count(&mut lines, ScalarNames, scalar_names, limits.scalar_names())?;
    push_count(&mut lines, Frameworks, frameworks, limits.frameworks())?;
    push_count(&mut lines, Clients, clients, limits.clients())?;
    push_count(&mut lines, Weights, weights, limits.weights())?;
    push_count(&mut lines, Limits, limited, limits.limits())?;
    push_count(&mut lines, Filters, filters, limits.filters())?;
    push_count(&mut lines, Events, rows.events, limits.events())?;
    Ok(lines)
}

fn table_value(alloc: Global, line: &TableLine) -> Result<Value, AllocError>
    ensures { IfOk result (λ value. view value ≡ table_value line.now) }
{
    let limit = line.limit;
    let rows = line.rows;
    let table = line.table.name();
    json!(in alloc; {"limit": limit, "row": "table", "rows": rows, "table": table})
}

impl Shown for TableLine {
    ghost use Rattle.drf_show.specs.ShownText.{table_heads, table_shown};

    ghost heads = { table_heads };

    ghost shown = { table_shown };

    fn heads(alloc: Global) -> Result<Row, AllocError> {
        let mut row = Row::new(alloc);
        row.put("TABLE")?;
        row.put("ROWS")?;
        row.put("LIMIT")?;
        Ok(row)
    }

    fn row(&self, alloc: Global) -> Result<Row, AllocError> {
        let mut row = Row::new(alloc);
        row.put(self.table.name())?;
        row.put_number(self.rows)?;
        row.put_number(self.limit)?;
        Ok(row)
    }

    fn push_line(&self, alloc: Global, text: &mut Vec<u8>) -> Result<(), AllocError> {
        let value = table_value(alloc, self)?;
        push_value(alloc, &value, text)
    }
}
