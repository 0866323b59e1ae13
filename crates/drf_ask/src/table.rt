//! Counts the rows of the tables, and writes them with the capacities.
ghost use Rattle.std.specs.Prelude.{◌≡◌, ◌<◌, ◌^◌, ◌++◌, length, OnOk};
ghost use Rattle.serde_json.specs.Written.{compact_text};
ghost use Rattle.drf_bundle.specs.Quantities.{without_zeros};
ghost use Rattle.drf_rows.specs.Held.{clients_in, clients_of, cluster_total};
ghost use Rattle.drf_ask.specs.Answer.{table_value, tables_value};

use crate::text::{put, put_number};
use drf_rows::{FrameworkRow, Limits, Rows};
use std::alloc::AllocError;

/// Returns the number of clients of all frameworks.
fn count_clients(frameworks: &[FrameworkRow]) -> u64
    requires { length (clients_in frameworks.now) < 2 ^ 64 }
    ensures { result ≡ length (clients_in frameworks.now) }
{
    let mut clients = 0;
    for framework in frameworks {
        clients += framework.clients.len() as u64;
    }
    clients
}

/// Appends `before`, and then the number of rows of a table and its capacity.
fn put_table(text: &mut Vec<u8>, before: &str, rows: u64, limit: u64) -> Result<(), AllocError>
    ensures { OnOk result (text.new.items ≡ text.old.items ++ (before.now ++ compact_text (table_value rows limit))) }
{
    put(text, before)?;
    put_number(text, "{\"limit\":", limit)?;
    put_number(text, ",\"rows\":", rows)?;
    put(text, "}")
}

/// Appends the number of rows of each table that has a capacity, and the capacity. `scalar_names` is the number of
/// names of scalars in the total of the cluster.
pub(crate) fn push_tables(
    text: &mut Vec<u8>,
    limits: &Limits,
    rows: &Rows,
    scalar_names: usize,
) -> Result<(), AllocError>
    requires clients { length (clients_of rows.now) < 2 ^ 64 }
    requires names { scalar_names ≡ length (without_zeros (cluster_total rows.now.agents)) }
    ensures { OnOk result (text.new.items ≡ text.old.items ++ compact_text (tables_value limits.now rows.now)) }
{
    let clients = count_clients(rows.frameworks.as_slice());
    let agents = rows.agents.len() as u64;
    let filters = rows.filters.len() as u64;
    let frameworks = rows.frameworks.len() as u64;
    let role_limits = rows.limits.len() as u64;
    let names = scalar_names as u64;
    let weights = rows.weights.len() as u64;
    put_table(text, "{\"agents\":", agents, limits.agents())?;
    put_table(text, ",\"clients\":", clients, limits.clients())?;
    put_table(text, ",\"events\":", rows.events, limits.events())?;
    put_table(text, ",\"filters\":", filters, limits.filters())?;
    put_table(text, ",\"frameworks\":", frameworks, limits.frameworks())?;
    put_table(text, ",\"limits\":", role_limits, limits.limits())?;
    put_table(text, ",\"scalar_names\":", names, limits.scalar_names())?;
    put_table(text, ",\"weights\":", weights, limits.weights())?;
    put(text, "}")
}
