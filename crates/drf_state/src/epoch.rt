//! Begins an epoch, by which a cluster continues when its history is full.
ghost use Rattle.std.specs.Prelude.{◌≡◌, map, IfOk, OnOk, OnErr};
ghost use Rattle.drf_saved.specs.Epoch.{with_counts_reset, epoch, uncounted};

use drf_rows::{ClientRow, FrameworkRow, Rows, Table};
use std::alloc::{AllocError, Global};

/// Returns the clients with a count of 0.
fn uncounted(alloc: Global, clients: &[ClientRow]) -> Result<Table<ClientRow>, AllocError>
    ensures { IfOk result (λ rows. rows ≡ map uncounted clients.now) }
{
    let mut rows = Vec::with_capacity(alloc, clients.len())?;
    for client in clients {
        rows.push(ClientRow {
            role: client.role.copy()?,
            count: 0,
            suppressed: client.suppressed,
        })?;
    }
    Ok(Table::from_vec(rows))
}

/// Returns the frameworks, whose clients all have a count of 0.
fn with_counts_reset(
    alloc: Global,
    frameworks: &[FrameworkRow],
) -> Result<Table<FrameworkRow>, AllocError>
    ensures { IfOk result (λ rows. rows ≡ map with_counts_reset frameworks.now) }
{
    let mut rows = Vec::with_capacity(alloc, frameworks.len())?;
    for framework in frameworks {
        rows.push(FrameworkRow {
            name: framework.name.copy()?,
            clients: uncounted(alloc, framework.clients.as_slice())?,
        })?;
    }
    Ok(Table::from_vec(rows))
}

/// Begins an epoch: all offers are rescinded, the counts of clients and of accepted events become 0, and offers are
/// numbered from 1 again. If memory runs out, nothing is changed.
pub fn begin_epoch(alloc: Global, rows: &mut Rows) -> Result<(), AllocError>
    ensures ok { OnOk result (rows.new ≡ epoch rows.old) }
    ensures err { OnErr result (rows.new ≡ rows.old) }
{
    rows.frameworks = with_counts_reset(alloc, rows.frameworks.as_slice())?;
    rows.offers = Table::from_vec(Vec::new(alloc));
    rows.next_offer = 1;
    rows.events = 0;
    Ok(())
}
