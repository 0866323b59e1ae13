//! The suppressed clients.
ghost use Rattle.std.specs.Prelude.{◌≡◌, ◌++◌, IfOk, OnOk};
ghost use Rattle.drf_explain.specs.Explained.{reported_if_suppressed, suppressed_in, suppressed_of};

use crate::finding::Finding;
use drf_role::ClientPath;
use drf_rows::{ClientRow, FrameworkRow, Rows};
use std::alloc::{AllocError, Global};

/// Adds a client of a framework, if it is suppressed.
fn add_suppressed(
    alloc: Global,
    framework: &FrameworkRow,
    client: &ClientRow,
    findings: &mut Vec<Finding>,
) -> Result<(), AllocError>
    ensures { OnOk result (findings.new.items ≡ findings.old.items ++ reported_if_suppressed framework.now client.now) }
{
    if client.suppressed {
        let client = ClientPath::new(alloc, &client.role, &framework.name)?;
        findings.push(Finding::Suppressed { client })?;
    }
    Ok(())
}

/// Adds the suppressed clients of a framework, in their order.
fn add_all_suppressed(
    alloc: Global,
    framework: &FrameworkRow,
    findings: &mut Vec<Finding>,
) -> Result<(), AllocError>
    ensures { OnOk result (findings.new.items ≡ findings.old.items ++ suppressed_in framework.now) }
{
    let clients = framework.clients.as_slice();
    for client in clients {
        add_suppressed(alloc, framework, client, findings)?;
    }
    Ok(())
}

/// Returns the suppressed clients, in the order of the frameworks and of the clients of each.
pub fn suppressed(alloc: Global, rows: &Rows) -> Result<Vec<Finding>, AllocError>
    ensures { IfOk result (λ findings. findings.items ≡ suppressed_of rows.now) }
{
    let mut findings = Vec::new(alloc);
    let frameworks = rows.frameworks.as_slice();
    for framework in frameworks {
        add_all_suppressed(alloc, framework, &mut findings)?;
    }
    Ok(findings)
}
