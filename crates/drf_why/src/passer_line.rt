//! The lines of the clients that pass over a client.
ghost use Rattle.std.specs.Prelude.{◌≡◌, ◌≤◌, ◌++◌, IfOk, OnOk};
ghost use Rattle.std.specs.List.{flat_map};
ghost use Rattle.serde_json.specs.View.{view};
ghost use Rattle.drf_why.specs.Passers.{parting, passer_of, passer_text, passer_value, shared_parts};
ghost use Rattle.drf_why.specs.Shares.{AreSharesIn};

use crate::passer::Passers;
use crate::shares::Shares;
use drf_role::{ClientPath, NodePath};
use serde_json::{Value, json};
use std::alloc::{AllocError, Global};

/// Returns how many parts two paths have in common at their beginning.
fn shared_parts(path: &ClientPath, other: &ClientPath) -> usize
    ensures value { result ≡ shared_parts path.now other.now }
    ensures few { result ≤ 10 }
{
    let most = path.len().min(other.len());
    for i in 0..most {
        if path.part(i) != other.part(i) {
            return i;
        }
    }
    most
}

/// Returns the first node of a path that is not a node of the other path.
fn parting(path: &ClientPath, other: &ClientPath) -> Result<NodePath, AllocError>
    ensures { IfOk result (λ node. node ≡ parting path.now other.now) }
{
    let behind = shared_parts(path, other) + 1;
    path.node(behind.min(path.len()))
}

fn passer_value(
    alloc: Global,
    shares: &Shares,
    path: &ClientPath,
    passer: &ClientPath,
    agents: u64,
) -> Result<Value, AllocError>
    requires { AreSharesIn shares.now }
    ensures { IfOk result (λ value. view value ≡ passer_value shares.now.report.now path.now (passer_of (passer.now, agents))) }
{
    let own = parting(path, passer)?;
    let other = parting(passer, path)?;
    let client = path.node(path.len())?;
    let passed_by = passer.node(passer.len())?;
    json!(in alloc; {
        "agents": agents,
        "client": (client.text()),
        "own": (shares.weighted(&own)),
        "passed_by": (passed_by.text()),
        "weighted": (shares.weighted(&other))
    })
}

fn passer_line(
    alloc: Global,
    shares: &Shares,
    path: &ClientPath,
    passer: &ClientPath,
    agents: u64,
) -> Result<Vec<u8>, AllocError>
    requires { AreSharesIn shares.now }
    ensures { IfOk result (λ text. text.items ≡ passer_text shares.now.report.now path.now (passer_of (passer.now, agents))) }
{
    let value = passer_value(alloc, shares, path, passer, agents)?;
    let mut text = value.to_vec(alloc)?;
    text.push(b'\n')?;
    Ok(text)
}

/// Appends a line for each client that passes a client over, with the weighted shares of both at the first nodes at which their paths differ.
pub(crate) fn write_passers(
    alloc: Global,
    shares: &Shares,
    path: &ClientPath,
    passers: &Passers,
    text: &mut Vec<u8>,
) -> Result<(), AllocError>
    requires { AreSharesIn shares.now }
    ensures { OnOk result (text.new.items ≡ text.old.items ++ flat_map (passer_text shares.now.report.now path.now) passers.now) }
{
    let entries = passers.entries();
    for (client, agents) in entries {
        let line = passer_line(alloc, shares, path, client, *agents)?;
        text.extend_from_slice(&line)?;
    }
    Ok(())
}
