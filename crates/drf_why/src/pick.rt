//! Selects a part of an explanation.
ghost use Rattle.std.specs.Prelude.{◌≡◌, ◌<◌, ◌++◌, [], filter, if◌then◌else◌, length, IfSome, OnOk};
ghost use Rattle.std.specs.List.{position};
ghost use Rattle.std.specs.Option.{option_copied};
ghost use Rattle.drf_explain.specs.ExplainedText.{explained_text, finding_text};
ghost use Rattle.drf_why.specs.Pick.{bars_all, is_granted, is_grant, is_inactive, is_nothing_free, is_of_agent, is_of_client, earlier_at, outcome_in, own_at, picked, picked_tries};

use drf_explain::{Finding, Outcome, write_explained_line, write_explained_lines};
use drf_role::{ClientPath, Name};
use std::alloc::{AllocError, Global};

/// Which part of an explanation is selected.
#[derive(Drop)]
pub enum Pick {
    /// All agents and clients.
    All,
    /// The findings of the agent of that name.
    Agent(Name),
    /// The findings of the client of that path, and on each agent the grants before it. Agents on which no client is tried are included.
    Client(ClientPath),
}

/// Returns whether the finding is about the agent.
fn is_of_agent(name: &Name, finding: &Finding) -> bool
    ensures { result ≡ is_of_agent name.now finding.now }
{
    match finding {
        Finding::Suppressed { .. } => false,
        Finding::Inactive { agent } => *agent == *name,
        Finding::NothingFree { agent } => *agent == *name,
        Finding::Tried { agent, .. } => *agent == *name,
        Finding::Left { agent, .. } => *agent == *name,
    }
}

/// Returns whether the finding is about the client.
fn is_of_client(path: &ClientPath, finding: &Finding) -> bool
    ensures { result ≡ is_of_client path.now finding.now }
{
    match finding {
        Finding::Suppressed { client } => *client == *path,
        Finding::Tried { client, .. } => *client == *path,
        _ => false,
    }
}

pub(crate) fn is_granted(outcome: &Outcome) -> bool
    ensures { result ≡ is_granted outcome.now }
{
    matches!(outcome, Outcome::Grant(_))
}

/// Returns whether the finding is a grant.
pub(crate) fn is_grant(finding: &Finding) -> bool
    ensures { result ≡ is_grant finding.now }
{
    match finding {
        Finding::Tried { outcome, .. } => is_granted(outcome),
        _ => false,
    }
}

pub(crate) fn is_inactive(finding: &Finding) -> bool
    ensures { result ≡ is_inactive finding.now }
{
    matches!(finding, Finding::Inactive { .. })
}

pub(crate) fn is_nothing_free(finding: &Finding) -> bool
    ensures { result ≡ is_nothing_free finding.now }
{
    matches!(finding, Finding::NothingFree { .. })
}

/// Returns whether the finding is that no client is tried on its agent.
fn bars_all(finding: &Finding) -> bool
    ensures { result ≡ bars_all finding.now }
{
    is_inactive(finding) || is_nothing_free(finding)
}

/// Appends the line of a finding if `is_wanted` is set.
fn write_if(
    alloc: Global,
    is_wanted: bool,
    finding: &Finding,
    text: &mut Vec<u8>,
) -> Result<(), AllocError>
    ensures { OnOk result (text.new.items ≡ text.old.items ++ (if is_wanted then finding_text finding.now else [])) }
{
    if !is_wanted {
        return Ok(());
    }
    write_explained_line(alloc, finding, text)
}

/// Appends the lines of those findings that are about the agent.
fn write_agent(
    alloc: Global,
    name: &Name,
    findings: &[Finding],
    text: &mut Vec<u8>,
) -> Result<(), AllocError>
    ensures { OnOk result (text.new.items ≡ text.old.items ++ explained_text (filter (is_of_agent name.now) findings.now)) }
{
    for finding in findings {
        write_if(alloc, is_of_agent(name, finding), finding, text)?;
    }
    Ok(())
}

/// Appends the lines of those findings that are grants.
fn write_grants(alloc: Global, findings: &[Finding], text: &mut Vec<u8>) -> Result<(), AllocError>
    ensures { OnOk result (text.new.items ≡ text.old.items ++ explained_text (filter is_grant findings.now)) }
{
    for finding in findings {
        write_if(alloc, is_grant(finding), finding, text)?;
    }
    Ok(())
}

/// Appends the lines of those findings that say that no client is tried on an agent.
fn write_barred(alloc: Global, findings: &[Finding], text: &mut Vec<u8>) -> Result<(), AllocError>
    ensures { OnOk result (text.new.items ≡ text.old.items ++ explained_text (filter bars_all findings.now)) }
{
    for finding in findings {
        write_if(alloc, bars_all(finding), finding, text)?;
    }
    Ok(())
}

/// Appends the lines of all findings.
fn write_all(alloc: Global, findings: &[Finding], text: &mut Vec<u8>) -> Result<(), AllocError>
    ensures { OnOk result (text.new.items ≡ text.old.items ++ explained_text findings.now) }
{
    let lines = write_explained_lines(alloc, findings)?;
    text.extend_from_slice(&lines)
}

/// Returns the index of the first finding about the client.
pub(crate) fn place_of(path: &ClientPath, findings: &[Finding]) -> Option<usize>
    ensures place { result ≡ position (is_of_client path.now) findings.now }
    ensures within { IfSome result (λ p. p < length findings.now) }
{
    findings
        .iter()
        .position(|finding| is_of_client(path, finding))
}

/// Returns the finding at an index as a slice, or an empty slice if there is no index.
pub(crate) fn own_at(findings: &[Finding], place: Option<usize>) -> &[Finding]
    requires { IfSome place (λ p. p < length findings.now) }
    ensures { result.now ≡ own_at findings.now place }
{
    let Some(place) = place else {
        return &findings[..0];
    };
    let rest = &findings[place..];
    &rest[..1]
}

/// Returns the findings before an index, or an empty slice if there is no index.
pub(crate) fn earlier_at(findings: &[Finding], place: Option<usize>) -> &[Finding]
    requires { IfSome place (λ p. p < length findings.now) }
    ensures { result.now ≡ earlier_at findings.now place }
{
    let Some(place) = place else {
        return &findings[..0];
    };
    &findings[..place]
}

/// Returns the outcome of the first of the findings, if that finding has one.
pub(crate) fn first_outcome(findings: &[Finding]) -> Option<&Outcome>
    ensures { option_copied result ≡ outcome_in findings.now }
{
    match findings.first() {
        Some(Finding::Tried { outcome, .. }) => Some(outcome),
        _ => None,
    }
}

/// Appends the line of the client's first finding, if there is one, after the lines of the grants before it.
fn write_tries(
    alloc: Global,
    path: &ClientPath,
    findings: &[Finding],
    text: &mut Vec<u8>,
) -> Result<(), AllocError>
    ensures { OnOk result (text.new.items ≡ text.old.items ++ explained_text (picked_tries path.now findings.now)) }
{
    let place = place_of(path, findings);
    let earlier = earlier_at(findings, place);
    write_grants(alloc, earlier, text)?;
    let own = own_at(findings, place);
    write_all(alloc, own, text)
}

/// Appends the line of an agent on which no client is tried, or else the lines that `write_tries` writes.
fn write_client(
    alloc: Global,
    path: &ClientPath,
    findings: &[Finding],
    text: &mut Vec<u8>,
) -> Result<(), AllocError>
    ensures { OnOk result (text.new.items ≡ text.old.items ++ explained_text (filter bars_all findings.now ++ picked_tries path.now findings.now)) }
{
    write_barred(alloc, findings, text)?;
    write_tries(alloc, path, findings, text)
}

/// Appends the lines of the selected findings. The findings are those of one agent, or those of the suppressed clients.
pub fn write_picked(
    alloc: Global,
    pick: &Pick,
    findings: &[Finding],
    text: &mut Vec<u8>,
) -> Result<(), AllocError>
    ensures { OnOk result (text.new.items ≡ text.old.items ++ explained_text (picked pick.now findings.now)) }
{
    match pick {
        Pick::All => write_all(alloc, findings, text),
        Pick::Agent(name) => write_agent(alloc, name, findings, text),
        Pick::Client(path) => write_client(alloc, path, findings, text),
    }
}
