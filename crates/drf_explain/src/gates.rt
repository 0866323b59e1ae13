//! The outcome of trying a client on an agent.
ghost use Rattle.std.specs.Prelude.{◌≡◌, max, filter, IfOk};
ghost use Rattle.std.specs.Option.{option_copied};
ghost use Rattle.drf_bundle.specs.Bundle.{covers};
ghost use Rattle.drf_gates.specs.quota.Allowance.{used_at};
ghost use Rattle.drf_rows.specs.Client.{Client, path_of};
ghost use Rattle.drf_rows.specs.Filters.{holds_back, is_on_agent};
ghost use Rattle.drf_rows.specs.Quota.{binds, consumption, room_under};
ghost use Rattle.drf_rows.specs.declared.rows.AgentRow.{AgentRow};
ghost use Rattle.drf_rows.specs.declared.rows.Rows.{Rows};
ghost use Rattle.drf_explain.specs.Explained.{held_until, limiting_role, outcome_by, shortage, tighter, tightest, worthy_scalar};
ghost use Rattle.drf_explain.specs.Gates.{AreGatesOf, IsQuotaOf, client_at, joined, reduced};

use crate::finding::Outcome;
use drf_amount::Algebra;
use drf_bundle::Bundle;
use drf_gates::Quota;
use drf_role::{ClientPath, Name, Role};
use drf_rows::{Copied, FilterRow, LimitRow, Rows, is_worth_an_offer};
use std::alloc::{AllocError, Global};

/// What decides, besides the free resources, what a client gets on an agent: the timestamp in milliseconds, the filters on that agent, and
/// the limits of all roles.
#[derive(Drop)]
pub struct Gates<'a> {
    agent: &'a Name,
    timestamp: u64,
    filters: Vec<FilterRow>,
    limits: &'a [LimitRow],
}

/// Returns the scalar that makes a part large enough for an offer: `cpus` if there is enough of it, otherwise `mem`.
fn worthy_scalar(part: &Bundle) -> &'static str
    ensures { result.now ≡ worthy_scalar part.now }
{
    if 10 <= part.quantities().get("cpus") {
        "cpus"
    } else {
        "mem"
    }
}

/// Returns whether a limit is that of the role or of a role above it, and names the scalar.
fn binds(limit: &LimitRow, role: &Role, label: &str) -> bool
    ensures { result ≡ binds role.now label.now limit.now }
{
    role.is_within(&limit.role) && limit.limit.is_named(label)
}

/// Returns how much more of a scalar can be consumed under a limit, in thousandths.
fn room_under(quota: &Quota<'_>, label: &str, limit: &LimitRow) -> u64
    ensures { result ≡ room_under (used_at quota.now.used) label.now limit.now }
{
    limit
        .limit
        .get(label)
        .saturating_sub(quota.consumption(&limit.role, label))
}

/// Returns the limit that leaves less of a scalar, or the first if both leave equally much.
fn tighter<'a>(
    quota: &Quota<'_>,
    label: &str,
    first: &'a LimitRow,
    second: &'a LimitRow,
) -> &'a LimitRow
    ensures { result.now ≡ tighter (room_under (used_at quota.now.used) label.now) first.now second.now }
{
    if room_under(quota, label, second) < room_under(quota, label, first) {
        second
    } else {
        first
    }
}

/// Returns the tighter of the tightest limit found so far and one more, which counts only if it applies to the role.
fn tightest_with<'a>(
    quota: &Quota<'_>,
    role: &Role,
    label: &str,
    found: Option<&'a LimitRow>,
    limit: &'a LimitRow,
) -> Option<&'a LimitRow>
    ensures { option_copied result ≡ reduced (binds role.now label.now) (λ l. l) (tighter (room_under (used_at quota.now.used) label.now)) (option_copied found.entry) limit.now }
{
    if !binds(limit, role, label) {
        return found;
    }
    match found {
        Some(first) => Some(tighter(quota, label, first, limit)),
        None => Some(limit),
    }
}

/// Returns the limit that leaves least of a scalar, among those that apply to the role. Returns `None` if no limit does.
fn tightest<'a>(
    quota: &Quota<'_>,
    limits: &'a [LimitRow],
    role: &Role,
    label: &str,
) -> Option<&'a LimitRow>
    ensures { option_copied result ≡ tightest limits.now (used_at quota.now.used) role.now label.now }
{
    let mut found = None;
    for limit in limits {
        found = tightest_with(quota, role, label, found, limit);
    }
    found
}

/// Returns the role with the tightest limit on the scalar that makes a part large enough for an offer, or `role` if no limit applies to it.
fn limiting_role(
    quota: Option<&Quota<'_>>,
    limits: &[LimitRow],
    role: &Role,
    part: &Bundle,
) -> Result<Role, AllocError>
    ensures { IfOk result (λ limiting. (rows : Rows) → IsQuotaOf rows (option_copied quota.entry) → limits.now ≡ rows.limits
        → limiting ≡ limiting_role rows.limits (consumption rows) role.now part.now) }
{
    let Some(quota) = quota else {
        return role.copy();
    };
    match tightest(quota, limits, role, worthy_scalar(part)) {
        Some(limit) => limit.role.copy(),
        None => role.copy(),
    }
}

/// Returns why a client is offered nothing. `part` is what its role can use of the free resources; the limits leave too little of it.
fn shortage(
    quota: Option<&Quota<'_>>,
    limits: &[LimitRow],
    role: &Role,
    free: &Bundle,
    part: &Bundle,
) -> Result<Outcome, AllocError>
    ensures { IfOk result (λ why. (rows : Rows) → IsQuotaOf rows (option_copied quota.entry) → limits.now ≡ rows.limits
        → why ≡ shortage rows.limits (consumption rows) role.now free.now part.now) }
{
    if is_worth_an_offer(part) {
        let role = limiting_role(quota, limits, role, part)?;
        return Ok(Outcome::OverLimit { role });
    }
    if free.entries().is_empty() {
        return Ok(Outcome::NothingLeft);
    }
    if part.entries().is_empty() {
        return Ok(Outcome::ReservedForOthers);
    }
    Ok(Outcome::BelowThreshold)
}

/// Returns whether the first bundle includes all of the second.
fn covers(whole: &Bundle, part: &Bundle) -> bool
    ensures { result ≡ covers whole.now part.now }
{
    whole.covers(part)
}

/// Returns whether a filter of the client on the agent is in force at the timestamp and covers the bundle.
fn holds_back(
    filter: &FilterRow,
    timestamp: u64,
    client: &ClientPath,
    agent: &Name,
    bundle: &Bundle,
) -> bool
    ensures { result ≡ holds_back timestamp (client_at client.now) agent.now bundle.now filter.now }
{
    timestamp < filter.until
        && (filter.role == *client.role() && filter.framework == *client.framework())
        && filter.agent == *agent
        && covers(&filter.bundle, bundle)
}

/// Returns the greater of two numbers, or the second if there is no first one.
fn greater(known: Option<u64>, number: u64) -> u64
    ensures { result ≡ joined max known number }
{
    match known {
        Some(other) => other.max(number),
        None => number,
    }
}

/// Returns the latest end of filters that cover the bundle, given that of the filters before and one more filter.
fn held_with(
    filter: &FilterRow,
    timestamp: u64,
    client: &ClientPath,
    agent: &Name,
    bundle: &Bundle,
    until: Option<u64>,
) -> Option<u64>
    ensures { result ≡ reduced (holds_back timestamp (client_at client.now) agent.now bundle.now) (λ f. f.until) max until filter.now }
{
    if !holds_back(filter, timestamp, client, agent, bundle) {
        return until;
    }
    Some(greater(until, filter.until))
}

/// Returns the latest end of the filters that cover the bundle for the client on the agent. Returns `None` if none does.
fn held_until(
    filters: &[FilterRow],
    timestamp: u64,
    client: &ClientPath,
    agent: &Name,
    bundle: &Bundle,
) -> Option<u64>
    ensures { result ≡ held_until filters.now timestamp (client_at client.now) agent.now bundle.now }
{
    let mut until = None;
    for filter in filters {
        until = held_with(filter, timestamp, client, agent, bundle, until);
    }
    until
}

/// Returns copies of the filters on an agent.
fn filters_on(
    alloc: Global,
    filters: &[FilterRow],
    agent: &Name,
) -> Result<Vec<FilterRow>, AllocError>
    ensures { IfOk result (λ kept. kept.items ≡ filter (is_on_agent agent.now) filters.now) }
{
    let mut kept = Vec::new(alloc);
    for filter in filters {
        if filter.agent == *agent {
            kept.push(filter.copy()?)?;
        }
    }
    Ok(kept)
}

impl<'a> Gates<'a> {
    /// Returns what decides on the agent of that name. Returns an error if memory runs out.
    pub fn on(alloc: Global, rows: &'a Rows, agent: &'a Name) -> Result<Gates<'a>, AllocError>
        ensures { IfOk result (λ gates. (a : AgentRow) → agent.now ≡ a.name → AreGatesOf rows.now a gates) }
    {
        let filters = filters_on(alloc, rows.filters.as_slice(), agent)?;
        Ok(Gates {
            agent,
            timestamp: rows.clock,
            filters,
            limits: rows.limits.as_slice(),
        })
    }

    /// Returns the outcome of trying a client. `free` are the free resources, `part` is the part of them that its role can use, and `bundle` is what the limits
    /// leave of `part`.
    pub fn outcome(
        &self,
        quota: Option<&Quota<'_>>,
        client: &ClientPath,
        free: &Bundle,
        part: &Bundle,
        bundle: Bundle,
    ) -> Result<Outcome, AllocError>
        ensures { IfOk result (λ outcome. (rows : Rows) (agent : AgentRow) (of : Client) → AreGatesOf rows agent self.now
            → IsQuotaOf rows (option_copied quota.entry) → client.now ≡ path_of of → outcome ≡ outcome_by rows agent of free.now part.now bundle) }
    {
        if !is_worth_an_offer(&bundle) {
            return shortage(quota, self.limits, client.role(), free, part);
        }
        match held_until(&self.filters, self.timestamp, client, self.agent, &bundle) {
            Some(until) => Ok(Outcome::HeldBack { until }),
            None => Ok(Outcome::Grant(bundle)),
        }
    }
}
