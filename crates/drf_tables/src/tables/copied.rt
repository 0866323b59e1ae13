//! Copies of the tables.
#![tactic(auto)]

ghost use Rattle.std.specs.Prelude.{◌≡◌, [], ◌∷◌, ◌++◌, false, is_some, Some, IfOk, OnOk};
ghost use Rattle.std.specs.Global.{Vec};
ghost use Rattle.std.specs.Map.{lookup};
ghost use Rattle.indexmap.specs.IndexMap.{insert_entry};
ghost use Rattle.drf_role.specs.Path.{same_path};
ghost use Rattle.drf_role.specs.Text.{Text, same_text};
ghost use Rattle.drf_hash.specs.Slots.{filled};
ghost use Rattle.drf_rows.specs.declared.rows.ClientRow.{ClientRow};
ghost use Rattle.drf_tables.specs.Inside.{framework_rows};
ghost use Rattle.drf_tables.specs.limits.Recounting.{IsRaisedIf};
ghost use Rattle.drf_tables.specs.declared.tables.Agent.{Agent};

use crate::registry::Registry;
use crate::registry::free_part::FreePart;
use crate::registry::new_name::NewName;
use crate::tables::{Agent, Tables};
use drf_amount::Algebra;
use drf_bundle::Quantities;
use drf_gates::{Consumption, FilterTable, QuotaLimits};
use drf_hash::ByRole;
use drf_holdings::Holdings;
use drf_role::{Name, Role};
use drf_rows::{ClientRow, copy_all};
use indexmap::IndexMap;
use std::alloc::AllocError;

/// Returns a copy of the free resources of an agent, if they are known.
fn copy_free(free: &Option<FreePart>) -> Result<Option<FreePart>, AllocError>
    ensures { IfOk result (λ copy. copy ≡ free.now) }
{
    match free {
        Some(known) => Ok(Some(known.copy()?)),
        None => Ok(None),
    }
}

/// Returns a copy of an agent.
fn copy_agent(agent: &Agent) -> Result<Agent, AllocError>
    ensures { IfOk result (λ copy. copy ≡ agent.now) }
{
    Ok(Agent {
        total: agent.total.copy()?,
        active: agent.active,
        free: copy_free(&agent.free)?,
    })
}

/// Sets the weight of a role, in thousandths.
fn put_weight(weights: &mut ByRole<u64>, role: Role, weight: u64) -> Result<(), AllocError>
    ensures { OnOk result (weights.new.entries ≡ insert_entry same_path weights.old.entries role weight) }
{
    weights.insert(role, weight)?;
    Ok(())
}

/// Adds a copy of the agent in a slot, if there is one.
fn copy_slot(copy: &mut Registry<Agent>, slot: &Option<(Name, Agent)>) -> Result<(), AllocError>
    requires { (e : Text × Agent) → slot.now ≡ Some e → is_some (lookup (same_text e.0) copy.old.entries) ≡ false }
    ensures { OnOk result (copy.new.entries ≡ copy.old.entries ++ filled (slot.now ∷ [])) }
{
    let Some(entry) = slot else {
        return Ok(());
    };
    let named = NewName::of(entry.0.copy()?)?;
    let agent = copy_agent(&entry.1)?;
    copy.reserve()?;
    copy.add(named, agent);
    Ok(())
}

/// Returns a copy of the agents, in their order.
fn copy_agents(agents: &Registry<Agent>) -> Result<Registry<Agent>, AllocError>
    ensures { IfOk result (λ copy. copy.entries ≡ agents.now.entries) }
{
    let mut copy = Registry::new(*agents.allocator(), agents.key());
    for slot in agents.slots() {
        copy_slot(&mut copy, slot)?;
    }
    Ok(copy)
}

/// Adds a copy of the framework in a slot, if there is one.
fn copy_framework(
    copy: &mut Registry<Vec<ClientRow>>,
    slot: &Option<(Name, Vec<ClientRow>)>,
) -> Result<(), AllocError>
    requires { (e : Text × Vec ClientRow) → slot.now ≡ Some e → is_some (lookup (same_text e.0) copy.old.entries) ≡ false }
    ensures { OnOk result (framework_rows copy.new.entries ≡ framework_rows copy.old.entries ++ framework_rows (filled (slot.now ∷ []))) }
{
    let Some(entry) = slot else {
        return Ok(());
    };
    let named = NewName::of(entry.0.copy()?)?;
    let clients = copy_all(*copy.allocator(), &entry.1)?;
    copy.reserve()?;
    copy.add(named, clients.into_vec());
    Ok(())
}

/// Returns a copy of the frameworks and their clients, in their order.
fn copy_frameworks(
    frameworks: &Registry<Vec<ClientRow>>,
) -> Result<Registry<Vec<ClientRow>>, AllocError>
    ensures { IfOk result (λ copy. framework_rows copy.entries ≡ framework_rows frameworks.now.entries) }
{
    let mut copy = Registry::new(*frameworks.allocator(), frameworks.key());
    for slot in frameworks.slots() {
        copy_framework(&mut copy, slot)?;
    }
    Ok(copy)
}

/// Returns a copy of the weights, in their order.
fn copy_weights(weights: &ByRole<u64>) -> Result<ByRole<u64>, AllocError>
    ensures { IfOk result (λ copy. copy.entries ≡ weights.now.entries) }
{
    // Only the contract of this call says that no role has two weights.
    let _ = weights.len();
    let mut copy = IndexMap::with_hasher(*weights.allocator(), *weights.hasher());
    for (role, weight) in weights {
        let role = role.copy()?;
        put_weight(&mut copy, role, *weight)?;
    }
    Ok(copy)
}

// `Tables::copy` keeps only four values alive across its `?`s, each with its own `Drop`: what is generated for a function body grows
// with the number of owned values that are alive at each exit.

/// Copies of the agents and the frameworks.
struct CopiedMembers {
    agents: Registry<Agent>,
    frameworks: Registry<Vec<ClientRow>>,
}

impl CopiedMembers {
    fn into_pair(self) -> (Registry<Agent>, Registry<Vec<ClientRow>>)
        ensures agents { result.0.entries ≡ self.agents.entries }
        ensures frameworks { result.1.entries ≡ self.frameworks.entries }
    {
        let CopiedMembers { agents, frameworks } = self;
        (agents, frameworks)
    }
}

impl Drop for CopiedMembers {
    fn drop(self) {
        let CopiedMembers {
            agents: _agents,
            frameworks: _frameworks,
        } = self;
    }
}

/// Copies of the offers and tasks, and of the filters.
struct CopiedHoldings {
    holdings: Holdings,
    filters: FilterTable,
}

impl CopiedHoldings {
    fn into_pair(self) -> (Holdings, FilterTable)
        ensures holdings { result.0 ≡ self.holdings }
        ensures filters { result.1 ≡ self.filters }
    {
        let CopiedHoldings { holdings, filters } = self;
        (holdings, filters)
    }
}

impl Drop for CopiedHoldings {
    fn drop(self) {
        let CopiedHoldings {
            holdings: _holdings,
            filters: _filters,
        } = self;
    }
}

/// Copies of the weights and the total.
struct CopiedAmounts {
    weights: ByRole<u64>,
    total: Quantities,
}

impl CopiedAmounts {
    fn into_pair(self) -> (ByRole<u64>, Quantities)
        ensures weights { result.0.entries ≡ self.weights.entries }
        ensures total { result.1 ≡ self.total }
    {
        let CopiedAmounts { weights, total } = self;
        (weights, total)
    }
}

impl Drop for CopiedAmounts {
    fn drop(self) {
        let CopiedAmounts {
            weights: _weights,
            total: _total,
        } = self;
    }
}

/// Copies of the quota limits, and of what roles consume.
struct CopiedQuota {
    limits: QuotaLimits,
    consumption: Option<Consumption>,
}

impl CopiedQuota {
    fn into_pair(self) -> (QuotaLimits, Option<Consumption>)
        ensures limits { result.0 ≡ self.limits }
        ensures consumption { result.1 ≡ self.consumption }
    {
        let CopiedQuota {
            limits,
            consumption,
        } = self;
        (limits, consumption)
    }
}

impl Drop for CopiedQuota {
    fn drop(self) {
        let CopiedQuota {
            limits: _limits,
            consumption: _consumption,
        } = self;
    }
}

/// Copies the agents and the frameworks.
fn copy_members(
    agents: &Registry<Agent>,
    frameworks: &Registry<Vec<ClientRow>>,
) -> Result<CopiedMembers, AllocError>
    ensures agents { IfOk result (λ copy. copy.agents.entries ≡ agents.now.entries) }
    ensures frameworks { IfOk result (λ copy. framework_rows copy.frameworks.entries ≡ framework_rows frameworks.now.entries) }
{
    let agents = copy_agents(agents)?;
    let frameworks = copy_frameworks(frameworks)?;
    Ok(CopiedMembers { agents, frameworks })
}

/// Copies the offers and tasks, and the filters.
fn copy_holdings(holdings: &Holdings, filters: &FilterTable) -> Result<CopiedHoldings, AllocError>
    ensures holdings { IfOk result (λ copy. copy.holdings ≡ holdings.now) }
    ensures filters { IfOk result (λ copy. copy.filters ≡ filters.now) }
{
    let holdings = holdings.copy()?;
    let filters = filters.copy()?;
    Ok(CopiedHoldings { holdings, filters })
}

/// Copies the weights and the total.
fn copy_amounts(weights: &ByRole<u64>, total: &Quantities) -> Result<CopiedAmounts, AllocError>
    ensures weights { IfOk result (λ copy. copy.weights.entries ≡ weights.now.entries) }
    ensures total { IfOk result (λ copy. copy.total ≡ total.now) }
{
    let weights = copy_weights(weights)?;
    let total = total.copy()?;
    Ok(CopiedAmounts { weights, total })
}

/// Copies what roles consume, if that is known.
fn copy_consumption(consumption: &Option<Consumption>) -> Result<Option<Consumption>, AllocError>
    ensures { IfOk result (λ copy. IsRaisedIf consumption.now copy (λ _ _. 0)) }
{
    match consumption {
        Some(counted) => Ok(Some(counted.copy()?)),
        None => Ok(None),
    }
}

/// Copies the quota limits, and what roles consume, if that is known.
fn copy_quota(
    limits: &QuotaLimits,
    consumption: &Option<Consumption>,
) -> Result<CopiedQuota, AllocError>
    ensures limits { IfOk result (λ copy. copy.limits ≡ limits.now) }
    ensures consumption { IfOk result (λ copy. IsRaisedIf consumption.now copy.consumption (λ _ _. 0)) }
{
    let limits = limits.copy()?;
    let consumption = copy_consumption(consumption)?;
    Ok(CopiedQuota {
        limits,
        consumption,
    })
}

impl Tables {
    /// Returns separate tables with the same rows.
    pub fn copy(&self) -> Result<Tables, AllocError>
        ensures { IfOk result (λ copy. copy.rows ≡ self.now.rows) }
    {
        let members = copy_members(&self.agents, &self.frameworks)?;
        let held = copy_holdings(&self.holdings, &self.filters)?;
        let amounts = copy_amounts(&self.weights, &self.total)?;
        let quota = copy_quota(&self.limits, &self.consumption)?;
        let (agents, frameworks) = members.into_pair();
        let (holdings, filters) = held.into_pair();
        let (weights, total) = amounts.into_pair();
        let (limits, consumption) = quota.into_pair();
        Ok(Tables {
            agents,
            frameworks,
            holdings,
            filters,
            weights,
            clock: self.clock,
            next_offer: self.next_offer,
            events: self.events,
            total,
            clients: self.clients,
            limits,
            consumption,
            sweep: self.sweep,
        })
    }
}
