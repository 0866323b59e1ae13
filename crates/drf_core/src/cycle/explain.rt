//! What the next cycle would do, client by client. The cycle is tried on copies of the tables and the sorter.
ghost use Rattle.std.specs.Prelude.{◌≡◌, true, false, ◌+◌, ◌<◌, ◌≤◌, ◌&&◌, List, ◌++◌, ◌∷◌, [], Some, length, map, slice_get, is_some, IfOk, OnOk, OnErr, MatchOption};
ghost use Rattle.std.specs.Option.{option_copied};
ghost use Rattle.drf_role.specs.Path.{Path};
ghost use Rattle.drf_rows.specs.Client.{Client, path_of};
ghost use Rattle.drf_rows.specs.Cycle.{at_timestamp, free_of, is_allocatable};
ghost use Rattle.drf_rows.specs.Step.{live_rows};
ghost use Rattle.drf_rows.specs.declared.limits.TheConstants.{LATEST_TIMESTAMP};
ghost use Rattle.drf_rows.specs.declared.rows.AgentRow.{AgentRow};
ghost use Rattle.drf_rows.specs.declared.rows.Rows.{Rows};
ghost use Rattle.drf_sorter.specs.Content.{IsOrderOf, IsSound};
ghost use Rattle.drf_explain.specs.Each.{reported_here, turns_by_agent};
ghost use Rattle.drf_explain.specs.declared.finding.Finding.{Finding};
ghost use Rattle.drf_explain.specs.Explained.{explained, reported_of_agents};
ghost use Rattle.drf_explain.specs.Gates.{AreGatesOf};
ghost use Rattle.drf_tables.specs.cycle.Drafts.{with_offers};
ghost use Rattle.drf_sorter.specs.Content.{IsSame};
ghost use Rattle.drf_content.specs.Content.{content_of};
ghost use Rattle.drf_core.specs.cycle.Drafting.{IsCycleAt, turn_at};
ghost use Rattle.drf_core.specs.cycle.Entitling.{IsQuotaOf};
ghost use Rattle.drf_core.specs.cycle.Explaining.{AreReportedAt, AreTried, IsOutcomeOf, left_reported, reported_at, reported_by, untouched_at};
ghost use Rattle.drf_laws.specs.Kept.{IsKept};

use crate::cluster::Cluster;
use crate::cycle::free::part_within;
use crate::cycle::{Drafts, begin_turn, end_turn, goes_on, has_next, lend_consumption, try_first};
use drf_amount::Algebra;
use drf_bundle::Bundle;
use drf_explain::{Finding, Gates, TurnReported, suppressed};
use drf_gates::Quota;
use drf_role::{ClientPath, Name};
use drf_rows::{Limits, Rows};
use drf_sorter::Sorter;
use drf_tables::Tables;
use std::alloc::{AllocError, Global};
use std::marker::Model;

/// Returns the number of active clients.
fn count_active<S: Sorter>(sorter: &mut S) -> Result<u64, AllocError>
    requires { IsSound (S.content sorter.old) }
    ensures count { IfOk result (λ count. (paths : List Path) × IsOrderOf (S.content sorter.old) paths × (count ≡ length paths)) }
    ensures same { S.content sorter.new ≡ S.content sorter.old }
{
    let order = sorter.order()?;
    Ok(order.len() as u64)
}

/// Returns the outcome of trying a client on an agent with these gates.
fn outcome_of(
    gates: &Gates,
    quota: Option<&Quota<'_>>,
    free: &Bundle,
    agent: &Name,
    client: &ClientPath,
) -> Result<Finding, AllocError>
    ensures { IfOk result (λ finding. (rows : Rows) (a : AgentRow) → AreGatesOf rows a gates.now → IsQuotaOf rows (option_copied quota.entry)
        → free.now ≡ free_of rows a → agent.now ≡ a.name → IsOutcomeOf rows a client.now finding) }
{
    let part = free.part_for(client.role())?;
    let bundle = part_within(quota, free, client.role())?;
    let agent = agent.copy()?;
    let path = client.copy()?;
    let outcome = gates.outcome(quota, client, free, &part, bundle)?;
    Ok(Finding::Tried {
        agent,
        client: path,
        outcome,
    })
}

/// Appends the outcome for the first client in the queue.
fn explain_first<S: Sorter>(
    sorter: &S,
    gates: &Gates,
    quota: Option<&Quota<'_>>,
    free: &Bundle,
    agent: &Name,
    findings: &mut Vec<Finding>,
) -> Result<(), AllocError>
    ensures { OnOk result ((path : Path) (rows : Rows) (a : AgentRow) → slice_get (S.queue sorter.now) 0 ≡ Some path → AreGatesOf rows a gates.now
        → IsQuotaOf rows (option_copied quota.entry) → free.now ≡ free_of rows a → agent.now ≡ a.name
        → (finding : _) × IsOutcomeOf rows a path finding × (findings.new.items ≡ findings.old.items ++ finding ∷ [])) }
{
    let Some(client) = sorter.first() else {
        return Ok(());
    };
    let finding = outcome_of(gates, quota, free, agent, client)?;
    findings.push(finding)?;
    Ok(())
}

/// Appends how many clients are not tried, if there are any.
fn count_untried(
    agent: &Name,
    left: &Bundle,
    clients: u64,
    findings: &mut Vec<Finding>,
) -> Result<(), AllocError>
    ensures { OnOk result (findings.new.items ≡ findings.old.items ++ left_reported agent.now left.now clients) }
{
    if clients == 0 {
        return Ok(());
    }
    let agent = agent.copy()?;
    let left = left.copy()?;
    findings.push(Finding::Left {
        agent,
        left,
        clients,
    })?;
    Ok(())
}

/// Appends the outcome for each client in the queue. Nothing is granted meanwhile.
fn explain_queue<S: Sorter>(
    sorter: &mut S,
    gates: &Gates,
    quota: Option<&Quota<'_>>,
    free: &Bundle,
    agent: &Name,
    findings: &mut Vec<Finding>,
) -> Result<(), AllocError>
    ensures content { S.content sorter.new ≡ S.content sorter.old }
    ensures reported { OnOk result ((clients : List Client) (rows : Rows) (a : AgentRow) → S.queue sorter.old ≡ map path_of clients → AreGatesOf rows a gates.now
        → IsQuotaOf rows (option_copied quota.entry) → free.now ≡ free_of rows a → agent.now ≡ a.name
        → findings.new.items ≡ findings.old.items ++ map (reported_here rows a) clients) }
{
    while has_next(sorter) {
        explain_first(sorter, gates, quota, free, agent, findings)?;
        sorter.pass();
    }
    Ok(())
}

/// Appends what is reported of the clients that remain when too little is left for an offer: the outcome for each (`each`), or
/// their number.
fn explain_remaining<S: Sorter>(
    each: bool,
    sorter: &mut S,
    gates: &Gates,
    quota: Option<&Quota<'_>>,
    free: &Bundle,
    agent: &Name,
    waiting: u64,
    findings: &mut Vec<Finding>,
) -> Result<(), AllocError>
    requires { waiting ≡ length (S.queue sorter.old) }
    ensures content { S.content sorter.new ≡ S.content sorter.old }
    ensures reported { OnOk result ((clients : List Client) (rows : Rows) (a : AgentRow) → S.queue sorter.old ≡ map path_of clients → AreGatesOf rows a gates.now
        → IsQuotaOf rows (option_copied quota.entry) → free.now ≡ free_of rows a → agent.now ≡ a.name
        → (is_some (slice_get (S.queue sorter.old) 0) && is_allocatable free.now) ≡ false
        → findings.new.items ≡ findings.old.items ++ reported_by each rows a clients) }
{
    if each {
        return explain_queue(sorter, gates, quota, free, agent, findings);
    }
    count_untried(agent, free, waiting, findings)
}

/// Tries the clients in order on an agent until too little is left for an offer, and appends the outcomes. Then appends what is
/// reported of the remaining clients.
fn explain_clients<S: Sorter>(
    each: bool,
    gates: &Gates,
    tables: &Tables,
    sorter: &mut S,
    place: usize,
    drafts: &mut Drafts,
    findings: &mut Vec<Finding>,
) -> Result<(), AllocError>
    requires cycle { IsCycleAt (S.content sorter.old) tables.now drafts.old place }
    requires place { place < length tables.now.rows.agents }
    requires gates { (agent : AgentRow) → slice_get tables.now.rows.agents place ≡ Some agent → AreGatesOf tables.now.rows agent gates.now }
    ensures tried { OnOk result (AreTried (with_offers tables.now.rows drafts.old.offers.items) (with_offers tables.now.rows drafts.new.offers.items) place) }
    ensures reported { OnOk result (AreReportedAt each (with_offers tables.now.rows drafts.old.offers.items) place findings.old.items findings.new.items) }
    ensures cycle { OnOk result (IsCycleAt (S.content sorter.new) tables.now drafts.new (place + 1)) }
{
    let agent = tables.agent_name(place);
    let mut waiting = count_active(sorter)?;
    let mut free = begin_turn(tables, sorter, place, drafts)?;
    while goes_on(sorter, &free) {
        let quota = tables.quota_under(drafts.consumption.as_ref());
        explain_first(sorter, gates, quota.as_ref(), &free.bundle, agent, findings)?;
        try_first(tables, sorter, place, &mut free, drafts)?;
        sorter.pass();
        waiting -= 1;
    }
    let quota = tables.quota_under(drafts.consumption.as_ref());
    explain_remaining(
        each,
        sorter,
        gates,
        quota.as_ref(),
        &free.bundle,
        agent,
        waiting,
        findings,
    )?;
    end_turn(place, free, drafts)
}

/// Appends the findings of the turn of an agent: for each client (`each`), or for those that are tried before too little is left.
fn explain_turn<S: Sorter>(
    alloc: Global,
    each: bool,
    rows: &Rows,
    tables: &Tables,
    sorter: &mut S,
    place: usize,
    drafts: &mut Drafts,
    findings: &mut Vec<Finding>,
) -> Result<(), AllocError>
    requires rows { rows.now ≡ live_rows tables.now.rows }
    requires cycle { IsCycleAt (S.content sorter.old) tables.now drafts.old place }
    requires place { place < length tables.now.rows.agents }
    ensures turn { OnOk result (with_offers tables.now.rows drafts.new.offers.items
        ≡ turn_at (with_offers tables.now.rows drafts.old.offers.items) place) }
    ensures reported { OnOk result (findings.new.items ≡ findings.old.items ++ reported_at each (with_offers tables.now.rows drafts.old.offers.items) place) }
    ensures cycle { OnOk result (IsCycleAt (S.content sorter.new) tables.now drafts.new (place + 1)) }
{
    let agent = tables.agent_name(place);
    if !tables.is_active(place) {
        let agent = agent.copy()?;
        findings.push(Finding::Inactive { agent })?;
        return Ok(());
    }
    if tables.free(place).entries().is_empty() {
        let agent = agent.copy()?;
        findings.push(Finding::NothingFree { agent })?;
        return Ok(());
    }
    let gates = Gates::on(alloc, rows, agent)?;
    explain_clients(each, &gates, tables, sorter, place, drafts, findings)?;
    Ok(())
}

/// Appends, for each client in the turn of an agent, what its outcome would be if it were tried first. Nothing is granted.
fn explain_untouched<S: Sorter>(
    alloc: Global,
    rows: &Rows,
    tables: &Tables,
    sorter: &mut S,
    place: usize,
    drafts: &Drafts,
    findings: &mut Vec<Finding>,
) -> Result<(), AllocError>
    requires rows { rows.now ≡ live_rows tables.now.rows }
    requires cycle { IsCycleAt (S.content sorter.old) tables.now drafts.now place }
    requires place { place < length tables.now.rows.agents }
    ensures content { S.content sorter.new ≡ S.content sorter.old }
    ensures reported { OnOk result (findings.new.items ≡ findings.old.items ++ untouched_at (with_offers tables.now.rows drafts.now.offers.items) place) }
{
    let agent = tables.agent_name(place);
    if !tables.is_active(place) {
        return Ok(());
    }
    if tables.free(place).entries().is_empty() {
        return Ok(());
    }
    let gates = Gates::on(alloc, rows, agent)?;
    let free = begin_turn(tables, sorter, place, drafts)?;
    let quota = tables.quota_under(drafts.consumption.as_ref());
    explain_queue(
        sorter,
        &gates,
        quota.as_ref(),
        &free.bundle,
        agent,
        findings,
    )
}

/// Appends the findings of the turns of all agents.
fn explain_turns<S: Sorter>(
    alloc: Global,
    rows: &Rows,
    tables: &Tables,
    sorter: &mut S,
    drafts: &mut Drafts,
    findings: &mut Vec<Finding>,
) -> Result<(), AllocError>
    requires rows { rows.now ≡ live_rows tables.now.rows }
    requires cycle { IsCycleAt (S.content sorter.old) tables.now drafts.old 0 }
    requires none { drafts.old.offers.items ≡ [] }
    ensures { OnOk result (findings.new.items ≡ findings.old.items ++ reported_of_agents tables.now.rows tables.now.rows.agents) }
{
    for place in 0..tables.agent_count() {
        explain_turn(alloc, false, rows, tables, sorter, place, drafts, findings)?;
    }
    Ok(())
}

/// Begins a cycle at a timestamp, in milliseconds, and returns the current state and empty drafts.
fn begin<S: Sorter>(
    alloc: Global,
    limits: &Limits,
    tables: &mut Tables,
    sorter: &S,
    at: u64,
) -> Result<(Rows, Drafts), AllocError>
    requires sorted { IsSame (S.content sorter.now) (content_of tables.old.rows) }
    requires kept { IsKept limits.now tables.old.rows }
    requires early { at ≤ LATEST_TIMESTAMP }
    ensures timestamp { OnOk result (tables.new.rows ≡ at_timestamp tables.old.rows at) }
    ensures rows { IfOk result (λ begun. begun.0 ≡ live_rows tables.new.rows) }
    ensures none { IfOk result (λ begun. begun.1.offers.items ≡ []) }
    ensures cycle { IfOk result (λ begun. IsCycleAt (S.content sorter.now) tables.new begun.1 0) }
{
    let timestamp = tables.clock().max(at);
    tables.set_clock(timestamp);
    tables.settle()?;
    let consumption = lend_consumption(tables)?;
    let rows = tables.rows()?;
    let drafts = Drafts {
        offers: Vec::new(alloc),
        lefts: Vec::new(alloc),
        consumption,
    };
    Ok((rows, drafts))
}

/// Returns what a cycle at a timestamp (in milliseconds) would offer to each client, or why it would offer nothing. The tables
/// and the sorter must not be used afterwards.
fn explain<S: Sorter>(
    alloc: Global,
    limits: &Limits,
    tables: &mut Tables,
    sorter: &mut S,
    at: u64,
) -> Result<Vec<Finding>, AllocError>
    requires sorted { IsSame (S.content sorter.old) (content_of tables.old.rows) }
    requires kept { IsKept limits.now tables.old.rows }
    requires early { at ≤ LATEST_TIMESTAMP }
    ensures { IfOk result (λ findings. findings.items ≡ explained tables.old.rows at) }
{
    let (rows, mut drafts) = begin(alloc, limits, tables, sorter, at)?;
    let mut findings = suppressed(alloc, &rows)?;
    explain_turns(alloc, &rows, tables, sorter, &mut drafts, &mut findings)?;
    Ok(findings)
}

/// An explanation of a cycle that is computed agent by agent, with an outcome for each client. Of the agents already reported,
/// only the drafts are kept.
#[derive(Drop)]
pub struct Explanations<S: Sorter> {
    alloc: Global,
    rows: Rows,
    tables: Tables,
    sorter: S,
    drafts: Drafts,
    place: usize,
    // Whether memory ran out while an agent was explained.
    is_over: bool,
}

impl<S: Sorter> Model for Explanations<S> {
    ghost use Rattle.std.specs.Prelude.{◌≡◌, List, false};
    ghost use Rattle.std.specs.Coded.{coded_list, coded×};
    ghost use Rattle.drf_explain.specs.contracts.finding.Finding as finding;
    ghost use Rattle.drf_explain.specs.declared.finding.Finding.{Finding};

    // For each agent its findings, and the outcome for each client if it were tried first.
    ghost Value = { List (List Finding × List Finding) };

    ghost coded = { coded_list (coded× (coded_list finding.the_row.coded) (coded_list finding.the_row.coded)) };

    ghost use Rattle.drf_rows.specs.Step.{live_rows};
    ghost use Rattle.drf_core.specs.cycle.Drafting.{IsCycleAt};
    ghost use Rattle.drf_core.specs.cycle.Explaining.{left_to_explain};

    ghost view = { λ t. left_to_explain t.is_over t.tables.rows t.drafts.offers.items t.place };

    ghost invariant = { λ t. t.is_over ≡ false → (t.rows ≡ live_rows t.tables.rows) × IsCycleAt (S.content t.sorter) t.tables t.drafts t.place };
}

/// Returns an explanation of the cycle at a timestamp, in milliseconds, that owns these tables and this sorter.
fn begin_explanations<S: Sorter>(
    alloc: Global,
    limits: &Limits,
    mut tables: Tables,
    sorter: S,
    at: u64,
) -> Result<Explanations<S>, AllocError>
    requires sorted { IsSame (S.content sorter) (content_of tables.rows) }
    requires kept { IsKept limits.now tables.rows }
    requires early { at ≤ LATEST_TIMESTAMP }
    ensures { IfOk result (λ explanations. explanations ≡ turns_by_agent tables.rows at) }
{
    let (rows, drafts) = begin(alloc, limits, &mut tables, &sorter, at)?;
    Ok(Explanations {
        alloc,
        rows,
        tables,
        sorter,
        drafts,
        place: 0,
        is_over: false,
    })
}

impl<S: Sorter> Explanations<S> {
    /// Returns the findings of the next agent, in order of registration, or `None` after the last one. If memory runs out, the
    /// explanation ends.
    #[tactic(auto, using(crate::proofs::drafting::Told::none_left))]
    pub fn next_agent(&mut self) -> Result<Option<Vec<Finding>>, AllocError>
        ensures reported { IfOk result (λ next. MatchOption next ((self.old ≡ []) × (self.new ≡ []))
            (λ reported. (untouched : List Finding) × (self.old ≡ (reported.items, untouched) ∷ self.new))) }
        ensures err { OnErr result (self.new ≡ []) }
    {
        if self.is_over || self.place >= self.tables.agent_count() {
            return Ok(None);
        }
        let mut reported = Vec::new(self.alloc);
        self.is_over = true;
        explain_turn(
            self.alloc,
            true,
            &self.rows,
            &self.tables,
            &mut self.sorter,
            self.place,
            &mut self.drafts,
            &mut reported,
        )?;
        self.place += 1;
        self.is_over = false;
        Ok(Some(reported))
    }

    /// Returns, for each client in the turn of the next agent, what its outcome would be if it were tried first. If memory runs
    /// out, the explanation ends.
    fn untouched(&mut self) -> Result<Vec<Finding>, AllocError>
        ensures reported { IfOk result (λ untouched. (turn : List Finding × List Finding) (turns : List (List Finding × List Finding))
            → self.old ≡ turn ∷ turns → untouched.items ≡ turn.1) }
        ensures same { OnOk result (self.new ≡ self.old) }
        ensures err { OnErr result (self.new ≡ []) }
    {
        let mut untouched = Vec::new(self.alloc);
        if self.is_over || self.place >= self.tables.agent_count() {
            return Ok(untouched);
        }
        self.is_over = true;
        explain_untouched(
            self.alloc,
            &self.rows,
            &self.tables,
            &mut self.sorter,
            self.place,
            &self.drafts,
            &mut untouched,
        )?;
        self.is_over = false;
        Ok(untouched)
    }

    /// Returns the findings of the next agent, and the outcome for each client if it were tried first, or `None` after the last
    /// agent. It takes twice the time of `next_agent`, and one more list. If memory runs out, the explanation ends.
    pub fn next_turn(&mut self) -> Result<Option<TurnReported>, AllocError>
        ensures reported { IfOk result (λ next. MatchOption next ((self.old ≡ []) × (self.new ≡ []))
            (λ turn. self.old ≡ (turn.reported.items, turn.untouched.items) ∷ self.new)) }
        ensures err { OnErr result (self.new ≡ []) }
    {
        let untouched = self.untouched()?;
        let Some(reported) = self.next_agent()? else {
            return Ok(None);
        };
        Ok(Some(TurnReported {
            reported,
            untouched,
        }))
    }
}

impl<S: Sorter> Cluster<S> {
    /// Returns what a cycle at a timestamp (in milliseconds) would offer to each client, or why it would offer nothing.
    pub(crate) fn explain(
        &self,
        alloc: Global,
        limits: &Limits,
        at: u64,
    ) -> Result<Vec<Finding>, AllocError>
        requires kept { IsKept limits.now self.now.rows }
        requires early { at ≤ LATEST_TIMESTAMP }
        ensures { IfOk result (λ findings. findings.items ≡ explained self.now.rows at) }
    {
        let mut tables = self.tables.copy()?;
        let mut sorter = self.sorter.copy()?;
        explain(alloc, limits, &mut tables, &mut sorter, at)
    }

    /// Returns an explanation of the cycle at a timestamp (in milliseconds), agent by agent, with an outcome for each client.
    pub(crate) fn explanations(
        &self,
        alloc: Global,
        limits: &Limits,
        at: u64,
    ) -> Result<Explanations<S>, AllocError>
        requires kept { IsKept limits.now self.now.rows }
        requires early { at ≤ LATEST_TIMESTAMP }
        ensures { IfOk result (λ explanations. explanations ≡ turns_by_agent self.now.rows at) }
    {
        let tables = self.tables.copy()?;
        let sorter = self.sorter.copy()?;
        begin_explanations(alloc, limits, tables, sorter, at)
    }
}
