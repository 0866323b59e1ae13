//! The allocation cycle. While it runs, its offers are drafts: the sorter is charged with them, and the consumption
//! that is borrowed from the tables includes them, but of the rows only the clock has changed. At the end the tables
//! take the offers and the consumption, so that the next cycle need not compute the consumption again. If memory runs
//! out, the consumption is dropped, and the charges and the clock are undone, which needs no memory.
ghost use Rattle.std.specs.Prelude.{◌≡◌, ◌≢◌, ℕ, false, true, ◌<◌, ◌≤◌, ◌+◌, List, None, [], length, map, slice_get, is_some, ◌&&◌, Some, IfOk, OnOk, OnErr};
ghost use Rattle.drf_role.specs.Path.{Path, role_part, framework_part};
ghost use Rattle.drf_rows.specs.Cycle.{is_allocatable, turn_order, with_offer};
ghost use Rattle.drf_rows.specs.Step.{line_reported, new_offers, refusal_of, effect};
ghost use Rattle.drf_rows.specs.declared.event.Event.TheVariants.{Cycle};
ghost use Rattle.drf_rows.specs.declared.reply.Reply.TheVariants.{Offers};
ghost use Rattle.drf_rows.specs.Client.{path_of};
ghost use Rattle.drf_tables.specs.cycle.Drafts.{with_offers};
ghost use Rattle.drf_tables.specs.Stored.{Stored};
ghost use Rattle.drf_sorter.specs.Content.{Content};
ghost use Rattle.drf_sorter.specs.Content.{IsSame};
ghost use Rattle.drf_content.specs.Content.{content_of};
ghost use Rattle.drf_core.specs.Copies.{copies_if};
ghost use Rattle.drf_laws.specs.Kept.{IsKept};
ghost use Rattle.drf_gates.specs.quota.Allowance.{quota_under};
ghost use Rattle.drf_rows.specs.declared.rows.LimitRow.{LimitRow};
ghost use Rattle.drf_core.specs.cycle.Entitling.{IsPassedOver, IsQuotaOf, known_role};
ghost use Rattle.drf_rows.specs.declared.rows.Rows.{Rows};
ghost use Rattle.drf_core.specs.cycle.Drafting.{IsCycleAt, IsDrafting, IsTurn, CanCount, IsTried, is_open_at, turn_at, turns_of};
ghost use Rattle.drf_sorter.specs.Work.{Spends, SpendsOnOk};
ghost use Rattle.drf_core.specs.Working.{AddsDrafts, nodes_of, offered_to, touched};

pub(crate) mod explain;
pub(crate) mod free;

use crate::cluster::Cluster;
use crate::cycle::free::{Free, Known, grant};
use crate::stepped::Stepped;
use drf_amount::Algebra;
use drf_bundle::Bundle;
use drf_gates::Consumption;
use drf_role::{ClientPath, Name};
use drf_rows::{Limits, OfferLine, OfferRow, Reply, SharedTable};
use drf_sorter::Sorter;
use drf_tables::{Left, Tables};
use std::alloc::{AllocError, Global};
use std::mem;

/// The offers of a running cycle, the free resources that remain after the turns so far, and what roles consume with the offers.
/// During the turns, `consumption` is `None` only if no role has a limit.
#[derive(Drop)]
pub(crate) struct Drafts {
    pub(crate) offers: Vec<OfferRow>,
    pub(crate) lefts: Vec<Left>,
    pub(crate) consumption: Option<Consumption>,
}

/// Returns whether the agent at a place (by registration) is active, and its free resources are enough for an offer.
fn is_open(tables: &Tables, place: usize) -> bool
    requires place { place < length tables.now.rows.agents }
    requires settled { tables.now.settled ≡ true }
    ensures { result ≡ is_open_at tables.now.rows place }
{
    tables.is_active(place) && tables.is_worth_an_offer(place)
}

/// Returns whether any agent is active and has enough free resources for an offer.
fn has_open(tables: &Tables) -> bool
    requires settled { tables.now.settled ≡ true }
    ensures { result ≡ false → (place : ℕ) → is_open_at tables.now.rows place ≡ false }
{
    for place in 0..tables.agent_count() {
        if is_open(tables, place) {
            return true;
        }
    }
    false
}

/// Returns whether a client remains in the queue.
pub(crate) fn has_next<S: Sorter>(sorter: &S) -> bool
    ensures { result ≡ is_some (slice_get (S.queue sorter.now) 0) }
{
    sorter.first().is_some()
}

/// Returns whether a cycle certainly makes no offer, because no active agent has enough free resources or no client is active.
fn is_idle<S: Sorter>(tables: &Tables, sorter: &mut S) -> Result<bool, AllocError>
    requires settled { tables.now.settled ≡ true }
    requires drafting { IsDrafting (S.content sorter.old) tables.now.rows [] }
    ensures idle { IfOk result (λ idle. idle ≡ true → turns_of tables.now.rows ≡ tables.now.rows) }
    ensures content { S.content sorter.new ≡ S.content sorter.old }
    ensures spends { Spends S.COUNTED (S.work sorter.old) (S.work sorter.new) 0 }
{
    if !has_open(tables) {
        return Ok(true);
    }
    sorter.fix_order()?;
    Ok(!has_next(sorter))
}

/// Returns the row of an offer.
fn offer_row(
    number: u64,
    agent: &Name,
    client: &ClientPath,
    bundle: Bundle,
) -> Result<OfferRow, AllocError>
    ensures { IfOk result (λ row. row ≡ record {
      number = number;
      agent = agent.now;
      framework = framework_part client.now;
      role = role_part client.now;
      bundle = bundle;
    }) }
{
    Ok(OfferRow {
        number,
        agent: agent.copy()?,
        framework: client.framework().copy()?,
        role: client.role().copy()?,
        bundle,
    })
}

/// Adds an offer to what roles consume, if that is known.
fn count_offer(consumption: &mut Option<Consumption>, offer: &OfferRow) -> Result<(), AllocError>
    requires { CanCount consumption.old offer.now }
    ensures { OnOk result ((rows : Rows) (limits : List LimitRow) → IsQuotaOf rows (quota_under limits consumption.old)
        → IsQuotaOf (with_offer rows offer.now) (quota_under limits consumption.new)) }
{
    match consumption {
        Some(counted) => counted.consume_unreserved(&offer.role, &offer.bundle),
        None => Ok(()),
    }
}

/// Begins the turn of the agent at a place: puts all active clients in order, and returns the free resources of the agent.
pub(crate) fn begin_turn<S: Sorter>(
    tables: &Tables,
    sorter: &mut S,
    place: usize,
    drafts: &Drafts,
) -> Result<Free, AllocError>
    requires cycle { IsCycleAt (S.content sorter.old) tables.now drafts.now place }
    requires place { place < length tables.now.rows.agents }
    ensures turn { IfOk result (λ free. IsTurn (S.content sorter.new) tables.now drafts.now place free (S.queue sorter.new)) }
    ensures order { OnOk result (S.queue sorter.new ≡ map path_of (turn_order (with_offers tables.now.rows drafts.now.offers.items))) }
    ensures content { S.content sorter.new ≡ S.content sorter.old }
    ensures spends { Spends S.COUNTED (S.work sorter.old) (S.work sorter.new) 0 }
{
    sorter.fix_order()?;
    let bundle = tables.free(place).copy()?;
    Ok(Free::new(bundle, tables.is_worth_an_offer(place)))
}

/// Tries the first client in the queue: if it is granted something on the agent, adds an offer to the drafts. If memory runs out,
/// the sorter and the drafts still agree.
pub(crate) fn try_first<S: Sorter>(
    tables: &Tables,
    sorter: &mut S,
    place: usize,
    free: &mut Free,
    drafts: &mut Drafts,
) -> Result<(), AllocError>
    requires turn { IsTurn (S.content sorter.old) tables.now drafts.old place free.old (S.queue sorter.old) }
    ensures turn { OnOk result (IsTurn (S.content sorter.new) tables.now drafts.new place free.new (S.queue sorter.new)) }
    ensures drafting { IsDrafting (S.content sorter.new) tables.now.rows drafts.new.offers.items }
    ensures queue { S.queue sorter.new ≡ S.queue sorter.old }
    ensures tried { OnOk result ((path : Path) → slice_get (S.queue sorter.old) 0 ≡ Some path
        → IsTried (with_offers tables.now.rows drafts.old.offers.items) (with_offers tables.now.rows drafts.new.offers.items) place path) }
    ensures role { OnOk result ((role path : Path) → known_role free.new.known ≡ Some role → slice_get (S.queue sorter.old) 0 ≡ Some path → role ≡ role_part path) }
    ensures work { OnOk result (AddsDrafts S.COUNTED (S.work sorter.old) (S.work sorter.new) drafts.old.offers.items drafts.new.offers.items) }
    ensures made { (S.work sorter.new).made ≡ (S.work sorter.old).made }
{
    let Some(client) = sorter.first() else {
        return Ok(());
    };
    let agent = tables.agent_name(place);
    let alloc = *drafts.offers.allocator();
    let quota = tables.quota_under(drafts.consumption.as_ref());
    let granted = grant(alloc, tables, agent, client, quota.as_ref(), free)?;
    let Some(bundle) = granted else {
        return Ok(());
    };
    let client = client.copy()?;
    let number = tables.next_offer() + drafts.offers.len() as u64;
    let offer = offer_row(number, agent, &client, bundle)?;
    drafts.offers.reserve(1)?;
    count_offer(&mut drafts.consumption, &offer)?;
    sorter.charge(&client, offer.bundle.quantities(), 1)?;
    drafts.offers.push_reserved(offer);
    Ok(())
}

/// Returns whether the turn continues: a client remains in the queue, and the free resources are enough for an offer.
pub(crate) fn goes_on<S: Sorter>(sorter: &S, free: &Free) -> bool
    requires { free.now.is_worth ≡ is_allocatable free.now.bundle }
    ensures { result ≡ (is_some (slice_get (S.queue sorter.now) 0) && is_allocatable free.now.bundle) }
{
    has_next(sorter) && free.is_worth
}

/// Removes from the queue the client that was tried, and clients directly after it that are known to be granted nothing either.
fn pass_tried<S: Sorter>(sorter: &mut S, free: &Free)
    ensures queue { IsPassedOver free.now.known (S.queue sorter.old) (S.queue sorter.new) }
    ensures content { S.content sorter.new ≡ S.content sorter.old }
    ensures work { S.work sorter.new ≡ S.work sorter.old }
{
    match &free.known {
        Known::Barred { prefix, .. } => sorter.pass_prefix(*prefix),
        _ => sorter.pass(),
    }
}

/// Ends the turn of the agent at a place, and records the free resources that remain there.
pub(crate) fn end_turn(place: usize, free: Free, drafts: &mut Drafts) -> Result<(), AllocError>
    ensures cycle { OnOk result ((content : Content) (tables : Stored) (queue : List Path)
        → IsTurn content tables drafts.old place free queue → IsCycleAt content tables drafts.new (place + 1)) }
    ensures offers { drafts.new.offers.items ≡ drafts.old.offers.items }
{
    let Free { bundle, .. } = free;
    drafts.lefts.push(Left {
        agent: place,
        free: bundle,
    })?;
    Ok(())
}

/// Gives an agent its turn: tries the clients in order until too little is left for an offer. Clients that are known to be
/// granted nothing are skipped.
fn turn<S: Sorter>(
    tables: &Tables,
    sorter: &mut S,
    place: usize,
    drafts: &mut Drafts,
) -> Result<(), AllocError>
    requires cycle { IsCycleAt (S.content sorter.old) tables.now drafts.old place }
    requires place { place < length tables.now.rows.agents }
    ensures drafting { IsDrafting (S.content sorter.new) tables.now.rows drafts.new.offers.items }
    ensures turn { OnOk result (with_offers tables.now.rows drafts.new.offers.items
        ≡ turn_at (with_offers tables.now.rows drafts.old.offers.items) place) }
    ensures cycle { OnOk result (IsCycleAt (S.content sorter.new) tables.now drafts.new (place + 1)) }
    ensures work { OnOk result (AddsDrafts S.COUNTED (S.work sorter.old) (S.work sorter.new) drafts.old.offers.items drafts.new.offers.items) }
    ensures made { (S.work sorter.old).made ≤ (S.work sorter.new).made }
{
    if !is_open(tables, place) {
        return Ok(());
    }
    let mut free = begin_turn(tables, sorter, place, drafts)?;
    while goes_on(sorter, &free) {
        try_first(tables, sorter, place, &mut free, drafts)?;
        pass_tried(sorter, &free);
    }
    end_turn(place, free, drafts)
}

/// Gives all agents their turns, in order of registration.
fn turns<S: Sorter>(tables: &Tables, sorter: &mut S, drafts: &mut Drafts) -> Result<(), AllocError>
    requires cycle { IsCycleAt (S.content sorter.old) tables.now drafts.old 0 }
    requires none { drafts.old.offers.items ≡ [] }
    ensures drafting { IsDrafting (S.content sorter.new) tables.now.rows drafts.new.offers.items }
    ensures turns { OnOk result (with_offers tables.now.rows drafts.new.offers.items ≡ turns_of tables.now.rows) }
    ensures cycle { OnOk result (IsCycleAt (S.content sorter.new) tables.now drafts.new (length tables.now.rows.agents)) }
    ensures work { OnOk result (AddsDrafts S.COUNTED (S.work sorter.old) (S.work sorter.new) drafts.old.offers.items drafts.new.offers.items) }
    ensures made { (S.work sorter.old).made ≤ (S.work sorter.new).made }
{
    for place in 0..tables.agent_count() {
        turn(tables, sorter, place, drafts)?;
    }
    Ok(())
}

/// Returns an offer as it is reported.
fn offer_line(offer: &OfferRow) -> Result<OfferLine, AllocError>
    ensures { IfOk result (λ line. line ≡ line_reported offer.now) }
{
    Ok(OfferLine {
        number: offer.number,
        agent: offer.agent.copy()?,
        framework: offer.framework.copy()?,
        role: offer.role.copy()?,
        resources: offer.bundle.copy()?,
    })
}

/// Returns offers as they are reported.
fn offer_lines(alloc: Global, offers: &[OfferRow]) -> Result<Vec<OfferLine>, AllocError>
    ensures { IfOk result (λ lines. lines.items ≡ map line_reported offers.now) }
{
    let mut lines = Vec::with_capacity(alloc, offers.len())?;
    for offer in offers {
        lines.push(offer_line(offer)?)?;
    }
    Ok(lines)
}

/// Undoes the charges of all drafts in the sorter. It needs no memory.
fn take_back<S: Sorter>(tables: &Tables, sorter: &mut S, offers: &mut Vec<OfferRow>)
    requires { IsDrafting (S.content sorter.old) tables.now.rows offers.old.items }
    ensures content { IsSame (S.content sorter.new) (content_of tables.now.rows) }
    ensures made { (S.work sorter.new).made ≡ (S.work sorter.old).made }
{
    while let Some(offer) = offers.pop() {
        let client = ClientPath::from_parts(offer.role, offer.framework);
        sorter.undo_charge(&client, offer.bundle.quantities());
    }
}

/// Borrows from the tables what roles consume before the first draft, or returns `None` if it is not known and no role has a
/// limit. Once known, it stays known when the last limit is removed, so it need not be computed again when a limit is set.
pub(crate) fn lend_consumption(tables: &mut Tables) -> Result<Option<Consumption>, AllocError>
    requires { length tables.old.rows.agents ≤ 4096 }
    ensures quota { IfOk result (λ consumption. IsQuotaOf tables.old.rows (quota_under tables.old.rows.limits consumption)) }
    ensures same { tables.new.rows ≡ tables.old.rows }
    ensures settled { tables.new.settled ≡ tables.old.settled }
{
    tables.count_consumption()?;
    Ok(tables.lend_consumption())
}

/// Gives all agents their turns, and then adds the offers to the tables. If memory runs out, the drafts remain, and the caller
/// has to undo them.
fn offer_all<S: Sorter>(
    alloc: Global,
    tables: &mut Tables,
    sorter: &mut S,
    drafts: &mut Drafts,
    copied: bool,
) -> Result<Stepped, AllocError>
    requires drafting { IsDrafting (S.content sorter.old) tables.old.rows drafts.old.offers.items }
    requires none { drafts.old.offers.items ≡ [] }
    requires nothing_left { drafts.old.lefts.items ≡ [] }
    ensures ok { OnOk result (tables.new.rows ≡ turns_of tables.old.rows) }
    ensures sorted { OnOk result (IsSame (S.content sorter.new) (content_of tables.new.rows)) }
    ensures reply { IfOk result (λ stepped. stepped.reply ≡ Offers (map line_reported (new_offers tables.old.rows (turns_of tables.old.rows)))) }
    ensures copies { IfOk result (λ stepped. stepped.copies ≡ copies_if copied stepped.reply) }
    ensures err { OnErr result (tables.new.rows ≡ tables.old.rows) }
    ensures drafting { OnErr result (IsDrafting (S.content sorter.new) tables.old.rows drafts.new.offers.items) }
    ensures counted { OnOk result (tables.old.rows.limits ≢ [] → tables.new.counted ≡ true) }
    ensures spends { SpendsOnOk S.COUNTED result (S.work sorter.old) (S.work sorter.new) (nodes_of (offered_to (new_offers tables.old.rows (turns_of tables.old.rows)))) }
{
    tables.settle()?;
    let idle = is_idle(tables, sorter)?;
    if idle {
        let stepped = Stepped::of(Reply::Offers(SharedTable::empty()), copied)?;
        tables.count_consumption()?;
        return Ok(stepped);
    }
    drafts.consumption = lend_consumption(tables)?;
    turns(tables, sorter, drafts)?;
    let lines = offer_lines(alloc, &drafts.offers)?;
    let stepped = Stepped::of(Reply::Offers(SharedTable::from_vec(lines)?), copied)?;
    let lefts = mem::replace(&mut drafts.lefts, Vec::new(alloc));
    let consumption = drafts.consumption.take();
    tables.commit(&mut drafts.offers, lefts, consumption)?;
    Ok(stepped)
}

impl<S: Sorter> Cluster<S> {
    /// Runs an allocation cycle at a timestamp, in milliseconds, and returns the reply with its offers. If memory runs out, no
    /// row changes.
    pub(crate) fn cycle(
        &mut self,
        alloc: Global,
        limits: &Limits,
        at: u64,
        copied: bool,
    ) -> Result<Stepped, AllocError>
        requires kept { IsKept limits.now self.old.rows }
        requires welcome { refusal_of limits.now self.old.rows (Cycle at) ≡ None }
        ensures reply { IfOk result (λ stepped. stepped.reply ≡ Offers (map line_reported (new_offers self.old.rows (effect self.old.rows (Cycle at))))) }
        ensures copies { IfOk result (λ stepped. stepped.copies ≡ copies_if copied stepped.reply) }
        ensures ok { OnOk result (self.new.rows ≡ effect self.old.rows (Cycle at)) }
        ensures err { OnErr result (self.new.rows ≡ self.old.rows) }
        ensures counted { OnOk result (self.old.rows.limits ≢ [] → self.new.counted ≡ true) }
        ensures spends { SpendsOnOk S.COUNTED result self.old.work self.new.work (nodes_of (touched self.old.rows (Cycle at))) }
    {
        // The clock is restored if memory runs out.
        let before = self.tables.clock();
        self.tables.set_clock(before.max(at));
        let mut drafts = Drafts {
            offers: Vec::new(alloc),
            lefts: Vec::new(alloc),
            consumption: None,
        };
        match offer_all(
            alloc,
            &mut self.tables,
            &mut self.sorter,
            &mut drafts,
            copied,
        ) {
            Ok(stepped) => Ok(stepped),
            Err(error) => {
                take_back(&self.tables, &mut self.sorter, &mut drafts.offers);
                self.tables.set_clock(before);
                Err(error)
            }
        }
    }
}
