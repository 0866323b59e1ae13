//! Adds the rows of a state to the tables and the sorter.
ghost use Rattle.std.specs.Prelude.{◌≡◌, ◌<◌, ◌≤◌, ◌∷◌, ◌++◌, [], false, length, IfOk, OnOk};
ghost use Rattle.drf_role.specs.Text.{Text};
ghost use Rattle.drf_bundle.specs.Bundle.{quantities_of};
ghost use Rattle.drf_bundle.specs.Quantities.{amount_of};
ghost use Rattle.drf_rows.specs.Members.{has_agent};
ghost use Rattle.drf_rows.specs.declared.limits.TheConstants.{LARGEST_AMOUNT, LATEST_TIMESTAMP};
ghost use Rattle.drf_saved.specs.Saved.{begun};
ghost use Rattle.drf_saved.specs.declared.saved.SavedRow.TheVariants.{Agent, Framework, Weight, Limit, Offer, Task, Filter};
ghost use Rattle.drf_state.specs.Placing.{FitsBehind, IsPlaced};
ghost use Rattle.drf_state.specs.Restored.{HasWorked, PartsAgree};

use crate::clients::put_clients;
use drf_hash::HashKey;
use drf_role::ClientPath;
use drf_rows::{AgentRow, FilterRow, FrameworkRow, LimitRow, OfferRow, TaskRow, WeightRow};
use drf_saved::{Head, SavedRow};
use drf_sorter::Sorter;
use drf_tables::{Tables, offers_with};
use std::alloc::{AllocError, Global};

/// The parts of an allocator that is being restored.
#[derive(Drop)]
pub(crate) struct Parts<S: Sorter> {
    pub(crate) tables: Tables,
    pub(crate) sorter: S,
    /// The sum of the counts of all clients.
    pub(crate) counted: u64,
}

/// Registers an agent, active or inactive.
fn register(tables: &mut Tables, agent: AgentRow) -> Result<(), AllocError>
    requires new { has_agent tables.old.rows agent.name ≡ false }
    requires small { (label : Text) → amount_of (quantities_of agent.total) label ≤ LARGEST_AMOUNT }
    requires few { length tables.old.rows.agents < 4096 }
    ensures rows { OnOk result (tables.new.rows ≡ record tables.old.rows { agents = tables.old.rows.agents ++ agent ∷ [] }) }
    ensures settled { OnOk result (tables.new.settled ≡ tables.old.settled) }
    ensures counted { OnOk result (tables.new.counted ≡ tables.old.counted) }
{
    let AgentRow {
        name,
        total,
        active,
    } = agent;
    if active {
        tables.add_agent(name, total)?;
        return Ok(());
    }
    tables.add_agent(name.copy()?, total)?;
    tables.set_active(&name, false);
    Ok(())
}

impl<S: Sorter> Parts<S> {
    /// Creates parts with the numbers of a head and no rows.
    pub(crate) fn begin(alloc: Global, key: HashKey, head: Head) -> Result<Parts<S>, AllocError>
        requires early { head.clock ≤ LATEST_TIMESTAMP }
        requires numbered { 1 ≤ head.next_offer }
        ensures rows { IfOk result (λ parts. parts.tables.rows ≡ begun head) }
        ensures agree { IfOk result (λ parts. PartsAgree parts.tables (S.content parts.sorter) parts.counted) }
        ensures work { IfOk result (λ parts. S.work parts.sorter ≡ record { made = 0; marked = 0 }) }
    {
        Ok(Parts {
            tables: Tables::begin(alloc, key, head),
            sorter: S::open(alloc, key)?,
            counted: 0,
        })
    }

    fn put_agent(&mut self, agent: AgentRow) -> Result<(), AllocError>
        requires agree { PartsAgree self.old.tables (S.content self.old.sorter) self.old.counted }
        requires fits { FitsBehind self.old.tables.rows (Agent agent) }
        ensures placed { OnOk result (IsPlaced self.old.tables.rows (Agent agent) self.new.tables (S.content self.new.sorter) self.new.counted) }
        ensures worked { OnOk result (HasWorked (Agent agent) (S.work self.old.sorter) (S.work self.new.sorter)) }
    {
        register(&mut self.tables, agent)?;
        let total = self.tables.total().copy()?;
        self.sorter.set_total(total);
        Ok(())
    }

    fn put_framework(&mut self, alloc: Global, framework: FrameworkRow) -> Result<(), AllocError>
        requires agree { PartsAgree self.old.tables (S.content self.old.sorter) self.old.counted }
        requires fits { FitsBehind self.old.tables.rows (Framework framework) }
        ensures placed { OnOk result (IsPlaced self.old.tables.rows (Framework framework) self.new.tables (S.content self.new.sorter) self.new.counted) }
        ensures worked { OnOk result (HasWorked (Framework framework) (S.work self.old.sorter) (S.work self.new.sorter)) }
    {
        let FrameworkRow { name, clients } = framework;
        put_clients(alloc, &mut self.sorter, &name, clients.as_slice())?;
        let named = self.tables.reserve_framework(name)?;
        self.counted = offers_with(self.counted, clients.as_slice()).unwrap();
        self.tables.add_framework(named, clients);
        Ok(())
    }

    fn put_weight(&mut self, weight: WeightRow) -> Result<(), AllocError>
        requires agree { PartsAgree self.old.tables (S.content self.old.sorter) self.old.counted }
        requires fits { FitsBehind self.old.tables.rows (Weight weight) }
        ensures placed { OnOk result (IsPlaced self.old.tables.rows (Weight weight) self.new.tables (S.content self.new.sorter) self.new.counted) }
        ensures worked { OnOk result (HasWorked (Weight weight) (S.work self.old.sorter) (S.work self.new.sorter)) }
    {
        let WeightRow { role, weight } = weight;
        self.tables.reserve_weight()?;
        self.sorter.set_weight(&role, weight)?;
        self.tables.set_weight(role, weight);
        Ok(())
    }

    fn put_limit(&mut self, limit: LimitRow) -> Result<(), AllocError>
        requires agree { PartsAgree self.old.tables (S.content self.old.sorter) self.old.counted }
        requires fits { FitsBehind self.old.tables.rows (Limit limit) }
        ensures placed { OnOk result (IsPlaced self.old.tables.rows (Limit limit) self.new.tables (S.content self.new.sorter) self.new.counted) }
        ensures worked { OnOk result (HasWorked (Limit limit) (S.work self.old.sorter) (S.work self.new.sorter)) }
    {
        let LimitRow { role, limit } = limit;
        self.tables.set_limit(role, limit)?;
        Ok(())
    }

    fn put_offer(&mut self, alloc: Global, offer: OfferRow) -> Result<(), AllocError>
        requires agree { PartsAgree self.old.tables (S.content self.old.sorter) self.old.counted }
        requires fits { FitsBehind self.old.tables.rows (Offer offer) }
        ensures placed { OnOk result (IsPlaced self.old.tables.rows (Offer offer) self.new.tables (S.content self.new.sorter) self.new.counted) }
        ensures worked { OnOk result (HasWorked (Offer offer) (S.work self.old.sorter) (S.work self.new.sorter)) }
    {
        let path = ClientPath::new(alloc, &offer.role, &offer.framework)?;
        self.sorter.charge(&path, offer.bundle.quantities(), 0)?;
        self.tables.put_offer(offer)?;
        Ok(())
    }

    fn put_task(&mut self, alloc: Global, task: TaskRow) -> Result<(), AllocError>
        requires agree { PartsAgree self.old.tables (S.content self.old.sorter) self.old.counted }
        requires fits { FitsBehind self.old.tables.rows (Task task) }
        ensures placed { OnOk result (IsPlaced self.old.tables.rows (Task task) self.new.tables (S.content self.new.sorter) self.new.counted) }
        ensures worked { OnOk result (HasWorked (Task task) (S.work self.old.sorter) (S.work self.new.sorter)) }
    {
        let path = ClientPath::new(alloc, &task.role, &task.framework)?;
        self.sorter.charge(&path, task.bundle.quantities(), 0)?;
        self.tables.put_task(task)?;
        Ok(())
    }

    fn put_filter(&mut self, filter: FilterRow) -> Result<(), AllocError>
        requires agree { PartsAgree self.old.tables (S.content self.old.sorter) self.old.counted }
        requires fits { FitsBehind self.old.tables.rows (Filter filter) }
        ensures placed { OnOk result (IsPlaced self.old.tables.rows (Filter filter) self.new.tables (S.content self.new.sorter) self.new.counted) }
        ensures worked { OnOk result (HasWorked (Filter filter) (S.work self.old.sorter) (S.work self.new.sorter)) }
    {
        self.tables.add_filter(filter)?;
        Ok(())
    }

    /// Adds a row, which must be allowed after the rows before it. After an error the parts must not be used any more.
    pub(crate) fn put(&mut self, alloc: Global, row: SavedRow) -> Result<(), AllocError>
        requires agree { PartsAgree self.old.tables (S.content self.old.sorter) self.old.counted }
        requires fits { FitsBehind self.old.tables.rows row }
        ensures placed { OnOk result (IsPlaced self.old.tables.rows row self.new.tables (S.content self.new.sorter) self.new.counted) }
        ensures worked { OnOk result (HasWorked row (S.work self.old.sorter) (S.work self.new.sorter)) }
    {
        match row {
            SavedRow::Agent(agent) => self.put_agent(agent),
            SavedRow::Framework(framework) => self.put_framework(alloc, framework),
            SavedRow::Weight(weight) => self.put_weight(weight),
            SavedRow::Limit(limit) => self.put_limit(limit),
            SavedRow::Offer(offer) => self.put_offer(alloc, offer),
            SavedRow::Task(task) => self.put_task(alloc, task),
            SavedRow::Filter(filter) => self.put_filter(filter),
        }
    }
}
