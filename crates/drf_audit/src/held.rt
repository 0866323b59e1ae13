//! The bundles that are held on each agent.
ghost use Rattle.std.specs.Prelude.{◌≡◌, [], ◌∷◌, ◌++◌, cond, map, IfOk, OnOk};
ghost use Rattle.drf_role.specs.Text.{Text, same_text};
ghost use Rattle.drf_rows.specs.Holdings.{holdings_of, holding_of_offer, holding_of_task, parts_on};
ghost use Rattle.drf_audit.specs.Held.{parts_in};

use drf_bundle::Bundle;
use drf_hash::{ByName, HashKey};
use drf_role::Name;
use drf_rows::{OfferRow, Rows, TaskRow};
use indexmap::IndexMap;
use std::alloc::{AllocError, Global};

/// The bundles that are held on each agent, by the agent's name.
#[derive(Drop)]
pub(crate) struct Held<'a> {
    pub(crate) by_agent: ByName<Vec<&'a Bundle>>,
}

impl<'a> Held<'a> {
    fn new(alloc: Global, key: HashKey) -> Held<'a>
        ensures { (name : Text) → parts_in result name ≡ [] }
    {
        Held {
            by_agent: IndexMap::with_hasher(alloc, key),
        }
    }

    /// Adds a bundle at the end of those that are held on the agent. Returns an error if memory runs out.
    fn add(&mut self, agent: &Name, bundle: &'a Bundle) -> Result<(), AllocError>
        ensures { OnOk result ((name : Text) → parts_in self.new name
            ≡ parts_in self.old name ++ cond (same_text agent.now name) (bundle.now ∷ []) []) }
    {
        if let Some(bundles) = self.by_agent.get_mut(agent) {
            bundles.push(bundle)?;
            return Ok(());
        }
        let mut bundles = Vec::new(*self.by_agent.allocator());
        bundles.push(bundle)?;
        self.by_agent.insert(agent.copy()?, bundles)?;
        Ok(())
    }

    /// Adds the bundles of offers, in their order.
    fn add_offers(&mut self, offers: &'a [OfferRow]) -> Result<(), AllocError>
        ensures { OnOk result ((name : Text) → parts_in self.new name
            ≡ parts_in self.old name ++ parts_on name (map holding_of_offer offers.now)) }
    {
        for offer in offers {
            self.add(&offer.agent, &offer.bundle)?;
        }
        Ok(())
    }

    /// Adds the bundles of tasks, in their order.
    fn add_tasks(&mut self, tasks: &'a [TaskRow]) -> Result<(), AllocError>
        ensures { OnOk result ((name : Text) → parts_in self.new name
            ≡ parts_in self.old name ++ parts_on name (map holding_of_task tasks.now)) }
    {
        for task in tasks {
            self.add(&task.agent, &task.bundle)?;
        }
        Ok(())
    }

    /// Returns the bundles of all offers and then of all tasks, by agent.
    pub(crate) fn of(alloc: Global, key: HashKey, rows: &'a Rows) -> Result<Held<'a>, AllocError>
        ensures { IfOk result (λ held. (name : Text) → parts_in held name ≡ parts_on name (holdings_of rows.now)) }
    {
        let mut held = Held::new(alloc, key);
        held.add_offers(rows.offers.as_slice())?;
        held.add_tasks(rows.tasks.as_slice())?;
        Ok(held)
    }
}
