//! What each framework is offered or uses.
ghost use Rattle.std.specs.Prelude.{◌≡◌, ◌+◌, ◌<◌, ◌^◌, [], ◌∷◌, ◌++◌, cond, map, IfOk, IsTrue, OnOk};
ghost use Rattle.drf_bundle.specs.Bundle.{quantities_of};
ghost use Rattle.drf_bundle.specs.Quantities.{amount_of, is_in_order};
ghost use Rattle.drf_role.specs.Text.{Text, same_text};
ghost use Rattle.drf_rows.specs.Holdings.{holding_of_offer, holding_of_task};
ghost use Rattle.drf_show.specs.Had.{AreAllOf, AreSmall, parts_for, parts_in, parts_of, sum_for, sum_with};

use drf_bundle::{Bundle, Quantities};
use drf_hash::{ByName, HashKey};
use drf_role::{Name, Role};
use drf_rows::{OfferRow, TaskRow};
use indexmap::IndexMap;
use std::alloc::{AllocError, Global};

/// The bundles that each framework has, each with its role, by the framework's name.
#[derive(Drop)]
pub(crate) struct Had<'a> {
    pub(crate) by_framework: ByName<Vec<(&'a Role, &'a Bundle)>>,
}

impl<'a> Had<'a> {
    fn new(alloc: Global, key: HashKey) -> Had<'a>
        ensures { (name : Text) → parts_in result name ≡ [] }
    {
        Had {
            by_framework: IndexMap::with_hasher(alloc, key),
        }
    }

    /// Adds a bundle at the end of those of the framework. Returns an error if memory runs out.
    fn add(
        &mut self,
        framework: &Name,
        role: &'a Role,
        bundle: &'a Bundle,
    ) -> Result<(), AllocError>
        ensures { OnOk result ((name : Text) → parts_in self.new name
            ≡ parts_in self.old name ++ cond (same_text framework.now name) ((role.now, bundle.now) ∷ []) []) }
    {
        if let Some(parts) = self.by_framework.get_mut(framework) {
            parts.push((role, bundle))?;
            return Ok(());
        }
        let mut parts = Vec::new(*self.by_framework.allocator());
        parts.push((role, bundle))?;
        self.by_framework.insert(framework.copy()?, parts)?;
        Ok(())
    }

    /// Returns the bundles of offers, by framework.
    pub(crate) fn offers_by_framework(
        alloc: Global,
        key: HashKey,
        offers: &'a [OfferRow],
    ) -> Result<Had<'a>, AllocError>
        ensures { IfOk result (λ had. AreAllOf had (map holding_of_offer offers.now)) }
    {
        let mut had = Had::new(alloc, key);
        for offer in offers {
            had.add(&offer.framework, &offer.role, &offer.bundle)?;
        }
        Ok(had)
    }

    /// Returns the bundles of tasks, by framework.
    pub(crate) fn of_tasks(
        alloc: Global,
        key: HashKey,
        tasks: &'a [TaskRow],
    ) -> Result<Had<'a>, AllocError>
        ensures { IfOk result (λ had. AreAllOf had (map holding_of_task tasks.now)) }
    {
        let mut had = Had::new(alloc, key);
        for task in tasks {
            had.add(&task.framework, &task.role, &task.bundle)?;
        }
        Ok(had)
    }

    /// Returns the sum of the scalars that a framework has for a role.
    pub(crate) fn sum_for(
        &self,
        alloc: Global,
        framework: &Name,
        role: &Role,
    ) -> Result<Quantities, AllocError>
        requires { AreSmall (parts_in self.now framework.now) }
        ensures { IfOk result (λ sum. sum ≡ sum_for role.now (parts_in self.now framework.now)) }
    {
        match self.by_framework.get(framework) {
            Some(parts) => sum_of(alloc, parts, role),
            None => Ok(Quantities::empty(alloc)),
        }
    }
}

/// Returns a sum, to which the scalars of a part are added if the part is for the role.
fn with_part(
    sum: Quantities,
    part: &(&Role, &Bundle),
    role: &Role,
) -> Result<Quantities, AllocError>
    requires { (label : Text) → amount_of sum label + amount_of (quantities_of part.now.1.now) label < 2 ^ 64 }
    ensures sum { IfOk result (λ new. new ≡ sum_with role.now sum (part.now.0.now, part.now.1.now)) }
    ensures in_order { IsTrue (is_in_order (quantities_of part.now.1.now)) }
{
    let quantities = part.1.quantities();
    quantities.recall();
    if part.0 != role {
        return Ok(sum);
    }
    let more = sum.plus(quantities)?;
    Ok(more)
}

/// Returns the sum of the scalars of those parts that are for a role.
fn sum_of(alloc: Global, parts: &[(&Role, &Bundle)], role: &Role) -> Result<Quantities, AllocError>
    requires { AreSmall (parts_of parts.now) }
    ensures { IfOk result (λ sum. sum ≡ sum_for role.now (parts_of parts.now)) }
{
    let mut sum = Quantities::empty(alloc);
    for part in parts {
        sum = with_part(sum, part, role)?;
    }
    sum.remove_zeros();
    Ok(sum)
}
