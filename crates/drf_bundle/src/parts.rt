//! The content of a bundle: what is built, and then shared by copies.
ghost use Rattle.std.specs.Prelude.{◌≡◌, ◌+◌, ◌<◌, ◌^◌, IsTrue, [], ◌∷◌, ◌++◌, OnOk, OnErr, IfOk, IfErr};
ghost use Rattle.drf_bundle.specs.Bundle.{IsBundle, is_in_order, reservation, add_scalar, quantities_of};
ghost use Rattle.drf_bundle.specs.Value.{Thousandths, units_in};
ghost use Rattle.drf_bundle.specs.Quantities.{amount_of};
ghost use Rattle.drf_bundle.specs.KeyPlaces.{IsKeyAt, IsKeyFreeSlot};

use crate::quantities::Quantities;
use crate::resource::Resource;
use crate::value::Value;
use drf_role::{Label, Role};
use std::alloc::{AllocError, Global};
use std::marker::Model;

/// Resources in order, with the sums of their scalars. They are added one by one; then copies of a bundle share them.
pub struct Parts {
    pub(crate) resources: Vec<Resource>,
    // The scalars of each name over all reservations, stored so that they can be borrowed.
    pub(crate) quantities: Quantities,
}

impl Model for Parts {
    ghost use Rattle.std.specs.Prelude.{List};
    ghost use Rattle.drf_bundle.specs.declared.resource.Resource.{Resource};

    ghost Value = { List Resource };

    ghost use Rattle.std.specs.Coded.{coded_list};
    ghost use Rattle.drf_bundle.specs.contracts.resource.Resource as resource;

    ghost coded = { coded_list resource.the_row.coded };

    ghost use Rattle.drf_bundle.specs.Bundle.{HasSums};

    ghost view = { λ p. p.resources.items };

    ghost invariant = { λ p. HasSums p.resources.items p.quantities };
}

// Written out, so that a caller's proof about dropping the parts deals with one call.
impl Drop for Parts {
    fn drop(self) {
        let Parts {
            resources: _resources,
            quantities: _quantities,
        } = self;
    }
}

/// Adds the scalar of the resource to the sum of its name. On an error nothing changes.
pub fn add_scalar(sums: &mut Quantities, resource: &Resource) -> Result<(), AllocError>
    requires { amount_of sums.old resource.now.label + units_in resource.now.value Thousandths < 2 ^ 64 }
    ensures ok { OnOk result (sums.new ≡ add_scalar sums.old resource.now) }
    ensures err { OnErr result (sums.new ≡ sums.old) }
{
    let Value::Scalar(scalar) = &resource.value else {
        return Ok(());
    };
    // Resources are added in order of names, so the name is the last one, or comes after it.
    let last = sums.entries().len().saturating_sub(1);
    sums.add(&resource.label, scalar.thousandths(), last)
}

/// Returns the scalars of each name, summed over all reservations.
fn sums(alloc: Global, resources: &[Resource]) -> Result<Quantities, AllocError>
    requires { IsBundle resources.now }
    ensures { IfOk result (λ q. q ≡ quantities_of resources.now) }
{
    let mut sums = Quantities::empty(alloc);
    for resource in resources {
        add_scalar(&mut sums, resource)?;
    }
    Ok(sums)
}

/// Returns the place of the resource with this name and reservation (`Ok`), or the place where it would be inserted
/// (`Err`).
pub fn place(resources: &[Resource], label: &Label, role: &Role) -> Result<usize, usize>
    requires { IsTrue (is_in_order resources.now) }
    ensures found { IfOk result (IsKeyAt resources.now (label.now, reservation role.now)) }
    ensures absent { IfErr result (IsKeyFreeSlot resources.now (label.now, reservation role.now)) }
{
    resources.binary_search_by(|resource| resource.cmp_key(label, role))
}

impl Parts {
    /// Returns the parts without any resource.
    pub fn empty(alloc: Global) -> Parts
        ensures { result ≡ [] }
    {
        Parts {
            resources: Vec::new(alloc),
            quantities: Quantities::empty(alloc),
        }
    }

    /// Returns the parts with these resources. Fails with `AllocError` if memory runs out.
    pub(crate) fn new(alloc: Global, resources: Vec<Resource>) -> Result<Parts, AllocError>
        requires { IsBundle resources.items }
        ensures { IfOk result (λ parts. parts ≡ resources.items) }
    {
        Ok(Parts {
            quantities: sums(alloc, &resources)?,
            resources,
        })
    }

    /// Appends a resource. On an error nothing changes.
    pub(crate) fn push(&mut self, resource: Resource) -> Result<(), AllocError>
        requires { IsBundle (self.old ++ resource ∷ []) }
        ensures ok { OnOk result (self.new ≡ self.old ++ resource ∷ []) }
        ensures err { OnErr result (self.new ≡ self.old) }
    {
        // The room is reserved first, so the push cannot fail after the sum was changed.
        self.resources.reserve(1)?;
        add_scalar(&mut self.quantities, &resource)?;
        self.resources.push_reserved(resource);
        Ok(())
    }

    /// Returns the allocator.
    pub(crate) fn alloc(&self) -> Global {
        *self.resources.allocator()
    }

    /// Returns the resources, in order.
    pub(crate) fn entries(&self) -> &[Resource]
        ensures value { result.now ≡ self.now }
        ensures bundle { IsBundle self.now }
    {
        self.resources.as_slice()
    }

    /// Returns the scalars of each name, in thousandths, summed over all reservations.
    pub(crate) fn quantities(&self) -> &Quantities
        ensures value { result.now ≡ quantities_of self.now }
        ensures bundle { IsBundle self.now }
    {
        &self.quantities
    }
}
