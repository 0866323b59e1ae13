//! Adding a resource to a bundle that is being built. Sets with the same name and reservation can share members.
ghost use Rattle.std.specs.Prelude.{◌≡◌, ◌+◌, ◌<◌, ◌^◌, ◌&&◌, not, Some, [], ◌∷◌, filter, length, nat_le, IsTrue, IfSome, IfErr, OnOk, OnErr};
ghost use Rattle.drf_amount.specs.Algebra.{IsJoinFault};
ghost use Rattle.drf_role.specs.Text.{same_text};
ghost use Rattle.drf_bundle.specs.Value.{Thousandths, units_in, share_members};
ghost use Rattle.drf_bundle.specs.Bundle.{HasSums, is_in_order, key_of, same_key, merged, add_scalar};
ghost use Rattle.drf_bundle.specs.Quantities.{amount_of};
ghost use Rattle.drf_bundle.specs.KeyPlaces.{IsKeyFreeSlot, IsNameFreeSlot};
ghost use Rattle.drf_bundle.specs.Union.{has_other_kind, is_reserved_elsewhere, union_refusal, union};

use crate::parts::{Parts, add_scalar, place};
use crate::quantities::Quantities;
use crate::resource::Resource;
use crate::value::{Clash, Value};
use drf_amount::AlgebraFault;
use drf_role::{Label, Role};
use std::alloc::AllocError;

/// Returns the resources with this name, which are neighbours in the list.
fn named<'a>(resources: &'a [Resource], label: &Label) -> &'a [Resource]
    requires { IsTrue (is_in_order resources.now) }
    ensures { result.now ≡ filter (λ r. same_text r.label label.now) resources.now }
{
    let start = resources.partition_point(|resource| resource.label.cmp(label).is_lt());
    let rest = &resources[start..];
    let count = rest.partition_point(|resource| resource.label == *label);
    &rest[..count]
}

/// Returns whether a value of another kind has this name.
fn has_other_kind(resources: &[Resource], label: &Label, value: &Value) -> bool
    requires { IsTrue (is_in_order resources.now) }
    ensures { result ≡ has_other_kind resources.now label.now value.now }
{
    named(resources, label)
        .iter()
        .any(|other| other.value.clashes_with(value, Clash::Kinds))
}

/// Returns whether the two resources have different keys and share a member.
fn share_apart(other: &Resource, resource: &Resource) -> bool
    ensures { result ≡ (not (same_key (key_of other.now) (key_of resource.now)) && share_members other.now.value resource.now.value) }
{
    other.cmp_key(&resource.label, &resource.role).is_ne()
        && other.value.clashes_with(&resource.value, Clash::Members)
}

/// Returns whether a member of the resource is under another reservation of its name.
fn is_reserved_elsewhere(resources: &[Resource], resource: &Resource) -> bool
    requires { IsTrue (is_in_order resources.now) }
    ensures { result ≡ is_reserved_elsewhere resources.now resource.now }
{
    named(resources, &resource.label)
        .iter()
        .any(|other| share_apart(other, resource))
}

/// Returns whether the scalars of this name would add up to more than 2^64 - 1 thousandths.
fn is_too_much(sums: &Quantities, resource: &Resource) -> bool
    ensures { result ≡ nat_le (2 ^ 64) (amount_of sums.now resource.now.label + units_in resource.now.value Thousandths) }
{
    let sum = sums
        .amount_of(&resource.label)
        .checked_add(resource.value.thousandths());
    sum.is_none()
}

/// Returns whether a resource with this name would come after all others. This is the most frequent case when a text is
/// read, because texts are mostly in order.
fn comes_last(resources: &[Resource], label: &Label) -> bool
    requires { IsTrue (is_in_order resources.now) }
    ensures { IsTrue result → IsNameFreeSlot resources.now label.now (length resources.now) }
{
    match resources.last() {
        Some(resource) => resource.label < *label,
        None => true,
    }
}

/// Returns the place where a resource with this name would be inserted, or `None` if the name exists already.
fn free_slot_of_name(resources: &[Resource], label: &Label) -> Option<usize>
    requires { IsTrue (is_in_order resources.now) }
    ensures { IfSome result (IsNameFreeSlot resources.now label.now) }
{
    if comes_last(resources, label) {
        return Some(resources.len());
    }
    resources
        .binary_search_by(|resource| resource.label.cmp(label))
        .err()
}

/// Inserts the resource at the free place of its key, and adds its scalar to the sum of its name. On an error nothing
/// changes.
fn put_in_free_slot(
    resources: &mut Vec<Resource>,
    sums: &mut Quantities,
    at: usize,
    resource: Resource,
) -> Result<(), AllocError>
    requires free_slot { IsKeyFreeSlot resources.old.items (key_of resource) at }
    requires fits { amount_of sums.old resource.label + units_in resource.value Thousandths < 2 ^ 64 }
    ensures ok { OnOk result ((resources.new.items ≡ merged resources.old.items (resource ∷ [])) × (sums.new ≡ add_scalar sums.old resource)) }
    ensures err { OnErr result ((resources.new.items ≡ resources.old.items) × (sums.new ≡ sums.old)) }
{
    // The room is reserved first, so the insertion cannot fail after the sum was changed.
    resources.reserve(1)?;
    add_scalar(sums, &resource)?;
    resources.insert(at, resource)?;
    Ok(())
}

/// Inserts the resource in order, or unites it with the one that has its key, and adds its scalar to the sum of its
/// name. On an error nothing changes.
fn put(
    resources: &mut Vec<Resource>,
    sums: &mut Quantities,
    resource: Resource,
) -> Result<(), AllocError>
    requires kept { HasSums resources.old.items sums.old }
    requires fits { amount_of sums.old resource.label + units_in resource.value Thousandths < 2 ^ 64 }
    ensures ok { OnOk result ((resources.new.items ≡ merged resources.old.items (resource ∷ [])) × (sums.new ≡ add_scalar sums.old resource)) }
    ensures err { OnErr result ((resources.new.items ≡ resources.old.items) × (sums.new ≡ sums.old)) }
{
    match place(resources, &resource.label, &resource.role) {
        Ok(at) => {
            let had = &mut resources[at];
            let value = had.value.unite(&resource.value)?;
            add_scalar(sums, &resource)?;
            had.value = value;
            Ok(())
        }
        Err(at) => put_in_free_slot(resources, sums, at, resource),
    }
}

impl Parts {
    /// Returns whether a value of another kind has this name.
    pub fn has_other_kind(&self, label: &Label, value: &Value) -> bool
        ensures { result ≡ has_other_kind self.now label.now value.now }
    {
        has_other_kind(&self.resources, label, value)
    }

    /// Returns why the resource cannot be united with the bundle, if it cannot.
    fn union_refusal(&self, resource: &Resource) -> Option<AlgebraFault>
        ensures { result ≡ union_refusal self.now resource.now }
    {
        if has_other_kind(&self.resources, &resource.label, &resource.value) {
            return Some(AlgebraFault::Kind);
        }
        if is_reserved_elsewhere(&self.resources, resource) {
            return Some(AlgebraFault::Overlap);
        }
        is_too_much(&self.quantities, resource).then_some(AlgebraFault::TooLarge)
    }

    /// Unites the bundle with the first resource of a name, whose place is known.
    fn unite_first(&mut self, at: usize, first: Resource) -> Result<(), AlgebraFault>
        requires { IsNameFreeSlot self.old first.label at }
        ensures ok { OnOk result (union self.old first ≡ Some self.new) }
        ensures err { OnErr result (self.new ≡ self.old) }
        ensures fault { IfErr result (IsJoinFault (union_refusal self.old first)) }
    {
        if first.value.is_empty() {
            return Ok(());
        }
        first.label.recall();
        first.role.recall();
        Ok(put_in_free_slot(&mut self.resources, &mut self.quantities, at, first)?)
    }

    /// Unites the bundle with a resource whose name can already exist.
    fn unite_further(&mut self, resource: Resource) -> Result<(), AlgebraFault>
        ensures ok { OnOk result (union self.old resource ≡ Some self.new) }
        ensures err { OnErr result (self.new ≡ self.old) }
        ensures fault { IfErr result (IsJoinFault (union_refusal self.old resource)) }
    {
        if let Some(fault) = self.union_refusal(&resource) {
            return Err(fault);
        }
        if resource.value.is_empty() {
            return Ok(());
        }
        resource.label.recall();
        resource.role.recall();
        Ok(put(&mut self.resources, &mut self.quantities, resource)?)
    }

    /// Adds a resource to the bundle: at an existing key, scalars are added, and sets are united and can share members.
    /// The errors are `Kind` (the name has another kind), `Overlap` (a member is under another reservation of the
    /// name), `TooLarge` (the scalars of the name would exceed 2^64 - 1 thousandths) and `Memory`; of several, the
    /// first is returned. An empty value changes nothing, but `Kind` is tested for it too. On an error nothing changes.
    pub fn unite(&mut self, label: Label, role: Role, value: Value) -> Result<(), AlgebraFault>
        ensures ok { OnOk result (union self.old (record { label = label; role = role; value = value }) ≡ Some self.new) }
        ensures err { OnErr result (self.new ≡ self.old) }
        ensures fault { IfErr result (IsJoinFault (union_refusal self.old (record { label = label; role = role; value = value }))) }
    {
        let resource = Resource { label, role, value };
        match free_slot_of_name(&self.resources, &resource.label) {
            Some(at) => self.unite_first(at, resource),
            None => self.unite_further(resource),
        }
    }
}
