//! Bundles: resources with their reservations.
ghost use Rattle.std.specs.Prelude.{◌≡◌, IsTrue, [], ◌∷◌, ◌++◌, None, Some, OnOk, IfOk, IfErr, IsOk, map};
ghost use Rattle.std.specs.List.{AllByRecursion, list_all};
ghost use Rattle.std.specs.Option.{option_copied};
ghost use Rattle.drf_bundle.specs.Bundle.{IsBundle, amount, join, key_of, refusal, is_too_large, is_in_order, exceeds, rest, filled_of, covers_one, reservation, value_at, quantities_of, one_of, is_unreserved, is_for, part_for, clip, clipped, relabel};
ghost use Rattle.drf_bundle.specs.Value.{IsGiven};
ghost use Rattle.drf_bundle.specs.Taken.{less_all, rest_of_all};
ghost use Rattle.drf_bundle.specs.declared.value.Value.TheVariants as value;
ghost use Rattle.drf_bundle.specs.KeyPlaces.{IsKeyAt, IsKeyFreeSlot};
ghost use Rattle.drf_bundle.specs.laws.BundleLaws.{bundle_laws};

use crate::merge::{clash_fault, merged, rest};
use crate::parts::{Parts, place};
use crate::quantities::Quantities;
use crate::resource::{Resource, is_same_role};
use crate::value::Value;
use drf_amount::{Algebra, AlgebraFault, Scalar};
use drf_role::{Label, Name, Role};
use std::alloc::{AllocError, Global};
use std::marker::Model;
use std::sync::Arc;

/// Up to this many resources are searched one by one.
const FEW: usize = 8;

/// The amounts of some resources, each unreserved or reserved for a role. A name has one kind in a bundle, no member
/// occurs under two reservations of a name, and the scalars of a name add up to less than 2^64 thousandths. Copies
/// share their content.
pub struct Bundle {
    // The content, which copies share. The empty bundle, which takes no memory, can do without.
    shared: Option<Arc<Parts>>,
    // Always empty: it is what `quantities` borrows if there is no content.
    nothing: Quantities,
}

impl Model for Bundle {
    ghost use Rattle.std.specs.Prelude.{List};
    ghost use Rattle.drf_bundle.specs.declared.resource.Resource.{Resource};

    ghost Value = { List Resource };

    ghost use Rattle.std.specs.Coded.{coded_list};
    ghost use Rattle.drf_bundle.specs.contracts.resource.Resource as resource;

    ghost coded = { coded_list resource.the_row.coded };

    ghost use Rattle.std.specs.Prelude.{◌≡◌, []};
    ghost use Rattle.std.specs.Option.{option_map_or};
    ghost use Rattle.std.specs.Arc.{arc_value};

    ghost view = { λ b. option_map_or (λ parts. arc_value parts) b.shared [] };

    ghost invariant = { λ b. b.nothing ≡ [] };
}

// Written out, so that a caller's proof about dropping a bundle deals with one call, and not with its two forms.
impl Drop for Bundle {
    fn drop(self) {
        let Bundle {
            shared: _shared,
            nothing: _nothing,
        } = self;
    }
}

/// Returns whether the resource with this name and reservation is at this place.
fn is_at(resources: &[Resource], label: &Label, role: &Role, at: usize) -> bool
    ensures { IsTrue result → IsKeyAt resources.now (label.now, reservation role.now) at }
{
    match resources.get(at) {
        Some(resource) => resource.label == *label && is_same_role(&resource.role, role),
        None => false,
    }
}

/// Returns the place of the resource with this name and reservation (`Ok`), or the place where it would be inserted
/// (`Err`). The search begins at the hint.
fn place_near(
    resources: &[Resource],
    label: &Label,
    role: &Role,
    hint: usize,
) -> Result<usize, usize>
    requires { IsTrue (is_in_order resources.now) }
    ensures found { IfOk result (IsKeyAt resources.now (label.now, reservation role.now)) }
    ensures absent { IfErr result (IsKeyFreeSlot resources.now (label.now, reservation role.now)) }
{
    for at in hint..hint.saturating_add(3) {
        if is_at(resources, label, role, at) {
            return Ok(at);
        }
    }
    place(resources, label, role)
}

/// Returns the value with this name and reservation, by a search from the beginning.
fn value_among<'a>(resources: &'a [Resource], label: &Label, role: &Role) -> Option<&'a Value>
    ensures { option_copied result ≡ value_at resources.now (label.now, reservation role.now) }
{
    for resource in resources {
        if resource.has_key(label, role) {
            return Some(&resource.value);
        }
    }
    None
}

/// Returns the value with this name and reservation, which is probably at the hint or soon after it. Up to `FEW`
/// resources are searched one by one: for an absent key this is faster than a binary search.
fn value_at<'a>(
    resources: &'a [Resource],
    label: &Label,
    role: &Role,
    hint: usize,
) -> Option<&'a Value>
    requires { IsTrue (is_in_order resources.now) }
    ensures { option_copied result ≡ value_at resources.now (label.now, reservation role.now) }
{
    if is_at(resources, label, role, hint) {
        let resource = &resources[hint];
        return Some(&resource.value);
    }
    if resources.len() <= FEW {
        return value_among(resources, label, role);
    }
    match place_near(resources, label, role, hint) {
        Ok(at) => {
            let resource = &resources[at];
            Some(&resource.value)
        }
        Err(_) => None,
    }
}

/// Returns whether the value at the resource's key covers the resource. The key is first compared with the one at the
/// hint, without a call: this is the most frequent case, and it takes half the time.
fn covers_one(whole: &[Resource], resource: &Resource, hint: usize) -> bool
    requires { IsTrue (is_in_order whole.now) }
    ensures { result ≡ covers_one whole.now resource.now }
{
    if let Some(likely) = whole.get(hint) {
        if likely.label == resource.label && is_same_role(&likely.role, &resource.role) {
            return likely.value.covers(&resource.value);
        }
    }
    match value_at(whole, &resource.label, &resource.role, hint) {
        Some(value) => value.covers(&resource.value),
        None => false,
    }
}

/// Returns the rest of `thousandths` of a resource after the amounts in the parts are subtracted, one after
/// another. The parts probably have the resource at the hint or soon after it.
fn thousandths_left(
    thousandths: u64,
    resource: &Resource,
    parts: &[(Name, Bundle)],
    hint: usize,
) -> u64
    ensures { value.Scalar result ≡ less_all (map (λ p. p.1) parts.now) (key_of resource.now) (value.Scalar thousandths) }
{
    let mut left = thousandths;
    for part in parts {
        if let Some(value) = value_at(part.1.entries(), &resource.label, &resource.role, hint) {
            left = left.saturating_sub(value.thousandths());
        }
    }
    left
}

/// Returns the rest of the value of a resource after its values in the parts are removed, one after another.
fn members_left(
    resource: &Resource,
    parts: &[(Name, Bundle)],
    hint: usize,
) -> Result<Value, AllocError>
    ensures { IfOk result (λ left. left ≡ less_all (map (λ p. p.1) parts.now) (key_of resource.now) resource.now.value) }
{
    let mut left = resource.value.copy()?;
    for part in parts {
        if let Some(value) = value_at(part.1.entries(), &resource.label, &resource.role, hint) {
            left = left.minus(value)?;
        }
    }
    Ok(left)
}

/// Returns the same as `members_left`; for scalars it computes with numbers only.
fn value_left(
    resource: &Resource,
    parts: &[(Name, Bundle)],
    hint: usize,
) -> Result<Value, AllocError>
    ensures { IfOk result (λ left. left ≡ less_all (map (λ p. p.1) parts.now) (key_of resource.now) resource.now.value) }
{
    let Value::Scalar(scalar) = &resource.value else {
        return members_left(resource, parts, hint);
    };
    let left = thousandths_left(scalar.thousandths(), resource, parts, hint);
    Ok(Value::Scalar(Scalar::new(left)))
}

/// Returns whether a role can use all of the resources.
fn are_for(resources: &[Resource], role: &Role) -> bool
    ensures { result ≡ list_all (is_for role.now) resources.now }
{
    for resource in resources {
        if !resource.is_for(role) {
            return false;
        }
    }
    true
}

/// Returns whether the limits leave the whole resource. The contract does not say that it is `true` whenever they do: a
/// wrong `false` only costs a copy.
fn stays_whole(limits: &Quantities, resource: &Resource) -> bool
    ensures { IsTrue result → clipped limits.now resource.now ≡ resource.now }
{
    let Value::Scalar(scalar) = &resource.value else {
        return true;
    };
    if !resource.is_unreserved() {
        return true;
    }
    match limits.known_amount_of(&resource.label) {
        Some(limit) => scalar.thousandths() <= limit,
        None => true,
    }
}

/// Returns whether the limits leave each resource whole. As in `stays_whole`, a wrong `false` only costs a copy.
fn stay_whole(limits: &Quantities, resources: &[Resource]) -> bool
    ensures { IsTrue result → map (clipped limits.now) resources.now ≡ resources.now }
{
    for resource in resources {
        if !stays_whole(limits, resource) {
            return false;
        }
    }
    true
}

/// Returns the resource, cut to the limit of its name if it is an unreserved scalar that the limits name.
fn clipped(limits: &Quantities, resource: &Resource) -> Result<Resource, AllocError>
    ensures { IfOk result (λ cut. cut ≡ clipped limits.now resource.now) }
{
    let mut cut = resource.copy()?;
    let Value::Scalar(scalar) = &resource.value else {
        return Ok(cut);
    };
    if resource.is_unreserved() {
        if let Some(limit) = limits.known_amount_of(&resource.label) {
            cut.value = Value::Scalar(Scalar::new(scalar.thousandths().min(limit)));
        }
    }
    Ok(cut)
}

/// Appends the resource, unless its value is empty.
fn push_filled(resources: &mut Vec<Resource>, resource: Resource) -> Result<(), AllocError>
    ensures given { IsGiven resource.value }
    ensures pushed { OnOk result (resources.new.items ≡ resources.old.items ++ filled_of (resource ∷ [])) }
{
    if !resource.value.is_empty() {
        resources.push(resource)?;
    }
    Ok(())
}

impl Bundle {
    /// Returns the bundle of these resources. Fails with `AllocError` if memory runs out.
    fn new(alloc: Global, resources: Vec<Resource>) -> Result<Bundle, AllocError>
        requires { IsBundle resources.items }
        ensures { IfOk result (λ bundle. bundle ≡ resources.items) }
    {
        Bundle::from_parts(Parts::new(alloc, resources)?)
    }

    /// Returns the bundle that was built in `parts`. If it is empty, this cannot fail; otherwise it fails with
    /// `AllocError` if memory runs out.
    pub fn from_parts(parts: Parts) -> Result<Bundle, AllocError>
        ensures bundle { IfOk result (λ bundle. bundle ≡ parts) }
        ensures none { parts ≡ [] → IsOk result }
    {
        let alloc = parts.alloc();
        if parts.entries().is_empty() {
            return Ok(Bundle::empty(alloc));
        }
        Ok(Bundle {
            shared: Some(Arc::new(alloc, parts)?),
            nothing: Quantities::empty(alloc),
        })
    }

    fn alloc(&self) -> Global {
        self.nothing.alloc()
    }

    /// Returns the bundle of one resource, reserved for `role` unless that is `*`. If the value is empty, so is the
    /// bundle.
    pub fn one(
        alloc: Global,
        label: &Label,
        role: &Role,
        value: Value,
    ) -> Result<Bundle, AllocError>
        ensures { IfOk result (λ bundle. bundle ≡ one_of label.now role.now value) }
    {
        let mut resources = Vec::new(alloc);
        label.recall();
        role.recall();
        let resource = Resource {
            label: label.copy()?,
            role: role.copy()?,
            value,
        };
        push_filled(&mut resources, resource)?;
        Bundle::new(alloc, resources)
    }

    /// Returns the value with this name and reservation; the role `*` means unreserved.
    pub fn get(&self, label: &Label, role: &Role) -> Option<&Value>
        ensures { option_copied result ≡ value_at self.now (label.now, reservation role.now) }
    {
        value_at(self.entries(), label, role, 0)
    }

    /// Returns the resources in order of names, and for one name in order of reservations, unreserved first.
    pub fn entries(&self) -> &[Resource]
        ensures value { result.now ≡ self.now }
        ensures bundle { IsBundle self.now }
    {
        match &self.shared {
            Some(parts) => parts.entries(),
            None => &[],
        }
    }

    /// Returns the scalars of each name, in thousandths, summed over all reservations.
    pub fn quantities(&self) -> &Quantities
        ensures value { result.now ≡ quantities_of self.now }
        ensures bundle { IsBundle self.now }
    {
        match &self.shared {
            Some(parts) => parts.quantities(),
            None => &self.nothing,
        }
    }

    /// Proves that the bundle is valid. It does nothing.
    pub fn recall(&self)
        ensures { IsBundle self.now }
    {
        let _ = self.entries();
    }

    /// Returns whether nothing in the bundle is reserved.
    pub fn is_unreserved(&self) -> bool
        ensures { result ≡ is_unreserved self.now }
    {
        for resource in self.entries() {
            if !resource.is_unreserved() {
                return false;
            }
        }
        true
    }

    /// Returns what a role can use: the unreserved resources, and those reserved for it or for a role above it.
    pub fn part_for(&self, role: &Role) -> Result<Bundle, AllocError>
        ensures { IfOk result (λ part. part ≡ part_for role.now self.now) }
    {
        let resources = self.entries();
        if are_for(resources, role) {
            return self.copy();
        }
        let mut part = Vec::new(self.alloc());
        for resource in resources {
            if resource.is_for(role) {
                part.push(resource.copy()?)?;
            }
        }
        Bundle::new(self.alloc(), part)
    }

    /// Returns the bundle with each unreserved scalar that `limits` names cut to the amount there.
    pub fn clip(&self, limits: &Quantities) -> Result<Bundle, AllocError>
        ensures { IfOk result (λ part. part ≡ clip limits.now self.now) }
    {
        let resources = self.entries();
        if stay_whole(limits, resources) {
            return self.copy();
        }
        let mut part = Vec::new(self.alloc());
        for resource in resources {
            push_filled(&mut part, clipped(limits, resource)?)?;
        }
        Bundle::new(self.alloc(), part)
    }

    /// Returns the bundle with everything in it reserved for the role, or unreserved if the role is `*`.
    pub fn relabel(&self, role: &Role) -> Result<Bundle, AllocError>
        requires { IsTrue (is_unreserved self.now) }
        ensures { IfOk result (λ moved. moved ≡ relabel role.now self.now) }
    {
        role.recall();
        let mut moved = Vec::with_capacity(self.alloc(), self.entries().len())?;
        for resource in self.entries() {
            moved.push(resource.moved_to(role)?)?;
        }
        Bundle::new(self.alloc(), moved)
    }

    /// Returns why the two bundles have no join, if they have none.
    fn refusal(&self, other: &Bundle) -> Option<AlgebraFault>
        ensures given { IsBundle self.now × IsBundle other.now }
        ensures refusal { result ≡ refusal self.now other.now }
    {
        if let Some(fault) = clash_fault(self.entries(), other.entries()) {
            return Some(fault);
        }
        if self.is_too_large_with(other) {
            return Some(AlgebraFault::TooLarge);
        }
        None
    }

    /// Returns whether the scalars of some name would add up to more than 2^64 - 1 thousandths.
    fn is_too_large_with(&self, other: &Bundle) -> bool
        ensures { result ≡ is_too_large self.now other.now }
    {
        self.entries()
            .iter()
            .any(|resource| self.exceeds_with(other, &resource.label))
    }

    /// Returns whether the scalars of this name would add up to more than 2^64 - 1 thousandths.
    fn exceeds_with(&self, other: &Bundle, label: &Label) -> bool
        ensures { result ≡ exceeds self.now other.now label.now }
    {
        let sum = self
            .quantities()
            .amount_of(label)
            .checked_add(other.quantities().amount_of(label));
        sum.is_none()
    }

    /// Returns the rest of the bundle without `part`. The bundle need not cover the part.
    pub fn rest(&self, part: &Bundle) -> Result<Bundle, AllocError>
        ensures { IfOk result (λ left. left ≡ rest self.now part.now) }
    {
        Bundle::from_parts(rest(self.alloc(), self.entries(), part.entries())?)
    }

    /// Returns the rest of the bundle after the parts are removed, one after another. The bundle need not cover
    /// them. Their names are ignored.
    pub fn rest_of_all(&self, parts: &[(Name, Bundle)]) -> Result<Bundle, AllocError>
        requires { AllByRecursion IsBundle (map (λ p. p.1) parts.now) }
        ensures { IfOk result (λ left. left ≡ rest_of_all self.now (map (λ p. p.1) parts.now)) }
    {
        let mut left = Vec::with_capacity(self.alloc(), self.entries().len())?;
        for (i, resource) in self.entries().iter().enumerate() {
            let value = value_left(resource, parts, i)?;
            push_filled(&mut left, resource.with_value(value)?)?;
        }
        Bundle::new(self.alloc(), left)
    }

    /// Returns the bundle with `old` removed and `new` joined to the rest. The bundle need not cover `old`, but the
    /// rest must have a join with `new`.
    pub fn exchange(&self, old: &Bundle, new: &Bundle) -> Result<Bundle, AllocError>
        requires { refusal (rest self.now old.now) new.now ≡ None }
        ensures { IfOk result (λ both. join (rest self.now old.now) new.now ≡ Some both) }
    {
        let left = rest(self.alloc(), self.entries(), old.entries())?;
        Bundle::from_parts(merged(self.alloc(), left.entries(), new.entries())?)
    }

    /// Returns the join of two bundles that are known to have one, without testing it.
    pub fn joined(&self, other: &Bundle) -> Result<Bundle, AllocError>
        requires { refusal self.now other.now ≡ None }
        ensures { IfOk result (λ both. join self.now other.now ≡ Some both) }
    {
        if self.is_empty() {
            return other.copy();
        }
        if other.is_empty() {
            return self.copy();
        }
        Bundle::from_parts(merged(self.alloc(), self.entries(), other.entries())?)
    }
}

impl Algebra for Bundle {
    ghost is_given = { IsBundle };

    ghost empty = { [] };

    ghost join = { join };

    ghost refusal = { refusal };

    ghost amount = { amount };

    ghost laws = { bundle_laws };

    fn empty(alloc: Global) -> Bundle {
        Bundle {
            shared: None,
            nothing: Quantities::empty(alloc),
        }
    }

    fn is_empty(&self) -> bool {
        self.entries().is_empty()
    }

    fn disjoint(&self, other: &Bundle) -> bool {
        self.refusal(other).is_none()
    }

    fn try_join(&self, other: &Bundle) -> Result<Bundle, AlgebraFault> {
        if let Some(fault) = self.refusal(other) {
            return Err(fault);
        }
        Ok(self.joined(other)?)
    }

    fn covers(&self, part: &Bundle) -> bool {
        let whole = self.entries();
        for (i, resource) in part.entries().iter().enumerate() {
            if !covers_one(whole, resource, i) {
                return false;
            }
        }
        true
    }

    fn try_minus(&self, part: &Bundle) -> Result<Bundle, AlgebraFault> {
        if !self.covers(part) {
            return Err(AlgebraFault::NotCovered);
        }
        Ok(self.rest(part)?)
    }

    fn amount(&self) -> u128 {
        let mut amount = 0;
        for resource in self.entries() {
            amount += resource.value.amount();
        }
        amount
    }

    /// Returns a copy that shares the content. It allocates nothing, and fails only if there would be 2^63 owners.
    fn copy(&self) -> Result<Bundle, AllocError> {
        self.recall();
        match &self.shared {
            Some(parts) => Ok(Bundle {
                shared: Some(Arc::try_clone(parts)?),
                nothing: Quantities::empty(self.alloc()),
            }),
            None => Ok(Bundle::empty(self.alloc())),
        }
    }
}
