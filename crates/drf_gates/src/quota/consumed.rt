//! What roles consume because of a bundle: the unreserved part of what their clients hold, and what agents have reserved for them.
ghost use Rattle.std.specs.Prelude.{◌≡◌, ◌+◌, ◌^◌, ◌<◌, ◌≤◌, All, Bool, IfOk, IfSome, OnOk, OnErr, if◌then◌else◌};
ghost use Rattle.drf_role.specs.Text.{Text};
ghost use Rattle.drf_role.specs.Path.{Path, same_path};
ghost use Rattle.drf_bundle.specs.Bundle.{IsResource};
ghost use Rattle.drf_bundle.specs.Quantities.{amount_of};
ghost use Rattle.drf_bundle.specs.Value.{Thousandths, units_in};
ghost use Rattle.drf_rows.specs.Quota.{unreserved_in, reserved_in};
ghost use Rattle.drf_gates.specs.quota.Allowance.{IsRaisedBy, IsSame, amount_in_one, unreserved_one, reserved_one, used_by, used_where};

use crate::quota::consumption::Consumption;
use crate::quota::totals::reduce_totals;
use crate::quota::usage::reduce;
use drf_bundle::{Bundle, Quantities, Resource, Value};
use drf_role::Role;
use std::alloc::{AllocError, Global};

/// Returns the thousandths of a resource, or 0 if it is not a scalar.
fn thousandths(resource: &Resource) -> u64
    ensures { result ≡ units_in resource.now.value Thousandths }
{
    match &resource.value {
        Value::Scalar(scalar) => scalar.thousandths(),
        _ => 0,
    }
}

/// Adds a resource to the amounts if it is unreserved. When out of memory, nothing changes.
fn add_unreserved(sum: &mut Quantities, resource: &Resource) -> Result<(), AllocError>
    requires right { IsResource resource.now }
    requires fits { unreserved_one resource.now.label resource.now + amount_of sum.old resource.now.label < 2 ^ 64 }
    ensures { OnOk result ((label : Text) → amount_of sum.new label ≡ amount_of sum.old label + unreserved_one label resource.now) }
{
    if !resource.is_unreserved() {
        return Ok(());
    }
    let amount = sum.amount_of(&resource.label) + thousandths(resource);
    sum.set(resource.label.copy()?, amount)
}

/// Returns the unreserved part of a bundle.
fn unreserved(alloc: Global, bundle: &Bundle) -> Result<Quantities, AllocError>
    ensures { IfOk result (λ sum. (label : Text) → amount_of sum label ≡ unreserved_in label bundle.now) }
{
    let mut sum = Quantities::empty(alloc);
    for resource in bundle.entries() {
        add_unreserved(&mut sum, resource)?;
    }
    Ok(sum)
}

/// Returns the sums of a bundle if nothing in it is reserved. This avoids computing them.
fn sums_if_unreserved(bundle: &Bundle) -> Option<&Quantities>
    ensures { IfSome result (λ sums. (label : Text) → amount_of sums.now label ≡ unreserved_in label bundle.now) }
{
    if !bundle.is_unreserved() {
        return None;
    }
    Some(bundle.quantities())
}

/// Returns the amount of one resource, in thousandths.
fn one(alloc: Global, resource: &Resource) -> Result<Quantities, AllocError>
    ensures { IfOk result (λ amounts. (label : Text) → amount_of amounts label ≡ amount_in_one label resource.now) }
{
    let mut amounts = Quantities::empty(alloc);
    amounts.set(resource.label.copy()?, thousandths(resource))?;
    Ok(amounts)
}

impl Consumption {
    /// Adds the unreserved part of a bundle to what a role consumes, because a client of the role holds it now. When out of memory, nothing
    /// changes.
    pub fn consume_unreserved(&mut self, role: &Role, bundle: &Bundle) -> Result<(), AllocError>
        requires { (test : Path → Bool) (label : Text)
            → used_where test self.old label + (if test role.now then unreserved_in label bundle.now else 0) < 2 ^ 64 }
        ensures ok { OnOk result (IsRaisedBy self.old self.new (λ test label. if test role.now then unreserved_in label bundle.now else 0)) }
        ensures err { OnErr result (self.new ≡ self.old) }
    {
        if let Some(amounts) = sums_if_unreserved(bundle) {
            return self.consume(role, amounts);
        }
        let amounts = unreserved(*self.used.allocator(), bundle)?;
        self.consume(role, &amounts)
    }

    /// Releases one resource of a role if it is unreserved.
    fn release_one(&mut self, role: &Role, resource: &Resource)
        requires right { IsResource resource.now }
        requires fits { (label : Text) → unreserved_one label resource.now ≤ used_by self.old role.now label }
        ensures { IsRaisedBy self.new self.old (λ test label. if test role.now then unreserved_one label resource.now else 0) }
    {
        if resource.is_unreserved() {
            let amount = thousandths(resource);
            let label = &resource.label;
            reduce(&mut self.used, role, label, amount);
            reduce_totals(&mut self.totals, role, label, amount);
        }
    }

    /// Releases the unreserved part of a bundle, one resource after another.
    fn release_parts(&mut self, role: &Role, bundle: &Bundle)
        requires { (label : Text) → unreserved_in label bundle.now ≤ used_by self.old role.now label }
        ensures { IsRaisedBy self.new self.old (λ test label. if test role.now then unreserved_in label bundle.now else 0) }
    {
        for resource in bundle.entries() {
            self.release_one(role, resource);
        }
    }

    /// Releases the unreserved part of a bundle, because a client of the role no longer holds it. It never allocates.
    pub fn release_unreserved(&mut self, role: &Role, bundle: &Bundle)
        requires { (label : Text) → unreserved_in label bundle.now ≤ used_by self.old role.now label }
        ensures { IsRaisedBy self.new self.old (λ test label. if test role.now then unreserved_in label bundle.now else 0) }
    {
        match sums_if_unreserved(bundle) {
            Some(amounts) => self.release(role, amounts),
            None => self.release_parts(role, bundle),
        }
    }

    /// Adds what is reserved of a resource to what the role that it is reserved for consumes. When out of memory, nothing changes.
    fn consume_resource(&mut self, resource: &Resource) -> Result<(), AllocError>
        requires right { IsResource resource.now }
        requires fits { (test : Path → Bool) (label : Text) → used_where test self.old label + reserved_one test label resource.now < 2 ^ 64 }
        ensures ok { OnOk result (IsRaisedBy self.old self.new (λ test label. reserved_one test label resource.now)) }
        ensures err { OnErr result (self.new ≡ self.old) }
    {
        if resource.is_unreserved() {
            return Ok(());
        }
        let amounts = one(*self.used.allocator(), resource)?;
        self.consume(&resource.role, &amounts)
    }

    /// Releases what is reserved of a resource.
    fn release_resource(&mut self, resource: &Resource)
        requires right { IsResource resource.now }
        requires fits { (role : Path) (label : Text) → reserved_one (same_path role) label resource.now ≤ used_by self.old role label }
        ensures { IsRaisedBy self.new self.old (λ test label. reserved_one test label resource.now) }
    {
        if !resource.is_unreserved() {
            let amount = thousandths(resource);
            let label = &resource.label;
            reduce(&mut self.used, &resource.role, label, amount);
            reduce_totals(&mut self.totals, &resource.role, label, amount);
        }
    }

    /// Releases what is reserved of these resources.
    fn release_each(&mut self, resources: &[Resource])
        requires right { All IsResource resources.now }
        requires fits { (role : Path) (label : Text) → reserved_in (same_path role) label resources.now ≤ used_by self.old role label }
        ensures { IsRaisedBy self.new self.old (λ test label. reserved_in test label resources.now) }
    {
        for resource in resources {
            self.release_resource(resource);
        }
    }

    /// Releases what is reserved in an agent's total, because the agent no longer has it. It never allocates.
    pub fn release_reserved(&mut self, total: &Bundle)
        requires { (role : Path) (label : Text) → reserved_in (same_path role) label total.now ≤ used_by self.old role label }
        ensures { IsRaisedBy self.new self.old (λ test label. reserved_in test label total.now) }
    {
        self.release_each(total.entries());
    }

    /// Adds what is reserved in an agent's total to what the roles that it is reserved for consume. When out of memory, nothing changes.
    pub fn consume_reserved(&mut self, total: &Bundle) -> Result<(), AllocError>
        requires { (test : Path → Bool) (label : Text) → used_where test self.old label + reserved_in test label total.now < 2 ^ 64 }
        ensures ok { OnOk result (IsRaisedBy self.old self.new (λ test label. reserved_in test label total.now)) }
        ensures err { OnErr result (IsSame self.old self.new) }
    {
        let resources = total.entries();
        for place in 0..resources.len() {
            if let Err(error) = self.consume_resource(&resources[place]) {
                self.release_each(&resources[..place]);
                return Err(error);
            }
        }
        Ok(())
    }
}
