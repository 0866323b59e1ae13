//! A resource: a value with a name and a reservation.
ghost use Rattle.std.specs.Prelude.{◌≡◌, ◌+◌, ◌<◌, ◌^◌, IfOk};
ghost use Rattle.drf_role.specs.Path.{same_path};
ghost use Rattle.drf_role.specs.Text.{same_text};
ghost use Rattle.drf_bundle.specs.Bundle.{is_default, is_for, moved_to, key_of, key_cmp, same_key, reservation, with_value};
ghost use Rattle.drf_bundle.specs.Value.{Thousandths, units_in, united};
ghost use Rattle.std.specs.Ordering.{nat_cmp};
ghost use Rattle.std.specs.Cmp.Lexicographic.{slice_cmp};

use crate::value::Value;
use drf_role::{Label, Role};
use std::alloc::AllocError;
use std::cmp::Ordering;

/// A resource: a value with its name, reserved for a role, or unreserved if the role is `*`.
pub struct Resource {
    pub label: Label,
    pub role: Role,
    pub value: Value,
}

// Written out, so that a caller's proof about dropping a resource deals with one call, and not with the kinds of its
// value.
impl Drop for Resource {
    fn drop(self) {
        let Resource {
            label: _label,
            role: _role,
            value: _value,
        } = self;
    }
}

/// Returns the text of the role, which is empty for `*`: the resources of one name are ordered by it.
fn reservation(role: &Role) -> &str
    ensures { result.now ≡ reservation role.now }
{
    if role.is_default() { "" } else { role.text() }
}

/// Returns how two labels compare in byte order. Equality is tested first, because it is frequent and cheap.
pub(crate) fn compare_labels(label: &Label, other: &Label) -> Ordering
    ensures { result ≡ slice_cmp nat_cmp label.now other.now }
{
    if label == other {
        return Ordering::Equal;
    }
    label.cmp(other)
}

/// Returns whether two roles are equal. `*` is tested first, because it is frequent and cheap.
pub(crate) fn is_same_role(role: &Role, other: &Role) -> bool
    ensures { result ≡ same_path role.now other.now }
{
    if role.is_default() && other.is_default() {
        return true;
    }
    role == other
}

/// Returns whether two reservations are equal.
fn is_same_reservation(role: &Role, other: &Role) -> bool
    ensures { result ≡ same_text (reservation role.now) (reservation other.now) }
{
    if role.is_default() && other.is_default() {
        return true;
    }
    reservation(role) == reservation(other)
}

/// Returns how two reservations compare.
fn compare_reservations(role: &Role, other: &Role) -> Ordering
    ensures { result ≡ slice_cmp nat_cmp (reservation role.now) (reservation other.now) }
{
    if is_same_role(role, other) {
        return Ordering::Equal;
    }
    reservation(role).cmp(reservation(other))
}

impl Resource {
    /// Returns how the key of the resource compares with this name and reservation.
    pub(crate) fn cmp_key(&self, label: &Label, role: &Role) -> Ordering
        ensures { result ≡ key_cmp (key_of self.now) (label.now, reservation role.now) }
    {
        match compare_labels(&self.label, label) {
            Ordering::Equal => compare_reservations(&self.role, role),
            apart => apart,
        }
    }

    /// Returns whether the resource has this name and reservation.
    pub(crate) fn has_key(&self, label: &Label, role: &Role) -> bool
        ensures { result ≡ same_key (label.now, reservation role.now) (key_of self.now) }
    {
        *label == self.label && is_same_reservation(role, &self.role)
    }

    /// Returns whether the resource is unreserved.
    pub fn is_unreserved(&self) -> bool
        ensures { result ≡ is_default self.now.role }
    {
        self.role.is_default()
    }

    /// Returns whether a role can use the resource: it is unreserved, or reserved for this role or a role above it.
    pub fn is_for(&self, role: &Role) -> bool
        ensures { result ≡ is_for role.now self.now }
    {
        self.is_unreserved() || role.is_within(&self.role)
    }

    /// Returns a copy that is reserved for this role.
    pub(crate) fn moved_to(&self, role: &Role) -> Result<Resource, AllocError>
        ensures { IfOk result (λ moved. moved ≡ moved_to role.now self.now) }
    {
        Ok(Resource {
            label: self.label.copy()?,
            role: role.copy()?,
            value: self.value.copy()?,
        })
    }

    /// Returns a copy with this value.
    pub(crate) fn with_value(&self, value: Value) -> Result<Resource, AllocError>
        ensures { IfOk result (λ resource. resource ≡ with_value self.now value) }
    {
        Ok(Resource {
            label: self.label.copy()?,
            role: self.role.copy()?,
            value,
        })
    }

    /// Returns an equal resource. Fails with `AllocError` if memory runs out.
    pub fn copy(&self) -> Result<Resource, AllocError>
        ensures { IfOk result (λ resource. resource ≡ self.now) }
    {
        self.with_value(self.value.copy()?)
    }

    /// Returns the united resource of two with the same key.
    pub(crate) fn united(&self, other: &Resource) -> Result<Resource, AllocError>
        requires { units_in self.now.value Thousandths + units_in other.now.value Thousandths < 2 ^ 64 }
        ensures { IfOk result (λ both. both ≡ with_value self.now (united self.now.value other.now.value)) }
    {
        self.with_value(self.value.unite(&other.value)?)
    }
}
