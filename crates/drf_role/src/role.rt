//! Roles: `*`, or components joined by `/`, such as `eng/web`.
ghost use Rattle.std.specs.Prelude.{◌≡◌, ◌↔◌, ◌<◌, ◌≤◌, List, ℕ, All, IfOk, IsTrue, IsErrOf, Some, length, slice_get, take};
ghost use Rattle.drf_role.specs.Parts.{parts_of, text_of};
ghost use Rattle.drf_role.specs.Path.{begins_with};
ghost use Rattle.drf_role.specs.Role.{IsComponentByte, IsComponent, IsRolePath, IsRole, IsRoleText, IsWithin, default_role};

use crate::joined::Joined;
use crate::parts::Parts;
use std::alloc::{AllocError, Global};
use std::marker::Model;
use thiserror::Error;

/// The greatest length of a role's text, in bytes.
const MAX_ROLE_LEN: usize = 64;

/// The greatest number of components of a role.
const MAX_COMPONENTS: usize = 8;

const DEFAULT_ROLE: &str = "*";

/// Why a text is not read as a role.
#[derive(Clone, Copy, Debug, PartialEq, Eq, Error)]
pub enum RoleFault {
    /// The text is not a role.
    #[error("not a role")]
    BadRole,
    #[error("out of memory")]
    Memory,
}

/// Returns whether a component can have this byte.
fn is_component_byte(byte: u8) -> bool
    ensures { IsTrue result ↔ IsComponentByte byte }
{
    byte.is_ascii_graphic()
        && byte != b'/'
        && byte != b'('
        && byte != b')'
        && byte != b':'
        && byte != b';'
}

/// Returns whether the text is a valid component.
fn is_component(text: &str) -> bool
    ensures { IsTrue result ↔ IsComponent text.now }
{
    let bytes = text.as_bytes();
    if bytes.is_empty() || bytes[0] == b'-' {
        return false;
    }
    if text == "." || text == ".." || text == "*" {
        return false;
    }
    bytes.iter().all(|b| is_component_byte(*b))
}

/// Returns the number of components of the text.
fn component_count(text: &str) -> usize
    ensures { result ≡ length (parts_of text.now) }
{
    text.split('/').count()
}

/// Returns whether all components of the text are valid.
fn are_components(text: &str) -> bool
    ensures { IsTrue result ↔ All IsComponent (parts_of text.now) }
{
    text.split('/').all(|component| is_component(component))
}

/// Returns whether the text consists of 1 to 8 valid components in at most 64 bytes.
fn is_role_path(text: &str) -> bool
    ensures { IsTrue result ↔ IsRolePath (parts_of text.now) }
{
    if text.len() > MAX_ROLE_LEN {
        return false;
    }
    if component_count(text) > MAX_COMPONENTS {
        return false;
    }
    are_components(text)
}

/// Returns whether the text is a valid role.
fn is_role(text: &str) -> bool
    ensures { IsTrue result ↔ IsRoleText text.now }
{
    if text == DEFAULT_ROLE {
        return true;
    }
    is_role_path(text)
}

/// A role: `*`, or 1 to 8 components joined by `/`, in at most 64 bytes. Contracts see the list of its components.
#[derive(PartialEq, Eq, Hash)]
pub struct Role {
    joined: Joined,
}

impl Model for Role {
    ghost Value = { List (List ℕ) };

    ghost view = { λ r. r.joined };

    ghost invariant = { λ r. IsRole r.joined };

    ghost inverse = { λ components. record { joined = components } };
}

// Written out, so that a caller's proof about dropping a role deals with one call.
impl Drop for Role {
    fn drop(self) {
        let Role { joined: _joined } = self;
    }
}

impl Role {
    /// Reads a role. Fails with `BadRole` if the text is not a role, and with `Memory` if memory runs out. A text that
    /// is not a role needs no memory.
    pub fn read(alloc: Global, text: &str) -> Result<Role, RoleFault>
        ensures text { IfOk result (λ role. text_of role ≡ text.now) }
        ensures parts { IfOk result (λ role. role ≡ parts_of text.now) }
        ensures right { IfOk result IsRole }
        ensures bad { IsErrOf result RoleFault.BadRole ↔ ¬ IsRoleText text.now }
        ensures memory { IsErrOf result RoleFault.Memory → IsRoleText text.now }
    {
        if !is_role(text) {
            return Err(RoleFault::BadRole);
        }
        match Joined::from_text(alloc, text) {
            Ok(joined) => Ok(Role { joined }),
            Err(_) => Err(RoleFault::Memory),
        }
    }

    /// Returns the role `*`.
    pub fn default_role(alloc: Global) -> Role
        ensures { result ≡ default_role }
    {
        Role {
            joined: Joined::star(alloc),
        }
    }

    /// Returns the text of the role: `*`, or its components joined by `/`.
    pub fn text(&self) -> &str
        ensures text { result.now ≡ text_of self.now }
        ensures parts { parts_of result.now ≡ self.now }
        ensures right { IsRole self.now }
    {
        self.joined.text()
    }

    /// Proves that the role is valid. It does nothing.
    pub fn recall(&self)
        ensures right { IsRole self.now }
        ensures parts { parts_of (text_of self.now) ≡ self.now }
    {
        let _ = self.text();
    }

    /// Returns the number of components.
    pub fn len(&self) -> usize
        ensures len { result ≡ length self.now }
        ensures some { 1 ≤ result }
        ensures few { result ≤ 8 }
    {
        self.joined.len()
    }

    /// Returns the component at an index.
    pub fn part(&self, i: usize) -> &str
        requires { i < length self.now }
        ensures { slice_get self.now i ≡ Some result.now }
    {
        self.joined.part(i)
    }

    /// Returns an iterator over the components.
    pub fn parts(&self) -> Parts<'_>
        ensures { result ≡ self.now }
    {
        self.joined.parts()
    }

    /// Returns the allocator of the text.
    pub(crate) fn alloc(&self) -> Global {
        self.joined.alloc()
    }

    /// Returns the first `len` components, as the parts of a node.
    pub(crate) fn prefix(&self, len: usize) -> Result<Joined, AllocError>
        requires some { 1 ≤ len }
        requires within { len ≤ length self.now }
        ensures { IfOk result (λ prefix. prefix ≡ take len self.now) }
    {
        self.joined.prefix(len)
    }

    /// Returns an equal role.
    pub fn copy(&self) -> Result<Role, AllocError>
        ensures { IfOk result (λ role. role ≡ self.now) }
    {
        Ok(Role {
            joined: self.joined.copy()?,
        })
    }

    /// Returns whether the role is `*`.
    pub fn is_default(&self) -> bool
        ensures { IsTrue result ↔ (self.now ≡ default_role) }
    {
        self.joined.needs_no_memory() || self.text() == DEFAULT_ROLE
    }

    /// Returns whether the role is `outer` or below it. `*` is only within itself, and no other role is within `*`.
    pub fn is_within(&self, outer: &Role) -> bool
        ensures value { result ≡ begins_with self.now outer.now }
        ensures within { IsTrue result ↔ IsWithin self.now outer.now }
        ensures default_alone { IsTrue result → ((self.now ≡ default_role) ↔ (outer.now ≡ default_role)) }
    {
        self.joined.begins_with(&outer.joined)
    }
}
