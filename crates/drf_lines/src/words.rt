//! Reads the names, roles and bundles of a line. Most of them occur often: copying a value that was read before
//! allocates nothing and shares its memory.
ghost use Rattle.std.specs.Prelude.{◌≡◌, ◌<◌, Ok, IfSome};
ghost use Rattle.drf_lines.specs.Fault.{IsReadOf};
ghost use Rattle.drf_lines.specs.Resources.{bundle_in};
ghost use Rattle.drf_lines.specs.Words.{name_in, role_in};

use crate::fault::LineError;
use crate::known::KnownBundle;
use crate::places::{Places, place_of};
use crate::resources::read_bundle;
use drf_bundle::Bundle;
use drf_role::{Name, Role};
use std::alloc::{AllocError, Global};

/// Reads the name of an agent, a framework or a task. Fails with `BadText` if the text is not a name.
pub fn read_name(alloc: Global, text: &str) -> Result<Name, LineError>
    ensures { IsReadOf result (name_in text.now) }
{
    Ok(Name::read(alloc, text)?)
}

/// Reads a role. Fails with `BadText` if the text is not a role.
fn read_role(alloc: Global, text: &str) -> Result<Role, LineError>
    ensures { IsReadOf result (role_in text.now) }
{
    Ok(Role::read(alloc, text)?)
}

/// The greatest length, in bytes, of the text of a bundle that is kept.
const LONGEST_KNOWN: usize = 128;

/// Returns the name at a place if its text is the given one.
fn known_name(names: &Places<Name>, place: usize, text: &str) -> Option<Name>
    ensures { IfSome result (λ name. name_in text.now ≡ Ok name) }
{
    let name = names.at(place)?;
    if name.text() == text {
        return name.copy().ok();
    }
    None
}

/// Returns the role at a place if its text is the given one.
fn known_role(roles: &Places<Role>, place: usize, text: &str) -> Option<Role>
    ensures { IfSome result (λ role. role_in text.now ≡ Ok role) }
{
    let role = roles.at(place)?;
    if role.text() == text {
        return role.copy().ok();
    }
    None
}

/// Returns the bundle at a place if its text is the given one.
fn known_bundle(bundles: &Places<KnownBundle>, place: usize, text: &str) -> Option<Bundle>
    ensures { IfSome result (λ bundle. bundle_in text.now ≡ Ok bundle) }
{
    bundles.at(place)?.of(text)
}

/// Reads names, roles and bundles, and caches those that it has read. No contract says what it caches; for a single
/// line it caches nothing.
pub struct KnownWords {
    /// The allocator for values that are read.
    pub alloc: Global,
    keeps: bool,
    names: Places<Name>,
    roles: Places<Role>,
    bundles: Places<KnownBundle>,
}

// Written out, so that the proof of code that drops them sees one call.
impl Drop for KnownWords {
    fn drop(self) {
        let KnownWords {
            alloc: _alloc,
            keeps: _keeps,
            names: _names,
            roles: _roles,
            bundles: _bundles,
        } = self;
    }
}

impl KnownWords {
    /// Creates a reader whose caches are empty.
    pub fn new(alloc: Global) -> KnownWords {
        KnownWords {
            alloc,
            keeps: true,
            names: Places::new(alloc),
            roles: Places::new(alloc),
            bundles: Places::new(alloc),
        }
    }

    /// Creates a reader that never caches anything.
    pub fn none(alloc: Global) -> KnownWords {
        KnownWords {
            alloc,
            keeps: false,
            names: Places::new(alloc),
            roles: Places::new(alloc),
            bundles: Places::new(alloc),
        }
    }

    fn keep_name(&mut self, place: usize, name: &Name) -> Result<(), AllocError>
        requires { place < 2048 }
    {
        if self.keeps {
            self.names.put(place, name.copy()?)?;
        }
        Ok(())
    }

    fn keep_role(&mut self, place: usize, role: &Role) -> Result<(), AllocError>
        requires { place < 2048 }
    {
        if self.keeps {
            self.roles.put(place, role.copy()?)?;
        }
        Ok(())
    }

    fn keep_bundle(&mut self, place: usize, text: &str, bundle: &Bundle) -> Result<(), AllocError>
        requires place { place < 2048 }
        requires bundle { bundle_in text.now ≡ Ok bundle.now }
    {
        if self.keeps && text.len() <= LONGEST_KNOWN {
            self.bundles
                .put(place, KnownBundle::new(self.alloc, text, bundle)?)?;
        }
        Ok(())
    }

    /// Reads the name of an agent or a framework. Fails with `BadText` if the text is not a name.
    pub fn name(&mut self, text: &str) -> Result<Name, LineError>
        ensures { IsReadOf result (name_in text.now) }
    {
        let place = place_of(text);
        if let Some(name) = known_name(&self.names, place, text) {
            return Ok(name);
        }
        let name = read_name(self.alloc, text)?;
        let _ = self.keep_name(place, &name);
        Ok(name)
    }

    /// Reads a role. Fails with `BadText` if the text is not a role.
    pub fn role(&mut self, text: &str) -> Result<Role, LineError>
        ensures { IsReadOf result (role_in text.now) }
    {
        let place = place_of(text);
        if let Some(role) = known_role(&self.roles, place, text) {
            return Ok(role);
        }
        let role = read_role(self.alloc, text)?;
        let _ = self.keep_role(place, &role);
        Ok(role)
    }

    /// Reads a bundle. Fails with `BadText` if the text is not a bundle.
    pub fn bundle(&mut self, text: &str) -> Result<Bundle, LineError>
        ensures { IsReadOf result (bundle_in text.now) }
    {
        let place = place_of(text);
        if let Some(bundle) = known_bundle(&self.bundles, place, text) {
            return Ok(bundle);
        }
        let bundle = read_bundle(self.alloc, text)?;
        let _ = self.keep_bundle(place, text, &bundle);
        Ok(bundle)
    }
}
