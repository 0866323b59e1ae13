//! Paths of clients and nodes in the tree of roles.
ghost use Rattle.std.specs.String.{string_bytes};
ghost use Rattle.std.specs.Prelude.{◌≡◌, ◌==◌, ◌<◌, ◌≤◌, ◌+◌, ◌++◌, codes, List, ℕ, IfOk, Some, length, slice_get, take};
ghost use Rattle.std.specs.Cmp;
ghost use Rattle.std.specs.Cmp.Lexicographic.{pointwise, lists_equiv, nat_list_eq_equiv, bytes_decides, pointwise_decides};
ghost use Rattle.std.specs.Hash as fed;
ghost use Rattle.std.specs.Hash.{same_Alike};
ghost use Rattle.drf_role.specs.Parts.{parts_of, text_of};
ghost use Rattle.drf_role.specs.Path.{client_path, role_part, framework_part, IsClientPath, IsNamed, IsNodePath};

use crate::joined::Joined;
use crate::name::Name;
use crate::role::Role;
use std::alloc::{AllocError, Global};
use std::hash::{Hash, Hasher};
use std::marker::Model;

// The child of a role below which the frameworks of the role itself are.
const OWN_CHILD: &str = ".";

// The same with its separators, between a role and a framework.
const DOT_PART: &str = "/./";

/// Returns the text of a client's path.
fn client_text(alloc: Global, role: &str, framework: &str) -> Result<String, AllocError>
    requires { length role.now + length framework.now < 1000 }
    ensures { IfOk result
        (λ text. string_bytes text ≡ role.now ++ codes "/./" ++ framework.now) }
{
    let len = role.len() + DOT_PART.len() + framework.len();
    let mut text = String::with_capacity(alloc, len)?;
    text.push_str(role)?;
    text.push_str(DOT_PART)?;
    text.push_str(framework)?;
    Ok(text)
}

/// The path of a client: the parts of its role, then `.`, then its framework. Contracts see the list of these parts.
pub struct ClientPath {
    role: Role,
    framework: Name,
}

impl Model for ClientPath {
    ghost Value = { List (List ℕ) };

    ghost view = { λ p. client_path p.role p.framework };

    ghost invariant = { λ p. IsNamed p.role p.framework };
}

// Written out, so that a caller's proof about dropping a path deals with one call.
impl Drop for ClientPath {
    fn drop(self) {
        let ClientPath {
            role: _role,
            framework: _framework,
        } = self;
    }
}

impl ClientPath {
    /// Returns the path of a framework in a role. Fails with `AllocError` if memory runs out.
    pub fn new(_alloc: Global, role: &Role, framework: &Name) -> Result<ClientPath, AllocError>
        ensures { IfOk result (λ path. path ≡ client_path role.now framework.now) }
    {
        Ok(ClientPath::from_parts(role.copy()?, framework.copy()?))
    }

    /// Returns the path of a framework in a role. It takes both, and allocates nothing.
    pub fn from_parts(role: Role, framework: Name) -> ClientPath
        ensures { result ≡ client_path role framework }
    {
        role.recall();
        framework.recall();
        ClientPath { role, framework }
    }

    /// Returns the role of the client.
    pub fn role(&self) -> &Role
        ensures { result.now ≡ role_part self.now }
    {
        &self.role
    }

    /// Returns the name of the client's framework.
    pub fn framework(&self) -> &Name
        ensures { result.now ≡ framework_part self.now }
    {
        &self.framework
    }

    /// Returns the number of parts.
    pub fn len(&self) -> usize
        ensures len { result ≡ length self.now }
        ensures few { result ≤ 10 }
        ensures right { IsClientPath self.now }
    {
        self.role.len() + 2
    }

    /// Returns the part at an index.
    pub fn part(&self, i: usize) -> &str
        requires { i < length self.now }
        ensures { slice_get self.now i ≡ Some result.now }
    {
        if i < self.role.len() {
            self.role.part(i)
        } else if i == self.role.len() {
            OWN_CHILD
        } else {
            self.framework.text()
        }
    }

    /// Returns an equal path.
    pub fn copy(&self) -> Result<ClientPath, AllocError>
        ensures { IfOk result (λ path. path ≡ self.now) }
    {
        Ok(ClientPath {
            role: self.role.copy()?,
            framework: self.framework.copy()?,
        })
    }

    // Returns the parts joined to one text.
    fn joined(&self) -> Result<Joined, AllocError>
        ensures parts { IfOk result (λ joined. joined ≡ self.now) }
        ensures right { IsClientPath self.now }
    {
        let alloc = self.role.alloc();
        let text = client_text(alloc, self.role.text(), self.framework.text())?;
        let joined = Joined::cut(alloc, text)?;
        Ok(joined)
    }

    // Returns the prefix of `len` parts. If it lies within the role, the text of the whole path is not built.
    fn prefix(&self, len: usize) -> Result<Joined, AllocError>
        requires some { 1 ≤ len }
        requires within { len ≤ length self.now }
        ensures parts { IfOk result (λ prefix. prefix ≡ take len self.now) }
        ensures right { IsClientPath self.now }
    {
        if len <= self.role.len() {
            return self.role.prefix(len);
        }
        self.joined()?.prefix(len)
    }

    /// Returns the node of the first `len` parts.
    pub fn node(&self, len: usize) -> Result<NodePath, AllocError>
        requires some { 1 ≤ len }
        requires within { len ≤ length self.now }
        ensures { IfOk result (λ node. node ≡ take len self.now) }
    {
        Ok(NodePath {
            joined: self.prefix(len)?,
        })
    }
}

impl PartialEq for ClientPath {
    ghost eq = { pointwise (pointwise ◌==◌) };

    ghost laws = { Cmp.partial_equiv_from_equiv (lists_equiv nat_list_eq_equiv) };

    fn eq(&self, other: &ClientPath) -> bool {
        self.framework == other.framework && self.role == other.role
    }
}

impl Eq for ClientPath {
    ghost laws = { lists_equiv nat_list_eq_equiv };
}

impl Hash for ClientPath {
    ghost hash_input = { λ path. fed.str (framework_part path) ++ fed.str (text_of (role_part path)) };

    ghost respects_eq = { (same_Alike (λ path. fed.str (framework_part path) ++ fed.str (text_of (role_part path))) (pointwise_decides bytes_decides)).fed };

    fn hash<H: Hasher>(&self, state: &mut H) {
        self.framework().text().hash(state);
        self.role().text().hash(state);
    }
}

/// The path of a node: a non-empty prefix of a client's path. Contracts see the list of its parts. Paths are ordered
/// part by part, each part by its bytes; a prefix comes before longer paths.
#[derive(PartialEq, Eq, PartialOrd, Ord, Hash)]
pub struct NodePath {
    joined: Joined,
}

impl Model for NodePath {
    ghost Value = { List (List ℕ) };

    ghost view = { λ p. p.joined };

    ghost invariant = { λ p. IsNodePath p.joined };

    ghost inverse = { λ parts. record { joined = parts } };
}

// Written out, so that a caller's proof about dropping a path deals with one call.
impl Drop for NodePath {
    fn drop(self) {
        let NodePath { joined: _joined } = self;
    }
}

impl NodePath {
    /// Returns the parts joined by `/`.
    pub fn text(&self) -> &str
        ensures text { result.now ≡ text_of self.now }
        ensures parts { parts_of result.now ≡ self.now }
        ensures right { IsNodePath self.now }
    {
        self.joined.text()
    }

    /// Returns the number of parts.
    pub fn len(&self) -> usize
        ensures len { result ≡ length self.now }
        ensures some { 1 ≤ result }
        ensures few { result ≤ 10 }
    {
        self.joined.len()
    }

    /// Returns the part at an index.
    pub fn part(&self, i: usize) -> &str
        requires { i < length self.now }
        ensures { slice_get self.now i ≡ Some result.now }
    {
        self.joined.part(i)
    }

    /// Returns an equal path.
    pub fn copy(&self) -> Result<NodePath, AllocError>
        ensures { IfOk result (λ node. node ≡ self.now) }
    {
        Ok(NodePath {
            joined: self.joined.copy()?,
        })
    }
}
