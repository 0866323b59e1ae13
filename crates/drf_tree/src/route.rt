//! The trait `Route`: paths from the top of the tree down, part by part.
ghost use Rattle.std.specs.Prelude.{◌≡◌, ◌≤◌, ◌<◌, Some, length, slice_get};
ghost use Rattle.drf_role.specs.Path.{Path};

use drf_role::{ClientPath, NodePath, Role};

/// A path that leads to a node, as a list of parts.
pub(crate) trait Route {
    ghost parts: { Self → Path };

    fn len(&self) -> usize
        ensures len { result ≡ length (parts self.now) }
        ensures some { 1 ≤ result };

    fn part(&self, i: usize) -> &str
        requires { i < length (parts self.now) }
        ensures { slice_get (parts self.now) i ≡ Some result.now };
}

impl Route for ClientPath {
    ghost parts = { λ path. path };

    fn len(&self) -> usize {
        self.len()
    }

    fn part(&self, i: usize) -> &str {
        self.part(i)
    }
}

impl Route for NodePath {
    ghost parts = { λ node. node };

    fn len(&self) -> usize {
        self.len()
    }

    fn part(&self, i: usize) -> &str {
        self.part(i)
    }
}

impl Route for Role {
    ghost parts = { λ role. role };

    fn len(&self) -> usize {
        self.len()
    }

    fn part(&self, i: usize) -> &str {
        self.part(i)
    }
}
