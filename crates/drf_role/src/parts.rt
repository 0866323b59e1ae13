//! An iterator over the parts of a role or a path.
ghost use Rattle.std.specs.Prelude.{◌≡◌, List, ℕ};
ghost use Rattle.std.specs.Iterator.{YieldsFirstBy, item_count};

use crate::joined::Joined;
use std::marker::Model;

/// Iterates over the parts of a role or a path, in order. Contracts see the list of the parts that are still to come.
#[derive(Drop)]
pub struct Parts<'a> {
    joined: &'a Joined,
    next: usize,
}

impl<'a> Model for Parts<'a> {
    ghost use Rattle.std.specs.Prelude.{◌≤◌, List, ℕ, drop, length};

    ghost Value = { List (List ℕ) };

    ghost view = { λ p. drop p.next p.joined.now };

    ghost invariant = { λ p. p.next ≤ length p.joined.now };
}

impl<'a> Parts<'a> {
    /// Returns the iterator over the parts.
    pub(crate) fn new(joined: &'a Joined) -> Parts<'a>
        ensures { result ≡ joined.now }
    {
        Parts { joined, next: 0 }
    }
}

impl<'a> Iterator for Parts<'a> {
    type Item = &'a str;

    ghost next_gives = { YieldsFirstBy (λ x. x.now) (λ s. s) };

    ghost remaining = { item_count (λ s. s) };

    fn next(&mut self) -> Option<&'a str> {
        let joined = self.joined;
        let i = self.next;
        if i == joined.len() {
            return None;
        }
        self.next = i + 1;
        Some(joined.part(i))
    }
}
