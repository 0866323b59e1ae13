//! An iterator over the labels of quantities.
ghost use Rattle.std.specs.Prelude.{◌≡◌};
ghost use Rattle.std.specs.Iterator.{YieldsFirstBy, item_count};
ghost use Rattle.drf_bundle.specs.Quantities.{names_of};

use crate::quantities::Entry;
use std::marker::Model;

/// Iterates over the labels of quantities in order. Contracts see the list of the labels that are still to come.
#[derive(Drop)]
pub struct Names<'a> {
    entries: &'a [Entry],
    next: usize,
}

impl<'a> Model for Names<'a> {
    ghost use Rattle.std.specs.Prelude.{◌≤◌, List, ℕ, drop, length};
    ghost use Rattle.drf_bundle.specs.Quantities.{names_of};

    ghost Value = { List (List ℕ) };

    ghost view = { λ n. names_of (drop n.next n.entries.now) };

    ghost invariant = { λ n. n.next ≤ length n.entries.now };
}

impl<'a> Names<'a> {
    /// Returns the iterator over the labels of these entries.
    pub(crate) fn new(entries: &'a [Entry]) -> Names<'a>
        ensures { result ≡ names_of entries.now }
    {
        Names { entries, next: 0 }
    }
}

impl<'a> Iterator for Names<'a> {
    type Item = &'a str;

    ghost next_gives = { YieldsFirstBy (λ x. x.now) (λ s. s) };

    ghost remaining = { item_count (λ s. s) };

    fn next(&mut self) -> Option<&'a str> {
        let entries = self.entries;
        let i = self.next;
        if i == entries.len() {
            return None;
        }
        self.next = i + 1;
        let entry = &entries[i];
        Some(entry.label.text())
    }
}
