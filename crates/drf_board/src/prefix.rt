//! Prefixes of a board's history.
ghost use Rattle.std.specs.Prelude.{◌≡◌, length, nat_le, MatchBool};
ghost use mathlib.Core.List.{IsPrefix};
ghost use Rattle.drf_board.specs.Chains.{entries_of};
ghost use Rattle.drf_board.specs.History.{IsLegal};

use crate::history::{Chained, Link, Naming};
use logbook::Seen;
use std::marker::{Model, PhantomData};

/// A legal prefix of the history of a board. Contracts see it as the list of its entries; at run time it is only their number.
#[derive(Drop)]
pub struct Prefix<K: Naming> {
    count: u64,
    seen: Seen<Link, u64, Chained>,
    of: PhantomData<K>,
}

impl<K: Naming> Model for Prefix<K> {
    ghost use Rattle.std.specs.Prelude.{◌≡◌, List, length};
    ghost use Rattle.drf_board.specs.Boards.{entries_code};
    ghost use Rattle.drf_board.specs.Chains.{entries_of};
    ghost use Rattle.drf_board.specs.History.{IsLegal};
    ghost use Rattle.drf_board.specs.declared.entry.Entry.{Entry};

    ghost Value = { List Entry };

    ghost coded = { entries_code };

    ghost view = { λ p. entries_of K.slate.chain p.seen.log };

    ghost invariant = { λ p. (p.count ≡ length (entries_of K.slate.chain p.seen.log)) × (p.seen.book ≡ K.slate.book) × IsLegal K.slate.limits K.start (entries_of K.slate.chain p.seen.log) };
}

impl<K: Naming> Prefix<K> {
    /// Returns the prefix that consists of everything seen in `seen`, which is `count` entries.
    pub fn of(count: u64, seen: Seen<Link, u64, Chained>) -> Prefix<K>
        requires count { count ≡ length (entries_of K.slate.chain seen.log) }
        requires book { seen.book ≡ K.slate.book }
        requires legal { IsLegal K.slate.limits K.start (entries_of K.slate.chain seen.log) }
        ensures { result ≡ entries_of K.slate.chain seen.log }
    {
        Prefix {
            count,
            seen,
            of: PhantomData,
        }
    }

    /// Proves that the list is legal. Does nothing.
    pub fn recall(&self)
        ensures { IsLegal K.slate.limits K.start self.now }
    {
        let _ = &self.count;
    }

    /// Returns the same prefix again. Allocates nothing.
    pub fn again(&self) -> Prefix<K>
        ensures { result ≡ self.now }
    {
        Prefix {
            count: self.count,
            seen: self.seen.again(),
            of: PhantomData,
        }
    }

    /// Returns what was seen of the log.
    pub(crate) fn seen(&self) -> &Seen<Link, u64, Chained>
        ensures book { result.now.book ≡ K.slate.book }
        ensures entries { entries_of K.slate.chain result.now.log ≡ self.now }
    {
        &self.seen
    }

    /// Returns whether this list is a prefix of the other. If not, the other is a prefix of this one.
    pub fn begins(&self, other: &Prefix<K>) -> bool
        ensures which { MatchBool result (IsPrefix self.now other.now) (IsPrefix other.now self.now) }
        ensures exact { result ≡ nat_le (length self.now) (length other.now) }
    {
        // Only for the proof: one of the two lists is a prefix of the other.
        let mut both = self.seen.again();
        both.learn(&other.seen);
        if other.count < self.count {
            return false;
        }
        true
    }
}

/// The list that a board had when a call returned, for viewers to learn. It contains no sheet.
#[derive(Drop)]
pub struct Told<K: Naming> {
    prefix: Prefix<K>,
}

impl<K: Naming> Model for Told<K> {
    ghost use Rattle.std.specs.Prelude.{List};
    ghost use Rattle.drf_board.specs.Boards.{entries_code};
    ghost use Rattle.drf_board.specs.declared.entry.Entry.{Entry};

    ghost Value = { List Entry };

    ghost coded = { entries_code };

    ghost view = { λ t. t.prefix };
}

impl<K: Naming> Told<K> {
    /// Returns the list that is this prefix.
    pub(crate) fn of(prefix: Prefix<K>) -> Told<K>
        ensures { result ≡ prefix }
    {
        Told { prefix }
    }

    /// Returns the list as a prefix.
    pub(crate) fn prefix(&self) -> &Prefix<K>
        ensures { result.now ≡ self.now }
    {
        &self.prefix
    }

    /// Returns whether this list is a prefix of the other. If not, the other is a prefix of this one: two lists that one board returned are prefixes
    /// of one history.
    pub fn begins(&self, other: &Told<K>) -> bool
        ensures which { MatchBool result (IsPrefix self.now other.now) (IsPrefix other.now self.now) }
        ensures exact { result ≡ nat_le (length self.now) (length other.now) }
    {
        self.prefix.begins(&other.prefix)
    }
}
