//! Slates: they name one board and its viewers before the board is opened.
ghost use Rattle.std.specs.Prelude.{◌≡◌, ◌≤◌, [], IfOk};

use crate::author::{Author, new_word};
use crate::history::{Chained, Link, Naming};
use drf_rows::Limits;
use logbook::{Pen, Seen, Start, Word};
use std::alloc::AllocError;
use std::marker::Model;

/// A board that is not opened yet. Contracts see it as the name that the board will have, and the number of its viewers.
#[derive(Drop)]
pub struct Slate {
    limits: Limits,
    viewers: u64,
    head: Word<Link, u64, Chained>,
    root: Word<Link, u64, Chained>,
    pen: Pen,
    seen: Seen<Link, u64, Chained>,
}

impl Model for Slate {
    ghost use Rattle.std.specs.Prelude.{◌≡◌, ◌≤◌, []};
    ghost use Rattle.logbook.specs.Pages.{may_write};
    ghost use Rattle.drf_board.specs.Chains.{head_of, word_of};
    ghost use Rattle.drf_board.specs.Slates.{SlateState, slate_code};

    ghost Value = { SlateState };

    ghost coded = { slate_code };

    ghost view = { λ s. record { name = record { book = s.seen.book; chain = s.pen.nib.key; limits = s.limits }; viewers = s.viewers } };

    ghost invariant = { λ s. (s.seen.log ≡ []) × (s.head ≡ head_of s.seen.book) × (s.root ≡ word_of s.seen.book s.pen.nib.key) × (s.pen.book ≡ s.seen.book) × (s.pen.nib.right ≡ may_write) × (s.viewers ≤ 64) };
}

impl Slate {
    /// Creates a slate for 0 to 64 viewers. The lists of its board will be legal under these capacities. Allocates nothing, and never fails
    /// (`Board::open` allocates what the viewers read).
    pub fn open(viewers: u64, limits: Limits) -> Result<Slate, AllocError>
        requires few { viewers ≤ 64 }
        ensures limits { IfOk result (λ slate. slate.name.limits ≡ limits) }
        ensures viewers { IfOk result (λ slate. slate.viewers ≡ viewers) }
    {
        let (seen, mut first, _second) = Seen::open(Start::alone(), 0, 0);
        let head = Word::tracked(0, &mut first);
        let (root, pen) = new_word(&head, &seen);
        Ok(Slate {
            limits,
            viewers,
            head,
            root,
            pen,
            seen,
        })
    }

    /// Returns the number of viewers.
    pub fn viewers(&self) -> u64
        ensures value { result ≡ self.now.viewers }
        ensures few { self.now.viewers ≤ 64 }
    {
        self.viewers
    }

    /// Returns the author of the board's history, which is empty.
    pub(crate) fn into_author<K: Naming>(self) -> Author<K>
        requires named { self.name ≡ K.slate }
        ensures { result ≡ [] }
    {
        let Slate {
            limits: _,
            viewers: _,
            head,
            root,
            pen,
            seen,
        } = self;
        Author::new(head, root, pen, seen)
    }
}
