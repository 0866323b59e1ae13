//! The author of a history: the only value that can add entries to it.
ghost use Rattle.std.specs.Prelude.{◌≡◌, ◌+◌, ◌<◌, ◌^◌, ◌++◌, ◌∷◌, [], length};
ghost use mathlib.Core.List.{IsPrefix};
ghost use Rattle.logbook.specs.Pages.{may_write};
ghost use Rattle.drf_board.specs.Chains.{head_of, word_of};
ghost use Rattle.drf_board.specs.History.{IsLegal, entry};

use crate::history::{AddLink, Borrowed, Chained, Expected, Link, Look, Naming, NewPen, NoGain};
use crate::prefix::Prefix;
use drf_rows::{Event, Reply};
use logbook::{Offer, Pen, Seen, Word};
use std::marker::{Model, PhantomData};

/// Returns a new word of the log that nothing was written to, and its pen, which nobody else has.
pub fn new_word(
    head: &Word<Link, u64, Chained>,
    seen: &Seen<Link, u64, Chained>,
) -> (Word<Link, u64, Chained>, Pen)
    requires { head.now ≡ head_of seen.now.book }
    ensures word { result.0 ≡ word_of seen.now.book result.1.nib.key }
    ensures pen { (result.1.book ≡ seen.now.book) × (result.1.nib.right ≡ may_write) }
{
    let mut known = seen.again();
    let mut offer: Offer<Link, u64, Chained, NoGain> = known.plain::<NoGain, (), NewPen>(&());
    let mut pen = known.no_pen();
    head.compare_exchange::<NewPen, NoGain>(0, 0, &mut known, &mut offer, &mut pen);
    let word = Word::tracked(0, &mut pen);
    (word, pen)
}

/// The only value that can add to the history of a board, because it has the pen of the last link's word. Contracts see it as the history.
#[derive(Drop)]
pub struct Author<K: Naming> {
    count: u64,
    head: Word<Link, u64, Chained>,
    root: Word<Link, u64, Chained>,
    pen: Pen,
    seen: Seen<Link, u64, Chained>,
    of: PhantomData<K>,
}

impl<K: Naming> Model for Author<K> {
    ghost use Rattle.std.specs.Prelude.{◌≡◌, List, length};
    ghost use Rattle.drf_board.specs.Boards.{entries_code};
    ghost use Rattle.drf_board.specs.Chains.{entries_of, head_of, word_of, IsAtEnd};
    ghost use Rattle.drf_board.specs.History.{IsLegal};
    ghost use Rattle.drf_board.specs.declared.entry.Entry.{Entry};

    ghost Value = { List Entry };

    ghost coded = { entries_code };

    ghost view = { λ a. entries_of K.slate.chain a.seen.log };

    ghost invariant = { λ a. (a.count ≡ length (entries_of K.slate.chain a.seen.log)) × (a.seen.book ≡ K.slate.book) × IsLegal K.slate.limits K.start (entries_of K.slate.chain a.seen.log) × (a.head ≡ head_of K.slate.book) × (a.root ≡ word_of K.slate.book K.slate.chain) × IsAtEnd K.slate.book K.slate.chain a.seen.log a.pen.book a.pen.nib };
}

impl<K: Naming> Author<K> {
    /// Creates the author of an empty history.
    pub fn new(
        head: Word<Link, u64, Chained>,
        root: Word<Link, u64, Chained>,
        pen: Pen,
        seen: Seen<Link, u64, Chained>,
    ) -> Author<K>
        requires head { head ≡ head_of K.slate.book }
        requires root { root ≡ word_of K.slate.book K.slate.chain }
        requires pen { (pen.book ≡ K.slate.book) × (pen.nib.right ≡ may_write) × (pen.nib.key ≡ K.slate.chain) }
        requires seen { (seen.book ≡ K.slate.book) × (seen.log ≡ []) }
        ensures { result ≡ [] }
    {
        Author {
            count: 0,
            head,
            root,
            pen,
            seen,
            of: PhantomData,
        }
    }

    /// Returns the whole history as a prefix that others can keep.
    pub fn known(&self) -> Prefix<K>
        ensures { result ≡ self.now }
    {
        Prefix::of(self.count, self.seen.again())
    }

    /// Proves that a prefix which others have is a prefix of the history. Changes nothing.
    pub fn recall(&mut self, known: &Prefix<K>)
        ensures same { self.new ≡ self.old }
        ensures begins { IsPrefix known.now self.new }
    {
        let mut both = self.seen.again();
        both.learn(known.seen());
        let expected = Expected {
            root: &self.root,
            count: self.count,
        };
        let mut offer: Offer<Link, u64, Chained, NoGain> = both.plain::<NoGain, Expected<'_>, Look>(
            &expected,
        );
        self.head
            .compare_exchange::<Look, NoGain>(0, 0, &mut both, &mut offer, &mut self.pen);
    }

    /// Adds an entry to the history. Allocates nothing.
    pub fn add(&mut self, event: &Event, reply: &Reply)
        requires room { length self.old + 1 < 2 ^ 64 }
        requires legal { IsLegal K.slate.limits K.start (self.old ++ entry event.now reply.now ∷ []) }
        ensures { self.new ≡ self.old ++ entry event.now reply.now ∷ [] }
    {
        let (_, next) = new_word(&self.head, &self.seen);
        let borrowed = Borrowed {
            root: &self.root,
            next: &next,
            event,
            reply,
        };
        let mut offer: Offer<Link, u64, Chained, NoGain> = self
            .seen
            .plain::<NoGain, Borrowed<'_>, AddLink>(&borrowed);
        self.head
            .compare_exchange::<AddLink, NoGain>(0, 0, &mut self.seen, &mut offer, &mut self.pen);
        self.pen = next;
        self.count += 1;
    }
}
