//! The desk: what the lock of a master protects, a book and its board.
ghost use Rattle.std.specs.Prelude.{◌≡◌, ◌+◌, ◌<◌, ◌^◌, ◌++◌, ◌∷◌, [], length, IfOk, OnOk, OnErr};
ghost use mathlib.Core.List.{IsPrefix};
ghost use Rattle.drf_board.specs.Boards.{HasPublished};
ghost use Rattle.drf_board.specs.History.{IsLegal, entry};
ghost use Rattle.drf_master.specs.Journal.{Adds, IsNext, IsSameJournal};
ghost use Rattle.drf_master.specs.Receipts.{IsSamePass, Keeps};

use crate::book::{Book, Copies, Next};
use crate::pass::{Pass, Receipt};
use drf_board::{Board, Entry, Naming, Sheet, Told, Viewer};
use drf_rows::{Copied, Event, Reply};
use drf_tree::TreeSorter;
use std::alloc::AllocError;
use std::marker::Model;
use std::sync::Wait;

/// The sorter of a master's core.
pub type MasterSorter = TreeSorter;

/// A book and the board that shows it. Contracts see it as the journal, which by this type's invariant is also the list of the board.
pub struct Desk<K: Naming, R: Wait + Drop> {
    book: Book<K, MasterSorter>,
    board: Board<K, R>,
}

impl<K: Naming, R: Wait + Drop> Model for Desk<K, R> {
    ghost use Rattle.std.specs.Prelude.{◌≡◌, List};
    ghost use Rattle.drf_board.specs.Boards.{entries_code};
    ghost use Rattle.drf_board.specs.declared.entry.Entry.{Entry};

    ghost Value = { List Entry };

    ghost coded = { entries_code };

    ghost view = { λ d. d.book.entries };

    ghost invariant = { λ d. (d.board.entries ≡ d.book.entries) × (d.book.limits ≡ K.slate.limits) };
}

// Written out, so that a proof about dropping a desk sees two calls.
impl<K: Naming, R: Wait + Drop> Drop for Desk<K, R> {
    fn drop(self) {
        drop(self.into_book());
    }
}

/// The result of a call: the reply, its place in the journal (counted from 0), and the list of all entries so far, which viewers of this master can
/// learn.
#[derive(Drop)]
pub struct Answer<K: Naming> {
    pub reply: Reply,
    pub place: u64,
    pub told: Told<K>,
}

// Returns copies of a prepared entry and of its reply. It fails only if memory runs out.
fn copies_of(next: &Next<MasterSorter>) -> Result<Copies, AllocError>
    ensures kept { IfOk result (λ copies. copies.kept ≡ next.now.entry) }
    ensures reply { IfOk result (λ copies. copies.reply ≡ next.now.entry.reply) }
{
    let kept = next.entry().copy()?;
    Ok(Copies {
        kept,
        reply: next.reply().copy()?,
    })
}

// Publishes a prepared step, which comes after `place` entries. If memory runs out, the board is unchanged.
fn show<K: Naming, R: Wait + Drop>(
    board: &mut Board<K, R>,
    place: u64,
    next: &Next<MasterSorter>,
) -> Result<Told<K>, AllocError>
    requires place { (place ≡ length board.old.entries) × (place < 2 ^ 63) }
    requires next { IsNext K.slate.limits K.start board.old.entries next.now.core next.now.entry }
    ensures ok { OnOk result (HasPublished board.old board.new next.now.entry) }
    ensures told { IfOk result (λ told. told ≡ board.new.entries) }
    ensures err { OnErr result (board.new ≡ board.old) }
{
    let Entry { event, reply } = next.entry();
    let report = next.report()?;
    let sheet = Sheet {
        events: place + 1,
        report,
    };
    board.publish(sheet, event, reply)
}

// Copies a prepared entry, and then publishes it. If memory runs out, the board is unchanged.
fn show_copied<K: Naming, R: Wait + Drop>(
    board: &mut Board<K, R>,
    place: u64,
    next: &Next<MasterSorter>,
) -> Result<(Copies, Told<K>), AllocError>
    requires place { (place ≡ length board.old.entries) × (place < 2 ^ 63) }
    requires next { IsNext K.slate.limits K.start board.old.entries next.now.core next.now.entry }
    ensures kept { IfOk result (λ r. r.0.kept ≡ next.now.entry) }
    ensures reply { IfOk result (λ r. r.0.reply ≡ next.now.entry.reply) }
    ensures ok { OnOk result (HasPublished board.old board.new next.now.entry) }
    ensures told { IfOk result (λ r. r.1 ≡ board.new.entries) }
    ensures err { OnErr result (board.new ≡ board.old) }
{
    let copies = copies_of(next)?;
    match show(board, place, next) {
        Ok(told) => Ok((copies, told)),
        Err(error) => {
            drop(copies);
            Err(error)
        }
    }
}

// Publishes a prepared step, and then adds it to the book. Everything that can run out of memory comes before anything is published.
fn answer_prepared<K: Naming, R: Wait + Drop>(
    book: &mut Book<K, MasterSorter>,
    board: &mut Board<K, R>,
    next: Next<MasterSorter>,
) -> Result<(Answer<K>, Receipt), AllocError>
    requires entries { board.old.entries ≡ book.old.entries }
    requires limits { book.old.limits ≡ K.slate.limits }
    requires next { IsNext book.old.limits K.start book.old.entries next.core next.entry }
    requires room { 0 < book.old.room }
    ensures added { OnOk result (Adds book.old book.new next.entry) }
    ensures shown { OnOk result (board.new.entries ≡ book.new.entries) }
    ensures reply { IfOk result (λ r. r.0.reply ≡ next.entry.reply) }
    ensures place { IfOk result (λ r. r.0.place ≡ length book.old.entries) }
    ensures told { IfOk result (λ r. r.0.told ≡ book.new.entries) }
    ensures receipt { IfOk result (λ r. r.1 ≡ record { place = r.0.place; entry = next.entry }) }
    ensures err { OnErr result ((book.new ≡ book.old) × (board.new ≡ board.old)) }
{
    match show_copied(board, book.len(), &next) {
        Ok((copies, told)) => {
            let place = book.settle(next);
            let Copies { kept, reply } = copies;
            let receipt = Receipt { place, entry: kept };
            Ok((Answer { reply, place, told }, receipt))
        }
        Err(error) => {
            drop(next);
            Err(error)
        }
    }
}

// Adds an event to a book whose board has no viewers, and to the list of the board. If memory runs out, both are unchanged.
fn answer_unseen<K: Naming, R: Wait + Drop>(
    book: &mut Book<K, MasterSorter>,
    board: &mut Board<K, R>,
    event: Event,
) -> Result<(Answer<K>, Receipt), AllocError>
    requires unseen { board.old.viewers ≡ 0 }
    requires entries { board.old.entries ≡ book.old.entries }
    requires limits { book.old.limits ≡ K.slate.limits }
    ensures added { IfOk result (λ r. Adds book.old book.new (entry event r.0.reply)) }
    ensures shown { OnOk result (board.new.entries ≡ book.new.entries) }
    ensures place { IfOk result (λ r. r.0.place ≡ length book.old.entries) }
    ensures told { IfOk result (λ r. r.0.told ≡ book.new.entries) }
    ensures receipt { IfOk result (λ r. r.1 ≡ record { place = r.0.place; entry = entry event r.0.reply }) }
    ensures err { OnErr result (IsSameJournal book.old book.new × (board.new ≡ board.old)) }
{
    let place = book.len();
    let Copies { kept, reply } = book.record(event)?;
    // Only these calls tell the proof that the journal is legal and not too long.
    let _ = book.entries();
    let _ = book.len();
    let told = board.publish_unseen(&kept.event, &kept.reply);
    let receipt = Receipt { place, entry: kept };
    Ok((Answer { reply, place, told }, receipt))
}

impl<K: Naming, R: Wait + Drop> Desk<K, R> {
    /// Creates a desk from a book and its board. Allocates nothing.
    pub fn new(book: Book<K, MasterSorter>, board: Board<K, R>) -> Desk<K, R>
        requires entries { board.entries ≡ book.entries }
        requires limits { book.limits ≡ K.slate.limits }
        ensures { result ≡ book.entries }
    {
        Desk { book, board }
    }

    /// Proves that a list which was returned by this board is a prefix of the journal. Changes nothing.
    pub fn recall_told(&mut self, told: &Told<K>)
        ensures same { self.new ≡ self.old }
        ensures begins { IsPrefix told.now self.new }
    {
        self.board.recall_told(told);
    }

    /// Proves that the list which a viewer saw or learnt is a prefix of the journal. Changes nothing.
    pub fn recall_viewer(&mut self, viewer: &Viewer<K>)
        ensures same { self.new ≡ self.old }
        ensures begins { IsPrefix viewer.now self.new }
    {
        self.board.recall_viewer(viewer);
    }

    /// Adds an event with its reply to the journal and to the board, and returns the reply. A refused event is added too. If memory runs out, journal
    /// and board are unchanged.
    pub fn answer(&mut self, event: Event) -> Result<Answer<K>, AllocError>
        ensures journal { IfOk result (λ answer. self.new ≡ self.old ++ entry event answer.reply ∷ []) }
        ensures told { IfOk result (λ answer. answer.told ≡ self.new) }
        ensures place { IfOk result (λ answer. answer.place ≡ length self.old) }
        ensures legal { OnOk result (IsLegal K.slate.limits K.start self.new) }
        ensures err { OnErr result (self.new ≡ self.old) }
    {
        let (answer, _receipt) = self.answer_with_receipt(event)?;
        Ok(answer)
    }

    // Does what `answer` does, and also returns a receipt.
    fn answer_with_receipt(&mut self, event: Event) -> Result<(Answer<K>, Receipt), AllocError>
        ensures journal { IfOk result (λ r. self.new ≡ self.old ++ entry event r.0.reply ∷ []) }
        ensures told { IfOk result (λ r. r.0.told ≡ self.new) }
        ensures place { IfOk result (λ r. r.0.place ≡ length self.old) }
        ensures legal { OnOk result (IsLegal K.slate.limits K.start self.new) }
        ensures receipt { IfOk result (λ r. r.1 ≡ record { place = r.0.place; entry = entry event r.0.reply }) }
        ensures err { OnErr result (self.new ≡ self.old) }
    {
        if self.board.viewers() == 0 {
            return answer_unseen(&mut self.book, &mut self.board, event);
        }
        let next = self.book.prepare(event)?;
        answer_prepared(&mut self.book, &mut self.board, next)
    }

    /// Does what `answer` does, and adds a receipt to the pass, which must have room for it. If memory runs out, journal, board and pass are
    /// unchanged.
    pub(crate) fn answer_to(
        &mut self,
        pass: &mut Pass,
        event: Event,
    ) -> Result<Answer<K>, AllocError>
        requires room { 0 < pass.old.room }
        ensures journal { IfOk result (λ answer. self.new ≡ self.old ++ entry event answer.reply ∷ []) }
        ensures told { IfOk result (λ answer. answer.told ≡ self.new) }
        ensures place { IfOk result (λ answer. answer.place ≡ length self.old) }
        ensures legal { OnOk result (IsLegal K.slate.limits K.start self.new) }
        ensures kept { IfOk result (λ answer. Keeps pass.old pass.new answer.place (entry event answer.reply)) }
        ensures err { OnErr result ((self.new ≡ self.old) × IsSamePass pass.old pass.new) }
    {
        let (answer, receipt) = self.answer_with_receipt(event)?;
        pass.keep(receipt);
        Ok(answer)
    }

    /// Drops the board and returns the book.
    pub fn into_book(self) -> Book<K, MasterSorter>
        ensures entries { result.entries ≡ self }
        ensures limits { result.limits ≡ K.slate.limits }
    {
        let Desk {
            book,
            board: _board,
        } = self;
        book
    }

    /// Drops the board, and returns the book and the journal as a list that viewers can learn.
    pub(crate) fn into_told(self) -> (Book<K, MasterSorter>, Told<K>)
        ensures entries { result.0.entries ≡ self }
        ensures limits { result.0.limits ≡ K.slate.limits }
        ensures told { result.1 ≡ self }
    {
        let told = self.board.told();
        (self.into_book(), told)
    }
}
