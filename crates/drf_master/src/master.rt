//! The master: one allocator behind a lock, called through passes.
ghost use Rattle.std.specs.Prelude.{◌≡◌, ◌<◌, ◌≤◌, [], length, All, IsTrue, ◌↔◌, OnOk, IfOk, IfErr, OnErr};
ghost use mathlib.Core.List.{IsPrefix};
ghost use Rattle.drf_board.specs.History.{IsLegal, entry};
ghost use Rattle.drf_master.specs.Calling.{IsCallFault};
ghost use Rattle.drf_master.specs.Closing.{AreOf, IsClosed, IsCloseFault};
ghost use Rattle.drf_master.specs.Journal.{Begins};
ghost use Rattle.drf_master.specs.Matching.{IsShuffle, receipts_of};
ghost use Rattle.drf_master.specs.Receipts.{IsNewPass, IsSamePass, IsReported, Keeps};
ghost use Rattle.drf_master.specs.declared.matching.CloseFault.TheVariants.{Memory};
ghost use Rattle.drf_rows.specs.Step.{opening};

use crate::book::Book;
use crate::desk::{Answer, Desk, MasterSorter};
use crate::matching::CloseFault;
use crate::pass::Pass;
use drf_board::{Board, Naming, Slate, Told, Viewer};
use drf_core::Core;
use drf_rows::{Event, Limits};
use std::alloc::{AllocError, Global};
use std::sync::{Mutex, MutexGuard, Wait};

/// Why a call was not made. The pass is unchanged. That journal and board are unchanged is in the contract of `Desk::answer`, but not in that of a
/// call.
#[derive(Clone, Copy, Debug, PartialEq, Eq)]
pub enum CallFault {
    /// The pass has another key than the master.
    Stranger,
    /// Memory ran out.
    Memory,
}

impl From<AllocError> for CallFault {
    ghost use Rattle.drf_master.specs.declared.master.CallFault.TheVariants.{Memory};

    ghost from_gives = { λ _ gives. gives ≡ Memory };

    fn from(_error: AllocError) -> CallFault {
        CallFault::Memory
    }
}

/// What `Master::close` returns if it does not find that the passes fit the journal: the error, the book, its journal as a list that viewers can
/// learn, and the passes.
#[derive(Drop)]
pub struct CloseRefused<K: Naming> {
    pub fault: CloseFault,
    pub book: Book<K, MasterSorter>,
    pub told: Told<K>,
    pub passes: Vec<Pass>,
}

impl<K: Naming> CloseRefused<K> {
    // Returns the error. Everything else is dropped.
    pub(crate) fn into_fault(self) -> CloseFault
        ensures { result ≡ self.fault }
    {
        let fault = self.fault;
        drop(self);
        fault
    }
}

/// The desk of a master while its lock is held.
pub(crate) type Locked<'a, K, R> = MutexGuard<'a, Desk<K, R>>;

/// One allocator that many threads call, one call at a time.
#[derive(Drop)]
pub struct Master<K: Naming, R: Wait + Drop> {
    key: u64,
    desk: Mutex<Desk<K, R>>,
}

// Returns `count` new passes of one master.
fn passes_of(alloc: Global, key: u64, count: usize) -> Result<Vec<Pass>, AllocError>
    ensures count { IfOk result (λ passes. length passes.items ≡ count) }
    ensures new { IfOk result (λ passes. All (IsNewPass key) passes.items) }
{
    let mut passes = Vec::with_capacity(alloc, count)?;
    for place in 0..count {
        let _ = place;
        passes.push(Pass::new(alloc, key))?;
    }
    Ok(passes)
}

// Returns whether all passes have this key.
pub(crate) fn are_of(key: u64, passes: &[Pass]) -> bool
    ensures { IsTrue result ↔ AreOf key passes.now }
{
    passes.iter().all(|pass| pass.key() == key)
}

// Checks that all passes have this key, and that the journal of the book is a shuffle of their receipts.
fn compare<K: Naming>(
    key: u64,
    book: &Book<K, MasterSorter>,
    passes: &[Pass],
) -> Result<(), CloseFault>
    ensures own { OnOk result (AreOf key passes.now) }
    ensures shuffle { OnOk result (IsShuffle book.now.entries (receipts_of passes.now)) }
    ensures fault { IfErr result (IsCloseFault book.now.entries key passes.now) }
    ensures exact { AreOf key passes.now → IsShuffle book.now.entries (receipts_of passes.now) → IfErr result (λ fault. fault ≡ Memory) }
{
    if !are_of(key, passes) {
        return Err(CloseFault::Stranger);
    }
    book.matches(passes)
}

impl<K: Naming, R: Wait + Drop> Master<K, R> {
    /// Opens a master of an empty cluster. Returns the master, its passes (without receipts), and the viewers of the slate `K::slate`, which have
    /// seen nothing. The master keeps `rt` to wait for viewers when it is dropped. It fails only if memory runs out.
    pub fn open(
        rt: R,
        alloc: Global,
        key: u64,
        limits: Limits,
        passes: u64,
        slate: Slate,
    ) -> Result<(Master<K, R>, Vec<Pass>, Vec<Viewer<K>>), AllocError>
        requires passes { (1 ≤ passes) × (passes ≤ 64) }
        requires named { slate.name ≡ K.slate }
        requires limits { limits ≡ slate.name.limits }
        requires start { K.start ≡ opening }
        ensures key { IfOk result (λ r. r.0.key ≡ key) }
        ensures passes { IfOk result (λ r. (length r.1.items ≡ passes) × All (IsNewPass key) r.1.items) }
        ensures viewers { IfOk result (λ r. (length r.2.items ≡ slate.viewers) × All (λ viewer. viewer ≡ []) r.2.items) }
    {
        let core = Core::open(alloc, limits)?;
        Master::open_from(rt, alloc, key, core, passes, slate)
    }

    /// Opens a master as `open` does, but from a core whose rows are `K::start`.
    pub fn open_from(
        rt: R,
        alloc: Global,
        key: u64,
        core: Core<MasterSorter>,
        passes: u64,
        slate: Slate,
    ) -> Result<(Master<K, R>, Vec<Pass>, Vec<Viewer<K>>), AllocError>
        requires passes { (1 ≤ passes) × (passes ≤ 64) }
        requires named { slate.name ≡ K.slate }
        requires start { Begins K.slate.limits K.start core }
        ensures key { IfOk result (λ r. r.0.key ≡ key) }
        ensures passes { IfOk result (λ r. (length r.1.items ≡ passes) × All (IsNewPass key) r.1.items) }
        ensures viewers { IfOk result (λ r. (length r.2.items ≡ slate.viewers) × All (λ viewer. viewer ≡ []) r.2.items) }
    {
        let passes = passes_of(alloc, key, passes as usize)?;
        let book = Book::open_from(alloc, core);
        let first_sheet = book.sheet()?;
        let (board, viewers) = Board::open(rt, alloc, slate, first_sheet)?;
        let master = Master::of_new(key, Desk::new(book, board));
        Ok((master, passes, viewers))
    }

    // Creates a master from an empty desk. A function of its own, because no contract speaks of a desk behind its lock.
    fn of_new(key: u64, desk: Desk<K, R>) -> Master<K, R>
        requires { desk ≡ [] }
        ensures { result.key ≡ key }
    {
        Master {
            key,
            desk: Mutex::new(desk),
        }
    }

    /// Returns the key of the master.
    pub(crate) fn key(&self) -> u64
        ensures { result ≡ self.now.key }
    {
        self.key
    }

    /// Makes one step for an event while holding the lock, and adds a receipt to the pass. A refused event is a call too. Errors: `Stranger` if the
    /// pass has another key, `Memory` if memory ran out.
    pub fn call<W: Wait>(
        &self,
        rt: &W,
        pass: &mut Pass,
        event: Event,
    ) -> Result<Answer<K>, CallFault>
        ensures own { OnOk result (pass.old.key ≡ self.now.key) }
        ensures kept { IfOk result (λ answer. Keeps pass.old pass.new answer.place (entry event answer.reply)) }
        ensures told { IfOk result (λ answer. IsReported K.slate.limits K.start answer.told answer.place (entry event answer.reply)) }
        ensures err { OnErr result (IsSamePass pass.old pass.new) }
        ensures fault { IfErr result (IsCallFault self.now.key pass.old) }
    {
        let (answer, desk) = self.call_held(rt, None, pass, event)?;
        drop(desk);
        Ok(answer)
    }

    /// Does what `call` does, after an earlier call by this or another pass: the list that the earlier call returned is a prefix of the list that
    /// this call returns.
    pub fn call_after<W: Wait>(
        &self,
        rt: &W,
        pass: &mut Pass,
        event: Event,
        earlier: &Told<K>,
    ) -> Result<Answer<K>, CallFault>
        ensures own { OnOk result (pass.old.key ≡ self.now.key) }
        ensures kept { IfOk result (λ answer. Keeps pass.old pass.new answer.place (entry event answer.reply)) }
        ensures told { IfOk result (λ answer. IsReported K.slate.limits K.start answer.told answer.place (entry event answer.reply)) }
        ensures later { IfOk result (λ answer. IsPrefix earlier.now answer.told) }
        ensures err { OnErr result (IsSamePass pass.old pass.new) }
        ensures fault { IfErr result (IsCallFault self.now.key pass.old) }
    {
        match self.make_ready(pass) {
            Ok(()) => self.call_later(rt, pass, event, earlier),
            Err(fault) => {
                drop(event);
                Err(fault)
            }
        }
    }

    // Makes a call after an earlier list. The pass has room for the receipt.
    fn call_later<W: Wait>(
        &self,
        rt: &W,
        pass: &mut Pass,
        event: Event,
        earlier: &Told<K>,
    ) -> Result<Answer<K>, CallFault>
        requires own { pass.old.key ≡ self.now.key }
        requires room { 0 < pass.old.room }
        ensures kept { IfOk result (λ answer. Keeps pass.old pass.new answer.place (entry event answer.reply)) }
        ensures told { IfOk result (λ answer. IsReported K.slate.limits K.start answer.told answer.place (entry event answer.reply)) }
        ensures later { IfOk result (λ answer. IsPrefix earlier.now answer.told) }
        ensures err { OnErr result (IsSamePass pass.old pass.new) }
        ensures fault { IfErr result (IsCallFault self.now.key pass.old) }
    {
        let mut desk = self.desk.lock(rt);
        desk.recall_told(earlier);
        let answer = desk.answer_to(pass, event)?;
        Ok(answer)
    }

    /// Does what `call` does, for a caller that may already hold the lock from its last call. Returns the held lock. The contracts do not say that
    /// the lock is this master's.
    pub(crate) fn call_held<'a, W: Wait>(
        &'a self,
        rt: &W,
        held: Option<Locked<'a, K, R>>,
        pass: &mut Pass,
        event: Event,
    ) -> Result<(Answer<K>, Locked<'a, K, R>), CallFault>
        ensures own { OnOk result (pass.old.key ≡ self.now.key) }
        ensures kept { IfOk result (λ r. Keeps pass.old pass.new r.0.place (entry event r.0.reply)) }
        ensures told { IfOk result (λ r. IsReported K.slate.limits K.start r.0.told r.0.place (entry event r.0.reply)) }
        ensures err { OnErr result (IsSamePass pass.old pass.new) }
        ensures fault { IfErr result (IsCallFault self.now.key pass.old) }
    {
        match self.make_ready(pass) {
            Ok(()) => self.call_ready(rt, held, pass, event),
            Err(fault) => {
                drop(held);
                drop(event);
                Err(fault)
            }
        }
    }

    // Makes room for one more receipt in a pass. Fails if the pass has another key or memory runs out.
    fn make_ready(&self, pass: &mut Pass) -> Result<(), CallFault>
        ensures same { IsSamePass pass.old pass.new }
        ensures own { OnOk result (pass.old.key ≡ self.now.key) }
        ensures room { OnOk result (0 < pass.new.room) }
        ensures fault { IfErr result (IsCallFault self.now.key pass.old) }
    {
        if pass.key() != self.key {
            return Err(CallFault::Stranger);
        }
        pass.reserve(1)?;
        Ok(())
    }

    // Makes a call. The pass has room for the receipt.
    fn call_ready<'a, W: Wait>(
        &'a self,
        rt: &W,
        held: Option<Locked<'a, K, R>>,
        pass: &mut Pass,
        event: Event,
    ) -> Result<(Answer<K>, Locked<'a, K, R>), CallFault>
        requires own { pass.old.key ≡ self.now.key }
        requires room { 0 < pass.old.room }
        ensures kept { IfOk result (λ r. Keeps pass.old pass.new r.0.place (entry event r.0.reply)) }
        ensures told { IfOk result (λ r. IsReported K.slate.limits K.start r.0.told r.0.place (entry event r.0.reply)) }
        ensures err { OnErr result (IsSamePass pass.old pass.new) }
        ensures fault { IfErr result (IsCallFault self.now.key pass.old) }
    {
        let mut desk = match held {
            Some(desk) => desk,
            None => self.desk.lock(rt),
        };
        let answer = desk.answer_to(pass, event)?;
        Ok((answer, desk))
    }

    /// Closes the master and returns its book. Succeeds only if the passes have the master's key and the journal is a shuffle of their receipts: each
    /// call once, in its caller's order, with the reply that the caller received. Otherwise returns the first error that applies, the book and the
    /// passes; if no receipt is missing, the error can be `Memory`. The returned journal and any list that this master returned earlier agree: one is
    /// a prefix of the other (`Told::begins`).
    pub fn close(self, passes: Vec<Pass>) -> Result<Book<K, MasterSorter>, CloseRefused<K>>
        ensures closed { IfOk result (λ book. IsClosed K.slate.limits K.start book self.key passes.items) }
        ensures kept { IfErr result (λ refused. refused.passes.items ≡ passes.items) }
        ensures limits { IfErr result (λ refused. refused.book.limits ≡ K.slate.limits) }
        ensures legal { IfErr result (λ refused. IsLegal K.slate.limits K.start refused.book.entries) }
        ensures told { IfErr result (λ refused. refused.told ≡ refused.book.entries) }
        ensures fault { IfErr result (λ refused. IsCloseFault refused.book.entries self.key passes.items refused.fault) }
        ensures exact { IfErr result (λ refused. AreOf self.key passes.items → IsShuffle refused.book.entries (receipts_of passes.items) → refused.fault ≡ Memory) }
    {
        let Master { key, desk } = self;
        let (book, told) = desk.into_inner().into_told();
        // Only this call tells the proof that the journal is legal.
        let _ = book.entries();
        match compare(key, &book, &passes) {
            Ok(()) => Ok(book),
            Err(fault) => Err(CloseRefused {
                fault,
                book,
                told,
                passes,
            }),
        }
    }
}
