//! A book: a core together with the journal of its events and replies.
ghost use Rattle.std.specs.Prelude.{◌≡◌, ◌<◌, ◌≤◌, ◌-◌, ◌^◌, [], Some, length, vec_len, vec_capacity, IfOk, IfErr, OnOk, OnErr};
ghost use Rattle.drf_board.specs.History.{IsLegal, entry};
ghost use Rattle.drf_board.specs.Sheets.{IsSheet};
ghost use Rattle.drf_core.specs.Machine.{IsAfter, IsSame};
ghost use Rattle.drf_master.specs.Journal.{Adds, Begins, IsNext, IsRunOf, IsSameJournal};
ghost use Rattle.drf_master.specs.Matching.{IsShuffle, IsFault, receipts_of};
ghost use Rattle.drf_master.specs.declared.matching.CloseFault.TheVariants.{Memory};
ghost use Rattle.drf_rows.specs.Report.{report_of};
ghost use Rattle.drf_rows.specs.Step.{opening, reply_to};

use crate::follower::Second;
use crate::matching::{CloseFault, matches};
use crate::pass::Pass;
use drf_board::{Entry, Naming, Sheet};
use drf_core::{Core, Stepped};
use drf_rows::{Copied, Event, Limits, Reply, Report};
use drf_sorter::Sorter;
use std::alloc::{AllocError, Global};
use std::marker::{Model, PhantomData};
use std::mem::replace;

/// A core with its journal, which lists every event and its reply. The core is always in the state that the journal's events lead to from the rows
/// `K::start`, and each reply is the one that the definition gives. Contracts see the limits, the journal, and the number of entries for which the
/// journal has room. If there is no slate, use `Book<Brand, S>`, which begins with an empty cluster.
pub struct Book<K: Naming, S: Sorter> {
    core: Core<S>,
    // A core that can be some entries later than the first. It computes the next step.
    second: Second<K, S>,
    entries: Vec<Entry>,
}

// Written out, so that a proof about dropping a book sees one call instead of the drop of each field.
impl<K: Naming, S: Sorter> Drop for Book<K, S> {
    fn drop(self) {
        let Book {
            core: _core,
            second: _second,
            entries: _entries,
        } = self;
    }
}

impl<K: Naming, S: Sorter> Model for Book<K, S> {
    ghost use Rattle.std.specs.Prelude.{◌-◌, vec_len, vec_capacity};
    ghost use Rattle.drf_master.specs.Journal.{Journal, journal_code, IsBook};

    ghost Value = { Journal };

    ghost coded = { journal_code };

    ghost view = { λ b. record { limits = b.core.limits; entries = b.entries.items; room = vec_capacity b.entries - vec_len b.entries } };

    ghost invariant = { λ b. IsBook K.start b.entries.items b.core b.second.core b.second.taken };
}

/// The core after one more event, and the entry for that event, which is not yet in the journal.
#[derive(Drop)]
pub struct Next<S: Sorter> {
    pub(crate) core: Core<S>,
    pub(crate) entry: Entry,
}

/// A copy of an entry for the receipt, and a copy of its reply for the caller.
#[derive(Drop)]
pub(crate) struct Copies {
    pub(crate) kept: Entry,
    pub(crate) reply: Reply,
}

impl<S: Sorter> Next<S> {
    /// Returns the event with its reply.
    pub fn entry(&self) -> &Entry
        ensures { result.now ≡ self.now.entry }
    {
        &self.entry
    }

    /// Returns the reply.
    pub fn reply(&self) -> &Reply
        ensures { result.now ≡ self.now.entry.reply }
    {
        &self.entry.reply
    }

    /// Returns the report of shares after the event. It fails only if memory runs out.
    pub fn report(&self) -> Result<Report, AllocError>
        ensures { IfOk result (λ report. report ≡ report_of self.now.core.rows) }
    {
        self.core.report()
    }
}

// Steps the core by an event and makes room in the journal for its entry. Copies of the event and of the reply are made before the core changes. If
// memory runs out, the core is unchanged.
fn take_copied<S: Sorter>(
    core: &mut Core<S>,
    entries: &mut Vec<Entry>,
    event: &Event,
) -> Result<(Event, Stepped), AllocError>
    ensures kept { IfOk result (λ r. r.0 ≡ event.now) }
    ensures reply { IfOk result (λ r. r.1.reply ≡ reply_to core.old.limits core.old.rows event.now) }
    ensures copies { IfOk result (λ r. r.1.copies ≡ Some (r.1.reply, r.1.reply)) }
    ensures ok { OnOk result (IsAfter core.old core.new event.now) }
    ensures err { OnErr result (IsSame core.old core.new) }
    ensures same { entries.new.items ≡ entries.old.items }
    ensures no_less { vec_capacity entries.old - vec_len entries.old ≤ vec_capacity entries.new - vec_len entries.new }
    ensures room { OnOk result (vec_len entries.new < vec_capacity entries.new) }
{
    entries.reserve(1)?;
    let kept = event.copy()?;
    let asked = event.copy()?;
    match core.step_copied(asked, true) {
        Ok(stepped) => Ok((kept, stepped)),
        Err(error) => {
            drop(kept);
            Err(error)
        }
    }
}

// Returns the entry of an event with its reply, and the copies of both.
fn copied_entry(event: Event, kept: Event, stepped: Stepped) -> (Entry, Copies)
    requires kept { kept ≡ event }
    requires copies { stepped.copies ≡ Some (stepped.reply, stepped.reply) }
    ensures entry { result.0 ≡ entry event stepped.reply }
    ensures kept { result.1.kept ≡ entry event stepped.reply }
    ensures reply { result.1.reply ≡ stepped.reply }
{
    let Stepped { reply, copies } = stepped;
    let (first, second) = copies.unwrap();
    let copies = Copies {
        kept: Entry {
            event: kept,
            reply: first,
        },
        reply: second,
    };
    (Entry { event, reply }, copies)
}

impl<K: Naming, S: Sorter> Book<K, S> {
    /// Creates a book with a new, empty core and an empty journal. It fails only if memory runs out.
    pub fn open(alloc: Global, limits: Limits) -> Result<Book<K, S>, AllocError>
        requires start { K.start ≡ opening }
        ensures limits { IfOk result (λ book. book.limits ≡ limits) }
        ensures entries { IfOk result (λ book. book.entries ≡ []) }
    {
        let core = Core::open(alloc, limits)?;
        Ok(Book::open_from(alloc, core))
    }

    /// Creates a book from a core whose rows are `K::start`, with an empty journal. Allocates nothing.
    pub fn open_from(alloc: Global, core: Core<S>) -> Book<K, S>
        requires start { Begins core.limits K.start core }
        ensures limits { result.limits ≡ core.limits }
        ensures entries { result.entries ≡ [] }
    {
        Book {
            core,
            second: Second::empty(),
            entries: Vec::new(alloc),
        }
    }

    /// Returns the number of entries in the journal.
    pub fn len(&self) -> u64
        ensures count { result ≡ length self.now.entries }
        ensures few { result < 2 ^ 63 }
    {
        self.entries.len() as u64
    }

    /// Returns the journal, which is legal.
    pub fn entries(&self) -> &[Entry]
        ensures entries { result.now ≡ self.now.entries }
        ensures legal { IsLegal self.now.limits K.start self.now.entries }
    {
        self.entries.as_slice()
    }

    /// Returns the core, which is in the state that the journal's events lead to.
    pub fn core(&self) -> &Core<S>
        ensures { IsRunOf self.now.limits K.start self.now.entries result.now }
    {
        &self.core
    }

    /// Returns the sheet of the journal: the number of its entries and the report of shares. It fails only if memory runs out.
    pub fn sheet(&self) -> Result<Sheet, AllocError>
        ensures { IfOk result (IsSheet self.now.limits K.start self.now.entries) }
    {
        Ok(Sheet {
            events: self.len(),
            report: self.core.report()?,
        })
    }

    /// Drops the core and returns the journal.
    pub fn into_entries(self) -> Vec<Entry>
        ensures { result.items ≡ self.entries }
    {
        let Book {
            core: _core,
            second: _second,
            entries,
        } = self;
        entries
    }

    // Computes, on the second core, the state after an event and the reply. The journal is unchanged, and has room for one more entry.
    fn work_out(&mut self, event: &Event) -> Result<(Core<S>, Reply), AllocError>
        ensures same { IsSameJournal self.old self.new }
        ensures next { IfOk result (λ r. IsNext self.new.limits K.start self.new.entries r.0 (entry event.now r.1)) }
        ensures room { OnOk result (0 < self.new.room) }
    {
        self.entries.reserve(1)?;
        let worked = self
            .second
            .work_out(&self.core, self.entries.as_slice(), event)?;
        Ok(worked)
    }

    /// Computes the step for an event without making it, and makes room for its entry. The journal is unchanged. It fails only if memory runs out.
    pub fn prepare(&mut self, event: Event) -> Result<Next<S>, AllocError>
        ensures same { IsSameJournal self.old self.new }
        ensures next { IfOk result (λ next. IsNext self.new.limits K.start self.new.entries next.core next.entry) }
        ensures event { IfOk result (λ next. next.entry.event ≡ event) }
        ensures room { OnOk result (0 < self.new.room) }
    {
        match self.work_out(&event) {
            Ok((core, reply)) => Ok(Next {
                core,
                entry: Entry { event, reply },
            }),
            Err(error) => {
                drop(event);
                Err(error)
            }
        }
    }

    /// Makes a prepared step and adds its entry. Returns the place of the entry in the journal, counted from 0. Cannot fail, and allocates nothing.
    /// The old core becomes the second core.
    pub fn settle(&mut self, next: Next<S>) -> u64
        requires next { IsNext self.old.limits K.start self.old.entries next.core next.entry }
        requires room { 0 < self.old.room }
        ensures place { result ≡ length self.old.entries }
        ensures added { Adds self.old self.new next.entry }
    {
        let Next { core, entry } = next;
        let place = self.entries.len();
        self.second.keep(replace(&mut self.core, core), place);
        self.entries.push_reserved(entry);
        place as u64
    }

    /// Makes one step for an event, and returns copies of its entry and of its reply. For books without viewers. The copies are made before the core
    /// changes; if memory runs out, the journal is unchanged. The second core is dropped, because it would fall behind.
    pub(crate) fn record(&mut self, event: Event) -> Result<Copies, AllocError>
        ensures added { IfOk result (λ copies. Adds self.old self.new copies.kept) }
        ensures event { IfOk result (λ copies. copies.kept.event ≡ event) }
        ensures reply { IfOk result (λ copies. copies.reply ≡ copies.kept.reply) }
        ensures err { OnErr result (IsSameJournal self.old self.new) }
    {
        match take_copied(&mut self.core, &mut self.entries, &event) {
            Ok((kept, stepped)) => {
                let (entry, copies) = copied_entry(event, kept, stepped);
                self.second = Second::empty();
                self.entries.push_reserved(entry);
                Ok(copies)
            }
            Err(error) => {
                drop(event);
                Err(error)
            }
        }
    }

    /// Makes one step for an event, and returns the reply and the place of the entry in the journal. If memory runs out, the journal is unchanged.
    /// The second core, which `prepare` makes, is dropped.
    pub fn take(&mut self, event: Event) -> Result<(Reply, u64), AllocError>
        ensures place { IfOk result (λ r. r.1 ≡ length self.old.entries) }
        ensures added { IfOk result (λ r. Adds self.old self.new (entry event r.0)) }
        ensures err { OnErr result (IsSameJournal self.old self.new) }
    {
        let place = self.len();
        let Copies { kept: _kept, reply } = self.record(event)?;
        Ok((reply, place))
    }

    /// Checks that the journal is a shuffle of the receipts of these passes: each entry has exactly one receipt, and the receipts of a pass are in
    /// their order. If so, the only possible error is `Memory`. Otherwise returns the first error that applies, in the order of `CloseFault`, with
    /// the smallest place; but `Memory` can come before `Mismatch`. Never returns `Stranger`. Takes time linear in the journal and the receipts.
    pub fn matches(&self, passes: &[Pass]) -> Result<(), CloseFault>
        ensures ok { OnOk result (IsShuffle self.now.entries (receipts_of passes.now)) }
        ensures err { IfErr result (IsFault self.now.entries (receipts_of passes.now)) }
        ensures exact { IsShuffle self.now.entries (receipts_of passes.now) → IfErr result (λ fault. fault ≡ Memory) }
    {
        matches(*self.entries.allocator(), self.entries.as_slice(), passes)
    }
}
