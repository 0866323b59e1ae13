//! The second core of a book, which computes a step before the first core makes it.
ghost use Rattle.std.specs.Prelude.{◌≡◌, length, None, Some, IfOk, OnOk, OnErr};
ghost use Rattle.drf_board.specs.History.{IsLegal, entry};
ghost use Rattle.drf_master.specs.Journal.{HasTaken, HasTakenIfAny, IsNext, IsRunOf};

use drf_board::{Entry, Naming};
use drf_core::Core;
use drf_rows::{Event, Reply};
use drf_sorter::Sorter;
use std::alloc::AllocError;
use std::marker::PhantomData;

/// A core that has taken the first `taken` entries of a journal, from the rows `K::start`.
#[derive(Drop)]
struct Follower<K: Naming, S: Sorter> {
    core: Core<S>,
    taken: usize,
    of: PhantomData<K>,
}

impl<K: Naming, S: Sorter> Follower<K, S> {
    // Takes the entries that it has not taken yet. If memory runs out, it has taken some of them.
    fn catch_up(&mut self, entries: &[Entry]) -> Result<(), AllocError>
        requires { HasTaken self.old.core.limits K.start entries.now self.old.core self.old.taken }
        ensures taken { HasTaken self.old.core.limits K.start entries.now self.new.core self.new.taken }
        ensures ok { OnOk result (self.new.taken ≡ length entries.now) }
    {
        for place in self.taken..entries.len() {
            let event = entries[place].event.copy()?;
            self.core.step(event)?;
            self.taken = place + 1;
        }
        Ok(())
    }

    // Takes the entries that it has not taken yet and then an event, and returns the reply. If memory runs out, it has taken some of the entries, but
    // not the event.
    fn work_out(&mut self, entries: &[Entry], event: &Event) -> Result<Reply, AllocError>
        requires legal { IsLegal self.old.core.limits K.start entries.now }
        requires taken { HasTaken self.old.core.limits K.start entries.now self.old.core self.old.taken }
        ensures next { IfOk result (λ reply. IsNext self.old.core.limits K.start entries.now self.new.core (entry event.now reply)) }
        ensures err { OnErr result (HasTaken self.old.core.limits K.start entries.now self.new.core self.new.taken) }
    {
        self.catch_up(entries)?;
        let asked = event.copy()?;
        let reply = self.core.step(asked)?;
        Ok(reply)
    }
}

/// The second core of a book. It can be some entries later than the first: before it computes a step, it takes the entries that it lacks. So the rows
/// need not be copied for each event. It is absent while a prepared step owns it.
#[derive(Drop)]
pub struct Second<K: Naming, S: Sorter> {
    pub(crate) core: Option<Core<S>>,
    pub(crate) taken: usize,
    of: PhantomData<K>,
}

impl<K: Naming, S: Sorter> Second<K, S> {
    /// Returns an absent second core.
    pub fn empty() -> Second<K, S>
        ensures { result.core ≡ None }
    {
        Second {
            core: None,
            taken: 0,
            of: PhantomData,
        }
    }

    /// Stores a core that has taken the first `taken` entries.
    pub fn keep(&mut self, core: Core<S>, taken: usize)
        ensures core { self.new.core ≡ Some core }
        ensures taken { self.new.taken ≡ taken }
    {
        self.core = Some(core);
        self.taken = taken;
    }

    // Takes the second core out. If it is absent, returns a copy of the first core.
    fn follower(&mut self, first: &Core<S>, entries: &[Entry]) -> Result<Follower<K, S>, AllocError>
        requires run { IsRunOf first.now.limits K.start entries.now first.now }
        requires taken { HasTakenIfAny first.now.limits K.start entries.now self.old.core self.old.taken }
        ensures taken { IfOk result (λ follower. HasTaken first.now.limits K.start entries.now follower.core follower.taken) }
        ensures empty { self.new.core ≡ None }
    {
        match self.core.take() {
            Some(core) => Ok(Follower {
                core,
                taken: self.taken,
                of: PhantomData,
            }),
            None => Ok(Follower {
                core: first.copy()?,
                taken: entries.len(),
                of: PhantomData,
            }),
        }
    }

    /// Takes the second core out, and returns it after it has taken the entries and then an event, with the reply. If memory runs out, the second
    /// core stays, with the entries that it has taken so far.
    pub fn work_out(
        &mut self,
        first: &Core<S>,
        entries: &[Entry],
        event: &Event,
    ) -> Result<(Core<S>, Reply), AllocError>
        requires legal { IsLegal first.now.limits K.start entries.now }
        requires run { IsRunOf first.now.limits K.start entries.now first.now }
        requires taken { HasTakenIfAny first.now.limits K.start entries.now self.old.core self.old.taken }
        ensures taken { HasTakenIfAny first.now.limits K.start entries.now self.new.core self.new.taken }
        ensures next { IfOk result (λ r. IsNext first.now.limits K.start entries.now r.0 (entry event.now r.1)) }
    {
        let mut follower = self.follower(first, entries)?;
        let end = follower.work_out(entries, event);
        let Follower { core, taken, of: _ } = follower;
        match end {
            Ok(reply) => Ok((core, reply)),
            Err(error) => {
                self.keep(core, taken);
                Err(error)
            }
        }
    }
}
