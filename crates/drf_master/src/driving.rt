//! Drives: scripts of events that run concurrently on one master, each on its own thread with its own pass.
ghost use Rattle.std.specs.Prelude.{◌≡◌, ◌≤◌, [], All, length, map, vec_capacity, IfOk, IfErr, IsNone, OnErr, OnOk};
ghost use Rattle.drf_board.specs.History.{IsLegal};
ghost use Rattle.drf_master.specs.Closing.{AreOf, IsClosed};
ghost use Rattle.drf_master.specs.Receipts.{IsSamePass};
ghost use Rattle.drf_master.specs.Scripts.{AreAsked, AreDone, AreNumbered, DidJob, DidJobs, HasCalled, HasDriven, HaveAllRun, IsAsked, IsCallStop, IsCutShort, IsFirstFault, IsLastOf, IsRefused, IsRunFault, IsThrough, IsUndriven, fault_of};

use crate::book::Book;
use crate::desk::MasterSorter;
use crate::gate::Gate;
use crate::master::{CallFault, CloseRefused, Locked, Master, are_of};
use crate::matching::CloseFault;
use crate::pass::Pass;
use drf_board::{Entry, Naming};
use drf_rows::{Event, Reply};
use std::alloc::{AllocError, Global};
use std::sync::Wait;
use std::thread;
use std::thread::Threads;

/// Why a drive did not return a book. A pass with another key is reported before all other errors, and of the errors of several workers the one of
/// the first worker is reported. `Memory` can be returned instead of any error except `Close(Stranger)`; the contracts do not say where memory ran
/// out.
#[derive(Clone, Copy, Debug, PartialEq, Eq)]
pub enum DriveFault {
    /// The gate stopped a worker.
    Stopped,
    /// Memory ran out for threads, calls or replies.
    Memory,
    /// The passes do not fit the journal, or, with `CloseFault::Memory`, memory ran out while this was checked.
    Close(CloseFault),
}

impl From<AllocError> for DriveFault {
    ghost use Rattle.std.specs.Prelude.{◌≡◌};
    ghost use Rattle.drf_master.specs.declared.driving.DriveFault.TheVariants.{Memory};

    ghost from_gives = { λ _ gives. gives ≡ Memory };

    fn from(_error: AllocError) -> DriveFault {
        DriveFault::Memory
    }
}

impl From<CallFault> for DriveFault {
    ghost use Rattle.std.specs.Prelude.{◌≡◌};
    ghost use Rattle.drf_master.specs.Scripts.{drive_fault};

    ghost from_gives = { λ fault gives. gives ≡ drive_fault fault };

    /// Returns the error of a drive for the error of a call.
    fn from(fault: CallFault) -> DriveFault {
        match fault {
            CallFault::Stranger => DriveFault::Close(CloseFault::Stranger),
            CallFault::Memory => DriveFault::Memory,
        }
    }
}

/// The rest when a drive does not return a book.
#[derive(Drop)]
pub enum Undriven<K: Naming> {
    /// Not all calls were made (of `Memory` the contracts do not say this). The master and the passes are gone.
    Undone(DriveFault),
    /// All calls were made, but the passes do not fit the journal, or, with `CloseFault::Memory`, memory ran out while this was checked.
    Unfit(CloseRefused<K>),
}

impl<K: Naming> Undriven<K> {
    /// Returns why there is no book. Everything else is dropped.
    pub fn into_fault(self) -> DriveFault
        ensures { result ≡ fault_of self }
    {
        match self {
            Undriven::Undone(fault) => fault,
            Undriven::Unfit(refused) => DriveFault::Close(refused.into_fault()),
        }
    }
}

/// The book of a master whose drive was completed and closed, and the replies to each script.
#[derive(Drop)]
pub struct Driven<K: Naming> {
    pub book: Book<K, MasterSorter>,
    pub replies: Vec<Vec<Reply>>,
}

impl<K: Naming> Driven<K> {
    /// Drops the core and the replies, and returns the journal.
    pub fn into_entries(self) -> Vec<Entry>
        ensures { result.items ≡ self.book.entries }
    {
        let Driven {
            book,
            replies: _replies,
        } = self;
        book.into_entries()
    }
}

/// The work of one thread.
#[derive(Drop)]
pub struct Job {
    pub worker: u64,
    pub pass: Pass,
    pub script: Vec<Event>,
}

/// The result of one thread.
#[derive(Drop)]
pub struct Done {
    pub pass: Pass,
    pub replies: Vec<Reply>,
}

// Keeps the lock for the next call, or releases it after each `together` calls.
fn keep<'a, K: Naming, R: Wait + Drop>(
    desk: Locked<'a, K, R>,
    together: u64,
    call: u64,
) -> Option<Locked<'a, K, R>>
    ensures { IsLastOf together call → IsNone result }
{
    if call.wrapping_add(1) % together.max(1) == 0 {
        drop(desk);
        return None;
    }
    Some(desk)
}

// Makes one call, and asks the gate before and after it. Returns the lock if the next call uses it too.
fn run_call<'a, K: Naming, R: Wait + Drop, W: Wait, G: Gate>(
    rt: &W,
    master: &'a Master<K, R>,
    gate: &G,
    worker: u64,
    call: u64,
    held: Option<Locked<'a, K, R>>,
    pass: &mut Pass,
    event: Event,
) -> Result<(Reply, Option<Locked<'a, K, R>>), DriveFault>
    ensures called { IfOk result (λ r. HasCalled pass.old pass.new event r.0) }
    ensures asked { OnOk result (IsAsked (G.lets gate.now) (G.sees gate.now) worker call) }
    ensures fault { IfErr result (IsCallStop (G.stops gate.now worker call) master.now.key pass.old) }
    ensures err { OnErr result (IsSamePass pass.old pass.new) }
{
    if !gate.before(worker, call) {
        drop(event);
        return Err(DriveFault::Stopped);
    }
    let (answer, desk) = master.call_held(rt, held, pass, event)?;
    let held = keep(desk, gate.together(), call);
    gate.after(worker, call);
    Ok((answer.reply, held))
}

// Makes the calls of a script in order. If a call fails, the later ones are not made. The pass has a receipt for each call that was made, and for no
// other.
fn run_script<K: Naming, R: Wait + Drop, W: Wait, G: Gate>(
    rt: &W,
    alloc: Global,
    master: &Master<K, R>,
    gate: &G,
    worker: u64,
    pass: &mut Pass,
    script: Vec<Event>,
) -> Result<Vec<Reply>, DriveFault>
    requires own { pass.old.key ≡ master.now.key }
    ensures through { IfOk result (λ replies. IsThrough (IsAsked (G.lets gate.now) (G.sees gate.now) worker) pass.old script.items replies.items pass.new) }
    ensures cut { IfErr result (IsCutShort (IsAsked (G.lets gate.now) (G.sees gate.now) worker) (G.stops gate.now worker) pass.old script.items pass.new) }
{
    pass.reserve(script.len())?;
    let mut replies = Vec::with_capacity(alloc, script.len())?;
    let mut held = None;
    for event in script {
        let call = replies.len() as u64;
        let (reply, next) = run_call(rt, master, gate, worker, call, held, pass, event)?;
        held = next;
        replies.push_reserved(reply);
    }
    Ok(replies)
}

// Does the work of one thread.
fn run_job<K: Naming, R: Wait + Drop, W: Wait, G: Gate>(
    rt: &W,
    alloc: Global,
    master: &Master<K, R>,
    gate: &G,
    job: Job,
) -> Result<Done, DriveFault>
    requires own { job.pass.key ≡ master.now.key }
    ensures { DidJob (IsAsked (G.lets gate.now) (G.sees gate.now)) (G.stops gate.now) job result }
{
    let Job {
        worker,
        mut pass,
        script,
    } = job;
    let replies = run_script(rt, alloc, master, gate, worker, &mut pass, script)?;
    Ok(Done { pass, replies })
}

// Runs each job on its own thread: `map_vec` halves the jobs until each has a thread. All threads are joined.
fn run_all<
    K: Naming + Send + Sync,
    R: Wait + Drop + Send + Sync,
    W: Threads + Wait + Sync,
    G: Gate + Sync,
>(
    rt: &W,
    alloc: Global,
    master: &Master<K, R>,
    gate: &G,
    jobs: Vec<Job>,
) -> Result<Vec<Result<Done, DriveFault>>, AllocError>
    requires own { All (λ job. job.pass.key ≡ master.now.key) jobs.items }
    ensures count { IfOk result (λ results. length results.items ≡ length jobs.items) }
    ensures did { IfOk result (λ results. DidJobs (IsAsked (G.lets gate.now) (G.sees gate.now)) (G.stops gate.now) jobs.items results.items) }
{
    let results = thread::map_vec(
        rt,
        jobs,
        &|job: Job| -> Result<Done, DriveFault>
            requires { job.pass.key ≡ master.now.key }
            ensures { DidJob (IsAsked (G.lets gate.entry.now) (G.sees gate.entry.now)) (G.stops gate.entry.now) job result }
        { run_job(rt, alloc, master, gate, job) },
    )?;
    Ok(results)
}

// Returns a job for each pass with its script.
fn jobs_of(
    alloc: Global,
    passes: Vec<Pass>,
    scripts: Vec<Vec<Event>>,
) -> Result<Vec<Job>, AllocError>
    requires { length scripts.items ≡ length passes.items }
    ensures passes { IfOk result (λ jobs. map (λ job. job.pass) jobs.items ≡ passes.items) }
    ensures scripts { IfOk result (λ jobs. map (λ job. job.script) jobs.items ≡ scripts.items) }
    ensures numbers { IfOk result (λ jobs. AreNumbered 0 jobs.items) }
{
    let mut jobs = Vec::with_capacity(alloc, passes.len())?;
    for (pass, script) in passes.into_iter().zip(scripts) {
        let worker = jobs.len() as u64;
        jobs.push(Job {
            worker,
            pass,
            script,
        })?;
    }
    Ok(jobs)
}

// Returns the passes and replies of jobs that all succeeded, or the error of the first job that failed. Allocates nothing, so that running out of
// memory cannot hide this error.
fn all_done(
    mut passes: Vec<Pass>,
    mut replies: Vec<Vec<Reply>>,
    results: Vec<Result<Done, DriveFault>>,
) -> Result<(Vec<Pass>, Vec<Vec<Reply>>), DriveFault>
    requires passes { passes.items ≡ [] }
    requires replies { replies.items ≡ [] }
    requires room { (length results.items ≤ vec_capacity passes) × (length results.items ≤ vec_capacity replies) }
    ensures done { IfOk result (λ r. AreDone results.items r.0.items r.1.items) }
    ensures fault { IfErr result (IsFirstFault results.items) }
{
    for result in results {
        let done = result?;
        passes.push_reserved(done.pass);
        replies.push_reserved(done.replies);
    }
    Ok((passes, replies))
}

// Runs each script on its own thread with its own pass. A pass with another key is reported before any thread starts.
fn run_scripts<
    K: Naming + Send + Sync,
    R: Wait + Drop + Send + Sync,
    W: Threads + Wait + Sync,
    G: Gate + Sync,
>(
    rt: &W,
    alloc: Global,
    master: &Master<K, R>,
    passes: Vec<Pass>,
    gate: &G,
    scripts: Vec<Vec<Event>>,
) -> Result<(Vec<Pass>, Vec<Vec<Reply>>), DriveFault>
    requires { length scripts.items ≡ length passes.items }
    ensures run { IfOk result (λ r. HaveAllRun (IsAsked (G.lets gate.now) (G.sees gate.now)) master.now.key passes.items scripts.items r.0.items r.1.items) }
    ensures fault { IfErr result (IsRunFault (IsAsked (G.lets gate.now) (G.sees gate.now)) (G.stops gate.now) master.now.key passes.items scripts.items) }
{
    if !are_of(master.key(), &passes) {
        return Err(DriveFault::Close(CloseFault::Stranger));
    }
    let jobs = jobs_of(alloc, passes, scripts)?;
    let done = Vec::with_capacity(alloc, jobs.len())?;
    let replies = Vec::with_capacity(alloc, jobs.len())?;
    let results = run_all(rt, alloc, master, gate, jobs)?;
    all_done(done, replies, results)
}

// Closes a master after its scripts have run, and adds their replies to the result.
fn close_driven<K: Naming, R: Wait + Drop>(
    master: Master<K, R>,
    passes: Vec<Pass>,
    replies: Vec<Vec<Reply>>,
) -> Result<Driven<K>, Undriven<K>>
    ensures closed { IfOk result (λ driven. IsClosed K.slate.limits K.start driven.book master.key passes.items) }
    ensures replies { IfOk result (λ driven. driven.replies ≡ replies) }
    ensures refused { IfErr result (IsRefused K.slate.limits K.start master.key passes.items) }
{
    match master.close(passes) {
        Ok(book) => Ok(Driven { book, replies }),
        Err(refused) => {
            drop(replies);
            Err(Undriven::Unfit(refused))
        }
    }
}

/// Runs each script on its own thread with its own pass, asks the gate before and after each call, joins all threads and closes the master. A pass
/// with another key is reported before all other errors, and before any thread starts (the contracts do not say the latter). If all calls were made
/// but the passes do not fit the journal, the journal and the passes are returned, as by `Master::close`.
pub fn drive<
    K: Naming + Send + Sync,
    R: Wait + Drop + Send + Sync,
    W: Threads + Wait + Sync,
    G: Gate + Sync,
>(
    rt: &W,
    alloc: Global,
    master: Master<K, R>,
    passes: Vec<Pass>,
    gate: &G,
    scripts: Vec<Vec<Event>>,
) -> Result<Driven<K>, Undriven<K>>
    requires { length scripts.items ≡ length passes.items }
    ensures limits { IfOk result (λ driven. driven.book.limits ≡ K.slate.limits) }
    ensures legal { IfOk result (λ driven. IsLegal K.slate.limits K.start driven.book.entries) }
    ensures own { OnOk result (AreOf master.key passes.items) }
    ensures driven { IfOk result (λ driven. HasDriven passes.items scripts.items driven.replies.items driven.book.entries) }
    ensures asked { OnOk result (AreAsked (IsAsked (G.lets gate.now) (G.sees gate.now)) 0 scripts.items) }
    ensures undriven { IfErr result (IsUndriven K.slate.limits K.start (IsAsked (G.lets gate.now) (G.sees gate.now)) (G.stops gate.now) master.key passes.items scripts.items) }
{
    match run_scripts(rt, alloc, &master, passes, gate, scripts) {
        Ok((passes, replies)) => close_driven(master, passes, replies),
        Err(fault) => {
            drop(master);
            Err(Undriven::Undone(fault))
        }
    }
}
