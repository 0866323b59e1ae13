//! Runs the scripts of files on threads.
ghost use Rattle.std.specs.Prelude.{◌≡◌, ◌<◌, ◌≤◌, ℕ, List, length, map, true, false, IfOk, IfErr};
ghost use Rattle.drf_board.specs.History.{IsLegal};
ghost use Rattle.drf_core.specs.Machine.{live};
ghost use Rattle.drf_journal.specs.Files.{Known};
ghost use Rattle.drf_master.specs.Journal.{Begins};
ghost use Rattle.drf_drive.specs.Driven.{HasDrivenFiles, IsRunFault, IsShuffleOf, IsTellable, IsReportedAs, IsReportedUnfit};
ghost use Rattle.drf_drive.specs.JournalText.{is_write_fault};
ghost use Rattle.drf_drive.specs.Scripts.{HasScripts};

use crate::journal::{write_journal, write_nothing};
use crate::script::{Misfit, ScriptFault, read_scripts};
use drf_board::{Brand, Entry, Naming, Slate};
use drf_core::Core;
use drf_journal::{Device, FileBytes, RunFault};
use drf_master::{
    CloseFault, CloseRefused, DriveFault, Master, MasterSorter, OpenGate, Undriven, drive,
};
use drf_rows::{Event, Limits};
use std::alloc::Global;
use std::convert::AsStr;
use std::io::Write;
use std::mem;
use std::sync::Wait;
use std::thread::Threads;

/// The key of the only master and of its passes.
const KEY: u64 = 0;

// Returns the error, the journal and the passes. The core is dropped.
fn misfit_of<K: Naming>(refused: CloseRefused<K>) -> Misfit
    ensures fault { result.fault ≡ refused.fault }
    ensures journal { result.journal.items ≡ refused.book.entries }
    ensures passes { result.passes ≡ refused.passes }
{
    let CloseRefused {
        fault,
        book,
        told: _told,
        passes,
    } = refused;
    Misfit {
        fault,
        journal: book.into_entries(),
        passes,
    }
}

// Returns the error for passes that do not fit the journal.
fn unfit_error<K: Naming>(refused: CloseRefused<K>) -> ScriptFault
    ensures { IsReportedUnfit refused result }
{
    if refused.fault == CloseFault::Memory {
        drop(refused);
        return ScriptFault::Run(RunFault::Memory);
    }
    ScriptFault::Close(misfit_of(refused))
}

// Returns the error for a drive that returned no book. No worker was stopped, and no pass has another key.
fn undriven_error<K: Naming>(undriven: Undriven<K>) -> ScriptFault
    requires { IsTellable undriven }
    ensures { IsReportedAs undriven result }
{
    match undriven {
        Undriven::Unfit(refused) => unfit_error(refused),
        Undriven::Undone(DriveFault::Memory) => ScriptFault::Run(RunFault::Memory),
        Undriven::Undone(_) => unreachable!(),
    }
}

// Runs scripts on a master that begins with the core's rows and has no viewers. `K` names its slate. Returns the journal.
fn run_named<K: Naming + Send + Sync, W: Threads + Wait + Sync>(
    rt: &W,
    alloc: Global,
    core: Core<MasterSorter>,
    slate: Slate,
    scripts: Vec<Vec<Event>>,
) -> Result<Vec<Entry>, ScriptFault>
    requires named { slate.name ≡ K.slate }
    requires start { Begins K.slate.limits K.start core }
    requires count { (1 ≤ length scripts.items) × (length scripts.items ≤ 64) }
    ensures legal { IfOk result (λ journal. IsLegal K.slate.limits K.start journal.items) }
    ensures shuffle { IfOk result (λ journal. IsShuffleOf scripts.items journal.items) }
    ensures fault { IfErr result (IsRunFault K.slate.limits K.start scripts.items) }
{
    let count = scripts.len() as u64;
    let (master, passes, _viewers) = Master::<K, &W>::open_from(
        rt, alloc, KEY, core, count, slate,
    )?;
    match drive(rt, alloc, master, passes, &OpenGate, scripts) {
        Ok(driven) => Ok(driven.into_entries()),
        Err(undriven) => Err(undriven_error(undriven)),
    }
}

// Runs each script on its own thread, and returns the journal.
fn run_scripts<W: Threads + Wait + Sync>(
    rt: &W,
    alloc: Global,
    limits: Limits,
    core: Core<MasterSorter>,
    scripts: Vec<Vec<Event>>,
) -> Result<Vec<Entry>, ScriptFault>
    requires limits { core.limits ≡ limits }
    requires count { (1 ≤ length scripts.items) × (length scripts.items ≤ 64) }
    ensures legal { IfOk result (λ journal. IsLegal limits (live core).rows journal.items) }
    ensures shuffle { IfOk result (λ journal. IsShuffleOf scripts.items journal.items) }
    ensures fault { IfErr result (IsRunFault limits (live core).rows scripts.items) }
{
    let slate = Slate::open(0, limits)?;
    run_named::<Brand, W>(rt, alloc, core, slate, scripts)
}

// Runs the scripts of files, and writes the journal.
fn drive_scripts<W: Threads + Wait + Sync, O: Write>(
    rt: &W,
    alloc: Global,
    limits: Limits,
    core: Core<MasterSorter>,
    scripts: Vec<Vec<Event>>,
    writer: &mut Device<O>,
) -> Result<(), ScriptFault>
    requires limits { core.limits ≡ limits }
    requires count { (1 ≤ length scripts.items) × (length scripts.items ≤ 64) }
    requires writer { writer.old.failed ≡ false }
    ensures driven { (known : Known) → (names : List (List ℕ)) → HasScripts known names scripts.items → HasDrivenFiles (live core) known names (O.contents writer.old.inner) (O.contents writer.new.inner) result }
    ensures failed { writer.new.failed ≡ is_write_fault result }
    ensures flushed { writer.old.flushed ≡ true → writer.new.failed ≡ false → writer.new.flushed ≡ true }
{
    let journal = run_scripts(rt, alloc, limits, core, scripts)?;
    let written = write_journal(alloc, journal.as_slice(), writer);
    // The memory of the journal is not released: the program ends afterwards, and dropping each entry is slow.
    mem::forget(journal);
    written
}

/// Reads at most 64 files of event lines, runs each on its own thread, on one master that begins with `core`, and writes the journal: for each call
/// the line of the event and the line of the reply. Errors: the first file that cannot be read; otherwise the first line that is not an event, of the
/// first file with such a line; or passes that do not fit the journal, which are returned with the journal. In these cases nothing is written. The
/// memory of the written journal is not released, because the program is expected to end afterwards.
pub fn run_drive<W: Threads + Wait + Sync, F: FileBytes, S: AsStr, O: Write>(
    rt: &W,
    alloc: Global,
    limits: Limits,
    core: Core<MasterSorter>,
    files: &mut F,
    names: &[S],
    writer: &mut Device<O>,
) -> Result<(), ScriptFault>
    requires limits { core.limits ≡ limits }
    requires few { length names.now ≤ 64 }
    requires writer { writer.old.failed ≡ false }
    ensures driven { HasDrivenFiles (live core) (F.known files.old) (map S.text names.now) (O.contents writer.old.inner) (O.contents writer.new.inner) result }
    ensures failed { writer.new.failed ≡ is_write_fault result }
    ensures flushed { writer.old.flushed ≡ true → writer.new.failed ≡ false → writer.new.flushed ≡ true }
{
    if names.is_empty() {
        return write_nothing(alloc, writer);
    }
    let scripts = read_scripts(rt, alloc, files, names)?;
    drive_scripts(rt, alloc, limits, core, scripts, writer)
}
