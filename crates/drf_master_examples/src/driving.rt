//! Examples of drives: scripts that run concurrently, each on its own thread with its own pass.
ghost use Rattle.std.specs.Prelude.{◌≡◌, ◌≤◌, length};
ghost use Rattle.drf_rows.specs.LimitNumbers.{ceilings};
ghost use Rattle.drf_rows.specs.Step.{opening};

use crate::closing::keep_passes;
use crate::lines::{AGENT, CYCLE, FRAMEWORK, OTHER_AGENT};
use crate::server::append_reply;
use anyhow::{Context, Result, bail};
use drf_board::{Brand, Entry, Naming, Slate};
use drf_lines::read_event;
use drf_master::{DriveFault, Driven, Gate, Master, Pass, drive};
use drf_rows::{Event, Limits, Reply};
use std::alloc::Global;
use std::fmt::Write;
use std::mem::swap;
use std::sync::Wait;
use std::sync::atomic::{AtomicU64, Ordering};
use std::thread;
use std::thread::Threads;

/// How often a worker checks whether the others have arrived. On a busy machine the last of many threads starts late.
const TURNS: u64 = 1_000_000;

/// Yields to other threads for long enough that some of them make progress.
fn give_way() {
    for _ in 0..100 {
        thread::yield_now();
    }
}

/// A gate that holds the first call of each worker until `all` workers have reached theirs, so that only concurrent threads pass it. After `turns`
/// checks it stops the worker.
#[derive(Drop)]
struct Meeting {
    all: u64,
    turns: u64,
    came: AtomicU64,
}

impl Gate for Meeting {
    ghost lets = { λ gate worker call. Unit {0} };

    ghost stops = { λ gate worker call. Unit {0} };

    ghost sees = { λ gate worker call. Unit {0} };

    fn before(&self, _worker: u64, call: u64) -> bool {
        if call > 0 {
            return true;
        }
        self.came.fetch_add(1, Ordering::SeqCst);
        for _ in 0..self.turns {
            if self.came.load(Ordering::SeqCst) >= self.all {
                return true;
            }
            give_way();
        }
        false
    }

    fn after(&self, _worker: u64, _call: u64) {}
}

/// The journal and the replies of a drive.
#[derive(Drop)]
struct Outcome {
    entries: Vec<Entry>,
    replies: Vec<Vec<Reply>>,
}

/// What is printed about a drive: the replies, or the places in the journal at which the workers' frameworks were added.
#[derive(Clone, Copy)]
enum Printing {
    Replies,
    Places,
}

// Returns whether an entry adds this framework.
fn is_of(entry: &Entry, framework: &str) -> bool {
    match &entry.event {
        Event::AddFramework {
            framework: name,
            ..
        } => name.text() == framework,
        _ => false,
    }
}

// Returns the place of the entry that adds a worker's framework.
fn place_of(alloc: Global, entries: &[Entry], worker: usize) -> Result<usize> {
    let name = format!(in alloc; "f{worker}")?;
    entries
        .iter()
        .position(|entry| is_of(entry, name.as_str()))
        .context("not in the journal")
}

// Appends the places of the workers' frameworks, in order.
fn append_places(alloc: Global, told: &mut String, entries: &[Entry], count: usize) -> Result<()> {
    let mut places = Vec::new(alloc);
    for worker in 0..count {
        places.push(place_of(alloc, entries, worker)?)?;
    }
    places.sort_unstable();
    let all = entries.len();
    Ok(write!(told, " {all} entries, at {places:?}")?)
}

// Appends the lines of replies.
fn append_replies(alloc: Global, told: &mut String, replies: &[Reply]) -> Result<()> {
    for reply in replies {
        append_reply(alloc, told, reply)?;
    }
    Ok(())
}

// Appends the lines of the replies to all scripts.
fn append_all_replies(alloc: Global, told: &mut String, replies: &[Vec<Reply>]) -> Result<()> {
    for one in replies {
        append_replies(alloc, told, one)?;
    }
    Ok(())
}

// Appends what `telling` says about a drive, or its error.
fn append_driven(
    alloc: Global,
    told: &mut String,
    telling: Printing,
    driven: &Result<Outcome, DriveFault>,
) -> Result<()> {
    match driven {
        Ok(Outcome { entries, replies }) => match telling {
            Printing::Replies => append_all_replies(alloc, told, replies),
            Printing::Places => append_places(alloc, told, entries, replies.len()),
        },
        Err(fault) => Ok(write!(told, " {fault:?}")?),
    }
}

// Exchanges the passes for others, if there are as many.
fn exchange(passes: &mut Vec<Pass>, others: &mut Vec<Pass>)
    ensures { length passes.new.items ≡ length passes.old.items }
{
    if others.len() == passes.len() {
        swap(passes, others);
    }
}

// Returns the journal and the replies. The core is dropped.
fn outcome_of<K: Naming>(driven: Driven<K>) -> Outcome {
    let Driven { book, replies } = driven;
    Outcome {
        entries: book.into_entries(),
        replies,
    }
}

// Runs scripts on a master, and closes it.
fn drive_and_close<K: Naming + Send + Sync, W: Threads + Wait + Sync>(
    rt: &W,
    alloc: Global,
    meeting: &Meeting,
    master: Master<K, &W>,
    passes: Vec<Pass>,
    scripts: Vec<Vec<Event>>,
) -> Result<Outcome, DriveFault>
    requires { length scripts.items ≡ length passes.items }
{
    match drive(rt, alloc, master, passes, meeting, scripts) {
        Ok(driven) => Ok(outcome_of(driven)),
        Err(undriven) => Err(undriven.into_fault()),
    }
}

// Runs scripts on a master, closes it, and appends the result.
fn drive_and_append<K: Naming + Send + Sync, W: Threads + Wait + Sync>(
    rt: &W,
    alloc: Global,
    told: &mut String,
    meeting: &Meeting,
    telling: Printing,
    master: Master<K, &W>,
    passes: Vec<Pass>,
    scripts: Vec<Vec<Event>>,
) -> Result<()>
    requires { length scripts.items ≡ length passes.items }
{
    let driven = drive_and_close(rt, alloc, meeting, master, passes, scripts);
    append_driven(alloc, told, telling, &driven)
}

// Opens a master, runs scripts on it, closes it, and appends the result.
fn drive_named<K: Naming + Send + Sync, W: Threads + Wait + Sync>(
    rt: &W,
    alloc: Global,
    told: &mut String,
    meeting: &Meeting,
    telling: Printing,
    others: &mut Vec<Pass>,
    scripts: Vec<Vec<Event>>,
    slate: Slate,
) -> Result<()>
    requires named { slate.name ≡ K.slate }
    requires limits { slate.name.limits ≡ ceilings }
    requires start { K.start ≡ opening }
    requires count { (1 ≤ length scripts.items) × (length scripts.items ≤ 64) }
{
    let count = scripts.len() as u64;
    let (master, mut passes, _viewers) = Master::<K, &W>::open(
        rt,
        alloc,
        1,
        Limits::full(),
        count,
        slate,
    )?;
    exchange(&mut passes, others);
    drive_and_append(rt, alloc, told, meeting, telling, master, passes, scripts)
}

// Runs scripts on a master with key 1, with other passes if there are as many. The first calls wait for each other.
fn drive_scripts<W: Threads + Wait + Sync>(
    rt: &W,
    alloc: Global,
    told: &mut String,
    meeting: &Meeting,
    telling: Printing,
    others: &mut Vec<Pass>,
    scripts: Vec<Vec<Event>>,
) -> Result<()> {
    if scripts.is_empty() || scripts.len() > 64 {
        bail!("1 to 64 scripts can be driven");
    }
    let slate = Slate::open(0, Limits::full())?;
    drive_named::<Brand, W>(rt, alloc, told, meeting, telling, others, scripts, slate)
}

// Returns a gate at which `all` workers wait for each other.
fn meeting_of(all: u64, turns: u64) -> Meeting {
    Meeting {
        all,
        turns,
        came: AtomicU64::new(0),
    }
}

// Adds a script with the events of these lines.
fn add_script(alloc: Global, scripts: &mut Vec<Vec<Event>>, lines: &[&str]) -> Result<()> {
    let mut script = Vec::with_capacity(alloc, lines.len())?;
    for line in lines {
        script.push(read_event(alloc, line.as_bytes())?)?;
    }
    Ok(scripts.push(script)?)
}

// Adds a script that adds a worker's framework.
fn add_framework(alloc: Global, scripts: &mut Vec<Vec<Event>>, worker: usize) -> Result<()> {
    let line = format!(in alloc;
        r#"{{"event":"add_framework","framework":"f{worker}","roles":["a"]}}"#
    )?;
    add_script(alloc, scripts, &[line.as_str()])
}

// Adds such a script for each worker.
fn add_frameworks(alloc: Global, scripts: &mut Vec<Vec<Event>>, count: usize) -> Result<()> {
    for worker in 0..count {
        add_framework(alloc, scripts, worker)?;
    }
    Ok(())
}

// Runs `count` scripts that wait for each other; each adds a framework. Appends the places of these entries in the journal.
fn append_meeting<W: Threads + Wait + Sync>(
    rt: &W,
    alloc: Global,
    told: &mut String,
    count: usize,
    others: &mut Vec<Pass>,
) -> Result<()> {
    write!(told, "{count} scripts that meet:")?;
    let mut scripts = Vec::new(alloc);
    add_frameworks(alloc, &mut scripts, count)?;
    let meeting = meeting_of(count as u64, TURNS);
    drive_scripts(rt, alloc, told, &meeting, Printing::Places, others, scripts)?;
    Ok(told.push('\n')?)
}

// Runs one script, which waits until `all` workers have arrived, and appends its replies.
fn append_script<W: Threads + Wait + Sync>(
    rt: &W,
    alloc: Global,
    told: &mut String,
    name: &str,
    all: u64,
    lines: &[&str],
    others: &mut Vec<Pass>,
) -> Result<()> {
    told.push_str(name)?;
    let mut scripts = Vec::new(alloc);
    add_script(alloc, &mut scripts, lines)?;
    let meeting = meeting_of(all, 10);
    drive_scripts(
        rt,
        alloc,
        told,
        &meeting,
        Printing::Replies,
        others,
        scripts,
    )?;
    Ok(told.push('\n')?)
}

// Runs one script with a pass of another master with the same key, which made a call there.
fn append_misfit<W: Threads + Wait + Sync>(
    rt: &W,
    alloc: Global,
    told: &mut String,
    others: &mut Vec<Pass>,
) -> Result<()> {
    others.truncate(0);
    keep_passes(rt, alloc, 1, &[OTHER_AGENT], others)?;
    others.truncate(1);
    let misfit = "one script, on a pass of another master of key 1:";
    append_script(rt, alloc, told, misfit, 1, &[AGENT], others)?;
    others.truncate(0);
    Ok(())
}

// Runs one script that waits for another in vain; the same with a pass with another key, which is reported first; one whose pass does not fit; one
// with three events; and scripts that wait for each other.
fn append_each<W: Threads + Wait + Sync>(
    rt: &W,
    alloc: Global,
    told: &mut String,
    others: &mut Vec<Pass>,
) -> Result<()> {
    let (one, all) = ([AGENT], [AGENT, FRAMEWORK, CYCLE]);
    let stopped = "one script that is to meet another:";
    append_script(rt, alloc, told, stopped, 2, &one, others)?;
    keep_passes(rt, alloc, 2, &[], others)?;
    others.truncate(1);
    let stranger = "one script that is to meet another, on a pass of key 2:";
    append_script(rt, alloc, told, stranger, 2, &one, others)?;
    append_misfit(rt, alloc, told, others)?;
    append_script(
        rt,
        alloc,
        told,
        "one script of three events:",
        1,
        &all,
        others,
    )?;
    append_meeting(rt, alloc, told, 2, others)?;
    append_meeting(rt, alloc, told, 64, others)
}

/// Appends the examples of single scripts, and of scripts that wait for each other.
pub fn append_all<W: Threads + Wait + Sync>(
    rt: &W,
    alloc: Global,
    told: &mut String,
) -> Result<()> {
    let mut others = Vec::new(alloc);
    append_each(rt, alloc, told, &mut others)
}
