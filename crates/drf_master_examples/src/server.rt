//! A short server. `serve` opens a master; its threads, two of them concurrently, use `call` and `append_sheets`; and `close` compares the journal
//! with the receipts. A function that owns a master or its book does nothing else, so that the long proof of dropping it is needed for few exits.
ghost use Rattle.std.specs.Prelude.{◌≡◌};
ghost use Rattle.drf_rows.specs.LimitNumbers.{ceilings};
ghost use Rattle.drf_rows.specs.Step.{opening};

use anyhow::{Context, Result, bail};
use drf_board::{Brand, Entry, Naming, Sheet, Slate, Told, Viewer};
use drf_lines::{read_event, write_reply};
use drf_master::{Answer, CloseFault, CloseRefused, Master, Pass};
use drf_rows::{Limits, Reply};
use drf_text::write_quantities;
use std::alloc::Global;
use std::fmt::Write;
use std::str;
use std::sync::Wait;
use std::thread::{Threads, join};

const AGENT: &str = r#"{"event":"add_agent","agent":"n1","total":"cpus:1"}"#;

const OTHER_AGENT: &str = r#"{"event":"add_agent","agent":"n2","total":"cpus:2"}"#;

const FRAMEWORK: &str = r#"{"event":"add_framework","framework":"f1","roles":["eng"]}"#;

/// Makes a call for the event of a line; the first pass gets a receipt. Threads share the master, but each has its own pass.
pub fn call<K: Naming, R: Wait + Drop, W: Wait>(
    rt: &W,
    alloc: Global,
    master: &Master<K, R>,
    passes: &mut [Pass],
    line: &str,
) -> Result<Answer<K>> {
    let event = read_event(alloc, line.as_bytes())?;
    let pass = passes.first_mut().context("no pass")?;
    master.call(rt, pass, event).ok().context("not called")
}

/// Appends the line of a reply, without its line feed.
pub fn append_reply(alloc: Global, told: &mut String, reply: &Reply) -> Result<()> {
    let line = write_reply(alloc, reply)?;
    let text = str::from_utf8(&line).ok().context("no text")?;
    Ok(write!(told, " {}", text.trim_end())?)
}

// Appends the number of events of a sheet, the cluster's total, and the number of nodes.
fn append_sheet(alloc: Global, told: &mut String, sheet: &Sheet) -> Result<()> {
    let total = write_quantities(alloc, &sheet.report.total)?;
    let nodes = sheet.report.nodes.len();
    Ok(write!(told, " {} events ({total}), {nodes} nodes;", sheet.events)?)
}

/// Appends the sheet that each viewer reads. Viewers do not wait.
pub fn append_sheets<K: Naming>(
    alloc: Global,
    told: &mut String,
    viewers: &mut [Viewer<K>],
) -> Result<()> {
    for viewer in viewers.iter_mut() {
        let sheet = viewer.read().ok().context("no sheet")?;
        append_sheet(alloc, told, &sheet)?;
    }
    Ok(())
}

/// The first viewer learns a list that a call returned; each sheet that it reads later includes this list.
pub fn learn<K: Naming>(viewers: &mut [Viewer<K>], told: &Told<K>) {
    if let Some(first) = viewers.first_mut() {
        first.learn(told);
    }
}

// Appends a reply. Then the first viewer learns the list that the call returned, and the sheet of each viewer is appended.
fn append_answer<K: Naming>(
    alloc: Global,
    told: &mut String,
    viewers: &mut [Viewer<K>],
    answer: &Answer<K>,
) -> Result<()> {
    append_reply(alloc, told, &answer.reply)?;
    learn(viewers, &answer.told);
    append_sheets(alloc, told, viewers)
}

// Makes two calls, and reads before the first and after the second.
fn call_and_read<K: Naming, R: Wait + Drop, W: Wait>(
    rt: &W,
    alloc: Global,
    told: &mut String,
    master: &Master<K, R>,
    passes: &mut [Pass],
    viewers: &mut [Viewer<K>],
) -> Result<()> {
    append_sheets(alloc, told, viewers)?;
    call_once(rt, alloc, master, passes, AGENT)?;
    // Adding the agent again is refused. A refusal is a reply like any other.
    let answer = call(rt, alloc, master, passes, AGENT)?;
    append_answer(alloc, told, viewers, &answer)
}

/// Makes a call and drops its result.
pub fn call_once<K: Naming, R: Wait + Drop, W: Wait>(
    rt: &W,
    alloc: Global,
    master: &Master<K, R>,
    passes: &mut [Pass],
    line: &str,
) -> Result<()> {
    call(rt, alloc, master, passes, line)?;
    Ok(())
}

// Two threads make calls, each with its own pass. Either call may be first.
fn call_side_by_side<K: Naming + Send + Sync, W: Threads + Wait + Sync>(
    rt: &W,
    alloc: Global,
    master: &Master<K, &W>,
    passes: &mut [Pass],
) -> Result<()> {
    let half = passes.len() / 2;
    let (prefix, back) = passes.split_at_mut(half);
    let (one, other) = join(
        rt,
        || call_once(rt, alloc, master, prefix, OTHER_AGENT),
        || call_once(rt, alloc, master, back, FRAMEWORK),
    );
    one?;
    other
}

// Makes the calls of the example.
fn use_master<K: Naming + Send + Sync, W: Threads + Wait + Sync>(
    rt: &W,
    alloc: Global,
    told: &mut String,
    master: &Master<K, &W>,
    passes: &mut [Pass],
    viewers: &mut [Viewer<K>],
) -> Result<()> {
    call_and_read(rt, alloc, told, master, passes, viewers)?;
    call_side_by_side(rt, alloc, master, passes)?;
    told.push_str(" two threads call;")?;
    append_sheets(alloc, told, viewers)
}

// Returns the error. The book and the passes are dropped.
fn fault_of<K: Naming>(refused: CloseRefused<K>) -> CloseFault {
    let fault = refused.fault;
    drop(refused);
    fault
}

// Closes a master and returns its journal. If the journal is not a shuffle of the receipts of all passes, returns the error alone; `Master::close`
// also returns the book and the passes.
fn close<K: Naming, R: Wait + Drop>(
    master: Master<K, R>,
    passes: Vec<Pass>,
) -> Result<Vec<Entry>, CloseFault> {
    match master.close(passes) {
        Ok(book) => Ok(book.into_entries()),
        Err(refused) => Err(fault_of(refused)),
    }
}

// Appends the number of entries.
fn append_closed(told: &mut String, closed: &Result<Vec<Entry>, CloseFault>) -> Result<()> {
    match closed {
        Ok(entries) => Ok(writeln!(told, " closed, {} entries", entries.len())?),
        Err(fault) => bail!("not closed: {fault:?}"),
    }
}

// Appends the number of entries, or returns the error of a use.
fn append_used(
    told: &mut String,
    used: Result<()>,
    closed: Result<Vec<Entry>, CloseFault>,
) -> Result<()> {
    used?;
    append_closed(told, &closed)
}

// There is no branch between values that are owned here, because each branch would need a proof of dropping them.
fn use_and_close<K: Naming + Send + Sync, W: Threads + Wait + Sync>(
    rt: &W,
    alloc: Global,
    told: &mut String,
    master: Master<K, &W>,
    mut passes: Vec<Pass>,
    mut viewers: Vec<Viewer<K>>,
) -> Result<()> {
    let used = use_master(rt, alloc, told, &master, &mut passes, &mut viewers);
    let closed = close(master, passes);
    drop(viewers);
    append_used(told, used, closed)
}

// Opens a master with key 1 and two passes. A slate is for one master and its viewers. This function is generic in the slate's name, so that the
// lists of one master cannot be mistaken for those of another.
fn serve_named<K: Naming + Send + Sync, W: Threads + Wait + Sync>(
    rt: &W,
    alloc: Global,
    told: &mut String,
    slate: Slate,
) -> Result<()>
    requires named { slate.name ≡ K.slate }
    requires limits { slate.name.limits ≡ ceilings }
    requires start { K.start ≡ opening }
{
    let (master, passes, viewers) = Master::<K, &W>::open(rt, alloc, 1, Limits::full(), 2, slate)?;
    use_and_close(rt, alloc, told, master, passes, viewers)
}

/// Creates a slate for two viewers, opens its master with the name `Brand`, and appends a line about its use.
pub fn serve<W: Threads + Wait + Sync>(rt: &W, alloc: Global, told: &mut String) -> Result<()> {
    let slate = Slate::open(2, Limits::full())?;
    serve_named::<Brand, W>(rt, alloc, told, slate)
}
