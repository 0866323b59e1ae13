//! How the examples use a master: two threads call it, each with its own pass.
use crate::lines::call_all;
use crate::server::call;
use crate::visiting::append_visit;
use anyhow::{Context, Result};
use drf_board::{Naming, Viewer};
use drf_master::{Answer, Master, Pass};
use drf_text::write_quantities;
use std::alloc::Global;
use std::fmt::Write;
use std::mem::swap;
use std::sync::Wait;
use std::thread::{Threads, join};

/// An example: a master with this key, two passes and a viewer.
#[derive(Clone, Copy)]
pub struct Row {
    pub key: u64,
    /// Whether a pass of another master, with another key, calls this master too.
    pub is_visited: bool,
    /// The number of its own passes that close it.
    pub own: usize,
    /// Whether these are its last passes.
    pub is_turned: bool,
}

// The viewer learns the list that the call returned, and reads. The number of events of its sheet depends on the other thread.
fn append_read<K: Naming>(
    alloc: Global,
    told: &mut String,
    viewers: &mut [Viewer<K>],
    answer: &Answer<K>,
) -> Result<()> {
    let viewer = viewers.first_mut().context("no viewer")?;
    viewer.learn(&answer.told);
    let sheet = viewer.read().ok().context("no sheet")?;
    let total = write_quantities(alloc, &sheet.report.total)?;
    Ok(write!(told, " the viewer reads ({total});")?)
}

// Makes a call, and reads.
fn call_and_read<K: Naming, R: Wait + Drop, W: Wait>(
    rt: &W,
    alloc: Global,
    told: &mut String,
    master: &Master<K, R>,
    passes: &mut [Pass],
    viewers: &mut [Viewer<K>],
    line: &str,
) -> Result<()> {
    let answer = call(rt, alloc, master, passes, line)?;
    append_read(alloc, told, viewers, &answer)
}

// Makes a call for each line, and reads after each.
fn call_and_read_all<K: Naming, R: Wait + Drop, W: Wait>(
    rt: &W,
    alloc: Global,
    told: &mut String,
    master: &Master<K, R>,
    passes: &mut [Pass],
    viewers: &mut [Viewer<K>],
    lines: &[&str],
) -> Result<()> {
    for line in lines {
        call_and_read(rt, alloc, told, master, passes, viewers, line)?;
    }
    Ok(())
}

// Two threads make calls, each with its own pass. The first thread has the viewer.
fn call_side_by_side<K: Naming + Send + Sync, W: Threads + Wait + Sync>(
    rt: &W,
    alloc: Global,
    told: &mut String,
    prefix: &[&str],
    back: &[&str],
    master: &Master<K, &W>,
    passes: &mut [Pass],
    viewers: &mut [Viewer<K>],
) -> Result<()> {
    let half = passes.len() / 2;
    let (first, second) = passes.split_at_mut(half);
    let (read, called) = join(
        rt,
        || call_and_read_all(rt, alloc, told, master, first, viewers, prefix),
        || call_all(rt, alloc, master, second, back),
    );
    called?;
    read
}

// Adds the places of a pass's receipts.
fn add_places(places: &mut Vec<u64>, pass: &Pass) -> Result<()> {
    for receipt in pass.receipts() {
        places.push(receipt.place)?;
    }
    Ok(())
}

// Appends the places of all receipts, in order.
fn append_places(alloc: Global, told: &mut String, passes: &[Pass]) -> Result<()> {
    let mut places = Vec::new(alloc);
    for pass in passes {
        add_places(&mut places, pass)?;
    }
    places.sort_unstable();
    Ok(write!(told, " receipts at {places:?};")?)
}

// Leaves in `passes` the passes that will close the master, and the other passes in `kept`.
fn choose(row: Row, passes: &mut Vec<Pass>, kept: &mut Vec<Pass>) -> Result<()> {
    if row.is_turned {
        passes.reverse();
    }
    let mut rest = passes.split_off(passes.len().min(row.own))?;
    swap(&mut rest, kept);
    Ok(passes.append(&mut rest)?)
}

/// Makes calls on two threads: the first pass calls the lines `prefix`, and the viewer reads after each; the second pass calls the lines `back`.
/// Leaves in `passes` those that will close the master.
pub fn use_master<K: Naming + Send + Sync, W: Threads + Wait + Sync>(
    rt: &W,
    alloc: Global,
    told: &mut String,
    row: Row,
    prefix: &[&str],
    back: &[&str],
    kept: &mut Vec<Pass>,
    master: &Master<K, &W>,
    passes: &mut Vec<Pass>,
    viewers: &mut [Viewer<K>],
) -> Result<()> {
    call_side_by_side(rt, alloc, told, prefix, back, master, passes, viewers)?;
    if row.is_visited {
        append_visit(rt, alloc, told, master)?;
    }
    append_places(alloc, told, passes)?;
    choose(row, passes, kept)
}
