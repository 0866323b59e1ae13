//! Examples of closing a master that two threads have called: with both passes, with one of them, or with passes of other masters.
use crate::calls::Row;
use crate::lines::{AGENT, FRAMEWORK, OTHER_AGENT, SMALL_AGENT};
use crate::masters::run;
use anyhow::Result;
use drf_master::Pass;
use std::alloc::Global;
use std::sync::Wait;
use std::thread::Threads;

/// Both passes close the master, which a pass with another key called too.
const BOTH: Row = Row {
    key: 1,
    is_visited: true,
    own: 2,
    is_turned: false,
};

/// The first pass closes the master.
const FIRST: Row = Row {
    key: 1,
    is_visited: false,
    own: 1,
    is_turned: false,
};

/// The second pass closes the master.
const SECOND: Row = Row {
    key: 1,
    is_visited: false,
    own: 1,
    is_turned: true,
};

/// No pass of the master closes it.
const NONE: Row = Row {
    key: 1,
    is_visited: false,
    own: 0,
    is_turned: false,
};

/// Keeps the passes of a new master with this key; the first pass made these calls. The master is gone.
pub fn keep_passes<W: Threads + Wait + Sync>(
    rt: &W,
    alloc: Global,
    key: u64,
    lines: &[&str],
    kept: &mut Vec<Pass>,
) -> Result<()> {
    let row = Row { key, ..NONE };
    let mut told = String::new(alloc);
    run(rt, alloc, &mut told, row, lines, &[], kept)
}

// Closes a master with some of its own passes.
fn append_own<W: Threads + Wait + Sync>(
    rt: &W,
    alloc: Global,
    told: &mut String,
    name: &str,
    row: Row,
    prefix: &[&str],
    back: &[&str],
) -> Result<()> {
    let mut kept = Vec::new(alloc);
    told.push_str(name)?;
    run(rt, alloc, told, row, prefix, back, &mut kept)
}

// Closes a master with a pass of another master with the given key, which made one call there.
fn append_other<W: Threads + Wait + Sync>(
    rt: &W,
    alloc: Global,
    told: &mut String,
    name: &str,
    row: Row,
    key: u64,
    prefix: &[&str],
    back: &[&str],
) -> Result<()> {
    let mut kept = Vec::new(alloc);
    keep_passes(rt, alloc, key, &[OTHER_AGENT], &mut kept)?;
    kept.truncate(1);
    told.push_str(name)?;
    run(rt, alloc, told, row, prefix, back, &mut kept)
}

/// Appends all examples: a master is closed with both passes, with one of them, or with a pass of another master.
pub fn append_all<W: Threads + Wait + Sync>(
    rt: &W,
    alloc: Global,
    told: &mut String,
) -> Result<()> {
    let (agent, small, framework, both) = ([AGENT], [SMALL_AGENT], [FRAMEWORK], [AGENT, FRAMEWORK]);
    let alone = "the first pass calls twice and closes:";
    append_own(rt, alloc, told, alone, FIRST, &both, &[])?;
    let visited = "both passes call, one of key 2 too, and both close:";
    append_own(rt, alloc, told, visited, BOTH, &small, &framework)?;
    let first = "both passes call, the first closes:";
    append_own(rt, alloc, told, first, FIRST, &small, &framework)?;
    let second = "both passes call, the second closes:";
    append_own(rt, alloc, told, second, SECOND, &small, &framework)?;
    let stranger = "both passes call, the first and one of key 2 close:";
    append_other(rt, alloc, told, stranger, FIRST, 2, &agent, &framework)?;
    let mismatch = "the first pass calls, those of another master of key 1 close:";
    append_other(rt, alloc, told, mismatch, NONE, 1, &agent, &[])
}
