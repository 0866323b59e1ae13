//! Opens, uses and closes a master. A function that owns a master does nothing else, so that the long proof of dropping the master is needed for few
//! exits.
ghost use Rattle.std.specs.Prelude.{◌≡◌};
ghost use Rattle.drf_rows.specs.LimitNumbers.{ceilings};
ghost use Rattle.drf_rows.specs.Step.{opening};

use crate::calls::{Row, use_master};
use anyhow::Result;
use drf_board::{Brand, Entry, Naming, Slate, Viewer};
use drf_master::{CloseFault, CloseRefused, Master, Pass};
use drf_rows::Limits;
use std::alloc::Global;
use std::fmt::Write;
use std::sync::Wait;
use std::thread::Threads;

/// Why a master was not closed, and whether all of its own passes match the returned book.
#[derive(Clone, Copy)]
pub struct Misfit {
    fault: CloseFault,
    is_own: bool,
}

// Returns whether all of a master's own passes match its book: those that closed it and those that were kept.
fn do_own_match<K: Naming>(
    refused: &mut CloseRefused<K>,
    own: usize,
    kept: &mut Vec<Pass>,
) -> bool {
    refused.passes.truncate(own);
    let is_whole = kept.append(&mut refused.passes).is_ok();
    is_whole && refused.book.matches(kept).is_ok()
}

// Returns the error of a master that was not closed.
fn misfit_of<K: Naming>(mut refused: CloseRefused<K>, own: usize, kept: &mut Vec<Pass>) -> Misfit {
    let is_own = do_own_match(&mut refused, own, kept);
    let fault = refused.fault;
    drop(refused);
    Misfit { fault, is_own }
}

/// Closes a master. The first `own` of the passes are its own, and so are the passes in `kept`.
pub fn close<K: Naming, R: Wait + Drop>(
    master: Master<K, R>,
    passes: Vec<Pass>,
    own: usize,
    kept: &mut Vec<Pass>,
) -> Result<Vec<Entry>, Misfit> {
    match master.close(passes) {
        Ok(book) => Ok(book.into_entries()),
        Err(refused) => Err(misfit_of(refused, own, kept)),
    }
}

// Appends how a master was closed.
fn append_closed(told: &mut String, closed: &Result<Vec<Entry>, Misfit>) -> Result<()> {
    match closed {
        Ok(entries) => Ok(write!(told, " closed, {} entries", entries.len())?),
        Err(misfit) => {
            let (fault, is_own) = (misfit.fault, misfit.is_own);
            Ok(write!(told, " {fault:?}, own passes match: {is_own}")?)
        }
    }
}

/// Appends how a master was closed, or returns the error of its use.
pub fn append_used(
    told: &mut String,
    used: Result<()>,
    closed: Result<Vec<Entry>, Misfit>,
) -> Result<()> {
    used?;
    append_closed(told, &closed)
}

// Uses a master, closes it, and appends the result.
fn use_and_close<K: Naming + Send + Sync, W: Threads + Wait + Sync>(
    rt: &W,
    alloc: Global,
    told: &mut String,
    row: Row,
    prefix: &[&str],
    back: &[&str],
    kept: &mut Vec<Pass>,
    master: Master<K, &W>,
    mut passes: Vec<Pass>,
    mut viewers: Vec<Viewer<K>>,
) -> Result<()> {
    let used = use_master(
        rt,
        alloc,
        told,
        row,
        prefix,
        back,
        kept,
        &master,
        &mut passes,
        &mut viewers,
    );
    let closed = close(master, passes, row.own, kept);
    drop(viewers);
    append_used(told, used, closed)
}

// Opens a master, uses it, closes it, and appends the result.
fn run_named<K: Naming + Send + Sync, W: Threads + Wait + Sync>(
    rt: &W,
    alloc: Global,
    told: &mut String,
    row: Row,
    prefix: &[&str],
    back: &[&str],
    kept: &mut Vec<Pass>,
    slate: Slate,
) -> Result<()>
    requires named { slate.name ≡ K.slate }
    requires limits { slate.name.limits ≡ ceilings }
    requires start { K.start ≡ opening }
{
    let (master, passes, viewers) = Master::<K, &W>::open(
        rt,
        alloc,
        row.key,
        Limits::full(),
        2,
        slate,
    )?;
    use_and_close(
        rt, alloc, told, row, prefix, back, kept, master, passes, viewers,
    )
}

/// Opens a master with two passes and a viewer, uses it, closes it, and appends a line about this. The passes in `kept` close it too. Afterwards
/// `kept` has those of its own passes that did not close it, or all of them if it was not closed.
pub fn run<W: Threads + Wait + Sync>(
    rt: &W,
    alloc: Global,
    told: &mut String,
    row: Row,
    prefix: &[&str],
    back: &[&str],
    kept: &mut Vec<Pass>,
) -> Result<()> {
    let slate = Slate::open(1, Limits::full())?;
    run_named::<Brand, W>(rt, alloc, told, row, prefix, back, kept, slate)?;
    Ok(told.push('\n')?)
}
