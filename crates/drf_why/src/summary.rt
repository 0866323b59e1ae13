//! A summary of the next cycle, with a line for each client.
ghost use Rattle.std.specs.Prelude.{◌≡◌, ◌++◌, ◌≤◌, ◌^◌, true, List, IfOk, OnOk};
ghost use Rattle.drf_core.specs.Machine.{live};
ghost use Rattle.drf_explain.specs.Each.{turns_by_agent};
ghost use Rattle.drf_journal.specs.Audited.{HasReportedOfRows};
ghost use Rattle.drf_journal.specs.Device.{IsNew};
ghost use Rattle.drf_journal.specs.Ended.{HasCause, HasFlushed};
ghost use Rattle.drf_rows.specs.Step.{live_rows};
ghost use Rattle.drf_rows.specs.declared.limits.TheConstants.{LATEST_TIMESTAMP};
ghost use Rattle.drf_rows.specs.declared.rows.Rows.{Rows};
ghost use Rattle.drf_why.specs.Passers.{Turn};
ghost use Rattle.drf_why.specs.Tally.{tallies_of};
ghost use Rattle.drf_why.specs.Asked.{summed_text};
ghost use Rattle.drf_why.specs.Written.{HasWritten, output_of};

use crate::tally::{Tally, take_turn, tallies, write_tallies};
use drf_core::{Core, Explanations};
use drf_explain::{suppressed, write_explained_lines};
use drf_hash::HashKey;
use drf_journal::{Device, ProgramSorter, RunFault, advance, write_whole};
use drf_rows::Rows;
use std::alloc::{AllocError, Global};
use std::io::{Read, Write};

/// Counts all turns in the tallies.
fn count_agents(
    explanations: &mut Explanations<ProgramSorter>,
    key: HashKey,
    tallies: &mut [Tally],
) -> Result<(), AllocError>
    ensures { OnOk result ((rows : Rows) (turns : List Turn) → tallies.old ≡ tallies_of rows turns → tallies.new ≡ tallies_of rows (turns ++ explanations.old)) }
{
    while let Some(turn) = explanations.next_turn()? {
        take_turn(tallies, key, &turn)?;
    }
    Ok(())
}

/// Returns the tallies of all clients in the cycle at a timestamp in milliseconds.
fn tallies_at(
    alloc: Global,
    core: &Core<ProgramSorter>,
    rows: &Rows,
    at: u64,
) -> Result<Vec<Tally>, AllocError>
    requires rows { rows.now ≡ live_rows core.now.rows }
    requires early { at ≤ LATEST_TIMESTAMP }
    ensures { IfOk result (λ tallies. tallies.items ≡ tallies_of rows.now (turns_by_agent rows.now at)) }
{
    let mut found = tallies(alloc, core.key(), rows)?;
    let mut explanations = core.explanations(at)?;
    count_agents(&mut explanations, core.key(), found.as_mut_slice())?;
    Ok(found)
}

/// Returns the summary of the cycle at a timestamp in milliseconds.
fn summary(alloc: Global, core: &Core<ProgramSorter>, at: u64) -> Result<Vec<u8>, AllocError>
    requires { at ≤ LATEST_TIMESTAMP }
    ensures { IfOk result (λ text. text.items ≡ summed_text at (live_rows core.now.rows)) }
{
    let rows = core.rows()?;
    let silent = suppressed(alloc, &rows)?;
    let tallies = tallies_at(alloc, core, &rows, at)?;
    let report = core.report()?;
    let mut text = write_explained_lines(alloc, &silent)?;
    write_tallies(alloc, core.key(), &report, &tallies, &mut text)?;
    Ok(text)
}

/// Writes the summary of the cycle at a timestamp in milliseconds.
fn write_summary<W: Write>(
    alloc: Global,
    core: &Core<ProgramSorter>,
    at: u64,
    writer: &mut Device<W>,
) -> Result<(), RunFault>
    requires { at ≤ LATEST_TIMESTAMP }
    ensures { HasWritten (summed_text at (live_rows core.now.rows)) (output_of W.contents writer.old) (output_of W.contents writer.new) result }
{
    let text = summary(alloc, core, at)?;
    write_whole(writer, &text)
}

/// Applies the events of a reader's lines, and then writes a summary of the cycle at a timestamp in milliseconds: the outcomes of each client
/// over all agents, and the clients that pass it over. Shares are those at the beginning of the cycle, not those of the turn. The clock
/// never goes back; if `at` is 0, the cycle is at the time of the clock. Lines that are not events are skipped.
/// Returns an error if a read or a write fails, or if memory runs out.
pub fn write_cycle_summary<R: Read, W: Write>(
    alloc: Global,
    core: Core<ProgramSorter>,
    at: u64,
    reader: &mut Device<R>,
    writer: &mut Device<W>,
) -> Result<(), RunFault>
    requires early { at ≤ LATEST_TIMESTAMP }
    requires reader { IsNew reader.old.calls reader.old.failed }
    requires writer { IsNew writer.old.calls writer.old.failed }
    ensures reported { HasReportedOfRows (summed_text at) (live core) (R.remaining reader.old.inner) (R.remaining reader.new.inner)
        (W.contents writer.old.inner) (W.contents writer.new.inner) result }
    ensures cause { HasCause result reader.new.failed reader.new.calls writer.new.failed }
    ensures flushed { writer.old.flushed ≡ true → HasFlushed result writer.new.flushed }
    ensures reads { reader.new.calls ≤ 2 ^ 40 }
{
    let core = advance(alloc, core, reader)?;
    write_summary(alloc, &core, at, writer)
}
