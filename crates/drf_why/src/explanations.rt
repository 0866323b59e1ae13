//! An explanation of the next cycle, written agent by agent.
ghost use Rattle.std.specs.Prelude.{◌≡◌, ◌∷◌, ◌≤◌, ◌^◌, map, true};
ghost use Rattle.std.specs.List.{flat_map};
ghost use Rattle.drf_core.specs.Machine.{live};
ghost use Rattle.drf_explain.specs.ExplainedText.{explained_text};
ghost use Rattle.drf_journal.specs.Audited.{HasReportedOfRows};
ghost use Rattle.drf_journal.specs.Device.{IsNew};
ghost use Rattle.drf_journal.specs.Ended.{HasCause, HasFlushed};
ghost use Rattle.drf_rows.specs.Step.{live_rows};
ghost use Rattle.drf_rows.specs.declared.limits.TheConstants.{LATEST_TIMESTAMP};
ghost use Rattle.drf_why.specs.Pick.{picked, picked_of};
ghost use Rattle.drf_why.specs.Asked.{absent_text, asked_text};
ghost use Rattle.drf_why.specs.Written.{HasWritten, output_of};

use crate::pick::{Pick, write_picked};
use crate::whom::{Whom, absent_text, pick_of};
use drf_core::{Core, Explanations};
use drf_explain::{Finding, suppressed};
use drf_journal::{Device, ProgramSorter, RunFault, advance, write_whole};
use drf_rows::Rows;
use std::alloc::Global;
use std::io::{Read, Write};

/// Writes the selected findings of one list.
fn write_list<W: Write>(
    alloc: Global,
    pick: &Pick,
    findings: &[Finding],
    writer: &mut Device<W>,
) -> Result<(), RunFault>
    ensures { HasWritten (explained_text (picked pick.now findings.now)) (output_of W.contents writer.old) (output_of W.contents writer.new) result }
{
    let mut text = Vec::new(alloc);
    write_picked(alloc, pick, findings, &mut text)?;
    write_whole(writer, &text)
}

/// Writes the selected findings of each agent, as soon as they are computed.
fn write_agents<W: Write>(
    alloc: Global,
    pick: &Pick,
    explanations: &mut Explanations<ProgramSorter>,
    writer: &mut Device<W>,
) -> Result<(), RunFault>
    ensures { HasWritten (explained_text (flat_map (picked pick.now) (map (λ turn. turn.0) explanations.old))) (output_of W.contents writer.old) (output_of W.contents writer.new) result }
{
    while let Some(findings) = explanations.next_agent()? {
        write_list(alloc, pick, &findings, writer)?;
    }
    Ok(())
}

/// Writes the selected findings of the cycle at a timestamp in milliseconds: those of the suppressed clients, and then those of each agent.
fn write_cycle<W: Write>(
    alloc: Global,
    core: &Core<ProgramSorter>,
    rows: &Rows,
    at: u64,
    pick: &Pick,
    writer: &mut Device<W>,
) -> Result<(), RunFault>
    requires rows { rows.now ≡ live_rows core.now.rows }
    requires early { at ≤ LATEST_TIMESTAMP }
    ensures { HasWritten (explained_text (picked_of pick.now rows.now at)) (output_of W.contents writer.old) (output_of W.contents writer.new) result }
{
    let silent = suppressed(alloc, rows)?;
    let mut explanations = core.explanations(at)?;
    write_list(alloc, pick, &silent, writer)?;
    write_agents(alloc, pick, &mut explanations, writer)
}

/// Writes that the subject is not registered, and why.
fn write_absent<W: Write>(
    alloc: Global,
    rows: &Rows,
    whom: Whom<'_>,
    writer: &mut Device<W>,
) -> Result<(), RunFault>
    ensures { HasWritten (absent_text rows.now whom.entry) (output_of W.contents writer.old) (output_of W.contents writer.new) result }
{
    let text = absent_text(alloc, rows, whom)?;
    write_whole(writer, &text)
}

/// Writes the explanation of a subject for the cycle at a timestamp in milliseconds.
fn write_asked<W: Write>(
    alloc: Global,
    core: &Core<ProgramSorter>,
    at: u64,
    whom: Whom<'_>,
    writer: &mut Device<W>,
) -> Result<(), RunFault>
    requires early { at ≤ LATEST_TIMESTAMP }
    ensures { HasWritten (asked_text whom.entry at (live_rows core.now.rows)) (output_of W.contents writer.old) (output_of W.contents writer.new) result }
{
    let rows = core.rows()?;
    let Some(pick) = pick_of(alloc, &rows, whom)? else {
        return write_absent(alloc, &rows, whom, writer);
    };
    write_cycle(alloc, core, &rows, at, &pick, writer)
}

/// Applies the events of a reader's lines, and then writes what the cycle at a timestamp in milliseconds would offer to each client on each
/// agent, and why it would offer nothing: for all clients, or for the subject `whom`. The clock never goes back; if `at` is 0, the cycle is at
/// the time of the clock. Lines that are not events are skipped. Returns an error if a read or a write fails, or if memory runs out.
pub fn write_each<R: Read, W: Write>(
    alloc: Global,
    core: Core<ProgramSorter>,
    at: u64,
    whom: Whom<'_>,
    reader: &mut Device<R>,
    writer: &mut Device<W>,
) -> Result<(), RunFault>
    requires early { at ≤ LATEST_TIMESTAMP }
    requires reader { IsNew reader.old.calls reader.old.failed }
    requires writer { IsNew writer.old.calls writer.old.failed }
    ensures reported { HasReportedOfRows (asked_text whom.entry at) (live core) (R.remaining reader.old.inner) (R.remaining reader.new.inner)
        (W.contents writer.old.inner) (W.contents writer.new.inner) result }
    ensures cause { HasCause result reader.new.failed reader.new.calls writer.new.failed }
    ensures flushed { writer.old.flushed ≡ true → HasFlushed result writer.new.flushed }
    ensures reads { reader.new.calls ≤ 2 ^ 40 }
{
    let core = advance(alloc, core, reader)?;
    write_asked(alloc, &core, at, whom, writer)
}
