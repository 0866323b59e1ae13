//! Explains the next cycle after the events of a stream of lines.
ghost use Rattle.std.specs.Prelude.{◌≡◌, ◌≤◌, ◌^◌, true};
ghost use Rattle.drf_core.specs.Machine.{live};
ghost use Rattle.drf_rows.specs.declared.limits.TheConstants.{LATEST_TIMESTAMP};
ghost use Rattle.drf_journal.specs.Audited.{HasExplained};
ghost use Rattle.drf_journal.specs.Device.{IsNew};
ghost use Rattle.drf_journal.specs.Ended.{HasCause, HasFlushed};
ghost use Rattle.drf_journal.specs.State.{IsBegun};

use crate::audit::take_lines;
use crate::device::{Device, write_whole};
use crate::engine::ProgramSorter;
use crate::fault::RunFault;
use crate::session::Session;
use drf_core::Core;
use drf_sorter::Sorter;
use std::alloc::Global;
use std::io::{Read, Write};

/// Takes the events of all lines of a reader, and then writes what a cycle at the timestamp `at`, in milliseconds,
/// would offer to whom, and why other clients would get nothing. The clock never goes back, so 0 means its current
/// time. Lines that are not events are skipped.
fn serve_explain<S: Sorter, R: Read, W: Write>(
    alloc: Global,
    session: &mut Session<S>,
    at: u64,
    reader: &mut Device<R>,
    writer: &mut Device<W>,
) -> Result<(), RunFault>
    requires session { IsBegun session.old }
    requires early { at ≤ LATEST_TIMESTAMP }
    requires reader { IsNew reader.old.calls reader.old.failed }
    requires writer { IsNew writer.old.calls writer.old.failed }
    ensures explained { HasExplained at session.old.machine (R.remaining reader.old.inner) (R.remaining reader.new.inner)
        (W.contents writer.old.inner) (W.contents writer.new.inner) result }
    ensures cause { HasCause result reader.new.failed reader.new.calls writer.new.failed }
    ensures flushed { writer.old.flushed ≡ true → HasFlushed result writer.new.flushed }
    ensures reads { reader.new.calls ≤ 2 ^ 40 }
{
    take_lines(alloc, session, reader)?;
    let text = session.explain(alloc, at)?;
    write_whole(writer, &text)
}

/// Explains the next cycle of an allocator after the lines of a reader, with the sorter that the program uses. `at` is
/// its timestamp in milliseconds.
pub fn run_explain<R: Read, W: Write>(
    alloc: Global,
    core: Core<ProgramSorter>,
    at: u64,
    reader: &mut Device<R>,
    writer: &mut Device<W>,
) -> Result<(), RunFault>
    requires early { at ≤ LATEST_TIMESTAMP }
    requires reader { IsNew reader.old.calls reader.old.failed }
    requires writer { IsNew writer.old.calls writer.old.failed }
    ensures explained { HasExplained at (live core) (R.remaining reader.old.inner) (R.remaining reader.new.inner)
        (W.contents writer.old.inner) (W.contents writer.new.inner) result }
    ensures cause { HasCause result reader.new.failed reader.new.calls writer.new.failed }
    ensures flushed { writer.old.flushed ≡ true → HasFlushed result writer.new.flushed }
    ensures reads { reader.new.calls ≤ 2 ^ 40 }
{
    let mut session = Session::begin(alloc, core, false);
    serve_explain(alloc, &mut session, at, reader, writer)
}
