//! Shows an allocator after a stream of lines.
ghost use Rattle.std.specs.Prelude.{◌≡◌, ◌≤◌, ◌^◌, true};
ghost use Rattle.drf_core.specs.Machine.{live};
ghost use Rattle.drf_journal.specs.Device.{IsNew};
ghost use Rattle.drf_journal.specs.Ended.{HasCause, HasFlushed};
ghost use Rattle.drf_show.specs.Showing.{HasShown};

use crate::form::Form;
use crate::text::show;
use drf_core::Core;
use drf_journal::{Device, ProgramSorter, RunFault, advance, write_whole};
use drf_rows::Limits;
use std::alloc::Global;
use std::io::{Read, Write};
use std::thread::Threads;

/// Applies the events of a reader's lines, and then writes the content of the allocator, which has these capacities. Lines that are not events
/// are skipped, so the input can be a journal. Returns an error if a read or a write fails, or if memory runs out.
pub fn run_show<R: Read, W: Write>(
    rt: &(impl Threads + Sync),
    alloc: Global,
    core: Core<ProgramSorter>,
    limits: &Limits,
    form: Form,
    reader: &mut Device<R>,
    writer: &mut Device<W>,
) -> Result<(), RunFault>
    requires limits { core.limits ≡ limits.now }
    requires reader { IsNew reader.old.calls reader.old.failed }
    requires writer { IsNew writer.old.calls writer.old.failed }
    ensures shown { HasShown form (live core) (R.remaining reader.old.inner) (R.remaining reader.new.inner)
        (W.contents writer.old.inner) (W.contents writer.new.inner) result }
    ensures cause { HasCause result reader.new.failed reader.new.calls writer.new.failed }
    ensures flushed { writer.old.flushed ≡ true → HasFlushed result writer.new.flushed }
    ensures reads { reader.new.calls ≤ 2 ^ 40 }
{
    let core = advance(alloc, core, reader)?;
    let text = show(rt, alloc, &core, limits, form)?;
    write_whole(writer, &text)
}
