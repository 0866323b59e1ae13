//! Returns the allocator after a stream of lines.
ghost use Rattle.std.specs.Prelude.{◌≤◌, ◌^◌, false};
ghost use Rattle.drf_core.specs.Machine.{live};
ghost use Rattle.drf_journal.specs.Device.{IsNew};
ghost use Rattle.drf_journal.specs.Ended.{HasCause};
ghost use Rattle.drf_journal.specs.Resumed.{HasAdvanced};

use crate::audit::take_lines;
use crate::device::Device;
use crate::engine::ProgramSorter;
use crate::fault::RunFault;
use crate::session::Session;
use drf_core::Core;
use std::alloc::Global;
use std::io::Read;

/// Takes the events of all lines of a reader, and returns the allocator after them. Lines that are not events are
/// skipped, such as the reply lines of a journal.
pub fn advance<R: Read>(
    alloc: Global,
    core: Core<ProgramSorter>,
    reader: &mut Device<R>,
) -> Result<Core<ProgramSorter>, RunFault>
    requires reader { IsNew reader.old.calls reader.old.failed }
    ensures advanced { HasAdvanced (live core) (R.remaining reader.old.inner) (R.remaining reader.new.inner) result }
    ensures cause { HasCause result reader.new.failed reader.new.calls false }
    ensures reads { reader.new.calls ≤ 2 ^ 40 }
{
    let mut session = Session::begin(alloc, core, false);
    take_lines(alloc, &mut session, reader)?;
    Ok(session.into_core())
}
