//! Runs an allocator over lines with questions: events and questions in, replies and answers out.
ghost use Rattle.std.specs.Prelude.{◌≡◌, ◌≤◌, ◌^◌, true, OnOk};
ghost use Rattle.std.specs.Io.KnownBytes.{IsAtEnd};
ghost use Rattle.drf_core.specs.Machine.{live};
ghost use Rattle.drf_journal.specs.Device.{IsNew};
ghost use Rattle.drf_journal.specs.Ended.{HasCause, HasFlushed};
ghost use Rattle.drf_ask.specs.Asking.{IsNotAsked};
ghost use Rattle.drf_ask.specs.Ended.{HasAsked};

use crate::asking::Asking;
use drf_core::Core;
use drf_journal::{Device, ProgramSorter, RunFault, line_law};
use drf_rows::Limits;
use drf_sorter::Sorter;
use std::alloc::Global;
use std::io::{Read, Write};

/// The number of bytes that a read asks for.
const CHUNK: usize = 65_536;

/// The greatest number of reads of a run.
const MAX_READS: u64 = 1_099_511_627_776;

/// Answers the lines of a reader on a writer, and returns how many of them are not questions. Even after an error, the
/// text has been written for all lines that ended before the last 65,536 bytes read.
fn serve_asked<S: Sorter, R: Read, W: Write>(
    alloc: Global,
    asking: &mut Asking<S>,
    reader: &mut Device<R>,
    writer: &mut Device<W>,
) -> Result<u64, RunFault>
    requires asking { IsNotAsked asking.old }
    requires reader { IsNew reader.old.calls reader.old.failed }
    requires writer { IsNew writer.old.calls writer.old.failed }
    ensures asked { HasAsked asking.old.machine asking.old.echo (R.remaining reader.old.inner) (R.remaining reader.new.inner)
        (W.contents writer.old.inner) (W.contents writer.new.inner) result }
    ensures read { OnOk result (IsAtEnd (R.remaining reader.new.inner)) }
    ensures cause { HasCause result reader.new.failed reader.new.calls writer.new.failed }
    ensures flushed { writer.old.flushed ≡ true → HasFlushed result writer.new.flushed }
    ensures reads { reader.new.calls ≤ 2 ^ 40 }
{
    // The contract of this call says how lines arrive in chunks.
    line_law();
    let mut buffer = vec![in alloc; 0u8; CHUNK]?;
    let chunk = buffer.as_mut_slice();
    for _turn in 0..MAX_READS {
        let Ok(count) = reader.read(chunk) else {
            return Err(RunFault::Read);
        };
        if count == 0 {
            asking.close(writer)?;
            return Ok(asking.events());
        }
        asking.take(&chunk[..count], writer)?;
    }
    Err(RunFault::Read)
}

/// Runs an allocator over the lines of a reader, with the sorter that the program uses, and answers questions. Returns
/// the number of lines that are not questions. `limits` must be the capacities of the allocator. If `echo` is set, each
/// event line is written before its reply, and answers to questions begin with `?`, as no event line does.
/// Even after an error, the text has been written for all lines that ended before the last 65,536 bytes read. It has
/// been flushed, unless the writer failed or was not flushed at the beginning. Fails with `Read` if a read fails or
/// 2^40 reads do not reach the end, with `Write` if a write or flush fails, and with `Memory` if memory runs out, also
/// for an answer; then no later line is answered.
pub fn run_asked<R: Read, W: Write>(
    alloc: Global,
    core: Core<ProgramSorter>,
    limits: Limits,
    reader: &mut Device<R>,
    writer: &mut Device<W>,
    echo: bool,
) -> Result<u64, RunFault>
    requires limits { limits ≡ (live core).limits }
    requires reader { IsNew reader.old.calls reader.old.failed }
    requires writer { IsNew writer.old.calls writer.old.failed }
    ensures run { HasAsked (live core) echo (R.remaining reader.old.inner) (R.remaining reader.new.inner)
        (W.contents writer.old.inner) (W.contents writer.new.inner) result }
    ensures read { OnOk result (IsAtEnd (R.remaining reader.new.inner)) }
    ensures cause { HasCause result reader.new.failed reader.new.calls writer.new.failed }
    ensures flushed { writer.old.flushed ≡ true → HasFlushed result writer.new.flushed }
    ensures reads { reader.new.calls ≤ 2 ^ 40 }
{
    let mut asking = Asking::begin(alloc, core, limits, echo);
    serve_asked(alloc, &mut asking, reader, writer)
}
