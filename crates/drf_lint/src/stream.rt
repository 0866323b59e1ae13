//! Lints a stream of lines.
ghost use Rattle.std.specs.Prelude.{◌≡◌, ◌≤◌, ◌^◌, ◌||◌, true};
ghost use Rattle.drf_journal.specs.Device.{IsNew};
ghost use Rattle.drf_journal.specs.Ended.{HasCause, HasFlushed};
ghost use Rattle.drf_lint.specs.Lint.{begun, lint_of};
ghost use Rattle.drf_lint.specs.Linted.{HasLinted};

use crate::linter::Linter;
use drf_journal::{Device, RunFault, line_law};
use std::alloc::Global;
use std::io::{Read, Write};

/// How many bytes each read asks for.
const CHUNK: usize = 65_536;

/// The greatest number of reads.
const MAX_READS: u64 = 1_099_511_627_776;

/// Lints the lines of a reader, with a linter that has read nothing.
fn lint<R: Read, W: Write, E: Write>(
    alloc: Global,
    linter: &mut Linter,
    reader: &mut Device<R>,
    writer: &mut Device<W>,
    errors: &mut Device<E>,
) -> Result<u64, RunFault>
    requires linter { lint_of linter.old ≡ begun linter.old.write }
    requires reader { IsNew reader.old.calls reader.old.failed }
    requires writer { IsNew writer.old.calls writer.old.failed }
    requires errors { IsNew errors.old.calls errors.old.failed }
    ensures linted { HasLinted linter.old.write (R.remaining reader.old.inner) (R.remaining reader.new.inner)
        (W.contents writer.old.inner) (W.contents writer.new.inner)
        (E.contents errors.old.inner) (E.contents errors.new.inner) result }
    ensures cause { HasCause result reader.new.failed reader.new.calls (writer.new.failed || errors.new.failed) }
    ensures flushed { writer.old.flushed ≡ true → HasFlushed result writer.new.flushed }
    ensures reported_flushed { errors.old.flushed ≡ true → HasFlushed result errors.new.flushed }
    ensures reads { reader.new.calls ≤ 2 ^ 40 }
{
    // The contract of this call says how the lines of an input follow from its chunks.
    line_law();
    let mut buffer = vec![in alloc; 0u8; CHUNK]?;
    let chunk = buffer.as_mut_slice();
    for _turn in 0..MAX_READS {
        let Ok(count) = reader.read(chunk) else {
            return Err(RunFault::Read);
        };
        if count == 0 {
            linter.close(alloc, writer, errors)?;
            return Ok(linter.faults());
        }
        linter.take(alloc, &chunk[..count], writer, errors)?;
    }
    Err(RunFault::Read)
}

/// Lints the lines of a reader, which are cut as a run cuts them. For each line that is not an event, writes a diagnosis to `errors`. If
/// `write` is set, writes each event in its normal form to `writer`, one a line. Returns how many lines are not events.
/// Returns an error if a read or a write fails, or if memory runs out.
pub fn run_lint<R: Read, W: Write, E: Write>(
    alloc: Global,
    write: bool,
    reader: &mut Device<R>,
    writer: &mut Device<W>,
    errors: &mut Device<E>,
) -> Result<u64, RunFault>
    requires reader { IsNew reader.old.calls reader.old.failed }
    requires writer { IsNew writer.old.calls writer.old.failed }
    requires errors { IsNew errors.old.calls errors.old.failed }
    ensures linted { HasLinted write (R.remaining reader.old.inner) (R.remaining reader.new.inner)
        (W.contents writer.old.inner) (W.contents writer.new.inner)
        (E.contents errors.old.inner) (E.contents errors.new.inner) result }
    ensures cause { HasCause result reader.new.failed reader.new.calls (writer.new.failed || errors.new.failed) }
    ensures flushed { writer.old.flushed ≡ true → HasFlushed result writer.new.flushed }
    ensures reported_flushed { errors.old.flushed ≡ true → HasFlushed result errors.new.flushed }
    ensures reads { reader.new.calls ≤ 2 ^ 40 }
{
    let mut linter = Linter::begin(alloc, write);
    lint(alloc, &mut linter, reader, writer, errors)
}
