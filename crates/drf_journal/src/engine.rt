//! Runs an allocator over lines: event lines in, reply lines out.
ghost use Rattle.std.specs.Prelude.{◌≡◌, ◌+◌, ◌<◌, ◌≤◌, ◌^◌, [], length, take, true, false, OnOk, IfOk, IfErr};
ghost use Rattle.std.specs.Io.KnownBytes.{Appends, IsAtEnd};
ghost use Rattle.drf_core.specs.Machine.{live};
ghost use Rattle.drf_journal.specs.Device.{IsNew};
ghost use Rattle.drf_journal.specs.Ended.{HasAnswered, HasServed, HasStopped, HasCause, HasFlushed};
ghost use Rattle.drf_journal.specs.State.{IsBegun, after_piece};

use crate::device::Device;
use crate::fault::RunFault;
use crate::session::Session;
use drf_core::Core;
use drf_sorter::Sorter;
use drf_tree::TreeSorter;
use std::alloc::Global;
use std::io::{Read, Write};

/// The sorter that the program uses.
pub type ProgramSorter = TreeSorter;

/// The number of bytes that a read asks for.
pub(crate) const CHUNK: usize = 65_536;

/// The greatest number of reads of a run or a check.
pub(crate) const MAX_READS: u64 = 1_099_511_627_776;

/// Answers the lines that end in the next chunk of the input, until all are answered or at least 64 KiB of text waits
/// to be written. Returns how many bytes were taken. If memory runs out, the earlier answers are written too.
#[tactic(auto, using(crate::proofs::Parts::stopped_write, crate::proofs::Parts::stopped_memory))]
fn reply_to_part<S: Sorter, W: Write>(
    session: &mut Session<S>,
    piece: &[u8],
    writer: &mut Device<W>,
) -> Result<usize, RunFault>
    requires few { session.old.lines + length piece.now < 2 ^ 64 }
    ensures part { IfOk result (λ count. (count ≤ length piece.now) × (0 < length piece.now → 0 < count)) }
    ensures ok { IfOk result (λ count. session.new ≡ record (after_piece session.old (take count piece.now)) { unsent = [] }) }
    ensures sent { IfOk result (λ count. Appends (W.contents writer.old.inner) (W.contents writer.new.inner)
        (after_piece session.old (take count piece.now)).unsent) }
    ensures err { IfErr result (λ fault. HasStopped fault session.old piece.now session.new
        (W.contents writer.old.inner) (W.contents writer.new.inner)) }
    ensures cause { writer.old.failed ≡ false → HasCause result false 0 writer.new.failed }
    ensures flushed { writer.old.flushed ≡ true → HasFlushed result writer.new.flushed }
{
    let taken = session.take(piece);
    session.send(writer)?;
    let count = taken?;
    Ok(count)
}

/// Answers the lines that end in the next chunk of the input, part by part.
fn reply_to_chunk<S: Sorter, W: Write>(
    session: &mut Session<S>,
    piece: &[u8],
    writer: &mut Device<W>,
) -> Result<(), RunFault>
    requires few { session.old.lines + length piece.now < 2 ^ 64 }
    requires sent { session.old.unsent ≡ [] }
    ensures ok { OnOk result (session.new ≡ record (after_piece session.old piece.now) { unsent = [] }) }
    ensures sent { OnOk result (Appends (W.contents writer.old.inner) (W.contents writer.new.inner) (after_piece session.old piece.now).unsent) }
    ensures err { IfErr result (λ fault. HasStopped fault session.old piece.now session.new
        (W.contents writer.old.inner) (W.contents writer.new.inner)) }
    ensures cause { writer.old.failed ≡ false → HasCause result false 0 writer.new.failed }
    ensures flushed { writer.old.flushed ≡ true → HasFlushed result writer.new.flushed }
{
    let mut rest = piece;
    while !rest.is_empty() {
        let count = reply_to_part(session, rest, writer)?;
        rest = &rest[count..];
    }
    Ok(())
}

/// Answers the lines of a reader on a writer, and returns the number of lines. The answers to all lines that a read
/// brought are written and flushed before the next read, so no answer waits for more input. Fails with `Read` if a read
/// fails or 2^40 reads do not reach the end, with `Write` if a write or flush fails, and with `Memory` if memory runs
/// out.
pub fn serve<S: Sorter, R: Read, W: Write>(
    alloc: Global,
    session: &mut Session<S>,
    reader: &mut Device<R>,
    writer: &mut Device<W>,
) -> Result<u64, RunFault>
    requires session { IsBegun session.old }
    requires reader { IsNew reader.old.calls reader.old.failed }
    requires writer { IsNew writer.old.calls writer.old.failed }
    ensures served { HasServed session.old (R.remaining reader.old.inner) (R.remaining reader.new.inner)
        (W.contents writer.old.inner) (W.contents writer.new.inner) session.new result }
    ensures read { OnOk result (IsAtEnd (R.remaining reader.new.inner)) }
    ensures cause { HasCause result reader.new.failed reader.new.calls writer.new.failed }
    ensures flushed { writer.old.flushed ≡ true → HasFlushed result writer.new.flushed }
    ensures reads { reader.new.calls ≤ 2 ^ 40 }
{
    let mut buffer = vec![in alloc; 0u8; CHUNK]?;
    let chunk = buffer.as_mut_slice();
    for _turn in 0..MAX_READS {
        let Ok(count) = reader.read(chunk) else {
            return Err(RunFault::Read);
        };
        if count == 0 {
            session.close()?;
            session.send(writer)?;
            return Ok(session.lines());
        }
        reply_to_chunk(session, &chunk[..count], writer)?;
    }
    Err(RunFault::Read)
}

/// Runs an allocator over the lines of a reader, with the sorter that the program uses; see `serve`. If `echo` is set,
/// each line is written before its answer.
pub fn run<R: Read, W: Write>(
    alloc: Global,
    core: Core<ProgramSorter>,
    reader: &mut Device<R>,
    writer: &mut Device<W>,
    echo: bool,
) -> Result<u64, RunFault>
    requires reader { IsNew reader.old.calls reader.old.failed }
    requires writer { IsNew writer.old.calls writer.old.failed }
    ensures run { HasAnswered (live core) echo (R.remaining reader.old.inner) (R.remaining reader.new.inner)
        (W.contents writer.old.inner) (W.contents writer.new.inner) result }
    ensures read { OnOk result (IsAtEnd (R.remaining reader.new.inner)) }
    ensures cause { HasCause result reader.new.failed reader.new.calls writer.new.failed }
    ensures flushed { writer.old.flushed ≡ true → HasFlushed result writer.new.flushed }
    ensures reads { reader.new.calls ≤ 2 ^ 40 }
{
    let mut session = Session::begin(alloc, core, echo);
    serve(alloc, &mut session, reader, writer)
}
