//! Audits the agents after the events of a stream of lines.
ghost use Rattle.std.specs.Prelude.{◌≡◌, ◌+◌, ◌<◌, ◌≤◌, ◌^◌, [], length, true, false, OnOk, OnErr};
ghost use Rattle.std.specs.List.{flat_map};
ghost use Rattle.std.specs.Io.KnownBytes.{Appends};
ghost use Rattle.drf_audit.specs.AuditText.{audit_text};
ghost use Rattle.drf_core.specs.Machine.{live};
ghost use Rattle.drf_journal.specs.Audited.{HasAudited, HasTakenLines};
ghost use Rattle.drf_journal.specs.Device.{AppendsPrefixOf, IsNew};
ghost use Rattle.drf_journal.specs.Ended.{HasCause, HasFlushed};
ghost use Rattle.drf_journal.specs.State.{IsBegun, after_piece};

use crate::device::{Device, write_whole};
use crate::engine::{CHUNK, MAX_READS, ProgramSorter};
use crate::fault::RunFault;
use crate::session::Session;
use drf_audit::{AuditLine, write_audit_line};
use drf_core::Core;
use drf_sorter::Sorter;
use std::alloc::{AllocError, Global};
use std::io::{Read, Write};
use std::thread::Threads;

/// Takes the events of the lines that end in the next chunk of the input. Their replies are discarded.
fn take_chunk<S: Sorter>(session: &mut Session<S>, piece: &[u8]) -> Result<(), AllocError>
    requires few { session.old.lines + length piece.now < 2 ^ 64 }
    requires sent { session.old.unsent ≡ [] }
    ensures { OnOk result (session.new ≡ record (after_piece session.old piece.now) { unsent = [] }) }
{
    let mut rest = piece;
    while !rest.is_empty() {
        let count = session.take(rest)?;
        session.forget();
        rest = &rest[count..];
    }
    Ok(())
}

/// Takes the events of all lines of a reader. Their replies are discarded.
pub(crate) fn take_lines<S: Sorter, R: Read>(
    alloc: Global,
    session: &mut Session<S>,
    reader: &mut Device<R>,
) -> Result<(), RunFault>
    requires session { IsBegun session.old }
    requires reader { IsNew reader.old.calls reader.old.failed }
    ensures taken { HasTakenLines session.old.machine (R.remaining reader.old.inner) (R.remaining reader.new.inner) session.new.machine result }
    ensures cause { HasCause result reader.new.failed reader.new.calls false }
    ensures reads { reader.new.calls ≤ 2 ^ 40 }
{
    let mut buffer = vec![in alloc; 0u8; CHUNK]?;
    let chunk = buffer.as_mut_slice();
    for _turn in 0..MAX_READS {
        let Ok(count) = reader.read(chunk) else {
            return Err(RunFault::Read);
        };
        if count == 0 {
            session.close()?;
            return Ok(());
        }
        take_chunk(session, &chunk[..count])?;
    }
    Err(RunFault::Read)
}

/// Writes the audit line of an agent.
fn write_line<W: Write>(
    alloc: Global,
    line: &AuditLine,
    writer: &mut Device<W>,
) -> Result<(), RunFault>
    ensures ok { OnOk result (Appends (W.contents writer.old.inner) (W.contents writer.new.inner) (audit_text line.now)) }
    ensures err { OnErr result (AppendsPrefixOf (W.contents writer.old.inner) (W.contents writer.new.inner) (audit_text line.now)) }
    ensures cause { writer.old.failed ≡ false → HasCause result false 0 writer.new.failed }
    ensures flushed { writer.old.flushed ≡ true → HasFlushed result writer.new.flushed }
{
    let mut text = Vec::new(alloc);
    write_audit_line(alloc, line, &mut text)?;
    write_whole(writer, &text)
}

/// Writes the audit lines of agents.
fn write_lines<W: Write>(
    alloc: Global,
    lines: &[AuditLine],
    writer: &mut Device<W>,
) -> Result<(), RunFault>
    ensures ok { OnOk result (Appends (W.contents writer.old.inner) (W.contents writer.new.inner) (flat_map audit_text lines.now)) }
    ensures err { OnErr result (AppendsPrefixOf (W.contents writer.old.inner) (W.contents writer.new.inner) (flat_map audit_text lines.now)) }
    ensures cause { writer.old.failed ≡ false → HasCause result false 0 writer.new.failed }
    ensures flushed { writer.old.flushed ≡ true → HasFlushed result writer.new.flushed }
{
    for line in lines {
        write_line(alloc, line, writer)?;
    }
    Ok(())
}

/// Takes the events of all lines of a reader, and then writes a line for each agent: what it has, the free resources, and how
/// much is out. Lines that are not events are skipped.
fn serve_audit<S: Sorter, R: Read, W: Write>(
    rt: &(impl Threads + Sync),
    alloc: Global,
    session: &mut Session<S>,
    reader: &mut Device<R>,
    writer: &mut Device<W>,
) -> Result<(), RunFault>
    requires session { IsBegun session.old }
    requires reader { IsNew reader.old.calls reader.old.failed }
    requires writer { IsNew writer.old.calls writer.old.failed }
    ensures audited { HasAudited session.old.machine (R.remaining reader.old.inner) (R.remaining reader.new.inner)
        (W.contents writer.old.inner) (W.contents writer.new.inner) result }
    ensures cause { HasCause result reader.new.failed reader.new.calls writer.new.failed }
    ensures flushed { writer.old.flushed ≡ true → HasFlushed result writer.new.flushed }
    ensures reads { reader.new.calls ≤ 2 ^ 40 }
{
    take_lines(alloc, session, reader)?;
    let lines = session.audit(rt, alloc)?;
    write_lines(alloc, &lines, writer)
}

/// Audits the agents of an allocator after the lines of a reader, with the sorter that the program uses.
pub fn run_audit<R: Read, W: Write>(
    rt: &(impl Threads + Sync),
    alloc: Global,
    core: Core<ProgramSorter>,
    reader: &mut Device<R>,
    writer: &mut Device<W>,
) -> Result<(), RunFault>
    requires reader { IsNew reader.old.calls reader.old.failed }
    requires writer { IsNew writer.old.calls writer.old.failed }
    ensures audited { HasAudited (live core) (R.remaining reader.old.inner) (R.remaining reader.new.inner)
        (W.contents writer.old.inner) (W.contents writer.new.inner) result }
    ensures cause { HasCause result reader.new.failed reader.new.calls writer.new.failed }
    ensures flushed { writer.old.flushed ≡ true → HasFlushed result writer.new.flushed }
    ensures reads { reader.new.calls ≤ 2 ^ 40 }
{
    let mut session = Session::begin(alloc, core, false);
    serve_audit(rt, alloc, &mut session, reader, writer)
}
