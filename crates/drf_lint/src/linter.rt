//! The state of a lint between two reads.
ghost use Rattle.std.specs.Prelude.{◌≡◌, ◌+◌, ◌<◌, ◌≤◌, ◌^◌, ◌++◌, ◌||◌, [], Ok, length, false, true, if◌then◌else◌, IfOk, IfErr, OnOk, OnErr};
ghost use Rattle.std.specs.Io.KnownBytes.{Appends};
ghost use Rattle.drf_journal.specs.declared.fault.RunFault.TheVariants.{Memory};
ghost use Rattle.drf_journal.specs.Device.{AppendsPrefixOf};
ghost use Rattle.drf_journal.specs.Ended.{HasCause, HasFlushed};
ghost use Rattle.drf_lint.specs.Judged.{form_of};
ghost use Rattle.drf_lint.specs.Lint.{begun, lint_of, HasClosed, HasEnded, HasJudged, HasStoppedAt, HasStoppedIn, HasTaken, IsStop};
ghost use Rattle.drf_lint.specs.Diagnosed.{reported_line};

use crate::diagnosis::{Diagnosis, NoEvent, diagnose};
use crate::reported::reported_line;
use drf_journal::{Device, OpenLine, RunFault, line_feed_in, line_law, write_whole};
use drf_lines::{LineReader, write_event};
use drf_rows::Event;
use std::alloc::Global;
use std::io::Write;

/// Writes an event in its normal form if `write` is set.
fn write_form<W: Write>(
    alloc: Global,
    write: bool,
    event: &Event,
    writer: &mut Device<W>,
) -> Result<(), RunFault>
    ensures ok { OnOk result (Appends (W.contents writer.old.inner) (W.contents writer.new.inner) (form_of write (Ok event.now))) }
    ensures err { OnErr result (AppendsPrefixOf (W.contents writer.old.inner) (W.contents writer.new.inner) (form_of write (Ok event.now))) }
    ensures stop { IfErr result IsStop }
    ensures memory { IfErr result (λ fault. fault ≡ Memory → Appends (W.contents writer.old.inner) (W.contents writer.new.inner) []) }
    ensures cause { writer.old.failed ≡ false → HasCause result false 0 writer.new.failed }
    ensures flushed { writer.old.flushed ≡ true → HasFlushed result writer.new.flushed }
{
    if !write {
        return Ok(());
    }
    let mut text = write_event(alloc, event)?;
    text.push(b'\n')?;
    write_whole(writer, &text)
}

/// Writes the diagnosis of the line with this number.
fn report<E: Write>(
    alloc: Global,
    number: u64,
    said: &Diagnosis,
    errors: &mut Device<E>,
) -> Result<(), RunFault>
    ensures ok { OnOk result (Appends (E.contents errors.old.inner) (E.contents errors.new.inner) (reported_line number said.now.fault said.now.column said.now.words.items)) }
    ensures err { OnErr result (AppendsPrefixOf (E.contents errors.old.inner) (E.contents errors.new.inner) (reported_line number said.now.fault said.now.column said.now.words.items)) }
    ensures stop { IfErr result IsStop }
    ensures memory { IfErr result (λ fault. fault ≡ Memory → Appends (E.contents errors.old.inner) (E.contents errors.new.inner) []) }
    ensures cause { errors.old.failed ≡ false → HasCause result false 0 errors.new.failed }
    ensures flushed { errors.old.flushed ≡ true → HasFlushed result errors.new.flushed }
{
    let text = reported_line(alloc, number, said)?;
    write_whole(errors, &text)
}

/// Judges the line with this number. Writes an event in its normal form if `write` is set, and a diagnosis if the line is not an event.
/// Returns whether it is an event.
fn judge<W: Write, E: Write>(
    alloc: Global,
    reader: &mut LineReader,
    write: bool,
    number: u64,
    line: &[u8],
    writer: &mut Device<W>,
    errors: &mut Device<E>,
) -> Result<bool, RunFault>
    ensures ok { IfOk result (λ is_event. HasJudged write number line.now (if is_event then 0 else 1)
        (W.contents writer.old.inner) (W.contents writer.new.inner) (E.contents errors.old.inner) (E.contents errors.new.inner)) }
    ensures err { IfErr result (λ fault. HasStoppedAt fault write number line.now
        (W.contents writer.old.inner) (W.contents writer.new.inner) (E.contents errors.old.inner) (E.contents errors.new.inner)) }
    ensures cause { writer.old.failed ≡ false → errors.old.failed ≡ false → HasCause result false 0 (writer.new.failed || errors.new.failed) }
    ensures flushed { writer.old.flushed ≡ true → HasFlushed result writer.new.flushed }
    ensures reported_flushed { errors.old.flushed ≡ true → HasFlushed result errors.new.flushed }
{
    match diagnose(alloc, reader, line) {
        Ok(event) => {
            write_form(alloc, write, &event, writer)?;
            Ok(true)
        }
        Err(NoEvent::Fault(said)) => {
            report(alloc, number, &said, errors)?;
            Ok(false)
        }
        Err(NoEvent::Memory) => Err(RunFault::Memory),
    }
}

/// The state of a lint between two reads.
#[derive(Drop)]
pub(crate) struct Linter {
    /// Whether events are written.
    write: bool,
    /// The bytes that are stored of the last line, which has not ended yet.
    prefix: OpenLine,
    /// How many lines have ended.
    lines: u64,
    /// How many of these lines are not events.
    faults: u64,
    reader: LineReader,
}

impl Linter {
    /// Returns a lint that has read nothing.
    pub(crate) fn begin(alloc: Global, write: bool) -> Linter
        ensures begun { lint_of result ≡ begun result.write }
        ensures write { result.write ≡ write }
    {
        Linter {
            write,
            prefix: OpenLine::new(alloc),
            lines: 0,
            faults: 0,
            reader: LineReader::new(alloc),
        }
    }

    /// Returns how many lines are not events.
    pub(crate) fn faults(&self) -> u64
        ensures { result ≡ self.now.faults }
    {
        self.faults
    }

    /// Judges the open line, which ends with these bytes.
    fn end_line<W: Write, E: Write>(
        &mut self,
        alloc: Global,
        end: &[u8],
        writer: &mut Device<W>,
        errors: &mut Device<E>,
    ) -> Result<(), RunFault>
        requires few { self.old.lines + 1 < 2 ^ 64 }
        requires counted { self.old.faults ≤ self.old.lines }
        ensures ok { OnOk result (HasEnded (lint_of self.old) end.now (lint_of self.new)
            (W.contents writer.old.inner) (W.contents writer.new.inner) (E.contents errors.old.inner) (E.contents errors.new.inner)) }
        ensures err { IfErr result (λ fault. HasStoppedAt fault self.old.write (self.old.lines + 1) (self.old.prefix ++ end.now)
            (W.contents writer.old.inner) (W.contents writer.new.inner) (E.contents errors.old.inner) (E.contents errors.new.inner)) }
        ensures cause { writer.old.failed ≡ false → errors.old.failed ≡ false → HasCause result false 0 (writer.new.failed || errors.new.failed) }
        ensures flushed { writer.old.flushed ≡ true → HasFlushed result writer.new.flushed }
        ensures reported_flushed { errors.old.flushed ≡ true → HasFlushed result errors.new.flushed }
    {
        self.prefix.keep(end)?;
        let number = self.lines + 1;
        let is_event = judge(
            alloc,
            &mut self.reader,
            self.write,
            number,
            self.prefix.bytes(),
            writer,
            errors,
        )?;
        self.prefix.clear();
        self.lines = number;
        if !is_event {
            self.faults += 1;
        }
        Ok(())
    }

    /// Judges the lines that end in the next chunk of the input.
    pub(crate) fn take<W: Write, E: Write>(
        &mut self,
        alloc: Global,
        piece: &[u8],
        writer: &mut Device<W>,
        errors: &mut Device<E>,
    ) -> Result<(), RunFault>
        requires few { self.old.lines + length piece.now < 2 ^ 64 }
        requires counted { self.old.faults ≤ self.old.lines }
        ensures ok { OnOk result (HasTaken piece.now (lint_of self.old) (lint_of self.new)
            (W.contents writer.old.inner) (W.contents writer.new.inner) (E.contents errors.old.inner) (E.contents errors.new.inner)) }
        ensures err { IfErr result (λ fault. HasStoppedIn fault piece.now (lint_of self.old)
            (W.contents writer.old.inner) (W.contents writer.new.inner) (E.contents errors.old.inner) (E.contents errors.new.inner)) }
        ensures cause { writer.old.failed ≡ false → errors.old.failed ≡ false → HasCause result false 0 (writer.new.failed || errors.new.failed) }
        ensures flushed { writer.old.flushed ≡ true → HasFlushed result writer.new.flushed }
        ensures reported_flushed { errors.old.flushed ≡ true → HasFlushed result errors.new.flushed }
    {
        // The contract of this call says how the lines of an input follow from its chunks.
        line_law();
        let mut rest = piece;
        while let Some(at) = line_feed_in(rest) {
            self.end_line(alloc, &rest[..at], writer, errors)?;
            rest = &rest[at + 1..];
        }
        self.prefix.keep(rest)?;
        Ok(())
    }

    /// Judges the bytes after the last line feed, if there are any, at the end of the input.
    pub(crate) fn close<W: Write, E: Write>(
        &mut self,
        alloc: Global,
        writer: &mut Device<W>,
        errors: &mut Device<E>,
    ) -> Result<(), RunFault>
        requires few { self.old.lines + 1 < 2 ^ 64 }
        requires counted { self.old.faults ≤ self.old.lines }
        ensures ok { OnOk result (HasClosed (lint_of self.old) (lint_of self.new)
            (W.contents writer.old.inner) (W.contents writer.new.inner) (E.contents errors.old.inner) (E.contents errors.new.inner)) }
        ensures err { IfErr result (λ fault. (0 < length self.old.prefix) × HasStoppedAt fault self.old.write (self.old.lines + 1) self.old.prefix
            (W.contents writer.old.inner) (W.contents writer.new.inner) (E.contents errors.old.inner) (E.contents errors.new.inner)) }
        ensures cause { writer.old.failed ≡ false → errors.old.failed ≡ false → HasCause result false 0 (writer.new.failed || errors.new.failed) }
        ensures flushed { writer.old.flushed ≡ true → HasFlushed result writer.new.flushed }
        ensures reported_flushed { errors.old.flushed ≡ true → HasFlushed result errors.new.flushed }
    {
        if self.prefix.is_empty() {
            return Ok(());
        }
        self.end_line(alloc, &[], writer, errors)
    }
}
