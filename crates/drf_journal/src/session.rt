//! Keeps the state of a run between two reads.
ghost use Rattle.std.specs.Prelude.{◌≡◌, ◌⊎◌, ◌+◌, ◌^◌, ◌<◌, ◌≤◌, [], ◌∷◌, ◌++◌, true, false, is_err, length, map, take, IfOk, OnOk, OnErr, IfErr};
ghost use Rattle.std.specs.Io.KnownBytes.{Appends};
ghost use Rattle.drf_audit.specs.Audit.{line_of};
ghost use Rattle.drf_core.specs.Machine.{live};
ghost use Rattle.drf_explain.specs.Explained.{explained};
ghost use Rattle.drf_explain.specs.ExplainedText.{explained_text};
ghost use Rattle.drf_rows.specs.declared.limits.TheConstants.{LATEST_TIMESTAMP};
ghost use Rattle.drf_journal.specs.Lines.{IsWithinLine};
ghost use Rattle.drf_journal.specs.Device.{AppendsPrefixOf};
ghost use Rattle.drf_journal.specs.State.{begun, after_piece, at_end, HasTakenAtMost, WaitsBelow, AnswersPrefixOf};

use crate::answer::reply_to_parted_line;
use crate::device::{Device, write_whole};
use crate::fault::RunFault;
use crate::open_line::{OpenLine, line_feed_in};
use drf_audit::{AuditLine, audit};
use drf_core::Core;
use drf_explain::write_explained_lines;
use drf_lines::LineReader;
use drf_sorter::Sorter;
use std::alloc::{AllocError, Global};
use std::io::Write;
use std::marker::Model;
use std::thread::Threads;

/// If at least this many bytes wait to be written, no more lines are answered.
const MOST_UNSENT: usize = 65_536;

/// A run between two reads.
pub struct Session<S: Sorter> {
    core: Core<S>,
    echo: bool,
    /// The bytes of the line that has not ended yet.
    pending: OpenLine,
    /// The text that has not been written yet.
    unsent: Vec<u8>,
    /// The number of lines that were answered.
    lines: u64,
    reader: LineReader,
}

// Written out, so that the proof of code that drops a session sees one call instead of the drop of each field.
impl<S: Sorter> Drop for Session<S> {
    fn drop(self) {
        let Session {
            core: _core,
            echo: _echo,
            pending: _pending,
            unsent: _unsent,
            lines: _lines,
            reader: _reader,
        } = self;
    }
}

impl<S: Sorter> Model for Session<S> {
    ghost use Rattle.drf_core.specs.Machine.{live};
    ghost use Rattle.drf_journal.specs.State.{State, state_code};

    ghost Value = { State };

    ghost coded = { state_code };

    ghost view = { λ s. record {
      machine = live s.core;
      echo = s.echo;
      pending = s.pending;
      unsent = s.unsent.items;
      lines = s.lines;
    } };
}

impl<S: Sorter> Session<S> {
    /// Creates a run of this allocator that has read nothing.
    pub fn begin(alloc: Global, core: Core<S>, echo: bool) -> Session<S>
        ensures { result ≡ begun (live core) echo }
    {
        Session {
            core,
            echo,
            pending: OpenLine::new(alloc),
            unsent: Vec::new(alloc),
            lines: 0,
            reader: LineReader::new(alloc),
        }
    }

    /// Returns the allocator in its current state.
    pub(crate) fn into_core(self) -> Core<S>
        ensures { live result ≡ self.machine }
    {
        let Session {
            core,
            echo: _echo,
            pending: _pending,
            unsent: _unsent,
            lines: _lines,
            reader: _reader,
        } = self;
        core
    }

    /// Returns the number of lines that were answered.
    pub fn lines(&self) -> u64
        ensures { result ≡ self.now.lines }
    {
        self.lines
    }

    /// Ends the current line with these bytes, and answers it.
    fn end_line(&mut self, end: &[u8]) -> Result<(), AllocError>
        requires within { IsWithinLine end.now }
        requires few { self.old.lines + 1 < 2 ^ 64 }
        ensures ok { OnOk result (self.new ≡ after_piece self.old (end.now ++ 10 ∷ [])) }
        ensures err { OnErr result ((self.new.unsent ≡ self.old.unsent) × (self.new.lines ≡ self.old.lines)) }
        ensures taken { HasTakenAtMost self.old.machine (self.old.pending ++ end.now) self.new.machine }
    {
        reply_to_parted_line(
            &mut self.reader,
            &mut self.core,
            self.echo,
            &mut self.pending,
            end,
            &mut self.unsent,
        )?;
        self.pending.clear();
        self.lines += 1;
        Ok(())
    }

    /// Takes a chunk of the input and answers each line that ends in it. It stops after a line if at least 64 KiB of
    /// text waits to be written. Returns how many bytes it took.
    pub(crate) fn take(&mut self, piece: &[u8]) -> Result<usize, AllocError>
        requires { self.old.lines + length piece.now < 2 ^ 64 }
        ensures part { IfOk result (λ count. (count ≤ length piece.now) × (0 < length piece.now → 0 < count)) }
        ensures ok { IfOk result (λ count. self.new ≡ after_piece self.old (take count piece.now)) }
        ensures bound { length self.old.unsent < 65536 → IfOk result (WaitsBelow 65536 self.old piece.now) }
        ensures answers { AnswersPrefixOf self.old piece.now self.new }
    {
        let mut rest = piece;
        while let Some(at) = line_feed_in(rest) {
            self.end_line(&rest[..at])?;
            rest = &rest[at + 1..];
            if self.unsent.len() >= MOST_UNSENT {
                return Ok(piece.len() - rest.len());
            }
        }
        if rest.is_empty() {
            return Ok(piece.len());
        }
        self.pending.keep(rest)?;
        Ok(piece.len())
    }

    /// Answers the bytes after the last line feed, if there are any, at the end of the input.
    pub(crate) fn close(&mut self) -> Result<(), AllocError>
        requires { self.old.lines + 1 < 2 ^ 64 }
        ensures ok { OnOk result (self.new ≡ at_end self.old) }
        ensures err { OnErr result ((self.new.unsent ≡ self.old.unsent) × (self.new.lines ≡ self.old.lines)) }
        ensures taken { (self.new.machine ≡ self.old.machine) ⊎ (self.new.machine ≡ (at_end self.old).machine) }
    {
        if self.pending.is_empty() {
            return Ok(());
        }
        self.end_line(&[])
    }

    /// Discards the text that has not been written yet.
    pub(crate) fn forget(&mut self)
        ensures { self.new ≡ record self.old { unsent = [] } }
    {
        self.unsent.clear();
    }

    /// Returns the audit line of each agent, in order of registration.
    pub(crate) fn audit(
        &self,
        rt: &(impl Threads + Sync),
        alloc: Global,
    ) -> Result<Vec<AuditLine>, AllocError>
        ensures { IfOk result (λ lines. lines.items ≡ map (line_of self.now.machine.rows) self.now.machine.rows.agents) }
    {
        let rows = self.core.rows()?;
        audit(rt, alloc, self.core.key(), &rows)
    }

    /// Returns the lines that explain a cycle at the timestamp `at`, in milliseconds.
    pub(crate) fn explain(&self, alloc: Global, at: u64) -> Result<Vec<u8>, AllocError>
        requires { at ≤ LATEST_TIMESTAMP }
        ensures { IfOk result (λ text. text.items ≡ explained_text (explained self.now.machine.rows at)) }
    {
        let findings = self.core.explain(at)?;
        write_explained_lines(alloc, &findings)
    }

    /// Writes the text that has not been written yet. If that fails, a prefix of it was written.
    pub(crate) fn send<W: Write>(&mut self, writer: &mut Device<W>) -> Result<(), RunFault>
        ensures ok { OnOk result (self.new ≡ record self.old { unsent = [] }) }
        ensures kept { OnErr result (self.new ≡ self.old) }
        ensures sent { OnOk result (Appends (W.contents writer.old.inner) (W.contents writer.new.inner) self.old.unsent) }
        ensures err { OnErr result (AppendsPrefixOf (W.contents writer.old.inner) (W.contents writer.new.inner) self.old.unsent) }
        ensures fault { IfErr result (λ fault. fault ≡ RunFault.Write) }
        ensures failed { writer.old.failed ≡ false → writer.new.failed ≡ is_err result }
        ensures flushed { writer.old.flushed ≡ true → OnOk result (writer.new.flushed ≡ true) }
    {
        if self.unsent.is_empty() {
            return Ok(());
        }
        write_whole(writer, &self.unsent)?;
        self.unsent.clear();
        Ok(())
    }
}
