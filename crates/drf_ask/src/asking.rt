//! Keeps the state of a run with questions between two reads.
ghost use Rattle.std.specs.Prelude.{◌≡◌, ℕ, ◌+◌, ◌^◌, ◌<◌, ◌≤◌, ◌++◌, Bool, true, false, List, length, Option, OnOk, IfErr};
ghost use Rattle.std.specs.Io.KnownBytes.{Appends};
ghost use Rattle.drf_core.specs.Machine.{Machine, live};
ghost use Rattle.drf_journal.specs.Ended.{HasCause, HasFlushed};
ghost use Rattle.drf_journal.specs.Lines.{ended_lines_of};
ghost use Rattle.drf_journal.specs.Output.{kept_of};
ghost use Rattle.drf_ask.specs.Asked.{text_for, after_asked};
ghost use Rattle.drf_ask.specs.Asking.{not_asked, after_line, count_of, IsAskedTo, HasGone, HasPart, HasStopped, HasStoppedIn, HasClosed, lines_reached};

use crate::answer::push_answer;
use crate::question::is_question;
use drf_core::Core;
use drf_journal::{
    Device, OpenLine, RunFault, line_feed_in, line_law, reply_to_parted_line, write_whole,
};
use drf_lines::LineReader;
use drf_rows::Limits;
use drf_sorter::Sorter;
use std::alloc::{AllocError, Global};
use std::io::Write;
use std::marker::Model;

/// Takes the event of a line, or answers its question, and appends the text for the line.
fn push_text_for<S: Sorter>(
    reader: &mut LineReader,
    core: &mut Core<S>,
    limits: &Limits,
    echo: bool,
    line: &mut OpenLine,
    text: &mut Vec<u8>,
) -> Result<(), AllocError>
    requires { limits.now ≡ (live core.old).limits }
    ensures reported { OnOk result (text.new.items ≡ text.old.items ++ text_for echo (live core.old) line.old) }
    ensures ok { OnOk result (live core.new ≡ after_asked (live core.old) line.old) }
    ensures limits { (live core.new).limits ≡ (live core.old).limits }
{
    if is_question(line.bytes()) {
        return push_answer(core, limits, echo, line.bytes(), text);
    }
    reply_to_parted_line(reader, core, echo, line, &[], text)
}

/// Takes the event of a line, or answers its question, and writes the text for the line. `text` is a buffer that is
/// overwritten. If memory runs out for an answer, the run ends as it does for a reply: no line is skipped.
#[tactic(auto, unfolding(crate::specs::Asking::HasPart))]
fn answer_line<S: Sorter, W: Write>(
    reader: &mut LineReader,
    core: &mut Core<S>,
    limits: &Limits,
    echo: bool,
    line: &mut OpenLine,
    text: &mut Vec<u8>,
    writer: &mut Device<W>,
) -> Result<(), RunFault>
    requires { limits.now ≡ (live core.old).limits }
    ensures ok { OnOk result (live core.new ≡ after_asked (live core.old) line.old) }
    ensures limits { (live core.new).limits ≡ (live core.old).limits }
    ensures written { OnOk result (Appends (W.contents writer.old.inner) (W.contents writer.new.inner) (text_for echo (live core.old) line.old)) }
    ensures err { IfErr result (λ fault. HasPart fault (W.contents writer.old.inner) (W.contents writer.new.inner)
        (text_for echo (live core.old) line.old)) }
    ensures cause { writer.old.failed ≡ false → HasCause result false 0 writer.new.failed }
    ensures flushed { writer.old.flushed ≡ true → HasFlushed result writer.new.flushed }
{
    text.clear();
    push_text_for(reader, core, limits, echo, line, text)?;
    write_whole(writer, text)?;
    Ok(())
}

/// Returns 0 for a question, and 1 for any other line.
fn count_of(line: &[u8]) -> u64
    ensures count { result ≡ count_of line.now }
    ensures few { result ≤ 1 }
{
    if is_question(line) {
        return 0;
    }
    1
}

/// A run with questions, between two reads.
pub(crate) struct Asking<S: Sorter> {
    core: Core<S>,
    /// The capacities of the allocator.
    limits: Limits,
    echo: bool,
    /// The kept bytes of the line that has not ended yet.
    pending: OpenLine,
    /// The number of lines that were answered and are not questions.
    events: u64,
    reader: LineReader,
    /// The buffer for the text of a line.
    text: Vec<u8>,
}

// Written out, so that the proof of code that drops one sees one call instead of the drop of each field.
impl<S: Sorter> Drop for Asking<S> {
    fn drop(self) {
        let Asking {
            core: _core,
            limits: _limits,
            echo: _echo,
            pending: _pending,
            events: _events,
            reader: _reader,
            text: _text,
        } = self;
    }
}

impl<S: Sorter> Model for Asking<S> {
    ghost use Rattle.std.specs.Prelude.{◌≡◌};
    ghost use Rattle.drf_core.specs.Machine.{live};
    ghost use Rattle.drf_ask.specs.Asking.{Asking, asking_code};

    ghost Value = { Asking };

    ghost coded = { asking_code };

    ghost view = { λ a. record { machine = live a.core; echo = a.echo; pending = a.pending; events = a.events } };

    ghost invariant = { λ a. a.limits ≡ (live a.core).limits };
}

impl<S: Sorter> Asking<S> {
    /// Creates a run of this allocator that has read nothing.
    pub(crate) fn begin(alloc: Global, core: Core<S>, limits: Limits, echo: bool) -> Asking<S>
        requires { limits ≡ (live core).limits }
        ensures { result ≡ not_asked (live core) echo }
    {
        Asking {
            core,
            limits,
            echo,
            pending: OpenLine::new(alloc),
            events: 0,
            reader: LineReader::new(alloc),
            text: Vec::new(alloc),
        }
    }

    /// Returns the number of lines that were answered and are not questions.
    pub(crate) fn events(&self) -> u64
        ensures { result ≡ self.now.events }
    {
        self.events
    }

    /// Ends the current line with these bytes, answers it, and writes the text for it.
    fn end_line<W: Write>(&mut self, end: &[u8], writer: &mut Device<W>) -> Result<(), RunFault>
        requires few { self.old.events + 1 < 2 ^ 64 }
        ensures ok { OnOk result (self.new ≡ after_line self.old (kept_of (self.old.pending ++ end.now))) }
        ensures written { OnOk result (Appends (W.contents writer.old.inner) (W.contents writer.new.inner)
            (text_for self.old.echo self.old.machine (kept_of (self.old.pending ++ end.now)))) }
        ensures err { IfErr result (λ fault. HasPart fault (W.contents writer.old.inner) (W.contents writer.new.inner)
            (text_for self.old.echo self.old.machine (kept_of (self.old.pending ++ end.now)))) }
        ensures cause { writer.old.failed ≡ false → HasCause result false 0 writer.new.failed }
        ensures flushed { writer.old.flushed ≡ true → HasFlushed result writer.new.flushed }
    {
        self.pending.keep(end)?;
        let count = count_of(self.pending.bytes());
        answer_line(
            &mut self.reader,
            &mut self.core,
            &self.limits,
            self.echo,
            &mut self.pending,
            &mut self.text,
            writer,
        )?;
        self.pending.clear();
        self.events += count;
        Ok(())
    }

    /// Adds bytes to the current line, up to the number that is kept.
    fn keep(&mut self, more: &[u8]) -> Result<(), AllocError>
        ensures { OnOk result (self.new ≡ record self.old { pending = kept_of (self.old.pending ++ more.now) }) }
    {
        self.pending.keep(more)
    }

    /// Takes the next chunk of the input, and answers each line that ends in it.
    pub(crate) fn take<W: Write>(
        &mut self,
        piece: &[u8],
        writer: &mut Device<W>,
    ) -> Result<(), RunFault>
        requires few { self.old.events + length piece.now < 2 ^ 64 }
        ensures ok { OnOk result (HasGone piece.now self.old self.new (W.contents writer.old.inner) (W.contents writer.new.inner)) }
        ensures err { IfErr result (λ fault. HasStopped fault piece.now self.old (W.contents writer.old.inner) (W.contents writer.new.inner)) }
        ensures few { OnOk result (self.new.events ≤ self.old.events + length piece.now) }
        ensures cause { writer.old.failed ≡ false → HasCause result false 0 writer.new.failed }
        ensures flushed { writer.old.flushed ≡ true → HasFlushed result writer.new.flushed }
    {
        // The contract of this call says how lines arrive in chunks.
        line_law();
        let mut rest = piece;
        while let Some(at) = line_feed_in(rest) {
            self.end_line(&rest[..at], writer)?;
            rest = &rest[at + 1..];
        }
        self.keep(rest)?;
        Ok(())
    }

    /// Answers the bytes after the last line feed, if there are any, at the end of the input.
    pub(crate) fn close<W: Write>(&mut self, writer: &mut Device<W>) -> Result<(), RunFault>
        requires few { self.old.events + 1 < 2 ^ 64 }
        ensures ok { OnOk result ((start : Machine) (echo : Bool) (read : List ℕ) (first : Option (List ℕ))
            → IsAskedTo start echo read first (W.contents writer.old.inner) self.old
            → HasClosed start echo read first (W.contents writer.new.inner) self.new) }
        ensures err { IfErr result (λ fault. (start : Machine) (echo : Bool) (read : List ℕ) (first : Option (List ℕ))
            → IsAskedTo start echo read first (W.contents writer.old.inner) self.old
            → HasStoppedIn fault start echo (ended_lines_of read) (lines_reached fault read) first (W.contents writer.new.inner)) }
        ensures cause { writer.old.failed ≡ false → HasCause result false 0 writer.new.failed }
        ensures flushed { writer.old.flushed ≡ true → HasFlushed result writer.new.flushed }
    {
        // The contract of this call says which part of a line is kept.
        line_law();
        if self.pending.is_empty() {
            return Ok(());
        }
        self.end_line(&[], writer)?;
        Ok(())
    }
}
