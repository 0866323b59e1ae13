//! Checks a journal chunk by chunk.
ghost use Rattle.std.specs.Prelude.{◌≡◌, ℕ, ◌+◌, ◌*◌, ◌^◌, ◌<◌, ◌≤◌, [], ◌∷◌, ◌++◌, List, length, OnOk, IfOk};
ghost use Rattle.drf_core.specs.Machine.{Machine, live};
ghost use Rattle.drf_journal.specs.Lines.{IsWithinLine};
ghost use Rattle.drf_journal.specs.Checking.{after_event_line, IsCheckedTo, HasChecked};
ghost use Rattle.drf_journal.specs.Journal.{IsVerdict};

use crate::answer::reply_to_parted_line;
use crate::due::Due;
use crate::journal::Verdict;
use crate::open_line::{OpenLine, line_feed_in};
use drf_core::Core;
use drf_lines::LineReader;
use drf_sorter::Sorter;
use std::alloc::{AllocError, Global};
use std::marker::Model;

/// The initial capacity for a reply line. Only offers and reports are longer.
const SHORT_LINE: usize = 64;

/// The check of a journal between two reads.
#[derive(Drop)]
pub(crate) struct Checker<S: Sorter> {
    core: Core<S>,
    /// The bytes of an event line that has not ended yet.
    line: OpenLine,
    /// The reply line that is expected, or none while an event line is expected.
    due: Due,
    /// The number of event lines that have ended.
    events: u64,
    reader: LineReader,
}

impl<S: Sorter> Model for Checker<S> {
    ghost use Rattle.drf_core.specs.Machine.{live};
    ghost use Rattle.drf_journal.specs.Checking.{Check, check_code};

    ghost Value = { Check };

    ghost coded = { check_code };

    ghost view = { λ c. record {
      machine = live c.core;
      line = c.line;
      due = c.due;
      events = c.events;
    } };
}

impl<S: Sorter> Checker<S> {
    /// Creates the check of a journal that begins with this allocator. Nothing has been read yet.
    pub(crate) fn begin(alloc: Global, core: Core<S>) -> Checker<S>
        ensures { IsCheckedTo (live core) [] result }
    {
        Checker {
            core,
            line: OpenLine::new(alloc),
            due: Due::none(alloc),
            events: 0,
            reader: LineReader::new(alloc),
        }
    }

    /// Returns the number of the reply line that is expected, or of the last one that arrived.
    pub(crate) fn reply_line(&self) -> u64
        requires { self.now.events < 2 ^ 63 }
        ensures { result ≡ 2 * self.now.events }
    {
        2 * self.events
    }

    /// Ends an event line with these bytes: takes its event, and expects its reply next.
    fn end_event_line(&mut self, alloc: Global, end: &[u8]) -> Result<(), AllocError>
        requires { self.old.events + 1 < 2 ^ 63 }
        ensures { OnOk result (self.new ≡ after_event_line self.old end.now) }
    {
        let mut text = Vec::with_capacity(alloc, SHORT_LINE)?;
        reply_to_parted_line(
            &mut self.reader,
            &mut self.core,
            false,
            &mut self.line,
            end,
            &mut text,
        )?;
        self.line.clear();
        self.due = Due::of(text);
        self.events += 1;
        Ok(())
    }

    /// Ends the current line with these bytes, and returns whether the line is right.
    fn end_line(&mut self, alloc: Global, end: &[u8]) -> Result<bool, AllocError>
        requires within { IsWithinLine end.now }
        requires few { self.old.events + 1 < 2 ^ 63 }
        ensures checked { IfOk result (HasChecked (end.now ++ 10 ∷ []) self.old self.new) }
        ensures few { IfOk result (λ _. self.new.events ≤ self.old.events + 1) }
    {
        if self.due.is_none() {
            self.end_event_line(alloc, end)?;
            return Ok(true);
        }
        if !self.due.ends(end) {
            return Ok(false);
        }
        self.due = Due::none(alloc);
        Ok(true)
    }

    /// Adds bytes to the current line, which does not end in them, and returns whether they are right.
    fn go_on(&mut self, more: &[u8]) -> Result<bool, AllocError>
        requires { IsWithinLine more.now }
        ensures checked { IfOk result (HasChecked more.now self.old self.new) }
        ensures few { IfOk result (λ _. self.new.events ≡ self.old.events) }
    {
        if self.due.is_none() {
            self.line.keep(more)?;
            return Ok(true);
        }
        Ok(self.due.takes(more))
    }

    /// Checks the next chunk of the journal, up to the first wrong line, and returns whether all of it is right.
    pub(crate) fn take(&mut self, alloc: Global, piece: &[u8]) -> Result<bool, AllocError>
        requires { self.old.events + length piece.now < 2 ^ 63 }
        ensures checked { IfOk result (HasChecked piece.now self.old self.new) }
        ensures few { IfOk result (λ _. self.new.events ≤ self.old.events + length piece.now) }
    {
        let mut rest = piece;
        while let Some(at) = line_feed_in(rest) {
            let right = self.end_line(alloc, &rest[..at])?;
            if !right {
                return Ok(false);
            }
            rest = &rest[at + 1..];
        }
        self.go_on(rest)
    }

    /// Returns the verdict at the end of the journal.
    pub(crate) fn verdict(&mut self) -> Verdict
        requires { self.old.events + 1 < 2 ^ 63 }
        ensures { (start : Machine) (read : List ℕ) → IsCheckedTo start read self.old → IsVerdict start read result }
    {
        if !self.line.is_empty() {
            return Verdict::Bad(2 * (self.events + 1));
        }
        if self.due.is_none() {
            return Verdict::Good(self.events);
        }
        if !self.due.has_begun() {
            return Verdict::Bad(2 * self.events);
        }
        if !self.due.ends(&[]) {
            return Verdict::Bad(2 * self.events);
        }
        Verdict::Good(self.events)
    }
}
