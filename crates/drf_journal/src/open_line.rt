//! Cuts a stream into lines: keeps the current line, and finds where it ends.
ghost use Rattle.std.specs.Prelude.{◌≡◌, ◌++◌, ◌<◌, [], length, take, slice_index, IsTrue, ◌↔◌, OnOk, IfSome, IfNone};
ghost use Rattle.drf_journal.specs.Lines.{IsWithinLine};
ghost use Rattle.drf_journal.specs.Output.{kept_of};

use memchr::memchr;
use std::alloc::{AllocError, Global};
use std::marker::Model;

/// How many bytes of a line are kept: one more than a line may have, so that a line that is too long can be recognized.
const KEPT: usize = 65_537;

/// Returns the bytes of a line that are kept.
pub(crate) fn kept_prefix(line: &[u8]) -> &[u8]
    ensures { result.now ≡ kept_of line.now }
{
    &line[..line.len().min(KEPT)]
}

/// The kept bytes of the current line, which arrives in chunks.
#[derive(Drop)]
pub struct OpenLine {
    kept: Vec<u8>,
}

impl Model for OpenLine {
    ghost use Rattle.std.specs.Prelude.{ℕ, List};

    ghost Value = { List ℕ };

    ghost view = { λ l. l.kept.items };
}

impl OpenLine {
    /// Creates an empty line.
    pub fn new(alloc: Global) -> OpenLine
        ensures { result ≡ [] }
    {
        OpenLine {
            kept: Vec::new(alloc),
        }
    }

    /// Returns whether no bytes are kept.
    pub fn is_empty(&self) -> bool
        ensures { IsTrue result ↔ (length self.now ≡ 0) }
    {
        self.kept.is_empty()
    }

    /// Returns the kept bytes.
    pub fn bytes(&self) -> &[u8]
        ensures { result.now ≡ self.now }
    {
        &self.kept
    }

    /// Adds bytes of the line, up to the number that is kept.
    pub fn keep(&mut self, more: &[u8]) -> Result<(), AllocError>
        ensures { OnOk result (self.new ≡ kept_of (self.old ++ more.now)) }
    {
        self.kept.extend_from_slice(more)?;
        self.kept.truncate(KEPT);
        Ok(())
    }

    /// Removes the kept bytes, so that the next line can begin.
    pub fn clear(&mut self)
        ensures { self.new ≡ [] }
    {
        self.kept.clear();
    }
}

/// Returns the index of the first line feed.
pub fn line_feed_in(bytes: &[u8]) -> Option<usize>
    ensures found { IfSome result (λ at. (at < length bytes.now) × (slice_index bytes.now at ≡ 10) × IsWithinLine (take at bytes.now)) }
    ensures none { IfNone result (IsWithinLine bytes.now) }
{
    memchr(b'\n', bytes)
}
