//! A text that is written line by line.
ghost use Rattle.std.specs.Prelude.{◌≡◌, ◌∷◌, ◌++◌, [], map, IfOk, OnOk};
ghost use Rattle.drf_rows.specs.Filters.{in_force};
ghost use Rattle.drf_saved.specs.Saved.{head_of, saved_rows};
ghost use Rattle.drf_saved.specs.declared.saved.SavedRow.TheVariants.{Filter};
ghost use Rattle.drf_state.specs.LinedText.{begun_text, with_rows};
ghost use Rattle.drf_state.specs.Read.{AreRead, IsHeadRead, IsRead};

use crate::lined::Lined;
use drf_lines::push_head;
use drf_rows::{FilterRow, Rows};
use drf_saved::Head;
use std::alloc::{AllocError, Global};
use std::marker::Model;

/// A text and the number of its lines.
#[derive(Drop)]
pub(crate) struct LinedText {
    pub(crate) bytes: Vec<u8>,
    lines: u64,
}

impl Model for LinedText {
    ghost use Rattle.std.specs.Prelude.{◌≤◌, length};
    ghost use Rattle.drf_state.specs.LinedText.{LinedBytes, lined_code};

    ghost Value = { LinedBytes };

    ghost coded = { lined_code };

    ghost view = { λ t. record { bytes = t.bytes.items; lines = t.lines } };

    ghost invariant = { λ t. t.lines ≤ length t.bytes.items };
}

impl LinedText {
    /// Creates a text with the first line of a state, which has the numbers of the head.
    pub(crate) fn begin(alloc: Global, rows: &Rows) -> Result<LinedText, AllocError>
        ensures begun { IfOk result (λ text. text ≡ begun_text rows.now) }
        ensures read { OnOk result (IsHeadRead rows.now) }
    {
        let head = Head {
            clock: rows.clock,
            next_offer: rows.next_offer,
            events: rows.events,
        };
        let mut bytes = Vec::new(alloc);
        push_head(&mut bytes, &head)?;
        bytes.push(b'\n')?;
        Ok(LinedText { bytes, lines: 1 })
    }

    /// Returns the number of lines.
    pub(crate) fn lines(&self) -> u64
        ensures { result ≡ self.now.lines }
    {
        self.lines
    }

    /// Returns the bytes of the text.
    pub(crate) fn into_bytes(self) -> Vec<u8>
        ensures { result.items ≡ self.bytes }
    {
        let LinedText { bytes, lines: _ } = self;
        bytes
    }

    /// Appends the line of a row.
    fn push<T: Lined>(&mut self, row: &T) -> Result<(), AllocError>
        ensures ok { OnOk result (self.new ≡ with_rows self.old (T.saved row.now ∷ [])) }
        ensures read { OnOk result (IsRead (T.saved row.now)) }
    {
        row.push(&mut self.bytes)?;
        self.bytes.push(b'\n')?;
        self.lines += 1;
        Ok(())
    }

    /// Appends the lines of rows.
    pub(crate) fn push_all<T: Lined>(&mut self, rows: &[T]) -> Result<(), AllocError>
        ensures ok { OnOk result (self.new ≡ with_rows self.old (map T.saved rows.now)) }
        ensures read { OnOk result (AreRead (map T.saved rows.now)) }
    {
        for row in rows {
            self.push(row)?;
        }
        Ok(())
    }

    /// Appends the lines of the filters that have not expired.
    pub(crate) fn push_in_force(
        &mut self,
        clock: u64,
        filters: &[FilterRow],
    ) -> Result<(), AllocError>
        ensures ok { OnOk result (self.new ≡ with_rows self.old (map Filter (in_force clock filters.now))) }
        ensures read { OnOk result (AreRead (map Filter (in_force clock filters.now))) }
    {
        for filter in filters {
            if filter.until <= clock {
                continue;
            }
            self.push(filter)?;
        }
        Ok(())
    }
}
