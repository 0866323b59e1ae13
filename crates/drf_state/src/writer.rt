//! Writes a state.
ghost use Rattle.std.specs.Prelude.{◌≡◌, Ok, IfOk, OnOk};
ghost use Rattle.drf_rows.specs.LimitNumbers.{LimitNumbers};
ghost use Rattle.drf_rows.specs.Step.{live_rows};
ghost use Rattle.drf_saved.specs.Saved.{saved_rows};
ghost use Rattle.drf_saved_laws.specs.SavedLaws.{IsSaveable};
ghost use Rattle.drf_state.specs.LinedText.{with_rows};
ghost use Rattle.drf_state.specs.Read.{AreRead};
ghost use Rattle.drf_state.specs.State.{state_in, state_text};

use crate::digest::digest_of;
use crate::laws::state_law;
use crate::text::LinedText;
use drf_lines::push_end;
use drf_rows::Rows;
use std::alloc::{AllocError, Global};

/// Appends the lines of the current state, each table after those on which it depends.
fn push_rows(text: &mut LinedText, rows: &Rows) -> Result<(), AllocError>
    ensures ok { OnOk result (text.new ≡ with_rows text.old (saved_rows rows.now)) }
    ensures read { OnOk result (AreRead (saved_rows rows.now)) }
{
    text.push_all(rows.agents.as_slice())?;
    text.push_all(rows.frameworks.as_slice())?;
    text.push_all(rows.weights.as_slice())?;
    text.push_all(rows.limits.as_slice())?;
    text.push_all(rows.offers.as_slice())?;
    text.push_all(rows.tasks.as_slice())?;
    text.push_in_force(rows.clock, rows.filters.as_slice())
}

/// Returns the text of a state: a line for each row of the current state, and a last line with the number and the
/// digest of the lines before it. If the rows can be saved, the text means exactly these rows.
pub fn write_state(alloc: Global, rows: &Rows) -> Result<Vec<u8>, AllocError>
    ensures text { IfOk result (λ text. text.items ≡ state_text rows.now) }
    ensures said { IfOk result (λ text. (limits : LimitNumbers) → IsSaveable limits rows.now → state_in limits text.items ≡ Ok (live_rows rows.now)) }
{
    // The contract of this call says what the text means.
    state_law();
    let mut text = LinedText::begin(alloc, rows)?;
    push_rows(&mut text, rows)?;
    let lines = text.lines();
    let digest = digest_of(alloc, &text.bytes)?;
    let mut bytes = text.into_bytes();
    push_end(&mut bytes, lines, digest.as_str())?;
    bytes.push(b'\n')?;
    Ok(bytes)
}
