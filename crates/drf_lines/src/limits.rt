//! Reads and writes the event `set_limit` and the rows of limits.
ghost use Rattle.std.specs.Prelude.{◌≡◌, ◌∷◌, ◌++◌, [], Ok, OnOk};
ghost use Rattle.json.specs.Print.{escape};
ghost use Rattle.serde_json.specs.Written.{compact_text};
ghost use Rattle.drf_rows.specs.declared.event.Event.TheVariants.{SetLimit};
ghost use Rattle.drf_saved.specs.declared.saved.SavedRow.TheVariants.{Limit};
ghost use Rattle.drf_saved.specs.declared.saved.StateLine.TheVariants.{Row};
ghost use Rattle.drf_text.specs.Written.{quantities_text};
ghost use Rattle.drf_lines.specs.Fault.{IsReadOf};
ghost use Rattle.drf_lines.specs.LimitEvents.{its_limit, limit_value};
ghost use Rattle.drf_lines.specs.LineValue.{line_view};
ghost use Rattle.drf_lines.specs.Resources.{quantities_in};
ghost use Rattle.drf_lines.specs.Spelled.{IsSpelled};
ghost use Rattle.drf_lines.specs.StateLine.{row_line};
ghost use Rattle.drf_lines.specs.StateMeaning.{state_line_meaning};
ghost use Rattle.drf_lines.specs.Written.{AppendsText, IsText};

use crate::fault::LineError;
use crate::member::{put, put_byte, put_role, put_text};
use crate::object::{LineValue, keys, text_at};
use crate::resources::read_quantities;
use crate::words::KnownWords;
use drf_bundle::Quantities;
use drf_role::Role;
use drf_rows::LimitRow;
use drf_text::write_quantities;
use std::alloc::AllocError;

/// Reads the role and the limit of an event, or of a row, that has no other keys.
#[tactic(auto, unfolding(crate::specs::LimitEvents::its_limit))]
pub fn read_its_limit(
    known: &mut KnownWords,
    value: &LineValue<'_>,
) -> Result<(Role, Quantities), LineError>
    ensures { IsReadOf result (its_limit (line_view value.now)) }
{
    keys(value, 3)?;
    let role = text_at(value, "role")?;
    let limit = text_at(value, "limit")?;
    Ok((known.role(role)?, read_quantities(known.alloc, limit)?))
}

/// Appends `before`, which ends with the opening quote, then the limit, with its amounts of 0, and the closing quote.
/// Reading the text of the limit gives this limit.
fn put_limit(line: &mut Vec<u8>, before: &str, limit: &Quantities) -> Result<(), AllocError>
    ensures appends { AppendsText result line.old.items line.new.items (before.now ++ (escape (quantities_text limit.now) ++ 34 ∷ [])) }
    ensures read { OnOk result (quantities_in (quantities_text limit.now) ≡ Ok limit.now) }
    ensures text { OnOk result (IsText (quantities_text limit.now)) }
{
    let text = write_quantities(*line.allocator(), limit)?;
    put_text(line, before, text.as_str())
}

/// Appends the event `set_limit`.
pub fn put_set_limit(line: &mut Vec<u8>, role: &Role, limit: &Quantities) -> Result<(), AllocError>
    ensures appends { AppendsText result line.old.items line.new.items (compact_text (limit_value role.now limit.now)) }
    ensures read { OnOk result (IsSpelled (SetLimit role.now limit.now)) }
{
    put_limit(line, "{\"event\":\"set_limit\",\"limit\":\"", limit)?;
    put_role(line, ",\"role\":\"", role)?;
    put_byte(line, b'}')
}

/// Appends the line of a limit's row, as `push_row` does.
pub fn push_limit_row(text: &mut Vec<u8>, row: &LimitRow) -> Result<(), AllocError>
    ensures appends { AppendsText result text.old.items text.new.items (row_line (Limit row.now)) }
    ensures read { OnOk result (state_line_meaning (row_line (Limit row.now)) ≡ Ok (Row (Limit row.now))) }
{
    put_limit(text, "{\"limit\":\"", &row.limit)?;
    put_role(text, ",\"role\":\"", &row.role)?;
    put(text, ",\"row\":\"limit\"}")
}
