//! Reads and writes the event `set_weight` and the rows of weights.
ghost use Rattle.std.specs.Prelude.{◌≡◌, ◌∷◌, ◌++◌, [], Ok, OnOk};
ghost use Rattle.json.specs.Print.{escape};
ghost use Rattle.serde_json.specs.Written.{compact_text};
ghost use Rattle.drf_rows.specs.declared.event.Event.TheVariants.{SetWeight};
ghost use Rattle.drf_saved.specs.declared.saved.SavedRow.TheVariants.{Weight};
ghost use Rattle.drf_saved.specs.declared.saved.StateLine.TheVariants.{Row};
ghost use Rattle.drf_text.specs.Written.{amount_text};
ghost use Rattle.drf_lines.specs.Fault.{IsReadOf};
ghost use Rattle.drf_lines.specs.LineValue.{line_view};
ghost use Rattle.drf_lines.specs.Resources.{weight_in};
ghost use Rattle.drf_lines.specs.Spelled.{IsSpelled};
ghost use Rattle.drf_lines.specs.StateLine.{row_line};
ghost use Rattle.drf_lines.specs.StateMeaning.{state_line_meaning};
ghost use Rattle.drf_lines.specs.WeightEvents.{its_weight, weight_value};
ghost use Rattle.drf_lines.specs.Written.{AppendsText, IsText};

use crate::fault::LineError;
use crate::member::{put_byte, put_role, put_text};
use crate::object::{LineValue, keys, text_at};
use crate::resources::read_weight;
use crate::words::KnownWords;
use drf_role::Role;
use drf_rows::WeightRow;
use drf_text::{weight_round_trip_law, write_weight};
use std::alloc::AllocError;

/// Reads the role and the weight, in thousandths, of an event, or of a row, that has no other keys.
#[tactic(auto, unfolding(crate::specs::WeightEvents::its_weight))]
pub fn read_its_weight(
    known: &mut KnownWords,
    value: &LineValue<'_>,
) -> Result<(Role, u64), LineError>
    ensures { IsReadOf result (its_weight (line_view value.now)) }
{
    keys(value, 3)?;
    let role = text_at(value, "role")?;
    let weight = text_at(value, "weight")?;
    Ok((known.role(role)?, read_weight(weight)?))
}

/// Appends `before`, which ends with the opening quote, then the weight and the closing quote. Reading the weight gives
/// this weight.
fn put_weight(line: &mut Vec<u8>, before: &str, weight: u64) -> Result<(), AllocError>
    ensures appends { AppendsText result line.old.items line.new.items (before.now ++ (escape (amount_text weight) ++ 34 ∷ [])) }
    ensures read { OnOk result (weight_in (amount_text weight) ≡ Ok weight) }
    ensures text { OnOk result (IsText (amount_text weight)) }
{
    weight_round_trip_law();
    let text = write_weight(*line.allocator(), weight)?;
    put_text(line, before, text.as_str())
}

/// Appends the event `set_weight`.
pub fn put_set_weight(line: &mut Vec<u8>, role: &Role, weight: u64) -> Result<(), AllocError>
    ensures appends { AppendsText result line.old.items line.new.items (compact_text (weight_value role.now weight)) }
    ensures read { OnOk result (IsSpelled (SetWeight role.now weight)) }
{
    put_role(line, "{\"event\":\"set_weight\",\"role\":\"", role)?;
    put_weight(line, ",\"weight\":\"", weight)?;
    put_byte(line, b'}')
}

/// Appends the line of a weight's row, as `push_row` does.
pub fn push_weight_row(text: &mut Vec<u8>, row: &WeightRow) -> Result<(), AllocError>
    ensures appends { AppendsText result text.old.items text.new.items (row_line (Weight row.now)) }
    ensures read { OnOk result (state_line_meaning (row_line (Weight row.now)) ≡ Ok (Row (Weight row.now))) }
{
    put_role(text, "{\"role\":\"", &row.role)?;
    put_weight(text, ",\"row\":\"weight\",\"weight\":\"", row.weight)?;
    put_byte(text, b'}')
}
