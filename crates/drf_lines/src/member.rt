//! Writes the members of a JSON object. If memory runs out, the line still begins with what it was before.
ghost use Rattle.std.specs.Prelude.{◌≡◌, ◌<◌, ◌^◌, ◌∷◌, ◌++◌, [], true, Ok, IfOk, OnOk, decimal, nat_lt};
ghost use Rattle.std.specs.List.{list_all};
ghost use Rattle.json.specs.Print.{escape, quoted, token_text};
ghost use Rattle.json.specs.Token.{boolean};
ghost use Rattle.serde_json.specs.Written.{comma_if};
ghost use Rattle.drf_role.specs.Parts.{text_of};
ghost use Rattle.drf_text.specs.Written.{bundle_text};
ghost use Rattle.drf_lines.specs.Resources.{bundle_in};
ghost use Rattle.drf_lines.specs.Words.{name_in, role_in};
ghost use Rattle.drf_lines.specs.Written.{is_plain_byte, AppendsText, IsText};

use crate::plain::is_plain;
use drf_bundle::Bundle;
use drf_role::{Name, Role};
use drf_text::{bundle_round_trip_law, push_bundle};
use itoa::Buffer;
use json::Writer;
use std::alloc::{AllocError, Global};

/// Returns the text as a JSON string.
fn quoted(alloc: Global, text: &str) -> Result<Vec<u8>, AllocError>
    ensures { IfOk result (λ string. string.items ≡ quoted text.now) }
{
    let mut out = Writer::new(Vec::new(alloc));
    out.string(text)?;
    Ok(out.into_inner())
}

/// Appends a text.
pub fn put(line: &mut Vec<u8>, text: &str) -> Result<(), AllocError>
    ensures { AppendsText result line.old.items line.new.items text.now }
{
    line.extend_from_slice(text.as_bytes())
}

/// Appends one ASCII character, such as a closing bracket.
pub fn put_byte(line: &mut Vec<u8>, byte: u8) -> Result<(), AllocError>
    requires { byte < 128 }
    ensures { AppendsText result line.old.items line.new.items (byte ∷ []) }
{
    line.push(byte)?;
    Ok(())
}

/// Appends the rest of a JSON string after its opening quote, with escapes where they are needed.
fn put_string(line: &mut Vec<u8>, text: &str) -> Result<(), AllocError>
    ensures { AppendsText result line.old.items line.new.items (escape text.now ++ 34 ∷ []) }
{
    if is_plain(text) {
        put(line, text)?;
        return put_byte(line, b'"');
    }
    let string = quoted(*line.allocator(), text)?;
    line.extend_from_slice(&string[1..])
}

/// Appends `before`, which ends with the opening quote, then the text and the closing quote.
pub fn put_text(line: &mut Vec<u8>, before: &str, text: &str) -> Result<(), AllocError>
    ensures { AppendsText result line.old.items line.new.items (before.now ++ (escape text.now ++ 34 ∷ [])) }
{
    put(line, before)?;
    put_string(line, text)
}

/// Does the same as `put_text` for a text that needs no escapes.
fn put_plain(line: &mut Vec<u8>, before: &str, text: &str) -> Result<(), AllocError>
    requires { list_all is_plain_byte text.now ≡ true }
    ensures { AppendsText result line.old.items line.new.items (before.now ++ (escape text.now ++ 34 ∷ [])) }
{
    put(line, before)?;
    put(line, text)?;
    put_byte(line, b'"')
}

/// Appends `before`, and then the number.
pub fn put_number(line: &mut Vec<u8>, before: &str, value: u64) -> Result<(), AllocError>
    ensures appends { AppendsText result line.old.items line.new.items (before.now ++ decimal value) }
    ensures small { value < 2 ^ 64 }
{
    put(line, before)?;
    put(line, Buffer::new().format(value))
}

/// Appends `before`, and then the boolean.
pub fn put_boolean(line: &mut Vec<u8>, before: &str, value: bool) -> Result<(), AllocError>
    ensures { AppendsText result line.old.items line.new.items (before.now ++ token_text (boolean value)) }
{
    put(line, before)?;
    if value {
        return put(line, "true");
    }
    put(line, "false")
}

/// Appends a comma, unless `place` is 0 (the first item).
pub fn put_comma(line: &mut Vec<u8>, place: usize) -> Result<(), AllocError>
    ensures { AppendsText result line.old.items line.new.items (comma_if (nat_lt 0 place)) }
{
    if place == 0 {
        return Ok(());
    }
    put_byte(line, b',')
}

/// Appends `before`, which ends with the opening quote, then the name and the closing quote. Reading the name gives
/// this name.
pub fn put_name(line: &mut Vec<u8>, before: &str, name: &Name) -> Result<(), AllocError>
    ensures appends { AppendsText result line.old.items line.new.items (before.now ++ (escape name.now ++ 34 ∷ [])) }
    ensures read { OnOk result (name_in name.now ≡ Ok name.now) }
    ensures text { IsText name.now }
{
    put_plain(line, before, name.text())
}

/// Appends `before`, which ends with the opening quote, then the role and the closing quote. Reading the role gives
/// this role.
pub fn put_role(line: &mut Vec<u8>, before: &str, role: &Role) -> Result<(), AllocError>
    ensures appends { AppendsText result line.old.items line.new.items (before.now ++ (escape (text_of role.now) ++ 34 ∷ [])) }
    ensures read { OnOk result (role_in (text_of role.now) ≡ Ok role.now) }
    ensures text { IsText (text_of role.now) }
{
    put_text(line, before, role.text())
}

/// Appends `before`, which ends with the opening quote, then the bundle and the closing quote. Reading the text of the
/// bundle gives this bundle. `text` is a buffer that is overwritten.
pub fn put_bundle(
    line: &mut Vec<u8>,
    text: &mut String,
    before: &str,
    bundle: &Bundle,
) -> Result<(), AllocError>
    ensures appends { AppendsText result line.old.items line.new.items (before.now ++ (escape (bundle_text bundle.now) ++ 34 ∷ [])) }
    ensures read { OnOk result (bundle_in (bundle_text bundle.now) ≡ Ok bundle.now) }
    ensures text { OnOk result (IsText (bundle_text bundle.now)) }
{
    bundle_round_trip_law();
    // `bundle_round_trip_law` needs the invariant of the bundle.
    bundle.recall();
    text.clear();
    push_bundle(text, bundle)?;
    put_text(line, before, text.as_str())
}
