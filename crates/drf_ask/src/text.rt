//! Appends text and JSON strings to a buffer.
ghost use Rattle.std.specs.Prelude.{◌≡◌, ◌++◌, ◌-◌, ◌<◌, decimal, length, take, OnOk};
ghost use Rattle.std.specs.Char.{digit_char};
ghost use Rattle.json.specs.Print.{escape_byte, escape_letter, quoted};

use itoa::Buffer;
use std::alloc::AllocError;

/// Appends a text.
pub(crate) fn put(text: &mut Vec<u8>, more: &str) -> Result<(), AllocError>
    ensures { OnOk result (text.new.items ≡ text.old.items ++ more.now) }
{
    text.extend_from_slice(more.as_bytes())
}

/// Appends `before`, and then a number.
pub(crate) fn put_number(text: &mut Vec<u8>, before: &str, value: u64) -> Result<(), AllocError>
    ensures { OnOk result (text.new.items ≡ text.old.items ++ (before.now ++ decimal value)) }
{
    put(text, before)?;
    put(text, Buffer::new().format(value))
}

/// Removes the last byte, such as a line feed.
pub(crate) fn drop_last(text: &mut Vec<u8>)
    ensures { text.new.items ≡ take (length text.old.items - 1) text.old.items }
{
    text.truncate(text.len().saturating_sub(1));
}

/// Returns the letter of a byte's short escape, or 0 if it has none.
fn escape_letter(byte: u8) -> u8
    ensures { result ≡ escape_letter byte }
{
    match byte {
        b'"' | b'\\' => byte,
        8 => b'b',
        12 => b'f',
        b'\n' => b'n',
        b'\r' => b'r',
        b'\t' => b't',
        _ => 0,
    }
}

/// Returns a hexadecimal digit.
fn hex_digit(digit: u8) -> u8
    requires { digit < 16 }
    ensures { result ≡ digit_char digit }
{
    if digit < 10 {
        b'0' + digit
    } else {
        b'a' - 10 + digit
    }
}

/// Appends a byte as it is written in a JSON string, with an escape if it needs one.
fn push_escaped(text: &mut Vec<u8>, byte: u8) -> Result<(), AllocError>
    ensures { OnOk result (text.new.items ≡ text.old.items ++ escape_byte byte) }
{
    let letter = escape_letter(byte);
    if letter > 0 {
        return text.extend_from_slice(&[b'\\', letter]);
    }
    if byte < 32 {
        return text.extend_from_slice(&[
            b'\\',
            b'u',
            b'0',
            b'0',
            hex_digit(byte / 16),
            hex_digit(byte % 16),
        ]);
    }
    text.extend_from_slice(&[byte])
}

/// Appends bytes as a JSON string.
pub(crate) fn push_string(text: &mut Vec<u8>, bytes: &[u8]) -> Result<(), AllocError>
    ensures { OnOk result (text.new.items ≡ text.old.items ++ quoted bytes.now) }
{
    text.push(b'"')?;
    for byte in bytes {
        push_escaped(text, *byte)?;
    }
    text.push(b'"')?;
    Ok(())
}
