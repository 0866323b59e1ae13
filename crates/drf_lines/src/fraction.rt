//! Writes fractions. Their digits need no JSON escapes.
ghost use Rattle.std.specs.Prelude.{◌≡◌, ◌∷◌, ◌++◌, [], IfOk, string_bytes};
ghost use Rattle.json.specs.Print.{escape};
ghost use Rattle.drf_lines.specs.ReportLine.{fraction_text};
ghost use Rattle.drf_lines.specs.Written.{AppendsText};

use crate::member::{put, put_byte};
use itoa::{Buffer, write_digits};
use std::alloc::{AllocError, Global};

/// The greatest length, in bytes, of a fraction whose two numbers are below 2^64.
const SHORT_FRACTION: usize = 41;

/// Appends a fraction whose two numbers are below 2^64, and the closing quote.
fn put_short_fraction(line: &mut Vec<u8>, part: u64, whole: u64) -> Result<(), AllocError>
    ensures { AppendsText result line.old.items line.new.items (fraction_text (part, whole) ++ 34 ∷ []) }
{
    let mut text = [b'"'; SHORT_FRACTION + 1];
    let slash = write_digits(whole, &mut text, SHORT_FRACTION) - 1;
    text[slash] = b'/';
    let start = write_digits(part, &mut text, slash);
    line.extend_from_slice(&text[start..])
}

/// Appends a fraction, and the closing quote.
fn put_long_fraction(line: &mut Vec<u8>, part: u128, whole: u128) -> Result<(), AllocError>
    ensures { AppendsText result line.old.items line.new.items (fraction_text (part, whole) ++ 34 ∷ []) }
{
    put(line, Buffer::new().format(part))?;
    put_byte(line, b'/')?;
    put(line, Buffer::new().format(whole))?;
    put_byte(line, b'"')
}

/// Appends `before`, which ends with the opening quote, then the fraction and the closing quote.
pub fn put_fraction(
    line: &mut Vec<u8>,
    before: &str,
    fraction: (u128, u128),
) -> Result<(), AllocError>
    ensures { AppendsText result line.old.items line.new.items (before.now ++ (escape (fraction_text fraction) ++ 34 ∷ [])) }
{
    let (part, whole) = fraction;
    put(line, before)?;
    if part.max(whole) <= u128::from(u64::MAX) {
        return put_short_fraction(line, part as u64, whole as u64);
    }
    put_long_fraction(line, part, whole)
}

/// Returns a fraction as text, such as `3/10`.
pub fn write_fraction(alloc: Global, fraction: (u128, u128)) -> Result<String, AllocError>
    ensures { IfOk result (λ text. string_bytes text ≡ fraction_text fraction) }
{
    let (part, whole) = fraction;
    let mut text = String::new(alloc);
    text.push_str(Buffer::new().format(part))?;
    text.push('/')?;
    text.push_str(Buffer::new().format(whole))?;
    Ok(text)
}
