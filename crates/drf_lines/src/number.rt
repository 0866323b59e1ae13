//! Reads the numbers of a line.
ghost use Rattle.std.specs.Prelude.{◌≡◌, ◌<◌, ◌==◌, length, slice_index, is_some, true, false, Some, IfSome, IsTrue};
ghost use Rattle.serde_json.specs.Data.{unsigned};
ghost use Rattle.serde_json.specs.Find.{as_u64};
ghost use Rattle.serde_json.specs.Read.{number_of, number_from};
ghost use Rattle.drf_lines.specs.LineValue.{known_number, number_in};

use fast_float::Numeral;

/// The greatest number of digits for which every number is below 2^64.
pub(crate) const FEW_DIGITS: usize = 19;

/// Returns the number if the text is 1 to 19 digits, as most numbers of a line are, and otherwise `None`.
fn read_digits(text: &str) -> Option<u64>
    ensures { IfSome result (λ whole. number_of text.now ≡ Some (unsigned whole)) }
{
    let bytes = text.as_bytes();
    if bytes.is_empty() || bytes.len() > FEW_DIGITS {
        return None;
    }
    let mut whole = 0;
    for byte in bytes {
        if !byte.is_ascii_digit() {
            return None;
        }
        whole = 10 * whole + u64::from(*byte - b'0');
    }
    Some(whole)
}

fn has_minus(bytes: &[u8]) -> bool
    ensures value { result ≡ (slice_index bytes.now 0 == 45) }
    ensures some { IsTrue result → 0 < length bytes.now }
{
    !bytes.is_empty() && bytes[0] == b'-'
}

/// Returns a nonnegative number as an integer below 2^64, or `None` if it is not one.
fn whole_above(numeral: &Numeral<'_>) -> Option<u64>
    ensures { result ≡ as_u64 (known_number (number_from false numeral.now)) }
{
    numeral.to_u64()
}

/// Returns a number in any form as an integer below 2^64, or `None` if it is not one.
fn whole_of_any(text: &str) -> Option<u64>
    ensures { result ≡ as_u64 (number_in text.now) }
{
    let bytes = text.as_bytes();
    if has_minus(bytes) {
        return None;
    }
    whole_above(&Numeral::scan(bytes))
}

/// Returns a number as an integer below 2^64, or `None` if it is not one.
pub fn whole_number(text: &str) -> Option<u64>
    ensures { result ≡ as_u64 (number_in text.now) }
{
    match read_digits(text) {
        Some(whole) => Some(whole),
        None => whole_of_any(text),
    }
}

/// Returns whether a number without a minus sign is in the range of a double.
fn is_in_range_above(numeral: &Numeral<'_>) -> bool
    ensures { result ≡ is_some (number_from false numeral.now) }
{
    // Every integer below 2^64 is in range.
    if numeral.to_u64().is_some() {
        return true;
    }
    numeral.to_float::<f64>(false).is_finite()
}

/// Returns whether a number with a minus sign, whose digits are given, is in the range of a double.
fn is_in_range_below(numeral: &Numeral<'_>) -> bool
    ensures { result ≡ is_some (number_from true numeral.now) }
{
    if let Some(whole) = numeral.to_i64(true) {
        if whole < 0 {
            return true;
        }
    }
    numeral.to_float::<f64>(true).is_finite()
}

/// Returns whether a number in any form is in the range of a double.
fn is_any_in_range(text: &str) -> bool
    ensures { result ≡ is_some (number_of text.now) }
{
    let bytes = text.as_bytes();
    if has_minus(bytes) {
        return is_in_range_below(&Numeral::scan(&bytes[1..]));
    }
    is_in_range_above(&Numeral::scan(bytes))
}

/// Returns whether a number is in the range of a double.
pub fn is_number_in_range(text: &str) -> bool
    ensures { result ≡ is_some (number_of text.now) }
{
    match read_digits(text) {
        Some(_) => true,
        None => is_any_in_range(text),
    }
}
