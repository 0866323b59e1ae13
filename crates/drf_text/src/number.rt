//! Reads numbers from text, in thousandths.
ghost use Rattle.std.specs.Prelude.{◌≡◌, ◌+◌, ◌*◌, ◌<◌, IsTrue, ◌&&◌, Err, if◌then◌else◌};
ghost use Rattle.std.specs.Str.Parse.{digits_value};
ghost use Rattle.drf_text.specs.Number.{are_digits, digit_at, rounded, small_or_fault, number_of, weight_of};
ghost use Rattle.drf_text.specs.declared.fault.TextFault.TheVariants.{BadNumber};

use crate::fault::TextFault;
use crate::trim::trim;

/// Returns whether the text is one or more ASCII digits.
pub fn are_digits(text: &str) -> bool
    ensures { result ≡ are_digits text.now }
{
    !text.is_empty() && text.as_bytes().iter().all(|b| b.is_ascii_digit())
}

/// Returns the decimal digit at an index, or 0 after the end.
fn digit_at(decimals: &[u8], place: usize) -> u64
    ensures value { result ≡ digit_at decimals.now place }
    ensures small { result < 256 }
{
    match decimals.get(place) {
        Some(byte) => u64::from(byte.saturating_sub(b'0')),
        None => 0,
    }
}

/// Returns the decimals as thousandths; the fourth decimal rounds half up, and later ones are ignored.
fn rounded(decimals: &str) -> u64
    ensures value { result ≡ rounded decimals.now }
    ensures small { result < 65536 }
{
    let bytes = decimals.as_bytes();
    let cut = 100 * digit_at(bytes, 0) + 10 * digit_at(bytes, 1) + digit_at(bytes, 2);
    if digit_at(bytes, 3) >= 5 {
        cut + 1
    } else {
        cut
    }
}

/// Returns whole digits plus thousandths, in thousandths. Fails with `TooLarge` if the sum is 2^64 or more.
fn sum_of(whole: &str, thousandths: u64) -> Result<u64, TextFault>
    requires digits { IsTrue (are_digits whole.now) }
    requires small { thousandths < 65536 }
    ensures { result ≡ small_or_fault (digits_value 10 whole.now * 1000 + thousandths) }
{
    let value: u64 = match whole.parse() {
        Ok(value) => value,
        Err(_) => return Err(TextFault::TooLarge),
    };
    match value.checked_mul(1000) {
        Some(product) => product.checked_add(thousandths).ok_or(TextFault::TooLarge),
        None => Err(TextFault::TooLarge),
    }
}

/// Reads a number with a point. Fails with `BadNumber` if one of the parts is not digits, and with `TooLarge` if the
/// number is 2^64 thousandths or more.
fn parted_number(whole: &str, decimals: &str) -> Result<u64, TextFault>
    ensures { result ≡ (if are_digits whole.now && are_digits decimals.now
        then small_or_fault (digits_value 10 whole.now * 1000 + rounded decimals.now) else Err BadNumber) }
{
    if !are_digits(whole) || !are_digits(decimals) {
        return Err(TextFault::BadNumber);
    }
    sum_of(whole, rounded(decimals))
}

/// Reads a number without a point; it has the errors of `parted_number`.
fn whole_number(text: &str) -> Result<u64, TextFault>
    ensures { result ≡ (if are_digits text.now then small_or_fault (digits_value 10 text.now * 1000) else Err BadNumber) }
{
    if !are_digits(text) {
        return Err(TextFault::BadNumber);
    }
    sum_of(text, 0)
}

/// Reads a number such as `3` or `0.125`, and returns it rounded to thousandths. Fails with `BadNumber` if the text is
/// not a number, and with `TooLarge` if the number is 2^64 thousandths or more.
pub fn read_number(text: &str) -> Result<u64, TextFault>
    ensures { result ≡ number_of text.now }
{
    match text.split_once('.') {
        None => whole_number(text),
        Some((whole, decimals)) => parted_number(whole, decimals),
    }
}

/// Reads a weight, and returns it rounded to thousandths. Spaces and tabs at both ends are ignored. Fails with
/// `BadNumber` if the text is not a number, and with `TooLarge` if the number is 2^64 thousandths or more.
pub fn read_weight(text: &str) -> Result<u64, TextFault>
    ensures { result ≡ weight_of text.now }
{
    read_number(trim(text))
}
