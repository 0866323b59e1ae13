//! Writes amounts, given in thousandths, as decimal numbers with at most three decimals.
ghost use Rattle.std.specs.Prelude.{◌≡◌, [], ◌∷◌, ◌++◌, ◌+◌, ◌<◌, OnOk, string_bytes};
ghost use Rattle.drf_text.specs.Written.{decimals_text, amount_text};

use itoa::Buffer;
use std::alloc::AllocError;

/// Appends a decimal digit.
fn push_digit(text: &mut String, digit: u64) -> Result<(), AllocError>
    requires { digit < 10 }
    ensures { OnOk result (string_bytes text.new ≡ string_bytes text.old ++ (48 + digit) ∷ []) }
{
    text.push((b'0' + digit as u8) as char)
}

/// Appends `.` and the decimals of a number of thousandths below 1000 without trailing zeros; for 0 it appends nothing.
fn push_decimals(text: &mut String, thousandths: u64) -> Result<(), AllocError>
    requires { thousandths < 1000 }
    ensures { OnOk result (string_bytes text.new ≡ string_bytes text.old ++ decimals_text thousandths) }
{
    if thousandths == 0 {
        return Ok(());
    }
    text.push('.')?;
    push_digit(text, thousandths / 100)?;
    if thousandths % 100 == 0 {
        return Ok(());
    }
    push_digit(text, thousandths / 10 % 10)?;
    if thousandths % 10 == 0 {
        return Ok(());
    }
    push_digit(text, thousandths % 10)
}

/// Appends an amount given in thousandths as a decimal number: 1500 as `1.5`, 4000 as `4`.
pub fn push_amount(text: &mut String, amount: u64) -> Result<(), AllocError>
    ensures { OnOk result (string_bytes text.new ≡ string_bytes text.old ++ amount_text amount) }
{
    text.push_str(Buffer::new().format(amount / 1000))?;
    push_decimals(text, amount % 1000)
}
