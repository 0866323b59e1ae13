//! Writes the quantities that are above 0. Names and amounts need no JSON escapes.
ghost use Rattle.std.specs.Prelude.{◌≡◌, ◌∷◌, ◌++◌, ◌+◌, ◌<◌, List, [], IfOk, OnOk};
ghost use Rattle.json.specs.Print.{escape};
ghost use Rattle.drf_bundle.specs.declared.quantities.Entry.{Entry};
ghost use Rattle.drf_text.specs.Written.{amount_text, decimals_text, quantity_text};
ghost use Rattle.drf_lines.specs.Amounts.{left_amounts};
ghost use Rattle.drf_lines.specs.ReportLine.{amounts_text};
ghost use Rattle.drf_lines.specs.Written.{AppendsText, KeepsPrefix, KeepsUtf8};

use crate::member::{put, put_byte};
use drf_bundle::{Entry, Quantities};
use itoa::Buffer;
use std::alloc::AllocError;

fn put_digit(line: &mut Vec<u8>, digit: u64) -> Result<(), AllocError>
    requires { digit < 10 }
    ensures { AppendsText result line.old.items line.new.items ((48 + digit) ∷ []) }
{
    put_byte(line, b'0' + digit as u8)
}

/// Appends `.` and the decimals of a number of thousandths below 1000 without trailing zeros; for 0 it appends nothing.
fn put_decimals(line: &mut Vec<u8>, thousandths: u64) -> Result<(), AllocError>
    requires { thousandths < 1000 }
    ensures { AppendsText result line.old.items line.new.items (decimals_text thousandths) }
{
    if thousandths == 0 {
        return Ok(());
    }
    put_byte(line, b'.')?;
    put_digit(line, thousandths / 100)?;
    if thousandths % 100 == 0 {
        return Ok(());
    }
    put_digit(line, thousandths / 10 % 10)?;
    if thousandths % 10 == 0 {
        return Ok(());
    }
    put_digit(line, thousandths % 10)
}

fn put_amount(line: &mut Vec<u8>, amount: u64) -> Result<(), AllocError>
    ensures { AppendsText result line.old.items line.new.items (amount_text amount) }
{
    put(line, Buffer::new().format(amount / 1000))?;
    put_decimals(line, amount % 1000)
}

fn put_entry(line: &mut Vec<u8>, entry: &Entry) -> Result<(), AllocError>
    ensures { AppendsText result line.old.items line.new.items (escape (quantity_text entry.now)) }
{
    put(line, entry.label.text())?;
    put_byte(line, b':')?;
    put_amount(line, entry.amount.thousandths())
}

/// Appends an entry if it is above 0, with `;` before it if `has_any`. Returns whether any entry has been written so
/// far.
fn put_next(line: &mut Vec<u8>, entry: &Entry, has_any: bool) -> Result<bool, AllocError>
    ensures ok { IfOk result (λ has_now. (left : List Entry) → line.new.items ++ left_amounts has_now left ≡ line.old.items ++ left_amounts has_any (entry.now ∷ left)) }
    ensures prefix { KeepsPrefix line.old.items line.new.items }
    ensures utf8 { OnOk result (KeepsUtf8 line.old.items line.new.items) }
{
    if entry.amount.thousandths() == 0 {
        return Ok(has_any);
    }
    if has_any {
        put_byte(line, b';')?;
    }
    put_entry(line, entry)?;
    Ok(true)
}

fn put_entries(line: &mut Vec<u8>, entries: &[Entry]) -> Result<(), AllocError>
    ensures { AppendsText result line.old.items line.new.items (escape (amounts_text entries.now)) }
{
    let mut has_any = false;
    for entry in entries {
        has_any = put_next(line, entry, has_any)?;
    }
    Ok(())
}

/// Appends `before`, which ends with the opening quote, then the quantities above 0 and the closing quote.
pub fn put_amounts(
    line: &mut Vec<u8>,
    before: &str,
    quantities: &Quantities,
) -> Result<(), AllocError>
    ensures { AppendsText result line.old.items line.new.items (before.now ++ (escape (amounts_text quantities.now) ++ 34 ∷ [])) }
{
    put(line, before)?;
    put_entries(line, quantities.entries())?;
    put_byte(line, b'"')
}
