//! The line that reports what is wrong with a line of the input.
ghost use Rattle.std.specs.Prelude.{◌≡◌, ◌++◌, OnOk, IfOk, decimal};
ghost use Rattle.drf_lint.specs.Diagnosed.{reported_line};

use crate::diagnosis::Diagnosis;
use itoa::Buffer;
use std::alloc::{AllocError, Global};

/// Appends a label and a decimal number.
fn push_number(text: &mut Vec<u8>, word: &str, number: u64) -> Result<(), AllocError>
    ensures { OnOk result (text.new.items ≡ text.old.items ++ (word.now ++ decimal number)) }
{
    text.extend_from_slice(word.as_bytes())?;
    text.extend_from_slice(Buffer::new().format(number).as_bytes())
}

/// Returns the line that reports a diagnosis of the line with this number. Lines are counted from 1.
pub(crate) fn reported_line(
    alloc: Global,
    number: u64,
    reported: &Diagnosis,
) -> Result<Vec<u8>, AllocError>
    ensures { IfOk result (λ text. text.items ≡ reported_line number reported.now.fault reported.now.column reported.now.words.items) }
{
    let mut text = Vec::new(alloc);
    push_number(&mut text, "line ", number)?;
    push_number(&mut text, " column ", reported.column)?;
    push_number(&mut text, ": ", reported.fault.number())?;
    text.push(b' ')?;
    text.extend_from_slice(reported.fault.name().as_bytes())?;
    text.extend_from_slice(b": ")?;
    text.extend_from_slice(&reported.words)?;
    text.push(b'\n')?;
    Ok(text)
}
