//! The report of a wrong line in a file.
ghost use Rattle.std.specs.Prelude.{◌≡◌, ◌∷◌, ◌++◌, [], false, OnOk, IfOk, codes, decimal};
ghost use Rattle.drf_app.specs.Reported.{HasReportedLine, refused_line};

use crate::file_name::push_name;
use crate::messages::{finish, report_bytes};
use drf_journal::{Device, RunFault};
use itoa::Buffer;
use std::alloc::{AllocError, Global};
use std::io::Write;

/// A wrong line of a file, and its error.
#[derive(Clone, Copy)]
pub(crate) struct RefusedLine<'a> {
    pub file: &'a str,
    /// The line's number, from 1.
    pub line: u64,
    /// The number of the error.
    pub fault: u64,
    /// The name of the error.
    pub name: &'a str,
}

// Appends a text and a number.
fn push_number(text: &mut Vec<u8>, word: &str, number: u64) -> Result<(), AllocError>
    ensures { OnOk result (text.new.items ≡ text.old.items ++ (word.now ++ decimal number)) }
{
    text.extend_from_slice(word.as_bytes())?;
    text.extend_from_slice(Buffer::new().format(number).as_bytes())
}

// Appends the number and the name of an error, and a line feed.
fn push_fault(text: &mut Vec<u8>, number: u64, name: &str) -> Result<(), AllocError>
    ensures { OnOk result (text.new.items ≡ text.old.items ++ ((codes " refused " ++ decimal number) ++ (32 ∷ name.now ++ 10 ∷ []))) }
{
    push_number(text, " refused ", number)?;
    text.push(b' ')?;
    text.extend_from_slice(name.as_bytes())?;
    text.push(b'\n')?;
    Ok(())
}

/// Returns the message about a wrong line.
fn refused_line(alloc: Global, line: RefusedLine<'_>) -> Result<Vec<u8>, AllocError>
    ensures { IfOk result (λ text. text.items ≡ refused_line line.entry.file.now line.entry.line line.entry.fault line.entry.name.now) }
{
    let mut text = Vec::new(alloc);
    text.extend_from_slice("drf: ".as_bytes())?;
    push_name(&mut text, line.file)?;
    push_number(&mut text, " line ", line.line)?;
    push_fault(&mut text, line.fault, line.name)?;
    Ok(text)
}

/// Reports a wrong line, and returns the exit status: 3, or 1 if memory ran out.
pub(crate) fn report_line<E: Write>(
    alloc: Global,
    line: RefusedLine<'_>,
    errors: &mut Device<E>,
) -> u8
    requires { errors.old.failed ≡ false }
    ensures { HasReportedLine (refused_line line.entry.file.now line.entry.line line.entry.fault line.entry.name.now) result
        (E.contents errors.old.inner) (E.contents errors.new.inner) errors.new.failed }
{
    match refused_line(alloc, line) {
        Ok(text) => {
            report_bytes(errors, &text);
            3
        }
        Err(_) => finish::<(), E>(Err(RunFault::Memory), errors),
    }
}
