//! Decides whether a line is an event and, if it is not, says why.
ghost use Rattle.std.specs.Prelude.{◌≡◌, length, IfOk};
ghost use Rattle.drf_lint.specs.Judged.{IsDiagnosed};
ghost use Rattle.drf_lint.specs.Diagnosed.{AreWords, IsColumn};

use crate::json_hint::json_hint;
use crate::shape_hint::shape_hint;
use crate::text_hint::text_hint;
use crate::words::{Hint, fitted, plain_hint};
use drf_lines::{LineError, LineFault, LineReader};
use drf_rows::Event;
use json::{Error, Scratch, Value};
use std::alloc::{AllocError, Global};

/// Why a line is not an event, and what is wrong in it.
#[derive(Drop)]
pub struct Diagnosis {
    /// The error, as a run reports it.
    pub fault: LineFault,
    /// The position in bytes, from 1, of what is wrong; it is at most one byte after the end of the line.
    pub column: u64,
    /// The hint: which key or part of a text is wrong, and what is expected there. At most 240 bytes of visible ASCII and spaces.
    pub words: Vec<u8>,
}

/// Why there is no event: the line is not one, or memory ran out.
#[derive(Drop)]
pub enum NoEvent {
    Fault(Diagnosis),
    Memory,
}

impl From<AllocError> for NoEvent {
    ghost use Rattle.std.specs.Prelude.{◌≡◌};
    ghost use Rattle.drf_lint.specs.declared.diagnosis.NoEvent.TheVariants.{Memory};

    ghost from_gives = { λ _ error. error ≡ Memory };

    fn from(_: AllocError) -> NoEvent {
        NoEvent::Memory
    }
}

/// Returns the JSON value of a text, or `null` if the text is not JSON; callers pass only texts that are. Strings that have escapes are
/// decoded into `scratch`.
fn value_of<'a>(
    alloc: Global,
    scratch: &'a mut Scratch,
    text: &'a str,
) -> Result<Value<'a>, AllocError> {
    match Value::parse(alloc, text, scratch) {
        Ok(value) => Ok(value),
        Err(Error::OutOfMemory) => Err(AllocError),
        Err(_) => Ok(Value::Null),
    }
}

/// Returns a hint for a line that is JSON: about its shape if `is_shape` is set, and otherwise about its texts.
fn value_hint(alloc: Global, line: &[u8], is_shape: bool) -> Result<Option<Hint>, AllocError> {
    let Ok(text) = std::str::from_utf8(line) else {
        return Ok(None);
    };
    let mut scratch = Scratch::new(alloc);
    let value = value_of(alloc, &mut scratch, text)?;
    if is_shape {
        return shape_hint(alloc, text, &value);
    }
    text_hint(alloc, text, &value)
}

/// Returns a hint for a line that has this error.
fn find_hint(alloc: Global, line: &[u8], fault: LineFault) -> Result<Hint, AllocError> {
    let found = match fault {
        LineFault::LineTooLong => None,
        LineFault::NotJson => Some(json_hint(alloc, line)?),
        LineFault::BadShape => value_hint(alloc, line, true)?,
        LineFault::BadText => value_hint(alloc, line, false)?,
    };
    match found {
        Some(hint) => Ok(hint),
        None if line.len() > LONGEST_LINE => {
            plain_hint(alloc, LONGEST_LINE, "a line can have at most 65536 bytes")
        }
        None => plain_hint(alloc, 0, "not an event"),
    }
}

/// The greatest length of a line in bytes.
const LONGEST_LINE: usize = 65_536;

/// Returns the column of a byte: its position from 1, at most one byte after the end of the line.
fn column_of(line: &[u8], place: usize) -> u64
    ensures { IsColumn (length line.now) result }
{
    place.min(line.len()) as u64 + 1
}

/// Returns the diagnosis of a line that has this error.
fn diagnosis_of(alloc: Global, line: &[u8], fault: LineFault) -> Result<Diagnosis, AllocError>
    ensures fault { IfOk result (λ d. d.fault ≡ fault) }
    ensures place { IfOk result (λ d. IsColumn (length line.now) d.column) }
    ensures words { IfOk result (λ d. AreWords d.words.items) }
{
    let Hint { place, words } = find_hint(alloc, line, fault)?;
    Ok(Diagnosis {
        fault,
        column: column_of(line, place),
        words: fitted(alloc, &words)?,
    })
}

/// Returns the event of a line, or the reason why it is not an event. The reader can have read other lines before.
pub fn diagnose(alloc: Global, reader: &mut LineReader, line: &[u8]) -> Result<Event, NoEvent>
    ensures { IsDiagnosed line.now result }
{
    match reader.read(line) {
        Ok(event) => Ok(event),
        Err(LineError::Fault(fault)) => Err(NoEvent::Fault(diagnosis_of(alloc, line, fault)?)),
        Err(LineError::Memory) => Err(NoEvent::Memory),
    }
}
