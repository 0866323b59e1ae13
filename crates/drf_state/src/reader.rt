//! Reads a state.
ghost use Rattle.std.specs.Prelude.{◌≡◌, ◌+◌, ◌∷◌, [], ◌<◌, ◌≤◌, Ok, drop, length, take, IfErr, IfNone, IfOk, IfSome, MatchResult};
ghost use Rattle.drf_role.specs.Text.{same_text};
ghost use Rattle.drf_rows.specs.LimitNumbers.{LimitNumbers};
ghost use Rattle.drf_state.specs.Reading.{HasTakenLine, IsFaultOf, IsReadState, IsStop};
ghost use Rattle.drf_state.specs.Fault.{stopped_at};
ghost use Rattle.drf_state.specs.State.{closing, ended, is_written, rest_says, rows_begun, rows_behind, said_by, state_in};
ghost use Rattle.drf_state.specs.declared.fault.StateError.TheVariants as error;
ghost use Rattle.drf_state.specs.declared.fault.StateFault.TheVariants.{Row};
ghost use Rattle.drf_saved.specs.declared.fault.RowFault.TheVariants.{OutOfOrder};
ghost use Rattle.drf_state.specs.laws.Parts.{parts_of_text};

use crate::digest::digest_of;
use crate::fault::{LineStop, StateError, StateFault};
use crate::restoring::Restoring;
use drf_core::Core;
use drf_hash::HashKey;
use drf_lines::{LineReader, push_end, push_head, push_row};
use drf_rows::Limits;
use drf_saved::{RowFault, StateLine};
use drf_sorter::Sorter;
use memchr::memchr;
use std::alloc::{AllocError, Global};

/// Values that are reused for each line.
#[derive(Drop)]
struct Scratch {
    alloc: Global,
    key: HashKey,
    reader: LineReader,
    written: Vec<u8>,
}

/// Returns whether the line is in normal form. The last line is checked elsewhere.
fn is_written(written: &mut Vec<u8>, line: &[u8], said: &StateLine) -> Result<bool, AllocError>
    ensures { IfOk result (λ yes. yes ≡ is_written line.now said.now) }
{
    written.clear();
    match said {
        StateLine::Head(head) => push_head(written, head)?,
        StateLine::Row(row) => push_row(written, row)?,
        StateLine::End => return Ok(true),
    }
    Ok(line == written.as_slice())
}

/// Returns the content of a line. Fails with an error of lines, or with `NotWritten` if the line is not in normal form.
fn said_by(scratch: &mut Scratch, line: &[u8]) -> Result<StateLine, LineStop>
    ensures { MatchResult result (λ said. said_by line.now ≡ Ok said) (IsStop (said_by line.now)) }
{
    let said = scratch.reader.read_state_line(line)?;
    if !is_written(&mut scratch.written, line, &said)? {
        return Err(LineStop::Fault(StateFault::NotWritten));
    }
    Ok(said)
}

/// Returns whether the line is the right last line after `text`, which has `lines` lines.
fn is_closing(
    scratch: &mut Scratch,
    line: &[u8],
    text: &[u8],
    lines: u64,
) -> Result<bool, AllocError>
    ensures { IfOk result (λ yes. yes ≡ same_text line.now (closing text.now lines)) }
{
    let digest = digest_of(scratch.alloc, text)?;
    let written = &mut scratch.written;
    written.clear();
    push_end(written, lines, digest.as_str())?;
    Ok(line == written.as_slice())
}

/// Creates the allocator from the first line, which must be a head.
fn begin<S: Sorter>(
    scratch: &mut Scratch,
    limits: Limits,
    line: &[u8],
) -> Result<Restoring<S>, LineStop>
    ensures rows { IfOk result (λ restoring. rows_begun limits (said_by line.now) ≡ Ok restoring.rows) }
    ensures limits { IfOk result (λ restoring. restoring.limits ≡ limits) }
    ensures err { IfErr result (IsStop (rows_begun limits (said_by line.now))) }
{
    match said_by(scratch, line)? {
        StateLine::Head(head) => Ok(Restoring::begin(scratch.alloc, limits, scratch.key, head)?),
        StateLine::Row(_) => Err(LineStop::Fault(StateFault::Row(RowFault::OutOfOrder))),
        StateLine::End => Err(LineStop::Fault(StateFault::Row(RowFault::OutOfOrder))),
    }
}

/// Adds the content of a later line to the allocator, and returns whether this is the last line. `text` is everything
/// before it, and has `lines` lines.
fn take_line<S: Sorter>(
    scratch: &mut Scratch,
    restoring: Restoring<S>,
    text: &[u8],
    lines: u64,
    line: &[u8],
) -> Result<(Restoring<S>, bool), LineStop>
    ensures ok { IfOk result (λ taken. HasTakenLine restoring text.now lines line.now taken.0 taken.1) }
    ensures err { IfErr result (IsStop (rows_behind restoring.limits text.now lines restoring.rows line.now (said_by line.now))) }
{
    match said_by(scratch, line)? {
        StateLine::Head(_) => Err(LineStop::Fault(StateFault::Row(RowFault::OutOfOrder))),
        StateLine::Row(row) => Ok((restoring.put(row)?, false)),
        StateLine::End => {
            if !is_closing(scratch, line, text, lines)? {
                return Err(LineStop::Fault(StateFault::BadEnd));
            }
            Ok((restoring, true))
        }
    }
}

/// Returns the index of the first line feed.
fn line_end(bytes: &[u8]) -> Option<usize>
    ensures found { IfSome result (λ at. (at < length bytes.now) × (parts_of_text bytes.now ≡ take at bytes.now ∷ parts_of_text (drop (at + 1) bytes.now))) }
    ensures one { IfSome result (λ at. take (at + 1) bytes.now ≡ ended (take at bytes.now)) }
    ensures none { IfNone result (parts_of_text bytes.now ≡ bytes.now ∷ []) }
{
    memchr(b'\n', bytes)
}

/// Returns the bytes after the first `count` bytes.
fn behind(bytes: &[u8], count: usize) -> &[u8]
    requires { count ≤ length bytes.now }
    ensures { result.now ≡ drop count bytes.now }
{
    &bytes[count..]
}

/// Returns the first `count` bytes.
fn prefix(bytes: &[u8], count: usize) -> &[u8]
    requires { count ≤ length bytes.now }
    ensures { result.now ≡ take count bytes.now }
{
    &bytes[..count]
}

/// Returns the error of a line with this number that is missing or not allowed at its place.
fn out_of_order(number: u64) -> StateError
    ensures { result ≡ error.Line number (Row OutOfOrder) }
{
    StateError::Line {
        number,
        fault: StateFault::Row(RowFault::OutOfOrder),
    }
}

/// Returns the error of reading, given why the line with this number was not taken.
fn stopped_at(number: u64, stop: LineStop) -> StateError
    ensures { result ≡ stopped_at number stop }
{
    match stop {
        LineStop::Fault(fault) => StateError::Line { number, fault },
        LineStop::Memory => StateError::Memory,
    }
}

/// Adds the content of all lines after the first, which has `start` bytes.
fn take_lines<S: Sorter>(
    scratch: &mut Scratch,
    begun: Restoring<S>,
    bytes: &[u8],
    start: usize,
) -> Result<Restoring<S>, StateError>
    requires { (1 ≤ start) × (start ≤ length bytes.now) }
    ensures rows { IfOk result (λ whole. rest_says begun.limits (take start bytes.now) 1 begun.rows (parts_of_text (drop start bytes.now)) ≡ Ok whole.rows) }
    ensures limits { IfOk result (λ whole. whole.limits ≡ begun.limits) }
    ensures err { IfErr result (IsFaultOf (rest_says begun.limits (take start bytes.now) 1 begun.rows (parts_of_text (drop start bytes.now)))) }
{
    let mut restoring = begun;
    let mut read = start;
    let mut lines = 1;
    while let Some(at) = line_end(behind(bytes, read)) {
        let rest = behind(bytes, read);
        let line = prefix(rest, at);
        let text = prefix(bytes, read);
        let (next, is_last) = match take_line(scratch, restoring, text, lines, line) {
            Ok(taken) => taken,
            Err(stop) => return Err(stopped_at(lines + 1, stop)),
        };
        read += at + 1;
        lines += 1;
        if is_last {
            if read < bytes.len() {
                return Err(out_of_order(lines + 1));
            }
            return Ok(next);
        }
        restoring = next;
    }
    Err(out_of_order(lines + 1))
}

/// Reads a state and returns the allocator with exactly its rows. Names are hashed with `key`. Fails with the first
/// wrong line and its first error, or with `Memory` if memory runs out.
pub fn read_state<S: Sorter>(
    alloc: Global,
    limits: Limits,
    key: HashKey,
    bytes: &[u8],
) -> Result<Core<S>, StateError>
    ensures ok { IfOk result (IsReadState limits bytes.now) }
    ensures err { IfErr result (IsFaultOf (state_in limits bytes.now)) }
{
    let mut scratch = Scratch {
        alloc,
        key,
        reader: LineReader::new(alloc),
        written: Vec::new(alloc),
    };
    let Some(at) = line_end(bytes) else {
        return Err(out_of_order(1));
    };
    let begun = match begin::<S>(&mut scratch, limits, prefix(bytes, at)) {
        Ok(begun) => begun,
        Err(stop) => return Err(stopped_at(1, stop)),
    };
    let whole = take_lines(&mut scratch, begun, bytes, at + 1)?;
    let core = whole.end()?;
    Ok(core)
}
