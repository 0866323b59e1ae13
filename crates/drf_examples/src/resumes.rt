//! Tests runs that resume from a saved state. Each example named in `resumes` is cut after every line and saved there. A run of the rest from this
//! state must write the rest of the replies, and must end in the same state as the whole run. Each line of `state_faults` has the expected message
//! about a text that is not a state and, after `|`, the text itself, with a space for each line feed.
use crate::commands::{Done, done_from};
use crate::rows::bytes;
use crate::streams::{NO_BOUNDS, first_lines, print};
use std::alloc::{AllocError, Global};
use std::rt::{Files, Runtime};
use std::sync::Wait;
use std::thread::Threads;
use std::{fs, io};

/// The example of which each byte of the state is changed in turn.
const DAMAGED: &str = "first";

/// Saves the state after these lines.
fn save<R: Files + Threads + Wait + Sync + AllocGlobal>(rt: &R, lines: &[u8]) -> Done {
    done_from(rt, &["drf", "save"], &[], lines, NO_BOUNDS)
}

/// Saves the state after these lines, from a state.
fn save_from<R: Files + Threads + Wait + Sync + AllocGlobal>(
    rt: &R,
    state: &[u8],
    lines: &[u8],
) -> Done {
    let words = ["drf", "save", "--from", "STATE"];
    done_from(rt, &words, state, lines, NO_BOUNDS)
}

/// Replies to these lines, from a state.
fn run_from<R: Files + Threads + Wait + Sync + AllocGlobal>(
    rt: &R,
    state: &[u8],
    lines: &[u8],
) -> Done {
    let words = ["drf", "run", "--from", "STATE"];
    done_from(rt, &words, state, lines, NO_BOUNDS)
}

/// Splits a text after this number of lines.
fn split_after(text: &[u8], lines: usize) -> (&[u8], &[u8]) {
    let prefix = first_lines(text, lines);
    text.split_at_checked(prefix.len()).unwrap_or((text, &[]))
}

/// The lines of an example, the replies to them, and the state after them.
#[derive(Clone, Copy)]
struct Example<'a> {
    input: &'a [u8],
    output: &'a [u8],
    state: &'a [u8],
}

/// Returns whether an example that is cut after this number of lines continues as if it were not cut.
fn is_resumed<R: Files + Threads + Wait + Sync + AllocGlobal>(
    rt: &R,
    example: Example<'_>,
    lines: usize,
) -> bool {
    let (prefix, rest) = split_after(example.input, lines);
    let (_, wanted) = split_after(example.output, lines);
    let state = save(rt, prefix).written;
    let resumed = run_from(rt, &state, rest);
    let saved = save_from(rt, &state, rest);
    resumed.status == 0
        && resumed.written.as_slice() == wanted
        && saved.status == 0
        && saved.written.as_slice() == example.state
}

/// Returns whether this holds for each cut of the example.
fn is_resumed_everywhere<R: Files + Threads + Wait + Sync + AllocGlobal>(
    rt: &R,
    name: &str,
) -> io::Result<bool> {
    let (input, output) = (bytes(rt, name, "in")?, bytes(rt, name, "out")?);
    let whole = save(rt, &input).written;
    let example = Example {
        input: &input,
        output: &output,
        state: &whole,
    };
    let lines = input.iter().filter(|byte| **byte == b'\n').count();
    Ok((0..=lines).all(|cut| is_resumed(rt, example, cut)))
}

/// Returns a text, with a line feed for each space of the line.
fn text_of(alloc: Global, line: &str) -> Result<Vec<u8>, AllocError> {
    let mut text = Vec::new(alloc);
    for byte in line.as_bytes() {
        text.push(if *byte == b' ' { b'\n' } else { *byte })?;
    }
    Ok(text)
}

/// Returns whether a text is refused with this message, and nothing is written.
fn is_reported<R: Files + Threads + Wait + Sync + AllocGlobal>(
    rt: &R,
    state: &[u8],
    fault: &str,
) -> io::Result<bool> {
    let done = run_from(rt, state, &[]);
    let line = format!(in rt.alloc(); "drf: STATE {fault}\n")?;
    Ok(done.status == 3 && done.written.is_empty() && done.reported.as_slice() == line.as_bytes())
}

/// Returns whether this holds for a line of `state_faults`.
fn is_row_reported<R: Files + Threads + Wait + Sync + AllocGlobal>(
    rt: &R,
    row: &str,
) -> io::Result<bool> {
    let Some((fault, line)) = row.split_once('|') else {
        return Ok(false);
    };
    let state = text_of(rt.alloc(), line)?;
    is_reported(rt, &state, fault)
}

/// Returns whether a state is refused if the byte at this place is changed.
fn is_refused<R: Files + Threads + Wait + Sync + AllocGlobal>(
    rt: &R,
    state: &mut [u8],
    place: usize,
) -> bool {
    let Some(byte) = state.get_mut(place) else {
        return false;
    };
    *byte ^= 1;
    let done = run_from(rt, state, &[]);
    if let Some(byte) = state.get_mut(place) {
        *byte ^= 1;
    }
    done.status == 3 && done.written.is_empty()
}

/// Returns whether this holds for each byte of the state.
fn is_refused_everywhere<R: Files + Threads + Wait + Sync + AllocGlobal>(
    rt: &R,
    state: &mut [u8],
) -> bool {
    for place in 0..state.len() {
        if !is_refused(rt, state, place) {
            return false;
        }
    }
    true
}

/// Tests the state with each of its bytes changed.
fn print_damage<R: Runtime + Threads + Wait + Sync + AllocGlobal>(rt: &R) -> io::Result<()> {
    let mut state = bytes(rt, DAMAGED, "state")?;
    let is_exact = is_refused_everywhere(rt, state.as_mut_slice());
    print(rt, "a state with another byte", is_exact)
}

/// Tests each line of `state_faults`.
fn print_faults<R: Runtime + Threads + Wait + Sync + AllocGlobal>(rt: &R) -> io::Result<()> {
    let list = fs::read_to_string(rt, "state_faults")?;
    let (mut faults, mut others) = (0u64, 0u64);
    for row in list.as_str().lines() {
        faults = faults.saturating_add(1);
        if !is_row_reported(rt, row)? {
            println!(rt; "{row}: OTHER")?;
            others = others.saturating_add(1);
        }
    }
    println!(rt; "{faults} texts that are no states, of which {others} are told otherwise")
}

/// Tests each example of `resumes`.
fn print_cuts<R: Runtime + Threads + Wait + Sync + AllocGlobal>(rt: &R) -> io::Result<()> {
    let list = fs::read_to_string(rt, "resumes")?;
    let (mut examples, mut others) = (0u64, 0u64);
    for name in list.as_str().lines() {
        examples = examples.saturating_add(1);
        if !is_resumed_everywhere(rt, name)? {
            println!(rt; "{name} cut: OTHER")?;
            others = others.saturating_add(1);
        }
    }
    println!(rt; "{examples} examples cut behind each line, of which {others} go on otherwise")
}

/// Runs the three tests.
pub fn run_all<R: Runtime + Threads + Wait + Sync + AllocGlobal>(rt: &R) -> io::Result<()> {
    print_cuts(rt)?;
    print_faults(rt)?;
    print_damage(rt)
}
