//! Tests of command lines. Each line of `commands` has six fields, separated by `|`: the stream that fails (or nothing), the exit status, the
//! arguments, the input's file, and what is expected on standard output and standard error. The expected text is its first line, or `@FILE` for the
//! whole text. `?VERDICT` is for a journal whose lines can be in different orders: `check`, from the same state, must give this verdict.
use crate::streams::{Bounds, Full, NO_BOUNDS, Slow};
use drf_app::command;
use drf_hash::HashKey;
use drf_journal::{Device, FileBytes, RunFault, SystemFiles};
use std::alloc::{AllocError, Global};
use std::rt::{Files, Runtime};
use std::sync::Wait;
use std::thread::Threads;
use std::{fs, io};

/// What is expected of a command.
#[derive(Clone, Copy, Drop)]
struct Wanted<'a> {
    failing: &'a str,
    status: u8,
    words: &'a str,
    input: &'a str,
    written: &'a str,
    reported: &'a str,
}

/// Returns the expectation that a line of `commands` states, or `None` if it has another form.
fn wanted_of(row: &str) -> Option<Wanted<'_>> {
    let (failing, rest) = row.split_once('|')?;
    let (status, rest) = rest.split_once('|')?;
    let (words, rest) = rest.split_once('|')?;
    let (input, rest) = rest.split_once('|')?;
    let (written, reported) = rest.split_once('|')?;
    Some(Wanted {
        failing,
        status: status.parse::<u8>().ok()?,
        words,
        input,
        written,
        reported,
    })
}

/// Returns the arguments, after `drf`.
pub fn words_of<'a>(alloc: Global, words: &'a str) -> Result<Vec<&'a str>, AllocError> {
    let mut list = Vec::new(alloc);
    list.push("drf")?;
    for word in words.split_whitespace() {
        list.push(word)?;
    }
    Ok(list)
}

/// Returns the bounds for the stream that fails.
fn bounds_of(failing: &str) -> Bounds {
    let (mut reads, mut writes) = (usize::MAX, usize::MAX);
    if failing == "input" {
        reads = 0;
    }
    if failing == "output" {
        writes = 0;
    }
    Bounds {
        reads,
        writes,
        ..NO_BOUNDS
    }
}

/// Returns whether a text begins with this line.
fn begins_with(text: &[u8], line: &str) -> bool {
    let first = text.split(|byte| *byte == b'\n').next().unwrap_or(&[]);
    first == line.as_bytes()
}

/// Returns the arguments that check a journal, with the `--from` of the arguments that wrote it.
fn check_words<'a>(alloc: Global, words: &[&'a str]) -> Result<Vec<&'a str>, AllocError> {
    let mut list = Vec::new(alloc);
    list.push("drf")?;
    list.push("check")?;
    let mut is_state = false;
    for word in words {
        let is_from = *word == "--from";
        if is_from || is_state {
            list.push(*word)?;
        }
        is_state = is_from;
    }
    Ok(list)
}

/// Returns whether a text is as expected: equal to the file after `@`, a journal with the verdict after `?`, or else beginning with this line.
fn is_text<R: Files + Threads + Wait + Sync + AllocGlobal>(
    rt: &R,
    words: &[&str],
    text: &[u8],
    wanted: &str,
) -> io::Result<bool> {
    if let Some(verdict) = wanted.strip_prefix('?') {
        let words = check_words(rt.alloc(), words)?;
        let checked = done_by(rt, &words, text, NO_BOUNDS);
        return Ok(begins_with(&checked.written, verdict));
    }
    let Some(file) = wanted.strip_prefix('@') else {
        return Ok(begins_with(text, wanted));
    };
    let whole = fs::read(rt, file)?;
    Ok(text == whole.as_slice())
}

/// The files of the system, and a saved state under the name `STATE`.
#[derive(Drop)]
struct WithState<'a, R> {
    rt: &'a R,
    state: &'a [u8],
}

impl<R: Files + AllocGlobal> FileBytes for WithState<'_, R> {
    fn bytes(&mut self, name: &str) -> Result<Vec<u8>, RunFault> {
        if name != "STATE" {
            let mut files = SystemFiles {
                rt: self.rt,
                key: HashKey::known(),
            };
            return files.bytes(name);
        }
        let mut bytes = Vec::new(self.rt.alloc());
        bytes.extend_from_slice(self.state)?;
        Ok(bytes)
    }
}

/// The exit status, standard output and standard error of a command.
#[derive(Drop)]
pub struct Done {
    pub status: u8,
    pub written: Vec<u8>,
    pub reported: Vec<u8>,
}

/// Runs a command with these arguments, with a state under the name `STATE`.
pub fn done_from<R: Files + Threads + Wait + Sync + AllocGlobal>(
    rt: &R,
    words: &[&str],
    state: &[u8],
    input: &[u8],
    bounds: Bounds,
) -> Done {
    let alloc = rt.alloc();
    let mut reader = Device::new(Slow::new(input, bounds));
    let mut writer = Device::new(Full::new(alloc, bounds));
    let mut errors = Device::new(Full::new(alloc, NO_BOUNDS));
    let mut files = WithState { rt, state };
    let status = command(
        rt,
        alloc,
        words,
        &mut files,
        &mut reader,
        &mut writer,
        &mut errors,
    );
    Done {
        status,
        written: writer.into_inner().into_taken(),
        reported: errors.into_inner().into_taken(),
    }
}

/// Runs a command without a state.
fn done_by<R: Files + Threads + Wait + Sync + AllocGlobal>(
    rt: &R,
    words: &[&str],
    input: &[u8],
    bounds: Bounds,
) -> Done {
    done_from(rt, words, &[], input, bounds)
}

/// Returns whether a command did what is expected.
fn is_done<R: Files + Threads + Wait + Sync + AllocGlobal>(
    rt: &R,
    words: &[&str],
    done: &Done,
    wanted: Wanted,
) -> io::Result<bool> {
    let is_written = is_text(rt, words, &done.written, wanted.written)?;
    let is_reported = is_text(rt, words, &done.reported, wanted.reported)?;
    Ok(done.status == wanted.status && is_written && is_reported)
}

/// Returns whether the command of a line of `commands` does what is expected.
fn is_exact<R: Files + Threads + Wait + Sync + AllocGlobal>(rt: &R, row: &str) -> io::Result<bool> {
    let Some(wanted) = wanted_of(row) else {
        return Ok(false);
    };
    let words = words_of(rt.alloc(), wanted.words)?;
    let input = fs::read(rt, wanted.input)?;
    let done = done_by(rt, &words, &input, bounds_of(wanted.failing));
    is_done(rt, &words, &done, wanted)
}

/// Runs all commands and prints those that do something else.
pub fn run_all<R: Runtime + Threads + Wait + Sync + AllocGlobal>(rt: &R) -> io::Result<()> {
    let list = fs::read_to_string(rt, "commands")?;
    let (mut commands, mut others) = (0u64, 0u64);
    for row in list.as_str().lines() {
        commands = commands.saturating_add(1);
        if !is_exact(rt, row)? {
            println!(rt; "{row}: OTHER")?;
            others = others.saturating_add(1);
        }
    }
    println!(rt; "{commands} commands, of which {others} are done otherwise")
}
