//! Tests of commands whose input, state or output is too large to be stored, or needs a state of its own. A test in `generated` begins with a line
//! `$ NAME STATUS WORDS`, with the exit status and the arguments. After it come lines `MARK COUNT TEXT`: the text is appended COUNT times, with each
//! `#` in it replaced by the number of the repetition, from 0. The mark says to what: `<` to the input, `=` to the state under the name `STATE`, `>` to
//! the expected output, and `!` to the expected messages, each time with a line feed; `+` to the expected output, without one.
use crate::commands::{Done, done_from, words_of};
use crate::streams::NO_BOUNDS;
use std::alloc::{AllocError, Global};
use std::rt::Runtime;
use std::sync::Wait;
use std::thread::Threads;
use std::{fs, io};

/// The state and the input of a command, and what is expected of it.
#[derive(Drop)]
struct Test {
    state: Vec<u8>,
    input: Vec<u8>,
    written: Vec<u8>,
    reported: Vec<u8>,
}

/// A text that is appended several times.
#[derive(Clone, Copy, Drop)]
struct Part<'a> {
    mark: &'a str,
    count: u64,
    text: &'a str,
}

/// Returns the part that a line states, or `None` if it has another form.
fn part_of(line: &str) -> Option<Part<'_>> {
    let (mark, rest) = line.split_once(' ')?;
    let (count, text) = rest.split_once(' ')?;
    Some(Part {
        mark,
        count: count.parse::<u64>().ok()?,
        text,
    })
}

/// Returns the name, the exit status and the arguments that the first line of a test states, or `None` if the line is not such a line.
fn head_of(line: &str) -> Option<(&str, u8, &str)> {
    let rest = line.strip_prefix("$ ")?;
    let (name, rest) = rest.split_once(' ')?;
    let (status, words) = rest.split_once(' ')?;
    Some((name, status.parse::<u8>().ok()?, words))
}

/// Appends the text of a part, with its number, and a line feed if it is a line.
fn add_once(
    alloc: Global,
    text: &mut Vec<u8>,
    part: Part<'_>,
    number: u64,
) -> Result<(), AllocError> {
    let number = format!(in alloc; "{number}")?;
    let once = part.text.replace(alloc, '#', number.as_str())?;
    text.extend_from_slice(once.as_bytes())?;
    if part.mark != "+" {
        text.push(b'\n')?;
    }
    Ok(())
}

/// Appends a part as often as it says.
fn add_part(alloc: Global, text: &mut Vec<u8>, part: Part<'_>) -> Result<(), AllocError> {
    for number in 0..part.count {
        add_once(alloc, text, part, number)?;
    }
    Ok(())
}

impl Test {
    /// Returns a test without any text.
    fn new(alloc: Global) -> Test {
        Test {
            state: Vec::new(alloc),
            input: Vec::new(alloc),
            written: Vec::new(alloc),
            reported: Vec::new(alloc),
        }
    }

    /// Adds a part to the text that its mark names. Returns whether the mark is known.
    fn add(&mut self, alloc: Global, part: Part<'_>) -> Result<bool, AllocError> {
        match part.mark {
            "<" => add_part(alloc, &mut self.input, part)?,
            "=" => add_part(alloc, &mut self.state, part)?,
            ">" | "+" => add_part(alloc, &mut self.written, part)?,
            "!" => add_part(alloc, &mut self.reported, part)?,
            _ => return Ok(false),
        }
        Ok(true)
    }

    /// Returns whether a command with this exit status did what is expected.
    fn is_done(&self, done: &Done, status: u8) -> bool {
        done.status == status
            && done.written.as_slice() == self.written.as_slice()
            && done.reported.as_slice() == self.reported.as_slice()
    }
}

/// Returns the test with this first line, or `None` if one of its lines has another form.
fn test_of(alloc: Global, list: &str, head: &str) -> Result<Option<Test>, AllocError> {
    let mut test = Test::new(alloc);
    let mut is_inside = false;
    for line in list.lines() {
        if line.starts_with("$ ") {
            is_inside = line == head;
        } else if is_inside {
            let Some(part) = part_of(line) else {
                return Ok(None);
            };
            if !test.add(alloc, part)? {
                return Ok(None);
            }
        }
    }
    Ok(Some(test))
}

/// Returns whether the command of the test with this first line does what is expected.
fn is_exact<R: Runtime + Threads + Wait + Sync + AllocGlobal>(
    rt: &R,
    list: &str,
    head: &str,
) -> io::Result<bool> {
    let alloc = rt.alloc();
    let Some((_name, status, words)) = head_of(head) else {
        return Ok(false);
    };
    let Some(test) = test_of(alloc, list, head)? else {
        return Ok(false);
    };
    let words = words_of(alloc, words)?;
    let done = done_from(rt, &words, &test.state, &test.input, NO_BOUNDS);
    Ok(test.is_done(&done, status))
}

/// Runs all tests, and prints those whose command does something else.
pub fn run_all<R: Runtime + Threads + Wait + Sync + AllocGlobal>(rt: &R) -> io::Result<()> {
    let list = fs::read_to_string(rt, "generated")?;
    let (mut tests, mut others) = (0u64, 0u64);
    for line in list.as_str().lines() {
        if line.starts_with("$ ") {
            tests = tests.saturating_add(1);
            if !is_exact(rt, list.as_str(), line)? {
                println!(rt; "{line}: OTHER")?;
                others = others.saturating_add(1);
            }
        }
    }
    println!(rt; "{tests} generated commands, of which {others} are done otherwise")
}
