//! Tests of streams that are slow or fail: what has been written when a run ends, and that a reply does not wait for more input.
use crate::rows::bytes;
use drf_core::Core;
use drf_journal::{Device, RunFault, run};
use drf_rows::Limits;
use std::alloc::Global;
use std::cell::Cell;
use std::io;
use std::io::{ErrorKind, Read, Write};
use std::rt::Runtime;

/// The example that is run. Each of its lines has one reply.
const EXAMPLE: &str = "three_agents";

/// A reader that gives at most `most` bytes in a call, and never more than a line. After `calls` calls, one call fails as interrupted; after that it
/// would continue.
#[derive(Drop)]
pub struct Slow<'a> {
    rest: &'a [u8],
    most: usize,
    calls: usize,
}

impl<'a> Slow<'a> {
    /// Returns a reader of these bytes.
    pub fn new(rest: &'a [u8], bounds: Bounds) -> Slow<'a> {
        Slow {
            rest,
            most: bounds.bytes,
            calls: bounds.reads,
        }
    }
}

impl Read for Slow<'_> {
    fn read(&mut self, buf: &mut [u8]) -> io::Result<usize> {
        if self.calls == 0 {
            self.calls = usize::MAX;
            return Err(io::Error::from(ErrorKind::Interrupted));
        }
        self.calls -= 1;
        let line = self.rest.iter().position(|byte| *byte == b'\n');
        let line = line.map_or(self.rest.len(), |end| end.saturating_add(1));
        let count = self.most.min(line).min(self.rest.len()).min(buf.len());
        buf[..count].copy_from_slice(&self.rest[..count]);
        self.rest = &self.rest[count..];
        Ok(count)
    }
}

/// A writer that keeps what is written. After `calls` writes and flushes, one call fails as interrupted; after that it would continue.
#[derive(Drop)]
pub struct Full {
    taken: Vec<u8>,
    calls: usize,
}

impl Full {
    /// Returns a writer to which nothing was written.
    pub fn new(alloc: Global, bounds: Bounds) -> Full {
        Full {
            taken: Vec::new(alloc),
            calls: bounds.writes,
        }
    }

    /// Returns what was written.
    pub fn into_taken(self) -> Vec<u8> {
        let Full { taken, calls: _ } = self;
        taken
    }

    /// Counts a call, and fails if it is the one after the last.
    fn call(&mut self) -> io::Result<()> {
        if self.calls == 0 {
            self.calls = usize::MAX;
            return Err(io::Error::from(ErrorKind::Interrupted));
        }
        self.calls -= 1;
        Ok(())
    }
}

impl Write for Full {
    fn write(&mut self, buf: &[u8]) -> io::Result<usize> {
        self.call()?;
        self.taken.extend_from_slice(buf)?;
        Ok(buf.len())
    }

    fn flush(&mut self) -> io::Result<()> {
        self.call()
    }
}

/// The most bytes that a read gives, and how many reads, and how many writes and flushes, succeed before one fails.
#[derive(Clone, Copy, Drop)]
pub struct Bounds {
    pub bytes: usize,
    pub reads: usize,
    pub writes: usize,
}

/// The bounds of streams that never fail.
pub const NO_BOUNDS: Bounds = Bounds {
    bytes: usize::MAX,
    reads: usize::MAX,
    writes: usize::MAX,
};

/// Returns whether a run with these bounds ends with this error, and has written this output.
fn is_run(
    alloc: Global,
    input: &[u8],
    bounds: Bounds,
    fault: Option<RunFault>,
    output: &[u8],
) -> bool {
    let Ok(core) = Core::open(alloc, Limits::full()) else {
        return false;
    };
    let mut reader = Device::new(Slow::new(input, bounds));
    let mut writer = Device::new(Full::new(alloc, bounds));
    let ended = run(alloc, core, &mut reader, &mut writer, false).err();
    let taken = writer.into_inner().into_taken();
    ended == fault && taken.as_slice() == output
}

/// Returns the first `count` lines of a text.
pub fn first_lines(text: &[u8], count: usize) -> &[u8] {
    let mut left = count;
    let mut end = 0;
    for (i, byte) in text.iter().enumerate() {
        if left == 0 {
            break;
        }
        if *byte == b'\n' {
            left -= 1;
            end = i + 1;
        }
    }
    &text[..end.min(text.len())]
}

/// Returns whether the output does not depend on the sizes of the chunks that are read.
fn pieces_are_exact(alloc: Global, input: &[u8], output: &[u8]) -> bool {
    [1, 2, 7, 64].iter().all(|bytes| {
        let bounds = Bounds {
            bytes: *bytes,
            ..NO_BOUNDS
        };
        is_run(alloc, input, bounds, None, output)
    })
}

/// Returns whether a run whose read fails replies to the lines that were read before, and to no other.
fn failing_reads_are_exact(alloc: Global, input: &[u8], output: &[u8]) -> bool {
    let lines = input.iter().filter(|byte| **byte == b'\n').count();
    (0..=lines).all(|reads| {
        let bounds = Bounds { reads, ..NO_BOUNDS };
        let answered = first_lines(output, reads);
        is_run(alloc, input, bounds, Some(RunFault::Read), answered)
    })
}

/// Returns whether a run whose write or flush fails has written only whole replies. For each line there is one write and one flush.
fn failing_writes_are_exact(alloc: Global, input: &[u8], output: &[u8]) -> bool {
    let lines = input.iter().filter(|byte| **byte == b'\n').count();
    (0..lines.saturating_mul(2)).all(|writes| {
        let bounds = Bounds {
            writes,
            ..NO_BOUNDS
        };
        let answered = first_lines(output, writes.div_ceil(2));
        is_run(alloc, input, bounds, Some(RunFault::Write), answered)
    })
}

/// A reader that gives one line in a call, and records whether a call came before all earlier lines were replied to.
#[derive(Drop)]
struct Asking<'a> {
    slow: Slow<'a>,
    given: usize,
    flushed: &'a Cell<usize>,
    is_late: bool,
}

impl Read for Asking<'_> {
    fn read(&mut self, buf: &mut [u8]) -> io::Result<usize> {
        self.is_late = self.is_late || self.flushed.get() != self.given;
        let count = self.slow.read(buf)?;
        if count > 0 {
            self.given = self.given.wrapping_add(1);
        }
        Ok(count)
    }
}

/// A writer that counts the lines, and publishes their number at each flush.
#[derive(Drop)]
struct Counting<'a> {
    written: usize,
    flushed: &'a Cell<usize>,
}

impl Write for Counting<'_> {
    fn write(&mut self, buf: &[u8]) -> io::Result<usize> {
        let lines = buf.iter().filter(|byte| **byte == b'\n').count();
        self.written = self.written.wrapping_add(lines);
        Ok(buf.len())
    }

    fn flush(&mut self) -> io::Result<()> {
        self.flushed.set(self.written);
        Ok(())
    }
}

/// Returns whether each line is replied to, and the reply flushed, before the next line is read.
fn answers_at_once(alloc: Global, input: &[u8]) -> bool {
    let Ok(core) = Core::open(alloc, Limits::full()) else {
        return false;
    };
    let flushed = Cell::new(0);
    let mut reader = Device::new(Asking {
        slow: Slow::new(input, NO_BOUNDS),
        given: 0,
        flushed: &flushed,
        is_late: false,
    });
    let mut writer = Device::new(Counting {
        written: 0,
        flushed: &flushed,
    });
    let is_done = run(alloc, core, &mut reader, &mut writer, false).is_ok();
    is_done && !reader.into_inner().is_late
}

/// Prints whether something is as expected.
pub fn print(rt: &impl Print, what: &str, is_exact: bool) -> io::Result<()> {
    let verdict = if is_exact { "exact" } else { "OTHER" };
    println!(rt; "{what}: {verdict}")
}

/// Runs all tests on an example.
fn print_all<R: Runtime + AllocGlobal>(rt: &R, input: &[u8], output: &[u8]) -> io::Result<()> {
    let alloc = rt.alloc();
    print(
        rt,
        "pieces of some bytes",
        pieces_are_exact(alloc, input, output),
    )?;
    print(
        rt,
        "reads that fail",
        failing_reads_are_exact(alloc, input, output),
    )?;
    print(
        rt,
        "writes that fail",
        failing_writes_are_exact(alloc, input, output),
    )?;
    print(
        rt,
        "answers before the next read",
        answers_at_once(alloc, input),
    )
}

/// Runs the tests.
pub fn run_all<R: Runtime + AllocGlobal>(rt: &R) -> io::Result<()> {
    let (input, output) = (bytes(rt, EXAMPLE, "in")?, bytes(rt, EXAMPLE, "out")?);
    print_all(rt, &input, &output)
}
