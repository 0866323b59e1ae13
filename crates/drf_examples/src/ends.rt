//! Tests of the capacities. A line of `ends` without a space is the name of a run, which starts with a new core with full limits. Every other line is
//! `COUNT EXPECTED EVENT`. The event is taken COUNT times, with each `#` in it replaced by the number of the repetition, from 0, or from N if COUNT
//! is `COUNT@N`. EXPECTED is the expected reply to each: `ok`, the name of a refusal, or the number of offers that a cycle makes.
use drf_core::Core;
use drf_lines::read_event;
use drf_rows::{Limits, Reply};
use drf_sorter::Sorter;
use drf_tree::TreeSorter;
use std::alloc::Global;
use std::rt::Runtime;
use std::{fs, io};

/// An event that is taken several times, each time with another number, and the expected reply.
#[derive(Clone, Copy, Drop)]
struct Row<'a> {
    first: u64,
    count: u64,
    wanted: &'a str,
    event: &'a str,
}

/// Returns the row that a line states, or `None` if it has another form.
fn row_of(line: &str) -> Option<Row<'_>> {
    let (times, rest) = line.split_once(' ')?;
    let (wanted, event) = rest.split_once(' ')?;
    let (count, first) = times.split_once('@').unwrap_or((times, "0"));
    Some(Row {
        first: first.parse::<u64>().ok()?,
        count: count.parse::<u64>().ok()?,
        wanted,
        event,
    })
}

/// Returns whether a reply is as expected.
fn is_wanted(reply: &Reply, wanted: &str) -> bool {
    match reply {
        Reply::Done => wanted == "ok",
        Reply::Offers(offers) => wanted.parse::<usize>().ok() == Some(offers.len()),
        Reply::Report(_) => false,
        Reply::Refused(refusal) => wanted == refusal.name(),
    }
}

/// Returns whether a line is an event, and its reply is as expected.
fn is_answered<S: Sorter>(
    alloc: Global,
    core: &mut Core<S>,
    line: &str,
    wanted: &str,
) -> io::Result<bool> {
    let Ok(event) = read_event(alloc, line.as_bytes()) else {
        return Ok(false);
    };
    let reply = core.step(event)?;
    Ok(is_wanted(&reply, wanted))
}

/// Returns whether the reply to a row's event with this number is as expected.
fn is_row_answered<S: Sorter>(
    alloc: Global,
    core: &mut Core<S>,
    row: Row,
    number: u64,
) -> io::Result<bool> {
    let number = format!(in alloc; "{number}")?;
    let line = row.event.replace(alloc, '#', number.as_str())?;
    is_answered(alloc, core, line.as_str(), row.wanted)
}

/// Returns how many events of a row have an unexpected reply.
fn others_in<S: Sorter>(alloc: Global, core: &mut Core<S>, row: Row) -> io::Result<u64> {
    let mut others = 0u64;
    for number in row.first..row.first.saturating_add(row.count) {
        if !is_row_answered(alloc, core, row, number)? {
            others = others.saturating_add(1);
        }
    }
    Ok(others)
}

/// Returns how many events a line has, and how many of them have an unexpected reply. A line of another form counts as one such event.
fn counts_of<S: Sorter>(alloc: Global, core: &mut Core<S>, line: &str) -> io::Result<(u64, u64)> {
    match row_of(line) {
        Some(row) => Ok((row.count, others_in(alloc, core, row)?)),
        None => Ok((1, 1)),
    }
}

/// Does what `counts_of` does, and prints the line if a reply is unexpected.
fn take_line<S: Sorter, R: Runtime + AllocGlobal>(
    rt: &R,
    core: &mut Core<S>,
    line: &str,
) -> io::Result<(u64, u64)> {
    let (events, others) = counts_of(rt.alloc(), core, line)?;
    if others > 0 {
        println!(rt; "{line}: OTHER")?;
    }
    Ok((events, others))
}

/// Returns whether a line is the name of a run.
fn is_name(line: &str) -> bool {
    !line.contains(' ')
}

/// Takes the lines of the run with this name, and prints the result.
fn print_run<S: Sorter, R: Runtime + AllocGlobal>(
    rt: &R,
    core: &mut Core<S>,
    list: &str,
    name: &str,
) -> io::Result<()> {
    let (mut events, mut others) = (0u64, 0u64);
    let mut is_inside = false;
    for line in list.lines() {
        if is_name(line) {
            is_inside = line == name;
        } else if is_inside {
            let (taken, otherwise) = take_line(rt, core, line)?;
            events = events.saturating_add(taken);
            others = others.saturating_add(otherwise);
        }
    }
    println!(rt; "ends {name}: {events} events, of which {others} are answered otherwise")
}

/// Takes the lines of a run with a new core.
fn print_new_run<S: Sorter, R: Runtime + AllocGlobal>(
    rt: &R,
    list: &str,
    name: &str,
) -> io::Result<()> {
    let mut core = Core::<S>::open(rt.alloc(), Limits::full())?;
    print_run(rt, &mut core, list, name)
}

/// Runs all runs of `ends`.
pub fn run_all<R: Runtime + AllocGlobal>(rt: &R) -> io::Result<()> {
    let list = fs::read_to_string(rt, "ends")?;
    for line in list.as_str().lines() {
        if is_name(line) {
            print_new_run::<TreeSorter, R>(rt, list.as_str(), line)?;
        }
    }
    Ok(())
}
