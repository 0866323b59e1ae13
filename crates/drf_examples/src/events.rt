//! Takes the events of a day in one call of the core, and prints facts about its rows and its report.
use crate::streams::print;
use drf_core::Core;
use drf_lines::{LineError, read_event, write_reply};
use drf_rows::{Event, Limits, Reply, Report, Rows};
use drf_sorter::{PlainSorter, Sorter};
use std::alloc::{AllocError, Global};
use std::rt::{Files, Runtime};
use std::{fs, io};

/// Appends the event of a line.
fn add_event(alloc: Global, events: &mut Vec<Event>, line: &str) -> Result<(), LineError> {
    Ok(events.push(read_event(alloc, line.as_bytes())?)?)
}

/// Returns the events of lines, or the error of the first line that is not an event.
pub fn events_of(alloc: Global, lines: &str) -> Result<Vec<Event>, LineError> {
    let mut events = Vec::new(alloc);
    for line in lines.lines() {
        add_event(alloc, &mut events, line)?;
    }
    Ok(events)
}

/// Appends the line of a reply.
fn add_reply(alloc: Global, text: &mut Vec<u8>, reply: &Reply) -> Result<(), AllocError> {
    let line = write_reply(alloc, reply)?;
    text.extend_from_slice(line.as_slice())
}

/// Appends the lines of replies.
fn add_replies(alloc: Global, text: &mut Vec<u8>, replies: &[Reply]) -> Result<(), AllocError> {
    for reply in replies {
        add_reply(alloc, text, reply)?;
    }
    Ok(())
}

/// Appends the lines of the replies to events, all of which the core takes in one call.
fn add_answers<S: Sorter>(
    alloc: Global,
    core: &mut Core<S>,
    events: &[Event],
    text: &mut Vec<u8>,
) -> Result<(), AllocError> {
    let mut replies = Vec::new(alloc);
    core.run(events, &mut replies)?;
    add_replies(alloc, text, &replies)
}

/// Returns whether the replies to the events are these bytes.
fn is_answered<S: Sorter>(
    alloc: Global,
    core: &mut Core<S>,
    events: &[Event],
    output: &[u8],
) -> bool {
    let mut reported = Vec::new(alloc);
    let is_done = add_answers(alloc, core, events, &mut reported).is_ok();
    is_done && reported.as_slice() == output
}

/// Returns whether the replies to these lines, each of which must be an event, are these bytes.
fn answers<S: Sorter>(alloc: Global, core: &mut Core<S>, lines: &str, output: &[u8]) -> bool {
    match events_of(alloc, lines) {
        Ok(events) => is_answered(alloc, core, &events, output),
        Err(_) => false,
    }
}

/// Returns whether the replies to the day's events are as expected.
fn is_exact<S: Sorter, R: Files + AllocGlobal>(rt: &R, core: &mut Core<S>) -> io::Result<bool> {
    let (lines, output) = (fs::read_to_string(rt, "day.in")?, fs::read(rt, "day.out")?);
    Ok(answers(rt.alloc(), core, lines.as_str(), &output))
}

/// Prints the number of rows of each kind, the clock, and the number of accepted events.
fn print_rows(rt: &impl Print, rows: &Rows) -> io::Result<()> {
    let (agents, frameworks) = (rows.agents.len(), rows.frameworks.len());
    let (offers, tasks, filters) = (rows.offers.len(), rows.tasks.len(), rows.filters.len());
    let (clock, events) = (rows.clock, rows.events);
    println!(rt;
        "rows: {agents} agents, {frameworks} frameworks, {offers} offers, {tasks} tasks, {filters} filters, clock {clock}, {events} events"
    )
}

/// Prints the same of a copy of the rows.
fn print_copied_rows<S: Sorter, R: Runtime + AllocGlobal>(
    rt: &R,
    core: &Core<S>,
) -> io::Result<()> {
    let rows = core.rows()?.copy()?;
    print_rows(rt, &rows)
}

/// Prints the numbers of nodes of a report and of its copy, and the count of the first node.
fn print_report(rt: &impl Print, report: &Report, copy: &Report) -> io::Result<()> {
    let offers = copy.nodes.as_slice().first().map_or(0, |node| node.count);
    let (nodes, copied) = (report.nodes.len(), copy.nodes.len());
    println!(rt; "report: {nodes} nodes, {copied} in a copy, {offers} offers to the first")
}

/// Prints the facts about the report and its copy.
fn print_copied_report<S: Sorter, R: Runtime + AllocGlobal>(
    rt: &R,
    core: &Core<S>,
) -> io::Result<()> {
    let report = core.report()?;
    let copy = report.copy()?;
    print_report(rt, &report, &copy)
}

/// Takes the events of the day, and prints the facts.
fn print_all<S: Sorter, R: Runtime + AllocGlobal>(rt: &R, core: &mut Core<S>) -> io::Result<()> {
    let is_exact = is_exact(rt, core)?;
    print(rt, "a day at once", is_exact)?;
    print_copied_rows(rt, core)?;
    print_copied_report(rt, core)
}

/// Runs the test.
pub fn run_all<R: Runtime + AllocGlobal>(rt: &R) -> io::Result<()> {
    let mut core = Core::<PlainSorter>::open(rt.alloc(), Limits::full())?;
    print_all(rt, &mut core)
}
