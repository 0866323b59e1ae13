//! Tests how many sort keys a sorter computes. Each line of `keys` names an example, followed by parts such as `2:7`: the next 2 events compute 7
//! keys. A client has a node for each prefix of its path: `a`, `a/.` and `a/./f1`. A key is computed for each node that is added, and at an agent's
//! turn for each dirty node. If the total changed, the dirty nodes are those whose clients hold something; otherwise they are those on the paths to
//! clients that were offered something, returned something or left.
use crate::events::events_of;
use drf_core::Core;
use drf_rows::{Event, Limits};
use drf_sorter::Sorter;
use drf_tree::TreeSorter;
use std::alloc::{AllocError, Global};
use std::rt::{Files, Runtime};
use std::{fs, io};

/// Returns the lines of an example.
fn lines_of<R: Files + AllocGlobal>(rt: &R, name: &str) -> io::Result<String> {
    let path = format!(in rt.alloc(); "{name}.in")?;
    fs::read_to_string(rt, path.as_str())
}

/// Returns how many keys are computed while the core takes these events.
fn keys_for<S: Sorter>(
    alloc: Global,
    core: &mut Core<S>,
    events: &[Event],
) -> Result<u64, AllocError> {
    let before = core.sorter().keys_made();
    let mut replies = Vec::new(alloc);
    core.run(events, &mut replies)?;
    // If the count decreased, the result would be very large.
    Ok(core.sorter().keys_made().wrapping_sub(before))
}

/// Takes events, and prints whether they compute the expected number of keys.
fn print_keys<S: Sorter, R: Runtime + AllocGlobal>(
    rt: &R,
    core: &mut Core<S>,
    events: &[Event],
    keys: u64,
) -> io::Result<()> {
    let made = keys_for(rt.alloc(), core, events)?;
    let verdict = if made == keys { "exact" } else { "OTHER" };
    println!(rt; "events {}, keys {made}: {verdict}", events.len())
}

/// Returns the events of a part, the expected number of keys, and the events after the part.
fn part_of<'a>(events: &'a [Event], part: &str) -> Option<(&'a [Event], u64, &'a [Event])> {
    let (count, keys) = part.split_once(':')?;
    let (next, later) = events.split_at_checked(count.parse::<usize>().ok()?)?;
    Some((next, keys.parse::<u64>().ok()?, later))
}

/// Does so for each part.
fn print_parts<S: Sorter, R: Runtime + AllocGlobal>(
    rt: &R,
    core: &mut Core<S>,
    events: &[Event],
    parts: &str,
) -> io::Result<()> {
    let mut events = events;
    for part in parts.split(' ') {
        let Some((next, keys, later)) = part_of(events, part) else {
            return println!(rt; "{part}: OTHER");
        };
        print_keys(rt, core, next, keys)?;
        events = later;
    }
    Ok(())
}

/// Does so with a new core.
fn print_events<S: Sorter, R: Runtime + AllocGlobal>(
    rt: &R,
    events: &[Event],
    parts: &str,
) -> io::Result<()> {
    let mut core = Core::<S>::open(rt.alloc(), Limits::full())?;
    print_parts(rt, &mut core, events, parts)
}

/// Does so for the example of a line of `keys`.
fn print_example<S: Sorter, R: Runtime + AllocGlobal>(rt: &R, row: &str) -> io::Result<()> {
    let (name, parts) = row.split_once(' ').unwrap_or((row, ""));
    let lines = lines_of(rt, name)?;
    match events_of(rt.alloc(), lines.as_str()) {
        Ok(events) => print_events::<S, R>(rt, &events, parts),
        Err(_) => println!(rt; "{row}: OTHER"),
    }
}

/// Runs the test for each line of `keys`.
pub fn run_all<R: Runtime + AllocGlobal>(rt: &R) -> io::Result<()> {
    let list = fs::read_to_string(rt, "keys")?;
    for row in list.as_str().lines() {
        println!(rt; "{row}")?;
        print_example::<TreeSorter, R>(rt, row)?;
    }
    Ok(())
}
