//! Examples of books without a master. A function that owns a book makes one call and then takes the book's entries, so that the long proof of
//! dropping the book is needed for few exits.
use crate::closing::keep_passes;
use crate::lines::{
    AGENT, CYCLE, FRAMEWORK, LIMIT, NO_LIMIT, OTHER_AGENT, append_entries, append_placed,
};
use anyhow::{Context, Result};
use drf_board::{Brand, Entry};
use drf_lines::read_event;
use drf_master::{Book, MasterSorter, Pass};
use drf_rows::Limits;
use std::alloc::Global;
use std::fmt::Write;
use std::sync::Wait;
use std::thread::Threads;

/// How a book takes events: ten in different ways, or those of lines, each in one step.
#[derive(Clone, Copy)]
enum Taking<'a> {
    AllWays,
    OneStep(&'a [&'a str]),
}

// Takes an event in one step.
fn take(
    alloc: Global,
    told: &mut String,
    book: &mut Book<Brand, MasterSorter>,
    line: &str,
) -> Result<()> {
    let event = read_event(alloc, line.as_bytes())?;
    let (reply, place) = book.take(event)?;
    append_placed(alloc, told, place, &reply)
}

// Prepares an event and settles it.
fn settle(
    alloc: Global,
    told: &mut String,
    book: &mut Book<Brand, MasterSorter>,
    line: &str,
) -> Result<()> {
    let event = read_event(alloc, line.as_bytes())?;
    let next = book.prepare(event)?;
    let place = book.settle(next);
    append_last(alloc, told, place, book.entries())
}

// Appends the last reply and its place.
fn append_last(alloc: Global, told: &mut String, place: u64, entries: &[Entry]) -> Result<()> {
    let last = entries.last().context("no entry")?;
    append_placed(alloc, told, place, &last.reply)
}

// Prepares an event and drops it, so the journal is unchanged.
fn give_up(
    alloc: Global,
    told: &mut String,
    book: &mut Book<Brand, MasterSorter>,
    line: &str,
) -> Result<()> {
    let event = read_event(alloc, line.as_bytes())?;
    let next = book.prepare(event)?;
    drop(next);
    Ok(write!(told, " one given up, {} entries;", book.len())?)
}

// Takes the events of lines, each in one step.
fn take_each(
    alloc: Global,
    told: &mut String,
    book: &mut Book<Brand, MasterSorter>,
    lines: &[&str],
) -> Result<()> {
    for line in lines {
        take(alloc, told, book, line)?;
    }
    Ok(())
}

// Takes events in each way, after each other way.
fn take_all(alloc: Global, told: &mut String, book: &mut Book<Brand, MasterSorter>) -> Result<()> {
    settle(alloc, told, book, AGENT)?;
    take(alloc, told, book, FRAMEWORK)?;
    give_up(alloc, told, book, CYCLE)?;
    take(alloc, told, book, CYCLE)?;
    settle(alloc, told, book, OTHER_AGENT)
}

// Sets a limit, removes it and sets it again. After a prepared event is dropped, the second core is a copy that shares the limits with the first.
fn limit_all(alloc: Global, told: &mut String, book: &mut Book<Brand, MasterSorter>) -> Result<()> {
    settle(alloc, told, book, LIMIT)?;
    give_up(alloc, told, book, CYCLE)?;
    settle(alloc, told, book, NO_LIMIT)?;
    settle(alloc, told, book, LIMIT)?;
    settle(alloc, told, book, CYCLE)?;
    give_up(alloc, told, book, CYCLE)?;
    settle(alloc, told, book, NO_LIMIT)?;
    settle(alloc, told, book, CYCLE)
}

// Takes events as `taking` says.
fn fill(
    alloc: Global,
    told: &mut String,
    book: &mut Book<Brand, MasterSorter>,
    taking: Taking<'_>,
) -> Result<()> {
    match taking {
        Taking::AllWays => {
            take_all(alloc, told, book)?;
            limit_all(alloc, told, book)
        }
        Taking::OneStep(lines) => take_each(alloc, told, book, lines),
    }
}

// Appends the result of matching the book with passes.
fn append_match(
    told: &mut String,
    name: &str,
    book: &Book<Brand, MasterSorter>,
    passes: &[Pass],
) -> Result<()> {
    let matched = book.matches(passes);
    Ok(write!(told, " {name}: {matched:?};")?)
}

// Matches the book with no passes, before the first event and after the last, and then with passes of the same calls and of others.
fn use_book(
    alloc: Global,
    told: &mut String,
    book: &mut Book<Brand, MasterSorter>,
    taking: Taking<'_>,
    same: &[Pass],
    others: &[Pass],
) -> Result<()> {
    append_match(told, "no pass", book, &[])?;
    fill(alloc, told, book, taking)?;
    append_match(told, "no pass", book, &[])?;
    append_match(told, "passes of the same calls", book, same)?;
    append_match(told, "passes of others", book, others)
}

/// Appends the entries of a book, or returns the error of its use.
pub fn append_left(
    alloc: Global,
    told: &mut String,
    used: Result<()>,
    entries: &[Entry],
) -> Result<()> {
    used?;
    append_entries(alloc, told, entries)
}

// Uses a book, and appends its entries.
fn use_and_end(
    alloc: Global,
    told: &mut String,
    taking: Taking<'_>,
    same: &[Pass],
    others: &[Pass],
    mut book: Book<Brand, MasterSorter>,
) -> Result<()> {
    let used = use_book(alloc, told, &mut book, taking, same, others);
    let entries = book.into_entries();
    append_left(alloc, told, used, &entries)
}

// Opens a book, uses it, and appends its entries.
fn open_and_use(
    alloc: Global,
    told: &mut String,
    taking: Taking<'_>,
    same: &[Pass],
    others: &[Pass],
) -> Result<()> {
    let book = Book::open(alloc, Limits::full())?;
    use_and_end(alloc, told, taking, same, others, book)
}

// Matches a book with the passes of a master that took the same events, and of one that took two of them in the other order.
fn append_compared<W: Threads + Wait + Sync>(
    rt: &W,
    alloc: Global,
    told: &mut String,
    taking: Taking<'_>,
    lines: &[&str],
    turned: &[&str],
    same: &mut Vec<Pass>,
    others: &mut Vec<Pass>,
) -> Result<()> {
    keep_passes(rt, alloc, 1, lines, same)?;
    keep_passes(rt, alloc, 1, turned, others)?;
    open_and_use(alloc, told, taking, same, others)?;
    Ok(told.push('\n')?)
}

// Does so with passes of two new masters.
fn append_book<W: Threads + Wait + Sync>(
    rt: &W,
    alloc: Global,
    told: &mut String,
    taking: Taking<'_>,
    lines: &[&str],
    turned: &[&str],
) -> Result<()> {
    let mut same = Vec::new(alloc);
    let mut others = Vec::new(alloc);
    append_compared(
        rt,
        alloc,
        told,
        taking,
        lines,
        turned,
        &mut same,
        &mut others,
    )
}

// Takes two events in one step each, and prepares and settles eight; three more prepared events are dropped.
fn append_ten<W: Threads + Wait + Sync>(rt: &W, alloc: Global, told: &mut String) -> Result<()> {
    told.push_str("a book alone:")?;
    let lines = [
        AGENT,
        FRAMEWORK,
        CYCLE,
        OTHER_AGENT,
        LIMIT,
        NO_LIMIT,
        LIMIT,
        CYCLE,
        NO_LIMIT,
        CYCLE,
    ];
    let turned = [
        AGENT,
        CYCLE,
        FRAMEWORK,
        OTHER_AGENT,
        LIMIT,
        NO_LIMIT,
        LIMIT,
        CYCLE,
        NO_LIMIT,
        CYCLE,
    ];
    append_book(rt, alloc, told, Taking::AllWays, &lines, &turned)
}

/// Appends the example of a book that takes ten events in different ways, and of one that takes three in one step each.
pub fn append_alone<W: Threads + Wait + Sync>(
    rt: &W,
    alloc: Global,
    told: &mut String,
) -> Result<()> {
    append_ten(rt, alloc, told)?;
    told.push_str("a book that takes each event in one step:")?;
    let (lines, turned) = ([AGENT, FRAMEWORK, CYCLE], [AGENT, CYCLE, FRAMEWORK]);
    append_book(rt, alloc, told, Taking::OneStep(&lines), &lines, &turned)
}
