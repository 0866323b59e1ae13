//! An example of a desk without a lock: it answers events, publishes each, and becomes a book again at the end.
ghost use Rattle.std.specs.Prelude.{◌≡◌};
ghost use Rattle.drf_rows.specs.LimitNumbers.{ceilings};
ghost use Rattle.drf_rows.specs.Step.{opening};

use crate::books::append_left;
use crate::lines::{AGENT, CYCLE, FRAMEWORK, append_placed};
use crate::server::{append_sheets, learn};
use anyhow::Result;
use drf_board::{Board, Brand, Naming, Slate, Viewer};
use drf_lines::read_event;
use drf_master::{Book, Desk};
use drf_rows::Limits;
use std::alloc::Global;
use std::sync::Wait;

// Answers an event. The viewer learns the list that the answer has.
fn answer<K: Naming, R: Wait + Drop>(
    alloc: Global,
    told: &mut String,
    desk: &mut Desk<K, R>,
    viewers: &mut [Viewer<K>],
    line: &str,
) -> Result<()> {
    let event = read_event(alloc, line.as_bytes())?;
    let answer = desk.answer(event)?;
    learn(viewers, &answer.told);
    append_placed(alloc, told, answer.place, &answer.reply)
}

// Answers three events. Then the viewer, which has learnt the last list, reads.
fn answer_all<K: Naming, R: Wait + Drop>(
    alloc: Global,
    told: &mut String,
    desk: &mut Desk<K, R>,
    viewers: &mut [Viewer<K>],
) -> Result<()> {
    answer(alloc, told, desk, viewers, AGENT)?;
    answer(alloc, told, desk, viewers, FRAMEWORK)?;
    answer(alloc, told, desk, viewers, CYCLE)?;
    append_sheets(alloc, told, viewers)
}

// Uses a desk, and appends the entries of its book.
fn use_and_end<K: Naming, R: Wait + Drop>(
    alloc: Global,
    told: &mut String,
    mut desk: Desk<K, R>,
    mut viewers: Vec<Viewer<K>>,
) -> Result<()> {
    let used = answer_all(alloc, told, &mut desk, &mut viewers);
    let entries = desk.into_book().into_entries();
    drop(viewers);
    append_left(alloc, told, used, &entries)
}

// Opens a desk and uses it.
fn open_and_use<K: Naming, W: Wait>(
    rt: &W,
    alloc: Global,
    told: &mut String,
    slate: Slate,
) -> Result<()>
    requires named { slate.name ≡ K.slate }
    requires limits { slate.name.limits ≡ ceilings }
    requires start { K.start ≡ opening }
{
    let book = Book::open(alloc, Limits::full())?;
    let first_sheet = book.sheet()?;
    let (board, viewers) = Board::<K, &W>::open(rt, alloc, slate, first_sheet)?;
    use_and_end(alloc, told, Desk::new(book, board), viewers)
}

/// Appends the example of a desk with one viewer that answers three events.
pub fn append_alone<W: Wait>(rt: &W, alloc: Global, told: &mut String) -> Result<()> {
    told.push_str("a desk alone:")?;
    let slate = Slate::open(1, Limits::full())?;
    open_and_use::<Brand, W>(rt, alloc, told, slate)?;
    Ok(told.push('\n')?)
}
