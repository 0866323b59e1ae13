//! Answers a line: takes its event and appends its reply.
ghost use Rattle.std.specs.Prelude.{◌≡◌, ◌++◌, IfOk, OnOk, OnErr};
ghost use Rattle.drf_rows.specs.Step.{reply_to};
ghost use Rattle.drf_core.specs.Machine.{live, after};
ghost use Rattle.drf_lines.specs.Meaning.{meaning_of};
ghost use Rattle.drf_lines.specs.Written.{KeepsPrefix};
ghost use Rattle.drf_journal.specs.Output.{echo_of, reply_line_after};
ghost use Rattle.drf_journal.specs.State.{machine_after, answer_to, HasTakenAtMost};

use crate::open_line::{OpenLine, kept_prefix};
use drf_core::Core;
use drf_lines::{LineError, LineReader, push_fault};
use drf_rows::{Event, Reply};
use drf_sorter::Sorter;
use std::alloc::AllocError;

/// Applies an event to the allocator and returns the reply. Fails only if memory runs out, and then changes nothing.
fn take_event<S: Sorter>(core: &mut Core<S>, event: Event) -> Result<Reply, AllocError>
    ensures reported { IfOk result (λ reply. reply ≡ reply_to (live core.old).limits (live core.old).rows event) }
    ensures ok { OnOk result (live core.new ≡ after (live core.old) event) }
    ensures err { OnErr result (live core.new ≡ live core.old) }
{
    core.step(event)
}

/// Takes the event of a line, and appends the reply line to the text.
fn take_line<S: Sorter>(
    reader: &mut LineReader,
    core: &mut Core<S>,
    line: &[u8],
    text: &mut Vec<u8>,
) -> Result<(), AllocError>
    ensures reported { OnOk result (text.new.items ≡ text.old.items
        ++ reply_line_after (live core.old).limits (live core.old).rows (meaning_of line.now)) }
    ensures prefix { KeepsPrefix text.old.items text.new.items }
    ensures ok { OnOk result (live core.new ≡ machine_after (live core.old) (meaning_of line.now)) }
    ensures taken { HasTakenAtMost (live core.old) line.now (live core.new) }
{
    match reader.read(line) {
        Ok(event) => {
            let reply = take_event(core, event)?;
            reader.push_reply(text, &reply)
        }
        Err(LineError::Fault(fault)) => push_fault(text, fault),
        Err(LineError::Memory) => Err(AllocError),
    }
}

/// Appends the line itself, cut to 65,537 bytes, if `echo` is set.
fn push_echo(text: &mut Vec<u8>, echo: bool, line: &[u8]) -> Result<(), AllocError>
    ensures reported { OnOk result (text.new.items ≡ text.old.items ++ echo_of echo line.now) }
    ensures prefix { KeepsPrefix text.old.items text.new.items }
{
    if !echo {
        return Ok(());
    }
    text.extend_from_slice(kept_prefix(line))?;
    text.push(b'\n')?;
    Ok(())
}

/// Takes the event of a line, and appends the text for the line: the line itself if `echo` is set, and the reply line.
/// If memory runs out, a part of the text may have been appended.
fn push_answer<S: Sorter>(
    reader: &mut LineReader,
    core: &mut Core<S>,
    echo: bool,
    line: &[u8],
    text: &mut Vec<u8>,
) -> Result<(), AllocError>
    ensures reported { OnOk result (text.new.items ≡ text.old.items ++ answer_to echo (live core.old) line.now) }
    ensures prefix { KeepsPrefix text.old.items text.new.items }
    ensures ok { OnOk result (live core.new ≡ machine_after (live core.old) (meaning_of line.now)) }
    ensures taken { HasTakenAtMost (live core.old) line.now (live core.new) }
{
    push_echo(text, echo, line)?;
    take_line(reader, core, line, text)
}

/// Takes the event of a line, and appends the whole text for the line, or nothing if memory runs out.
fn answer<S: Sorter>(
    reader: &mut LineReader,
    core: &mut Core<S>,
    echo: bool,
    line: &[u8],
    text: &mut Vec<u8>,
) -> Result<(), AllocError>
    ensures reported { OnOk result (text.new.items ≡ text.old.items ++ answer_to echo (live core.old) line.now) }
    ensures err { OnErr result (text.new.items ≡ text.old.items) }
    ensures ok { OnOk result (live core.new ≡ machine_after (live core.old) (meaning_of line.now)) }
    ensures taken { HasTakenAtMost (live core.old) line.now (live core.new) }
{
    let whole = text.len();
    let reported = push_answer(reader, core, echo, line, text);
    if reported.is_err() {
        text.truncate(whole);
    }
    reported
}

/// Takes the event of the line that consists of `prefix` and `end`, and appends the whole text for the line, or nothing
/// if memory runs out. If `prefix` is empty, the line is read without a copy.
pub fn reply_to_parted_line<S: Sorter>(
    reader: &mut LineReader,
    core: &mut Core<S>,
    echo: bool,
    prefix: &mut OpenLine,
    end: &[u8],
    text: &mut Vec<u8>,
) -> Result<(), AllocError>
    ensures reported { OnOk result (text.new.items ≡ text.old.items ++ answer_to echo (live core.old) (prefix.old ++ end.now)) }
    ensures err { OnErr result (text.new.items ≡ text.old.items) }
    ensures ok { OnOk result (live core.new ≡ machine_after (live core.old) (meaning_of (prefix.old ++ end.now))) }
    ensures taken { HasTakenAtMost (live core.old) (prefix.old ++ end.now) (live core.new) }
{
    if prefix.is_empty() {
        return answer(reader, core, echo, end, text);
    }
    prefix.keep(end)?;
    answer(reader, core, echo, prefix.bytes(), text)
}
