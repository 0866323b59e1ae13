//! Reads lines as events or as rows of a state.
ghost use Rattle.std.specs.Prelude.{◌≡◌, ◌≤◌, ◌++◌, [], length, Some, None, IsErrOf, IfOk, IfErr, OnOk};
ghost use Rattle.std.specs.Option.{ok_or};
ghost use Rattle.std.specs.Str.{IsUtf8};
ghost use Rattle.json.specs.Json.{value};
ghost use Rattle.json.specs.Lex.{tokens};
ghost use Rattle.json.specs.Value.{value_view};
ghost use Rattle.serde_json.specs.Read.{read};
ghost use Rattle.drf_lines.specs.declared.fault.LineFault.TheVariants.{NotJson};
ghost use Rattle.drf_lines.specs.Fault.{IsReadAs, IsReadOf};
ghost use Rattle.drf_lines.specs.LineValue.{line_view, IsRefused};
ghost use Rattle.drf_lines.specs.Meaning.{value_in, cycle_event, report_event, event_in, meaning_of, longest_line};
ghost use Rattle.drf_lines.specs.ReplyLine.{reply_line};
ghost use Rattle.drf_lines.specs.StateMeaning.{state_line_meaning};
ghost use Rattle.drf_lines.specs.Written.{KeepsPrefix};

use crate::agents::{read_its_agent, read_its_total};
use crate::fault::{LineError, LineFault};
use crate::frameworks::{read_its_client, read_its_framework, read_its_roles};
use crate::last_report::LastReport;
use crate::limits::read_its_limit;
use crate::object::{LineValue, keys, number_at, text_at};
use crate::offers::{read_accept, read_decline, read_finish, read_rescind};
use crate::range::is_in_range;
use crate::reply::push_reply_after;
use crate::reservations::read_its_reservation;
use crate::state_line::read_state_object;
use crate::usual::{MOST_DEPTH, usual_value};
use crate::weights::read_its_weight;
use crate::words::KnownWords;
use bumpalo::Bump;
use drf_rows::{Event, Reply};
use drf_saved::StateLine;
use json::{Error, Reader, Scratch, Value};
use std::alloc::{AllocError, Global};

/// Reads the next JSON value of a reader.
fn next_value<'a>(arena: &'a Bump, reader: &mut Reader<'a>) -> Result<LineValue<'a>, LineError>
    ensures ok { IfOk result (λ found. value 127 reader.old ≡ Some (value_view found, reader.new)) }
    ensures err { IfErr result (λ error. IsRefused error (value 127 reader.old ≡ None)) }
{
    match Value::read(arena, reader, MOST_DEPTH) {
        Ok(value) => Ok(value),
        Err(Error::Invalid) => Err(LineError::Fault(LineFault::NotJson)),
        Err(_) => Err(LineError::Memory),
    }
}

/// Reads a text as a JSON value, in any form. Strings with escapes are decoded into the scratch space.
fn any_value<'a>(
    arena: &'a Bump,
    scratch: &'a mut Scratch,
    text: &'a str,
) -> Result<LineValue<'a>, LineError>
    ensures ok { IfOk result (λ found. value 127 (tokens text.now) ≡ Some (value_view found, [])) }
    ensures err { IfErr result (λ error. IsRefused error (read text.now ≡ None)) }
{
    let mut reader = Reader::new(text, scratch)?;
    let value = next_value(arena, &mut reader)?;
    if reader.next().is_some() {
        return Err(LineError::Fault(LineFault::NotJson));
    }
    Ok(value)
}

/// Reads a text as a JSON value, in any form. Fails with `NotJson` if a number is not in the range of a double.
fn value_in_range<'a>(
    arena: &'a Bump,
    scratch: &'a mut Scratch,
    text: &'a str,
) -> Result<LineValue<'a>, LineError>
    ensures { IsReadAs line_view result (ok_or (read text.now) NotJson) }
{
    let value = any_value(arena, scratch, text)?;
    if !is_in_range(&value) {
        return Err(LineError::Fault(LineFault::NotJson));
    }
    Ok(value)
}

/// Reads a text as a JSON value whose numbers are in the range of a double. Most texts take the fast path.
fn text_value<'a>(
    arena: &'a Bump,
    scratch: &'a mut Scratch,
    text: &'a str,
) -> Result<LineValue<'a>, LineError>
    ensures { IsReadAs line_view result (ok_or (read text.now) NotJson) }
{
    if let Some(found) = usual_value(arena, text)? {
        return Ok(found);
    }
    value_in_range(arena, scratch, text)
}

/// Reads a line as a JSON value. Fails with `NotJson` if it is not UTF-8, not JSON, or has a number that is not in the
/// range of a double.
fn line_value<'a>(
    arena: &'a Bump,
    scratch: &'a mut Scratch,
    line: &'a [u8],
) -> Result<LineValue<'a>, LineError>
    ensures read { IsReadAs line_view result (value_in line.now) }
    ensures memory { IsErrOf result LineError.Memory → IsUtf8 line.now }
{
    match std::str::from_utf8(line) {
        Ok(text) => text_value(arena, scratch, text),
        Err(_) => Err(LineError::Fault(LineFault::NotJson)),
    }
}

#[tactic(auto, unfolding(crate::specs::Meaning::cycle_event))]
fn read_cycle(value: &LineValue<'_>) -> Result<Event, LineError>
    ensures { IsReadOf result (cycle_event (line_view value.now)) }
{
    keys(value, 2)?;
    let at = number_at(value, "at")?;
    Ok(Event::Cycle { at })
}

#[tactic(auto, unfolding(crate::specs::Meaning::report_event))]
fn read_report(value: &LineValue<'_>) -> Result<Event, LineError>
    ensures { IsReadOf result (report_event (line_view value.now)) }
{
    keys(value, 1)?;
    Ok(Event::Report)
}

/// Makes an event from the parts that were read.
macro_rules! made {
    ($event:ident { $($part:ident),+ } of $read:expr) => {{
        let ($($part),+) = $read?;
        Ok(Event::$event { $($part),+ })
    }};
}

#[tactic(auto, unfolding(crate::specs::Meaning::event_in))]
fn read_object(known: &mut KnownWords, value: &LineValue<'_>) -> Result<Event, LineError>
    ensures { IsReadOf result (event_in (line_view value.now)) }
{
    match text_at(value, "event")? {
        // The most frequent events are tested first.
        "finish" => read_finish(known, value),
        "accept" => read_accept(known, value),
        "decline" => read_decline(known, value),
        "rescind" => read_rescind(value),
        "cycle" => read_cycle(value),
        "add_agent" => made!(AddAgent { agent, total } of read_its_total(known, value)),
        "remove_agent" => made!(RemoveAgent { agent } of read_its_agent(known, value)),
        "activate_agent" => made!(ActivateAgent { agent } of read_its_agent(known, value)),
        "deactivate_agent" => made!(DeactivateAgent { agent } of read_its_agent(known, value)),
        "set_agent" => made!(SetAgent { agent, total } of read_its_total(known, value)),
        "add_framework" => made!(AddFramework { framework, roles } of read_its_roles(known, value)),
        "set_framework" => made!(SetFramework { framework, roles } of read_its_roles(known, value)),
        "remove_framework" =>
            made!(RemoveFramework { framework } of read_its_framework(known, value)),
        "suppress" => made!(Suppress { framework, role } of read_its_client(known, value)),
        "revive" => made!(Revive { framework, role } of read_its_client(known, value)),
        "reserve" =>
            made!(Reserve { agent, role, resources } of read_its_reservation(known, value)),
        "unreserve" =>
            made!(Unreserve { agent, role, resources } of read_its_reservation(known, value)),
        "set_weight" => made!(SetWeight { role, weight } of read_its_weight(known, value)),
        "set_limit" => made!(SetLimit { role, limit } of read_its_limit(known, value)),
        "report" => read_report(value),
        _ => Err(LineError::Fault(LineFault::BadShape)),
    }
}

/// The greatest length of a line, in bytes and without its line feed.
const LONGEST_LINE: usize = 65_536;

/// An arena with more bytes than this is not kept for the next line.
const LARGE_ARENA: usize = 8_388_608;

/// Reads lines and writes replies. It keeps its memory, the values that it has read, and the last report, so that the
/// next lines are faster.
pub struct LineReader {
    arena: Bump,
    scratch: Scratch,
    known: KnownWords,
    last: LastReport,
}

// Written out, so that the proof of code that drops a reader sees one call.
impl Drop for LineReader {
    fn drop(self) {
        let LineReader {
            arena: _arena,
            scratch: _scratch,
            known: _known,
            last: _last,
        } = self;
    }
}

impl LineReader {
    /// Creates a reader that has read nothing.
    pub fn new(alloc: Global) -> LineReader {
        LineReader::knowing(KnownWords::new(alloc))
    }

    fn knowing(known: KnownWords) -> LineReader {
        LineReader {
            arena: Bump::new(known.alloc),
            scratch: Scratch::new(known.alloc),
            known,
            last: LastReport::new(),
        }
    }

    /// Empties the arena, and frees it if it is large.
    fn empty_arena(&mut self) {
        if self.arena.allocated_bytes() > LARGE_ARENA {
            self.arena = Bump::new(self.known.alloc);
        }
        let _ = self.arena.reset();
    }

    /// Reads a line as an event. The shape of a line is checked before its texts. Fails with `LineTooLong` if the line
    /// has more than 65,536 bytes, with `NotJson`, `BadShape` or `BadText` if it is not an event, and with `Memory` if
    /// memory runs out.
    pub fn read(&mut self, line: &[u8]) -> Result<Event, LineError>
        ensures read { IsReadOf result (meaning_of line.now) }
        ensures memory { IsErrOf result LineError.Memory → length line.now ≤ longest_line }
        ensures utf8 { IsErrOf result LineError.Memory → IsUtf8 line.now }
    {
        if line.len() > LONGEST_LINE {
            return Err(LineError::Fault(LineFault::LineTooLong));
        }
        self.empty_arena();
        let value = line_value(&self.arena, &mut self.scratch, line)?;
        read_object(&mut self.known, &value)
    }

    /// Reads a line of a state, of any length: the head, a row or the end. Fails with `NotJson`, `BadShape` or
    /// `BadText` if it is none of these, and with `Memory` if memory runs out.
    pub fn read_state_line(&mut self, line: &[u8]) -> Result<StateLine, LineError>
        ensures read { IsReadOf result (state_line_meaning line.now) }
        ensures utf8 { IsErrOf result LineError.Memory → IsUtf8 line.now }
    {
        self.empty_arena();
        let value = line_value(&self.arena, &mut self.scratch, line)?;
        read_state_object(&mut self.known, &value)
    }

    /// Appends the line of a reply, as the function `push_reply` does. The text of the nodes that are the same as in
    /// the last report is copied.
    pub fn push_reply(&mut self, text: &mut Vec<u8>, reply: &Reply) -> Result<(), AllocError>
        ensures ok { OnOk result (text.new.items ≡ text.old.items ++ reply_line reply.now) }
        ensures prefix { KeepsPrefix text.old.items text.new.items }
    {
        push_reply_after(text, &mut self.last, reply)
    }
}

/// Reads one line as an event; see `LineReader::read`. For several lines, a `LineReader` is faster.
pub fn read_event(alloc: Global, line: &[u8]) -> Result<Event, LineError>
    ensures read { IsReadOf result (meaning_of line.now) }
    ensures memory { IsErrOf result LineError.Memory → length line.now ≤ longest_line }
    ensures utf8 { IsErrOf result LineError.Memory → IsUtf8 line.now }
{
    LineReader::knowing(KnownWords::none(alloc)).read(line)
}
