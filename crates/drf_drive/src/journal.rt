//! Writes the text of a journal.
ghost use Rattle.std.specs.Prelude.{◌≡◌, ◌++◌, [], true, false, OnOk, OnErr, IfErr};
ghost use Rattle.std.specs.Io.KnownBytes.{Appends};
ghost use Rattle.drf_journal.specs.Device.{AppendsPrefixOf};
ghost use Rattle.drf_journal.specs.Ended.{HasCause};
ghost use Rattle.drf_drive.specs.JournalText.{HasSent, IsCutOff, entry_text, is_write_fault, journal_text};

use crate::script::ScriptFault;
use drf_board::Entry;
use drf_journal::{Device, RunFault, write_whole};
use drf_lines::{push_event, push_reply};
use std::alloc::{AllocError, Global};
use std::io::Write;

/// The number of bytes from which on text is written rather than collected further.
const LARGE: usize = 65_536;

// Appends the line of an entry's event and the line of its reply.
fn push_entry(entry: &Entry, text: &mut Vec<u8>) -> Result<(), AllocError>
    ensures { OnOk result (text.new.items ≡ text.old.items ++ entry_text entry.now) }
{
    push_event(text, &entry.event)?;
    text.push(b'\n')?;
    push_reply(text, &entry.reply)
}

// Writes and clears the collected text if it is long enough.
fn send_long<W: Write>(text: &mut Vec<u8>, writer: &mut Device<W>) -> Result<(), RunFault>
    requires { writer.old.failed ≡ false }
    ensures ok { OnOk result (HasSent (W.contents writer.old.inner) (W.contents writer.new.inner) text.old.items text.new.items) }
    ensures err { OnErr result (AppendsPrefixOf (W.contents writer.old.inner) (W.contents writer.new.inner) text.old.items) }
    ensures cause { HasCause result false 0 writer.new.failed }
    ensures flushed { writer.old.flushed ≡ true → writer.new.failed ≡ false → writer.new.flushed ≡ true }
{
    if text.len() < LARGE {
        return Ok(());
    }
    write_whole(writer, text)?;
    text.clear();
    Ok(())
}

// Writes the lines of entries, in large chunks.
fn write_entries<W: Write>(
    alloc: Global,
    entries: &[Entry],
    writer: &mut Device<W>,
) -> Result<(), RunFault>
    requires { writer.old.failed ≡ false }
    ensures ok { OnOk result (Appends (W.contents writer.old.inner) (W.contents writer.new.inner) (journal_text entries.now)) }
    ensures err { OnErr result (AppendsPrefixOf (W.contents writer.old.inner) (W.contents writer.new.inner) (journal_text entries.now)) }
    ensures cause { HasCause result false 0 writer.new.failed }
    ensures flushed { writer.old.flushed ≡ true → writer.new.failed ≡ false → writer.new.flushed ≡ true }
{
    let mut text = Vec::new(alloc);
    for entry in entries {
        push_entry(entry, &mut text)?;
        send_long(&mut text, writer)?;
    }
    write_whole(writer, &text)
}

/// Writes a journal: for each entry the line of its event and the line of its reply. After an error, a prefix has been written.
pub(crate) fn write_journal<W: Write>(
    alloc: Global,
    entries: &[Entry],
    writer: &mut Device<W>,
) -> Result<(), ScriptFault>
    requires { writer.old.failed ≡ false }
    ensures ok { OnOk result (Appends (W.contents writer.old.inner) (W.contents writer.new.inner) (journal_text entries.now)) }
    ensures err { IfErr result (IsCutOff (W.contents writer.old.inner) (W.contents writer.new.inner) (journal_text entries.now)) }
    ensures failed { writer.new.failed ≡ is_write_fault result }
    ensures flushed { writer.old.flushed ≡ true → writer.new.failed ≡ false → writer.new.flushed ≡ true }
{
    write_entries(alloc, entries, writer)?;
    Ok(())
}

/// Writes the journal without entries.
pub(crate) fn write_nothing<W: Write>(
    alloc: Global,
    writer: &mut Device<W>,
) -> Result<(), ScriptFault>
    requires { writer.old.failed ≡ false }
    ensures ok { OnOk result (Appends (W.contents writer.old.inner) (W.contents writer.new.inner) (journal_text [])) }
    ensures err { IfErr result (IsCutOff (W.contents writer.old.inner) (W.contents writer.new.inner) (journal_text [])) }
    ensures failed { writer.new.failed ≡ is_write_fault result }
    ensures flushed { writer.old.flushed ≡ true → writer.new.failed ≡ false → writer.new.flushed ≡ true }
{
    let none = [];
    write_journal(alloc, &none, writer)
}
