//! Reads the events of files.
ghost use Rattle.std.specs.Prelude.{◌≡◌, [], map, OnOk, OnErr, IfOk, IfErr};
ghost use Rattle.drf_drive.specs.Files.{bytes_of};
ghost use Rattle.drf_drive.specs.Scripts.{AreScripts, AreWhole, HasScripts, HaveBadLine, HaveStopped, IsNoEvent, IsScript, IsScriptOf, IsStoppedAfter, IsStoppedBy, IsUnreadable, IsWhole, Takes};

use crate::files::read_files;
use crate::lines::first_line;
use drf_board::Entry;
use drf_journal::{FileBytes, RunFault};
use drf_lines::{LineError, LineFault, LineReader};
use drf_master::{CloseFault, Pass};
use drf_rows::Event;
use rayon::prelude::*;
use std::alloc::{AllocError, Global};
use std::convert::AsStr;
use std::thread::Threads;

/// A line that is not an event.
#[derive(Clone, Copy, PartialEq, Eq)]
pub struct BadLine {
    /// The index of its file, from 0.
    pub file: usize,
    /// Its number in the file, from 1.
    pub line: u64,
    pub fault: LineFault,
}

/// A journal that the passes do not fit, the passes, and the error of `Book::matches` or `Master::close`.
#[derive(Drop)]
pub struct Misfit {
    pub fault: CloseFault,
    pub journal: Vec<Entry>,
    pub passes: Vec<Pass>,
}

/// Why files were not run to the end, or their journal was not written completely.
#[derive(Drop)]
pub enum ScriptFault {
    /// The file at this index, from 0, cannot be read. All files before it were read.
    Unread(usize),
    /// Writing failed, or memory ran out.
    Run(RunFault),
    /// A line is not an event: the first such line of the first file that has one.
    Line(BadLine),
    /// All calls were made, but the journal is not a shuffle of the receipts of the threads.
    Close(Misfit),
}

impl From<RunFault> for ScriptFault {
    ghost use Rattle.drf_drive.specs.declared.script.ScriptFault.TheVariants.{Run};

    ghost from_gives = { λ fault gives. gives ≡ Run fault };

    fn from(fault: RunFault) -> ScriptFault {
        ScriptFault::Run(fault)
    }
}

impl From<AllocError> for ScriptFault {
    ghost use Rattle.drf_journal.specs.declared.fault.RunFault.TheVariants.{Memory};
    ghost use Rattle.drf_drive.specs.declared.script.ScriptFault.TheVariants.{Run};

    ghost from_gives = { λ _ gives. gives ≡ Run Memory };

    fn from(_: AllocError) -> ScriptFault {
        ScriptFault::Run(RunFault::Memory)
    }
}

// The events of a file up to the first line that is not an event, and the error of that line, if there is one.
#[derive(Drop)]
pub struct Script {
    pub events: Vec<Event>,
    pub stop: Option<LineError>,
}

// Appends the event of a line.
fn take_line(reader: &mut LineReader, line: &[u8], events: &mut Vec<Event>) -> Result<(), LineError>
    ensures ok { OnOk result (Takes line.now events.old.items events.new.items) }
    ensures err { IfErr result (IsNoEvent line.now) }
    ensures same { OnErr result (events.new.items ≡ events.old.items) }
{
    events.reserve(1)?;
    let event = reader.read(line)?;
    events.push_reserved(event);
    Ok(())
}

// Appends the events of the lines of a file, up to the first line that is not an event.
fn take_lines(
    reader: &mut LineReader,
    bytes: &[u8],
    events: &mut Vec<Event>,
) -> Result<(), LineError>
    requires { events.old.items ≡ [] }
    ensures ok { OnOk result (IsScript bytes.now events.new.items) }
    ensures err { IfErr result (IsStoppedAfter bytes.now events.new.items) }
{
    let mut rest = bytes;
    while !rest.is_empty() {
        let (line, after) = first_line(rest);
        take_line(reader, line, events)?;
        rest = after;
    }
    Ok(())
}

// Returns the events of a file, and where it stopped.
fn read_script(alloc: Global, bytes: &[u8]) -> Script
    ensures { IsScriptOf bytes.now result }
{
    let mut reader = LineReader::new(alloc);
    let mut events = Vec::new(alloc);
    let stop = take_lines(&mut reader, bytes, &mut events).err();
    Script { events, stop }
}

// Returns the events of the file at this index, or the error of its first line that is not an event.
fn whole(file: usize, script: Script) -> Result<Vec<Event>, ScriptFault>
    ensures ok { IfOk result (IsWhole script) }
    ensures err { IfErr result (IsStoppedBy file script) }
{
    let Script { events, stop } = script;
    match stop {
        None => Ok(events),
        Some(LineError::Memory) => Err(ScriptFault::Run(RunFault::Memory)),
        Some(LineError::Fault(fault)) => {
            let line = events.len() as u64 + 1;
            Err(ScriptFault::Line(BadLine { file, line, fault }))
        }
    }
}

// Returns the events of each file, or the first error.
fn all_whole(alloc: Global, scripts: Vec<Script>) -> Result<Vec<Vec<Event>>, ScriptFault>
    ensures ok { IfOk result (λ whole. AreWhole scripts.items whole.items) }
    ensures err { IfErr result (HaveStopped scripts.items) }
{
    let mut events = Vec::with_capacity(alloc, scripts.len())?;
    for script in scripts {
        let read = whole(events.len(), script)?;
        events.push_reserved(read);
    }
    Ok(events)
}

// Returns the scripts of files with these bytes. The files are parsed in parallel: by default, `rayon` would give a thread many items, but one file
// is enough work.
fn scripts_of(
    rt: &(impl Threads + Sync),
    alloc: Global,
    contents: &[Vec<u8>],
) -> Result<Vec<Vec<Event>>, ScriptFault>
    ensures ok { IfOk result (λ scripts. AreScripts (bytes_of contents.now) scripts.items) }
    ensures err { IfErr result (HaveBadLine (bytes_of contents.now)) }
{
    let scripts = contents
        .par_iter()
        .with_min_len(1)
        .map(
            |bytes: &Vec<u8>| -> Script
                ensures { IsScriptOf bytes.now.items result }
            { read_script(alloc, bytes) },
        )
        .collect::<Vec<Script>>(rt, alloc)?;
    all_whole(alloc, scripts)
}

/// Returns the events of all files. All files are read, in order, before any line is parsed.
pub(crate) fn read_scripts<W: Threads + Sync, F: FileBytes, S: AsStr>(
    rt: &W,
    alloc: Global,
    files: &mut F,
    names: &[S],
) -> Result<Vec<Vec<Event>>, ScriptFault>
    ensures ok { IfOk result (λ scripts. HasScripts (F.known files.old) (map S.text names.now) scripts.items) }
    ensures err { IfErr result (IsUnreadable (F.known files.old) (map S.text names.now)) }
{
    let contents = read_files(alloc, files, names)?;
    scripts_of(rt, alloc, &contents)
}
