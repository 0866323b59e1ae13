//! `drf drive`: runs files of event lines concurrently, and reports how that ended.
ghost use Rattle.std.specs.Prelude.{◌≡◌, ◌≤◌, true, false, length, map};
ghost use Rattle.drf_core.specs.Machine.{live};
ghost use Rattle.drf_rows.specs.LimitNumbers.{ceilings};
ghost use Rattle.drf_app.specs.Streams.{Stream, stream_of};
ghost use Rattle.drf_app.specs.Reported.{HasReportedUnread};
ghost use Rattle.clap.specs.Words.{found_of, rows_of};
ghost use Rattle.drf_app.specs.Done.{HasDoneDrive, HasDriven, HasObeyed};
ghost use Rattle.drf_app.specs.Line.{AsksDrive, drive_of};
ghost use Rattle.drf_app.specs.Drives.{HasReportedDrive, name_at};

use crate::arguments::read_arguments;
use crate::messages::{finish, report};
use crate::refusal::refuse;
use crate::refused_line::{RefusedLine, report_line};
use crate::request::files_of;
use crate::start::{begin, report_start};
use crate::unread::report_file;
use clap::ArgMatches;
use drf_core::Core;
use drf_drive::{ScriptFault, run_drive};
use drf_journal::{Device, FileBytes, ProgramSorter, RunFault};
use drf_rows::Limits;
use std::alloc::Global;
use std::convert::AsStr;
use std::io::Write;
use std::sync::Wait;
use std::thread::Threads;

/// Returns the name of the file at an index.
fn name_at<'a>(names: &[&'a str], file: usize) -> &'a str
    ensures { result.now ≡ name_at (map (λ name. name.now) names.now) file }
{
    match names.get(file) {
        Some(name) => *name,
        None => "",
    }
}

/// Reports the file at an index, which cannot be read, and returns the exit status.
fn report_unread<E: Write>(alloc: Global, names: &[&str], file: usize, errors: &mut Device<E>) -> u8
    requires { errors.old.failed ≡ false }
    ensures { HasReportedUnread (name_at (map (λ name. name.now) names.now) file) result (E.contents errors.old.inner) (E.contents errors.new.inner) errors.new.failed }
{
    report_file(alloc, name_at(names, file), RunFault::Read, errors)
}

/// Reports how a drive ended, and returns the exit status.
fn report_end<E: Write>(
    alloc: Global,
    names: &[&str],
    ended: Result<(), ScriptFault>,
    errors: &mut Device<E>,
) -> u8
    requires { errors.old.failed ≡ false }
    ensures { HasReportedDrive (map (λ name. name.now) names.now) ended result (E.contents errors.old.inner) (E.contents errors.new.inner) errors.new.failed }
{
    match ended {
        Ok(()) => 0,
        Err(ScriptFault::Unread(file)) => report_unread(alloc, names, file, errors),
        Err(ScriptFault::Run(fault)) => finish::<(), E>(Err(fault), errors),
        Err(ScriptFault::Close(_misfit)) => {
            report(errors, "drf: close fault\n");
            1
        }
        Err(ScriptFault::Line(bad)) => {
            let line = RefusedLine {
                file: name_at(names, bad.file),
                line: bad.line,
                fault: bad.fault.number(),
                name: bad.fault.name(),
            };
            report_line(alloc, line, errors)
        }
    }
}

/// Runs files concurrently, on one master that starts from `core`, and writes the journal to `output`. Returns the exit status.
fn drive_files<F: FileBytes, W: Write, E: Write>(
    rt: &(impl Threads + Wait + Sync),
    alloc: Global,
    core: Core<ProgramSorter>,
    files: &mut F,
    names: &[&str],
    output: &mut Device<W>,
    errors: &mut Device<E>,
) -> u8
    requires limits { core.limits ≡ ceilings }
    requires few { length names.now ≤ 64 }
    requires output { output.old.failed ≡ false }
    requires errors { errors.old.failed ≡ false }
    ensures driven { (input : Stream) → HasDriven (live core) (F.known files.old) (map (λ name. name.now) names.now)
        (record { input = input; output = stream_of W.contents output.old; errors = stream_of E.contents errors.old })
        (record { input = input; output = stream_of W.contents output.new; errors = stream_of E.contents errors.new })
        result }
    ensures flushed { output.old.flushed ≡ true → output.new.failed ≡ false → output.new.flushed ≡ true }
{
    let ended = run_drive(rt, alloc, Limits::full(), core, files, names, output);
    report_end(alloc, names, ended, errors)
}

/// Runs the files that the arguments of `drive` name, from the state in the file of `--from`. Returns the exit status.
fn drive_named<F: FileBytes, W: Write, E: Write>(
    rt: &(impl Threads + Wait + Sync),
    alloc: Global,
    arguments: &ArgMatches,
    files: &mut F,
    output: &mut Device<W>,
    errors: &mut Device<E>,
) -> u8
    requires output { output.old.failed ≡ false }
    requires errors { errors.old.failed ≡ false }
    ensures done { (input : Stream) → HasDoneDrive (F.known files.old) (drive_of (rows_of (found_of arguments.now)))
        (record { input = input; output = stream_of W.contents output.old; errors = stream_of E.contents errors.old })
        (record { input = input; output = stream_of W.contents output.new; errors = stream_of E.contents errors.new })
        result }
    ensures flushed { output.old.flushed ≡ true → output.new.failed ≡ false → output.new.flushed ≡ true }
{
    let names = files_of(arguments);
    let from = arguments.get_str("from");
    match begin(alloc, files, from) {
        Ok(core) => drive_files(rt, alloc, core, files, names, output, errors),
        Err(fault) => report_start(alloc, from, fault, errors),
    }
}

/// Performs the drive that the arguments ask for, and returns the exit status.
pub(crate) fn drive<S: AsStr, F: FileBytes, W: Write, E: Write>(
    rt: &(impl Threads + Wait + Sync),
    alloc: Global,
    words: &[S],
    files: &mut F,
    output: &mut Device<W>,
    errors: &mut Device<E>,
) -> u8
    requires asks { AsksDrive (map S.text words.now) }
    requires output { output.old.failed ≡ false }
    requires errors { errors.old.failed ≡ false }
    ensures obeyed { (input : Stream) → HasObeyed (F.known files.old) (map S.text words.now)
        (record { input = input; output = stream_of W.contents output.old; errors = stream_of E.contents errors.old })
        (record { input = input; output = stream_of W.contents output.new; errors = stream_of E.contents errors.new })
        result }
    ensures flushed { output.old.flushed ≡ true → output.new.failed ≡ false → output.new.flushed ≡ true }
{
    match read_arguments(alloc, words) {
        Ok((_drive, arguments)) => drive_named(rt, alloc, &arguments, files, output, errors),
        Err(error) => refuse(alloc, &error, output, errors),
    }
}
