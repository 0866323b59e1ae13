//! `perform`: every command but `drive`.
ghost use Rattle.std.specs.Prelude.{◌≡◌, ◌≤◌, ◌^◌, ℕ, List, None, IfSome, map, true, false, codes};
ghost use Rattle.clap.specs.Words.{found_of, rows_of};
ghost use Rattle.drf_core.specs.Machine.{live};
ghost use Rattle.drf_journal.specs.Device.{IsNew};
ghost use Rattle.drf_rows.specs.LimitNumbers.{ceilings};
ghost use Rattle.drf_app.specs.Streams.{stream_of};
ghost use Rattle.drf_app.specs.Done.{AreSame, HasDone, HasDoneFrom, HasObeyed, IsLeft};
ghost use Rattle.drf_app.specs.Line.{IsCommand, IsWithinBounds, Names};

use crate::arguments::read_arguments;
use crate::check::{check, verdict_status};
use crate::explain::explain;
use crate::lint::lint;
use crate::messages::finish;
use crate::refusal::refuse;
use crate::request::{Request, Task, request_of};
use crate::run::answer;
use crate::saving::save;
use crate::show::show;
use crate::start::{begin, report_start};
use clap::ArgMatches;
use drf_core::Core;
use drf_journal::{Device, FileBytes, ProgramSorter, run_audit};
use std::alloc::Global;
use std::convert::AsStr;
use std::io::{Read, Write};
use std::thread::Threads;

/// Performs a task that starts from `core`, and returns the exit status.
#[tactic(auto, using(crate::proofs::Flushed::flushed_unless_failed))]
fn perform_task<R: Read, W: Write, E: Write>(
    rt: &(impl Threads + Sync),
    alloc: Global,
    core: Core<ProgramSorter>,
    task: Task<'_>,
    input: &mut Device<R>,
    output: &mut Device<W>,
    errors: &mut Device<E>,
) -> u8
    requires limits { core.limits ≡ ceilings }
    requires bounds { IsWithinBounds task }
    requires input { IsNew input.old.calls input.old.failed }
    requires output { IsNew output.old.calls output.old.failed }
    requires errors { IsNew errors.old.calls errors.old.failed }
    ensures done { HasDoneFrom (live core) task.entry
        (record { input = stream_of R.remaining input.old; output = stream_of W.contents output.old; errors = stream_of E.contents errors.old })
        (record { input = stream_of R.remaining input.new; output = stream_of W.contents output.new; errors = stream_of E.contents errors.new })
        result }
    ensures flushed { output.old.flushed ≡ true → output.new.failed ≡ false → output.new.flushed ≡ true }
    ensures reads { input.new.calls ≤ 2 ^ 40 }
{
    match task {
        Task::Run { echo, ask } => {
            let ended = answer(alloc, core, echo, ask, input, output);
            finish(ended, errors)
        }
        Task::Check => match check(alloc, core, input, output) {
            Ok(verdict) => verdict_status(verdict),
            Err(fault) => finish::<(), E>(Err(fault), errors),
        },
        Task::Audit => {
            let ended = run_audit(rt, alloc, core, input, output);
            finish(ended, errors)
        }
        Task::Explain { at, scope } => explain(alloc, core, at, scope, input, output, errors),
        Task::Save { epoch } => {
            let ended = save(alloc, core, epoch, input, output);
            finish(ended, errors)
        }
        Task::Show { json } => {
            let ended = show(rt, alloc, core, json, input, output);
            finish(ended, errors)
        }
        Task::Lint { write } => lint(alloc, write, input, output, errors),
    }
}

/// Performs a request, or reports why it could not start. Returns the exit status.
fn perform_request<F: FileBytes, R: Read, W: Write, E: Write>(
    rt: &(impl Threads + Sync),
    alloc: Global,
    request: Request<'_>,
    files: &mut F,
    input: &mut Device<R>,
    output: &mut Device<W>,
    errors: &mut Device<E>,
) -> u8
    requires bounds { IsWithinBounds request.task }
    requires input { IsNew input.old.calls input.old.failed }
    requires output { IsNew output.old.calls output.old.failed }
    requires errors { IsNew errors.old.calls errors.old.failed }
    ensures done { HasDone (F.known files.old) request.entry
        (record { input = stream_of R.remaining input.old; output = stream_of W.contents output.old; errors = stream_of E.contents errors.old })
        (record { input = stream_of R.remaining input.new; output = stream_of W.contents output.new; errors = stream_of E.contents errors.new })
        result }
    ensures flushed { output.old.flushed ≡ true → output.new.failed ≡ false → output.new.flushed ≡ true }
    ensures reads { input.new.calls ≤ 2 ^ 40 }
{
    match begin(alloc, files, request.from) {
        Ok(core) => perform_task(rt, alloc, core, request.task, input, output, errors),
        Err(fault) => report_start(alloc, request.from, fault, errors),
    }
}

/// Performs a command, by its name and its arguments, unless it is `drive`.
fn perform_named<F: FileBytes, R: Read, W: Write, E: Write>(
    rt: &(impl Threads + Sync),
    alloc: Global,
    name: &str,
    arguments: &ArgMatches,
    files: &mut F,
    input: &mut Device<R>,
    output: &mut Device<W>,
    errors: &mut Device<E>,
) -> Option<u8>
    requires command { IsCommand name.now }
    requires input { IsNew input.old.calls input.old.failed }
    requires output { IsNew output.old.calls output.old.failed }
    requires errors { IsNew errors.old.calls errors.old.failed }
    ensures obeyed { (words : List (List ℕ)) → Names words name.now (rows_of (found_of arguments.now))
        → IfSome result (HasObeyed (F.known files.old) words
        (record { input = stream_of R.remaining input.old; output = stream_of W.contents output.old; errors = stream_of E.contents errors.old })
        (record { input = stream_of R.remaining input.new; output = stream_of W.contents output.new; errors = stream_of E.contents errors.new })) }
    ensures left { result ≡ None → (name.now ≡ codes "drive") × AreSame
        (record { input = stream_of R.remaining input.old; output = stream_of W.contents output.old; errors = stream_of E.contents errors.old })
        (record { input = stream_of R.remaining input.new; output = stream_of W.contents output.new; errors = stream_of E.contents errors.new }) }
    ensures files { result ≡ None → F.known files.new ≡ F.known files.old }
    ensures flushed { output.old.flushed ≡ true → output.new.failed ≡ false → output.new.flushed ≡ true }
    ensures reads { input.new.calls ≤ 2 ^ 40 }
{
    if name == "drive" {
        return None;
    }
    let request = request_of(name, arguments);
    Some(perform_request(rt, alloc, request, files, input, output, errors))
}

/// Performs what the arguments ask for, the first of which is the program's name: reads the file of `--from`, then `input`, writes `output`, and reports errors
/// on `errors`. Returns the exit status: 0; 1 if a file or a stream failed or memory ran out; 2 if the arguments are wrong; 3 if a journal is wrong, a file is
/// not a state, or `lint` found a line that is not an event. Returns `None`, having done nothing, if the arguments ask for `drive`.
pub fn perform<S: AsStr, F: FileBytes, R: Read, W: Write, E: Write>(
    rt: &(impl Threads + Sync),
    alloc: Global,
    words: &[S],
    files: &mut F,
    input: &mut Device<R>,
    output: &mut Device<W>,
    errors: &mut Device<E>,
) -> Option<u8>
    requires input { IsNew input.old.calls input.old.failed }
    requires output { IsNew output.old.calls output.old.failed }
    requires errors { IsNew errors.old.calls errors.old.failed }
    ensures obeyed { IfSome result (HasObeyed (F.known files.old) (map S.text words.now)
        (record { input = stream_of R.remaining input.old; output = stream_of W.contents output.old; errors = stream_of E.contents errors.old })
        (record { input = stream_of R.remaining input.new; output = stream_of W.contents output.new; errors = stream_of E.contents errors.new })) }
    ensures left { result ≡ None → IsLeft (map S.text words.now)
        (record { input = stream_of R.remaining input.old; output = stream_of W.contents output.old; errors = stream_of E.contents errors.old })
        (record { input = stream_of R.remaining input.new; output = stream_of W.contents output.new; errors = stream_of E.contents errors.new }) }
    ensures files { result ≡ None → F.known files.new ≡ F.known files.old }
    ensures flushed { output.old.flushed ≡ true → output.new.failed ≡ false → output.new.flushed ≡ true }
    ensures reads { input.new.calls ≤ 2 ^ 40 }
{
    match read_arguments(alloc, words) {
        Ok((name, arguments)) => perform_named(
            rt, alloc, name, &arguments, files, input, output, errors,
        ),
        Err(error) => Some(refuse(alloc, &error, output, errors)),
    }
}
