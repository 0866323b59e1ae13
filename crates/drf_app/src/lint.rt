//! `drf lint`: reports what is wrong with lines that are not events.
ghost use Rattle.std.specs.Prelude.{◌≡◌, ◌≤◌, ◌^◌, true, false};
ghost use Rattle.std.specs.Io.KnownBytes.{Keeps};
ghost use Rattle.drf_journal.specs.Device.{IsNew};
ghost use Rattle.drf_app.specs.Streams.{stream_of};
ghost use Rattle.drf_app.specs.Lints.{IsLinted, IsLintEnd, IsLooked, lint_status};

use crate::messages::finish;
use drf_journal::{Device, RunFault};
use drf_lint::run_lint;
use std::alloc::Global;
use std::io::{Read, Write};

/// Reports lines that are not events on standard output or, with `write`, on standard error, with the events on standard output. Returns how many
/// lines are not events.
fn look<R: Read, W: Write, E: Write>(
    alloc: Global,
    write: bool,
    input: &mut Device<R>,
    output: &mut Device<W>,
    errors: &mut Device<E>,
) -> Result<u64, RunFault>
    requires input { IsNew input.old.calls input.old.failed }
    requires output { IsNew output.old.calls output.old.failed }
    requires errors { IsNew errors.old.calls errors.old.failed }
    ensures looked { IsLooked write
        (record { input = stream_of R.remaining input.old; output = stream_of W.contents output.old; errors = stream_of E.contents errors.old })
        (record { input = stream_of R.remaining input.new; output = stream_of W.contents output.new; errors = stream_of E.contents errors.new })
        result }
    ensures reads { input.new.calls ≤ 2 ^ 40 }
{
    if write {
        run_lint(alloc, true, input, output, errors)
    } else {
        run_lint(alloc, false, input, errors, output)
    }
}

/// Flushes what was written before an error of the other stream.
fn hand_on<W: Write>(output: &mut Device<W>)
    ensures bytes { Keeps (W.contents output.old.inner) (W.contents output.new.inner) }
    ensures flushed { output.new.failed ≡ false → output.new.flushed ≡ true }
{
    if output.flushed() {
        return;
    }
    let _ = output.flush();
}

/// Reports an error, unless standard error itself has failed, and returns the exit status.
fn close<E: Write>(ended: Result<u64, RunFault>, errors: &mut Device<E>) -> u8
    ensures status { result ≡ lint_status ended }
    ensures reported { IsLintEnd ended errors.old.failed (E.contents errors.old.inner) (E.contents errors.new.inner) errors.new.failed }
{
    match ended {
        Ok(0) => 0,
        Ok(_) => 3,
        Err(_) if errors.failed() => 1,
        Err(fault) => finish::<(), E>(Err(fault), errors),
    }
}

/// Reports the lines of `input` that are not events, and returns the exit status.
pub(crate) fn lint<R: Read, W: Write, E: Write>(
    alloc: Global,
    write: bool,
    input: &mut Device<R>,
    output: &mut Device<W>,
    errors: &mut Device<E>,
) -> u8
    requires input { IsNew input.old.calls input.old.failed }
    requires output { IsNew output.old.calls output.old.failed }
    requires errors { IsNew errors.old.calls errors.old.failed }
    ensures linted { IsLinted write
        (record { input = stream_of R.remaining input.old; output = stream_of W.contents output.old; errors = stream_of E.contents errors.old })
        (record { input = stream_of R.remaining input.new; output = stream_of W.contents output.new; errors = stream_of E.contents errors.new })
        result }
    ensures flushed { output.old.flushed ≡ true → output.new.failed ≡ false → output.new.flushed ≡ true }
    ensures reads { input.new.calls ≤ 2 ^ 40 }
{
    let ended = look(alloc, write, input, output, errors);
    hand_on(output);
    close(ended, errors)
}
