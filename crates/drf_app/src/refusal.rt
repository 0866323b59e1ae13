//! Arguments that name no task: help, the version, or a mistake.
ghost use Rattle.std.specs.Prelude.{◌≡◌, true, false};
ghost use Rattle.clap.specs.Words.{kind_of};
ghost use Rattle.drf_journal.specs.declared.fault.RunFault.{RunFault};
ghost use Rattle.drf_app.specs.Refused.{HasRefused};
ghost use Rattle.drf_app.specs.Streams.{Stream, stream_of};

use crate::messages::{finish, report};
use clap::Error;
use clap::error::ErrorKind;
use drf_journal::{Device, RunFault, write_whole};
use std::alloc::Global;
use std::io::Write;

/// Writes help or the version to `output`, or what is wrong with the arguments to `errors`, and returns the exit status.
pub(crate) fn refuse<W: Write, E: Write>(
    alloc: Global,
    error: &Error,
    output: &mut Device<W>,
    errors: &mut Device<E>,
) -> u8
    requires output { output.old.failed ≡ false }
    requires errors { errors.old.failed ≡ false }
    ensures refused { (input : Stream) → HasRefused (kind_of error.now)
        (record { input = input; output = stream_of W.contents output.old; errors = stream_of E.contents errors.old })
        (record { input = input; output = stream_of W.contents output.new; errors = stream_of E.contents errors.new })
        result }
    ensures flushed { output.old.flushed ≡ true → output.new.failed ≡ false → output.new.flushed ≡ true }
{
    if error.kind() == ErrorKind::OutOfMemory {
        return finish::<(), E>(Err(RunFault::Memory), errors);
    }
    let Ok(text) = format!(in alloc; "{error}") else {
        return finish::<(), E>(Err(RunFault::Memory), errors);
    };
    if error.use_stderr() {
        report(errors, text.as_str());
        return 2;
    }
    let shown = write_whole(output, text.as_bytes());
    finish(shown, errors)
}
