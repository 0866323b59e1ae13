//! `command`: performs what the arguments of the program ask for.
ghost use Rattle.std.specs.Prelude.{◌≡◌, ◌≤◌, ◌^◌, map, true, false};
ghost use Rattle.drf_journal.specs.Device.{IsNew};
ghost use Rattle.drf_app.specs.Done.{HasObeyed};
ghost use Rattle.drf_app.specs.Streams.{stream_of};

use crate::drive::drive;
use crate::tasks::perform;
use drf_journal::{Device, FileBytes};
use std::alloc::Global;
use std::convert::AsStr;
use std::io::{Read, Write};
use std::sync::Wait;
use std::thread::Threads;

/// Performs what the arguments ask for, the first of which is the program's name, and returns the exit status: that of [`perform`], or of a drive. A drive
/// also returns 1 if it did not close, and 3 if a line of a file is not an event.
pub fn command<S: AsStr, F: FileBytes, R: Read, W: Write, E: Write>(
    rt: &(impl Threads + Wait + Sync),
    alloc: Global,
    words: &[S],
    files: &mut F,
    input: &mut Device<R>,
    output: &mut Device<W>,
    errors: &mut Device<E>,
) -> u8
    requires input { IsNew input.old.calls input.old.failed }
    requires output { IsNew output.old.calls output.old.failed }
    requires errors { IsNew errors.old.calls errors.old.failed }
    ensures obeyed { HasObeyed (F.known files.old) (map S.text words.now)
        (record { input = stream_of R.remaining input.old; output = stream_of W.contents output.old; errors = stream_of E.contents errors.old })
        (record { input = stream_of R.remaining input.new; output = stream_of W.contents output.new; errors = stream_of E.contents errors.new })
        result }
    ensures flushed { output.old.flushed ≡ true → output.new.failed ≡ false → output.new.flushed ≡ true }
    ensures reads { input.new.calls ≤ 2 ^ 40 }
{
    match perform(rt, alloc, words, files, input, output, errors) {
        Some(status) => status,
        None => drive(rt, alloc, words, files, output, errors),
    }
}
