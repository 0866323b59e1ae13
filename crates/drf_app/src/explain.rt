//! `drf explain`: says what the next cycle would offer, and why clients would get nothing.
ghost use Rattle.std.specs.Prelude.{◌≡◌, ◌≤◌, ◌^◌, true, false};
ghost use Rattle.drf_core.specs.Machine.{live};
ghost use Rattle.drf_journal.specs.Device.{IsNew};
ghost use Rattle.drf_rows.specs.declared.limits.TheConstants.{LATEST_TIMESTAMP};
ghost use Rattle.drf_app.specs.Streams.{stream_of};
ghost use Rattle.drf_app.specs.Done.{HasExplained};

use crate::messages::{finish, report};
use crate::request::Scope;
use drf_core::Core;
use drf_journal::{Device, ProgramSorter, run_explain};
use drf_why::{write_cycle_summary, write_each};
use std::alloc::Global;
use std::io::{Read, Write};

/// Explains the cycle that would follow the events of `input` at the time `at` (milliseconds), and returns the exit status.
#[tactic(auto, using(crate::proofs::Flushed::flushed_unless_failed))]
pub(crate) fn explain<R: Read, W: Write, E: Write>(
    alloc: Global,
    core: Core<ProgramSorter>,
    at: u64,
    scope: Scope<'_>,
    input: &mut Device<R>,
    output: &mut Device<W>,
    errors: &mut Device<E>,
) -> u8
    requires early { at ≤ LATEST_TIMESTAMP }
    requires input { IsNew input.old.calls input.old.failed }
    requires output { IsNew output.old.calls output.old.failed }
    requires errors { IsNew errors.old.calls errors.old.failed }
    ensures explained { HasExplained (live core) at scope.entry
        (record { input = stream_of R.remaining input.old; output = stream_of W.contents output.old; errors = stream_of E.contents errors.old })
        (record { input = stream_of R.remaining input.new; output = stream_of W.contents output.new; errors = stream_of E.contents errors.new })
        result }
    ensures flushed { output.old.flushed ≡ true → output.new.failed ≡ false → output.new.flushed ≡ true }
    ensures reads { input.new.calls ≤ 2 ^ 40 }
{
    match scope {
        Scope::Short => {
            let ended = run_explain(alloc, core, at, input, output);
            finish(ended, errors)
        }
        Scope::Each(whom) => {
            let ended = write_each(alloc, core, at, whom, input, output);
            finish(ended, errors)
        }
        Scope::Summary => {
            let ended = write_cycle_summary(alloc, core, at, input, output);
            finish(ended, errors)
        }
        Scope::Several => {
            report(
                errors,
                "drf: explain takes one of --client, --agent and --summary at a time\n",
            );
            2
        }
    }
}
