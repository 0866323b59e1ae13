//! `drf run`: replies to event lines, and answers questions among them.
ghost use Rattle.std.specs.Prelude.{◌≡◌, ◌≤◌, ◌^◌, true, OnOk};
ghost use Rattle.std.specs.Io.KnownBytes.{IsAtEnd};
ghost use Rattle.drf_core.specs.Machine.{live};
ghost use Rattle.drf_journal.specs.Device.{IsNew};
ghost use Rattle.drf_journal.specs.Ended.{HasCause, HasFlushed};
ghost use Rattle.drf_rows.specs.LimitNumbers.{ceilings};
ghost use Rattle.drf_app.specs.Done.{HasAnsweredAs};

use drf_ask::run_asked;
use drf_core::Core;
use drf_journal::{Device, ProgramSorter, RunFault, run};
use drf_rows::Limits;
use std::alloc::Global;
use std::io::{Read, Write};

/// Replies to the lines of `input`, with `ask` also to questions, and returns how many events there were.
pub(crate) fn answer<R: Read, W: Write>(
    alloc: Global,
    core: Core<ProgramSorter>,
    echo: bool,
    ask: bool,
    input: &mut Device<R>,
    output: &mut Device<W>,
) -> Result<u64, RunFault>
    requires limits { core.limits ≡ ceilings }
    requires input { IsNew input.old.calls input.old.failed }
    requires output { IsNew output.old.calls output.old.failed }
    ensures run { HasAnsweredAs ask (live core) echo (R.remaining input.old.inner) (R.remaining input.new.inner)
        (W.contents output.old.inner) (W.contents output.new.inner) result }
    ensures whole { OnOk result (IsAtEnd (R.remaining input.new.inner)) }
    ensures cause { HasCause result input.new.failed input.new.calls output.new.failed }
    ensures flushed { output.old.flushed ≡ true → HasFlushed result output.new.flushed }
    ensures reads { input.new.calls ≤ 2 ^ 40 }
{
    if ask {
        return run_asked(alloc, core, Limits::full(), input, output, echo);
    }
    run(alloc, core, input, output, echo)
}
