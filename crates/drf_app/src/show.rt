//! `drf show`: prints the state as tables.
ghost use Rattle.std.specs.Prelude.{◌≡◌, ◌≤◌, ◌^◌, true};
ghost use Rattle.drf_core.specs.Machine.{live};
ghost use Rattle.drf_journal.specs.Device.{IsNew};
ghost use Rattle.drf_journal.specs.Ended.{HasCause, HasFlushed};
ghost use Rattle.drf_rows.specs.LimitNumbers.{ceilings};
ghost use Rattle.drf_show.specs.Showing.{HasShown};
ghost use Rattle.drf_app.specs.Done.{form_of};

use drf_core::Core;
use drf_journal::{Device, ProgramSorter, RunFault};
use drf_rows::Limits;
use drf_show::{Form, run_show};
use std::alloc::Global;
use std::io::{Read, Write};
use std::thread::Threads;

/// Returns the form of the output.
fn form_of(json: bool) -> Form
    ensures { result ≡ form_of json }
{
    if json { Form::Json } else { Form::Aligned }
}

/// Prints the state after the events of `input`, as tables or, with `json`, as lines.
pub(crate) fn show<R: Read, W: Write>(
    rt: &(impl Threads + Sync),
    alloc: Global,
    core: Core<ProgramSorter>,
    json: bool,
    input: &mut Device<R>,
    output: &mut Device<W>,
) -> Result<(), RunFault>
    requires limits { core.limits ≡ ceilings }
    requires input { IsNew input.old.calls input.old.failed }
    requires output { IsNew output.old.calls output.old.failed }
    ensures shown { HasShown (form_of json) (live core) (R.remaining input.old.inner) (R.remaining input.new.inner)
        (W.contents output.old.inner) (W.contents output.new.inner) result }
    ensures cause { HasCause result input.new.failed input.new.calls output.new.failed }
    ensures flushed { output.old.flushed ≡ true → HasFlushed result output.new.flushed }
    ensures reads { input.new.calls ≤ 2 ^ 40 }
{
    let limits = Limits::full();
    run_show(rt, alloc, core, &limits, form_of(json), input, output)
}
