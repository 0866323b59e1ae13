//! `drf check`: verifies a journal and writes the verdict.
ghost use Rattle.std.specs.Prelude.{◌≡◌, ◌≤◌, ◌^◌, true, false, IfOk, string_bytes};
ghost use Rattle.drf_core.specs.Machine.{live};
ghost use Rattle.drf_journal.specs.Device.{IsNew};
ghost use Rattle.drf_journal.specs.Ended.{HasCause};
ghost use Rattle.drf_app.specs.Verdicts.{verdict_line, verdict_status, IsSaid, IsJudged};

use drf_core::Core;
use drf_journal::{Device, ProgramSorter, RunFault, Verdict, verify, write_whole};
use itoa::Buffer;
use std::alloc::{AllocError, Global};
use std::io::{Read, Write};

/// Returns the line for a verdict.
fn verdict_line(alloc: Global, verdict: Verdict) -> Result<String, AllocError>
    ensures { IfOk result (λ line. string_bytes line ≡ verdict_line verdict) }
{
    let (word, number) = match verdict {
        Verdict::Good(events) => ("good ", events),
        Verdict::Bad(line) => ("bad line ", line),
    };
    let mut line = String::new(alloc);
    line.push_str(word)?;
    line.push_str(Buffer::new().format(number))?;
    line.push('\n')?;
    Ok(line)
}

/// Writes the verdict.
fn say<W: Write>(alloc: Global, verdict: Verdict, output: &mut Device<W>) -> Result<(), RunFault>
    requires { output.old.failed ≡ false }
    ensures said { IsSaid verdict result (W.contents output.old.inner) (W.contents output.new.inner) output.new.failed }
    ensures flushed { output.old.flushed ≡ true → output.new.failed ≡ false → output.new.flushed ≡ true }
{
    let line = verdict_line(alloc, verdict)?;
    write_whole(output, line.as_str().as_bytes())
}

/// Verifies the journal on `input`, which starts from the state of `core`, and writes the verdict to `output`.
pub(crate) fn check<R: Read, W: Write>(
    alloc: Global,
    core: Core<ProgramSorter>,
    input: &mut Device<R>,
    output: &mut Device<W>,
) -> Result<Verdict, RunFault>
    requires input { IsNew input.old.calls input.old.failed }
    requires output { IsNew output.old.calls output.old.failed }
    ensures judged { IsJudged (live core) (R.remaining input.old.inner) result (W.contents output.old.inner) (W.contents output.new.inner) }
    ensures cause { HasCause result input.new.failed input.new.calls output.new.failed }
    ensures flushed { output.old.flushed ≡ true → output.new.failed ≡ false → output.new.flushed ≡ true }
    ensures reads { input.new.calls ≤ 2 ^ 40 }
{
    let verdict = verify(alloc, core, input)?;
    say(alloc, verdict, output)?;
    Ok(verdict)
}

/// Returns the exit status for a verdict.
pub(crate) fn verdict_status(verdict: Verdict) -> u8
    ensures { result ≡ verdict_status verdict }
{
    match verdict {
        Verdict::Good(_) => 0,
        Verdict::Bad(_) => 3,
    }
}
