//! Checks a journal.
ghost use Rattle.std.specs.Prelude.{◌≡◌, ◌≤◌, ◌^◌, [], false, IfOk, IfSome};
ghost use Rattle.drf_core.specs.Machine.{Machine, live};
ghost use Rattle.drf_journal.specs.Checking.{IsCheckedTo};
ghost use Rattle.drf_journal.specs.Device.{IsNew};
ghost use Rattle.drf_journal.specs.Ended.{HasCause};
ghost use Rattle.drf_journal.specs.Journal.{IsVerdict};

use crate::checker::Checker;
use crate::device::Device;
use crate::engine::{CHUNK, MAX_READS, ProgramSorter};
use crate::fault::RunFault;
use drf_core::Core;
use drf_sorter::Sorter;
use std::alloc::Global;
use std::io::Read;

/// The result of checking a journal.
#[derive(Clone, Copy, PartialEq, Eq)]
pub enum Verdict {
    /// Each reply line is right; the number is that of the event lines.
    Good(u64),
    /// The first reply line that is wrong or missing, as a line number that counts from 1.
    Bad(u64),
}

/// Checks the lines of a reader, up to the first wrong one.
fn check<S: Sorter, R: Read>(
    alloc: Global,
    checker: &mut Checker<S>,
    reader: &mut Device<R>,
) -> Result<Verdict, RunFault>
    requires first { checker.old.events ≡ 0 }
    requires reader { IsNew reader.old.calls reader.old.failed }
    ensures verdict { IfOk result (λ verdict. (start : Machine) → IsCheckedTo start [] checker.old
        → IfSome (R.remaining reader.old.inner) (λ journal. IsVerdict start journal verdict)) }
    ensures cause { HasCause result reader.new.failed reader.new.calls false }
    ensures reads { reader.new.calls ≤ 2 ^ 40 }
{
    let mut buffer = vec![in alloc; 0u8; CHUNK]?;
    let chunk = buffer.as_mut_slice();
    for _turn in 0..MAX_READS {
        let Ok(count) = reader.read(chunk) else {
            return Err(RunFault::Read);
        };
        if count == 0 {
            return Ok(checker.verdict());
        }
        let right = checker.take(alloc, &chunk[..count])?;
        if !right {
            return Ok(Verdict::Bad(checker.reply_line()));
        }
    }
    Err(RunFault::Read)
}

/// Checks a journal that begins with this allocator, with the sorter that the program uses. It reads up to the first
/// wrong line. Of an event line it keeps no more bytes than a run does, and of a reply line no more than the right one
/// has. Fails with `Read` if a read fails or 2^40 reads do not reach the end, and with `Memory` if memory runs out.
pub fn verify<R: Read>(
    alloc: Global,
    core: Core<ProgramSorter>,
    reader: &mut Device<R>,
) -> Result<Verdict, RunFault>
    requires reader { IsNew reader.old.calls reader.old.failed }
    ensures verdict { IfOk result (λ verdict. IfSome (R.remaining reader.old.inner) (λ journal. IsVerdict (live core) journal verdict)) }
    ensures cause { HasCause result reader.new.failed reader.new.calls false }
    ensures reads { reader.new.calls ≤ 2 ^ 40 }
{
    let mut checker = Checker::begin(alloc, core);
    check(alloc, &mut checker, reader)
}
