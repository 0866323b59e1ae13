//! The allocator that a command starts from: empty, or with the state in a file.
ghost use Rattle.std.specs.Prelude.{◌≡◌, Some, [], false, IfErr, IfOk, option_map, unwrap_or};
ghost use Rattle.drf_core.specs.Machine.{live, opened};
ghost use Rattle.drf_journal.specs.declared.fault.RunFault.TheVariants.{Memory};
ghost use Rattle.drf_rows.specs.LimitNumbers.{ceilings};
ghost use Rattle.drf_app.specs.Starts.{HasReportedStart, IsInFile, IsStart, IsStartFault};
ghost use Rattle.drf_app.specs.declared.start.StartFault.TheVariants.{Run};

use crate::refused_line::{RefusedLine, report_line};
use crate::unread::report_file;
use drf_core::Core;
use drf_hash::HashKey;
use drf_journal::{Device, FileBytes, ProgramSorter, RunFault};
use drf_rows::Limits;
use drf_state::{StateError, StateFault, read_state};
use std::alloc::{AllocError, Global};
use std::io::Write;

/// Why a command could not start.
#[derive(Clone, Copy, PartialEq, Eq)]
pub(crate) enum StartFault {
    /// The file cannot be read, or memory ran out.
    Run(RunFault),
    /// The file is not a state: the number of the first wrong line, and its first error.
    Line { number: u64, fault: StateFault },
}

impl From<RunFault> for StartFault {
    ghost use Rattle.std.specs.Prelude.{◌≡◌};
    ghost use Rattle.drf_app.specs.declared.start.StartFault.TheVariants.{Run};

    ghost from_gives = { λ fault gives. gives ≡ Run fault };

    fn from(fault: RunFault) -> StartFault {
        StartFault::Run(fault)
    }
}

impl From<AllocError> for StartFault {
    ghost use Rattle.std.specs.Prelude.{◌≡◌};
    ghost use Rattle.drf_journal.specs.declared.fault.RunFault.TheVariants.{Memory};
    ghost use Rattle.drf_app.specs.declared.start.StartFault.TheVariants.{Run};

    ghost from_gives = { λ _ gives. gives ≡ Run Memory };

    fn from(_: AllocError) -> StartFault {
        StartFault::Run(RunFault::Memory)
    }
}

impl From<StateError> for StartFault {
    ghost use Rattle.std.specs.Prelude.{◌≡◌};
    ghost use Rattle.drf_app.specs.Starts.{start_fault_of};

    ghost from_gives = { λ error gives. gives ≡ start_fault_of error };

    fn from(error: StateError) -> StartFault {
        match error {
            StateError::Line { number, fault } => StartFault::Line { number, fault },
            StateError::Memory => StartFault::Run(RunFault::Memory),
        }
    }
}

/// Returns the allocator with the state in a file.
fn read_start<F: FileBytes>(
    alloc: Global,
    files: &mut F,
    name: &str,
) -> Result<Core<ProgramSorter>, StartFault>
    ensures ok { IfOk result (λ core. IsInFile (F.known files.old) name.now (live core)) }
    ensures limits { IfOk result (λ core. core.limits ≡ ceilings) }
    ensures err { IfErr result (IsStartFault (F.known files.old) (Some name.now)) }
    ensures same { F.known files.new ≡ F.known files.old }
{
    let bytes = files.bytes(name)?;
    let key = files.hash_key();
    Ok(read_state(alloc, Limits::full(), key, &bytes)?)
}

/// Returns an empty allocator.
fn open_start(alloc: Global, key: HashKey) -> Result<Core<ProgramSorter>, StartFault>
    ensures ok { IfOk result (λ core. live core ≡ opened ceilings) }
    ensures limits { IfOk result (λ core. core.limits ≡ ceilings) }
    ensures err { IfErr result (λ fault. fault ≡ Run Memory) }
{
    Ok(Core::open_keyed(alloc, Limits::full(), key)?)
}

/// Returns the allocator that a command starts from: empty, or with the state in the file `from`, which is read now.
pub(crate) fn begin<F: FileBytes>(
    alloc: Global,
    files: &mut F,
    from: Option<&str>,
) -> Result<Core<ProgramSorter>, StartFault>
    ensures ok { IfOk result (λ core. IsStart (F.known files.old) (option_map (λ name. name.now) from.entry) (live core)) }
    ensures limits { IfOk result (λ core. core.limits ≡ ceilings) }
    ensures err { IfErr result (IsStartFault (F.known files.old) (option_map (λ name. name.now) from.entry)) }
    ensures same { F.known files.new ≡ F.known files.old }
{
    match from {
        Some(name) => read_start(alloc, files, name),
        None => open_start(alloc, files.hash_key()),
    }
}

/// Reports why a command could not start, and returns the exit status.
pub(crate) fn report_start<E: Write>(
    alloc: Global,
    from: Option<&str>,
    fault: StartFault,
    errors: &mut Device<E>,
) -> u8
    requires { errors.old.failed ≡ false }
    ensures { HasReportedStart (unwrap_or (option_map (λ name. name.now) from.entry) []) fault result
        (E.contents errors.old.inner) (E.contents errors.new.inner) errors.new.failed }
{
    let file = from.unwrap_or("");
    match fault {
        StartFault::Run(fault) => report_file(alloc, file, fault, errors),
        StartFault::Line { number, fault } => {
            let line = RefusedLine {
                file,
                line: number,
                fault: fault.number(),
                name: fault.name(),
            };
            report_line(alloc, line, errors)
        }
    }
}
