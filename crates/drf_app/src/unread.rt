//! The report of a file that cannot be read.
ghost use Rattle.std.specs.Prelude.{◌≡◌, false, IfOk};
ghost use Rattle.drf_app.specs.Reported.{HasReportedFile, HasReportedUnread, unread_line};

use crate::file_name::push_name;
use crate::messages::{finish, report_bytes};
use drf_journal::{Device, RunFault};
use std::alloc::{AllocError, Global};
use std::io::Write;

/// Returns the message about a file that cannot be read.
fn unread_line(alloc: Global, file: &str) -> Result<Vec<u8>, AllocError>
    ensures { IfOk result (λ line. line.items ≡ unread_line file.now) }
{
    let mut line = Vec::new(alloc);
    line.extend_from_slice("drf: read fault: ".as_bytes())?;
    push_name(&mut line, file)?;
    line.push(b'\n')?;
    Ok(line)
}

/// Reports a file that cannot be read, and returns the exit status.
fn report_unread<E: Write>(alloc: Global, file: &str, errors: &mut Device<E>) -> u8
    requires { errors.old.failed ≡ false }
    ensures { HasReportedUnread file.now result (E.contents errors.old.inner) (E.contents errors.new.inner) errors.new.failed }
{
    match unread_line(alloc, file) {
        Ok(line) => {
            report_bytes(errors, &line);
            1
        }
        Err(_) => finish::<(), E>(Err(RunFault::Read), errors),
    }
}

/// Reports why a file gave no bytes, and returns the exit status. A read error is followed by the file's name, if there is memory for it.
pub(crate) fn report_file<E: Write>(
    alloc: Global,
    file: &str,
    fault: RunFault,
    errors: &mut Device<E>,
) -> u8
    requires { errors.old.failed ≡ false }
    ensures { HasReportedFile file.now fault result (E.contents errors.old.inner) (E.contents errors.new.inner) errors.new.failed }
{
    match fault {
        RunFault::Read => report_unread(alloc, file, errors),
        RunFault::Write | RunFault::Memory => finish::<(), E>(Err(fault), errors),
    }
}
