//! Error messages on standard error, and exit statuses.
ghost use Rattle.std.specs.Prelude.{◌≡◌, false, Err};
ghost use Rattle.drf_journal.specs.declared.fault.RunFault.{RunFault};
ghost use Rattle.std.specs.IoError.{error_kind};
ghost use Rattle.drf_app.specs.Reported.{fault_line, no_text_line, status_of, IsReported, IsReportedOf};

use drf_journal::{Device, RunFault, write_whole};
use std::io;
use std::io::{ErrorKind, Write};

/// Returns the message about an error.
fn fault_line(fault: RunFault) -> &'static str
    ensures { result.now ≡ fault_line fault }
{
    match fault {
        RunFault::Read => "drf: read fault\n",
        RunFault::Write => "drf: write fault\n",
        RunFault::Memory => "drf: out of memory\n",
    }
}

/// Writes bytes as far as the device takes them. If that fails, only the exit status shows the error.
pub(crate) fn report_bytes<W: Write>(errors: &mut Device<W>, bytes: &[u8])
    requires { errors.old.failed ≡ false }
    ensures { IsReported bytes.now (W.contents errors.old.inner) (W.contents errors.new.inner) errors.new.failed }
{
    let _ = write_whole(errors, bytes);
}

/// Writes a text as far as the device takes it. If that fails, only the exit status shows the error.
pub(crate) fn report<W: Write>(errors: &mut Device<W>, text: &str)
    requires { errors.old.failed ≡ false }
    ensures { IsReported text.now (W.contents errors.old.inner) (W.contents errors.new.inner) errors.new.failed }
{
    report_bytes(errors, text.as_bytes());
}

/// Reports an error, if there is one, and returns the exit status: 0 or 1.
pub(crate) fn finish<T: Drop, E: Write>(ended: Result<T, RunFault>, errors: &mut Device<E>) -> u8
    requires { errors.old.failed ≡ false }
    ensures status { result ≡ status_of ended }
    ensures reported { IsReportedOf ended (E.contents errors.old.inner) (E.contents errors.new.inner) errors.new.failed }
{
    match ended {
        Ok(_) => 0,
        Err(fault) => {
            report(errors, fault_line(fault));
            1
        }
    }
}

/// Reports that the arguments cannot be read, and returns the exit status: 1 if memory ran out, 2 if one is not UTF-8.
pub fn report_no_arguments<E: Write>(error: &io::Error, errors: &mut Device<E>) -> u8
    requires { errors.old.failed ≡ false }
    ensures memory { error_kind error.now ≡ ErrorKind.OutOfMemory → (result ≡ 1)
        × IsReported (fault_line RunFault.Memory) (E.contents errors.old.inner) (E.contents errors.new.inner) errors.new.failed }
    ensures no_text { ¬ (error_kind error.now ≡ ErrorKind.OutOfMemory) → (result ≡ 2)
        × IsReported no_text_line (E.contents errors.old.inner) (E.contents errors.new.inner) errors.new.failed }
{
    if error.kind() == ErrorKind::OutOfMemory {
        return finish::<(), E>(Err(RunFault::Memory), errors);
    }
    report(errors, "drf: a word of the command line is not UTF-8\n");
    2
}
