//! Reads the bytes of files.
ghost use Rattle.std.specs.Prelude.{◌≡◌, map, IfOk, IfErr};
ghost use Rattle.drf_drive.specs.Files.{AreContents, IsUnread, bytes_of, fault_of};

use crate::script::ScriptFault;
use drf_journal::{FileBytes, RunFault};
use std::alloc::Global;
use std::convert::AsStr;

// Returns the error for the file at this index, which could not be read.
fn fault_of(file: usize, fault: RunFault) -> ScriptFault
    ensures { result ≡ fault_of file fault }
{
    match fault {
        RunFault::Read => ScriptFault::Unread(file),
        RunFault::Write | RunFault::Memory => ScriptFault::Run(fault),
    }
}

/// Returns the bytes of all files, in order. Errors: the first file that cannot be read, or out of memory.
pub(crate) fn read_files<F: FileBytes, S: AsStr>(
    alloc: Global,
    files: &mut F,
    names: &[S],
) -> Result<Vec<Vec<u8>>, ScriptFault>
    ensures contents { IfOk result (λ contents. AreContents (F.known files.old) (map S.text names.now) (bytes_of contents.items)) }
    ensures fault { IfErr result (IsUnread (F.known files.old) (map S.text names.now)) }
{
    let mut contents = Vec::new(alloc);
    for name in names {
        contents.reserve(1)?;
        match files.bytes(name.as_str()) {
            Ok(bytes) => contents.push_reserved(bytes),
            Err(fault) => return Err(fault_of(contents.len(), fault)),
        }
    }
    Ok(contents)
}
